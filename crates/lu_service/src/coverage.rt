//! Which granted lock covers a request for bytes.

ghost use Rattle.std.specs.Prelude.{◌≡◌, ◌+◌, ◌*◌, ◌≤◌, length};
ghost use Rattle.std.specs.Option.{option_copied};
ghost use Rattle.lu_spec_machine.specs.Objects.{page_size, page_extent};
ghost use Rattle.lu_service.specs.Contents.{most_bytes, same_resource};
ghost use Rattle.lu_service.specs.Takes.{IsOnObject};
ghost use Rattle.lu_service.specs.Covered.{covered, covers, covers_read, covers_write, extent_of, is_named, lies_in, put_extent, cut_extent};

use lu_base::{Bytes, Cookie, Extent, Lock, Mode, Policy, Resource, Who};
use lu_lock::{extents_meet, serves};
use lu_msg::Op;

/// The bytes of a page.
const PAGE: u64 = 4096;

/// Whether this lock, which is given where the target has granted it, covers what a life asks: a `get`, `put` or
/// `cut` that names it. It is the asker's, on that object; for a `get` in a mode that serves PR, with a range that
/// meets the page, and for the others in PW, with a range that holds all that is written. A cut to 0 bytes writes
/// from offset 0 on, any other from its last byte on. Nothing else is ever covered. It takes no memory.
pub fn covered(op: &Op, lock: Option<&Lock>, who: Who) -> bool
    requires on_object { IsOnObject op.now }
    ensures test { result ≡ covered op.now (option_copied lock.entry) who }
{
    match lock {
        Some(lock) => covers(op, lock, who),
        None => false,
    }
}

/// The same of a granted lock.
fn covers(op: &Op, lock: &Lock, who: Who) -> bool
    requires on_object { IsOnObject op.now }
    ensures test { result ≡ covers op.now lock.now who }
{
    match op {
        Op::Get {
            resource,
            cookie,
            page,
        } => is_named(who, *resource, *cookie, lock) && covers_read(*page, lock),
        Op::Put {
            resource,
            cookie,
            offset,
            bytes,
        } => {
            is_named(who, *resource, *cookie, lock)
                && covers_write(put_extent(*offset, bytes), lock)
        }
        Op::Cut {
            resource,
            cookie,
            size,
        } => is_named(who, *resource, *cookie, lock) && covers_write(cut_extent(*size), lock),
        _ => false,
    }
}

/// Whether it is that life's lock of this cookie on that object.
fn is_named(who: Who, resource: Resource, cookie: Cookie, lock: &Lock) -> bool
    ensures test { result ≡ is_named who resource cookie lock.now }
{
    lock.resource == resource && lock.cookie == cookie && lock.ask.who == who
}

/// Whether a page may be read under it.
fn covers_read(page: u64, lock: &Lock) -> bool
    requires end { (page + 1) * page_size ≤ most_bytes }
    ensures test { result ≡ covers_read page lock.now }
{
    serves(lock.ask.mode, Mode::PR) && extents_meet(extent_of(lock), page_extent(page))
}

/// Whether the offsets of an extent may be written under it.
fn covers_write(extent: Extent, lock: &Lock) -> bool
    ensures test { result ≡ covers_write extent lock.now }
{
    serves(lock.ask.mode, Mode::PW) && lies_in(extent, extent_of(lock))
}

/// The range of a lock on an object.
fn extent_of(lock: &Lock) -> Extent
    ensures extent { result ≡ extent_of lock.now }
{
    match lock.ask.policy {
        Policy::Range(extent) => extent,
        Policy::Bits(_) => Extent { first: 0, last: 0 },
    }
}

/// Whether each offset of the one extent is in the other.
fn lies_in(extent: Extent, outer: Extent) -> bool
    ensures test { result ≡ lies_in extent outer }
{
    outer.first <= extent.first && extent.last <= outer.last
}

/// The offsets of a page.
fn page_extent(page: u64) -> Extent
    requires end { (page + 1) * page_size ≤ most_bytes }
    ensures extent { result ≡ page_extent page }
{
    Extent {
        first: page * PAGE,
        last: page * PAGE + (PAGE - 1),
    }
}

/// The offsets that a put writes.
fn put_extent(offset: u64, bytes: &Bytes) -> Extent
    requires end { offset + length bytes.now ≤ most_bytes }
    ensures extent { result ≡ put_extent offset bytes.now }
{
    Extent {
        first: offset,
        last: (offset + bytes.len() as u64).saturating_sub(1),
    }
}

/// The offsets that a cut writes.
fn cut_extent(size: u64) -> Extent
    ensures extent { result ≡ cut_extent size }
{
    Extent {
        first: size.max(1) - 1,
        last: u64::MAX,
    }
}
