//! The text of an operation.

ghost use Rattle.std.specs.Prelude.{◌≡◌, ◌++◌, ◌∷◌, [], OnOk, codes, decimal};
ghost use Rattle.std.specs.Fmt.{signed_decimal};
ghost use Rattle.lu_base.specs.Texts.{pair_text, path_text, bytes_text};
ghost use Rattle.lu_base.specs.Values.{mode_text, octal_text};
ghost use Rattle.lu_trace.specs.Words.{words};
ghost use Rattle.lu_trace.specs.Values.{object_text, extent_text};
ghost use Rattle.lu_trace.specs.Ops.{under_lock_text, op_text};

use super::values::{put_count, put_object};
use super::words::{
    put_with_pair, put_with_path, put_with_paths, then_extent, then_number, then_pair,
};
use lu_base::{
    Bytes, Cookie, Extent, Memory, Mode, Path, Resource, put_bytes, put_mode, put_octal,
};
use lu_msg::Op;

/// An operation.
pub fn put_op(out: &mut Bytes, op: &Op) -> Result<(), Memory>
    ensures put { OnOk result (out.new ≡ out.old ++ op_text op.now) }
{
    match op {
        Op::Lookup(path) => put_with_path(out, b"lookup", path),
        Op::Stat(path) => put_with_path(out, b"stat", path),
        Op::List(path) => put_with_path(out, b"list", path),
        Op::Layout(path) => put_with_path(out, b"layout", path),
        Op::Mkdir(path) => put_with_path(out, b"mkdir", path),
        Op::Create { path, size, count } => put_create(out, path, *size, *count),
        Op::Link { old, new } => put_with_paths(out, b"link", old, new),
        Op::Unlink(path) => put_with_path(out, b"unlink", path),
        Op::Rmdir(path) => put_with_path(out, b"rmdir", path),
        Op::Rename { old, new } => put_with_paths(out, b"rename", old, new),
        Op::Chmod { path, mode } => put_chmod(out, path, *mode),
        Op::Open(path) => put_with_path(out, b"open", path),
        Op::Close { txn, fid } => {
            put_with_pair(out, b"close", txn.0)?;
            then_pair(out, fid.0)
        }
        Op::Enqueue {
            resource,
            mode,
            extent,
        } => put_enqueue(out, *resource, *mode, *extent),
        Op::Get {
            resource,
            cookie,
            page,
        } => put_under_lock(out, b"get", *resource, *cookie, *page),
        Op::Put {
            resource,
            cookie,
            offset,
            bytes,
        } => {
            put_under_lock(out, b"put", *resource, *cookie, *offset)?;
            out.push(b' ')?;
            put_bytes(out, bytes.as_slice())
        }
        Op::Cut {
            resource,
            cookie,
            size,
        } => put_under_lock(out, b"cut", *resource, *cookie, *size),
        Op::Size(resource) => put_with_object(out, b"size", *resource),
    }
}

/// The making of a file.
pub fn put_create(out: &mut Bytes, path: &Path, size: u64, count: i32) -> Result<(), Memory>
    ensures put { OnOk result (out.new ≡ out.old ++ op_text (Op.Create path.now size count)) }
{
    put_with_path(out, b"create", path)?;
    then_number(out, size)?;
    out.push(b' ')?;
    put_count(out, count)
}

/// The setting of a mode.
pub fn put_chmod(out: &mut Bytes, path: &Path, mode: u16) -> Result<(), Memory>
    ensures put { OnOk result (out.new ≡ out.old ++ op_text (Op.Chmod path.now mode)) }
{
    put_with_path(out, b"chmod", path)?;
    out.push(b' ')?;
    put_octal(out, mode)
}

/// The asking for a lock.
fn put_enqueue(
    out: &mut Bytes,
    resource: Resource,
    mode: Mode,
    extent: Extent,
) -> Result<(), Memory>
    ensures put { OnOk result (out.new ≡ out.old ++ op_text (Op.Enqueue resource mode extent)) }
{
    put_with_object(out, b"enqueue", resource)?;
    out.push(b' ')?;
    put_mode(out, mode)?;
    then_extent(out, extent)
}

/// A word and an object.
fn put_with_object(out: &mut Bytes, word: &[u8], resource: Resource) -> Result<(), Memory>
    ensures put { OnOk result (out.new ≡ out.old ++ words (word.now ∷ object_text resource ∷ [])) }
{
    out.extend(word)?;
    out.push(b' ')?;
    put_object(out, resource)
}

/// A word, an object, the lock under which it is read or changed, and a number.
fn put_under_lock(
    out: &mut Bytes,
    word: &[u8],
    resource: Resource,
    cookie: Cookie,
    number: u64,
) -> Result<(), Memory>
    ensures put { OnOk result (out.new ≡ out.old ++ under_lock_text word.now resource cookie number) }
{
    put_with_object(out, word, resource)?;
    then_pair(out, cookie.0)?;
    then_number(out, number)
}
