//! Answers, compared.

ghost use Rattle.std.specs.Prelude.{◌≡◌, IsTrue, ◌↔◌};

use lu_base::{Bytes, Extent, Names, Numbers};
use lu_layout::Layout;
use lu_msg::{Answer, Errno};

/// Whether both are one list of names.
fn same_names(a: &Names, b: &Names) -> bool
    ensures same { IsTrue result ↔ (a.now ≡ b.now) }
{
    a == b
}

/// Whether both are the same bytes.
fn same_bytes(a: &Bytes, b: &Bytes) -> bool
    ensures same { IsTrue result ↔ (a.now ≡ b.now) }
{
    a.as_slice() == b.as_slice()
}

/// Whether both are the same numbers.
fn same_numbers(a: &Numbers, b: &Numbers) -> bool
    ensures same { IsTrue result ↔ (a.now ≡ b.now) }
{
    a.as_slice() == b.as_slice()
}

/// Whether both are one layout.
fn same_layout(a: &Layout, b: &Layout) -> bool
    ensures same { IsTrue result ↔ (a.now ≡ b.now) }
{
    a.size() == b.size() && a.targets() == b.targets()
}

/// Whether both are one range.
fn same_extent(a: &Extent, b: &Extent) -> bool
    ensures same { IsTrue result ↔ (a.now ≡ b.now) }
{
    a.first == b.first && a.last == b.last
}

/// Whether both are one refusal.
fn same_errno(a: &Errno, b: &Errno) -> bool
    ensures same { IsTrue result ↔ (a.now ≡ b.now) }
{
    match (a, b) {
        (Errno::ENOENT, Errno::ENOENT)
        | (Errno::EEXIST, Errno::EEXIST)
        | (Errno::ENOTDIR, Errno::ENOTDIR)
        | (Errno::EISDIR, Errno::EISDIR)
        | (Errno::ENOTEMPTY, Errno::ENOTEMPTY)
        | (Errno::EPERM, Errno::EPERM)
        | (Errno::EINVAL, Errno::EINVAL)
        | (Errno::EBUSY, Errno::EBUSY)
        | (Errno::EBADF, Errno::EBADF)
        | (Errno::ENAMETOOLONG, Errno::ENAMETOOLONG)
        | (Errno::EIO, Errno::EIO) => true,
        _ => false,
    }
}

/// Whether both are one answer.
pub(crate) fn same_answer(a: &Answer, b: &Answer) -> bool
    ensures same { IsTrue result ↔ (a.now ≡ b.now) }
{
    match (a, b) {
        (Answer::Done, Answer::Done)
        | (Answer::Lock, Answer::Lock)
        | (Answer::Uncovered, Answer::Uncovered) => true,
        (Answer::Made(fid), Answer::Made(other))
        | (Answer::Dir(fid), Answer::Dir(other))
        | (Answer::File(fid), Answer::File(other)) => fid.0 == other.0,
        (Answer::DirStat { fid, mode }, Answer::DirStat { fid: f, mode: m }) => {
            fid.0 == f.0 && *mode == *m
        }
        (
            Answer::FileStat {
                fid,
                mode,
                links,
                layout,
            },
            Answer::FileStat {
                fid: f,
                mode: m,
                links: n,
                layout: l,
            },
        ) => fid.0 == f.0 && *mode == *m && *links == *n && same_layout(layout, l),
        (
            Answer::FileSize {
                fid,
                mode,
                links,
                size,
            },
            Answer::FileSize {
                fid: f,
                mode: m,
                links: n,
                size: s,
            },
        ) => fid.0 == f.0 && *mode == *m && *links == *n && *size == *s,
        (Answer::Names(names), Answer::Names(other)) => same_names(names, other),
        (Answer::Layout(layout), Answer::Layout(other)) => same_layout(layout, other),
        (
            Answer::OpenFile { fid, txn, layout },
            Answer::OpenFile {
                fid: f,
                txn: t,
                layout: l,
            },
        ) => { fid.0 == f.0 && txn.0 == t.0 && same_layout(layout, l) }
        (
            Answer::Granted {
                cookie,
                extent,
                size,
            },
            Answer::Granted {
                cookie: c,
                extent: e,
                size: s,
            },
        ) => cookie.0 == c.0 && same_extent(extent, e) && *size == *s,
        (Answer::Waiting(cookie), Answer::Waiting(other)) => cookie.0 == other.0,
        (Answer::Content(bytes), Answer::Content(other)) => same_bytes(bytes, other),
        (Answer::Size(size), Answer::Size(other)) => *size == *other,
        (Answer::Sizes(sizes), Answer::Sizes(other)) => same_numbers(sizes, other),
        (Answer::Refused(errno), Answer::Refused(other)) => same_errno(errno, other),
        _ => false,
    }
}
