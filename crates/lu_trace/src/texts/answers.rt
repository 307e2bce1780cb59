//! The text of an answer.

ghost use Rattle.std.specs.Prelude.{◌≡◌, ◌++◌, ◌∷◌, [], OnOk, length, codes, decimal};
ghost use Rattle.lu_base.specs.Texts.{pair_text};
ghost use Rattle.lu_base.specs.Values.{octal_text};
ghost use Rattle.lu_trace.specs.Words.{words};
ghost use Rattle.lu_trace.specs.Answers.{errno_text, answer_text};

use super::lists::{put_joined, put_layout, put_numbers};
use super::words::{put_with_number, put_with_pair, then_extent, then_number, then_pair};
use lu_base::{Bytes, Fid, Memory, Names, put_bytes, put_octal};
use lu_msg::{Answer, Errno};

/// An answer.
pub fn put_answer(out: &mut Bytes, answer: &Answer) -> Result<(), Memory>
    ensures put { OnOk result (out.new ≡ out.old ++ answer_text answer.now) }
{
    match answer {
        Answer::Done => out.extend(b"ok"),
        Answer::Made(fid) => put_with_pair(out, b"ok", fid.0),
        Answer::Dir(fid) => put_with_pair(out, b"dir", fid.0),
        Answer::File(fid) => put_with_pair(out, b"file", fid.0),
        Answer::DirStat { fid, mode } => put_inode(out, b"dir", *fid, *mode),
        Answer::FileStat {
            fid,
            mode,
            links,
            layout,
        } => {
            put_inode(out, b"file", *fid, *mode)?;
            then_number(out, *links)?;
            out.push(b' ')?;
            put_layout(out, layout)
        }
        Answer::FileSize {
            fid,
            mode,
            links,
            size,
        } => {
            put_inode(out, b"file", *fid, *mode)?;
            then_number(out, *links)?;
            then_number(out, *size)
        }
        Answer::Names(names) => put_names(out, names),
        Answer::Layout(layout) => {
            out.extend(b"layout ")?;
            put_layout(out, layout)
        }
        Answer::OpenFile { fid, txn, layout } => {
            put_with_pair(out, b"open", fid.0)?;
            then_pair(out, txn.0)?;
            out.push(b' ')?;
            put_layout(out, layout)
        }
        Answer::Granted {
            cookie,
            extent,
            size,
        } => {
            put_with_pair(out, b"granted", cookie.0)?;
            then_extent(out, *extent)?;
            then_number(out, *size)
        }
        Answer::Waiting(cookie) => put_with_pair(out, b"waiting", cookie.0),
        Answer::Content(bytes) => {
            out.extend(b"content ")?;
            put_bytes(out, bytes.as_slice())
        }
        Answer::Size(size) => put_with_number(out, b"size", *size),
        Answer::Lock => out.extend(b"lock"),
        Answer::Sizes(sizes) => {
            out.extend(b"sizes ")?;
            put_numbers(out, sizes)
        }
        Answer::Uncovered => out.extend(b"uncovered"),
        Answer::Refused(errno) => put_errno(out, *errno),
    }
}

/// A word, an inode and its mode.
fn put_inode(out: &mut Bytes, word: &[u8], fid: Fid, mode: u16) -> Result<(), Memory>
    ensures put { OnOk result (out.new ≡ out.old ++ words (word.now ∷ pair_text fid.0 ∷ octal_text mode ∷ [])) }
{
    put_with_pair(out, word, fid.0)?;
    out.push(b' ')?;
    put_octal(out, mode)
}

/// The names in a directory, after their number.
fn put_names(out: &mut Bytes, names: &Names) -> Result<(), Memory>
    ensures put { OnOk result (out.new ≡ out.old ++ words (codes "names" ∷ decimal (length names.now) ∷ names.now)) }
{
    put_with_number(out, b"names", names.len() as u64)?;
    match names.as_slice().split_first() {
        None => Ok(()),
        Some((first, rest)) => {
            out.push(b' ')?;
            put_joined(out, first, rest, b' ')
        }
    }
}

/// Why something is refused.
fn put_errno(out: &mut Bytes, errno: Errno) -> Result<(), Memory>
    ensures put { OnOk result (out.new ≡ out.old ++ errno_text errno) }
{
    match errno {
        Errno::ENOENT => out.extend(b"ENOENT"),
        Errno::EEXIST => out.extend(b"EEXIST"),
        Errno::ENOTDIR => out.extend(b"ENOTDIR"),
        Errno::EISDIR => out.extend(b"EISDIR"),
        Errno::ENOTEMPTY => out.extend(b"ENOTEMPTY"),
        Errno::EPERM => out.extend(b"EPERM"),
        Errno::EINVAL => out.extend(b"EINVAL"),
        Errno::EBUSY => out.extend(b"EBUSY"),
        Errno::EBADF => out.extend(b"EBADF"),
        Errno::ENAMETOOLONG => out.extend(b"ENAMETOOLONG"),
        Errno::EIO => out.extend(b"EIO"),
    }
}
