//! The text of a call.

ghost use Rattle.std.specs.Prelude.{◌≡◌, ◌++◌, ◌∷◌, [], Option, OnOk, decimal};
ghost use Rattle.lu_trace.specs.Words.{words};
ghost use Rattle.lu_trace.specs.Calls.{call_text};

use super::operations::{put_chmod, put_create};
use super::words::{put_with_number, put_with_path, put_with_paths, then_number, then_path};
use lu_base::{Bytes, Memory, Path, put_bytes};
use lu_msg::Call;

/// Appends a call: its name and what it is of, with one space between words. Numbers are decimal, a mode
/// is octal, bytes have two hexadecimal digits each. After want of memory a part of it may stand.
pub fn put_call(out: &mut Bytes, call: &Call) -> Result<(), Memory>
    ensures put { OnOk result (out.new ≡ out.old ++ call_text call.now) }
{
    match call {
        Call::Lookup(path) => put_with_path(out, b"lookup", path),
        Call::Stat(path) => put_with_path(out, b"stat", path),
        Call::List(path) => put_with_path(out, b"list", path),
        Call::Layout(path) => put_with_path(out, b"layout", path),
        Call::Mkdir(path) => put_with_path(out, b"mkdir", path),
        Call::Create { path, stripes } => put_striped(out, path, *stripes),
        Call::Link { old, new } => put_with_paths(out, b"link", old, new),
        Call::Unlink(path) => put_with_path(out, b"unlink", path),
        Call::Rmdir(path) => put_with_path(out, b"rmdir", path),
        Call::Rename { old, new } => put_with_paths(out, b"rename", old, new),
        Call::Chmod { path, mode } => put_chmod(out, path, *mode),
        Call::Open { handle, path } => put_open(out, *handle, path),
        Call::Close(handle) => put_with_number(out, b"close", u64::from(*handle)),
        Call::Read {
            handle,
            offset,
            length,
        } => put_read(out, *handle, *offset, *length),
        Call::Write {
            handle,
            offset,
            bytes,
        } => put_write(out, *handle, *offset, bytes),
        Call::Cut { handle, size } => put_on_handle(out, b"cut", *handle, *size),
        Call::Flush(handle) => put_with_number(out, b"flush", u64::from(*handle)),
        Call::Glimpse(handle) => put_with_number(out, b"glimpse", u64::from(*handle)),
    }
}

/// The making of a file, with its stripe size and number of stripes where they are given.
fn put_striped(out: &mut Bytes, path: &Path, stripes: Option<(u64, i32)>) -> Result<(), Memory>
    ensures put { OnOk result (out.new ≡ out.old ++ call_text (Call.Create path.now stripes)) }
{
    match stripes {
        None => put_with_path(out, b"create", path),
        Some((size, count)) => put_create(out, path, size, count),
    }
}

/// The opening of a file.
fn put_open(out: &mut Bytes, handle: u8, path: &Path) -> Result<(), Memory>
    ensures put { OnOk result (out.new ≡ out.old ++ call_text (Call.Open handle path.now)) }
{
    put_with_number(out, b"open", u64::from(handle))?;
    then_path(out, path)
}

/// The reading of a range.
fn put_read(out: &mut Bytes, handle: u8, offset: u64, length: u64) -> Result<(), Memory>
    ensures put { OnOk result (out.new ≡ out.old ++ call_text (Call.Read handle offset length)) }
{
    put_on_handle(out, b"read", handle, offset)?;
    then_number(out, length)
}

/// The writing of bytes.
fn put_write(out: &mut Bytes, handle: u8, offset: u64, bytes: &Bytes) -> Result<(), Memory>
    ensures put { OnOk result (out.new ≡ out.old ++ call_text (Call.Write handle offset bytes.now)) }
{
    put_on_handle(out, b"write", handle, offset)?;
    out.push(b' ')?;
    put_bytes(out, bytes.as_slice())
}

/// A word, a handle and a number.
fn put_on_handle(out: &mut Bytes, word: &[u8], handle: u8, number: u64) -> Result<(), Memory>
    ensures put { OnOk result (out.new ≡ out.old ++ words (word.now ∷ decimal handle ∷ decimal number ∷ [])) }
{
    put_with_number(out, word, u64::from(handle))?;
    then_number(out, number)
}
