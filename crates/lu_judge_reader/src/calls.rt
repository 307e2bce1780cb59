//! Calls, of the words that a trace has for them.

ghost use Rattle.std.specs.Prelude.{◌≤◌, All, IfOk, length};
ghost use Rattle.lu_trace.specs.WellFormed.{Fits, IsCall};
ghost use Rattle.lu_scene.specs.declared.words.CallName.TheVariants as calls;
ghost use Rattle.lu_judge_reader.specs.Reading.{Gives, Reads};
ghost use Rattle.lu_judge_reader.specs.Parts.{read_of, write_of, call_rest, call_reader};

use super::faults::LineFault;
use super::words::Words;
use lu_base::{Bytes, MOST_CALL_BYTES, MOST_POSITION};
use lu_msg::Call;
use lu_scene::{CallName, call_name_of};

/// The greatest stripe size that is asked for, in bytes.
pub const MOST_STRIPE_SIZE: u64 = 1 << 32;

/// A call.
#[tactic(auto, unfolding(crate::specs::Parts::call_reader))]
pub fn call(words: &mut Words) -> Result<Call, LineFault>
    ensures read { Reads result words.new (call_reader words.old) }
    ensures fits { IfOk result IsCall }
{
    let Some(name) = call_name_of(words.word()?) else {
        return Err(LineFault::Unread);
    };
    call_named(name, words)
}

/// A call of this name.
fn call_named(name: CallName, words: &mut Words) -> Result<Call, LineFault>
    ensures read { Reads result words.new (call_rest name words.old) }
    ensures fits { IfOk result IsCall }
{
    match name {
        CallName::Lookup => Ok(Call::Lookup(words.path()?)),
        CallName::Stat => Ok(Call::Stat(words.path()?)),
        CallName::List => Ok(Call::List(words.path()?)),
        CallName::Layout => Ok(Call::Layout(words.path()?)),
        CallName::Mkdir => Ok(Call::Mkdir(words.path()?)),
        CallName::Create => create(words),
        CallName::Link => link(words),
        CallName::Unlink => Ok(Call::Unlink(words.path()?)),
        CallName::Rmdir => Ok(Call::Rmdir(words.path()?)),
        CallName::Rename => rename(words),
        CallName::Chmod => chmod(words),
        CallName::Open => open(words),
        CallName::Close => Ok(Call::Close(words.handle()?)),
        CallName::Read => read(words),
        CallName::Write => write(words),
        CallName::Cut => cut(words),
        CallName::Flush => Ok(Call::Flush(words.handle()?)),
        CallName::Glimpse => Ok(Call::Glimpse(words.handle()?)),
    }
}

/// A `create`.
fn create(words: &mut Words) -> Result<Call, LineFault>
    ensures read { Reads result words.new (call_rest calls.Create words.old) }
    ensures fits { IfOk result IsCall }
{
    let path = words.path()?;
    let size = words.up_to(MOST_STRIPE_SIZE)?;
    let count = words.count()?;
    Ok(Call::Create {
        path,
        stripes: Some((size, count)),
    })
}

/// A `link`.
fn link(words: &mut Words) -> Result<Call, LineFault>
    ensures read { Reads result words.new (call_rest calls.Link words.old) }
    ensures fits { IfOk result IsCall }
{
    let old = words.path()?;
    let new = words.path()?;
    Ok(Call::Link { old, new })
}

/// A `rename`.
fn rename(words: &mut Words) -> Result<Call, LineFault>
    ensures read { Reads result words.new (call_rest calls.Rename words.old) }
    ensures fits { IfOk result IsCall }
{
    let old = words.path()?;
    let new = words.path()?;
    Ok(Call::Rename { old, new })
}

/// A `chmod`.
fn chmod(words: &mut Words) -> Result<Call, LineFault>
    ensures read { Reads result words.new (call_rest calls.Chmod words.old) }
    ensures fits { IfOk result IsCall }
{
    let path = words.path()?;
    let mode = words.rights()?;
    Ok(Call::Chmod { path, mode })
}

/// An `open`.
fn open(words: &mut Words) -> Result<Call, LineFault>
    ensures read { Reads result words.new (call_rest calls.Open words.old) }
    ensures fits { IfOk result IsCall }
{
    let handle = words.handle()?;
    let path = words.path()?;
    Ok(Call::Open { handle, path })
}

/// A `read`.
fn read(words: &mut Words) -> Result<Call, LineFault>
    ensures read { Reads result words.new (call_rest calls.Read words.old) }
    ensures fits { IfOk result IsCall }
{
    let handle = words.handle()?;
    let offset = words.number()?;
    let length = words.number()?;
    read_of(handle, offset, length)
}

/// A `read` of this handle, position and number of bytes.
fn read_of(handle: u8, offset: u64, length: u64) -> Result<Call, LineFault>
    requires handle { handle ≤ 15 }
    ensures read { Gives result (read_of handle offset length) }
    ensures fits { IfOk result IsCall }
{
    if length < 1 || length > MOST_CALL_BYTES || offset > MOST_POSITION - length {
        return Err(LineFault::Unread);
    }
    Ok(Call::Read {
        handle,
        offset,
        length,
    })
}

/// A `write`.
fn write(words: &mut Words) -> Result<Call, LineFault>
    ensures read { Reads result words.new (call_rest calls.Write words.old) }
    ensures fits { IfOk result IsCall }
{
    let handle = words.handle()?;
    let offset = words.number()?;
    let bytes = words.bytes()?;
    write_of(handle, offset, bytes)
}

/// A `write` on this handle, at this position, of these bytes.
fn write_of(handle: u8, offset: u64, bytes: Bytes) -> Result<Call, LineFault>
    requires handle { handle ≤ 15 }
    requires bytes { All (Fits 8) bytes }
    ensures read { Gives result (write_of handle offset bytes) }
    ensures fits { IfOk result IsCall }
{
    let length = bytes.len() as u64;
    if length < 1 || length > MOST_CALL_BYTES || offset > MOST_POSITION - length {
        return Err(LineFault::Unread);
    }
    Ok(Call::Write {
        handle,
        offset,
        bytes,
    })
}

/// A `cut`.
fn cut(words: &mut Words) -> Result<Call, LineFault>
    ensures read { Reads result words.new (call_rest calls.Cut words.old) }
    ensures fits { IfOk result IsCall }
{
    let handle = words.handle()?;
    let size = words.up_to(MOST_POSITION)?;
    Ok(Call::Cut { handle, size })
}
