//! Operations, of the words that a trace has for them.

ghost use Rattle.std.specs.Prelude.{All, IfOk, length};
ghost use Rattle.lu_trace.specs.WellFormed.{Fits, IsOp};
ghost use Rattle.lu_judge_reader.specs.declared.names.OpName.TheVariants as ops;
ghost use Rattle.lu_judge_reader.specs.Reading.{Gives, Reads};
ghost use Rattle.lu_judge_reader.specs.Parts.{put_of, op_rest, op_reader};

use super::calls::MOST_STRIPE_SIZE;
use super::faults::LineFault;
use super::names::{OpName, op_name_of};
use super::words::Words;
use lu_base::{Bytes, Cookie, Fid, MOST_POSITION, Resource, Txn};
use lu_msg::Op;

/// An operation.
#[tactic(auto, unfolding(crate::specs::Parts::op_reader))]
pub fn operation(words: &mut Words) -> Result<Op, LineFault>
    ensures read { Reads result words.new (op_reader words.old) }
    ensures fits { IfOk result IsOp }
{
    let Some(name) = op_name_of(words.word()?) else {
        return Err(LineFault::Unread);
    };
    operation_named(name, words)
}

/// An operation of this name.
fn operation_named(name: OpName, words: &mut Words) -> Result<Op, LineFault>
    ensures read { Reads result words.new (op_rest name words.old) }
    ensures fits { IfOk result IsOp }
{
    match name {
        OpName::Lookup => Ok(Op::Lookup(words.path()?)),
        OpName::Stat => Ok(Op::Stat(words.path()?)),
        OpName::List => Ok(Op::List(words.path()?)),
        OpName::Layout => Ok(Op::Layout(words.path()?)),
        OpName::Mkdir => Ok(Op::Mkdir(words.path()?)),
        OpName::Create => create(words),
        OpName::Link => link(words),
        OpName::Unlink => Ok(Op::Unlink(words.path()?)),
        OpName::Rmdir => Ok(Op::Rmdir(words.path()?)),
        OpName::Rename => rename(words),
        OpName::Chmod => chmod(words),
        OpName::Open => Ok(Op::Open(words.path()?)),
        OpName::Close => close(words),
        OpName::Enqueue => enqueue(words),
        OpName::Get => get(words),
        OpName::Put => put(words),
        OpName::Cut => cut(words),
        OpName::Size => Ok(Op::Size(words.object()?)),
    }
}

/// A `create`.
fn create(words: &mut Words) -> Result<Op, LineFault>
    ensures read { Reads result words.new (op_rest ops.Create words.old) }
    ensures fits { IfOk result IsOp }
{
    let path = words.path()?;
    let size = words.up_to(MOST_STRIPE_SIZE)?;
    let count = words.count()?;
    Ok(Op::Create { path, size, count })
}

/// A `link`.
fn link(words: &mut Words) -> Result<Op, LineFault>
    ensures read { Reads result words.new (op_rest ops.Link words.old) }
    ensures fits { IfOk result IsOp }
{
    let old = words.path()?;
    let new = words.path()?;
    Ok(Op::Link { old, new })
}

/// A `rename`.
fn rename(words: &mut Words) -> Result<Op, LineFault>
    ensures read { Reads result words.new (op_rest ops.Rename words.old) }
    ensures fits { IfOk result IsOp }
{
    let old = words.path()?;
    let new = words.path()?;
    Ok(Op::Rename { old, new })
}

/// A `chmod`.
fn chmod(words: &mut Words) -> Result<Op, LineFault>
    ensures read { Reads result words.new (op_rest ops.Chmod words.old) }
    ensures fits { IfOk result IsOp }
{
    let path = words.path()?;
    let mode = words.rights()?;
    Ok(Op::Chmod { path, mode })
}

/// A `close`.
fn close(words: &mut Words) -> Result<Op, LineFault>
    ensures read { Reads result words.new (op_rest ops.Close words.old) }
    ensures fits { IfOk result IsOp }
{
    let txn = Txn(words.pair()?);
    let fid = Fid(words.pair()?);
    Ok(Op::Close { txn, fid })
}

/// An `enqueue`.
fn enqueue(words: &mut Words) -> Result<Op, LineFault>
    ensures read { Reads result words.new (op_rest ops.Enqueue words.old) }
    ensures fits { IfOk result IsOp }
{
    let resource = words.object()?;
    let mode = words.mode()?;
    let extent = words.extent()?;
    Ok(Op::Enqueue {
        resource,
        mode,
        extent,
    })
}

/// A `get`.
fn get(words: &mut Words) -> Result<Op, LineFault>
    ensures read { Reads result words.new (op_rest ops.Get words.old) }
    ensures fits { IfOk result IsOp }
{
    let resource = words.object()?;
    let cookie = Cookie(words.pair()?);
    let page = words.page()?;
    Ok(Op::Get {
        resource,
        cookie,
        page,
    })
}

/// A `put`.
fn put(words: &mut Words) -> Result<Op, LineFault>
    ensures read { Reads result words.new (op_rest ops.Put words.old) }
    ensures fits { IfOk result IsOp }
{
    let resource = words.object()?;
    let cookie = Cookie(words.pair()?);
    let offset = words.number()?;
    let bytes = words.bytes()?;
    put_of(resource, cookie, offset, bytes)
}

/// A `put` of these bytes at this offset.
fn put_of(resource: Resource, cookie: Cookie, offset: u64, bytes: Bytes) -> Result<Op, LineFault>
    requires bytes { All (Fits 8) bytes }
    ensures read { Gives result (put_of resource cookie.0 offset bytes) }
    ensures fits { IfOk result IsOp }
{
    let length = bytes.len() as u64;
    if length > MOST_POSITION || offset > MOST_POSITION - length {
        return Err(LineFault::Unread);
    }
    Ok(Op::Put {
        resource,
        cookie,
        offset,
        bytes,
    })
}

/// A `cut`.
fn cut(words: &mut Words) -> Result<Op, LineFault>
    ensures read { Reads result words.new (op_rest ops.Cut words.old) }
    ensures fits { IfOk result IsOp }
{
    let resource = words.object()?;
    let cookie = Cookie(words.pair()?);
    let size = words.up_to(MOST_POSITION)?;
    Ok(Op::Cut {
        resource,
        cookie,
        size,
    })
}
