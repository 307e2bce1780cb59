//! Entries, of the words that a trace has for them.

ghost use Rattle.std.specs.Prelude.{IfOk};
ghost use Rattle.lu_trace.specs.WellFormed.{IsEntry, IsLock};
ghost use Rattle.lu_judge_reader.specs.declared.names.EntryName.TheVariants as entries;
ghost use Rattle.lu_judge_reader.specs.Reading.{Reads};
ghost use Rattle.lu_judge_reader.specs.Entries.{lock_reader, entry_rest, entry_reader};

use super::answers::answer;
use super::calls::call;
use super::faults::LineFault;
use super::messages::message;
use super::names::{EntryName, entry_name_of};
use super::words::Words;
use lu_base::{Ask, Cookie, Lock, Stamp, TargetId, Txn, Xid};
use lu_trace::Entry;

/// An entry of the turn of this stamp.
#[tactic(auto, unfolding(crate::specs::Entries::entry_reader))]
pub fn entry(stamp: Stamp, words: &mut Words) -> Result<Entry, LineFault>
    ensures read { Reads result words.new (entry_reader stamp words.old) }
    ensures fits { IfOk result (IsEntry stamp.0) }
{
    let Some(name) = entry_name_of(words.word()?) else {
        return Err(LineFault::Unread);
    };
    entry_named(stamp, name, words)
}

/// An entry of this name.
fn entry_named(stamp: Stamp, name: EntryName, words: &mut Words) -> Result<Entry, LineFault>
    ensures read { Reads result words.new (entry_rest stamp name words.old) }
    ensures fits { IfOk result (IsEntry stamp.0) }
{
    match name {
        EntryName::Begin => begin(stamp, words),
        EntryName::Busy => Ok(Entry::Busy(words.octet()?)),
        EntryName::Skip => Ok(Entry::Skip),
        EntryName::Send => send(stamp, words),
        EntryName::Take => Ok(Entry::Take(words.number()?)),
        EntryName::Tick => Ok(Entry::Tick),
        EntryName::Heard => heard(stamp, words),
        EntryName::Hold => hold(stamp, words),
        EntryName::Drop => drop_lock(stamp, words),
        EntryName::Told => told(stamp, words),
        EntryName::Peek => peek(stamp, words),
        EntryName::Life => Ok(Entry::Life(words.who()?)),
        EntryName::Die => Ok(Entry::Die),
        EntryName::Act => act(stamp, words),
        EntryName::Txn => transaction(stamp, words),
        EntryName::Grant => Ok(Entry::Grant(lock(words)?)),
        EntryName::Wait => Ok(Entry::Wait(lock(words)?)),
        EntryName::Block => Ok(Entry::Block(Cookie(words.pair()?))),
        EntryName::Release => Ok(Entry::Release(Cookie(words.pair()?))),
        EntryName::Commit => Ok(Entry::Commit(Txn(words.pair()?))),
        EntryName::Crash => Ok(Entry::Crash),
        EntryName::Boot => Ok(Entry::Boot(words.short()?)),
        EntryName::Back => Ok(Entry::Back(words.who()?)),
        EntryName::Close => Ok(Entry::Close),
        EntryName::Kept => Ok(Entry::Kept(Txn(words.pair()?))),
        EntryName::Restore => Ok(Entry::Restore(lock(words)?)),
        EntryName::Evict => evict(stamp, words),
        EntryName::Joined => Ok(Entry::Joined(words.who()?)),
        EntryName::Fail => Ok(Entry::Fail),
    }
}

/// A lock.
#[tactic(auto, unfolding(crate::specs::Entries::lock_reader))]
fn lock(words: &mut Words) -> Result<Lock, LineFault>
    ensures read { Reads result words.new (lock_reader words.old) }
    ensures fits { IfOk result IsLock }
{
    let cookie = Cookie(words.pair()?);
    let who = words.who()?;
    let (resource, mode, policy) = words.terms()?;
    Ok(Lock {
        cookie,
        resource,
        ask: Ask { who, mode, policy },
    })
}

/// A call begins.
fn begin(_stamp: Stamp, words: &mut Words) -> Result<Entry, LineFault>
    ensures read { Reads result words.new (entry_rest _stamp entries.Begin words.old) }
    ensures fits { IfOk result (IsEntry _stamp.0) }
{
    let slot = words.octet()?;
    let call = call(words)?;
    Ok(Entry::Begin { slot, call })
}

/// A message is sent.
fn send(stamp: Stamp, words: &mut Words) -> Result<Entry, LineFault>
    ensures read { Reads result words.new (entry_rest stamp entries.Send words.old) }
    ensures fits { IfOk result (IsEntry stamp.0) }
{
    let number = words.number()?;
    let to = words.node()?;
    let message = message(stamp, words)?;
    Ok(Entry::Send {
        number,
        to,
        message,
    })
}

/// A reply is heard.
fn heard(_stamp: Stamp, words: &mut Words) -> Result<Entry, LineFault>
    ensures read { Reads result words.new (entry_rest _stamp entries.Heard words.old) }
    ensures fits { IfOk result (IsEntry _stamp.0) }
{
    let target = TargetId(words.target()?);
    let xid = Xid(words.number()?);
    Ok(Entry::Heard { target, xid })
}

/// A lock is held.
fn hold(_stamp: Stamp, words: &mut Words) -> Result<Entry, LineFault>
    ensures read { Reads result words.new (entry_rest _stamp entries.Hold words.old) }
    ensures fits { IfOk result (IsEntry _stamp.0) }
{
    let target = TargetId(words.target()?);
    let cookie = Cookie(words.pair()?);
    Ok(Entry::Hold { target, cookie })
}

/// A lock is held no longer.
fn drop_lock(_stamp: Stamp, words: &mut Words) -> Result<Entry, LineFault>
    ensures read { Reads result words.new (entry_rest _stamp entries.Drop words.old) }
    ensures fits { IfOk result (IsEntry _stamp.0) }
{
    let target = TargetId(words.target()?);
    let cookie = Cookie(words.pair()?);
    Ok(Entry::Drop { target, cookie })
}

/// A call's answer.
fn told(_stamp: Stamp, words: &mut Words) -> Result<Entry, LineFault>
    ensures read { Reads result words.new (entry_rest _stamp entries.Told words.old) }
    ensures fits { IfOk result (IsEntry _stamp.0) }
{
    let slot = words.octet()?;
    let at = words.at()?;
    let answer = answer(words)?;
    Ok(Entry::Told { slot, at, answer })
}

/// A holder's answer to a glimpse.
fn peek(_stamp: Stamp, words: &mut Words) -> Result<Entry, LineFault>
    ensures read { Reads result words.new (entry_rest _stamp entries.Peek words.old) }
    ensures fits { IfOk result (IsEntry _stamp.0) }
{
    let target = TargetId(words.target()?);
    let cookie = Cookie(words.pair()?);
    let size = words.number()?;
    Ok(Entry::Peek {
        target,
        cookie,
        size,
    })
}

/// A request acted that made no transaction.
fn act(_stamp: Stamp, words: &mut Words) -> Result<Entry, LineFault>
    ensures read { Reads result words.new (entry_rest _stamp entries.Act words.old) }
    ensures fits { IfOk result (IsEntry _stamp.0) }
{
    let who = words.who()?;
    let xid = Xid(words.number()?);
    let answer = answer(words)?;
    Ok(Entry::Act { who, xid, answer })
}

/// A transaction.
fn transaction(_stamp: Stamp, words: &mut Words) -> Result<Entry, LineFault>
    ensures read { Reads result words.new (entry_rest _stamp entries.Txn words.old) }
    ensures fits { IfOk result (IsEntry _stamp.0) }
{
    let txn = Txn(words.pair()?);
    let who = words.who()?;
    let xid = Xid(words.number()?);
    let seen = words.seen()?;
    let answer = answer(words)?;
    Ok(Entry::Txn {
        txn,
        who,
        xid,
        seen,
        answer,
    })
}

/// A life loses its slot.
fn evict(_stamp: Stamp, words: &mut Words) -> Result<Entry, LineFault>
    ensures read { Reads result words.new (entry_rest _stamp entries.Evict words.old) }
    ensures fits { IfOk result (IsEntry _stamp.0) }
{
    let who = words.who()?;
    let cause = words.cause()?;
    Ok(Entry::Evict { who, cause })
}
