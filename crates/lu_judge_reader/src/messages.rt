//! Messages, of the words that a trace has for them.

ghost use Rattle.std.specs.Prelude.{IfOk};
ghost use Rattle.lu_trace.specs.WellFormed.{IsMessage};
ghost use Rattle.lu_judge_reader.specs.declared.names.MessageName.TheVariants as messages;
ghost use Rattle.lu_judge_reader.specs.Reading.{Reads};
ghost use Rattle.lu_judge_reader.specs.Messages.{message_rest, message_reader};

use super::answers::answer;
use super::faults::LineFault;
use super::names::{MessageName, message_name_of};
use super::operations::operation;
use super::words::Words;
use lu_base::{Cookie, Stamp, Txn, Xid};
use lu_msg::{GrantNotice, LockReplay, Message, Reply, Request, RequestReplay, SizeReport};

/// A message that is sent in the turn of this stamp.
#[tactic(auto, unfolding(crate::specs::Messages::message_reader))]
pub fn message(stamp: Stamp, words: &mut Words) -> Result<Message, LineFault>
    ensures read { Reads result words.new (message_reader stamp words.old) }
    ensures fits { IfOk result (IsMessage stamp.0) }
{
    let Some(name) = message_name_of(words.word()?) else {
        return Err(LineFault::Unread);
    };
    message_named(stamp, name, words)
}

/// A message of this name.
fn message_named(stamp: Stamp, name: MessageName, words: &mut Words) -> Result<Message, LineFault>
    ensures read { Reads result words.new (message_rest stamp name words.old) }
    ensures fits { IfOk result (IsMessage stamp.0) }
{
    match name {
        MessageName::Request => request(stamp, words),
        MessageName::Cancel => cancel(stamp, words),
        MessageName::Where => whereabouts(stamp, words),
        MessageName::Replay => replay(stamp, words),
        MessageName::Lock => lock(stamp, words),
        MessageName::Word => word(stamp, words),
        MessageName::Join => join(stamp, words),
        MessageName::Size => size(stamp, words),
        MessageName::Up => Ok(Message::Up(words.short()?)),
        MessageName::Reply => reply(stamp, words),
        MessageName::Grant => grant(stamp, words),
        MessageName::Block => block(stamp, words),
        MessageName::Ask => ask(stamp, words),
        MessageName::Ready => ready(stamp, words),
        MessageName::Evicted => evicted(stamp, words),
    }
}

/// A request.
fn request(_stamp: Stamp, words: &mut Words) -> Result<Message, LineFault>
    ensures read { Reads result words.new (message_rest _stamp messages.Request words.old) }
    ensures fits { IfOk result (IsMessage _stamp.0) }
{
    let who = words.who()?;
    let boot = words.short()?;
    let (xid, tag) = words.tagged()?;
    let op = operation(words)?;
    Ok(Message::Request(Request {
        who,
        boot,
        xid,
        tag,
        op,
    }))
}

/// A lock is given back.
fn cancel(_stamp: Stamp, words: &mut Words) -> Result<Message, LineFault>
    ensures read { Reads result words.new (message_rest _stamp messages.Cancel words.old) }
    ensures fits { IfOk result (IsMessage _stamp.0) }
{
    let who = words.who()?;
    let boot = words.short()?;
    let cookie = Cookie(words.pair()?);
    Ok(Message::Cancel { who, boot, cookie })
}

/// What has become of a lock?
fn whereabouts(_stamp: Stamp, words: &mut Words) -> Result<Message, LineFault>
    ensures read { Reads result words.new (message_rest _stamp messages.Where words.old) }
    ensures fits { IfOk result (IsMessage _stamp.0) }
{
    let who = words.who()?;
    let boot = words.short()?;
    let cookie = Cookie(words.pair()?);
    Ok(Message::Where { who, boot, cookie })
}

/// A request is replayed.
fn replay(_stamp: Stamp, words: &mut Words) -> Result<Message, LineFault>
    ensures read { Reads result words.new (message_rest _stamp messages.Replay words.old) }
    ensures fits { IfOk result (IsMessage _stamp.0) }
{
    let who = words.who()?;
    let boot = words.short()?;
    let txn = Txn(words.pair()?);
    let (xid, tag) = words.tagged()?;
    let seen = words.seen()?;
    let op = operation(words)?;
    Ok(Message::Replay(RequestReplay {
        who,
        boot,
        txn,
        xid,
        tag,
        seen,
        op,
    }))
}

/// A lock is replayed.
fn lock(_stamp: Stamp, words: &mut Words) -> Result<Message, LineFault>
    ensures read { Reads result words.new (message_rest _stamp messages.Lock words.old) }
    ensures fits { IfOk result (IsMessage _stamp.0) }
{
    let who = words.who()?;
    let boot = words.short()?;
    let cookie = Cookie(words.pair()?);
    let (resource, mode, policy) = words.terms()?;
    Ok(Message::Lock(LockReplay {
        who,
        boot,
        cookie,
        resource,
        mode,
        policy,
    }))
}

/// All replays are sent.
fn word(_stamp: Stamp, words: &mut Words) -> Result<Message, LineFault>
    ensures read { Reads result words.new (message_rest _stamp messages.Word words.old) }
    ensures fits { IfOk result (IsMessage _stamp.0) }
{
    let who = words.who()?;
    let boot = words.short()?;
    let replays = words.short()?;
    let locks = words.short()?;
    let seen = words.seen()?;
    Ok(Message::Word {
        who,
        boot,
        replays,
        locks,
        seen,
    })
}

/// A new life wants a slot.
fn join(_stamp: Stamp, words: &mut Words) -> Result<Message, LineFault>
    ensures read { Reads result words.new (message_rest _stamp messages.Join words.old) }
    ensures fits { IfOk result (IsMessage _stamp.0) }
{
    let who = words.who()?;
    let boot = words.short()?;
    Ok(Message::Join { who, boot })
}

/// A holder's answer to a glimpse; its text doesn't have the stamp.
fn size(stamp: Stamp, words: &mut Words) -> Result<Message, LineFault>
    ensures read { Reads result words.new (message_rest stamp messages.Size words.old) }
    ensures fits { IfOk result (IsMessage stamp.0) }
{
    let who = words.who()?;
    let boot = words.short()?;
    let cookie = Cookie(words.pair()?);
    let for_who = words.who()?;
    let xid = Xid(words.number()?);
    let size = words.size()?;
    Ok(Message::Size(SizeReport {
        who,
        boot,
        cookie,
        for_who,
        xid,
        size,
        stamp,
    }))
}

/// A reply.
fn reply(_stamp: Stamp, words: &mut Words) -> Result<Message, LineFault>
    ensures read { Reads result words.new (message_rest _stamp messages.Reply words.old) }
    ensures fits { IfOk result (IsMessage _stamp.0) }
{
    let who = words.who()?;
    let boot = words.short()?;
    let xid = Xid(words.number()?);
    let txn = Txn(words.pair()?);
    let committed = Txn(words.pair()?);
    let seen = words.seen()?;
    let at = words.at()?;
    let locks = words.locks(who)?;
    let answer = answer(words)?;
    Ok(Message::Reply(Reply {
        who,
        boot,
        xid,
        txn,
        committed,
        seen,
        at,
        locks,
        answer,
    }))
}

/// A lock that waited is granted.
fn grant(_stamp: Stamp, words: &mut Words) -> Result<Message, LineFault>
    ensures read { Reads result words.new (message_rest _stamp messages.Grant words.old) }
    ensures fits { IfOk result (IsMessage _stamp.0) }
{
    let who = words.who()?;
    let boot = words.short()?;
    let cookie = Cookie(words.pair()?);
    let extent = words.extent()?;
    let size = words.number()?;
    let committed = Txn(words.pair()?);
    let seen = words.seen()?;
    Ok(Message::Grant(GrantNotice {
        who,
        boot,
        cookie,
        extent,
        size,
        committed,
        seen,
    }))
}

/// A lock is called back.
fn block(_stamp: Stamp, words: &mut Words) -> Result<Message, LineFault>
    ensures read { Reads result words.new (message_rest _stamp messages.Block words.old) }
    ensures fits { IfOk result (IsMessage _stamp.0) }
{
    let who = words.who()?;
    let boot = words.short()?;
    let cookie = Cookie(words.pair()?);
    Ok(Message::Block { who, boot, cookie })
}

/// What is the size under a lock?
fn ask(_stamp: Stamp, words: &mut Words) -> Result<Message, LineFault>
    ensures read { Reads result words.new (message_rest _stamp messages.Ask words.old) }
    ensures fits { IfOk result (IsMessage _stamp.0) }
{
    let who = words.who()?;
    let boot = words.short()?;
    let cookie = Cookie(words.pair()?);
    let for_who = words.who()?;
    let xid = Xid(words.number()?);
    Ok(Message::Ask {
        who,
        boot,
        cookie,
        for_who,
        xid,
    })
}

/// A target serves a life.
fn ready(_stamp: Stamp, words: &mut Words) -> Result<Message, LineFault>
    ensures read { Reads result words.new (message_rest _stamp messages.Ready words.old) }
    ensures fits { IfOk result (IsMessage _stamp.0) }
{
    let who = words.who()?;
    let boot = words.short()?;
    let committed = Txn(words.pair()?);
    Ok(Message::Ready {
        who,
        boot,
        committed,
    })
}

/// A life was evicted.
fn evicted(_stamp: Stamp, words: &mut Words) -> Result<Message, LineFault>
    ensures read { Reads result words.new (message_rest _stamp messages.Evicted words.old) }
    ensures fits { IfOk result (IsMessage _stamp.0) }
{
    let who = words.who()?;
    let boot = words.short()?;
    Ok(Message::Evicted { who, boot })
}
