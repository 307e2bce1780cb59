//! The text of an entry and of a line.

ghost use Rattle.std.specs.Prelude.{◌≡◌, ◌++◌, ◌∷◌, [], OnOk, codes, decimal};
ghost use Rattle.lu_base.specs.Texts.{pair_text};
ghost use Rattle.lu_base.specs.Values.{node_text, target_text};
ghost use Rattle.lu_trace.specs.Words.{words};
ghost use Rattle.lu_trace.specs.Values.{who_text, at_text};
ghost use Rattle.lu_trace.specs.Lists.{seen_text};
ghost use Rattle.lu_trace.specs.Calls.{call_text};
ghost use Rattle.lu_trace.specs.Answers.{answer_text};
ghost use Rattle.lu_trace.specs.Messages.{message_text};
ghost use Rattle.lu_trace.specs.Entries.{cause_text, lock_words, entry_text, line_text};

use super::answers::put_answer;
use super::calls::put_call;
use super::messages::{put_message, then_terms};
use super::values::put_at;
use super::words::{
    put_with_number, put_with_pair, put_with_who, then_number, then_pair, then_seen, then_who,
};
use crate::entries::{Entry, Line};
use lu_base::{
    At, Bytes, Cause, Cookie, Lock, Memory, Node, Numbers, TargetId, Txn, Who, Xid, put_node,
    put_number, put_target,
};
use lu_msg::{Answer, Call, Message};

/// A line, without its line feed.
pub fn put_line(out: &mut Bytes, line: &Line) -> Result<(), Memory>
    ensures put { OnOk result (out.new ≡ out.old ++ line_text line.now) }
{
    put_number(out, line.at.stamp.0)?;
    out.push(b' ')?;
    put_node(out, line.at.node)?;
    out.push(b' ')?;
    put_entry(out, &line.entry)
}

/// An entry.
fn put_entry(out: &mut Bytes, entry: &Entry) -> Result<(), Memory>
    ensures put { OnOk result (out.new ≡ out.old ++ entry_text entry.now) }
{
    match entry {
        Entry::Begin { slot, call } => put_begin(out, *slot, call),
        Entry::Busy(slot) => put_with_number(out, b"busy", u64::from(*slot)),
        Entry::Skip => out.extend(b"skip"),
        Entry::Send {
            number,
            to,
            message,
        } => put_send(out, *number, *to, message),
        Entry::Take(number) => put_with_number(out, b"take", *number),
        Entry::Tick => out.extend(b"tick"),
        Entry::Heard { target, xid } => put_heard(out, *target, *xid),
        Entry::Hold { target, cookie } => put_of_lock(out, b"hold", *target, *cookie),
        Entry::Drop { target, cookie } => put_of_lock(out, b"drop", *target, *cookie),
        Entry::Told { slot, at, answer } => put_told(out, *slot, *at, answer),
        Entry::Peek {
            target,
            cookie,
            size,
        } => {
            put_of_lock(out, b"peek", *target, *cookie)?;
            then_number(out, *size)
        }
        Entry::Life(who) => put_with_who(out, b"life", *who),
        Entry::Die => out.extend(b"die"),
        Entry::Act { who, xid, answer } => put_act(out, *who, *xid, answer),
        Entry::Txn {
            txn,
            who,
            xid,
            seen,
            answer,
        } => put_txn(out, *txn, *who, *xid, seen, answer),
        Entry::Grant(lock) => put_lock(out, b"grant", lock),
        Entry::Wait(lock) => put_lock(out, b"wait", lock),
        Entry::Block(cookie) => put_with_pair(out, b"block", cookie.0),
        Entry::Release(cookie) => put_with_pair(out, b"release", cookie.0),
        Entry::Commit(txn) => put_with_pair(out, b"commit", txn.0),
        Entry::Crash => out.extend(b"crash"),
        Entry::Boot(boot) => put_with_number(out, b"boot", u64::from(*boot)),
        Entry::Back(who) => put_with_who(out, b"back", *who),
        Entry::Close => out.extend(b"close"),
        Entry::Kept(txn) => put_with_pair(out, b"kept", txn.0),
        Entry::Restore(lock) => put_lock(out, b"restore", lock),
        Entry::Evict { who, cause } => put_evict(out, *who, *cause),
        Entry::Joined(who) => put_with_who(out, b"joined", *who),
        Entry::Fail => out.extend(b"fail"),
    }
}

/// A call that begins.
fn put_begin(out: &mut Bytes, slot: u8, call: &Call) -> Result<(), Memory>
    ensures put { OnOk result (out.new ≡ out.old ++ entry_text (Entry.Begin slot call.now)) }
{
    put_with_number(out, b"begin", u64::from(slot))?;
    out.push(b' ')?;
    put_call(out, call)
}

/// A message that is sent.
fn put_send(out: &mut Bytes, number: u64, to: Node, message: &Message) -> Result<(), Memory>
    ensures put { OnOk result (out.new ≡ out.old ++ entry_text (Entry.Send number to message.now)) }
{
    put_with_number(out, b"send", number)?;
    out.push(b' ')?;
    put_node(out, to)?;
    out.push(b' ')?;
    put_message(out, message)
}

/// A reply that is heard.
fn put_heard(out: &mut Bytes, target: TargetId, xid: Xid) -> Result<(), Memory>
    ensures put { OnOk result (out.new ≡ out.old ++ entry_text (Entry.Heard target xid)) }
{
    out.extend(b"heard ")?;
    put_target(out, target)?;
    then_number(out, xid.0)
}

/// A word and a lock at a target.
fn put_of_lock(out: &mut Bytes, word: &[u8], target: TargetId, cookie: Cookie) -> Result<(), Memory>
    ensures put { OnOk result (out.new ≡ out.old ++ words (word.now ∷ target_text target.0 ∷ pair_text cookie.0 ∷ [])) }
{
    out.extend(word)?;
    out.push(b' ')?;
    put_target(out, target)?;
    then_pair(out, cookie.0)
}

/// A call that is told.
fn put_told(out: &mut Bytes, slot: u8, at: At, answer: &Answer) -> Result<(), Memory>
    ensures put { OnOk result (out.new ≡ out.old ++ entry_text (Entry.Told slot at answer.now)) }
{
    put_with_number(out, b"told", u64::from(slot))?;
    out.push(b' ')?;
    put_at(out, at)?;
    out.push(b' ')?;
    put_answer(out, answer)
}

/// A request that acted.
fn put_act(out: &mut Bytes, who: Who, xid: Xid, answer: &Answer) -> Result<(), Memory>
    ensures put { OnOk result (out.new ≡ out.old ++ entry_text (Entry.Act who xid answer.now)) }
{
    put_with_who(out, b"act", who)?;
    then_number(out, xid.0)?;
    out.push(b' ')?;
    put_answer(out, answer)
}

/// A transaction.
fn put_txn(
    out: &mut Bytes,
    txn: Txn,
    who: Who,
    xid: Xid,
    seen: &Numbers,
    answer: &Answer,
) -> Result<(), Memory>
    ensures put { OnOk result (out.new ≡ out.old ++ entry_text (Entry.Txn txn who xid seen.now answer.now)) }
{
    put_with_pair(out, b"txn", txn.0)?;
    then_who(out, who)?;
    then_number(out, xid.0)?;
    then_seen(out, seen)?;
    out.push(b' ')?;
    put_answer(out, answer)
}

/// A word and a lock.
fn put_lock(out: &mut Bytes, word: &[u8], lock: &Lock) -> Result<(), Memory>
    ensures put { OnOk result (out.new ≡ out.old ++ words (word.now ∷ lock_words lock.now)) }
{
    put_with_pair(out, word, lock.cookie.0)?;
    then_who(out, lock.ask.who)?;
    then_terms(out, lock.resource, lock.ask.mode, lock.ask.policy)
}

/// A life that loses its slot.
fn put_evict(out: &mut Bytes, who: Who, cause: Cause) -> Result<(), Memory>
    ensures put { OnOk result (out.new ≡ out.old ++ entry_text (Entry.Evict who cause)) }
{
    put_with_who(out, b"evict", who)?;
    out.push(b' ')?;
    put_cause(out, cause)
}

/// Why a life loses its slot.
fn put_cause(out: &mut Bytes, cause: Cause) -> Result<(), Memory>
    ensures put { OnOk result (out.new ≡ out.old ++ cause_text cause) }
{
    match cause {
        Cause::Absent => out.extend(b"absent"),
        Cause::Gap => out.extend(b"gap"),
        Cause::Expired => out.extend(b"expired"),
        Cause::Replaced => out.extend(b"replaced"),
    }
}
