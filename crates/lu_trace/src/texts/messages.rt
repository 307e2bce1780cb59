//! The text of a message.

ghost use Rattle.std.specs.Prelude.{◌≡◌, ◌++◌, ◌∷◌, [], OnOk, codes, decimal};
ghost use Rattle.lu_base.specs.Texts.{pair_text};
ghost use Rattle.lu_base.specs.Values.{mode_text};
ghost use Rattle.lu_trace.specs.Words.{words};
ghost use Rattle.lu_trace.specs.Values.{who_text, at_text, policy_text, resource_text};
ghost use Rattle.lu_trace.specs.Lists.{seen_text, locks_text};
ghost use Rattle.lu_trace.specs.Ops.{op_text};
ghost use Rattle.lu_trace.specs.Answers.{answer_text};
ghost use Rattle.lu_trace.specs.Messages.{tagged_text, size_text, of_lock_text, terms_text, outcome_text, message_text};

use super::answers::put_answer;
use super::lists::put_locks;
use super::operations::put_op;
use super::values::{put_at, put_policy, put_resource};
use super::words::{
    put_with_number, put_with_who, then_extent, then_number, then_pair, then_seen, then_who,
};
use lu_base::{
    Bytes, Cookie, Memory, Mode, Numbers, Policy, Resource, Txn, Who, Xid, put_mode, put_number,
};
use lu_msg::{GrantNotice, LockReplay, Message, Op, Reply, Request, RequestReplay, SizeReport};

/// A message.
pub fn put_message(out: &mut Bytes, message: &Message) -> Result<(), Memory>
    ensures put { OnOk result (out.new ≡ out.old ++ message_text message.now) }
{
    match message {
        Message::Request(request) => put_request(out, request),
        Message::Cancel { who, boot, cookie } => put_of_lock(out, b"cancel", *who, *boot, *cookie),
        Message::Where { who, boot, cookie } => put_of_lock(out, b"where", *who, *boot, *cookie),
        Message::Replay(replay) => put_request_replay(out, replay),
        Message::Lock(replay) => put_lock_replay(out, replay),
        Message::Word {
            who,
            boot,
            replays,
            locks,
            seen,
        } => {
            put_head(out, b"word", *who, *boot)?;
            then_number(out, u64::from(*replays))?;
            then_number(out, u64::from(*locks))?;
            then_seen(out, seen)
        }
        Message::Join { who, boot } => put_head(out, b"join", *who, *boot),
        Message::Size(report) => put_size_report(out, report),
        Message::Up(boot) => put_with_number(out, b"up", u64::from(*boot)),
        Message::Reply(reply) => put_reply(out, reply),
        Message::Grant(notice) => put_grant_notice(out, notice),
        Message::Block { who, boot, cookie } => put_of_lock(out, b"block", *who, *boot, *cookie),
        Message::Ask {
            who,
            boot,
            cookie,
            for_who,
            xid,
        } => {
            put_of_lock(out, b"ask", *who, *boot, *cookie)?;
            then_asker(out, *for_who, *xid)
        }
        Message::Ready {
            who,
            boot,
            committed,
        } => {
            put_head(out, b"ready", *who, *boot)?;
            then_pair(out, committed.0)
        }
        Message::Evicted { who, boot } => put_head(out, b"evicted", *who, *boot),
    }
}

/// A word, the life and the boot.
fn put_head(out: &mut Bytes, word: &[u8], who: Who, boot: u32) -> Result<(), Memory>
    ensures put { OnOk result (out.new ≡ out.old ++ words (word.now ∷ who_text who ∷ decimal boot ∷ [])) }
{
    put_with_who(out, word, who)?;
    then_number(out, u64::from(boot))
}

/// A word, the life, the boot and a lock.
fn put_of_lock(
    out: &mut Bytes,
    word: &[u8],
    who: Who,
    boot: u32,
    cookie: Cookie,
) -> Result<(), Memory>
    ensures put { OnOk result (out.new ≡ out.old ++ of_lock_text word.now who boot cookie) }
{
    put_head(out, word, who, boot)?;
    then_pair(out, cookie.0)
}

/// Further words: the life whose request asks for a size, and the request's number.
fn then_asker(out: &mut Bytes, for_who: Who, xid: Xid) -> Result<(), Memory>
    ensures put { OnOk result (out.new ≡ out.old ++ 32 ∷ words (who_text for_who ∷ decimal xid.0 ∷ [])) }
{
    then_who(out, for_who)?;
    then_number(out, xid.0)
}

/// Further words: what is committed, and what was seen.
fn then_progress(out: &mut Bytes, committed: Txn, seen: &Numbers) -> Result<(), Memory>
    ensures put { OnOk result (out.new ≡ out.old ++ 32 ∷ words (pair_text committed.0 ∷ seen_text seen.now ∷ [])) }
{
    then_pair(out, committed.0)?;
    then_seen(out, seen)
}

/// A further word: a request's number and tag.
fn then_tagged(out: &mut Bytes, xid: Xid, tag: u8) -> Result<(), Memory>
    ensures put { OnOk result (out.new ≡ out.old ++ 32 ∷ tagged_text xid tag) }
{
    then_number(out, xid.0)?;
    if tag == 0 {
        return Ok(());
    }
    out.push(b'/')?;
    put_number(out, u64::from(tag))
}

/// Further words: an operation.
fn then_op(out: &mut Bytes, op: &Op) -> Result<(), Memory>
    ensures put { OnOk result (out.new ≡ out.old ++ 32 ∷ op_text op.now) }
{
    out.push(b' ')?;
    put_op(out, op)
}

/// A request.
fn put_request(out: &mut Bytes, request: &Request) -> Result<(), Memory>
    ensures put { OnOk result (out.new ≡ out.old ++ message_text (Message.Request request.now)) }
{
    put_head(out, b"req", request.who, request.boot)?;
    then_tagged(out, request.xid, request.tag)?;
    then_op(out, &request.op)
}

/// A request that is replayed.
fn put_request_replay(out: &mut Bytes, replay: &RequestReplay) -> Result<(), Memory>
    ensures put { OnOk result (out.new ≡ out.old ++ message_text (Message.Replay replay.now)) }
{
    put_head(out, b"replay", replay.who, replay.boot)?;
    then_pair(out, replay.txn.0)?;
    then_tagged(out, replay.xid, replay.tag)?;
    then_seen(out, &replay.seen)?;
    then_op(out, &replay.op)
}

/// A lock that is replayed.
fn put_lock_replay(out: &mut Bytes, replay: &LockReplay) -> Result<(), Memory>
    ensures put { OnOk result (out.new ≡ out.old ++ message_text (Message.Lock replay.now)) }
{
    put_of_lock(out, b"lock", replay.who, replay.boot, replay.cookie)?;
    then_terms(out, replay.resource, replay.mode, replay.policy)
}

/// Further words: what a lock is on, its mode and its policy.
pub fn then_terms(
    out: &mut Bytes,
    resource: Resource,
    mode: Mode,
    policy: Policy,
) -> Result<(), Memory>
    ensures put { OnOk result (out.new ≡ out.old ++ 32 ∷ terms_text resource mode policy) }
{
    out.push(b' ')?;
    put_resource(out, resource, policy)?;
    out.push(b' ')?;
    put_mode(out, mode)?;
    out.push(b' ')?;
    put_policy(out, policy)
}

/// A holder's answer to a glimpse.
fn put_size_report(out: &mut Bytes, report: &SizeReport) -> Result<(), Memory>
    ensures put { OnOk result (out.new ≡ out.old ++ message_text (Message.Size report.now)) }
{
    put_of_lock(out, b"size", report.who, report.boot, report.cookie)?;
    then_asker(out, report.for_who, report.xid)?;
    out.push(b' ')?;
    put_size(out, report.size)
}

/// A size, or none.
fn put_size(out: &mut Bytes, size: Option<u64>) -> Result<(), Memory>
    ensures put { OnOk result (out.new ≡ out.old ++ size_text size) }
{
    match size {
        None => out.push(b'-'),
        Some(size) => put_number(out, size),
    }
}

/// A reply.
fn put_reply(out: &mut Bytes, reply: &Reply) -> Result<(), Memory>
    ensures put { OnOk result (out.new ≡ out.old ++ message_text (Message.Reply reply.now)) }
{
    put_head(out, b"reply", reply.who, reply.boot)?;
    then_number(out, reply.xid.0)?;
    then_pair(out, reply.txn.0)?;
    then_progress(out, reply.committed, &reply.seen)?;
    then_outcome(out, reply)
}

/// Further words: when a request was executed, what it was granted and its answer.
fn then_outcome(out: &mut Bytes, reply: &Reply) -> Result<(), Memory>
    ensures put { OnOk result (out.new ≡ out.old ++ 32 ∷ outcome_text reply.now) }
{
    out.push(b' ')?;
    put_at(out, reply.at)?;
    out.push(b' ')?;
    put_locks(out, &reply.locks)?;
    out.push(b' ')?;
    put_answer(out, &reply.answer)
}

/// The grant of a lock that waited.
fn put_grant_notice(out: &mut Bytes, notice: &GrantNotice) -> Result<(), Memory>
    ensures put { OnOk result (out.new ≡ out.old ++ message_text (Message.Grant notice.now)) }
{
    put_of_lock(out, b"grant", notice.who, notice.boot, notice.cookie)?;
    then_extent(out, notice.extent)?;
    then_number(out, notice.size)?;
    then_progress(out, notice.committed, &notice.seen)
}
