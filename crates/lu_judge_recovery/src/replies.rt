//! Replies where they are executed, and grants: what they let their receivers see.

ghost use Rattle.std.specs.Prelude.{◌≡◌, IfOk, IsTrue, ◌↔◌};
ghost use Rattle.std.specs.List.{list_any};
ghost use Rattle.lu_spec_laws.specs.Words.Pasts.{Past};
ghost use Rattle.lu_spec_laws.specs.Laws.Messages.{Follows};
ghost use Rattle.lu_spec_laws.specs.Laws.Recovery.{answers_size, is_executed, ReplyAt, NoticeAt, SentAt};
ghost use Rattle.lu_judge_pass.specs.Places.{Ordered};
ghost use Rattle.lu_judge_pass.specs.declared.sendings.Sending.{Sending as Posted};
ghost use Rattle.lu_judge_pass.specs.Ledgers.{ShowsLedger};
ghost use Rattle.lu_judge_recovery.specs.Known.{ShowsKnown};
ghost use Rattle.lu_judge_recovery.specs.Marks.{ShowsMade};
ghost use Rattle.lu_judge_recovery.specs.Noted.{ShowsNoted};
ghost use Rattle.lu_judge_recovery.specs.Turns.{turn_at};

use super::dues::{are_same, other_than};
use super::known::Known;
use super::made::Made;
use super::noted::Noted;
use super::turns::Turn;
use lu_base::{At, Memory, Node, Stamp, Who, Xid};
use lu_judge_pass::{Ledger, Sending, same_turn};
use lu_msg::{GrantNotice, Message, Reply};
use std::alloc::Global;

impl Turn {
    /// The turn, as lines have it.
    pub fn at(self) -> At
        ensures { result ≡ turn_at self.stamp self.target }
    {
        At {
            stamp: Stamp(self.stamp),
            node: Node::Target(self.target),
        }
    }
}

/// Whether the message is a holder's answer to a glimpse of that life and request.
fn answers_size(who: Who, xid: Xid, message: &Message) -> bool
    ensures { result ≡ answers_size who xid.0 message.now }
{
    match message {
        Message::Size(report) => {
            (report.for_who.client == who.client && report.for_who.life == who.life)
                && report.xid.0 == xid.0
        }
        _ => false,
    }
}

/// Whether one of these messages is such an answer.
fn is_size_for(who: Who, xid: Xid, taken: &[Sending<'_>]) -> bool
    ensures { result ≡ list_any (λ (s : Posted). answers_size who xid.0 s.message.now) taken.now }
{
    taken
        .iter()
        .any(|sending| answers_size(who, xid, sending.message))
}

/// Whether the reply is executed in this turn, of the next line.
fn is_executed(ledger: &Ledger<'_>, turn: Turn, reply: &Reply) -> bool
    ensures executed { (past : Past) → ShowsLedger ledger.now past → Ordered past
        → Follows past (turn_at turn.stamp turn.target)
        → result ≡ is_executed past (turn_at turn.stamp turn.target) reply.now }
{
    let here = turn.at();
    if same_turn(reply.at, here) {
        return true;
    }
    is_size_for(reply.who, reply.xid, ledger.present.taken(here))
}

/// Whether a reply, sent next, names what it lets its receiver see, where it is executed.
fn allows_reply(
    alloc: Global,
    known: &Known<'_>,
    made: &Made<'_>,
    turn: Turn,
    reply: &Reply,
) -> Result<bool, Memory>
    ensures decided { IfOk result (λ holds. (past : Past) → ShowsKnown known.now past → ShowsMade made.now past
        → Ordered past → Follows past (turn_at turn.stamp turn.target) → IsTrue holds
        ↔ ReplyAt known.now.osts turn.target past (turn_at turn.stamp turn.target) reply.now) }
{
    if !is_executed(&known.ledger, turn, reply) {
        return Ok(true);
    }
    if let Some(seen) = made.get(turn, reply.who, reply.xid) {
        return Ok(are_same(&reply.seen, seen));
    }
    let sees = known.request_sees(turn.target, reply.txn, reply.who, reply.xid, &reply.answer)?;
    let due = other_than(alloc, reply.txn, sees)?;
    Ok(are_same(&reply.seen, &due))
}

/// Whether a grant of the target, sent next, names what it lets its receiver see.
fn allows_grant(
    alloc: Global,
    known: &Known<'_>,
    noted: &Noted<'_>,
    target: u16,
    notice: &GrantNotice,
) -> Result<bool, Memory>
    ensures decided { IfOk result (λ holds. (past : Past) → ShowsKnown known.now past → ShowsNoted noted.now past
        → IsTrue holds ↔ NoticeAt known.now.osts target past notice.now) }
{
    let touched = noted.touches(alloc, target, notice)?;
    let due = known.seen(target, &touched)?;
    Ok(are_same(&notice.seen, &due))
}

/// Whether the message may be sent in this turn, next.
pub fn allows_sent(
    alloc: Global,
    known: &Known<'_>,
    made: &Made<'_>,
    noted: &Noted<'_>,
    turn: Turn,
    message: &Message,
) -> Result<bool, Memory>
    ensures decided { IfOk result (λ holds. (past : Past) → ShowsKnown known.now past → ShowsMade made.now past
        → ShowsNoted noted.now past → Ordered past → Follows past (turn_at turn.stamp turn.target) → IsTrue holds
        ↔ SentAt known.now.osts turn.target past (turn_at turn.stamp turn.target) message.now) }
{
    match message {
        Message::Reply(reply) => allows_reply(alloc, known, made, turn, reply),
        Message::Grant(notice) => allows_grant(alloc, known, noted, turn.target, notice),
        _ => Ok(true),
    }
}
