//! Evictions.

ghost use Rattle.std.specs.Prelude.{◌≡◌, ℕ, ◌<◌, List, IsTrue, ◌↔◌};
ghost use Rattle.std.specs.List.{list_any};
ghost use Rattle.std.specs.Option.{option_copied};
ghost use Rattle.lu_trace.specs.declared.entries.Line.{Line};
ghost use Rattle.lu_spec_laws.specs.Words.Pasts.{Past};
ghost use Rattle.lu_spec_laws.specs.Laws.Messages.{Follows};
ghost use Rattle.lu_spec_laws.specs.Laws.Recovery.{joins_after, takes_newer, is_above, ExpiredAt, EvictedBy, EvictAt, EvictedAfter};
ghost use Rattle.lu_judge_pass.specs.Places.{Ordered};
ghost use Rattle.lu_judge_pass.specs.declared.sendings.Sending.{Sending as Posted};
ghost use Rattle.lu_judge_pass.specs.Ledgers.{ShowsLedger};
ghost use Rattle.lu_judge_recovery.specs.Callbacks.{ShowsCallbacks};
ghost use Rattle.lu_judge_recovery.specs.Closings.{cause_in, FitsDecided};
ghost use Rattle.lu_judge_recovery.specs.Known.{ShowsKnown};
ghost use Rattle.lu_judge_recovery.specs.Marks.{ShowsMarks};
ghost use Rattle.lu_judge_recovery.specs.Turns.{turn_at};

use super::callbacks::Callbacks;
use super::closings::Closing;
use super::known::Known;
use super::marks::Marks;
use super::turns::Turn;
use lu_base::{Cause, Who};
use lu_judge_pass::{Ledger, Sending};
use lu_msg::Message;

/// Whether the message is the join of a newer life of that client.
fn joins_after(who: Who, message: &Message) -> bool
    ensures { result ≡ joins_after who message.now }
{
    match message {
        Message::Join { who: other, .. } => other.client == who.client && who.life < other.life,
        _ => false,
    }
}

/// Whether one of these messages is such a join.
fn has_newer(who: Who, taken: &[Sending<'_>]) -> bool
    ensures { result ≡ list_any (λ (s : Posted). joins_after who s.message.now) taken.now }
{
    taken
        .iter()
        .any(|sending| joins_after(who, sending.message))
}

/// Whether the life stands after the last one.
fn is_above(last: Option<Who>, who: Who) -> bool
    ensures { result ≡ is_above last who }
{
    match last {
        Some(last) => {
            last.client < who.client || (last.client == who.client && last.life < who.life)
        }
        None => true,
    }
}

/// Whether the turn had a tick, and its target called the life back in an earlier turn since its boot.
fn is_expired(marks: &Marks, callbacks: &Callbacks, turn: Turn, who: Who) -> bool
    ensures expired { (past : Past) → ShowsMarks marks.now past → ShowsCallbacks callbacks.now past
        → IsTrue result ↔ ExpiredAt turn.target past (turn_at turn.stamp turn.target) who }
{
    if !marks.has_ticked(turn) {
        return false;
    }
    callbacks.was_called(turn, who)
}

/// Whether the turn, of the next line, took the join of a newer life of the client.
fn is_replaced(ledger: &Ledger<'_>, turn: Turn, who: Who) -> bool
    ensures replaced { (past : Past) → ShowsLedger ledger.now past → Ordered past
        → Follows past (turn_at turn.stamp turn.target)
        → result ≡ takes_newer past (turn_at turn.stamp turn.target) who }
{
    let here = turn.at();
    has_newer(who, ledger.present.taken(here))
}

/// Whether the turn's target may evict the life in this turn, next, where no finished close stands before in the turn.
fn is_evicted_by(
    ledger: &Ledger<'_>,
    marks: &Marks,
    callbacks: &Callbacks,
    turn: Turn,
    who: Who,
    cause: Cause,
) -> bool
    ensures decided { (past : Past) → ShowsLedger ledger.now past → Ordered past
        → Follows past (turn_at turn.stamp turn.target) → ShowsMarks marks.now past
        → ShowsCallbacks callbacks.now past → IsTrue result
        ↔ EvictedBy turn.target past (turn_at turn.stamp turn.target) who cause }
{
    match cause {
        Cause::Expired => is_expired(marks, callbacks, turn, who),
        Cause::Replaced => is_replaced(ledger, turn, who),
        Cause::Absent => false,
        Cause::Gap => false,
    }
}

/// Whether the eviction is the next one that the close decided.
fn is_decided(closing: &Closing, who: Who, cause: Cause) -> bool
    ensures decided { IsTrue result ↔ EvictedAfter (cause_in closing.now who) closing.now.last_evicted who cause }
{
    match closing.cause(who) {
        Some(due) => {
            if due != cause {
                return false;
            }
            is_above(closing.last_evicted(), who)
        }
        None => false,
    }
}

/// Whether the life of one of the trace's clients may have an `evict` line with this cause in this turn, next, where this
/// is the last close of the turn, if the disk doesn't fail in it.
pub fn allows_evict(
    known: &Known<'_>,
    marks: &Marks,
    callbacks: &Callbacks,
    closing: Option<&Closing>,
    turn: Turn,
    who: Who,
    cause: Cause,
) -> bool
    ensures decided { (clients : ℕ) (past : Past) (later : List Line) → who.client < clients
        → ShowsKnown known.now past → ShowsMarks marks.now past → ShowsCallbacks callbacks.now past → Ordered past
        → Follows past (turn_at turn.stamp turn.target)
        → FitsDecided (option_copied closing.entry) clients turn.target (turn_at turn.stamp turn.target) past later
        → IsTrue result ↔ EvictAt turn.target past (turn_at turn.stamp turn.target) later who cause }
{
    if !known.windows.has_slot(&known.ledger, turn.target, who) {
        return false;
    }
    if !marks.has_committed(turn) {
        return false;
    }
    match closing {
        Some(closing) => is_decided(closing, who, cause),
        None => is_evicted_by(&known.ledger, marks, callbacks, turn, who, cause),
    }
}
