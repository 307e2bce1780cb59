//! Closes: who is back, and whether what the close decides follows.

ghost use Rattle.std.specs.Prelude.{◌≡◌, ℕ, false, true, ◌||◌, List, map, filter, reverse, IfOk, IsTrue, ◌↔◌};
ghost use Rattle.lu_base.specs.declared.ids.At.{At as AtOf};
ghost use Rattle.lu_base.specs.declared.ids.Who.{Who as WhoOf};
ghost use Rattle.lu_trace.specs.declared.entries.Line.{Line};
ghost use Rattle.lu_spec_machine.specs.Footprint.{Every};
ghost use Rattle.lu_spec_laws.specs.Words.Pasts.{Past};
ghost use Rattle.lu_spec_laws.specs.Words.Handed.{is_back, has_newer};
ghost use Rattle.lu_spec_laws.specs.Words.Slots.{slots};
ghost use Rattle.lu_spec_laws.specs.Words.Closes.{will_keep, cause_at, stays_at, restored_at, lock_of};
ghost use Rattle.lu_spec_laws.specs.Words.Scopes.{any_in};
ghost use Rattle.lu_spec_laws.specs.Laws.Recovery.{is_take, Evicts, Restores, FollowsAt, CloseAt};
ghost use Rattle.lu_judge_pass.specs.Places.{InOrder};
ghost use Rattle.lu_judge_pass.specs.Ledgers.{ShowsLedger};
ghost use Rattle.lu_judge_windows.specs.Windows.{ShowsWindows};
ghost use Rattle.lu_judge_recovery.specs.Clients.{count_of};
ghost use Rattle.lu_judge_recovery.specs.Closings.{KnowsClose, AreCauses};
ghost use Rattle.lu_judge_recovery.specs.Failing.{is_failing, fails};
ghost use Rattle.lu_judge_recovery.specs.Marks.{ShowsMarks};
ghost use Rattle.lu_judge_recovery.specs.Rest.{ShowsRest};
ghost use Rattle.lu_judge_recovery.specs.Turns.{turn_at};

use super::closing::{Causes, Close, lock_of, same_lock};
use super::failing::Failing;
use super::marks::Marks;
use super::rest::{Rest, rest_in};
use super::slots::slots;
use super::turns::Turn;
use lu_base::{Cause, Memory, Who};
use lu_judge_pass::Ledger;
use lu_judge_windows::Windows;
use lu_msg::LockReplay;
use lu_trace::Line;
use std::alloc::Global;

/// Whether the life is back, or has a newer life that asked to join.
fn is_met(windows: &Windows<'_>, ledger: &Ledger<'_>, target: u16, who: Who) -> bool
    ensures met { (past : Past) → ShowsLedger ledger.now past → ShowsWindows windows.now past
        → result ≡ (is_back target past who || has_newer target past who) }
{
    windows.is_back(ledger, target, who) || windows.has_newer(target, who)
}

/// Whether each of these lives is back, or has a newer life that asked to join.
fn all_back(windows: &Windows<'_>, ledger: &Ledger<'_>, target: u16, lives: &[Who]) -> bool
    ensures back { (past : Past) → ShowsLedger ledger.now past → ShowsWindows windows.now past → IsTrue result
        ↔ Every (λ (who : WhoOf). (is_back target past who || has_newer target past who) ≡ true) lives.now }
{
    let mut place = 0;
    while place < lives.len() {
        if !is_met(windows, ledger, target, lives[place]) {
            return false;
        }
        place += 1;
    }
    true
}

/// Whether it is so of these lives, or the turn took no message.
fn are_back(
    windows: &Windows<'_>,
    ledger: &Ledger<'_>,
    marks: &Marks,
    turn: Turn,
    lives: &[Who],
) -> bool
    ensures back { (past : Past) → ShowsLedger ledger.now past → ShowsWindows windows.now past
        → ShowsMarks marks.now past → IsTrue result
        ↔ (any_in is_take (turn_at turn.stamp turn.target) past ≡ true
        → Every (λ (who : WhoOf). (is_back turn.target past who || has_newer turn.target past who) ≡ true) lives.now) }
{
    if !marks.has_taken(turn) {
        return true;
    }
    all_back(windows, ledger, turn.target, lives)
}

/// Whether each of these numbers has a `kept` line.
fn keeps_all(rest: &Rest<'_>, numbers: &[u64]) -> bool
    ensures keeps { (at : AtOf) (later : List Line) → ShowsRest rest.now at later → IsTrue result
        ↔ Every (λ n. will_keep at later n ≡ true) numbers.now }
{
    let mut place = 0;
    while place < numbers.len() {
        if !rest.keeps(numbers[place]) {
            return false;
        }
        place += 1;
    }
    true
}

/// Whether both are one cause.
fn same_cause(a: Cause, b: Cause) -> bool
    ensures { IsTrue result ↔ (a ≡ b) }
{
    a == b
}

/// Whether the life has the `evict` line that the close decides, if it decides one.
fn evicts(rest: &Rest<'_>, close: &Close<'_, '_>, causes: &Causes, who: Who) -> bool
    ensures evicts { (at : AtOf) (later : List Line) (t : ℕ) (past : Past) (lives : List WhoOf)
        → ShowsRest rest.now at later → KnowsClose close.now t past → AreCauses causes.now lives t past
        → IsTrue result ↔ Evicts at later who (cause_at t past who) }
{
    match causes.cause(close, who) {
        Some(cause) => match rest.evicts(who) {
            Some(found) => same_cause(found, cause),
            None => false,
        },
        None => true,
    }
}

/// Whether each of these lives has it.
fn evicts_all(rest: &Rest<'_>, close: &Close<'_, '_>, causes: &Causes, lives: &[Who]) -> bool
    ensures evicts { (at : AtOf) (later : List Line) (t : ℕ) (past : Past) (listed : List WhoOf)
        → ShowsRest rest.now at later → KnowsClose close.now t past → AreCauses causes.now listed t past
        → IsTrue result ↔ Every (λ who. Evicts at later who (cause_at t past who)) lives.now }
{
    let mut place = 0;
    while place < lives.len() {
        if !evicts(rest, close, causes, lives[place]) {
            return false;
        }
        place += 1;
    }
    true
}

/// Whether the lock that was handed in has its `restore` line.
fn restores(rest: &Rest<'_>, replay: &LockReplay) -> bool
    ensures restores { (at : AtOf) (later : List Line) → ShowsRest rest.now at later
        → IsTrue result ↔ Restores at later (lock_of replay.now) }
{
    match rest.restores(replay.who, replay.cookie) {
        Some(lock) => same_lock(*lock, lock_of(replay)),
        None => false,
    }
}

/// Whether it has, if its life stays.
fn restores_it(rest: &Rest<'_>, close: &Close<'_, '_>, causes: &Causes, replay: &LockReplay) -> bool
    ensures restores { (at : AtOf) (later : List Line) (t : ℕ) (past : Past) (lives : List WhoOf)
        → ShowsRest rest.now at later → KnowsClose close.now t past → AreCauses causes.now lives t past
        → IsTrue result ↔ (stays_at t past replay.now.who ≡ true → Restores at later (lock_of replay.now)) }
{
    if !causes.stays(close, replay.who) {
        return true;
    }
    restores(rest, replay)
}

/// Whether each lock that the close restores has its `restore` line.
fn restores_all(rest: &Rest<'_>, close: &Close<'_, '_>, causes: &Causes) -> bool
    ensures restores { (at : AtOf) (later : List Line) (t : ℕ) (past : Past) (lives : List WhoOf)
        → ShowsRest rest.now at later → KnowsClose close.now t past → AreCauses causes.now lives t past
        → IsTrue result ↔ Every (Restores at later) (restored_at t past) }
{
    let handed = close.handed();
    let mut place = 0;
    while place < handed.len() {
        if !restores_it(rest, close, causes, handed[place]) {
            return false;
        }
        place += 1;
    }
    true
}

/// Whether each line that a close of this turn decides stands in the rest of the turn, where these lives have slots.
fn follows(
    alloc: Global,
    windows: &Windows<'_>,
    ledger: &Ledger<'_>,
    turn: Turn,
    lives: &[Who],
    later: &[Line],
) -> Result<bool, Memory>
    ensures follows { IfOk result (λ holds. (clients : ℕ) (past : Past) → ShowsLedger ledger.now past
        → ShowsWindows windows.now past → InOrder (turn_at turn.stamp turn.target) later.now
        → lives.now ≡ slots clients turn.target past → IsTrue holds
        ↔ FollowsAt clients turn.target past (turn_at turn.stamp turn.target) later.now) }
{
    let rest = rest_in(alloc, turn.at(), later)?;
    let kept = windows.kept_at(ledger, turn.target)?;
    if !keeps_all(&rest, kept.as_slice()) {
        return Ok(false);
    }
    let close = Close::new(windows, ledger, turn.target)?;
    let causes = Causes::of(alloc, &close, lives)?;
    if !evicts_all(&rest, &close, &causes, lives) {
        return Ok(false);
    }
    Ok(restores_all(&rest, &close, &causes))
}

/// Whether the target's window may close in this turn, next, where this is the trace's greatest client.
pub fn allows_close(
    alloc: Global,
    windows: &Windows<'_>,
    ledger: &Ledger<'_>,
    marks: &Marks,
    failing: &Failing,
    greatest: Option<u16>,
    turn: Turn,
    later: &[Line],
) -> Result<bool, Memory>
    ensures decided { IfOk result (λ holds. (past : Past) → ShowsLedger ledger.now past
        → ShowsWindows windows.now past → ShowsMarks marks.now past
        → InOrder (turn_at turn.stamp turn.target) later.now
        → is_failing failing.now turn.stamp turn.target ≡ fails (turn_at turn.stamp turn.target) past later.now
        → IsTrue holds
        ↔ CloseAt (count_of greatest) turn.target past (turn_at turn.stamp turn.target) later.now) }
{
    if !windows.is_recovering(turn.target) {
        return Ok(false);
    }
    let lives = slots(alloc, windows, ledger, turn.target, greatest)?;
    if !are_back(windows, ledger, marks, turn, lives.as_slice()) {
        return Ok(false);
    }
    if failing.has(turn) {
        return Ok(true);
    }
    follows(alloc, windows, ledger, turn, lives.as_slice(), later)
}
