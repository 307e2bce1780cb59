//! `kept` and `restore` lines.

ghost use Rattle.std.specs.Prelude.{ℕ, List, Some, IsTrue, ◌↔◌};
ghost use Rattle.std.specs.Option.{option_copied};
ghost use Rattle.lu_trace.specs.declared.entries.Line.{Line};
ghost use Rattle.lu_spec_laws.specs.Words.Pasts.{Past};
ghost use Rattle.lu_spec_laws.specs.Laws.Recovery.{KeptAt, RestoredAfter, RestoredAt};
ghost use Rattle.lu_judge_recovery.specs.Closings.{lock_in, has_restored_in, KeptBy, FitsDecided};
ghost use Rattle.lu_judge_recovery.specs.Noted.{ShowsSettled};
ghost use Rattle.lu_judge_recovery.specs.Turns.{turn_at};

use super::closing::same_lock;
use super::closings::Closing;
use super::settled::Settled;
use super::turns::Turn;
use lu_base::{Lock, Txn};

/// Whether the close restores the lock, and no line since does.
fn is_due(closing: &Closing, lock: &Lock) -> bool
    ensures due { IsTrue result ↔ RestoredAfter (lock_in closing.now lock.now.ask.who lock.now.cookie.0)
        (has_restored_in closing.now lock.now.ask.who lock.now.cookie.0) lock.now }
{
    match closing.lock(lock.ask.who, lock.cookie) {
        Some(due) => {
            if !same_lock(due, *lock) {
                return false;
            }
            !closing.has_restored(lock.ask.who, lock.cookie)
        }
        None => false,
    }
}

/// Whether the close keeps the number, and it is above the last one.
fn is_next(closing: &Closing, number: Txn) -> bool
    ensures next { IsTrue result ↔ KeptBy (Some closing.now) number.0 }
{
    closing.keeps(number.0) && closing.last_kept() < number.0
}

/// Whether the number may have a `kept` line in this turn, next, where this is the last close of the turn, if the disk
/// doesn't fail in it.
pub fn allows_kept(settled: &Settled, closing: Option<&Closing>, turn: Turn, number: Txn) -> bool
    ensures decided { (clients : ℕ) (past : Past) (later : List Line) → ShowsSettled settled.now past
        → FitsDecided (option_copied closing.entry) clients turn.target (turn_at turn.stamp turn.target) past later
        → IsTrue result ↔ KeptAt turn.target past (turn_at turn.stamp turn.target) later number.0 }
{
    if number.0 <= settled.at(turn.target) {
        return false;
    }
    match closing {
        Some(closing) => is_next(closing, number),
        None => true,
    }
}

/// Whether the lock may have a `restore` line in this turn, next, where this is the last close of the turn, if the disk
/// doesn't fail in it.
pub fn allows_restored(closing: Option<&Closing>, turn: Turn, lock: &Lock) -> bool
    ensures decided { (clients : ℕ) (past : Past) (later : List Line)
        → FitsDecided (option_copied closing.entry) clients turn.target (turn_at turn.stamp turn.target) past later
        → IsTrue result ↔ RestoredAt turn.target past (turn_at turn.stamp turn.target) later lock.now }
{
    match closing {
        Some(closing) => is_due(closing, lock),
        None => true,
    }
}
