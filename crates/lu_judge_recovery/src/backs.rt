//! Lives that come back, and their `back` lines.

ghost use Rattle.std.specs.Prelude.{◌≡◌, true, IsTrue, ◌↔◌};
ghost use Rattle.lu_spec_laws.specs.Words.Pasts.{Past};
ghost use Rattle.lu_spec_laws.specs.Words.Scopes.{any_later};
ghost use Rattle.lu_spec_laws.specs.Laws.Recovery.{is_back_of, BackAt, BringsBack};
ghost use Rattle.lu_judge_pass.specs.Places.{InOrder};
ghost use Rattle.lu_judge_pass.specs.Ledgers.{ShowsLedger};
ghost use Rattle.lu_judge_windows.specs.Windows.{ShowsWindows};
ghost use Rattle.lu_judge_recovery.specs.Handing.{named, BringsNamed};
ghost use Rattle.lu_judge_recovery.specs.Marks.{ShowsMarks};
ghost use Rattle.lu_judge_recovery.specs.Returns.{ShowsReturns};
ghost use Rattle.lu_judge_recovery.specs.Turns.{turn_at};

use super::handing::named;
use super::marks::Marks;
use super::returns::{Returns, comes_back};
use super::turns::Turn;
use lu_base::{At, Who};
use lu_judge_pass::{Ledger, rest_of_turn};
use lu_judge_windows::Windows;
use lu_trace::{Entry, Line};

/// Whether the entry is the life's `back`.
fn is_back_of(who: Who, entry: &Entry) -> bool
    ensures { result ≡ is_back_of who entry.now }
{
    match entry {
        Entry::Back(other) => other.client == who.client && other.life == who.life,
        _ => false,
    }
}

/// Whether a later line of this turn is the life's `back`.
fn will_be_back(at: At, who: Who, later: &[Line]) -> bool
    ensures back { InOrder at later.now → result ≡ any_later (is_back_of who) at later.now }
{
    let rest = rest_of_turn(at, later);
    let mut place = 0;
    while place < rest.len() {
        if is_back_of(who, &rest[place].entry) {
            return true;
        }
        place += 1;
    }
    false
}

/// Whether the life that the line of the target brings back, if any, has a `back` line later in the turn.
pub fn allows_handing(
    windows: &Windows<'_>,
    ledger: &Ledger<'_>,
    target: u16,
    line: &Line,
    later: &[Line],
) -> bool
    ensures decided { (past : Past) → ShowsLedger ledger.now past → ShowsWindows windows.now past
        → InOrder line.now.at later.now → IsTrue result
        ↔ BringsNamed target past line.now later.now (named past line.now.entry) }
{
    match named(ledger, &line.entry) {
        Some(who) => {
            if !comes_back(windows, ledger, target, line, who) {
                return true;
            }
            will_be_back(line.at, who, later)
        }
        None => true,
    }
}

/// Whether the life may have a `back` line in this turn, next: it came back in it, the window is still open, and it has no
/// other such line there.
pub fn allows_back(
    windows: &Windows<'_>,
    marks: &Marks,
    returns: &Returns,
    turn: Turn,
    who: Who,
) -> bool
    ensures decided { (past : Past) → ShowsWindows windows.now past → ShowsMarks marks.now past
        → ShowsReturns returns.now past → IsTrue result
        ↔ BackAt turn.target past (turn_at turn.stamp turn.target) who }
{
    if !windows.is_recovering(turn.target) {
        return false;
    }
    if marks.has_back(turn, who) {
        return false;
    }
    returns.has(turn, who)
}
