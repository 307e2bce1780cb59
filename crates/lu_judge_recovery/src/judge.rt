//! The law of recovery, decided from tables.

ghost use Rattle.std.specs.Prelude.{◌≡◌, ◌≤◌, false, All, List, [], reverse, None, IfOk, IsTrue, ◌↔◌};
ghost use Rattle.std.specs.Option.{option_copied};
ghost use Rattle.lu_trace.specs.declared.entries.Line.{Line as LineOf};
ghost use Rattle.lu_trace.specs.WellFormed.{IsLine, IsWellFormed};
ghost use Rattle.lu_spec_laws.specs.Words.Pasts.{Past};
ghost use Rattle.lu_spec_laws.specs.Holds.{Holds};
ghost use Rattle.lu_spec_laws.specs.Laws.Messages.{Messages};
ghost use Rattle.lu_spec_laws.specs.Laws.Recovery.{Recovery as RecoveryLaw, RecoveryAt, CloseAt};
ghost use Rattle.lu_judge_pass.specs.Firsts.{IsFirst};
ghost use Rattle.lu_judge_pass.specs.Places.{InOrder, Placed, PlacedIn};
ghost use Rattle.lu_judge_recovery.specs.Clients.{count_of};
ghost use Rattle.lu_judge_recovery.specs.Closings.{follows, FitsDecided};
ghost use Rattle.lu_judge_recovery.specs.Failing.{is_failing, fails};
ghost use Rattle.lu_judge_recovery.specs.Handing.{named, BringsNamed};
ghost use Rattle.lu_judge_recovery.specs.Shown.{Shown};
ghost use Rattle.lu_judge_recovery.specs.Turns.{turn_at, line_at};

use super::backs::{allows_back, allows_handing};
use super::callbacks::Callbacks;
use super::clients::greatest_client;
use super::closes::allows_close;
use super::closings::{Closing, Closings};
use super::commits::allows_commit;
use super::evicts::allows_evict;
use super::failing::{Failing, failing_in};
use super::kept::{allows_kept, allows_restored};
use super::known::Known;
use super::made::Made;
use super::marks::Marks;
use super::noted::Noted;
use super::replies::allows_sent;
use super::returns::Returns;
use super::settled::Settled;
use super::transactions::allows_transaction;
use super::turns::Turn;
use lu_base::{Memory, Node};
use lu_judge_pass::{Judge, first_broken};
use lu_trace::{Entry, Line, Trace};
use std::alloc::Global;

/// What the law of recovery asks of the lines so far, and of the whole trace.
#[derive(Drop)]
struct Recovery<'a> {
    alloc: Global,
    /// All lines of the trace.
    lines: &'a [Line],
    /// The greatest client of the trace.
    greatest: Option<u16>,
    /// The turns of the trace in which a disk fails.
    failing: Failing,
    known: Known<'a>,
    marks: Marks,
    made: Made<'a>,
    noted: Noted<'a>,
    settled: Settled,
    callbacks: Callbacks,
    returns: Returns,
    closings: Closings,
}

impl<'a> Recovery<'a> {
    /// Of no line of these, which are well formed, where there are so many object storage targets, 1 to 8.
    fn new(alloc: Global, osts: u16, lines: &'a [Line]) -> Result<Recovery<'a>, Memory>
        requires some { 1 ≤ osts }
        requires most { osts ≤ 8 }
        requires formed { All IsLine lines.now }
        ensures shows { IfOk result (λ judge. Shown judge []) }
        ensures osts { IfOk result (λ judge. judge.known.osts ≡ osts) }
        ensures lines { IfOk result (λ judge. judge.lines.now ≡ lines.now) }
    {
        let greatest = greatest_client(lines);
        let failing = failing_in(alloc, lines)?;
        let known = Known::new(alloc, osts)?;
        Ok(Recovery {
            alloc,
            lines,
            greatest,
            failing,
            known,
            marks: Marks::new(alloc),
            made: Made::new(alloc),
            noted: Noted::new(alloc),
            settled: Settled::new(alloc),
            callbacks: Callbacks::new(alloc),
            returns: Returns::new(alloc),
            closings: Closings::new(alloc),
        })
    }

    /// The last close of the turn, where the disk doesn't fail in it.
    fn decided(&self, turn: Turn) -> Option<&Closing>
        ensures decided { (past : Past) (later : List LineOf) → Shown self.now past
            → is_failing self.now.failing turn.stamp turn.target ≡ fails (turn_at turn.stamp turn.target) past later
            → FitsDecided (option_copied result) (count_of self.now.greatest) turn.target
            (turn_at turn.stamp turn.target) past later }
    {
        if self.failing.has(turn) {
            return None;
        }
        self.closings.get(turn)
    }

    /// Whether the law holds at a line of this turn, next, that isn't an eviction or a part of what a close decided.
    fn allows_other(&self, turn: Turn, line: &'a Line, later: &'a [Line]) -> Result<bool, Memory>
        requires here { line.now ≡ line_at turn.stamp turn.target line.now.entry }
        requires other { follows line.now.entry ≡ false }
        ensures decided { IfOk result (λ holds. (past : Past) → Shown self.now past
            → PlacedIn (reverse self.now.lines.now) past line.now later.now → IsTrue holds
            ↔ RecoveryAt (count_of self.now.greatest) self.now.known.osts past line.now later.now line.now.entry) }
    {
        let known = &self.known;
        match &line.entry {
            Entry::Send { message, .. } => {
                allows_sent(self.alloc, known, &self.made, &self.noted, turn, message)
            }
            Entry::Take(_) => Ok(self.allows_handing(turn.target, line, later)),
            Entry::Joined(_) => Ok(self.allows_handing(turn.target, line, later)),
            Entry::Txn {
                txn,
                who,
                xid,
                seen,
                answer,
            } => allows_transaction(known, turn.target, *txn, *who, *xid, seen, answer),
            Entry::Commit(number) => Ok(allows_commit(&known.windows, turn.target, *number)),
            Entry::Back(who) => Ok(allows_back(
                &known.windows,
                &self.marks,
                &self.returns,
                turn,
                *who,
            )),
            Entry::Close => self.allows_close(turn, later),
            _ => Ok(true),
        }
    }

    /// Whether the life that the line of the target brings back, if any, has a `back` line later in the turn.
    fn allows_handing(&self, target: u16, line: &'a Line, later: &'a [Line]) -> bool
        ensures decided { (past : Past) → Shown self.now past → InOrder line.now.at later.now → IsTrue result
            ↔ BringsNamed target past line.now later.now (named past line.now.entry) }
    {
        allows_handing(&self.known.windows, &self.known.ledger, target, line, later)
    }

    /// Whether the window may close in this turn, next.
    fn allows_close(&self, turn: Turn, later: &'a [Line]) -> Result<bool, Memory>
        ensures decided { IfOk result (λ holds. (past : Past) → Shown self.now past
            → InOrder (turn_at turn.stamp turn.target) later.now
            → is_failing self.now.failing turn.stamp turn.target ≡ fails (turn_at turn.stamp turn.target) past later.now
            → IsTrue holds
            ↔ CloseAt (count_of self.now.greatest) turn.target past (turn_at turn.stamp turn.target) later.now) }
    {
        allows_close(
            self.alloc,
            &self.known.windows,
            &self.known.ledger,
            &self.marks,
            &self.failing,
            self.greatest,
            turn,
            later,
        )
    }

    /// Whether the law holds at a line of this turn, next.
    fn allows_entry(&self, turn: Turn, line: &'a Line, later: &'a [Line]) -> Result<bool, Memory>
        requires here { line.now ≡ line_at turn.stamp turn.target line.now.entry }
        ensures decided { IfOk result (λ holds. (past : Past) → Shown self.now past
            → PlacedIn (reverse self.now.lines.now) past line.now later.now → IsTrue holds
            ↔ RecoveryAt (count_of self.now.greatest) self.now.known.osts past line.now later.now line.now.entry) }
    {
        match &line.entry {
            Entry::Kept(number) => Ok(allows_kept(
                &self.settled,
                self.decided(turn),
                turn,
                *number,
            )),
            Entry::Restore(lock) => Ok(allows_restored(self.decided(turn), turn, lock)),
            Entry::Evict { who, cause } => Ok(allows_evict(
                &self.known,
                &self.marks,
                &self.callbacks,
                self.decided(turn),
                turn,
                *who,
                *cause,
            )),
            _ => self.allows_other(turn, line, later),
        }
    }
}

impl<'a> Judge<'a> for Recovery<'a> {
    ghost about = { λ j. record { osts = j.known.osts; whole = reverse j.lines.now } };

    ghost given = { Placed };

    ghost shows = { Shown };

    ghost law = { λ about. RecoveryLaw about.osts about.whole };

    fn allows(&self, line: &'a Line, later: &'a [Line]) -> Result<bool, Memory> {
        match line.at.node {
            Node::Client(_) => Ok(true),
            Node::Target(target) => {
                let turn = Turn {
                    stamp: line.at.stamp.0,
                    target,
                };
                self.allows_entry(turn, line, later)
            }
        }
    }

    fn step(&mut self, line: &'a Line) -> Result<(), Memory> {
        let known = &self.known;
        self.closings.step(
            &known.windows,
            &known.ledger,
            &self.failing,
            self.greatest,
            line,
        )?;
        self.returns.step(&known.windows, &known.ledger, line)?;
        self.settled.step(&known.windows, line)?;
        self.marks.step(line)?;
        self.made.step(line)?;
        self.noted.step(line)?;
        self.callbacks.step(line)?;
        self.known.step(line)
    }
}

/// The place, from 0, of the first line that breaks the law of recovery; none exactly where the law holds of the trace. The
/// trace is well formed and keeps the law of messages. It answers want of memory alone.
pub fn first_in_recovery(alloc: Global, trace: &Trace) -> Result<Option<usize>, Memory>
    requires formed { IsWellFormed trace.now }
    requires messages { Holds Messages (reverse trace.now.entries) }
    ensures first { IfOk result (IsFirst (RecoveryLaw trace.now.osts (reverse trace.now.entries)) trace.now.entries) }
    ensures none { IfOk result (λ place. (place ≡ None)
        ↔ Holds (RecoveryLaw trace.now.osts (reverse trace.now.entries)) (reverse trace.now.entries)) }
{
    let lines = trace.entries.as_slice();
    let judge = Recovery::new(alloc, trace.osts, lines)?;
    first_broken(judge, lines)
}
