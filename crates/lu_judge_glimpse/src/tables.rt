//! What the lines so far say.

ghost use Rattle.std.specs.Prelude.{◌≡◌, [], ◌∷◌, length, OnOk, IsSome};
ghost use Rattle.lu_trace.specs.declared.entries.Line.{Line};
ghost use Rattle.lu_spec_laws.specs.Words.Pasts.{Past};
ghost use Rattle.lu_spec_laws.specs.Laws.Messages.{Follows};
ghost use Rattle.lu_judge_pass.specs.Places.{Ordered};
ghost use Rattle.lu_judge_glimpse.specs.Histories.{IsFormed, IsKept, ShowsHistory};
ghost use Rattle.lu_judge_glimpse.specs.Tables.{ShowsTables};

use crate::{Begins, History, Locks};
use lu_base::Memory;
use lu_judge_calls::OpenCalls;
use lu_judge_pass::{Gone, Ledger};
use lu_judge_windows::Windows;
use lu_trace::Line;
use std::alloc::Global;

/// What the lines so far say of lives, calls, locks and transactions.
#[derive(Debug, Drop)]
pub(crate) struct Tables<'a> {
    pub(crate) ledger: Ledger<'a>,
    pub(crate) calls: OpenCalls<'a>,
    pub(crate) windows: Windows<'a>,
    /// The lives that are gone so far.
    pub(crate) gone: Gone,
    pub(crate) locks: Locks,
    pub(crate) begins: Begins,
}

impl<'a> Tables<'a> {
    /// Of no line. It takes no memory yet.
    pub(crate) fn new(alloc: Global) -> Tables<'a>
        ensures shows { ShowsTables result [] }
    {
        Tables {
            ledger: Ledger::new(alloc),
            calls: OpenCalls::new(alloc),
            windows: Windows::new(alloc),
            gone: Gone::new(alloc),
            locks: Locks::new(alloc),
            begins: Begins::new(alloc),
        }
    }

    /// Takes in the next line, at its place. After want of memory nothing is known of the tables.
    pub(crate) fn step(&mut self, line: &'a Line, place: usize) -> Result<(), Memory>
        ensures shows { OnOk result ((past : Past) → place ≡ length past
            → Ordered past → Follows past line.now.at → ShowsTables self.old past
            → ShowsTables self.new (line.now ∷ past)) }
    {
        self.calls.step(&self.ledger, line)?;
        self.windows.step(&self.ledger, line)?;
        self.gone.step(line)?;
        self.locks.step(line)?;
        self.begins.step(line, place)?;
        self.ledger.step(line)
    }

    /// Has the history take in the next line.
    pub(crate) fn tell(&self, history: &mut History<'a>, line: &'a Line) -> Result<(), Memory>
        requires formed { IsFormed self.now.ledger self.now.calls }
        ensures shows { OnOk result ((past : Past) → ShowsTables self.now past → ShowsHistory history.old past
            → ShowsHistory history.new (line.now ∷ past)) }
        ensures osts { OnOk result (history.new.osts ≡ history.old.osts) }
    {
        history.step(&self.ledger, &self.calls, &self.gone, &self.windows, line)
    }

    /// Has the machine of the history built, if it isn't.
    pub(crate) fn build(&self, history: &mut History<'a>) -> Result<(), Memory>
        requires kept { IsKept history.old }
        ensures shows { OnOk result ((past : Past) → ShowsTables self.now past → ShowsHistory history.old past
            → ShowsHistory history.new past) }
        ensures built { OnOk result (IsSome history.new.machine) }
        ensures osts { OnOk result (history.new.osts ≡ history.old.osts) }
    {
        history.build(&self.gone, &self.windows)
    }
}
