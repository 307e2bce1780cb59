//! What the law looks into beside its own tables: the ledger, the windows, the contents, and what transactions wrote.

ghost use Rattle.std.specs.Prelude.{◌≡◌, ◌≤◌, [], ◌∷◌, IfOk, OnOk};
ghost use Rattle.lu_spec_laws.specs.Words.Pasts.{Past};
ghost use Rattle.lu_trace.specs.WellFormed.{IsLine};
ghost use Rattle.lu_spec_laws.specs.Words.Seen.{seen_by};
ghost use Rattle.lu_spec_laws.specs.Laws.Messages.{Follows};
ghost use Rattle.lu_spec_laws.specs.Laws.Recovery.{request_sees};
ghost use Rattle.lu_judge_pass.specs.Places.{Ordered};
ghost use Rattle.lu_judge_names.specs.Seen.{CommitRises};
ghost use Rattle.lu_judge_recovery.specs.Known.{ShowsKnown};

use lu_base::{Memory, Numbers, Txn, Who, Xid};
use lu_judge_names::{Contents, SeenLog, touches_at};
use lu_judge_pass::Ledger;
use lu_judge_windows::Windows;
use lu_msg::Answer;
use lu_part::Parts;
use lu_trace::Line;
use std::alloc::Global;

/// The ledger, the windows, the contents, and what transactions wrote.
#[derive(Drop)]
pub struct Known<'a> {
    alloc: Global,
    /// The number of object storage targets, 1 to 8.
    pub osts: u16,
    pub ledger: Ledger<'a>,
    pub windows: Windows<'a>,
    contents: Contents<'a>,
    written: SeenLog,
}

impl<'a> Known<'a> {
    /// Of no line, where there are so many object storage targets, 1 to 8.
    pub fn new(alloc: Global, osts: u16) -> Result<Known<'a>, Memory>
        requires some { 1 ≤ osts }
        requires most { osts ≤ 8 }
        ensures shows { IfOk result (λ known. ShowsKnown known []) }
        ensures osts { IfOk result (λ known. known.osts ≡ osts) }
    {
        Ok(Known {
            alloc,
            osts,
            ledger: Ledger::new(alloc),
            windows: Windows::new(alloc),
            contents: Contents::new(alloc, osts)?,
            written: SeenLog::new(alloc),
        })
    }

    /// The numbers that the life's request saw that has this answer.
    pub fn request_sees(
        &self,
        target: u16,
        number: Txn,
        who: Who,
        xid: Xid,
        answer: &Answer,
    ) -> Result<Numbers, Memory>
        ensures sees { IfOk result (λ numbers. (past : Past) → ShowsKnown self.now past
            → numbers ≡ request_sees self.now.osts target past number who xid.0 answer.now) }
    {
        let op = self.ledger.requests.asked(target, who, xid);
        let contents = &self.contents;
        let touched = touches_at(self.alloc, contents, target, number, who, op, answer)?;
        self.seen(target, &touched)
    }

    /// The numbers that are seen by what touches these parts of the target.
    pub fn seen(&self, target: u16, touched: &Parts) -> Result<Numbers, Memory>
        ensures seen { IfOk result (λ numbers. (past : Past) → ShowsKnown self.now past
            → numbers ≡ seen_by self.now.osts target past touched.now) }
    {
        self.written.seen(&self.windows, target, touched)
    }

    /// Takes in the next line, which is well formed and at which no committed number falls. After want of memory nothing
    /// is known of the tables.
    pub fn step(&mut self, line: &'a Line) -> Result<(), Memory>
        ensures shows { OnOk result ((past : Past) → Ordered past → Follows past line.now.at
            → IsLine line.now → CommitRises past line.now
            → ShowsKnown self.old past → ShowsKnown self.new (line.now ∷ past)) }
        ensures osts { OnOk result (self.new.osts ≡ self.old.osts) }
    {
        self.written.step(&self.ledger, &self.contents, line)?;
        self.windows.step(&self.ledger, line)?;
        self.contents.step(&self.ledger, &self.windows, line)?;
        self.ledger.step(line)
    }
}
