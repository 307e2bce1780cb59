//! What the transactions of each target wrote, and what is seen of it.

ghost use Rattle.std.specs.Prelude.{◌≡◌, ℕ, ◌==◌, not, [], ◌∷◌, ◌++◌, ◌⊎◌, filter, if◌then◌else◌, IfOk, OnOk};
ghost use Rattle.lu_trace.specs.declared.entries.Line.{Line};
ghost use Rattle.lu_spec_laws.specs.Words.Pasts.{Past};
ghost use Rattle.lu_spec_laws.specs.Words.Lost.{is_lost};
ghost use Rattle.lu_spec_laws.specs.Words.Seen.{seen_by};
ghost use Rattle.lu_judge_pass.specs.Ledgers.{ShowsLedger};
ghost use Rattle.lu_judge_windows.specs.Windows.{ShowsWindows};
ghost use Rattle.lu_judge_names.specs.Contents.{ShowsContents};
ghost use Rattle.lu_judge_names.specs.Logs.{is_above, seen_by as logged_by};
ghost use Rattle.lu_judge_names.specs.Formed.{AreFormed};
ghost use Rattle.lu_judge_names.specs.Seen.{logged, ShowsSeen, CommitRises};

use super::footprints::writes_at;
use crate::{Contents, Log, Written};
use lu_base::{Memory, Node, Numbers, Txn, Who, Xid};
use lu_judge_pass::Ledger;
use lu_judge_windows::Windows;
use lu_part::Parts;
use lu_trace::{Entry, Line};
use std::alloc::Global;
use std::collections::HashMap;

/// The numbers of these that aren't lost at the target.
fn standing(
    alloc: Global,
    windows: &Windows,
    target: u16,
    numbers: &Numbers,
) -> Result<Numbers, Memory>
    ensures { IfOk result (λ kept. (past : Past) → ShowsWindows windows.now past
        → kept ≡ filter (λ n. not (is_lost past target n)) numbers.now) }
{
    let mut kept = Numbers::new(alloc);
    for number in numbers.as_slice() {
        if !windows.is_lost(target, *number) {
            kept.push(*number)?;
        }
    }
    Ok(kept)
}

/// What the transactions of each target wrote, at least above its committed number.
#[derive(Debug, Drop)]
pub struct SeenLog {
    alloc: Global,
    logs: HashMap<u16, Log>,
}

impl SeenLog {
    /// Of no line, over however many targets. It takes no memory yet.
    pub fn new(alloc: Global) -> SeenLog
        ensures shows { (osts : ℕ) → ShowsSeen osts result [] }
    {
        SeenLog {
            alloc,
            logs: HashMap::new(alloc),
        }
    }

    /// Adds a transaction of the target. After want of memory nothing is known of the table.
    fn add(&mut self, target: u16, written: Written) -> Result<(), Memory>
        ensures { OnOk result ((t : ℕ) → logged self.new t
            ≡ (if target == t then logged self.old t ++ written ∷ [] else logged self.old t)) }
    {
        let log = self.logs.entry(target)?.or_insert(Log::new(self.alloc));
        log.add(written)
    }

    /// May let go of the target's transactions up to this number. After want of memory nothing is known of the table.
    fn trim(&mut self, target: u16, number: u64) -> Result<(), Memory>
        ensures { OnOk result ((t : ℕ) → (logged self.new t ≡ logged self.old t)
            ⊎ ((target ≡ t) × (logged self.new t ≡ filter (is_above number) (logged self.old t)))) }
    {
        match self.logs.get_mut(&target) {
            Some(log) => log.trim(number),
            None => Ok(()),
        }
    }

    /// Takes in the next line. The ledger and the contents show the lines before it. After want of memory nothing is
    /// known of the table.
    pub fn step(&mut self, ledger: &Ledger, contents: &Contents, line: &Line) -> Result<(), Memory>
        ensures shows { OnOk result ((osts : ℕ) (past : Past) → ShowsLedger ledger.now past
            → ShowsContents osts contents.now past → AreFormed past → CommitRises past line.now
            → ShowsSeen osts self.old past → ShowsSeen osts self.new (line.now ∷ past)) }
    {
        match line.at.node {
            Node::Client(_) => Ok(()),
            Node::Target(target) => match &line.entry {
                Entry::Txn { txn, who, xid, .. } => {
                    let op = ledger.requests.asked(target, *who, *xid);
                    let writes = writes_at(self.alloc, contents, target, *txn, *who, op)?;
                    self.add(
                        target,
                        Written {
                            number: txn.0,
                            writes,
                        },
                    )
                }
                Entry::Commit(number) => self.trim(target, number.0),
                _ => Ok(()),
            },
        }
    }

    /// The numbers of the target above this one that what touches these parts meets, in the order of the lines.
    fn met(&self, target: u16, above: u64, touched: &Parts) -> Result<Numbers, Memory>
        ensures { IfOk result (λ numbers. numbers
            ≡ logged_by above touched.now (logged self.now target)) }
    {
        match self.logs.get(&target) {
            Some(log) => log.seen(above, touched),
            None => Ok(Numbers::new(self.alloc)),
        }
    }

    /// The numbers of the target that what touches these parts sees, in the order of the lines.
    pub fn seen(&self, windows: &Windows, target: u16, touched: &Parts) -> Result<Numbers, Memory>
        ensures seen { IfOk result (λ numbers. (osts : ℕ) (past : Past) → ShowsWindows windows.now past
            → ShowsSeen osts self.now past → numbers ≡ seen_by osts target past touched.now) }
    {
        let numbers = self.met(target, windows.committed(target), touched)?;
        standing(self.alloc, windows, target, &numbers)
    }
}
