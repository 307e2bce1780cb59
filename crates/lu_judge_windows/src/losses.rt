//! What the closes of the targets' recovery windows lost.

ghost use Rattle.std.specs.Prelude.{◌≡◌, ℕ, ◌==◌, ◌&&◌, true, if◌then◌else◌, Some, [], ◌∷◌, OnOk};
ghost use Rattle.lu_spec_laws.specs.Words.Lost.{is_among};
ghost use Rattle.lu_judge_windows.specs.Losses.{lost_turn, has_failed, is_lost_in, ShowsLosses};

use lu_base::{Memory, Numbers, Stamp};
use std::alloc::Global;
use std::collections::{HashMap, HashSet};

/// The numbers that closes lost, each with the turn of its last loss, and the turns in which a disk failed: what a
/// close loses in such a turn isn't lost.
#[derive(Debug, Drop)]
pub(crate) struct Losses {
    lost: HashMap<(u16, u64), u64>,
    failed: HashSet<(u16, u64)>,
}

impl Losses {
    /// Of no line. It takes no memory yet.
    pub(crate) fn new(alloc: Global) -> Losses
        ensures shows { ShowsLosses result [] }
    {
        Losses {
            lost: HashMap::new(alloc),
            failed: HashSet::new(alloc),
        }
    }

    /// Whether the target's disk failed so far in its turn of this stamp.
    pub(crate) fn has_failed(&self, target: u16, stamp: u64) -> bool
        ensures failed { result ≡ has_failed self.now target stamp }
    {
        self.failed.contains(&(target, stamp))
    }

    /// Whether a finished close of the target lost this transaction.
    pub(crate) fn has(&self, target: u16, number: u64) -> bool
        ensures lost { result ≡ is_lost_in self.now target number }
    {
        match self.lost.get(&(target, number)) {
            Some(stamp) => !self.has_failed(target, *stamp),
            None => false,
        }
    }

    /// A close of the target in its turn of this stamp loses these numbers.
    pub(crate) fn lose(
        &mut self,
        target: u16,
        stamp: Stamp,
        numbers: &Numbers,
    ) -> Result<(), Memory>
        ensures lost { OnOk result ((t n : ℕ) → lost_turn self.new t n
            ≡ (if target == t && is_among numbers.now n then Some stamp.0 else lost_turn self.old t n)) }
        ensures failed { OnOk result (self.new.failed ≡ self.old.failed) }
    {
        for number in numbers.as_slice() {
            self.lost.insert((target, *number), stamp.0)?;
        }
        Ok(())
    }

    /// The target's disk fails in its turn of this stamp.
    pub(crate) fn fail(&mut self, target: u16, stamp: Stamp) -> Result<(), Memory>
        ensures failed { OnOk result ((t s : ℕ) → has_failed self.new t s
            ≡ (if target == t && stamp.0 == s then true else has_failed self.old t s)) }
        ensures lost { OnOk result (self.new.lost ≡ self.old.lost) }
    {
        self.failed.insert((target, stamp.0))?;
        Ok(())
    }
}
