//! A disk in memory, of which chosen calls fail.

ghost use Rattle.std.specs.Prelude.{◌≡◌, ◌≢◌, ℕ, ◌↔◌, [], ◌∷◌, ◌++◌, Err, Contains, IfOk, OnOk, OnErr, true, false, ◌≤◌};
ghost use Rattle.lu_base.specs.Memories.{counted};
ghost use Rattle.lu_base.specs.Faults.{Rose};
ghost use Rattle.lu_disk.specs.declared.disks.DiskError.TheVariants as error;
ghost use Rattle.lu_disk.specs.Disks.{HasCause};

use super::disks::{Disk, DiskError};
use lu_base::{Duplicate, Numbers};
use lu_msg::{Batch, Batches};
use std::alloc::Global;
use std::marker::Model;

/// A disk in memory. Its calls, `load` and `commit` alike, are numbered from 0; the listed ones fail. A call
/// that meets want of memory is counted too.
#[derive(Debug, Drop)]
pub struct MemoryDisk {
    alloc: Global,
    held: Batches,
    failing: Numbers,
    calls: u64,
    faults: u64,
}

impl Model for MemoryDisk {
    ghost use Rattle.lu_disk.specs.Disks.{MemoryBatches};

    ghost Value = { MemoryBatches };

    ghost view = { λ disk. record {
      batches = disk.held;
      failing = disk.failing;
      calls = disk.calls;
      faults = disk.faults;
    } };
}

impl MemoryDisk {
    /// A disk without batches whose calls at the numbers in `failing`, counted from 0, fail. It takes no memory yet.
    pub fn new(alloc: Global, failing: Numbers) -> MemoryDisk
        ensures fresh { result ≡ record { batches = []; failing = failing; calls = 0; faults = 0 } }
    {
        MemoryDisk {
            alloc,
            held: Batches::new(alloc),
            failing,
            calls: 0,
            faults: 0,
        }
    }

    /// Counts a call; answers whether it fails, and then counts a fault.
    fn fails(&mut self) -> bool
        ensures listed { result ≡ true ↔ Contains self.old.failing self.old.calls }
        ensures calls { self.new.calls ≡ counted self.old.calls }
        ensures later { self.old.faults ≤ self.new.faults }
        ensures rose { result ≡ true → Rose self.old.faults self.new.faults }
        ensures steady { result ≡ false → self.new.faults ≡ self.old.faults }
        ensures batches { self.new.batches ≡ self.old.batches }
        ensures failing { self.new.failing ≡ self.old.failing }
    {
        let call = self.calls;
        self.calls = self.calls.saturating_add(1);
        if self.failing.as_slice().contains(&call) {
            self.faults = self.faults.saturating_add(1);
            return true;
        }
        false
    }
}

impl Disk for MemoryDisk {
    ghost batches = { λ disk. disk.batches };

    ghost faults = { λ disk. disk.faults };

    fn load(&mut self) -> Result<Batches, DiskError>
        ensures loaded { IfOk result (λ loaded. loaded ≡ self.old.batches) }
        ensures same { self.new.batches ≡ self.old.batches }
        ensures cause { HasCause self.old.faults self.new.faults result }
        ensures fails { result ≡ Err error.Failed ↔ Contains self.old.failing self.old.calls }
        ensures calls { self.new.calls ≡ counted self.old.calls }
        ensures listed { self.new.failing ≡ self.old.failing }
    {
        if self.fails() {
            return Err(DiskError::Failed);
        }
        Ok(self.held.copy(self.alloc)?)
    }

    fn commit(&mut self, batch: &Batch) -> Result<(), DiskError>
        ensures added { OnOk result (self.new.batches ≡ self.old.batches ++ batch.now ∷ []) }
        ensures kept { OnErr result (self.new.batches ≡ self.old.batches) }
        ensures cause { HasCause self.old.faults self.new.faults result }
        ensures fails { result ≡ Err error.Failed ↔ Contains self.old.failing self.old.calls }
        ensures calls { self.new.calls ≡ counted self.old.calls }
        ensures listed { self.new.failing ≡ self.old.failing }
    {
        if self.fails() {
            return Err(DiskError::Failed);
        }
        let copy = batch.copy(self.alloc)?;
        self.held.push(copy)?;
        Ok(())
    }
}
