//! What a target asks of its disk.

ghost use Rattle.std.specs.Prelude.{◌≡◌, ℕ, List, [], ◌∷◌, ◌++◌, IfOk, OnOk, OnErr};
ghost use Rattle.lu_msg.specs.declared.commits.Batch.{Batch as BatchOf};
ghost use Rattle.lu_disk.specs.Disks.{HasCause};

use lu_base::Memory;
use lu_msg::{Batch, Batches};
use std::alloc::AllocFailed;

/// Why a disk's call wasn't done. The disk holds what it held.
#[derive(Clone, Copy, Debug, PartialEq, Eq)]
pub enum DiskError {
    /// The disk failed; its count of faults rose.
    Failed,
    /// Want of memory.
    Memory,
}

impl From<Memory> for DiskError {
    ghost use Rattle.std.specs.Prelude.{◌≡◌};
    ghost use Rattle.lu_disk.specs.declared.disks.DiskError.TheVariants as error;

    ghost from_gives = { λ _ e. e ≡ error.Memory };

    fn from(_error: Memory) -> DiskError {
        DiskError::Memory
    }
}

/// Where a target's batches are kept. It counts its faults: only a call that answers `Failed` raises the count,
/// and no call lowers it.
pub trait Disk {
    ghost batches: { Self → List BatchOf };

    ghost faults: { Self → ℕ };

    /// The batches that were committed, in the order of their commits.
    fn load(&mut self) -> Result<Batches, DiskError>
        ensures loaded { IfOk result (λ loaded. loaded ≡ batches self.old) }
        ensures same { batches self.new ≡ batches self.old }
        ensures cause { HasCause (faults self.old) (faults self.new) result };

    /// Adds a batch after those that are there. After an error the disk holds what it held.
    fn commit(&mut self, batch: &Batch) -> Result<(), DiskError>
        ensures added { OnOk result (batches self.new ≡ batches self.old ++ batch.now ∷ []) }
        ensures kept { OnErr result (batches self.new ≡ batches self.old) }
        ensures cause { HasCause (faults self.old) (faults self.new) result };
}
