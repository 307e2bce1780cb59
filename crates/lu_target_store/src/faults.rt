//! Why a call of a store wasn't done.

use lu_base::Memory;
use lu_disk::DiskError;

/// Why a call wasn't done.
#[derive(Clone, Copy, Debug, PartialEq, Eq)]
pub enum StoreFault {
    /// The disk failed; its count of faults rose.
    Disk,
    /// The boot has no transaction number left: its count stands at 2^32 - 1.
    NumbersSpent,
    /// There is no boot left: the last one on the disk is 2^32 - 1.
    BootsSpent,
    /// Want of memory.
    Memory,
}

impl From<Memory> for StoreFault {
    ghost use Rattle.std.specs.Prelude.{◌≡◌};
    ghost use Rattle.lu_target_store.specs.declared.faults.StoreFault.TheVariants as fault;

    ghost from_gives = { λ _ f. f ≡ fault.Memory };

    fn from(_error: Memory) -> StoreFault {
        StoreFault::Memory
    }
}

impl From<DiskError> for StoreFault {
    ghost use Rattle.lu_target_store.specs.Commits.{IsFaultOf};

    ghost from_gives = { λ error f. IsFaultOf error f };

    fn from(error: DiskError) -> StoreFault {
        match error {
            DiskError::Failed => StoreFault::Disk,
            DiskError::Memory => StoreFault::Memory,
        }
    }
}
