//! Why a turn wasn't made.

use lu_base::Memory;
use lu_target_locks::LockFault;
use std::error::Error;
use std::fmt;

/// Why a turn wasn't made. The target makes no further turn.
#[derive(Clone, Copy, Debug, PartialEq, Eq)]
pub enum TurnFault {
    /// The disk failed: the turn ends with the line `fail`.
    Disk,
    /// The boot has fewer transaction numbers, cookies or ticks left than the turn needs: it has 2^32 - 1 of each of the
    /// first two, and 2^64 - 1 ticks.
    NumbersSpent,
    /// Want of memory.
    Memory,
}

impl fmt::Display for TurnFault {
    fn fmt<W: fmt::Write>(&self, f: &mut fmt::Formatter<W>) -> fmt::Result {
        match self {
            TurnFault::Disk => write!(f, "the disk failed"),
            TurnFault::NumbersSpent => write!(f, "the boot has no number left"),
            TurnFault::Memory => write!(f, "out of memory"),
        }
    }
}

impl Error for TurnFault {}

impl From<Memory> for TurnFault {
    ghost use Rattle.std.specs.Prelude.{◌≡◌};
    ghost use Rattle.lu_target_server.specs.declared.faults.TurnFault.TheVariants as fault;

    ghost from_gives = { λ _ f. f ≡ fault.Memory };

    fn from(_error: Memory) -> TurnFault {
        TurnFault::Memory
    }
}

impl From<LockFault> for TurnFault {
    ghost use Rattle.lu_target_server.specs.Faults.{IsLockFault};

    ghost from_gives = { λ error f. IsLockFault error f };

    fn from(error: LockFault) -> TurnFault {
        match error {
            LockFault::CookiesSpent => TurnFault::NumbersSpent,
            LockFault::TicksSpent => TurnFault::NumbersSpent,
            LockFault::Memory => TurnFault::Memory,
        }
    }
}
