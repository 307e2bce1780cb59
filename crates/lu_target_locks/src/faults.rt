//! Why a call of a lock server wasn't done.

use lu_base::Memory;

/// Why a call wasn't done.
#[derive(Clone, Copy, Debug, PartialEq, Eq)]
pub enum LockFault {
    /// The boot has no cookie left: its count stands at 2^32 - 1.
    CookiesSpent,
    /// The boot has no tick left: its count stands at 2^64 - 1.
    TicksSpent,
    /// Want of memory.
    Memory,
}

impl From<Memory> for LockFault {
    ghost use Rattle.std.specs.Prelude.{◌≡◌};
    ghost use Rattle.lu_target_locks.specs.declared.faults.LockFault.TheVariants as fault;

    ghost from_gives = { λ _ f. f ≡ fault.Memory };

    fn from(_error: Memory) -> LockFault {
        LockFault::Memory
    }
}
