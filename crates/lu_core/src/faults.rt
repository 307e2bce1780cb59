//! Why a scenario isn't performed.

ghost use Rattle.std.specs.Prelude.{◌≡◌};

use lu_base::Memory;
use std::error::Error;
use std::fmt;

/// Why a scenario isn't performed. The disks that were given are lost, unless one of them failed.
#[derive(Clone, Copy, Debug, PartialEq, Eq)]
pub enum PlayFault {
    /// A node met what no run is known to bring: a message that it may not be given, a number that it doesn't have, or a
    /// disk that failed where no line of the turn tells of it. That no run comes to this isn't proved of all scenarios.
    Unforeseen,
    /// Want of memory.
    Memory,
}

impl fmt::Display for PlayFault {
    fn fmt<W: fmt::Write>(&self, f: &mut fmt::Formatter<W>) -> fmt::Result {
        match self {
            PlayFault::Unforeseen => write!(f, "a node met what no run is known to bring"),
            PlayFault::Memory => write!(f, "out of memory"),
        }
    }
}

impl Error for PlayFault {}

impl From<Memory> for PlayFault {
    ghost use Rattle.std.specs.Prelude.{◌≡◌};
    ghost use Rattle.lu_core.specs.declared.faults.PlayFault.TheVariants as fault;

    ghost from_gives = { λ _ e. e ≡ fault.Memory };

    fn from(_error: Memory) -> PlayFault {
        PlayFault::Memory
    }
}
