//! Why a node makes no turn.

ghost use Rattle.std.specs.Prelude.{◌≡◌};

use lu_base::{Memory, TargetId};
use lu_target::{BootFault, StepFault};
use lu_trace::Step;
use std::error::Error;
use std::fmt;

/// Why a node makes no turn. The run goes no further.
#[derive(Debug, PartialEq, Eq, Drop)]
pub enum TurnFault {
    /// The disk of the target failed; its count of faults rose. The step has the lines of the turn up to `fail`.
    Disk(Step),
    /// The turn isn't foreseen (`specs/Foreseen`): what came isn't what the node may be given, or it has no number left that
    /// the turn needs. No run is known that comes to this; that none does isn't proved.
    Unforeseen,
    /// Want of memory.
    Memory,
}

impl fmt::Display for TurnFault {
    fn fmt<W: fmt::Write>(&self, f: &mut fmt::Formatter<W>) -> fmt::Result {
        match self {
            TurnFault::Disk(_) => write!(f, "the disk failed"),
            TurnFault::Unforeseen => write!(f, "the turn isn't one that the node makes"),
            TurnFault::Memory => write!(f, "out of memory"),
        }
    }
}

impl Error for TurnFault {}

impl From<Memory> for TurnFault {
    ghost use Rattle.std.specs.Prelude.{◌≡◌};
    ghost use Rattle.lu_run_nodes.specs.declared.faults.TurnFault.TheVariants as fault;

    ghost from_gives = { λ _ e. e ≡ fault.Memory };

    fn from(_error: Memory) -> TurnFault {
        TurnFault::Memory
    }
}

impl From<StepFault> for TurnFault {
    ghost use Rattle.std.specs.Prelude.{◌≡◌};
    ghost use Rattle.lu_run_nodes.specs.Faults.{step_fault};

    ghost from_gives = { λ error e. e ≡ step_fault error };

    fn from(error: StepFault) -> TurnFault {
        match error {
            StepFault::Disk(step) => TurnFault::Disk(step),
            StepFault::NumbersSpent => TurnFault::Unforeseen,
            StepFault::Memory => TurnFault::Memory,
        }
    }
}

impl From<BootFault> for TurnFault {
    ghost use Rattle.std.specs.Prelude.{◌≡◌};
    ghost use Rattle.lu_run_nodes.specs.Faults.{boot_fault};

    ghost from_gives = { λ error e. e ≡ boot_fault error };

    fn from(error: BootFault) -> TurnFault {
        match error {
            BootFault::Disk(step) => TurnFault::Disk(step),
            BootFault::BootsSpent => TurnFault::Unforeseen,
            BootFault::Memory => TurnFault::Memory,
        }
    }
}

/// Which target doesn't start, and why.
#[derive(Debug, PartialEq, Eq, Drop)]
pub struct StartFault {
    pub target: TargetId,
    pub fault: TurnFault,
}
