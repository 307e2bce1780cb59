//! Why a node isn't played to its end.

use lu_base::Memory;
use lu_target::{BootFault, StepFault};

/// Why a node isn't played to its end.
#[derive(Debug, PartialEq, Eq, Drop)]
pub enum PlayFault {
    /// A target that is down takes no turn, one that is up doesn't boot, or a setting is out of its range.
    Misplaced,
    /// Want of memory.
    Memory,
    Step(StepFault),
    Boot(BootFault),
}

impl From<Memory> for PlayFault {
    fn from(_error: Memory) -> PlayFault {
        PlayFault::Memory
    }
}

impl From<StepFault> for PlayFault {
    fn from(fault: StepFault) -> PlayFault {
        PlayFault::Step(fault)
    }
}
