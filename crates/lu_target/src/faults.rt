//! Why a target makes no step.

ghost use Rattle.std.specs.Prelude.{◌≡◌, ◌≢◌};
ghost use Rattle.lu_trace.specs.declared.traces.Step.{Step as SpecStep};
ghost use Rattle.lu_target_server.specs.declared.booting.BeginFault.TheVariants as begin;
ghost use Rattle.lu_target_server.specs.declared.faults.TurnFault.TheVariants as fault;
ghost use Rattle.lu_target.specs.Faults.{step_fault_of, IsBootFault};

use lu_target_server::{BeginFault, TurnFault};
use lu_trace::Step;

/// Why a target makes no step. It makes no further one.
#[derive(Debug, PartialEq, Eq, Drop)]
pub enum StepFault {
    /// The disk failed; its count of faults rose. The step has the lines of the turn up to `fail`.
    Disk(Step),
    /// The boot has no transaction number or no cookie left that the turn needs: its count stands at 2^32 - 1.
    NumbersSpent,
    /// Want of memory.
    Memory,
}

/// Why a target didn't begin. Its disk comes back.
#[derive(Debug, PartialEq, Eq, Drop)]
pub enum BootFault {
    /// The disk failed; its count of faults rose. The step has the lines of the turn up to `fail`.
    Disk(Step),
    /// There is no boot left: the last one on the disk is 2^32 - 1.
    BootsSpent,
    /// Want of memory.
    Memory,
}

/// The answer of a step whose turn wasn't made, of which this was given.
pub(crate) fn step_fault(cause: TurnFault, step: Step) -> StepFault
    ensures is { result ≡ step_fault_of cause step }
{
    match cause {
        TurnFault::Disk => StepFault::Disk(step),
        TurnFault::NumbersSpent => StepFault::NumbersSpent,
        TurnFault::Memory => StepFault::Memory,
    }
}

/// The answer of a target of which an earlier step wasn't made.
pub(crate) fn spent_fault(cause: TurnFault) -> StepFault
    requires disk { cause ≢ fault.Disk }
    ensures is { (step : SpecStep) → result ≡ step_fault_of cause step }
{
    match cause {
        TurnFault::Disk => unreachable!(),
        TurnFault::NumbersSpent => StepFault::NumbersSpent,
        TurnFault::Memory => StepFault::Memory,
    }
}

/// The answer of a target that didn't begin, in whose turn this was given.
pub(crate) fn boot_fault(cause: BeginFault, step: Step) -> BootFault
    requires numbers { cause ≢ begin.Turn fault.NumbersSpent }
    ensures is { IsBootFault cause step result }
{
    match cause {
        BeginFault::BootsSpent => BootFault::BootsSpent,
        BeginFault::Turn(TurnFault::Disk) => BootFault::Disk(step),
        BeginFault::Turn(TurnFault::NumbersSpent) => unreachable!(),
        BeginFault::Turn(TurnFault::Memory) => BootFault::Memory,
    }
}
