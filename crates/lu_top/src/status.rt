//! How a run of the program ends.

ghost use Rattle.std.specs.Prelude.{◌≡◌};
ghost use Rattle.lu_top.specs.Codes.{code_of};

use lu_base::TargetId;
use lu_judge::Law;
use lu_scene::Fault;

/// How a run of the program ends, and what stands in the sink then.
#[derive(Clone, Copy, Debug, PartialEq, Eq)]
pub enum Status {
    /// The scenario was performed, to its end or to the limit of turns and messages, and its whole trace is written, or
    /// the whole summary of it; or the trace that was read is lawful, and the sink has `lawful`.
    Done,
    /// The trace that was read breaks a law: the first one that is broken, and the first line that breaks it, counted
    /// from 1. The sink has `broken`, the law and the line's number.
    Unlawful { law: Law, line: u64 },
    /// The words are no form of a command line. The sink has the line that names the forms.
    Usage,
    /// The bytes are no scenario: the first bad line, counted from 1, and its first fault. The sink has
    /// `scene`, the line's number and the name of the fault.
    Scene { line: u64, fault: Fault },
    /// The bytes are no text of a trace: the first line, counted from 1, that no such text has there. The sink has `trace`
    /// and the line's number.
    Trace { line: u64 },
    /// The source gave more bytes than a scenario or a trace has. The sink has `too long`.
    TooLong,
    /// The source failed. The sink has `read fault`.
    ReadFault,
    /// The sink failed while the trace, the summary or the verdict was written. It has a prefix of that.
    WriteFault,
    /// The disk of this target failed, and the run went no further. The sink has the trace so far, or the summary of it;
    /// where the sink failed too, a prefix of that.
    DiskFault { target: TargetId },
    /// Want of memory. Nothing was written.
    Memory,
    /// A node met what no run is known to bring. The sink has `unforeseen`.
    Unforeseen,
}

/// The exit code of a status.
pub fn code(status: &Status) -> u8
    ensures code { result ≡ code_of status.now }
{
    match status {
        Status::Done => 0,
        Status::Unlawful { .. } => 1,
        Status::Usage => 2,
        Status::Scene { .. } => 3,
        Status::Trace { .. } => 3,
        Status::TooLong => 3,
        Status::ReadFault => 4,
        Status::WriteFault => 5,
        Status::DiskFault { .. } => 6,
        Status::Memory => 7,
        Status::Unforeseen => 8,
    }
}
