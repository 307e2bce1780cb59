//! The lines of a turn, as text.

use super::faults::PlayFault;
use lu_base::Bytes;
use lu_trace::{End, Step, Trace, render};
use std::alloc::Global;

/// Appends the lines of a turn as a trace has them, where the numbers of the messages are 0.
pub fn put_step(alloc: Global, out: &mut Bytes, step: Step) -> Result<(), PlayFault> {
    let trace = Trace {
        osts: 1,
        entries: step.entries,
    };
    let text = render(alloc, &trace, End::Done)?;
    match text.as_slice().strip_suffix(b"end\n".as_slice()) {
        Some(lines) => Ok(out.extend(lines)?),
        None => Err(PlayFault::Misplaced),
    }
}

/// Appends what a turn gave, or that nothing came.
pub fn put_turn(alloc: Global, out: &mut Bytes, given: Option<Step>) -> Result<(), PlayFault> {
    match given {
        Some(step) => put_step(alloc, out, step),
        None => Ok(out.extend(b"refused\n")?),
    }
}
