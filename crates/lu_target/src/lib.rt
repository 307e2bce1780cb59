//! A target, whole: what it does in a turn, whatever comes, over a disk that can fail.
#![tactic(auto)]

mod accepting;
mod commands;
mod faults;
mod messages;
mod running;
mod targets;

pub use faults::{BootFault, StepFault};
pub use targets::Target;
