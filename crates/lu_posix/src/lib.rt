//! The plain machine of `lu_spec_machine` as a program: it answers one act after another, exactly as the machine does.
#![tactic(auto)]

mod files;
mod layouts;
mod machines;
mod names;
mod striping;

pub use machines::Machine;
