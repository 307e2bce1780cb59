//! The top call: performs the scenario that a command line asks for, over nine disks, or judges a trace, and writes what came
//! of it.
#![tactic(auto)]

mod commands;
mod forms;
mod judging;
mod performing;
mod refusals;
mod scenes;
mod status;
mod top;

pub use commands::run_command;
pub use forms::{Form, Performance};
pub use status::{Status, code};
pub use top::run;
