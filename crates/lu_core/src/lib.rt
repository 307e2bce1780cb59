//! The player: performs a scenario in one thread, one node's turn after another, over disks that it is given.
//!
//! What a scenario comes to is defined in `lu_spec_run` (`Scenarios`); `play` gives the trace of that (`specs/Played`). `theorems`
//! says of which scenarios each turn is foreseen: each message that comes may come, and no target lacks a number.
#![tactic(auto)]

mod faults;
mod players;
mod playing;
mod taking;
pub mod theorems;

pub use faults::PlayFault;
pub use playing::{Played, play};
