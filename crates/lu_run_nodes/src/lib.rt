//! The nodes of a run: its clients, its metadata target and its object storage targets with their disks.
//!
//! What a node's turn gives, and what it knows after it, is the row of that node over all turns before (`specs/Turns`).
#![tactic(auto)]

mod clients;
mod ends;
mod faults;
mod fresh;
mod nodes;
mod starts;
mod targets;

pub use faults::{StartFault, TurnFault};
pub use fresh::Fresh;
pub use nodes::{Command, Nodes};
