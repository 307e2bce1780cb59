//! The rules of locks, over values alone: which modes are compatible, which locks conflict, and how far an
//! extent grows when its lock is granted. No call takes memory.
#![tactic(auto)]

mod conflicts;
mod growth;
mod modes;

pub use conflicts::{conflict, conflicts_with_any, extents_meet};
pub use growth::{granted_ask, grow};
pub use modes::{compatible, serves};
