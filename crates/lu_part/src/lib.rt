//! The parts of a target's contents that operations touch and write, where parts meet, and the locks that
//! guard them.
#![tactic(auto)]

mod bits;
mod parts;

pub use bits::{LAYOUT, LOOKUP, UPDATE};
pub use parts::{Part, Parts, Want, Wants, guard, meets};
