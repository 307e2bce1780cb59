//! The messages of a run and the lines of its turns, as one who performs it keeps them.
//!
//! What a wire shows of a run so far is defined in `specs/Wires`.
#![tactic(auto)]

mod wires;

pub use wires::Wire;
