//! The recovery window of a target: what it takes of the lives that come back after a boot, which of them are back,
//! and what its close decides.
#![tactic(auto)]

mod brought;
mod members;
mod outcomes;
mod requests;
mod windows;
mod wishes;
mod words;

pub use outcomes::{Eviction, Evictions, KeptReplay, KeptReplays, Outcome};
pub use windows::{Window, WindowError};
