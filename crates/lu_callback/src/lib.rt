//! What a target has asked of the holders of its locks and isn't answered yet.
#![tactic(auto)]

mod callbacks;
mod holders;

pub use callbacks::{Asked, Callbacks, Kind};
