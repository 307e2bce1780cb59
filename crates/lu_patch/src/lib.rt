//! A client's changes of one object that it has not written back: a pending cut, and dirty bytes over it.
#![tactic(auto)]

mod dirty;
mod flight;
pub mod laws;
mod patch;

pub use patch::Patch;
