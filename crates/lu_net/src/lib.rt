//! Messages on their way between the nodes.
#![tactic(auto)]

mod links;

pub use links::{Links, Posted, Sent};
