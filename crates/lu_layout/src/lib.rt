//! The layout of a file: how its bytes are striped over objects on several targets.
#![tactic(auto)]

pub mod laws;
mod layout;

pub use layout::{Layout, LayoutError};
