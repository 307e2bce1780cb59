//! What a target has taken and answered, and what of it stands on its disk.
#![tactic(auto)]

mod commits;
mod faults;
mod store;
mod taken;

pub use faults::StoreFault;
pub use store::{Look, Store};
