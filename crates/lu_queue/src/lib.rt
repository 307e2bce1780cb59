//! The locks of one resource: those that are granted, and those that wait.
#![tactic(auto)]

mod arrivals;
mod granted;
mod granting;
mod locks;
mod queue;

pub use locks::{Grant, Grants, Placed, QueueError};
pub use queue::Queue;
