//! The judge of the law of locks.
#![tactic(auto)]

mod acts;
mod asked;
mod lists;
mod locks;
mod orders;
mod queues;
mod waiting;

pub use locks::first_in_locks;
