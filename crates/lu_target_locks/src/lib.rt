//! The locks of a target, and what it has asked of their holders.
#![tactic(auto)]

mod askers;
mod calling;
mod departing;
mod expiring;
mod faults;
mod highest;
mod reminding;
mod server;
mod standing;

pub use departing::{Asker, Departure, EndedLock, Left, QueueStep};
pub use faults::LockFault;
pub use reminding::Reminder;
pub use server::{Enqueued, LockServer, Released};
pub use standing::are_ordered;
