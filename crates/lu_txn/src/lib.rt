//! A target's journal: its uncommitted transactions, and the replies that it keeps for the lives of clients.
#![tactic(auto)]

mod index;
mod journals;
mod loads;
mod logs;
mod places;
mod slots;
mod uncommitted;

pub use journals::{Journal, Seen, TxnError};
pub use logs::Logged;
pub use slots::Slot;
