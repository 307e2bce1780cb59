//! The judge of the law of messages.
#![tactic(auto)]

mod messages;

pub use messages::first_in_messages;
