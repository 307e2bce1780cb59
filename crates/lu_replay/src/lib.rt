//! What the lives of clients hand in again after a target's boot: replays of requests, in rising number.
#![tactic(auto)]

mod handed;
mod replays;

pub use handed::{Handed, Key};
pub use replays::{Replay, ReplayBody, Replays};
