//! A client's turns: how a call begins, how the calls on its slots go on, what messages, evictions and ticks bring about, the pass
//! over the held locks, and what is sent.
#![tactic(auto)]

mod accepting;
mod answers;
mod begins;
mod callbacks;
mod client;
mod evictions;
mod glimpses;
mod heeding;
mod locks;
mod posting;
mod ranges;
mod recovery;
mod replies;
mod resuming;
mod sending;
mod slots;
mod steps;
mod ticking;

pub use client::Client;
pub use ranges::is_in_range;
