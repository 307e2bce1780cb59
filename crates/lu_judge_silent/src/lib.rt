//! The judge of the law of silent repeats.
#![tactic(auto)]

mod known;
mod readings;
mod silent;
mod stamps;
mod ups;

pub use silent::first_in_silent;
