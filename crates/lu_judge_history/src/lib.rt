//! The judge of the law of history: one order of acts, that of the lines, explains all that clients see.
#![tactic(auto)]

mod answers;
mod asked;
mod carried;
mod history;
mod played;
mod plays;
mod same;

pub use history::first_in_history;
