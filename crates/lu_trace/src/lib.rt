//! The trace of a run, and its text.
//!
//! A trace says of each turn of each node what happened, one entry a line. What a run promises is
//! said of its trace alone.
#![tactic(auto)]

mod entries;
mod texts;
mod traces;
mod turns;

pub use entries::{Entries, Entry, Line};
pub use texts::{put_call, put_with_number, render, then_number};
pub use traces::{End, NodeJournal, Step, Trace};
pub use turns::Turn;
