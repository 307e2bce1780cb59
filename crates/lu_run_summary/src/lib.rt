//! The summary of a run: how many turns, messages and acts its trace has.
#![tactic(auto)]

mod summaries;

pub use summaries::summary;
