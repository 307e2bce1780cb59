//! The text of a trace, read back: exactly those texts that are printed of well formed traces.
#![tactic(auto)]

mod answers;
mod calls;
mod data;
mod entries;
mod faults;
mod fields;
mod lines;
mod lists;
mod messages;
mod names;
mod operations;
mod reader;
mod values;
mod words;

pub use faults::ReadFault;
pub use reader::read_trace;
