//! The language of scenarios: what a run does, as lines of text, read and printed.
//!
//! A scenario has a head, which says how many clients and object storage targets there are and
//! which limits hold, and lines, which are performed in order. The language is this project's own.
#![tactic(auto)]

mod calls;
mod faults;
mod fields;
mod printer;
mod reader;
mod scene;
mod storms;
mod words;

pub use faults::{Fault, SceneFault};
pub use printer::print_scene;
pub use reader::read_scene;
pub use scene::{Head, Lines, Scene, SceneLine};
pub use storms::storm;
pub use words::{CallName, call_name_of};
