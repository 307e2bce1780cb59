//! From the judges of single laws to one verdict: whether a trace is lawful, or the first law that it breaks and the
//! first line that breaks it.
#![tactic(auto)]

mod laws;
pub mod theorems;
mod verdicts;

pub use laws::Law;
pub use verdicts::{Verdict, first_broken, judge};
