//! The judge of the law of acts.
#![tactic(auto)]

mod acts;
mod answers;
mod elsewhere;
mod executed;
mod flights;
mod objects;
mod standing;

pub use acts::first_in_acts;
