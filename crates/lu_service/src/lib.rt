//! What a target serves, as the target sees it: the names of a file system, or objects.
#![tactic(auto)]

mod coverage;
mod services;

pub use coverage::covered;
pub use services::{Kind, Service};
