//! The service of an object storage target.
#![tactic(auto)]

mod accepting;
mod objects;
mod osts;
mod ranges;
mod reading;
pub mod theorems;

pub use objects::Objects;
pub use osts::Ost;
