//! The service of the metadata target.
#![tactic(auto)]

mod accepting;
mod mdts;
pub mod theorems;

pub use mdts::Mdt;
