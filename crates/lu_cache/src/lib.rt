//! What a client knows under its locks: facts of names, attributes, lists and layouts, bytes of objects, the sizes of
//! objects, and the offsets that were shown.
#![tactic(auto)]

mod bytes;
mod cache;
mod facts;
mod filing;
mod guards;
mod known;
pub mod laws;
mod learning;
mod log;
mod notes;
mod numbers;
mod paths;
mod topics;

pub use cache::Cache;
pub use guards::Guards;
pub use known::Known;
