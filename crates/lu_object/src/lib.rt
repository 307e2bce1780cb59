//! An object of an object storage target: the bytes of one stripe of a file, by offset.
#![tactic(auto)]

mod objects;

pub use objects::Object;
