//! What a client holds: its locks, what it knows under them, and its own changes of objects.
#![tactic(auto)]

mod content;
mod flushes;
mod looks;
mod objects;
mod pages;
mod patches;
mod reached;
mod sizes;
mod store;
mod stripes;

pub use flushes::WriteBack;
pub use store::Store;
