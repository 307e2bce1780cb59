//! The words of a run: full entries, what they carry, which target a line concerns, what was sent, and the printed
//! trace. The world is a list of lines, the newest first; whatever a node knows is a fold over it.
//!
//! The definitions stand in `specs/`: `Carried` (what entries carry), `Words` (entries, lines, tests), `Fields` (what one
//! node knows, a field at a time), `Concerns` (what is about one target), `Sent`, `Printed` and `Given` (what a node gives
//! of a turn).
#![tactic(auto)]

mod changes;
mod uses;

pub use changes::{Dirty, Flush};
pub use uses::Using;
