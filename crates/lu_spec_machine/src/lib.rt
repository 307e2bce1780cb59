//! The plain machine: what an operation on names answers, touches, writes, grants and changes, as
//! definitions and their laws. It knows no node: targets, tables, laws and the judge cite it.
//!
//! The definitions stand in `specs/`: `Tree`, `Change`, `Plan`, `Table`, `Footprint` and `Machine`. The
//! functions of `theorems` have empty bodies; their contracts are the laws.
#![tactic(auto)]

mod acts;
mod child;
mod forms;
pub mod theorems;

pub use acts::{Act, Deed};
pub use child::Child;
pub use forms::answer_fits;
