//! What stands at positions: what lies outside a range, unbroken runs, bytes that become 0, and lemmas of such maps.
//!
//! The definitions stand in `specs/`: `Maps` (positions far below the end of the numbers), `Runs` (unbroken runs, page by
//! page) and `Changes` (what a change leaves).
#![tactic(auto)]

mod marked;

pub use marked::Marked;
