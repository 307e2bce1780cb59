//! What stands at positions: a page of 4,096 positions, each with an item or none, and a finite map from position to item, page
//! by page.
//!
//! The definitions stand in `specs/`: `Sheets` (what a contract sees of a page), `Edits` (what becomes of each item), `Pages`.
#![tactic(auto)]

mod edit;
mod edits;
mod looks;
mod page;
mod pages;
mod place_reads;
mod places;
mod reads;

pub use edit::Edit;
pub use page::{PAGE, Page};
pub use places::Places;
