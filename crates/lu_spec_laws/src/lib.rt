//! What a lawful trace is, as definitions over the lines of a trace alone. They know no node's table: whoever
//! reads the laws needs to trust no row.
//!
//! The definitions stand in `specs/`, one notion a file; `Laws` has the laws together.
#![tactic(auto)]

pub mod theorems;
