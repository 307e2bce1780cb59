//! What a run is: turns of clients and targets, each the row of its node over the turns before; and the run of a scenario.
//! The rows stand in `lu_spec_client` and `lu_spec_target`, the words of lines in `lu_spec_entries`.
//!
//! The definitions stand in `specs/`: `Heads` (the numbers that nodes know), `Runs` (what a run is) and `Scenarios` (which
//! turns the lines of a scenario make).
#![tactic(auto)]
