//! Which scenarios keep the limits, and so may be performed: each that is read, and each storm.
//!
//! What it is to keep them says `Limits` of `lu_spec_run`; `theorems` has what is proved.
#![tactic(auto)]

pub mod theorems;
