//! What scenarios come to, over the definition of a scenario's run in the whole table: a covered run, whose trace is lawful.
//!
//! `specs/Quiet` says which scenarios change no bytes, and which ask no disk; `theorems` has what is proved.
#![tactic(auto)]

pub mod theorems;
