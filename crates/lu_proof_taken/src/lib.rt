//! What is sent to a node in a covered run may come to it: no message of a run is one that a client refuses, or that a target has
//! to.
//!
//! `specs/Taken` says it of all runs, in the words of what a client asks of a message (`Comings` of `lu_client`), `specs/Heeding`
//! of what a target asks; `theorems` has what is proved.
#![tactic(auto)]

pub mod theorems;
