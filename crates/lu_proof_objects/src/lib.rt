//! What the rows make of a client's changes of an object, of the object itself and of locks on it, in the words of the theory of one
//! object (`lu_proof_bytes`): position by position the same. And what each entry on bytes that a client's rows make rests on,
//! over the client's state alone: no past, no message, no other node.
//!
//! These are definitions and theorems alone; nothing runs here.
#![tactic(auto)]

pub mod client_theorems;
pub mod point_theorems;
