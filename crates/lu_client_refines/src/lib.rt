//! What the parts of a client show of the state that the rows of its turns read: what it knows of each target. Each
//! call of a part leaves what the rows' entries make of that state, and what it sends is what the rows send.
//!
//! These are proofs alone, for the client that is built of these parts.
#![tactic(auto)]
