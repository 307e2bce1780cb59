//! What the parts of a target show of the state that the rows of its turns read: its journal and its disk, its locks
//! and what it has asked of their holders, and what its service holds. Each call of a part leaves what the rows'
//! entries make of that state.
//!
//! These are proofs alone, for the target that is built of these parts.
#![tactic(auto)]
