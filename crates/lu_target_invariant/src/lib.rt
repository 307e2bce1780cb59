//! What the state of a target keeps while it serves: it is up, each client has one life, each request that waits is one that
//! the target takes, and each glimpse is for one of them; and on its disk there are only operations that its service may
//! perform again, so the disk may be booted after a crash. Each row of its turns keeps that.
//!
//! These are definitions and proofs alone, for the target whose code shows such a state and makes such rows.
#![tactic(auto)]
