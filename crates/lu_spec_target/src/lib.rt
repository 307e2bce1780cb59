//! What a target knows, and what it does in a turn, for the metadata target and for the object storage targets: requests,
//! locks and their callbacks, glimpses, commits, lives that leave and join, restarts, the recovery window and its close, and
//! turns over a disk that fails.
//!
//! The definitions stand in `specs/`.
#![tactic(auto)]
