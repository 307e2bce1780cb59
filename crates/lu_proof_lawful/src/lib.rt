//! The theorem: the printed trace of every covered run is lawful.
//!
//! `lu_spec_run` says what a run is, `specs/Covered` which are covered and `lu_spec_laws` what is lawful; this crate is the lowest
//! that sees all three. Its proofs stand in seven folders, each upon those before it:
//!
//! - `Preconditions`: what a single line of a run rests on, over the past just before it, and that each row makes such lines.
//! - `Invariants`: what holds after every line.
//! - `Projection`: what a run is for one object, in the words of the theory of bytes.
//! - `Refinement`: the story of each object in a covered run is allowed by that theory.
//! - `Coming`: what is asked of objects and each size that comes with a lock lies in a file.
//! - `Laws`: what the notions of the laws are over a printed past, and a file or more for each law.
//! - `Failing`: a turn that a failing call to the disk breaks off.
#![tactic(auto)]

pub mod coming_theorems;
pub mod projection_theorems;
pub mod theorems;
