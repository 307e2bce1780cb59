//! The metadata target's tree of names in maps, equal to the plain tree of `lu_spec_machine`.
#![tactic(auto)]

mod answers;
mod deeds;
mod ends;
mod files;
mod folders;
mod inodes;
mod operations;
mod renames;
mod rows;
mod striping;
mod touches;
mod trees;
mod walks;

pub use trees::Tree;
