//! A whole target and a whole client: each public call once, against lines of traces that another implementation made; and what
//! no run brings: messages that no client sends, and disks that fail.
//!
//! The tests stand in a crate of their own, since a crate with tests is proved twice.
#![tactic(auto)]

#[cfg(test)]
mod called;
#[cfg(test)]
mod clients;
#[cfg(test)]
mod faults;
#[cfg(test)]
mod fresh;
#[cfg(test)]
mod hostile;
mod runs;
#[cfg(test)]
mod said;
#[cfg(test)]
mod served;
#[cfg(test)]
mod targets;
#[cfg(test)]
mod told;

pub use runs::Run;
