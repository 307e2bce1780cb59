//! Judges of traces: broken traces with the law and the line that are named, texts of traces, and the plain machine.
//!
//! The tests stand in a crate of their own, since a crate with tests is proved twice.
#![tactic(auto)]

#[cfg(test)]
mod bad;
#[cfg(test)]
mod changed;
#[cfg(test)]
mod good;
#[cfg(test)]
mod histories;
#[cfg(test)]
mod judging;
#[cfg(test)]
mod messages;
#[cfg(test)]
mod traces;
