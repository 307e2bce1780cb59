//! The parts of a target and of a client's recovery: each public call once, with what it must answer.
//!
//! The tests stand in a crate of their own, since a crate with tests is proved twice.
#![tactic(auto)]

#[cfg(test)]
mod batches;
#[cfg(test)]
mod callbacks;
#[cfg(test)]
mod client_locks;
#[cfg(test)]
mod disks;
#[cfg(test)]
mod imports;
#[cfg(test)]
mod journals;
#[cfg(test)]
mod lockspaces;
#[cfg(test)]
mod queues;
#[cfg(test)]
mod redone;
#[cfg(test)]
mod replays;
#[cfg(test)]
mod rows;
#[cfg(test)]
mod servers;
#[cfg(test)]
mod services;
#[cfg(test)]
mod stores;
#[cfg(test)]
mod trees;
#[cfg(test)]
mod values;
#[cfg(test)]
mod windows;
