//! Bytes: what stands at positions, objects and their service, a client's changes and what it knows: each public call once.
//!
//! The tests stand in a crate of their own, since a crate with tests is proved twice.
#![tactic(auto)]

#[cfg(test)]
mod caches;
#[cfg(test)]
mod objects;
#[cfg(test)]
mod patches;
#[cfg(test)]
mod places;
#[cfg(test)]
mod services;
