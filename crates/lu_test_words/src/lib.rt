//! Worked calls of the vocabulary, of the language of scenarios, and of messages on their way.
//!
//! The tests stand in a crate of their own, since a crate with tests is proved twice.
#![tactic(auto)]

#[cfg(test)]
mod inputs;
#[cfg(test)]
mod layouts;
#[cfg(test)]
mod links;
#[cfg(test)]
mod locks;
#[cfg(test)]
mod parts;
#[cfg(test)]
mod scenarios;
#[cfg(test)]
mod storms;
#[cfg(test)]
mod texts;
#[cfg(test)]
mod traces;
#[cfg(test)]
mod wires;
