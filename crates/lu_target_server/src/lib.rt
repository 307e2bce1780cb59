//! The turns of a target, part by part.
#![tactic(auto)]

mod accepting;
mod booting;
mod closing;
mod commits;
mod faults;
mod givers;
mod glimpses;
mod heeding;
mod leaving;
mod names;
mod objects;
mod recovering;
mod recovery;
mod releasing;
mod replies;
mod requests;
mod saying;
mod server;
mod ticking;

pub use booting::{BeginFault, Place, load_disk};
pub use faults::TurnFault;
pub use recovery::Recovery;
pub use server::Server;
