//! The judge of the law of recovery.
#![tactic(auto)]

mod backs;
mod callbacks;
mod clients;
mod closes;
mod closing;
mod closings;
mod commits;
mod dues;
mod evicts;
mod failing;
mod handing;
mod judge;
mod kept;
mod known;
mod made;
mod marks;
mod noted;
mod replies;
mod rest;
mod returns;
mod settled;
mod slots;
mod transactions;
mod turns;

pub use judge::first_in_recovery;
