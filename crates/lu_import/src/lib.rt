//! A client's side of one target: the requests that wait to be sent to it, those in flight, and what its life has to
//! tell when the target recovers.
#![tactic(auto)]

mod imports;
mod kept;
mod numbers;
mod recovery;
mod requests;

pub use imports::Import;
pub use recovery::Standing;
pub use requests::{InFlight, Waiting};
