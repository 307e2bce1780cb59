//! A client's call, as it goes on: by what its client knows it looks for locks, fetches what is missing, acts, and is
//! told.
#![tactic(auto)]

mod advancing;
mod calls;
mod flushing;
mod glimpses;
mod hearing;
mod looking;
mod names;
mod nexts;
mod reading;
mod starting;
mod wants;
mod works;
mod writing;

pub use calls::{Asking, CallState, Stage};
pub use hearing::CameLock;
pub use names::with_stripes;
pub use nexts::{Binding, Next};
pub use works::{HandleFile, Kind, Work};
