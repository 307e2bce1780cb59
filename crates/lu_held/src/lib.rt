//! The locks that a client holds: which of them serve a use, which are in use, called back or unused.
#![tactic(auto)]

mod held;
pub mod laws;
mod locks;
mod names;

pub use held::Held;
pub use locks::{HeldLock, Use};
pub use names::LockName;
