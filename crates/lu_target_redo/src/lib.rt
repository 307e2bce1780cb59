//! What stands on a target's disk, and what is replayed after its boot, performed again over its service.
#![tactic(auto)]

mod batches;
mod closing;
mod deeds;
mod performing;
mod replays;

pub use batches::{forget_all, load};
pub use closing::close_window;
pub use deeds::{Close, Deed, Deeds};
pub use replays::redo;
