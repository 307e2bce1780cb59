//! All locks of a target, resource by resource.
#![tactic(auto)]

mod ending;
mod listing;
mod noted;
mod queues;
mod space;
mod stays;

pub use space::{Lockspace, SpaceError};
