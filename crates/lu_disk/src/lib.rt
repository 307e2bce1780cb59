//! The disk of a target: the batches that were committed to it, in order (this project's profile).
#![tactic(auto)]

mod disks;
mod memory;

pub use disks::{Disk, DiskError};
pub use memory::MemoryDisk;
