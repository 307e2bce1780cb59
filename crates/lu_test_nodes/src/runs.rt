//! What a target knows of its run.

use lu_base::TargetId;

/// What a target knows of its run.
#[derive(Clone, Copy, Debug)]
pub struct Run {
    pub id: TargetId,
    /// How many clients there are, each with a slot at first.
    pub clients: u16,
    /// The number of object storage targets.
    pub osts: u16,
    /// The ticks after which the holder of a lock that was called back loses its slot.
    pub expire: u64,
}
