//! Turns of targets.

/// A turn of a target.
#[derive(Clone, Copy)]
pub struct Turn {
    /// When it happens.
    pub stamp: u64,
    /// The target's number.
    pub target: u16,
}
