//! What a replay that is performed again gives.

use lu_base::{At, Sequence, Txn};
use lu_msg::{Op, Reply};
use lu_part::Parts;

/// What the replies of one close have alike.
#[derive(Clone, Copy, Debug, PartialEq, Eq)]
pub struct Close {
    /// The turn of the close.
    pub at: At,
    /// The target's boot, from 1.
    pub boot: u32,
    /// The greatest transaction that is on the target's disk before the close; 0 where there is none.
    pub committed: Txn,
}

/// A replay that was performed again, as a transaction of the target's log.
#[derive(Debug, Drop)]
pub struct Deed {
    /// The request's tag, 0 to 7.
    pub tag: u8,
    pub op: Op,
    /// The parts that it wrote.
    pub writes: Parts,
    /// The reply, made anew: it has the turn of the close, and has seen nothing.
    pub reply: Reply,
}

/// Deeds, in rising number.
pub type Deeds = Sequence<Deed>;
