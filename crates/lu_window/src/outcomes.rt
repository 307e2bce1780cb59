//! What the close of a window decides.

use lu_base::{Cause, Lives, Locks, Numbers, Sequence, Who};
use lu_replay::Replay;

/// A life that loses its slot.
#[derive(Clone, Copy, Debug, PartialEq, Eq)]
pub struct Eviction {
    pub who: Who,
    /// `Absent` where it isn't back or a newer life of its client joins, else `Gap`.
    pub cause: Cause,
}

/// Lives that lose their slots.
pub type Evictions = Sequence<Eviction>;

/// A replay that is kept, with its life.
#[derive(Debug, Drop)]
pub struct KeptReplay {
    pub who: Who,
    pub replay: Replay,
}

/// Replays that are kept.
pub type KeptReplays = Sequence<KeptReplay>;

/// What the close of a window decides.
#[derive(Debug, Drop)]
pub struct Outcome {
    /// The replays that are kept, in rising number; none of them is committed.
    pub kept: KeptReplays,
    /// The numbers of those that are lost, rising.
    pub lost: Numbers,
    /// The lives that lose their slots, by client and then by life.
    pub evicted: Evictions,
    /// The locks of the lives that stay, in rising cookie.
    pub locks: Locks,
    /// The lives that join, of each client the newest, by client.
    pub joins: Lives,
}
