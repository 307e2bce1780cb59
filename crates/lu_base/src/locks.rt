//! Locks as values: modes, extents, policies and what a lock is asked on
//! (Wang et al., Understanding Lustre Filesystem Internals, the lock manager).

use super::ids::{Cookie, Fid, Who};

/// A lock's mode: exclusive, protected write, protected read, concurrent write, concurrent read, null.
#[derive(Clone, Copy, Debug, PartialEq, Eq, PartialOrd, Ord, Hash)]
pub enum Mode {
    EX,
    PW,
    PR,
    CW,
    CR,
    NL,
}

/// A range of offsets, both ends included, with `first <= last`; the greatest `last` is `u64::MAX`, the end.
#[derive(Clone, Copy, Debug, PartialEq, Eq, PartialOrd, Ord, Hash)]
pub struct Extent {
    pub first: u64,
    pub last: u64,
}

/// What a lock covers of its resource: inode bits (LOOKUP 1, UPDATE 2, LAYOUT 4, added up) or an extent.
#[derive(Clone, Copy, Debug, PartialEq, Eq, PartialOrd, Ord, Hash)]
pub enum Policy {
    Bits(u8),
    Range(Extent),
}

/// What a lock is on: an inode (stripe 0), or the object of a file's stripe, from 0.
#[derive(Clone, Copy, Debug, PartialEq, Eq, PartialOrd, Ord, Hash)]
pub struct Resource {
    pub fid: Fid,
    pub stripe: u16,
}

/// A lock as it is asked for or granted.
#[derive(Clone, Copy, Debug, PartialEq, Eq, PartialOrd, Ord, Hash)]
pub struct Ask {
    pub who: Who,
    pub mode: Mode,
    pub policy: Policy,
}

/// A lock of a target, under its cookie.
#[derive(Clone, Copy, Debug, PartialEq, Eq, PartialOrd, Ord, Hash)]
pub struct Lock {
    pub cookie: Cookie,
    pub resource: Resource,
    pub ask: Ask,
}

/// Why a life was evicted.
#[derive(Clone, Copy, Debug, PartialEq, Eq, PartialOrd, Ord, Hash)]
pub enum Cause {
    /// It did not come back in the recovery window, or a newer life of its client joined there.
    Absent,
    /// It rested on a transaction that the recovery lost.
    Gap,
    /// It did not answer a callback in time.
    Expired,
    /// A newer life of its client joined.
    Replaced,
}
