//! Identifiers: of files, transactions, locks, requests, turns and nodes.
//!
//! The numbers that a target gives are those of Lustre's recovery: 64 bits, of which the high 32 are
//! the target's boot and the low 32 a count in that boot, both from 1.

/// A file identifier: the number of the transaction that made the inode. The root is 1.
#[derive(Clone, Copy, Debug, PartialEq, Eq, PartialOrd, Ord, Hash)]
pub struct Fid(pub u64);

/// The cookie of a lock at its target: `boot * 2^32 + count`, both from 1.
#[derive(Clone, Copy, Debug, PartialEq, Eq, PartialOrd, Ord, Hash)]
pub struct Cookie(pub u64);

/// A transaction number of a target: `boot * 2^32 + count`, both from 1; 0 stands for none.
#[derive(Clone, Copy, Debug, PartialEq, Eq, PartialOrd, Ord, Hash)]
pub struct Txn(pub u64);

/// A request number, from 1, rising by one for each life of a client and target.
#[derive(Clone, Copy, Debug, PartialEq, Eq, PartialOrd, Ord, Hash)]
pub struct Xid(pub u64);

/// When a turn happens: under `play` the number of turns so far, from 1.
#[derive(Clone, Copy, Debug, PartialEq, Eq, PartialOrd, Ord, Hash)]
pub struct Stamp(pub u64);

/// A target: 0 is the metadata target, 1 to 8 are the object storage targets.
#[derive(Clone, Copy, Debug, PartialEq, Eq, PartialOrd, Ord, Hash)]
pub struct TargetId(pub u16);

/// One life of a client. An eviction ends a life, and the client's next life follows.
#[derive(Clone, Copy, Debug, PartialEq, Eq, PartialOrd, Ord, Hash)]
pub struct Who {
    /// The client's number, 0 to 15.
    pub client: u16,
    /// The number of the life, from 1.
    pub life: u32,
}

/// A node: a client (0 to 15) or a target (0 to 8). Clients come before targets.
#[derive(Clone, Copy, Debug, PartialEq, Eq, PartialOrd, Ord, Hash)]
pub enum Node {
    Client(u16),
    Target(u16),
}

/// A turn: its stamp and the node that made it.
#[derive(Clone, Copy, Debug, PartialEq, Eq, PartialOrd, Ord, Hash)]
pub struct At {
    pub stamp: Stamp,
    pub node: Node,
}
