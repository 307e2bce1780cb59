//! The messages between clients and targets.
//!
//! A client's message names the target's boot that the client knows, a target's message its own.

use super::answers::Answer;
use super::operations::Op;
use lu_base::{
    At, Cookie, Duplicate, Extent, Locks, Memory, Mode, Node, Numbers, Policy, Resource, Sequence,
    Stamp, Txn, Who, Xid,
};
use std::alloc::Global;

/// A request of a client's life.
#[derive(Debug, PartialEq, Eq, Drop)]
pub struct Request {
    pub who: Who,
    /// The target's boot, from 1.
    pub boot: u32,
    pub xid: Xid,
    /// The tag, 0 to 7: no two requests that are in flight at one target have the same.
    pub tag: u8,
    pub op: Op,
}

/// A request whose transaction isn't known to be committed, handed in again after the target's boot.
#[derive(Debug, PartialEq, Eq, Drop)]
pub struct RequestReplay {
    pub who: Who,
    /// The target's new boot, from 1.
    pub boot: u32,
    /// The transaction that the request was.
    pub txn: Txn,
    pub xid: Xid,
    /// The request's tag, 0 to 7.
    pub tag: u8,
    /// The transactions that the operation has seen, rising, as its reply named them.
    pub seen: Numbers,
    pub op: Op,
}

/// A lock that its holder hands in again after the target's boot.
#[derive(Clone, Copy, Debug, PartialEq, Eq)]
pub struct LockReplay {
    /// The life that holds the lock.
    pub who: Who,
    /// The target's new boot, from 1.
    pub boot: u32,
    pub cookie: Cookie,
    pub resource: Resource,
    pub mode: Mode,
    pub policy: Policy,
}

/// The answer of a lock's holder to a glimpse of another life.
#[derive(Clone, Copy, Debug, PartialEq, Eq)]
pub struct SizeReport {
    /// The life that holds the lock.
    pub who: Who,
    /// The target's boot, from 1.
    pub boot: u32,
    pub cookie: Cookie,
    /// The life whose request asked for the size.
    pub for_who: Who,
    /// The number of that request.
    pub xid: Xid,
    /// The object's size in bytes as the holder has it; none where it doesn't hold a PW lock to the end
    /// under this cookie, or has a size that isn't above the lock's start.
    pub size: Option<u64>,
    /// The turn that sent this message.
    pub stamp: Stamp,
}

/// The reply to a request.
#[derive(Debug, PartialEq, Eq, Drop)]
pub struct Reply {
    pub who: Who,
    /// The target's boot, from 1.
    pub boot: u32,
    pub xid: Xid,
    /// The transaction that the request was; 0 where it was none.
    pub txn: Txn,
    /// The greatest transaction that is on the target's disk; 0 where there is none.
    pub committed: Txn,
    /// The uncommitted transactions that the operation has seen, rising.
    pub seen: Numbers,
    /// The turn in which the request was executed. Of a glimpse that a holder answered it is the
    /// holder's turn.
    pub at: At,
    /// The locks that are granted with the answer.
    pub locks: Locks,
    pub answer: Answer,
}

/// The grant of a lock that waited.
#[derive(Debug, PartialEq, Eq, Drop)]
pub struct GrantNotice {
    pub who: Who,
    /// The target's boot, from 1.
    pub boot: u32,
    pub cookie: Cookie,
    /// The range that the lock is granted on.
    pub extent: Extent,
    /// The object's size in bytes.
    pub size: u64,
    /// The greatest transaction that is on the target's disk; 0 where there is none.
    pub committed: Txn,
    /// The uncommitted transactions that the lock lets its holder see, rising.
    pub seen: Numbers,
}

/// A message: up to `Size` from a client to a target, from `Up` on from a target to a client.
#[derive(Debug, PartialEq, Eq, Drop)]
pub enum Message {
    /// A request.
    Request(Request),
    /// A lock is given back.
    Cancel {
        who: Who,
        boot: u32,
        cookie: Cookie,
    },
    /// What has become of a lock that waits?
    Where {
        who: Who,
        boot: u32,
        cookie: Cookie,
    },
    /// A request is replayed.
    Replay(RequestReplay),
    /// A lock is replayed.
    Lock(LockReplay),
    /// All replays are sent: so many requests and locks, and these uncommitted transactions are what
    /// the life has seen, rising.
    Word {
        who: Who,
        boot: u32,
        replays: u32,
        locks: u32,
        seen: Numbers,
    },
    /// A new life wants a slot.
    Join {
        who: Who,
        boot: u32,
    },
    /// A holder's answer to a glimpse.
    Size(SizeReport),
    /// The target has booted for this time, from 1.
    Up(u32),
    /// A reply.
    Reply(Reply),
    /// A lock that waited is granted.
    Grant(GrantNotice),
    /// A lock is called back.
    Block {
        who: Who,
        boot: u32,
        cookie: Cookie,
    },
    /// What is the size under this lock, which the request `xid` of `for_who` asks for?
    Ask {
        who: Who,
        boot: u32,
        cookie: Cookie,
        for_who: Who,
        xid: Xid,
    },
    /// The target serves the life; all up to `committed` is on its disk.
    Ready {
        who: Who,
        boot: u32,
        committed: Txn,
    },
    /// The life was evicted.
    Evicted {
        who: Who,
        boot: u32,
    },
}

/// A message on its way.
#[derive(Debug, PartialEq, Eq, Drop)]
pub struct Post {
    /// The node that it goes to.
    pub to: Node,
    pub message: Message,
}

/// Messages to be sent, in order.
pub type Sends = Sequence<Post>;

impl Duplicate for Request {
    fn copy(&self, alloc: Global) -> Result<Request, Memory> {
        Ok(Request {
            who: self.who,
            boot: self.boot,
            xid: self.xid,
            tag: self.tag,
            op: self.op.copy(alloc)?,
        })
    }
}

impl Duplicate for RequestReplay {
    fn copy(&self, alloc: Global) -> Result<RequestReplay, Memory> {
        Ok(RequestReplay {
            who: self.who,
            boot: self.boot,
            txn: self.txn,
            xid: self.xid,
            tag: self.tag,
            seen: self.seen.copy(alloc)?,
            op: self.op.copy(alloc)?,
        })
    }
}

impl Duplicate for LockReplay {
    fn copy(&self, _alloc: Global) -> Result<LockReplay, Memory> {
        Ok(*self)
    }
}

impl Duplicate for SizeReport {
    fn copy(&self, _alloc: Global) -> Result<SizeReport, Memory> {
        Ok(*self)
    }
}

impl Duplicate for Reply {
    fn copy(&self, alloc: Global) -> Result<Reply, Memory> {
        Ok(Reply {
            who: self.who,
            boot: self.boot,
            xid: self.xid,
            txn: self.txn,
            committed: self.committed,
            seen: self.seen.copy(alloc)?,
            at: self.at,
            locks: self.locks.copy(alloc)?,
            answer: self.answer.copy(alloc)?,
        })
    }
}

impl Duplicate for GrantNotice {
    fn copy(&self, alloc: Global) -> Result<GrantNotice, Memory> {
        Ok(GrantNotice {
            who: self.who,
            boot: self.boot,
            cookie: self.cookie,
            extent: self.extent,
            size: self.size,
            committed: self.committed,
            seen: self.seen.copy(alloc)?,
        })
    }
}

impl Duplicate for Message {
    fn copy(&self, alloc: Global) -> Result<Message, Memory> {
        match self {
            Message::Request(request) => Ok(Message::Request(request.copy(alloc)?)),
            Message::Cancel { who, boot, cookie } => Ok(Message::Cancel {
                who: *who,
                boot: *boot,
                cookie: *cookie,
            }),
            Message::Where { who, boot, cookie } => Ok(Message::Where {
                who: *who,
                boot: *boot,
                cookie: *cookie,
            }),
            Message::Replay(replay) => Ok(Message::Replay(replay.copy(alloc)?)),
            Message::Lock(replay) => Ok(Message::Lock(*replay)),
            Message::Word {
                who,
                boot,
                replays,
                locks,
                seen,
            } => Ok(Message::Word {
                who: *who,
                boot: *boot,
                replays: *replays,
                locks: *locks,
                seen: seen.copy(alloc)?,
            }),
            Message::Join { who, boot } => Ok(Message::Join {
                who: *who,
                boot: *boot,
            }),
            Message::Size(report) => Ok(Message::Size(*report)),
            Message::Up(boot) => Ok(Message::Up(*boot)),
            Message::Reply(reply) => Ok(Message::Reply(reply.copy(alloc)?)),
            Message::Grant(notice) => Ok(Message::Grant(notice.copy(alloc)?)),
            Message::Block { who, boot, cookie } => Ok(Message::Block {
                who: *who,
                boot: *boot,
                cookie: *cookie,
            }),
            Message::Ask {
                who,
                boot,
                cookie,
                for_who,
                xid,
            } => Ok(Message::Ask {
                who: *who,
                boot: *boot,
                cookie: *cookie,
                for_who: *for_who,
                xid: *xid,
            }),
            Message::Ready {
                who,
                boot,
                committed,
            } => Ok(Message::Ready {
                who: *who,
                boot: *boot,
                committed: *committed,
            }),
            Message::Evicted { who, boot } => Ok(Message::Evicted {
                who: *who,
                boot: *boot,
            }),
        }
    }
}

impl Duplicate for Post {
    fn copy(&self, alloc: Global) -> Result<Post, Memory> {
        Ok(Post {
            to: self.to,
            message: self.message.copy(alloc)?,
        })
    }
}
