//! What a target commits to its disk.

use super::messages::Reply;
use super::operations::Op;
use lu_base::{Duplicate, Lives, Memory, Sequence, Txn, Who, Xid};
use std::alloc::Global;

/// A request that changed a target's contents, or that counts as if it did.
#[derive(Debug, PartialEq, Eq, Drop)]
pub struct Transaction {
    pub txn: Txn,
    /// The life whose request it was.
    pub who: Who,
    pub xid: Xid,
    /// The request's tag, 0 to 7.
    pub tag: u8,
    pub op: Op,
}

/// Transactions, in the order of their numbers.
pub type Transactions = Sequence<Transaction>;

/// The last reply to the requests of a life that have this tag.
#[derive(Debug, PartialEq, Eq, Drop)]
pub struct KeptReply {
    pub who: Who,
    /// The tag, 0 to 7.
    pub tag: u8,
    pub reply: Reply,
}

/// Kept replies, each life and tag at most once.
pub type KeptReplies = Sequence<KeptReply>;

/// What goes to a target's disk at once. The target's contents are the transactions of all its
/// batches in order, over an empty service, with the opens of removed lives forgotten where the
/// removal stands.
#[derive(Debug, PartialEq, Eq, Drop)]
pub struct Batch {
    /// The boot that begins with this batch, from 1; 0 where the boot is as before.
    pub boot: u32,
    pub transactions: Transactions,
    pub replies: KeptReplies,
    /// The lives that have a slot from now on.
    pub added: Lives,
    /// The lives that have no slot any more.
    pub removed: Lives,
}

/// Batches, in the order of their commits.
pub type Batches = Sequence<Batch>;

impl Duplicate for Transaction {
    fn copy(&self, alloc: Global) -> Result<Transaction, Memory> {
        Ok(Transaction {
            txn: self.txn,
            who: self.who,
            xid: self.xid,
            tag: self.tag,
            op: self.op.copy(alloc)?,
        })
    }
}

impl Duplicate for KeptReply {
    fn copy(&self, alloc: Global) -> Result<KeptReply, Memory> {
        Ok(KeptReply {
            who: self.who,
            tag: self.tag,
            reply: self.reply.copy(alloc)?,
        })
    }
}

impl Duplicate for Batch {
    fn copy(&self, alloc: Global) -> Result<Batch, Memory> {
        Ok(Batch {
            boot: self.boot,
            transactions: self.transactions.copy(alloc)?,
            replies: self.replies.copy(alloc)?,
            added: self.added.copy(alloc)?,
            removed: self.removed.copy(alloc)?,
        })
    }
}
