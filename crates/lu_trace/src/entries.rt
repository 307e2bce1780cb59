//! The entries of a trace, and its lines.

ghost use Rattle.std.specs.Prelude.{◌≡◌, IfOk, IsTrue};
ghost use Rattle.lu_trace.specs.Forms.{has_numbers, has_content};

use lu_base::{
    At, Cause, Cookie, Duplicate, Lock, Memory, Node, Numbers, Sequence, TargetId, Txn, Who, Xid,
};
use lu_msg::{Answer, Call, Message};
use std::alloc::Global;

/// What happened in a turn. `Send`, `Take` and `Tick` are at any node; the others up to `Die` at a
/// client, but for `Skip`, which is at a target, as are those from `Act` on. Slots are 0 to 3; messages
/// are numbered from 1, in the order in which they were sent.
#[derive(Debug, PartialEq, Eq, Drop)]
pub enum Entry {
    /// A call begins on a slot. A `create` has its stripe size and count.
    Begin {
        slot: u8,
        call: Call,
    },
    /// A call couldn't begin, since this slot has one.
    Busy(u8),
    /// A command or a tick couldn't be performed.
    Skip,
    /// A message is sent.
    Send {
        number: u64,
        to: Node,
        message: Message,
    },
    /// The message of this number is taken.
    Take(u64),
    /// The node's time goes on.
    Tick,
    /// The reply to the client's request of this number at the target.
    Heard {
        target: TargetId,
        xid: Xid,
    },
    /// The client holds a lock from now on.
    Hold {
        target: TargetId,
        cookie: Cookie,
    },
    /// The client holds a lock no longer.
    Drop {
        target: TargetId,
        cookie: Cookie,
    },
    /// A call's answer, and the turn of its act.
    Told {
        slot: u8,
        at: At,
        answer: Answer,
    },
    /// A holder's answer to a glimpse: the object's size in bytes.
    Peek {
        target: TargetId,
        cookie: Cookie,
        size: u64,
    },
    /// The client's new life.
    Life(Who),
    /// The client dies.
    Die,
    /// A request acted that made no transaction.
    Act {
        who: Who,
        xid: Xid,
        answer: Answer,
    },
    /// A transaction: its number, whose request it was, and the uncommitted transactions that it has
    /// seen, rising.
    Txn {
        txn: Txn,
        who: Who,
        xid: Xid,
        seen: Numbers,
        answer: Answer,
    },
    /// A lock is granted.
    Grant(Lock),
    /// A lock waits, as it was asked for.
    Wait(Lock),
    /// A lock is called back.
    Block(Cookie),
    /// A lock is given back, or taken away.
    Release(Cookie),
    /// All transactions up to this one are on the disk.
    Commit(Txn),
    /// The target goes down.
    Crash,
    /// The target is up again, in this boot, from 2.
    Boot(u32),
    /// A life has handed in all that it has to.
    Back(Who),
    /// The recovery window closes.
    Close,
    /// A transaction of an earlier boot stands.
    Kept(Txn),
    /// A lock that was handed in again is granted.
    Restore(Lock),
    /// A life loses its slot.
    Evict {
        who: Who,
        cause: Cause,
    },
    /// A new life has a slot.
    Joined(Who),
    /// The target's disk failed.
    Fail,
}

/// An entry, and the turn that it belongs to.
#[derive(Debug, PartialEq, Eq, Drop)]
pub struct Line {
    pub at: At,
    pub entry: Entry,
}

/// Lines, in order.
pub type Entries = Sequence<Line>;

impl Duplicate for Entry {
    fn copy(&self, alloc: Global) -> Result<Entry, Memory> {
        match self {
            Entry::Busy(slot) => Ok(Entry::Busy(*slot)),
            Entry::Skip => Ok(Entry::Skip),
            Entry::Take(number) => Ok(Entry::Take(*number)),
            Entry::Tick => Ok(Entry::Tick),
            Entry::Life(who) => Ok(Entry::Life(*who)),
            Entry::Die => Ok(Entry::Die),
            Entry::Grant(lock) => Ok(Entry::Grant(*lock)),
            Entry::Wait(lock) => Ok(Entry::Wait(*lock)),
            Entry::Block(cookie) => Ok(Entry::Block(*cookie)),
            Entry::Release(cookie) => Ok(Entry::Release(*cookie)),
            Entry::Commit(txn) => Ok(Entry::Commit(*txn)),
            Entry::Crash => Ok(Entry::Crash),
            Entry::Boot(boot) => Ok(Entry::Boot(*boot)),
            Entry::Back(who) => Ok(Entry::Back(*who)),
            Entry::Close => Ok(Entry::Close),
            Entry::Kept(txn) => Ok(Entry::Kept(*txn)),
            Entry::Restore(lock) => Ok(Entry::Restore(*lock)),
            Entry::Joined(who) => Ok(Entry::Joined(*who)),
            Entry::Fail => Ok(Entry::Fail),
            Entry::Heard { .. }
            | Entry::Hold { .. }
            | Entry::Drop { .. }
            | Entry::Peek { .. }
            | Entry::Evict { .. } => Ok(self.copy_numbers()),
            Entry::Begin { .. }
            | Entry::Send { .. }
            | Entry::Told { .. }
            | Entry::Act { .. }
            | Entry::Txn { .. } => self.copy_content(alloc),
        }
    }
}

impl Entry {
    /// A copy of an entry with several numbers.
    fn copy_numbers(&self) -> Entry
        requires numbers { IsTrue (has_numbers self.now) }
        ensures same { result ≡ self.now }
    {
        match self {
            Entry::Heard { target, xid } => Entry::Heard {
                target: *target,
                xid: *xid,
            },
            Entry::Hold { target, cookie } => Entry::Hold {
                target: *target,
                cookie: *cookie,
            },
            Entry::Drop { target, cookie } => Entry::Drop {
                target: *target,
                cookie: *cookie,
            },
            Entry::Peek {
                target,
                cookie,
                size,
            } => Entry::Peek {
                target: *target,
                cookie: *cookie,
                size: *size,
            },
            Entry::Evict { who, cause } => Entry::Evict {
                who: *who,
                cause: *cause,
            },
            _ => unreachable!(),
        }
    }

    /// A copy of an entry with a call, a message or an answer.
    fn copy_content(&self, alloc: Global) -> Result<Entry, Memory>
        requires content { IsTrue (has_content self.now) }
        ensures same { IfOk result (λ copied. copied ≡ self.now) }
    {
        match self {
            Entry::Begin { slot, call } => Ok(Entry::Begin {
                slot: *slot,
                call: call.copy(alloc)?,
            }),
            Entry::Send {
                number,
                to,
                message,
            } => Ok(Entry::Send {
                number: *number,
                to: *to,
                message: message.copy(alloc)?,
            }),
            Entry::Told { slot, at, answer } => Ok(Entry::Told {
                slot: *slot,
                at: *at,
                answer: answer.copy(alloc)?,
            }),
            Entry::Act { who, xid, answer } => Ok(Entry::Act {
                who: *who,
                xid: *xid,
                answer: answer.copy(alloc)?,
            }),
            Entry::Txn {
                txn,
                who,
                xid,
                seen,
                answer,
            } => copy_txn(alloc, *txn, *who, *xid, seen, answer),
            _ => unreachable!(),
        }
    }
}

/// A transaction whose transactions seen and answer are copies of these.
fn copy_txn(
    alloc: Global,
    txn: Txn,
    who: Who,
    xid: Xid,
    seen: &Numbers,
    answer: &Answer,
) -> Result<Entry, Memory>
    ensures same { IfOk result (λ copied. copied ≡ Entry.Txn txn who xid seen.now answer.now) }
{
    Ok(Entry::Txn {
        txn,
        who,
        xid,
        seen: seen.copy(alloc)?,
        answer: answer.copy(alloc)?,
    })
}

impl Duplicate for Line {
    fn copy(&self, alloc: Global) -> Result<Line, Memory> {
        Ok(Line {
            at: self.at,
            entry: self.entry.copy(alloc)?,
        })
    }
}
