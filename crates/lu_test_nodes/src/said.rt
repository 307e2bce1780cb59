//! What comes to a node, as constants.

use lu_base::{
    At, Bytes, Cookie, Extent, Fid, Locks, Memory, Mode, Name, Node, Numbers, Path, Policy,
    Resource, Stamp, Txn, Who, Xid,
};
use lu_msg::{Answer, Errno, LockReplay, Message, Op, Reply, Request, RequestReplay, SizeReport};
use std::alloc::Global;

/// The first life of client 0.
pub const A: Who = Who { client: 0, life: 1 };

/// The first life of client 1.
pub const B: Who = Who { client: 1, life: 1 };

/// Numbers of the first boot: `1.1`, `1.2`.
pub const FIRST: u64 = 0x1_0000_0001;

pub const SECOND: u64 = 0x1_0000_0002;

/// The object of stripe 0 of file 1.1.
pub const OBJECT: Resource = Resource {
    fid: Fid(FIRST),
    stripe: 0,
};

/// An operation, whose path is one name in the root.
#[derive(Clone, Copy, Debug)]
pub enum Asked {
    Lookup(&'static [u8]),
    Mkdir(&'static [u8]),
    Rmdir(&'static [u8]),
    /// A lock on a range of `OBJECT`.
    Enqueue(Mode, Extent),
    /// A page of it, under a lock of this cookie.
    Get(u64, u64),
    /// Bytes at an offset.
    Put(u64, u64, &'static [u8]),
    /// A size.
    Cut(u64, u64),
    Size,
}

/// An answer.
#[derive(Clone, Copy, Debug)]
pub enum Answered {
    Done,
    Made(u64),
    Refused(Errno),
}

/// A message, with lives, boots, request numbers, tags and cookies in the order of their text.
#[derive(Clone, Copy, Debug)]
pub enum Said {
    Request(Who, u32, u64, u8, Asked),
    /// Of this transaction.
    Replay(Who, u32, u64, u64, u8, Asked),
    /// The life brings a lock of this cookie and mode in boot 2, on a name of the directory 1.1.
    Lock(Who, u64, Mode),
    Cancel(Who, u32, u64),
    /// So many replays and locks, and at most one transaction that was seen.
    Word(Who, u32, u32, u32, Option<u64>),
    Join(Who, u32),
    /// `A` tells for its request of this number a size under the lock 1.1.
    Size(u64, u64),
    Up(u32),
    /// To the request of this number of `A`, in boot 1: the transaction that it was, what it has seen, and the stamp of the turn
    /// of the metadata target in which it was executed.
    Reply(u64, u64, Option<u64>, u64, Answered),
}

/// What comes to a target.
#[derive(Clone, Copy, Debug)]
pub enum Comes {
    Says(Said),
    Tick,
    /// The command to commit all transactions.
    Commit,
    /// The command to close the recovery window.
    Close,
    Crash,
    Boot,
}

/// The path of a name in the root.
pub fn path(alloc: Global, name: &[u8]) -> Result<Path, Memory> {
    let mut path = Path::new(alloc);
    path.push(Name::from_slice(alloc, name)?)?;
    Ok(path)
}

fn operation_of(alloc: Global, asked: Asked) -> Result<Op, Memory> {
    match asked {
        Asked::Lookup(name) => Ok(Op::Lookup(path(alloc, name)?)),
        Asked::Mkdir(name) => Ok(Op::Mkdir(path(alloc, name)?)),
        Asked::Rmdir(name) => Ok(Op::Rmdir(path(alloc, name)?)),
        Asked::Enqueue(mode, extent) => Ok(Op::Enqueue {
            resource: OBJECT,
            mode,
            extent,
        }),
        Asked::Get(cookie, page) => Ok(Op::Get {
            resource: OBJECT,
            cookie: Cookie(cookie),
            page,
        }),
        Asked::Put(cookie, offset, bytes) => Ok(Op::Put {
            resource: OBJECT,
            cookie: Cookie(cookie),
            offset,
            bytes: Bytes::from_slice(alloc, bytes)?,
        }),
        Asked::Cut(cookie, size) => Ok(Op::Cut {
            resource: OBJECT,
            cookie: Cookie(cookie),
            size,
        }),
        Asked::Size => Ok(Op::Size(OBJECT)),
    }
}

fn answer_of(answered: Answered) -> Answer {
    match answered {
        Answered::Done => Answer::Done,
        Answered::Made(fid) => Answer::Made(Fid(fid)),
        Answered::Refused(errno) => Answer::Refused(errno),
    }
}

/// The list of at most one number.
fn numbers(alloc: Global, number: Option<u64>) -> Result<Numbers, Memory> {
    let mut numbers = Numbers::new(alloc);
    if let Some(number) = number {
        numbers.push(number)?;
    }
    Ok(numbers)
}

/// The message of a constant.
pub fn message_of(alloc: Global, said: Said) -> Result<Message, Memory> {
    match said {
        Said::Request(who, boot, xid, tag, asked) => Ok(Message::Request(Request {
            who,
            boot,
            xid: Xid(xid),
            tag,
            op: operation_of(alloc, asked)?,
        })),
        Said::Replay(who, boot, txn, xid, tag, asked) => Ok(Message::Replay(RequestReplay {
            who,
            boot,
            txn: Txn(txn),
            xid: Xid(xid),
            tag,
            seen: Numbers::new(alloc),
            op: operation_of(alloc, asked)?,
        })),
        Said::Word(who, boot, replays, locks, seen) => Ok(Message::Word {
            who,
            boot,
            replays,
            locks,
            seen: numbers(alloc, seen)?,
        }),
        Said::Reply(xid, txn, seen, stamp, answered) => Ok(Message::Reply(Reply {
            who: A,
            boot: 1,
            xid: Xid(xid),
            txn: Txn(txn),
            committed: Txn(0),
            seen: numbers(alloc, seen)?,
            at: At {
                stamp: Stamp(stamp),
                node: Node::Target(0),
            },
            locks: Locks::new(alloc),
            answer: answer_of(answered),
        })),
        said => Ok(short_message_of(said)),
    }
}

/// The message of a constant that has no list.
fn short_message_of(said: Said) -> Message {
    match said {
        Said::Lock(who, cookie, mode) => Message::Lock(LockReplay {
            who,
            boot: 2,
            cookie: Cookie(cookie),
            resource: Resource {
                fid: Fid(FIRST),
                stripe: 0,
            },
            mode,
            policy: Policy::Bits(1),
        }),
        Said::Cancel(who, boot, cookie) => Message::Cancel {
            who,
            boot,
            cookie: Cookie(cookie),
        },
        Said::Join(who, boot) => Message::Join { who, boot },
        Said::Size(xid, size) => Message::Size(SizeReport {
            who: A,
            boot: 1,
            cookie: Cookie(FIRST),
            for_who: A,
            xid: Xid(xid),
            size: Some(size),
            stamp: Stamp(3),
        }),
        Said::Up(boot) => Message::Up(boot),
        _ => Message::Up(1),
    }
}
