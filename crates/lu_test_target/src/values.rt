//! Lives, numbers, locks and replies.

ghost use Rattle.std.specs.Prelude.{◌≡◌, IfOk};
ghost use Rattle.lu_lock.specs.Overlap.{IsOrdered};
ghost use Rattle.lu_service.specs.Takes.{IsNamed};

use lu_base::{
    Ask, At, Extent, Fid, Locks, Memory, Mode, Name, Node, Numbers, Path, Policy, Resource, Stamp,
    Txn, Who, Xid,
};
use lu_msg::{Answer, Op, Reply};
use std::alloc::Global;

/// The first life of client 0.
pub const A: Who = Who { client: 0, life: 1 };

/// The first life of client 1.
pub const B: Who = Who { client: 1, life: 1 };

/// The second life of client 0.
pub const NEXT: Who = Who { client: 0, life: 2 };

/// The numbers 1.1 and 1.2.
pub const FIRST: u64 = 0x1_0000_0001;

pub const SECOND: u64 = 0x1_0000_0002;

/// The greatest offset.
pub const END: u64 = u64::MAX;

/// The inode 1.
pub const INODE: Resource = Resource {
    fid: Fid(1),
    stripe: 0,
};

/// What a life asks for of a range.
pub fn over(who: Who, mode: Mode, first: u64, last: u64) -> Ask
    ensures ordered { IsOrdered result.policy }
{
    let last = last.max(first);
    Ask {
        who,
        mode,
        policy: Policy::Range(Extent { first, last }),
    }
}

/// What a life asks for of inode bits.
pub fn on_bits(who: Who, mode: Mode, bits: u8) -> Ask
    ensures ordered { IsOrdered result.policy }
    ensures who { result.who ≡ who }
{
    Ask {
        who,
        mode,
        policy: Policy::Bits(bits),
    }
}

/// The path of a name in the root.
pub fn path(alloc: Global, name: &[u8]) -> Result<Path, Memory> {
    let mut path = Path::new(alloc);
    path.push(Name::from_slice(alloc, name)?)?;
    Ok(path)
}

/// The operation that makes a directory in the root.
pub fn mkdir(alloc: Global) -> Result<Op, Memory>
    ensures named { IfOk result IsNamed }
{
    Ok(Op::Mkdir(path(alloc, b"a")?))
}

/// A reply of boot 1.
pub fn reply(alloc: Global, who: Who, xid: u64, txn: Txn) -> Reply
    ensures who { result.who ≡ who }
    ensures txn { result.txn ≡ txn }
{
    Reply {
        who,
        boot: 1,
        xid: Xid(xid),
        txn,
        committed: Txn(0),
        seen: Numbers::new(alloc),
        at: At {
            stamp: Stamp(2),
            node: Node::Target(0),
        },
        locks: Locks::new(alloc),
        answer: Answer::Done,
    }
}
