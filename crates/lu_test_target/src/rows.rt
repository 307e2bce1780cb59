//! What rows of operations on names are made of.

ghost use Rattle.std.specs.Prelude.{IfOk};
ghost use Rattle.lu_service.specs.Takes.{IsNamed};

use crate::values::{A, path};
use lu_base::{Fid, Memory, Txn};
use lu_mdt::Mdt;
use lu_msg::{Answer, Errno, Op};
use lu_service::Service;
use std::alloc::Global;
use std::process::Abort;

/// The number 1.0: transactions of boot 1 follow it.
pub(crate) const BOOT: u64 = 4294967296;

/// An operation on a path.
#[derive(Clone, Copy)]
pub(crate) enum Verb {
    Lookup,
    Mkdir,
    Rmdir,
}

/// What is answered; inodes by the count of their transaction in boot 1.
#[derive(Clone, Copy)]
pub(crate) enum Told {
    Done,
    Made(u32),
    Dir(u32),
    No(Errno),
}

pub(crate) fn op(alloc: Global, verb: Verb, name: &[u8]) -> Result<Op, Memory>
    ensures named { IfOk result IsNamed }
{
    let path = path(alloc, name)?;
    match verb {
        Verb::Lookup => Ok(Op::Lookup(path)),
        Verb::Mkdir => Ok(Op::Mkdir(path)),
        Verb::Rmdir => Ok(Op::Rmdir(path)),
    }
}

pub(crate) fn answer(told: Told) -> Answer {
    match told {
        Told::Done => Answer::Done,
        Told::Made(count) => Answer::Made(Fid(BOOT + count as u64)),
        Told::Dir(count) => Answer::Dir(Fid(BOOT + count as u64)),
        Told::No(errno) => Answer::Refused(errno),
    }
}

/// A look-up of the name is answered so.
pub(crate) fn found(
    rt: &impl Abort,
    alloc: Global,
    mdt: &mut Mdt,
    name: &[u8],
    told: Told,
) -> Result<(), Memory> {
    let op = op(alloc, Verb::Lookup, name)?;
    if mdt.changes(A, &op) {
        return Err(Memory);
    }
    let same = mdt.apply(alloc, Txn(0), A, &op)? == answer(told);
    assert!(rt; same);
    Ok(())
}
