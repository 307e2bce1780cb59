//! Lock servers of targets.

ghost use Rattle.lu_lock.specs.Overlap.{IsOrdered};

use crate::values::{A, B, INODE, on_bits, over};
use lu_base::{Ask, Cookie, Fid, Lock, Locks, Memory, Mode, Resource, Stamp, Xid};
use lu_callback::Kind;
use lu_msg::SizeReport;
use lu_part::{Part, Parts, Want, Wants};
use lu_target_locks::{Enqueued, LockServer, are_ordered};
use std::alloc::Global;
use std::test::Fail;

/// The cookies 2.1 and 2.2.
const ONE: Cookie = Cookie(0x2_0000_0001);

const TWO: Cookie = Cookie(0x2_0000_0002);

const OBJECT: Resource = Resource {
    fid: Fid(7),
    stripe: 0,
};

/// Whether a lock on the object is granted at once.
fn is_granted(alloc: Global, server: &mut LockServer, ask: Ask) -> Result<bool, Fail>
    requires ordered { IsOrdered ask.policy }
{
    match server.enqueue(alloc, OBJECT, ask)? {
        Enqueued::Granted(_) => Ok(true),
        Enqueued::Waiting(_) => Ok(false),
    }
}

/// A server of boot 2, at which `A` holds a lock on the object, for which `B` waits.
fn waited_on(alloc: Global) -> Result<LockServer, Fail> {
    let mut server = LockServer::new(alloc, 2);
    let is_held = is_granted(alloc, &mut server, over(A, Mode::PW, 0, 9))?;
    let is_next = is_granted(alloc, &mut server, over(B, Mode::PR, 5, 5))?;
    if is_held && !is_next {
        Ok(server)
    } else {
        Err(Fail::from("the second lock doesn't wait for the first"))
    }
}

#[test]
fn a_lock_waits_until_the_one_in_its_way_goes(rt: HostRuntime) -> Result<(), Fail> {
    let alloc = rt.alloc();
    let mut server = waited_on(alloc)?;
    assert_eq!(rt; server.next_cookie(), Ok(Cookie(0x2_0000_0003)));
    assert_eq!(rt; server.call_back(alloc, OBJECT)?.len(), 1);
    assert_eq!(rt; server.outstanding(ONE, 0), Some(Kind::Block));
    assert!(rt; server.highest(OBJECT).is_some());
    assert!(rt; server.cancel(alloc, B, ONE)?.is_none());
    assert_eq!(rt;
        server.cancel(alloc, A, ONE)?.map(|gone| gone.granted.len()),
        Some(1)
    );
    assert!(rt; server.find(B, TWO).is_some() && server.find(A, ONE).is_none());
    Ok(())
}

/// `A` tells `B` a size under its lock.
const REPORT: SizeReport = SizeReport {
    who: A,
    boot: 2,
    cookie: ONE,
    for_who: B,
    xid: Xid(5),
    size: Some(10),
    stamp: Stamp(3),
};

#[test]
fn a_size_is_asked_and_told_once(rt: HostRuntime) -> Result<(), Fail> {
    let mut server = waited_on(rt.alloc())?;
    assert_eq!(rt; server.ask_size(ONE, B, Xid(5)), Ok(true));
    assert_eq!(rt; server.askers(rt.alloc(), ONE)?.len(), 1);
    assert!(rt; server.report(&REPORT));
    assert!(rt; !server.report(&REPORT));
    Ok(())
}

/// What is outstanding is sent again; the life whose time is over leaves, and what waited is granted.
#[test]
fn a_life_that_keeps_its_lock_leaves(rt: HostRuntime) -> Result<(), Fail> {
    let alloc = rt.alloc();
    let mut server = waited_on(alloc)?;
    server.call_back(alloc, OBJECT)?;
    let before = server.asked(alloc)?;
    assert_eq!(rt; server.tick(), Ok(()));
    assert_eq!(rt; server.again(alloc, &before)?.len(), 1);
    assert_eq!(rt; server.due(alloc, 1)?.as_slice(), [A].as_slice());
    let left = server.leave(alloc, &[A])?;
    assert_eq!(rt; left.departures.len(), 1);
    assert_eq!(rt; left.steps.len(), 1);
    Ok(())
}

/// An act is granted its locks, which are in the way of a change of the names.
#[test]
fn an_act_is_granted_its_locks(rt: HostRuntime) -> Result<(), Fail> {
    let alloc = rt.alloc();
    let mut server = LockServer::new(alloc, 2);
    let wants = Wants::from(Vec::from_slice(
        alloc,
        &[Want {
            fid: Fid(1),
            bits: 3,
        }],
    )?);
    assert_eq!(rt; server.admit(alloc, A, &wants)?.len(), 1);
    let mut parts = Parts::new(alloc);
    parts.push(Part::List(Fid(1)))?;
    let cookies = server.in_way(alloc, &parts)?;
    assert_eq!(rt; cookies.as_slice(), [ONE].as_slice());
    assert_eq!(rt; server.call_back_all(alloc, &cookies)?.len(), 1);
    Ok(())
}

/// The lock `cookie` of `A`, as it was granted before.
fn before(locks: &mut Locks, cookie: Cookie, mode: Mode) -> Result<(), Memory> {
    locks.push(Lock {
        cookie,
        resource: INODE,
        ask: on_bits(A, mode, 2),
    })
}

/// A lock that meets one before doesn't stand again.
#[test]
fn locks_stand_again(rt: HostRuntime) -> Result<(), Fail> {
    let alloc = rt.alloc();
    let mut server = LockServer::new(alloc, 3);
    let mut locks = Locks::new(alloc);
    before(&mut locks, ONE, Mode::PR)?;
    before(&mut locks, TWO, Mode::EX)?;
    if !are_ordered(&locks) {
        return Err(Fail::from("a range that ends ahead of its first offset"));
    }
    assert_eq!(rt; server.restore(alloc, &locks)?.len(), 1);
    Ok(())
}
