//! The locks that a client holds.

use crate::values::{A, END, INODE, over};
use lu_base::{Cookie, Extent, Lock, Memory, Mode, Policy, TargetId};
use lu_held::Held;
use std::test::Fail;

const T1: TargetId = TargetId(1);

/// A writer's lock on the one object.
fn lock(cookie: u64, first: u64, last: u64) -> Lock {
    Lock {
        cookie: Cookie(cookie),
        resource: INODE,
        ask: over(A, Mode::PW, first, last),
    }
}

/// Holds a lock of `t1`, without pins and mark.
fn hold_anew(held: &mut Held, lock: Lock) -> Result<(), Memory> {
    held.remove(T1, lock.cookie);
    held.granted(T1, lock)
}

/// The lock that does for a read.
fn found(held: &Held) -> Option<Cookie> {
    held.match_lock(
        T1,
        INODE,
        Mode::PR,
        Policy::Range(Extent { first: 5, last: 9 }),
    )
}

#[test]
fn a_lock_is_used_until_it_is_called_back(rt: HostRuntime) -> Result<(), Fail> {
    let alloc = rt.alloc();
    let mut held = Held::new(alloc, 9)?;
    hold_anew(&mut held, lock(1, 0, END))?;
    assert_eq!(rt; found(&held), Some(Cookie(1)));
    assert_eq!(rt;
        held.covering(T1, INODE, 7, 0).map(|lock| lock.cookie),
        Some(Cookie(1))
    );
    assert!(rt; held.block(T1, Cookie(1)));
    assert_eq!(rt; found(&held), None);
    assert_eq!(rt; held.ready_to_cancel(0), Some((T1, Cookie(1))));
    assert_eq!(rt; held.ready(alloc)?.len(), 1);
    assert!(rt; held.pin(T1, Cookie(1)));
    assert_eq!(rt; held.ready_to_cancel(0), None);
    assert_eq!(rt; held.marked(alloc, T1)?.as_slice(), [Cookie(1)].as_slice());
    assert!(rt; held.remove(T1, Cookie(1)));
    assert!(rt; !held.unpin(T1, Cookie(1)));
    Ok(())
}

/// Of two unused locks one is kept; a target that boots forgets what it called back.
#[test]
fn unused_locks_are_trimmed(rt: HostRuntime) -> Result<(), Fail> {
    let alloc = rt.alloc();
    let mut held = Held::new(alloc, 1)?;
    hold_anew(&mut held, lock(1, 0, 9))?;
    hold_anew(&mut held, lock(2, 20, 29))?;
    assert_eq!(rt; held.in_order(alloc)?.len(), 2);
    assert_eq!(rt; held.trim(), Some((T1, Cookie(1))));
    assert_eq!(rt; held.trim(), None);
    held.unmark(T1);
    assert_eq!(rt; held.ready_to_cancel(0), None);
    assert_eq!(rt; held.of_target(alloc, T1)?.len(), 2);
    Ok(())
}
