//! Recovery windows.

use crate::values::{A, B, FIRST, INODE, NEXT, mkdir, on_bits};
use lu_base::{Cause, Cookie, Lock, Memory, Mode, Numbers, Txn, Who, Xid};
use lu_replay::Replay;
use lu_window::{Window, WindowError};
use std::alloc::Global;
use std::test::Fail;

const STRANGER: Who = Who { client: 2, life: 7 };

/// A replay of transaction 1.1.
fn replay(alloc: Global) -> Result<Replay, Memory> {
    Ok(Replay {
        number: Txn(FIRST),
        xid: Xid(1),
        tag: 0,
        seen: Numbers::new(alloc),
        op: mkdir(alloc)?,
    })
}

#[test]
fn a_life_without_its_word_is_absent(rt: HostRuntime) -> Result<(), Fail> {
    let alloc = rt.alloc();
    let mut window = Window::new(alloc, &[A, B], Txn(0))?;
    assert_eq!(rt; window.word(A, 0, 0, Numbers::new(alloc)), Ok(true));
    assert!(rt; !window.all_back());
    assert_eq!(rt;
        window.replay(STRANGER, replay(alloc)?),
        Err(WindowError::Unknown)
    );
    window.close_now();
    assert_eq!(rt;
        window.word(B, 0, 0, Numbers::new(alloc)),
        Err(WindowError::Late)
    );
    let outcome = window.settle()?;
    assert!(rt; outcome.kept.is_empty() && outcome.lost.is_empty());
    let evicted = outcome.evicted.at(0);
    assert!(rt; evicted.is_some_and(|one| one.who == B && one.cause == Cause::Absent));
    Ok(())
}

/// What a life hands in stays; it makes way for its client's next life.
#[test]
fn what_is_handed_in_is_kept(rt: HostRuntime) -> Result<(), Fail> {
    let alloc = rt.alloc();
    let mut window = Window::new(alloc, &[A], Txn(0))?;
    let lock = Lock {
        cookie: Cookie(7),
        resource: INODE,
        ask: on_bits(A, Mode::PR, 1),
    };
    assert_eq!(rt; window.replay(A, replay(alloc)?), Ok(false));
    assert_eq!(rt; window.lock(A, lock), Ok(false));
    assert_eq!(rt; window.word(A, 1, 1, Numbers::new(alloc)), Ok(true));
    assert!(rt; window.all_back());
    assert_eq!(rt; window.joined(NEXT), Ok(()));
    window.close_now();
    let outcome = window.settle()?;
    assert_eq!(rt; outcome.kept.len(), 1);
    assert_eq!(rt; outcome.joins.as_slice(), [NEXT].as_slice());
    Ok(())
}
