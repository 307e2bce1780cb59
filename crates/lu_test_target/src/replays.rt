//! Replays by number.

use crate::values::{A, B, FIRST, SECOND, mkdir};
use lu_base::{Memory, Numbers, Txn, Xid};
use lu_replay::{Replay, Replays};
use std::alloc::Global;
use std::test::Fail;

fn replay(alloc: Global, number: u64) -> Result<Replay, Memory> {
    Ok(Replay {
        number: Txn(number),
        xid: Xid(1),
        tag: 0,
        seen: Numbers::new(alloc),
        op: mkdir(alloc)?,
    })
}

#[test]
fn replays_are_taken_in_rising_number(rt: HostRuntime) -> Result<(), Fail> {
    let alloc = rt.alloc();
    let mut replays = Replays::new(alloc);
    assert_eq!(rt; replays.put(A, replay(alloc, SECOND)?), Ok(true));
    assert_eq!(rt; replays.put(A, replay(alloc, SECOND)?), Ok(false));
    assert_eq!(rt; replays.put(B, replay(alloc, FIRST)?), Ok(true));
    assert_eq!(rt; replays.count(A), 1);
    assert_eq!(rt; replays.next_least(), Some((B, Txn(FIRST))));
    assert!(rt; replays.take_least() == Some((B, replay(alloc, FIRST)?)));
    assert!(rt; replays.take_least() == Some((A, replay(alloc, SECOND)?)));
    assert!(rt; replays.take_least().is_none());
    Ok(())
}
