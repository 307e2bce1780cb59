//! The metadata target's service, through its trait, and which lock covers a request for bytes.

use crate::values::{A, B, FIRST, INODE, mkdir, over, path};
use lu_base::{Cookie, Extent, Fid, Lock, Mode, Txn};
use lu_mdt::Mdt;
use lu_msg::{Answer, Op};
use lu_service::{Service, covered};
use std::test::Fail;

#[test]
fn names_are_served(rt: HostRuntime) -> Result<(), Fail> {
    let alloc = rt.alloc();
    let mut mdt = Mdt::new(alloc, 1)?;
    let make = mkdir(alloc)?;
    assert!(rt; mdt.changes(A, &make));
    assert!(rt; mdt.apply(alloc, Txn(FIRST), A, &make)? == Answer::Made(Fid(FIRST)));
    let look = Op::Lookup(path(alloc, b"a")?);
    assert_eq!(rt; mdt.touches(alloc, A, &look)?.len(), 1);
    assert_eq!(rt; mdt.writes(alloc, A, &look)?.len(), 0);
    assert_eq!(rt; mdt.grants(alloc, A, &look)?.len(), 1);
    let page = Extent {
        first: 0,
        last: 4095,
    };
    assert!(rt; mdt.read(alloc, INODE, page)?.is_empty());
    mdt.forget(A);
    Ok(())
}

#[test]
fn a_lock_covers_its_range(rt: HostRuntime) {
    let get = Op::Get {
        resource: INODE,
        cookie: Cookie(7),
        page: 1,
    };
    let lock = Lock {
        cookie: Cookie(7),
        resource: INODE,
        ask: over(A, Mode::PR, 4097, 9000),
    };
    assert!(rt; covered(&get, Some(&lock), A));
    assert!(rt; !covered(&get, Some(&lock), B));
    assert!(rt; !covered(&get, None, A));
}
