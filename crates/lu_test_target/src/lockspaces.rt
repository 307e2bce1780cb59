//! All locks of a target.

use crate::values::{A, B, INODE, on_bits};
use lu_base::{Bytes, Cookie, Cookies, Fid, Memory, Mode, Policy};
use lu_lockspace::{Lockspace, SpaceError};
use lu_part::{Part, Parts};
use lu_queue::Placed;
use std::alloc::Global;
use std::test::Fail;

/// The granted locks that guard a part.
fn clash(alloc: Global, space: &Lockspace, part: Part) -> Result<Cookies, Memory> {
    let mut parts = Parts::new(alloc);
    parts.push(part)?;
    space.clash(alloc, &parts)
}

#[test]
fn a_lock_guards_parts_until_its_life_ends(rt: HostRuntime) -> Result<(), Fail> {
    let alloc = rt.alloc();
    let mut space = Lockspace::new(alloc);
    let placed = space.enqueue(alloc, Cookie(1), INODE, on_bits(A, Mode::PR, 3));
    assert_eq!(rt; placed, Ok(Placed::Granted(Policy::Bits(3))));
    let name = Part::Name(Fid(1), Bytes::from_slice(alloc, b"a")?);
    assert_eq!(rt;
        clash(alloc, &space, name)?.as_slice(),
        [Cookie(1)].as_slice()
    );
    assert!(rt; clash(alloc, &space, Part::Layout(Fid(1)))?.is_empty());
    assert!(rt; space.is_granted(Cookie(1)) && space.find(Cookie(1)).is_some());
    assert!(rt; space.granted(INODE, 0).is_some());
    assert_eq!(rt; space.of(alloc, A)?.as_slice(), [Cookie(1)].as_slice());
    assert!(rt; space.cancel_all(alloc, &[A])?.is_empty());
    assert_eq!(rt;
        space.cancel(alloc, Cookie(1)).err(),
        Some(SpaceError::NoLock)
    );
    Ok(())
}

#[test]
fn a_lock_waits_on_its_inode(rt: HostRuntime) -> Result<(), Fail> {
    let alloc = rt.alloc();
    let mut space = Lockspace::new(alloc);
    space.enqueue(alloc, Cookie(1), INODE, on_bits(A, Mode::PR, 3))?;
    let placed = space.enqueue(alloc, Cookie(2), INODE, on_bits(B, Mode::EX, 2));
    assert_eq!(rt; placed, Ok(Placed::Waiting));
    assert_eq!(rt;
        space.blockers(alloc, INODE)?.as_slice(),
        [Cookie(1)].as_slice()
    );
    assert_eq!(rt; space.waited_on(alloc)?.as_slice(), [INODE].as_slice());
    assert_eq!(rt; space.cancel(alloc, Cookie(1))?.len(), 1);
    Ok(())
}
