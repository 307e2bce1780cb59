//! What a target has asked of the holders of its locks.

use crate::values::{A, B};
use lu_base::{Cookie, Cookies, Xid};
use lu_callback::{Callbacks, Kind};
use std::test::Fail;

#[test]
fn a_block_is_asked_once_and_falls_due(rt: HostRuntime) -> Result<(), Fail> {
    let alloc = rt.alloc();
    let mut callbacks = Callbacks::new(alloc);
    assert_eq!(rt; callbacks.ask(Cookie(1), Kind::Block, 0), Ok(true));
    assert_eq!(rt; callbacks.ask(Cookie(1), Kind::Block, 0), Ok(false));
    assert!(rt; callbacks.due(alloc, 7, 8)?.is_empty());
    assert_eq!(rt;
        callbacks.due(alloc, 8, 8)?.as_slice(),
        [Cookie(1)].as_slice()
    );
    assert_eq!(rt; callbacks.outstanding(0), Some((Cookie(1), Kind::Block)));
    assert!(rt; callbacks.is_outstanding(Cookie(1), Kind::Block));
    assert!(rt; !callbacks.glimpsed(Cookie(1), A, Xid(1)));
    callbacks.answered(Cookie(1));
    assert_eq!(rt; callbacks.outstanding(0), None);
    Ok(())
}

/// A block comes before the sizes that were asked; these go with the life that asked, and with that which held the lock.
#[test]
fn sizes_are_asked_for_lives(rt: HostRuntime) -> Result<(), Fail> {
    let alloc = rt.alloc();
    let mut callbacks = Callbacks::new(alloc);
    let size = Kind::Glimpse(A, Xid(3));
    assert_eq!(rt; callbacks.ask(Cookie(2), size, 1), Ok(true));
    assert_eq!(rt; callbacks.ask(Cookie(2), Kind::Block, 2), Ok(true));
    assert_eq!(rt; callbacks.of(Cookie(2), 1), Some(size));
    let kinds = callbacks.kinds(alloc, Cookie(2))?;
    assert_eq!(rt; kinds.as_slice(), [Kind::Block, size].as_slice());
    callbacks.forget_lives(&[A]);
    assert_eq!(rt; callbacks.all(alloc)?.len(), 1);
    callbacks.end_lives(&[B], &Cookies::from(Vec::from_slice(alloc, &[Cookie(2)])?));
    assert_eq!(rt; callbacks.outstanding(0), None);
    Ok(())
}
