//! The tree of names: an operation's answer, and what it touches, writes and grants.

use crate::values::{A, FIRST, mkdir, path};
use lu_base::{Bytes, Fid, Path, Txn};
use lu_msg::{Answer, Op};
use lu_part::{Part, Want};
use lu_tree::Tree;
use std::test::Fail;

#[test]
fn a_directory_is_made(rt: HostRuntime) -> Result<(), Fail> {
    let alloc = rt.alloc();
    let mut tree = Tree::new(alloc, 1)?;
    let make = mkdir(alloc)?;
    assert!(rt; tree.changes(A, &make));
    assert!(rt; tree.answer(alloc, Txn(FIRST), A, &make)? == Answer::Made(Fid(FIRST)));
    assert!(rt; tree.apply(alloc, Txn(FIRST), A, &make)? == Answer::Made(Fid(FIRST)));
    assert!(rt; !tree.changes(A, &make));
    tree.forget(A);
    Ok(())
}

#[test]
fn a_listing_touches_the_list_and_comes_with_its_lock(rt: HostRuntime) -> Result<(), Fail> {
    let alloc = rt.alloc();
    let tree = Tree::new(alloc, 1)?;
    let list = Op::List(Path::new(alloc));
    assert_eq!(rt;
        tree.touches(alloc, A, &list)?.as_slice(),
        [Part::List(Fid(1))].as_slice()
    );
    let root = Want {
        fid: Fid(1),
        bits: 2,
    };
    assert_eq!(rt; tree.grants(alloc, A, &list)?.as_slice(), [root].as_slice());
    Ok(())
}

#[test]
fn a_removal_writes_the_name_its_parent_and_its_attributes(rt: HostRuntime) -> Result<(), Fail> {
    let alloc = rt.alloc();
    let mut tree = Tree::new(alloc, 1)?;
    tree.apply(alloc, Txn(FIRST), A, &mkdir(alloc)?)?;
    let written = tree.writes(alloc, A, &Op::Rmdir(path(alloc, b"a")?))?;
    let name = Part::Name(Fid(1), Bytes::from_slice(alloc, b"a")?);
    assert_eq!(rt;
        written.as_slice(),
        [name, Part::Parent(Fid(FIRST)), Part::Attr(Fid(FIRST))].as_slice()
    );
    Ok(())
}
