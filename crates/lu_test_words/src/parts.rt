//! Parts of a target's contents: where they meet, and what guards them.

use lu_base::{Bytes, Extent, Fid, Memory, Policy, Resource};
use lu_part::{Part, guard, meets};
use std::alloc::Global;
use std::test::Fail;

/// A name in inode 1.
fn name(alloc: Global, text: &[u8]) -> Result<Part, Memory> {
    Ok(Part::Name(Fid(1), Bytes::from_slice(alloc, text)?))
}

#[test]
fn a_list_meets_its_names(rt: HostRuntime) -> Result<(), Fail> {
    let a = name(rt.alloc(), b"a")?;
    assert!(rt; meets(&Part::List(Fid(1)), &a));
    assert!(rt; !meets(&a, &name(rt.alloc(), b"b")?));
    Ok(())
}

#[test]
fn a_part_has_its_guard(rt: HostRuntime) {
    let fid = Fid(7);
    let inode = Resource { fid, stripe: 0 };
    assert!(rt; guard(&Part::Layout(fid)) == (inode, Policy::Bits(4)));
    let extent = Extent {
        first: 10,
        last: 19,
    };
    let object = Resource { fid, stripe: 3 };
    assert!(rt; guard(&Part::Bytes(fid, 3, extent)) == (object, Policy::Range(extent)));
}
