//! A client's changes of one object: writes, cuts, write-backs and their answers.

use lu_base::{Extent, Memory};
use lu_patch::Patch;
use lu_spec_entries::Flush;
use std::alloc::Global;
use std::test::Fail;

/// The whole object.
const WHOLE: Extent = Extent {
    first: 0,
    last: u64::MAX,
};

/// Whether the next write-back of the object is these bytes from an offset on, and it is answered; false where one is
/// under way.
fn puts(patch: &mut Patch, offset: u64, wanted: &[u8]) -> Result<bool, Memory> {
    if patch.in_flight() {
        return Ok(false);
    }
    let flush = patch.take_flush(WHOLE)?;
    patch.ack_flush();
    match flush {
        Some(Flush::Put(at, bytes)) => Ok(at == offset && bytes.as_slice() == wanted),
        _ => Ok(false),
    }
}

/// The same of a cut to a size.
fn cuts(patch: &mut Patch, wanted: u64) -> Result<bool, Memory> {
    if patch.in_flight() {
        return Ok(false);
    }
    let flush = patch.take_flush(WHOLE)?;
    patch.ack_flush();
    Ok(matches!(flush, Some(Flush::Cut(size)) if size == wanted))
}

/// Whether nothing is to be written back.
fn rests(patch: &mut Patch) -> Result<bool, Memory> {
    Ok(!patch.in_flight() && patch.take_flush(WHOLE)?.is_none())
}

#[test]
fn the_cut_goes_first(rt: HostRuntime) -> Result<(), Fail> {
    let mut patch = Patch::new(rt.alloc());
    patch.write(4095, b"\x61\x62")?;
    patch.cut(4096)?;
    assert_eq!(rt; patch.size_over(9000), 4096);
    assert!(rt; cuts(&mut patch, 4096)?);
    assert!(rt; puts(&mut patch, 4095, b"\x61")?);
    assert!(rt; rests(&mut patch)?);
    Ok(())
}

#[test]
fn a_longer_cut_over_a_pending_one_puts_its_last_byte(rt: HostRuntime) -> Result<(), Fail> {
    let mut patch = Patch::new(rt.alloc());
    patch.cut(5)?;
    patch.cut(10)?;
    assert!(rt; cuts(&mut patch, 5)?);
    assert!(rt; puts(&mut patch, 9, b"\x00")?);
    Ok(())
}

/// A patch in which the bytes 1 and 3 stand at 0 and 2.
fn two_bytes(alloc: Global) -> Result<Patch, Memory> {
    let mut patch = Patch::new(alloc);
    patch.write(0, &[1])?;
    patch.write(2, &[3])?;
    Ok(patch)
}

#[test]
fn dirty_bytes_lie_over_what_is_known(rt: HostRuntime) -> Result<(), Fail> {
    let mut patch = two_bytes(rt.alloc())?;
    let mut into = [0, 0, 0];
    patch.over(0, &mut into);
    assert_eq!(rt; into, [1, 0, 3]);
    assert_eq!(rt; patch.count(), 2);
    assert_eq!(rt; patch.dirty(WHOLE), 2);
    assert!(rt; patch.is_dirty(2) && !patch.is_dirty(1) && patch.is_dirty_in(WHOLE));
    assert_eq!(rt; patch.byte(0, None), Some(1));
    patch.drop_all();
    assert!(rt; rests(&mut patch)?);
    Ok(())
}
