//! What stands at positions, over the edge of a page.

use lu_base::Extent;
use lu_page::Places;
use lu_spec_entries::Dirty;
use std::test::Fail;

const WHOLE: Extent = Extent {
    first: 0,
    last: u64::MAX,
};

#[test]
fn a_run_is_found_between_gaps(rt: HostRuntime) -> Result<(), Fail> {
    let alloc = rt.alloc();
    let mut places = Places::new(alloc);
    assert!(rt; places.first_run(alloc, WHOLE)?.is_none());
    places.lay(1, &[7_u8, 8])?;
    let run = places.first_run(alloc, WHOLE)?;
    assert!(rt; run.is_some_and(|run| run.0 == 1 && run.1.as_slice() == [7, 8].as_slice()));
    assert_eq!(rt; places.count(WHOLE), 2);
    assert_eq!(rt; places.first_in(WHOLE), Some(1));
    assert_eq!(rt; places.at(0), None);
    Ok(())
}

/// A byte at the end of a page stands beside none, until the page is laid.
#[test]
fn a_page_is_laid(rt: HostRuntime) -> Result<(), Fail> {
    let alloc = rt.alloc();
    let mut places = Places::new(alloc);
    places.lay(4095, b"\x61")?;
    let read = places.read(alloc, 4094, 2)?;
    assert_eq!(rt; read.as_slice(), [None, Some(0x61)].as_slice());
    let zeros = Vec::from_elem(alloc, 0_u8, 4095)?;
    if zeros.len() == 4095 {
        places.lay(0, &zeros)?;
    }
    let read = places.read(alloc, 4094, 2)?;
    assert_eq!(rt; read.as_slice(), [Some(0), Some(0x61)].as_slice());
    Ok(())
}

#[test]
fn what_stands_goes(rt: HostRuntime) -> Result<(), Fail> {
    let mut places = Places::new(rt.alloc());
    places.lay(4094, b"abcd")?;
    assert_eq!(rt; places.end(), 4098);
    places.zero_from(4097);
    assert_eq!(rt; places.at(4097), Some(0));
    places.keep_below(4097);
    let edge = Extent {
        first: 4096,
        last: 4096,
    };
    assert_eq!(rt; places.end_in(edge), 4097);
    places.remove(edge);
    assert_eq!(rt; places.end(), 4096);
    Ok(())
}

/// What is marked goes, first from a range.
#[test]
fn marked_items_go(rt: HostRuntime) -> Result<(), Fail> {
    let mut places = Places::new(rt.alloc());
    let marked = Dirty {
        byte: 1,
        flies: true,
    };
    places.lay(4095, &[marked, marked])?;
    places.drop_marked_in(Extent {
        first: 0,
        last: 4095,
    });
    assert_eq!(rt; places.count(WHOLE), 1);
    places.drop_marked();
    assert_eq!(rt; places.count(WHOLE), 0);
    Ok(())
}
