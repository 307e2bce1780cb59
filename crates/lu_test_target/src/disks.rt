//! Disks in memory, of which some calls fail.

use lu_base::{Lives, Numbers};
use lu_disk::{Disk, DiskError, MemoryDisk};
use lu_msg::{Batch, KeptReplies, Transactions};
use std::alloc::Global;
use std::test::Fail;

/// A disk of whose calls those of these numbers fail, counted from 0.
fn failing(alloc: Global, calls: &[u64]) -> Result<MemoryDisk, Fail> {
    Ok(MemoryDisk::new(alloc, Numbers::from(Vec::from_slice(alloc, calls)?)))
}

/// The batch that begins boot 1.
fn batch(alloc: Global) -> Batch {
    Batch {
        boot: 1,
        transactions: Transactions::new(alloc),
        replies: KeptReplies::new(alloc),
        added: Lives::new(alloc),
        removed: Lives::new(alloc),
    }
}

#[test]
fn a_call_that_fails_changes_nothing(rt: HostRuntime) -> Result<(), Fail> {
    let alloc = rt.alloc();
    let batch = batch(alloc);
    let mut disk = failing(alloc, &[1])?;
    assert!(rt; disk.load()?.is_empty());
    assert_eq!(rt; disk.commit(&batch), Err(DiskError::Failed));
    assert_eq!(rt; disk.commit(&batch), Ok(()));
    assert_eq!(rt; disk.load()?.len(), 1);
    Ok(())
}

#[test]
fn a_load_fails_like_a_commit(rt: HostRuntime) -> Result<(), Fail> {
    let mut disk = failing(rt.alloc(), &[0])?;
    assert_eq!(rt; disk.load().err(), Some(DiskError::Failed));
    assert!(rt; disk.load()?.is_empty());
    Ok(())
}
