//! Disks that fail.

use crate::running::performed_over;
use crate::samples::{ONE_CLIENT, ONE_CLIENT_SCENE};
use std::test::Fail;

/// A directory is made and committed.
const COMMIT_SCENE: &[u8] = b"call 0.0 mkdir /a
run
commit t0
";

/// Its trace where the disk fails at the commit.
const COMMIT_FAILED: &[u8] = b"1 c0 begin 0 mkdir /a
1 c0 send 1 t0 req c0.1 1 1 mkdir /a
2 t0 take 1
2 t0 txn 1.1 c0.1 1 - ok 1.1
2 t0 send 2 c0 reply c0.1 1 1 1.1 0.0 - 2:t0 - ok 1.1
3 c0 take 2
3 c0 heard t0 1
3 c0 told 0 2:t0 ok 1.1
4 t0 fail
end fault
";

/// A scenario, the target whose disk fails, its calls that fail, the exit code and what is written. At its start a target
/// makes the calls 0 and 1.
type Row = (&'static [u8], usize, &'static [u64], u8, &'static [u8]);

#[test]
fn a_run_ends_where_a_disk_fails(rt: HostRuntime) -> Result<(), Fail> {
    let rows: [Row; 9] = [
        (ONE_CLIENT_SCENE, 0, &[0], 6, b"1 t0 fail\nend fault\n"),
        (ONE_CLIENT_SCENE, 0, &[1], 6, b"1 t0 fail\nend fault\n"),
        (ONE_CLIENT_SCENE, 1, &[0], 6, b"1 t1 fail\nend fault\n"),
        (ONE_CLIENT_SCENE, 1, &[1], 6, b"1 t1 fail\nend fault\n"),
        // There is no further call, and target 2 is none of the run.
        (ONE_CLIENT_SCENE, 0, &[2, 3], 0, ONE_CLIENT),
        (ONE_CLIENT_SCENE, 2, &[0], 0, ONE_CLIENT),
        (COMMIT_SCENE, 0, &[2], 6, COMMIT_FAILED),
        (b"osts 2\n", 2, &[0], 6, b"1 t2 fail\nend fault 2\n"),
        // A text that is no scenario is told before any disk is asked.
        (b"fly\n", 0, &[0], 3, b"scene 1 UnknownLine\n"),
    ];
    for (text, target, failing, code, written) in rows {
        let came = performed_over(rt.alloc(), &["play"], text, target, failing, &[])?;
        assert_eq!(rt; came.code, code);
        assert_eq!(rt; came.written.as_slice(), written);
    }
    Ok(())
}

/// The failure of a disk is told also where its trace can't be written.
#[test]
fn a_disk_and_the_sink_fail(rt: HostRuntime) -> Result<(), Fail> {
    for failing in 0..20u64 {
        let came = performed_over(rt.alloc(), &["play"], COMMIT_SCENE, 0, &[2], &[failing])?;
        assert_eq!(rt; came.code, 6);
        assert_eq!(rt; came.written.len() as u64, failing);
        assert!(rt; COMMIT_FAILED.starts_with(came.written.as_slice()));
    }
    Ok(())
}
