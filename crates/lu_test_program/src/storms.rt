//! Storms.

use crate::running::{performed, performed_over};
use std::test::Fail;

#[test]
fn a_storm_comes_to_one_summary(rt: HostRuntime) -> Result<(), Fail> {
    let words = ["storm", "0"];
    // Nothing is read, so it doesn't matter that the source would fail.
    let first = performed(rt.alloc(), &words, b"fly\n", &[0], &[])?;
    let second = performed(rt.alloc(), &words, b"", &[], &[])?;
    assert_eq!(rt; first.code, 0);
    assert!(rt; first.written.as_slice().starts_with(b"seed 0\nturns "));
    assert_eq!(rt; second.code, 0);
    assert_eq!(rt; first.written.as_slice(), second.written.as_slice());
    Ok(())
}

/// Where a disk fails at the start the summary is that of the one turn in which it is told.
#[test]
fn a_storm_ends_where_a_disk_fails(rt: HostRuntime) -> Result<(), Fail> {
    let rows: [(&str, &[u8]); 2] = [
        (
            "0",
            b"seed 0\nturns 1\nmessages 0\ntold 0\neio 0\ntransactions 0\nkept 0\nevictions 0\n",
        ),
        (
            "18446744073709551615",
            b"seed 18446744073709551615\nturns 1\nmessages 0\ntold 0\neio 0\ntransactions 0\nkept 0\nevictions 0\n",
        ),
    ];
    for (number, written) in rows {
        let came = performed_over(rt.alloc(), &["storm", number], b"", 2, &[1], &[])?;
        assert_eq!(rt; came.code, 6);
        assert_eq!(rt; came.written.as_slice(), written);
    }
    Ok(())
}
