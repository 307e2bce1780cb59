//! How long a scenario and a run may be.

use crate::running::{performed, repeated};
use lu_base::{Bytes, Memory};
use std::alloc::Global;
use std::test::Fail;

#[test]
fn refuses_a_scenario_of_a_byte_too_many(rt: HostRuntime) -> Result<(), Fail> {
    let alloc = rt.alloc();
    for (count, code, written) in [
        (1048576, 0, b"end\n".as_slice()),
        (1048577, 3, b"too long\n"),
    ] {
        let text = repeated(alloc, b"\n", count)?;
        let came = performed(alloc, &["play"], text.as_slice(), &[], &[])?;
        assert_eq!(rt; came.code, code);
        assert_eq!(rt; came.written.as_slice(), written);
    }
    Ok(())
}

/// Some lines, so many ticks of client 0, and then another line.
fn ticks(alloc: Global, first: &[u8], count: usize, last: &[u8]) -> Result<Bytes, Memory> {
    let mut text = Bytes::from_slice(alloc, first)?;
    let middle = repeated(alloc, b"tick c0\n", count)?;
    text.extend(middle.as_slice())?;
    text.extend(last)?;
    Ok(text)
}

/// Calls that send four messages, which each tick sends again.
const FOUR: &[u8] = b"flight 4
call 0.0 mkdir /a
call 0.1 mkdir /b
call 0.2 mkdir /c
call 0.3 mkdir /d
";

/// A run has at most 65,536 turns and 131,072 messages.
#[test]
fn runs_end_at_their_limits(rt: HostRuntime) -> Result<(), Fail> {
    let alloc = rt.alloc();
    let rows: [(&[u8], usize, &[u8], &[u8]); 5] = [
        (b"", 65536, b"", b"\n65536 c0 tick\nend\n"),
        (b"", 65536, b"run\n", b"\n65536 c0 tick\nend\n"),
        (b"", 65536, b"tick t0\n", b"\n65536 c0 tick\nend limit\n"),
        (FOUR, 32767, b"", b" mkdir /d\nend\n"),
        (FOUR, 32767, b"tick t0\n", b" mkdir /d\nend limit\n"),
    ];
    for (first, count, last, written) in rows {
        let text = ticks(alloc, first, count, last)?;
        let came = performed(alloc, &["play"], text.as_slice(), &[], &[])?;
        assert_eq!(rt; came.code, 0);
        assert!(rt; came.written.as_slice().ends_with(written));
    }
    Ok(())
}
