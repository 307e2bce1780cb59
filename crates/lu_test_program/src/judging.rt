//! Traces that are judged.

use crate::running::{performed, performed_over, repeated};
use crate::samples::ONE_CLIENT;
use lu_base::{Bytes, Memory, put_number, split_at_byte};
use std::alloc::Global;
use std::test::Fail;

/// The trace of one client, with these lines in place of the one at this place, from 0.
fn changed(alloc: Global, changed: usize, lines: &[u8]) -> Result<Bytes, Memory> {
    let mut text = Bytes::new(alloc);
    let pieces = split_at_byte(alloc, ONE_CLIENT, b'\n')?;
    for (place, piece) in pieces.iter().enumerate() {
        if place == changed {
            text.extend(lines)?;
        } else if !piece.is_empty() {
            text.extend(piece)?;
            text.push(b'\n')?;
        }
    }
    Ok(text)
}

/// What is written of a text whose first bad line is the one after so many.
fn bad_after(alloc: Global, count: usize) -> Result<Bytes, Memory> {
    let mut text = Bytes::from_slice(alloc, b"trace ")?;
    put_number(&mut text, (count as u64).wrapping_add(1))?;
    text.push(b'\n')?;
    Ok(text)
}

/// No disk is asked.
#[test]
fn judges_traces(rt: HostRuntime) -> Result<(), Fail> {
    for text in [ONE_CLIENT, b"end\n", b"end limit 8\n"] {
        let came = performed_over(rt.alloc(), &["judge"], text, 0, &[0], &[])?;
        assert_eq!(rt; came.code, 0);
        assert_eq!(rt; came.written.as_slice(), b"lawful\n".as_slice());
    }
    Ok(())
}

/// An answer that nobody gave is told; a call is told whose request was never executed; the last line is missing; a line
/// stands behind it; a line is no line.
#[test]
fn names_the_first_broken_law_or_the_first_bad_line(rt: HostRuntime) -> Result<(), Fail> {
    let rows: [(usize, &[u8], u8, &[u8]); 5] = [
        (7, b"3 c0 told 0 2:t0 ok 1.7\n", 1, b"broken History 8\n"),
        (3, b"", 1, b"broken Acts 7\n"),
        (32, b"", 3, b"trace 33\n"),
        (32, b"end\nend\n", 3, b"trace 34\n"),
        (2, b"02 t0 take 1\n", 3, b"trace 3\n"),
    ];
    for (place, lines, code, written) in rows {
        let text = changed(rt.alloc(), place, lines)?;
        let came = performed(rt.alloc(), &["judge"], text.as_slice(), &[], &[])?;
        assert_eq!(rt; came.code, code);
        assert_eq!(rt; came.written.as_slice(), written);
    }
    Ok(())
}

/// Of a text that is cut off the first bad line is the one after its last line feed.
#[test]
fn a_trace_is_whole_or_none(rt: HostRuntime) -> Result<(), Fail> {
    let alloc = rt.alloc();
    for length in 0..ONE_CLIENT.len() {
        let text = &ONE_CLIENT[..length];
        let lines = text.iter().filter(|byte| **byte == b'\n').count();
        let written = bad_after(alloc, lines)?;
        let came = performed(alloc, &["judge"], text, &[], &[])?;
        assert_eq!(rt; came.code, 3);
        assert_eq!(rt; came.written.as_slice(), written.as_slice());
    }
    Ok(())
}

/// A verdict that the sink cuts off wasn't told; the line of a refusal leaves its status.
#[test]
fn tells_faults_of_the_source_and_of_the_sink(rt: HostRuntime) -> Result<(), Fail> {
    let alloc = rt.alloc();
    let broken = changed(alloc, 7, b"3 c0 told 0 2:t0 ok 1.7\n")?;
    let rows: [(&[u8], &[u64], &[u64], u8, &[u8]); 8] = [
        (ONE_CLIENT, &[0], &[], 4, b"read fault\n"),
        (ONE_CLIENT, &[1], &[], 4, b"read fault\n"),
        (ONE_CLIENT, &[0], &[2], 4, b"re"),
        (ONE_CLIENT, &[], &[0], 5, b""),
        (ONE_CLIENT, &[], &[6], 5, b"lawful"),
        (broken.as_slice(), &[], &[0], 5, b""),
        (broken.as_slice(), &[], &[16], 5, b"broken History 8"),
        (b"", &[], &[4], 3, b"trac"),
    ];
    for (text, reads, writes, code, written) in rows {
        let came = performed(alloc, &["judge"], text, reads, writes)?;
        assert_eq!(rt; came.code, code);
        assert_eq!(rt; came.written.as_slice(), written);
    }
    Ok(())
}

/// A text has at most 67,108,864 bytes.
#[test]
fn refuses_a_trace_of_a_byte_too_many(rt: HostRuntime) -> Result<(), Fail> {
    let alloc = rt.alloc();
    let piece = repeated(alloc, b"x", 65536)?;
    let mut text = repeated(alloc, piece.as_slice(), 1024)?;
    let most = performed(alloc, &["judge"], text.as_slice(), &[], &[])?;
    text.push(b'x')?;
    let more = performed(alloc, &["judge"], text.as_slice(), &[], &[])?;
    assert_eq!(rt; most.code, 3);
    assert_eq!(rt; most.written.as_slice(), b"trace 1\n".as_slice());
    assert_eq!(rt; more.code, 3);
    assert_eq!(rt; more.written.as_slice(), b"too long\n".as_slice());
    Ok(())
}
