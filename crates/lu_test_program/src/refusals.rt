//! Words and texts that are refused, and faults of the source and of the sink.

use crate::running::{performed, performed_in_pieces};
use crate::samples::{ONE_CLIENT, ONE_CLIENT_SCENE};
use std::test::Fail;

#[test]
fn refuses_words_of_no_form(rt: HostRuntime) -> Result<(), Fail> {
    let rows: [&[&str]; 18] = [
        &["play", "now"],
        &["play", ""],
        &["Play"],
        &["-play"],
        &["--", "play"],
        &["threads"],
        &["judge", "now"],
        &[""],
        &[],
        &["storm"],
        &["storm", ""],
        &["storm", "01"],
        &["storm", "-1"],
        &["storm", "+1"],
        &["storm", "x"],
        &["storm", "18446744073709551616"],
        &["storm", "1", "2"],
        &["1", "storm"],
    ];
    for words in rows {
        let came = performed(rt.alloc(), words, b"fly\n", &[0], &[])?;
        assert_eq!(rt; came.code, 2);
        assert_eq!(rt;
            came.written.as_slice(),
            b"usage: play, threads, storm N or judge\n".as_slice()
        );
    }
    Ok(())
}

#[test]
fn names_the_first_bad_line_and_its_fault(rt: HostRuntime) -> Result<(), Fail> {
    let rows: [(&[u8], &[u8]); 12] = [
        (
            b"run\nrun\nrun\nrun\nrun\nrun\nfly\n",
            b"scene 7 UnknownLine\n",
        ),
        (b"run\r\n", b"scene 1 Line\n"),
        (b"# one\n\nrun 0\n", b"scene 3 Number\n"),
        (b"run\nclients 2\n", b"scene 2 Header\n"),
        (b"call 1.0 mkdir /a\n", b"scene 1 Node\n"),
        (b"call 0.0 fly /a\n", b"scene 1 UnknownCall\n"),
        (b"call 0.0\n", b"scene 1 Fields\n"),
        (b"call 0.0 mkdir a\n", b"scene 1 Path\n"),
        (b"call 0.0 write 0 0 6\n", b"scene 1 Data\n"),
        (b"run\nfly", b"scene 2 UnknownLine\n"),
        (b"commit t0\nfly\n", b"scene 2 UnknownLine\n"),
        (b"fly\nrun 0\n", b"scene 1 UnknownLine\n"),
    ];
    for (text, written) in rows {
        let came = performed(rt.alloc(), &["play"], text, &[], &[])?;
        assert_eq!(rt; came.code, 3);
        assert_eq!(rt; came.written.as_slice(), written);
    }
    Ok(())
}

#[test]
fn tells_faults_of_the_source(rt: HostRuntime) -> Result<(), Fail> {
    let alloc = rt.alloc();
    let fault = performed(alloc, &["play"], b"fly\n", &[0], &[])?;
    assert_eq!(rt; fault.code, 4);
    assert_eq!(rt; fault.written.as_slice(), b"read fault\n".as_slice());
    let later = performed(alloc, &["play"], b"fly\n", &[1], &[])?;
    assert_eq!(rt; later.code, 4);
    let both = performed(alloc, &["play"], b"run\n", &[0], &[0])?;
    assert_eq!(rt; both.code, 4);
    assert!(rt; both.written.is_empty());
    Ok(())
}

#[test]
fn writes_a_prefix_of_the_trace_before_a_fault_of_the_sink(rt: HostRuntime) -> Result<(), Fail> {
    for failing in 0..100u64 {
        let came = performed(rt.alloc(), &["play"], ONE_CLIENT_SCENE, &[], &[failing])?;
        assert_eq!(rt; came.code, 5);
        assert_eq!(rt; came.written.len() as u64, failing);
        assert!(rt; ONE_CLIENT.starts_with(came.written.as_slice()));
    }
    Ok(())
}

#[test]
fn writes_whole_pieces_before_a_fault_of_the_sink(rt: HostRuntime) -> Result<(), Fail> {
    let came = performed_in_pieces(rt.alloc(), ONE_CLIENT_SCENE, &[1])?;
    assert_eq!(rt; came.code, 5);
    assert_eq!(rt; came.written.as_slice(), &ONE_CLIENT[..100]);
    Ok(())
}

#[test]
fn keeps_its_answer_where_the_line_of_a_refusal_is_cut_off(rt: HostRuntime) -> Result<(), Fail> {
    let rows: [(&[&str], &[u8], u8, &[u8]); 2] = [
        (&["threads"], b"", 2, b"usag"),
        (&["play"], b"fly\n", 3, b"scen"),
    ];
    for (words, text, code, written) in rows {
        let came = performed(rt.alloc(), words, text, &[], &[4])?;
        assert_eq!(rt; came.code, code);
        assert_eq!(rt; came.written.as_slice(), written);
    }
    Ok(())
}
