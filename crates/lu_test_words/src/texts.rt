//! Texts of values, written, and read and written again.

use lu_base::{
    Bytes, Memory, Mode, Node, put_bytes, put_mode, put_node, put_number, put_octal, put_pair,
    put_path, read_bytes, read_path,
};
use std::alloc::Global;
use std::test::Fail;

#[test]
fn values_are_written(rt: HostRuntime) -> Result<(), Fail> {
    let mut out = Bytes::new(rt.alloc());
    put_number(&mut out, 18446744073709551615)?;
    out.push(b' ')?;
    put_pair(&mut out, 4294967297)?;
    put_node(&mut out, Node::Client(15))?;
    put_node(&mut out, Node::Target(0))?;
    put_mode(&mut out, Mode::PR)?;
    put_octal(&mut out, 493)?;
    assert!(rt; out.as_slice() == b"18446744073709551615 1.1c15t0PR755".as_slice());
    Ok(())
}

/// Data as a scenario has it, and how the bytes are written again.
const DATA: [(&str, &str); 12] = [
    ("6162", "6162"),
    ("61*1", "61"),
    ("6161", "61*2"),
    ("00*3", "00*3"),
    ("616", "no data"),
    ("", "no data"),
    ("-", "no data"),
    ("6A", "no data"),
    ("61*0", "no data"),
    ("61*65537", "no data"),
    ("61*01", "no data"),
    ("*2", "no data"),
];

/// The bytes of a text, written again.
fn data_again(alloc: Global, text: &[u8]) -> Result<Bytes, Memory> {
    let mut out = Bytes::new(alloc);
    match read_bytes(alloc, text)? {
        Some(held) => put_bytes(&mut out, held.as_slice())?,
        None => out.extend(b"no data")?,
    }
    Ok(out)
}

#[test]
fn data_is_read_in_both_forms(rt: HostRuntime) -> Result<(), Fail> {
    for (text, again) in DATA {
        let out = data_again(rt.alloc(), text.as_bytes())?;
        assert!(rt; out.as_slice() == again.as_bytes(), "{text}");
    }
    Ok(())
}

/// Texts, and how their paths are written again.
const PATHS: [(&str, &str); 13] = [
    ("/", "/"),
    ("/a/b", "/a/b"),
    ("/a.b/_-9/Z", "/a.b/_-9/Z"),
    (
        "/1/2/3/4/5/6/7/8/9/0/1/2/3/4/5/6/7/8/9/0/1/2/3/4/5/6/7/8/9/0/1/2",
        "/1/2/3/4/5/6/7/8/9/0/1/2/3/4/5/6/7/8/9/0/1/2/3/4/5/6/7/8/9/0/1/2",
    ),
    ("", "no path"),
    ("a", "no path"),
    ("//", "no path"),
    ("/a//b", "no path"),
    ("/a/", "no path"),
    ("/.", "no path"),
    ("/a/..", "no path"),
    ("/a b", "no path"),
    (
        "/1/2/3/4/5/6/7/8/9/0/1/2/3/4/5/6/7/8/9/0/1/2/3/4/5/6/7/8/9/0/1/2/3",
        "no path",
    ),
];

/// The path of a text, written again.
fn path_again(alloc: Global, text: &[u8]) -> Result<Bytes, Memory> {
    let mut out = Bytes::new(alloc);
    match read_path(alloc, text)? {
        Some(path) => put_path(&mut out, &path)?,
        None => out.extend(b"no path")?,
    }
    Ok(out)
}

#[test]
fn paths_have_names_alone(rt: HostRuntime) -> Result<(), Fail> {
    for (text, again) in PATHS {
        let out = path_again(rt.alloc(), text.as_bytes())?;
        assert!(rt; out.as_slice() == again.as_bytes(), "{text}");
    }
    Ok(())
}
