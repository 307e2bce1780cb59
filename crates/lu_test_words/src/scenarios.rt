//! Scenarios: faults, lines of each form, heads, lengths, and the numbers of lines.

use lu_base::{Bytes, Memory};
use lu_scene::{Fault, SceneFault, print_scene, read_scene};
use std::alloc::Global;
use std::test::Fail;

/// Texts that are no scenarios: the first bad line and its fault.
const FAULTS: [(&str, u64, Fault); 66] = [
    ("fly", 1, Fault::UnknownLine),
    (" # not a comment", 1, Fault::UnknownLine),
    ("run\nfly\nrun 0", 2, Fault::UnknownLine),
    ("#\t", 1, Fault::Line),
    ("run\x7f", 1, Fault::Line),
    ("run\r\n", 1, Fault::Line),
    ("run\nclients x y", 2, Fault::Header),
    ("clients 2\nclients", 2, Fault::Header),
    ("clients 1 1", 1, Fault::Fields),
    ("clients 0", 1, Fault::Number),
    ("clients 17", 1, Fault::Number),
    ("osts 9", 1, Fault::Number),
    ("expire 1001", 1, Fault::Number),
    ("dirty 4095", 1, Fault::Number),
    ("dirty 1073741825", 1, Fault::Number),
    ("unused 100001", 1, Fault::Number),
    ("rounds 1000001", 1, Fault::Number),
    ("flight 9", 1, Fault::Number),
    ("run 0", 1, Fault::Number),
    ("\n\nrun 65537\n", 3, Fault::Number),
    ("run +1", 1, Fault::Number),
    ("run 1 1", 1, Fault::Fields),
    ("deliver 0", 1, Fault::Number),
    ("deliver 1000001", 1, Fault::Number),
    ("lose", 1, Fault::Fields),
    ("tick t2", 1, Fault::Node),
    ("tick c01", 1, Fault::Node),
    ("tick x", 1, Fault::Node),
    ("commit c0", 1, Fault::Node),
    ("commit t2 0", 1, Fault::Node),
    ("commit t0 65537", 1, Fault::Number),
    ("osts 8\ncrash t9", 2, Fault::Node),
    ("close c0", 1, Fault::Node),
    ("die t0", 1, Fault::Node),
    ("clients 16\ndie c16", 2, Fault::Node),
    ("call", 1, Fault::Fields),
    ("call x fly", 1, Fault::Node),
    ("call 5.0 mkdir /a", 1, Fault::Node),
    ("call 0.4 mkdir /a", 1, Fault::Node),
    ("call 00.0 mkdir /a", 1, Fault::Node),
    ("call 0.0.0 mkdir /a", 1, Fault::Node),
    ("call 0.0 fly /a", 1, Fault::UnknownCall),
    ("call 0.0 mkdir", 1, Fault::Fields),
    ("call 0.0 mkdir a", 1, Fault::Path),
    ("call 0.0 link /a b", 1, Fault::Path),
    ("call 0.0 create /a 0", 1, Fault::Fields),
    ("call 0.0 create a 01 -2", 1, Fault::Path),
    ("call 0.0 create /a 4294967297 -1", 1, Fault::Number),
    ("call 0.0 create /a 0 1001", 1, Fault::Number),
    ("call 0.0 create /a 0 -2", 1, Fault::Number),
    ("call 0.0 chmod /a 00000", 1, Fault::Number),
    ("call 0.0 chmod /a 8", 1, Fault::Number),
    ("call 0.0 open 16 /", 1, Fault::Number),
    ("call 0.0 open 0 /a//b", 1, Fault::Path),
    ("call 0.0 read 0 0 65537", 1, Fault::Number),
    ("call 0.0 read 0 0 0", 1, Fault::Number),
    ("call 0.0 read 0 1099511627776 1", 1, Fault::Number),
    ("call 0.0 read 0 18446744073709551616 1", 1, Fault::Number),
    ("call 0.0 write 0 1099511627777 6", 1, Fault::Data),
    ("call 0.0 write 0 1099511627776 61", 1, Fault::Number),
    ("call 0.0 write 0 1099511562241 61*65536", 1, Fault::Number),
    ("call 0.0 write 0 0 61*65537", 1, Fault::Data),
    ("call 0.0 write 0 0 6A", 1, Fault::Data),
    ("call 0.0 cut 0 1099511627777", 1, Fault::Number),
    ("call 0.0 close", 1, Fault::Fields),
    ("share 1", 1, Fault::UnknownLine),
];

#[test]
fn a_bad_text_has_its_first_fault(rt: HostRuntime) {
    for (text, line, fault) in FAULTS {
        let wrong = read_scene(rt.alloc(), text.as_bytes()).err();
        assert!(rt; wrong == Some(SceneFault::Bad { line, fault }), "{text}");
    }
}

/// The head where nothing is said, as it is printed.
const PLAIN_HEAD: &str =
    "clients 1\nosts 1\nexpire 8\ndirty 1048576\nunused 64\nrounds 1000000\nflight 1\n";

/// Lines that are printed as they stand.
const LINES: [&str; 36] = [
    "call 0.0 lookup /",
    "call 0.0 stat /a",
    "call 0.0 list /a",
    "call 0.0 layout /a",
    "call 0.0 mkdir /a",
    "call 0.0 create /a",
    "call 0.0 create /a 4294967296 -1",
    "call 0.0 create /a 0 1000",
    "call 0.0 link /a /b",
    "call 0.0 unlink /a",
    "call 0.0 rmdir /a",
    "call 0.0 rename /a /b",
    "call 0.0 chmod /a 7777",
    "call 0.0 chmod /a 0",
    "call 0.3 open 15 /",
    "call 0.0 open 0 /...",
    "call 0.0 close 0",
    "call 0.0 read 0 0 65536",
    "call 0.0 read 0 1099511627775 1",
    "call 0.0 write 0 1099511627775 61",
    "call 0.0 write 0 1099511562240 61*65536",
    "call 0.0 cut 0 1099511627776",
    "call 0.0 flush 0",
    "call 0.0 glimpse 0",
    "run",
    "run 65536",
    "deliver 1000000",
    "lose 1",
    "tick t1",
    "tick c0",
    "commit t0",
    "commit t0 65536",
    "crash t1",
    "boot t1",
    "close t1",
    "die c0",
];

/// Texts, and how their lines are printed.
const SPELLINGS: [(&str, &str); 9] = [
    ("", ""),
    ("# comment", ""),
    ("rounds 1000000", ""),
    ("\n#x\n  \n run   5  \n\n", "run 5\n"),
    ("call 0.0 chmod /a 0007", "call 0.0 chmod /a 7\n"),
    ("call 0.0 chmod /a 0755", "call 0.0 chmod /a 755\n"),
    ("call 0.0 write 0 0 61*1", "call 0.0 write 0 0 61\n"),
    ("call 0.0 write 0 0 6161", "call 0.0 write 0 0 61*2\n"),
    ("run\ntick c0\nrun 1", "run\ntick c0\nrun 1\n"),
];

/// Heads, and how they are printed.
const HEADS: [(&str, &str); 3] = [
    (
        "rounds 1\nunused 100000\ndirty 1073741824\nexpire 1000\nosts 8\nclients 16\nflight 8\nrun",
        "clients 16\nosts 8\nexpire 1000\ndirty 1073741824\nunused 100000\nrounds 1\nflight 8\nrun\n",
    ),
    (
        "dirty 4096\n\n#x\nexpire 1\nunused 1",
        "clients 1\nosts 1\nexpire 1\ndirty 4096\nunused 1\nrounds 1000000\nflight 1\n",
    ),
    (
        "clients 16\nosts 8\ncall 15.3 mkdir /a\ncrash t8\ndie c15",
        "clients 16\nosts 8\nexpire 8\ndirty 1048576\nunused 64\nrounds 1000000\nflight 1\ncall 15.3 mkdir /a\ncrash t8\ndie c15\n",
    ),
];

/// A text after the plain head.
fn after_plain_head(alloc: Global, lines: &str) -> Result<Bytes, Memory> {
    let mut text = Bytes::from_slice(alloc, PLAIN_HEAD.as_bytes())?;
    text.extend(lines.as_bytes())?;
    Ok(text)
}

/// The text of the scenario that a text is.
fn printed(alloc: Global, text: &[u8]) -> Result<Bytes, SceneFault> {
    let scene = read_scene(alloc, text)?;
    match print_scene(alloc, &scene) {
        Ok(out) => Ok(out),
        Err(_) => Err(SceneFault::Memory),
    }
}

#[test]
fn a_line_is_printed_as_it_stands(rt: HostRuntime) -> Result<(), Fail> {
    let alloc = rt.alloc();
    for line in LINES {
        let mut want = after_plain_head(alloc, line)?;
        want.push(b'\n')?;
        let out = printed(alloc, line.as_bytes())?;
        assert!(rt; out.as_slice() == want.as_slice(), "{line}");
    }
    Ok(())
}

#[test]
fn other_spellings_are_printed_alike(rt: HostRuntime) -> Result<(), Fail> {
    let alloc = rt.alloc();
    for (text, lines) in SPELLINGS {
        let want = after_plain_head(alloc, lines)?;
        let out = printed(alloc, text.as_bytes())?;
        assert!(rt; out.as_slice() == want.as_slice(), "{text}");
    }
    Ok(())
}

#[test]
fn a_head_is_printed_whole(rt: HostRuntime) -> Result<(), Fail> {
    for (text, want) in HEADS {
        let out = printed(rt.alloc(), text.as_bytes())?;
        assert!(rt; out.as_slice() == want.as_bytes(), "{text}");
    }
    Ok(())
}

/// The beginning of a text, a byte and how often it follows, and the fault of the first line.
const LENGTHS: [(&str, u8, usize, Option<Fault>); 4] = [
    ("run", b' ', 1997, None),
    ("run", b' ', 1998, Some(Fault::Line)),
    ("call 0.0 mkdir /", b'a', 1023, None),
    ("call 0.0 mkdir /", b'a', 1024, Some(Fault::Path)),
];

/// A text: a beginning, and a byte as often as said.
fn filled(alloc: Global, start: &str, byte: u8, count: usize) -> Result<Bytes, Memory> {
    let mut text = Bytes::from_slice(alloc, start.as_bytes())?;
    for _ in 0..count {
        text.push(byte)?;
    }
    Ok(text)
}

#[test]
fn lines_and_paths_have_a_greatest_length(rt: HostRuntime) -> Result<(), Fail> {
    let alloc = rt.alloc();
    for (start, byte, count, fault) in LENGTHS {
        let text = filled(alloc, start, byte, count)?;
        let wrong = read_scene(alloc, text.as_slice()).err();
        let want = fault.map(|fault| SceneFault::Bad { line: 1, fault });
        assert!(rt; wrong == want, "{start} {count}");
    }
    Ok(())
}

#[test]
fn faults_are_worded(rt: HostRuntime) -> Result<(), Fail> {
    let alloc = rt.alloc();
    let fault = SceneFault::Bad {
        line: 3,
        fault: Fault::UnknownLine,
    };
    let said = format!(in alloc; "{fault}")?;
    assert!(rt; said.as_str() == "scene 3 UnknownLine");
    Ok(())
}
