//! Texts that are read and printed as they stand.

use lu_base::{Bytes, Memory};
use lu_judge_reader::{ReadFault, read_trace};
use lu_trace::render;
use std::alloc::Global;
use std::test::Fail;

/// A line of each form.
const LINES: [&str; 96] = [
    "1 c0 begin 0 lookup /",
    "1 c0 begin 3 stat /a",
    "1 c0 begin 0 list /a/b",
    "1 c0 begin 0 layout /a",
    "1 c0 begin 0 mkdir /...",
    "1 c0 begin 0 create /a 4294967296 -1",
    "1 c0 begin 0 create /a 0 1000",
    "1 c0 begin 0 link /a /b",
    "1 c0 begin 0 unlink /a",
    "1 c0 begin 0 rmdir /a",
    "1 c0 begin 0 rename /a /b",
    "1 c0 begin 0 chmod /a 7777",
    "1 c0 begin 0 chmod /a 0",
    "1 c0 begin 0 open 15 /",
    "1 c0 begin 0 close 0",
    "1 c0 begin 0 read 0 1099511627775 1",
    "1 c0 begin 0 write 0 1099511562240 61*65536",
    "1 c0 begin 0 write 0 0 6162",
    "1 c0 begin 0 cut 0 1099511627776",
    "1 c0 begin 0 flush 0",
    "1 c0 begin 255 glimpse 0",
    "1 c65535 busy 255",
    "18446744073709551615 t65535 skip",
    "1 c0 send 1 t0 req c0.1 1 1 lookup /a",
    "1 c0 send 1 t0 req c0.1 1 1/7 stat /a",
    "1 c0 send 1 t0 req c0.1 1 1/255 list /",
    "1 c0 send 1 t0 req c0.1 1 1 layout /a",
    "1 c0 send 1 t0 req c0.1 1 1 mkdir /a",
    "1 c0 send 1 t0 req c0.1 1 1 create /a 1048576 1",
    "1 c0 send 1 t0 req c0.1 1 1 link /a /b",
    "1 c0 send 1 t0 req c0.1 1 1 unlink /a",
    "1 c0 send 1 t0 req c0.1 1 1 rmdir /a",
    "1 c0 send 1 t0 req c0.1 1 1 rename /a /b",
    "1 c0 send 1 t0 req c0.1 1 1 chmod /a 755",
    "1 c0 send 1 t0 req c0.1 1 1 open /a",
    "1 c0 send 1 t0 req c0.1 1 1 close 1.2 1.1",
    "1 c0 send 1 t1 req c0.1 1 1 enqueue 1.1/0 PW 0-end",
    "1 c0 send 1 t1 req c0.1 1 1 get 1.1/65535 4294967295.4294967295 268435455",
    "1 c0 send 1 t1 req c0.1 1 1 put 1.1/0 1.1 0 -",
    "1 c0 send 1 t1 req c0.1 1 1 put 1.1/0 1.1 0 61*70000",
    "1 c0 send 1 t1 req c0.1 1 1 cut 1.1/0 1.1 1099511627776",
    "1 c0 send 1 t1 req c0.1 1 1 size 1.1/0",
    "1 c0 send 1 t1 cancel c0.1 1 1.1",
    "1 c0 send 1 t1 where c0.1 1 1.1",
    "1 c0 send 1 t0 replay c0.1 2 1.2 1/3 1.1,1.2 mkdir /b",
    "1 c0 send 1 t0 lock c0.1 2 1.1 1.1 PR 1",
    "1 c0 send 1 t1 lock c0.1 2 1.1 1.1/0 CW 5-9",
    "1 c0 send 1 t0 word c0.1 2 0 1 1.1",
    "1 c0 send 1 t0 join c0.2 4294967295",
    "1 c0 send 1 t1 size c0.1 1 1.1 c1.1 7 -",
    "1 c0 send 1 t1 size c0.1 1 1.1 c1.1 7 0",
    "1 t0 send 1 c0 up 2",
    "1 t0 send 1 c0 reply c0.1 1 1 1.1 0.0 - 2:t0 - ok 1.1",
    "1 t0 send 1 c0 reply c0.1 1 1 0.0 0.0 1.1 6:t0 1.1:1.1:1,1.2:1.1:255 dir 1.1",
    "1 t1 send 1 c0 grant c0.1 1 1.2 0-end 2 0.0 1.1",
    "1 t1 send 1 c0 block c0.1 1 1.1",
    "1 t1 send 1 c0 ask c0.1 1 1.1 c1.1 7",
    "1 t0 send 1 c0 ready c0.1 2 1.2",
    "1 t0 send 1 c0 evicted c0.1 2",
    "1 t0 take 18446744073709551615",
    "1 t0 tick",
    "1 c0 heard t65535 1",
    "1 c0 hold t1 1.1",
    "1 c0 drop t1 1.1",
    "1 c0 told 0 2:t0 ok",
    "1 c0 peek t1 1.1 0",
    "1 c0 life c0.2",
    "1 c0 die",
    "1 t0 act c0.1 1 file 1.1",
    "1 t0 act c0.1 1 dir 0.1 177777",
    "1 t0 act c0.1 1 file 1.1 644 1 65536:2,1",
    "1 c0 told 0 2:t0 file 1.1 0 0 18446744073709551615",
    "1 t0 act c0.1 1 names 0",
    "1 t0 act c0.1 1 names 2 a ...",
    "1 t0 act c0.1 1 layout 4294901760:0,1,2,3,4,5,6,65535",
    "1 t0 txn 1.2 c0.1 2 1.1 open 1.1 1.2 1048576:1",
    "1 t1 act c0.1 1 granted 1.1 0-end 0",
    "1 t1 act c0.1 1 waiting 1.2",
    "1 c0 told 0 2:c0 content -",
    "1 c0 told 0 2:c0 content 00ff",
    "1 t1 act c0.1 1 size 5",
    "1 t1 act c0.1 1 lock",
    "1 c0 told 0 2:c0 sizes -",
    "1 c0 told 0 2:c0 sizes 0,18446744073709551615",
    "1 t1 act c0.1 1 uncovered",
    "1 t0 act c0.1 1 ENAMETOOLONG",
    "1 t0 grant 1.1 c1.1 1.1 PR 1",
    "1 t1 wait 1.2 c1.1 1.1/0 EX 0-18446744073709551614",
    "1 t1 block 1.1",
    "1 t1 release 1.1",
    "1 t0 commit 0.0",
    "1 t0 boot 2",
    "1 t0 kept 1.2",
    "1 t1 restore 1.1 c1.1 1.1/0 NL 9-0",
    "1 t0 evict c0.1 replaced",
    "1 t0 joined c1.2",
];

/// Whole texts.
const TEXTS: [&str; 7] = [
    "end\n",
    "end 2\n",
    "end limit\n",
    "end limit 8\n",
    "end fault\n",
    "1 t0 crash\n2 t0 boot 2\n2 t0 back c1.1\n3 t0 close\n3 t0 evict c0.1 absent\nend fault 3\n",
    "5 t0 fail\n1 t0 close\nend\n",
];

/// The text of the trace that a text is.
fn printed(alloc: Global, text: &[u8]) -> Result<Bytes, ReadFault> {
    let (trace, end) = read_trace(alloc, text)?;
    Ok(render(alloc, &trace, end)?)
}

/// A text of one line and a last one.
fn ended(alloc: Global, line: &str) -> Result<Bytes, Memory> {
    let mut text = Bytes::from_slice(alloc, line.as_bytes())?;
    text.extend(b"\nend\n")?;
    Ok(text)
}

#[test]
fn a_line_is_printed_as_it_stands(rt: HostRuntime) -> Result<(), Fail> {
    let alloc = rt.alloc();
    for line in LINES {
        let text = ended(alloc, line)?;
        let out = printed(alloc, text.as_slice())?;
        assert!(rt; out.as_slice() == text.as_slice(), "{line}");
    }
    Ok(())
}

#[test]
fn a_text_is_printed_as_it_stands(rt: HostRuntime) -> Result<(), Fail> {
    let alloc = rt.alloc();
    for text in TEXTS {
        let out = printed(alloc, text.as_bytes())?;
        assert!(rt; out.as_slice() == text.as_bytes(), "{text}");
    }
    Ok(())
}
