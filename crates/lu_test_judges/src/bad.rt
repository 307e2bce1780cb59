//! Texts that are none of a trace, and their first bad line.

use lu_judge_reader::{ReadFault, read_trace};

/// Texts, and the line that no text of a well formed trace has there.
const TEXTS: [(&str, u64); 50] = [
    ("", 1),
    ("\n", 1),
    ("end", 1),
    ("end 1\n", 1),
    ("end 9\n", 1),
    ("end 02\n", 1),
    ("end  2\n", 1),
    ("end 2 limit\n", 1),
    ("end \n", 1),
    ("end\n\n", 2),
    ("end\nend\n", 2),
    ("end\n1 t0 tick", 2),
    ("1 t0 tick", 1),
    ("1 t0 tick\n", 2),
    ("1 t0 tick\nend", 2),
    ("1 t0 tick\n2 t0 tick\n3 t0 fly\nend\n", 3),
    (" 1 t0 tick\nend\n", 1),
    ("1  t0 tick\nend\n", 1),
    ("1 t0 tick \nend\n", 1),
    ("1 t0 tick\r\nend\n", 1),
    ("01 t0 tick\nend\n", 1),
    ("18446744073709551616 t0 tick\nend\n", 1),
    ("1 t65536 tick\nend\n", 1),
    ("1 x0 tick\nend\n", 1),
    ("1 c0 begin 0 create /a\nend\n", 1),
    ("1 c0 begin 256 close 0\nend\n", 1),
    ("1 c0 begin 0 close 16\nend\n", 1),
    ("1 c0 begin 0 chmod /a 07\nend\n", 1),
    ("1 c0 begin 0 chmod /a 10000\nend\n", 1),
    ("1 c0 begin 0 write 0 0 6161\nend\n", 1),
    ("1 c0 begin 0 write 0 0 -\nend\n", 1),
    ("1 c0 begin 0 write 0 0 6A\nend\n", 1),
    ("1 c0 begin 0 read 0 1099511627776 1\nend\n", 1),
    ("1 c0 send 1 t0 req c0.1 1 1/0 list /\nend\n", 1),
    ("1 c0 send 1 t0 req c0.1 1 1/256 list /\nend\n", 1),
    (
        "1 c0 send 1 t1 req c0.1 1 1 get 1.1/0 1.1 268435456\nend\n",
        1,
    ),
    (
        "1 c0 send 1 t1 req c0.1 1 1 put 1.1/0 1.1 1099511627776 61\nend\n",
        1,
    ),
    ("1 t0 send 1 t1 destroy 1 1.1/0\nend\n", 1),
    ("1 t0 send 1 c0 up 4294967296\nend\n", 1),
    ("1 t0 commit 4294967296.0\nend\n", 1),
    ("1 t1 wait 1.2 c1.1 1.1/0 PR 1\nend\n", 1),
    ("1 t1 wait 1.2 c1.1 1.1 PR 0-end\nend\n", 1),
    (
        "1 t1 wait 1.2 c1.1 1.1/0 PR 0-18446744073709551615\nend\n",
        1,
    ),
    ("1 t0 act c0.1 1 names 1\nend\n", 1),
    ("1 t0 act c0.1 1 names 1 ..\nend\n", 1),
    ("1 t0 act c0.1 1 layout 65536:1,1\nend\n", 1),
    ("1 t0 act c0.1 1 layout 65535:1\nend\n", 1),
    ("1 t0 act c0.1 1 layout 65536:\nend\n", 1),
    ("1 t0 tick\n1 t0 act c0.1 1 ok ok\nend\n", 2),
    ("1 t0 evict c0.1 away\nend\n", 1),
];

#[test]
fn a_bad_text_has_its_first_bad_line(rt: HostRuntime) {
    for (text, line) in TEXTS {
        let wrong = read_trace(rt.alloc(), text.as_bytes()).err();
        assert!(rt; wrong == Some(ReadFault::Line(line)), "{text}");
    }
}
