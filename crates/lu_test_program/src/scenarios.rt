//! Scenarios and their traces. Longer ones stand in `scenarios/`, where the gate performs them.

use crate::running::performed;
use std::test::Fail;

/// A client that died: its lines are passed over, and the reply to it is thrown away, which is no turn.
const DEAD: (&[u8], &[u8]) = (
    b"call 0.0 mkdir /a
die c0
call 0.1 mkdir /b
tick c0
run 1
run
tick t0
",
    b"1 c0 begin 0 mkdir /a
1 c0 send 1 t0 req c0.1 1 1 mkdir /a
2 c0 die
3 t0 take 1
3 t0 txn 1.1 c0.1 1 - ok 1.1
3 t0 send 2 c0 reply c0.1 1 1 1.1 0.0 - 3:t0 - ok 1.1
4 t0 tick
end
",
);

/// A message that is thrown away isn't one of those that `run 1` counts, and stays thrown away when it is
/// delivered.
const THROWN: (&[u8], &[u8]) = (
    b"clients 2
call 0.0 mkdir /a
call 1.0 mkdir /b
run 2
die c0
run 1
deliver 3
tick t0
",
    b"1 c0 begin 0 mkdir /a
1 c0 send 1 t0 req c0.1 1 1 mkdir /a
2 c1 begin 0 mkdir /b
2 c1 send 2 t0 req c1.1 1 1 mkdir /b
3 t0 take 1
3 t0 txn 1.1 c0.1 1 - ok 1.1
3 t0 send 3 c0 reply c0.1 1 1 1.1 0.0 - 3:t0 - ok 1.1
4 t0 take 2
4 t0 txn 1.2 c1.1 1 - ok 1.2
4 t0 send 4 c1 reply c1.1 1 1 1.2 0.0 - 4:t0 - ok 1.2
5 c0 die
6 c1 take 4
6 c1 heard t0 1
6 c1 told 0 4:t0 ok 1.2
7 t0 tick
end
",
);

/// A lost message comes where it is delivered.
const LOST: (&[u8], &[u8]) = (
    b"call 0.0 mkdir /a
lose 1
run
deliver 1
lose 2
deliver 2
",
    b"1 c0 begin 0 mkdir /a
1 c0 send 1 t0 req c0.1 1 1 mkdir /a
2 t0 take 1
2 t0 txn 1.1 c0.1 1 - ok 1.1
2 t0 send 2 c0 reply c0.1 1 1 1.1 0.0 - 2:t0 - ok 1.1
3 c0 take 2
3 c0 heard t0 1
3 c0 told 0 2:t0 ok 1.1
end
",
);

/// A name that was looked up is known, and a second lookup asks nobody.
const KNOWN: (&[u8], &[u8]) = (
    b"call 0.0 mkdir /a
run
call 0.0 lookup /a
run
call 0.0 lookup /a
",
    b"1 c0 begin 0 mkdir /a
1 c0 send 1 t0 req c0.1 1 1 mkdir /a
2 t0 take 1
2 t0 txn 1.1 c0.1 1 - ok 1.1
2 t0 send 2 c0 reply c0.1 1 1 1.1 0.0 - 2:t0 - ok 1.1
3 c0 take 2
3 c0 heard t0 1
3 c0 told 0 2:t0 ok 1.1
4 c0 begin 0 lookup /a
4 c0 send 3 t0 req c0.1 1 2 lookup /a
5 t0 take 3
5 t0 act c0.1 2 dir 1.1
5 t0 grant 1.1 c0.1 1.1 PR 1
5 t0 send 4 c0 reply c0.1 1 2 0.0 0.0 1.1 5:t0 1.1:1.1:1 dir 1.1
6 c0 take 4
6 c0 heard t0 2
6 c0 hold t0 1.1
6 c0 told 0 5:t0 dir 1.1
7 c0 begin 0 lookup /a
7 c0 told 0 7:c0 dir 1.1
end
",
);

/// A layout that no file has.
const LAYOUT: (&[u8], &[u8]) = (
    b"call 0.0 create /f 65535 1
run
",
    b"1 c0 begin 0 create /f 65535 1
1 c0 send 1 t0 req c0.1 1 1 create /f 65535 1
2 t0 take 1
2 t0 act c0.1 1 EINVAL
2 t0 send 2 c0 reply c0.1 1 1 0.0 0.0 - 2:t0 - EINVAL
3 c0 take 2
3 c0 heard t0 1
3 c0 told 0 2:t0 EINVAL
end
",
);

#[test]
fn scenarios_come_to_their_traces(rt: HostRuntime) -> Result<(), Fail> {
    let rows: [(&[u8], &[u8]); 15] = [
        DEAD,
        THROWN,
        LOST,
        KNOWN,
        LAYOUT,
        (b"tick t0\ntick t1\n", b"1 t0 tick\n2 t1 tick\nend\n"),
        (b"", b"end\n"),
        (b"\n  \n# nothing\nrun", b"end\n"),
        (
            b"osts 2\nexpire 3\ndirty 8192\nunused 2\nrounds 9\nrun 3\n",
            b"end 2\n",
        ),
        (b"deliver 9\nlose 3\n", b"end\n"),
        (
            b"call 0.0 mkdir /a\ncall 0.0 rmdir /a\n",
            b"1 c0 begin 0 mkdir /a\n1 c0 send 1 t0 req c0.1 1 1 mkdir /a\n2 c0 busy 0\nend\n",
        ),
        (
            b"  call   0.3 mkdir   /a\n run  1 \n",
            b"1 c0 begin 3 mkdir /a\n1 c0 send 1 t0 req c0.1 1 1 mkdir /a\n2 t0 take 1\n2 t0 txn 1.1 c0.1 1 - ok 1.1\n2 t0 send 2 c0 reply c0.1 1 1 1.1 0.0 - 2:t0 - ok 1.1\nend\n",
        ),
        (
            b"flight 2\ncall 0.0 mkdir /a\ncall 0.1 mkdir /b\n",
            b"1 c0 begin 0 mkdir /a\n1 c0 send 1 t0 req c0.1 1 1 mkdir /a\n2 c0 begin 1 mkdir /b\n2 c0 send 2 t0 req c0.1 1 2/1 mkdir /b\nend\n",
        ),
        (
            b"call 0.0 lookup /a\ncall 0.1 mkdir /a/b\n",
            b"1 c0 begin 0 lookup /a\n1 c0 send 1 t0 req c0.1 1 1 lookup /a\n2 c0 begin 1 mkdir /a/b\nend\n",
        ),
        (
            b"call 0.0 mkdir /\nlose 1\n",
            b"1 c0 begin 0 mkdir /\n1 c0 send 1 t0 req c0.1 1 1 mkdir /\nend\n",
        ),
    ];
    for (text, written) in rows {
        let came = performed(rt.alloc(), &["play"], text, &[], &[])?;
        assert_eq!(rt; came.code, 0);
        assert_eq!(rt; came.written.as_slice(), written);
    }
    Ok(())
}
