//! Each public call of a target once, and both services: what comes to a target in four runs, and the lines that it has in the
//! traces of them that another implementation made, where the numbers of the messages are 0 and the crashes have no line.

use super::runs::Run;
use super::said::{A, Asked, B, Comes, FIRST, SECOND, Said};
use super::targets::played;
use lu_base::{Extent, Mode, TargetId};
use std::test::Fail;

const fn run(id: u16, clients: u16) -> Run {
    Run {
        id: TargetId(id),
        clients,
        osts: 1,
        expire: 8,
    }
}

/// `scenarios/one-client`, at the metadata target.
const ONE_CLIENT: [(u64, Comes); 4] = [
    (
        2,
        Comes::Says(Said::Request(A, 1, 1, 0, Asked::Mkdir(b"a"))),
    ),
    (
        5,
        Comes::Says(Said::Request(A, 1, 2, 0, Asked::Mkdir(b"a"))),
    ),
    (
        8,
        Comes::Says(Said::Request(A, 1, 3, 0, Asked::Lookup(b"b"))),
    ),
    (
        11,
        Comes::Says(Said::Request(A, 1, 4, 0, Asked::Rmdir(b"a"))),
    ),
];

const ONE_CLIENT_TEXT: &[u8] = b"2 t0 take 0
2 t0 txn 1.1 c0.1 1 - ok 1.1
2 t0 send 0 c0 reply c0.1 1 1 1.1 0.0 - 2:t0 - ok 1.1
5 t0 take 0
5 t0 act c0.1 2 EEXIST
5 t0 send 0 c0 reply c0.1 1 2 0.0 0.0 1.1 5:t0 - EEXIST
8 t0 take 0
8 t0 act c0.1 3 ENOENT
8 t0 send 0 c0 reply c0.1 1 3 0.0 0.0 - 8:t0 - ENOENT
11 t0 take 0
11 t0 txn 1.2 c0.1 4 1.1 ok
11 t0 send 0 c0 reply c0.1 1 4 1.2 0.0 1.1 11:t0 - ok
";

/// `scenarios/reply-lost-committed-then-crash`, at the metadata target.
const REPLY_LOST: [(u64, Comes); 6] = [
    (
        2,
        Comes::Says(Said::Request(A, 1, 1, 0, Asked::Mkdir(b"a"))),
    ),
    (3, Comes::Commit),
    (4, Comes::Crash),
    (5, Comes::Boot),
    (7, Comes::Says(Said::Word(A, 2, 0, 0, None))),
    (
        9,
        Comes::Says(Said::Request(A, 2, 1, 0, Asked::Mkdir(b"a"))),
    ),
];

const REPLY_LOST_TEXT: &[u8] = b"2 t0 take 0
2 t0 txn 1.1 c0.1 1 - ok 1.1
2 t0 send 0 c0 reply c0.1 1 1 1.1 0.0 - 2:t0 - ok 1.1
3 t0 commit 1.1
5 t0 boot 2
5 t0 send 0 c0 up 2
7 t0 take 0
7 t0 back c0.1
7 t0 close
7 t0 commit 1.1
7 t0 send 0 c0 ready c0.1 2 1.1
9 t0 take 0
9 t0 send 0 c0 reply c0.1 2 1 1.1 1.1 - 2:t0 - ok 1.1
";

/// Commands that come to a metadata target at any time, and a life that isn't back in time.
const COMMANDS: [(u64, Comes); 10] = [
    (2, Comes::Commit),
    (3, Comes::Close),
    (5, Comes::Tick),
    (6, Comes::Crash),
    (11, Comes::Boot),
    (13, Comes::Commit),
    (14, Comes::Tick),
    (15, Comes::Close),
    (16, Comes::Close),
    (19, Comes::Says(Said::Word(A, 2, 0, 0, None))),
];

const COMMANDS_TEXT: &[u8] = b"2 t0 skip
3 t0 skip
5 t0 tick
11 t0 boot 2
11 t0 send 0 c0 up 2
13 t0 skip
14 t0 tick
15 t0 close
15 t0 commit 0.0
15 t0 evict c0.1 absent
15 t0 send 0 c0 evicted c0.1 2
16 t0 skip
19 t0 take 0
19 t0 send 0 c0 evicted c0.1 2
";

/// `scenarios/write-then-read`, at the object storage target.
const WRITE_THEN_READ: [(u64, Comes); 5] = [
    (
        11,
        Comes::Says(Said::Request(
            A,
            1,
            1,
            0,
            Asked::Enqueue(Mode::PW, Extent { first: 0, last: 1 }),
        )),
    ),
    (
        14,
        Comes::Says(Said::Request(
            B,
            1,
            1,
            0,
            Asked::Enqueue(Mode::PR, Extent { first: 0, last: 7 }),
        )),
    ),
    (
        17,
        Comes::Says(Said::Request(A, 1, 2, 0, Asked::Put(FIRST, 0, b"hi"))),
    ),
    (19, Comes::Says(Said::Cancel(A, 1, FIRST))),
    (
        21,
        Comes::Says(Said::Request(B, 1, 2, 0, Asked::Get(SECOND, 0))),
    ),
];

const WRITE_THEN_READ_TEXT: &[u8] = b"11 t1 take 0
11 t1 grant 1.1 c0.1 1.1/0 PW 0-end
11 t1 send 0 c0 reply c0.1 1 1 0.0 0.0 - 11:t1 - granted 1.1 0-end 0
14 t1 take 0
14 t1 wait 1.2 c1.1 1.1/0 PR 0-7
14 t1 send 0 c1 reply c1.1 1 1 0.0 0.0 - 14:t1 - waiting 1.2
14 t1 block 1.1
14 t1 send 0 c0 block c0.1 1 1.1
17 t1 take 0
17 t1 txn 1.1 c0.1 2 - ok
17 t1 send 0 c0 reply c0.1 1 2 1.1 0.0 - 17:t1 - ok
19 t1 take 0
19 t1 release 1.1
19 t1 grant 1.2 c1.1 1.1/0 PR 0-end
19 t1 send 0 c1 grant c1.1 1 1.2 0-end 2 0.0 1.1
21 t1 take 0
21 t1 send 0 c1 reply c1.1 1 2 0.0 0.0 1.1 21:t1 - content 6869
";

#[test]
fn a_target_writes_the_lines_of_its_traces(rt: HostRuntime) -> Result<(), Fail> {
    let one = played(rt.alloc(), run(0, 1), None, &ONE_CLIENT)?;
    assert_eq!(rt; one.as_slice(), ONE_CLIENT_TEXT);
    let lost = played(rt.alloc(), run(0, 1), None, &REPLY_LOST)?;
    assert_eq!(rt; lost.as_slice(), REPLY_LOST_TEXT);
    let commanded = played(rt.alloc(), run(0, 1), None, &COMMANDS)?;
    assert_eq!(rt; commanded.as_slice(), COMMANDS_TEXT);
    let read = played(rt.alloc(), run(1, 2), None, &WRITE_THEN_READ)?;
    assert_eq!(rt; read.as_slice(), WRITE_THEN_READ_TEXT);
    Ok(())
}
