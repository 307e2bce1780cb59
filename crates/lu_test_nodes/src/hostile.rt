//! What no client sends, and disks that fail. The lines that must come were worked out by hand from the rules of a target's turns.

use super::runs::Run;
use super::said::{A, Asked, B, Comes, FIRST, Said};
use super::targets::played;
use lu_base::{Extent, Mode, TargetId, Who};
use std::test::Fail;

/// The second life of client 0, and a life of a client that there isn't.
const NEXT: Who = Who { client: 0, life: 2 };

const STRANGER: Who = Who { client: 5, life: 1 };

/// The metadata target of a run with two clients.
const NAMES: Run = Run {
    id: TargetId(0),
    clients: 2,
    osts: 1,
    expire: 8,
};

/// The same with one client.
const OF_ONE: Run = Run {
    id: TargetId(0),
    clients: 1,
    osts: 1,
    expire: 8,
};

/// The object storage target of a run with one client.
const OBJECTS: Run = Run {
    id: TargetId(1),
    clients: 1,
    osts: 1,
    expire: 8,
};

/// To a target that serves: what a target says; tags, operations, lives and boots that there aren't; what belongs to recovery;
/// locks that there aren't.
const SERVING: [(u64, Comes); 14] = [
    (1, Comes::Says(Said::Up(3))),
    (
        2,
        Comes::Says(Said::Request(A, 1, 1, 8, Asked::Mkdir(b"a"))),
    ),
    (
        3,
        Comes::Says(Said::Request(A, 1, 1, 0, Asked::Put(FIRST, 0, b"a"))),
    ),
    (
        4,
        Comes::Says(Said::Request(STRANGER, 1, 1, 9, Asked::Mkdir(b"a"))),
    ),
    (
        5,
        Comes::Says(Said::Request(NEXT, 1, 1, 0, Asked::Mkdir(b"a"))),
    ),
    (
        6,
        Comes::Says(Said::Request(STRANGER, 0, 1, 0, Asked::Mkdir(b"a"))),
    ),
    (
        7,
        Comes::Says(Said::Request(A, 7, 1, 0, Asked::Mkdir(b"a"))),
    ),
    (
        8,
        Comes::Says(Said::Request(A, 1, 1, 0, Asked::Rmdir(b"a"))),
    ),
    (
        9,
        Comes::Says(Said::Request(A, 1, 0, 0, Asked::Rmdir(b"a"))),
    ),
    (
        10,
        Comes::Says(Said::Replay(A, 1, FIRST, 1, 0, Asked::Mkdir(b"a"))),
    ),
    (12, Comes::Says(Said::Word(A, 1, 7, 0, None))),
    (13, Comes::Says(Said::Cancel(B, 1, 0x9_0000_0009))),
    (14, Comes::Says(Said::Size(1, 5))),
    (15, Comes::Says(Said::Join(Who { client: 0, life: 0 }, 1))),
];

const SERVING_TEXT: &[u8] = b"1 t0 take 0
refused
refused
4 t0 take 0
4 t0 send 0 c5 evicted c5.1 1
5 t0 take 0
5 t0 send 0 c0 evicted c0.2 1
6 t0 take 0
6 t0 send 0 c5 up 1
7 t0 take 0
7 t0 txn 1.1 c0.1 1 - ok 1.1
7 t0 send 0 c0 reply c0.1 1 1 1.1 0.0 - 7:t0 - ok 1.1
8 t0 take 0
8 t0 send 0 c0 reply c0.1 1 1 1.1 0.0 - 7:t0 - ok 1.1
9 t0 take 0
10 t0 take 0
12 t0 take 0
12 t0 send 0 c0 ready c0.1 1 0.0
13 t0 take 0
14 t0 take 0
15 t0 take 0
15 t0 send 0 c0 evicted c0.0 1
";

/// To a target that recovers: numbers and cookies of its own boot, a number too low, another life's number, a lock that no
/// names have, and a word that promises more than comes.
const RECOVERING: [(u64, Comes); 23] = [
    (
        2,
        Comes::Says(Said::Request(A, 1, 1, 0, Asked::Mkdir(b"a"))),
    ),
    (3, Comes::Crash),
    (4, Comes::Boot),
    (
        5,
        Comes::Says(Said::Request(A, 2, 2, 9, Asked::Put(FIRST, 0, b"a"))),
    ),
    (
        6,
        Comes::Says(Said::Replay(A, 2, 0x2_0000_0001, 1, 0, Asked::Mkdir(b"a"))),
    ),
    (
        7,
        Comes::Says(Said::Replay(A, 2, 1, 1, 0, Asked::Mkdir(b"a"))),
    ),
    (
        8,
        Comes::Says(Said::Replay(A, 2, FIRST, 1, 8, Asked::Mkdir(b"a"))),
    ),
    (9, Comes::Says(Said::Replay(A, 2, FIRST, 1, 0, Asked::Size))),
    (
        10,
        Comes::Says(Said::Replay(A, 2, FIRST, 1, 0, Asked::Mkdir(b"a"))),
    ),
    (
        11,
        Comes::Says(Said::Replay(B, 2, FIRST, 1, 0, Asked::Mkdir(b"b"))),
    ),
    (
        12,
        Comes::Says(Said::Replay(A, 2, FIRST, 1, 0, Asked::Mkdir(b"b"))),
    ),
    (
        13,
        Comes::Says(Said::Replay(A, 3, 0x2_0000_0001, 1, 0, Asked::Mkdir(b"a"))),
    ),
    (14, Comes::Says(Said::Lock(A, 0x2_0000_0001, Mode::PR))),
    (15, Comes::Says(Said::Lock(A, FIRST, Mode::EX))),
    (16, Comes::Says(Said::Lock(A, FIRST, Mode::PR))),
    (17, Comes::Says(Said::Lock(B, FIRST, Mode::PR))),
    (18, Comes::Says(Said::Word(A, 2, 2, 1, None))),
    (19, Comes::Says(Said::Word(A, 2, 1, 1, None))),
    (20, Comes::Says(Said::Word(B, 2, 0, 0, Some(FIRST)))),
    (21, Comes::Commit),
    (22, Comes::Tick),
    (23, Comes::Close),
    (24, Comes::Close),
];

const RECOVERING_TEXT: &[u8] = b"2 t0 take 0
2 t0 txn 1.1 c0.1 1 - ok 1.1
2 t0 send 0 c0 reply c0.1 1 1 1.1 0.0 - 2:t0 - ok 1.1
4 t0 boot 2
4 t0 send 0 c0 up 2
4 t0 send 0 c1 up 2
5 t0 take 0
refused
refused
refused
refused
10 t0 take 0
refused
12 t0 take 0
13 t0 take 0
refused
refused
16 t0 take 0
refused
18 t0 take 0
19 t0 take 0
20 t0 take 0
20 t0 back c1.1
21 t0 skip
22 t0 tick
23 t0 close
23 t0 commit 0.0
23 t0 evict c0.1 absent
23 t0 send 0 c0 evicted c0.1 2
23 t0 evict c1.1 gap
23 t0 send 0 c1 evicted c1.1 2
24 t0 skip
";

/// To an object storage target: names, ranges that end before they begin or too late, and locks that there aren't.
const STRAY: [(u64, Comes); 8] = [
    (
        1,
        Comes::Says(Said::Request(A, 1, 1, 0, Asked::Mkdir(b"a"))),
    ),
    (
        2,
        Comes::Says(Said::Request(
            A,
            1,
            1,
            0,
            Asked::Enqueue(Mode::PW, Extent { first: 9, last: 8 }),
        )),
    ),
    (
        3,
        Comes::Says(Said::Request(A, 1, 1, 0, Asked::Get(FIRST, 268_435_456))),
    ),
    (
        4,
        Comes::Says(Said::Request(A, 1, 1, 0, Asked::Cut(FIRST, 1_099_511_627_777))),
    ),
    (
        5,
        Comes::Says(Said::Request(A, 1, 1, 0, Asked::Put(FIRST, 1_099_511_627_776, b"a"))),
    ),
    (
        6,
        Comes::Says(Said::Request(A, 1, 1, 0, Asked::Put(FIRST, 0, b"a"))),
    ),
    (
        7,
        Comes::Says(Said::Request(A, 1, 2, 0, Asked::Get(FIRST, 0))),
    ),
    (8, Comes::Says(Said::Size(9, 77))),
];

const STRAY_TEXT: &[u8] = b"refused
refused
refused
refused
refused
6 t1 take 0
6 t1 send 0 c0 reply c0.1 1 1 0.0 0.0 - 6:t1 - uncovered
7 t1 take 0
7 t1 send 0 c0 reply c0.1 1 2 0.0 0.0 - 7:t1 - uncovered
8 t1 take 0
";

/// A change that waits comes again with another tag, and no read passes it.
const WAITING: [(u64, Comes); 8] = [
    (
        1,
        Comes::Says(Said::Request(A, 1, 1, 0, Asked::Mkdir(b"a"))),
    ),
    (
        2,
        Comes::Says(Said::Request(B, 1, 1, 0, Asked::Lookup(b"a"))),
    ),
    (
        3,
        Comes::Says(Said::Request(A, 1, 2, 0, Asked::Rmdir(b"a"))),
    ),
    (
        4,
        Comes::Says(Said::Request(A, 1, 2, 1, Asked::Rmdir(b"a"))),
    ),
    (
        5,
        Comes::Says(Said::Request(A, 1, 2, 0, Asked::Rmdir(b"a"))),
    ),
    (
        6,
        Comes::Says(Said::Request(A, 1, 3, 1, Asked::Lookup(b"b"))),
    ),
    (7, Comes::Says(Said::Cancel(A, 1, FIRST))),
    (8, Comes::Says(Said::Cancel(B, 1, FIRST))),
];

const WAITING_TEXT: &[u8] = b"1 t0 take 0
1 t0 txn 1.1 c0.1 1 - ok 1.1
1 t0 send 0 c0 reply c0.1 1 1 1.1 0.0 - 1:t0 - ok 1.1
2 t0 take 0
2 t0 act c1.1 1 dir 1.1
2 t0 grant 1.1 c1.1 1.1 PR 1
2 t0 send 0 c1 reply c1.1 1 1 0.0 0.0 1.1 2:t0 1.1:1.1:1 dir 1.1
3 t0 take 0
3 t0 block 1.1
3 t0 send 0 c1 block c1.1 1 1.1
refused
5 t0 take 0
6 t0 take 0
7 t0 take 0
8 t0 take 0
8 t0 release 1.1
8 t0 txn 1.2 c0.1 2 1.1 ok
8 t0 send 0 c0 reply c0.1 1 2 1.2 0.0 1.1 8:t0 - ok
8 t0 act c0.1 3 ENOENT
8 t0 send 0 c0 reply c0.1 1 3 0.0 0.0 - 8:t0 - ENOENT
";

#[test]
fn what_no_client_sends_is_refused_or_does_little(rt: HostRuntime) -> Result<(), Fail> {
    let serving = played(rt.alloc(), NAMES, None, &SERVING)?;
    assert_eq!(rt; serving.as_slice(), SERVING_TEXT);
    let recovering = played(rt.alloc(), NAMES, None, &RECOVERING)?;
    assert_eq!(rt; recovering.as_slice(), RECOVERING_TEXT);
    let stray = played(rt.alloc(), OBJECTS, None, &STRAY)?;
    assert_eq!(rt; stray.as_slice(), STRAY_TEXT);
    let waiting = played(rt.alloc(), NAMES, None, &WAITING)?;
    assert_eq!(rt; waiting.as_slice(), WAITING_TEXT);
    Ok(())
}

/// The call of a disk that fails, counted from 0, what comes to the target over it, and the lines up to the turn in which that
/// ends: each begin loads the disk and commits to it.
const FAILING: [(u64, &[(u64, Comes)], &[u8]); 6] = [
    (0, &[], b"1 t0 fail\n"),
    (1, &[], b"1 t0 fail\n"),
    (
        2,
        &[
            (
                2,
                Comes::Says(Said::Request(A, 1, 1, 0, Asked::Mkdir(b"a"))),
            ),
            (3, Comes::Commit),
        ],
        b"2 t0 take 0
2 t0 txn 1.1 c0.1 1 - ok 1.1
2 t0 send 0 c0 reply c0.1 1 1 1.1 0.0 - 2:t0 - ok 1.1
3 t0 fail
",
    ),
    (
        2,
        &[(2, Comes::Says(Said::Join(NEXT, 1)))],
        b"2 t0 take 0\n2 t0 fail\n",
    ),
    (3, &[(2, Comes::Crash), (3, Comes::Boot)], b"3 t0 fail\n"),
    (
        4,
        &[
            (2, Comes::Crash),
            (3, Comes::Boot),
            (4, Comes::Says(Said::Word(A, 2, 0, 0, None))),
        ],
        b"3 t0 boot 2
3 t0 send 0 c0 up 2
4 t0 take 0
4 t0 back c0.1
4 t0 close
4 t0 fail
",
    ),
];

#[test]
fn a_turn_ends_where_the_disk_fails(rt: HostRuntime) -> Result<(), Fail> {
    for (failing, all, text) in FAILING {
        let out = played(rt.alloc(), OF_ONE, Some(failing), all)?;
        assert_eq!(rt; out.as_slice(), text);
    }
    Ok(())
}
