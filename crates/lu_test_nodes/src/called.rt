//! Each public call of a client once: what comes to client 0 in three runs, and the lines that it has in the traces of them that
//! another implementation made, where the numbers of the messages are 0.

use super::clients::{Called, Meets, played};
use super::said::{Answered, FIRST, SECOND, Said};
use lu_msg::Errno;
use std::test::Fail;

/// `scenarios/one-client`.
const ONE_CLIENT: [(u64, Meets); 8] = [
    (1, Meets::Call(0, Called::Mkdir(b"a"))),
    (
        3,
        Meets::Says(Said::Reply(1, FIRST, None, 2, Answered::Made(FIRST))),
    ),
    (4, Meets::Call(0, Called::Mkdir(b"a"))),
    (
        6,
        Meets::Says(Said::Reply(2, 0, Some(FIRST), 5, Answered::Refused(Errno::EEXIST))),
    ),
    (7, Meets::Call(0, Called::Lookup(b"b"))),
    (
        9,
        Meets::Says(Said::Reply(3, 0, None, 8, Answered::Refused(Errno::ENOENT))),
    ),
    (10, Meets::Call(0, Called::Rmdir(b"a"))),
    (
        12,
        Meets::Says(Said::Reply(4, SECOND, Some(FIRST), 11, Answered::Done)),
    ),
];

const ONE_CLIENT_TEXT: &[u8] = b"1 c0 begin 0 mkdir /a
1 c0 send 0 t0 req c0.1 1 1 mkdir /a
3 c0 take 0
3 c0 heard t0 1
3 c0 told 0 2:t0 ok 1.1
4 c0 begin 0 mkdir /a
4 c0 send 0 t0 req c0.1 1 2 mkdir /a
6 c0 take 0
6 c0 heard t0 2
6 c0 told 0 5:t0 EEXIST
7 c0 begin 0 lookup /b
7 c0 send 0 t0 req c0.1 1 3 lookup /b
9 c0 take 0
9 c0 heard t0 3
9 c0 told 0 8:t0 ENOENT
10 c0 begin 0 rmdir /a
10 c0 send 0 t0 req c0.1 1 4 rmdir /a
12 c0 take 0
12 c0 heard t0 4
12 c0 told 0 11:t0 ok
";

/// `scenarios/lost-reply-resent`.
const RESENT: [(u64, Meets); 3] = [
    (1, Meets::Call(0, Called::Mkdir(b"a"))),
    (4, Meets::Tick),
    (
        6,
        Meets::Says(Said::Reply(1, FIRST, None, 2, Answered::Made(FIRST))),
    ),
];

const RESENT_TEXT: &[u8] = b"1 c0 begin 0 mkdir /a
1 c0 send 0 t0 req c0.1 1 1 mkdir /a
4 c0 tick
4 c0 send 0 t0 req c0.1 1 1 mkdir /a
6 c0 take 0
6 c0 heard t0 1
6 c0 told 0 2:t0 ok 1.1
";

/// A client that dies with a request on its way.
const DYING: [(u64, Meets); 2] = [(1, Meets::Call(0, Called::Mkdir(b"a"))), (3, Meets::Die)];

const DYING_TEXT: &[u8] = b"1 c0 begin 0 mkdir /a
1 c0 send 0 t0 req c0.1 1 1 mkdir /a
3 c0 die
";

#[test]
fn a_client_writes_the_lines_of_its_traces(rt: HostRuntime) -> Result<(), Fail> {
    let one = played(rt.alloc(), &ONE_CLIENT)?;
    assert_eq!(rt; one.as_slice(), ONE_CLIENT_TEXT);
    let resent = played(rt.alloc(), &RESENT)?;
    assert_eq!(rt; resent.as_slice(), RESENT_TEXT);
    let dying = played(rt.alloc(), &DYING)?;
    assert_eq!(rt; dying.as_slice(), DYING_TEXT);
    Ok(())
}

/// Two calls on one slot.
const TWICE: [(u64, Meets); 2] = [
    (1, Meets::Call(0, Called::Mkdir(b"a"))),
    (2, Meets::Call(0, Called::Mkdir(b"b"))),
];

const TWICE_TEXT: &[u8] = b"1 c0 begin 0 mkdir /a
1 c0 send 0 t0 req c0.1 1 1 mkdir /a
2 c0 busy 0
";

#[test]
fn a_slot_has_one_call(rt: HostRuntime) -> Result<(), Fail> {
    let out = played(rt.alloc(), &TWICE)?;
    assert_eq!(rt; out.as_slice(), TWICE_TEXT);
    Ok(())
}
