//! The text of a trace, against lines that were written out by hand.

use lu_base::{At, Fid, Memory, Node, Numbers, Stamp, TargetId, Txn, Who, Xid, read_path};
use lu_msg::{Answer, Call, Message, Op, Request};
use lu_trace::{End, Entries, Entry, Line, Trace, render};
use std::alloc::Global;
use std::test::Fail;

/// The lines, written out.
const TEXT: &[u8] = b"\
1 c0 begin 0 mkdir /a\n\
1 c0 send 1 t0 req c0.1 1 1 mkdir /a\n\
2 t0 take 1\n\
2 t0 txn 1.1 c0.1 1 - ok 1.1\n\
3 c0 heard t0 1\n\
3 c0 told 0 2:t0 ok 1.1\n\
end limit 2\n";

/// The first life of client 0.
const WHO: Who = Who { client: 0, life: 1 };

/// The number 1 of boot 1.
const FIRST: u64 = 4294967297;

/// A turn.
fn at(stamp: u64, node: Node) -> At {
    At {
        stamp: Stamp(stamp),
        node,
    }
}

/// The lines of a client that asks for a directory.
fn asks(alloc: Global, lines: &mut Entries) -> Result<(), Fail> {
    let at = at(1, Node::Client(0));
    let path = read_path(alloc, b"/a")?.ok_or("no path")?;
    let call = Call::Mkdir(path);
    lines.push(Line {
        at,
        entry: Entry::Begin { slot: 0, call },
    })?;
    let path = read_path(alloc, b"/a")?.ok_or("no path")?;
    let request = Request {
        who: WHO,
        boot: 1,
        xid: Xid(1),
        tag: 0,
        op: Op::Mkdir(path),
    };
    lines.push(Line {
        at,
        entry: Entry::Send {
            number: 1,
            to: Node::Target(0),
            message: Message::Request(request),
        },
    })?;
    Ok(())
}

/// The lines of the target that makes it.
fn makes(alloc: Global, lines: &mut Entries) -> Result<(), Memory> {
    let at = at(2, Node::Target(0));
    lines.push(Line {
        at,
        entry: Entry::Take(1),
    })?;
    lines.push(Line {
        at,
        entry: Entry::Txn {
            txn: Txn(FIRST),
            who: WHO,
            xid: Xid(1),
            seen: Numbers::new(alloc),
            answer: Answer::Made(Fid(FIRST)),
        },
    })
}

/// The lines of the client that hears of it.
fn hears(lines: &mut Entries) -> Result<(), Memory> {
    lines.push(Line {
        at: at(3, Node::Client(0)),
        entry: Entry::Heard {
            target: TargetId(0),
            xid: Xid(1),
        },
    })?;
    lines.push(Line {
        at: at(3, Node::Client(0)),
        entry: Entry::Told {
            slot: 0,
            at: at(2, Node::Target(0)),
            answer: Answer::Made(Fid(FIRST)),
        },
    })
}

#[test]
fn a_trace_has_its_text(rt: HostRuntime) -> Result<(), Fail> {
    let alloc = rt.alloc();
    let mut entries = Entries::new(alloc);
    asks(alloc, &mut entries)?;
    makes(alloc, &mut entries)?;
    hears(&mut entries)?;
    let text = render(alloc, &Trace { osts: 2, entries }, End::Limit)?;
    assert!(rt; text.as_slice() == TEXT);
    Ok(())
}
