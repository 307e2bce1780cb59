//! Two turns of a run, and the numbers that their messages have then.

ghost use Rattle.std.specs.Prelude.{◌<◌, OnOk};

use lu_base::{At, Memory, Node};
use lu_msg::{Message, Post};
use lu_run_wire::Wire;
use lu_trace::{End, Entry, Step, Trace, Turn, render};
use std::alloc::Global;
use std::test::Fail;

const CLIENT: Node = Node::Client(0);

const NAMES: Node = Node::Target(0);

const OBJECTS: Node = Node::Target(1);

/// The lines of both turns.
const TEXT: &str = "1 c0 tick
1 c0 send 1 t0 up 7
1 c0 send 2 t1 up 7
2 t1 take 2
2 t1 send 3 c0 up 7
end
";

/// The next turn, at this node, if one may begin.
fn next(wire: &Wire, node: Node) -> Result<At, Memory>
    ensures turns { OnOk result (wire.now.turns < 65536) }
    ensures messages { OnOk result (wire.now.messages < 131072) }
{
    if wire.is_full() {
        return Err(Memory);
    }
    Ok(At {
        stamp: wire.next_stamp(),
        node,
    })
}

/// What a node gives in a turn: this entry, and a message to each of these nodes.
fn step(alloc: Global, at: At, first: Entry, nodes: &[Node]) -> Result<Step, Memory> {
    let mut turn = Turn::new(alloc, at);
    turn.note(first)?;
    for to in nodes {
        turn.send(Post {
            to: *to,
            message: Message::Up(7),
        })?;
    }
    Ok(turn.into_step())
}

/// A client sends two messages, and the node to which the second goes takes it and sends one.
fn two_turns(alloc: Global) -> Result<Wire, Memory> {
    let mut wire = Wire::new(alloc);
    let at = next(&wire, CLIENT)?;
    wire.add(at, step(alloc, at, Entry::Tick, &[NAMES, OBJECTS])?)?;
    wire.spend(2);
    let at = next(&wire, OBJECTS)?;
    wire.add_taken(at, step(alloc, at, Entry::Take(0), &[CLIENT])?, 2)?;
    Ok(wire)
}

/// To whom the message of this number was sent.
fn receiver(wire: &Wire, number: u64) -> Option<Node> {
    match wire.sent(number) {
        Some(sent) => Some(sent.to),
        None => None,
    }
}

#[test]
fn messages_are_numbered_in_order(rt: HostRuntime) -> Result<(), Fail> {
    let alloc = rt.alloc();
    let wire = two_turns(alloc)?;
    assert_eq!(rt; receiver(&wire, 1), Some(NAMES));
    assert_eq!(rt; receiver(&wire, 2), Some(OBJECTS));
    assert_eq!(rt; receiver(&wire, 3), Some(CLIENT));
    assert_eq!(rt; receiver(&wire, 4), None);
    assert_eq!(rt; wire.least_unspent(), Some(1));
    let trace = Trace {
        osts: 1,
        entries: wire.into_entries(),
    };
    let text = render(alloc, &trace, End::Done)?;
    assert_eq!(rt; text.as_slice(), TEXT.as_bytes());
    Ok(())
}
