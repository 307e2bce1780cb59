//! The law of messages: numbers of messages, order of turns, slots, the dead.

use lu_base::{At, Memory, Node, Stamp};
use lu_judge_messages::first_in_messages;
use lu_msg::{Answer, Call, Message};
use lu_trace::{Entries, Entry, Line};
use std::alloc::Global;
use std::process::Abort;
use std::test::Fail;

/// A line of a trace, or what is judged of the lines since the last verdict.
#[derive(Clone, Copy, Debug)]
enum Step {
    /// A line of this client, with its stamp.
    Client(u64, u16, Said),
    /// A line of this target, with its stamp.
    Target(u64, u16, Said),
    /// The trace keeps the law.
    Lawful,
    /// The line at this place, from 0, is the first that breaks the law.
    Broken(usize),
}

/// What a line says.
#[derive(Clone, Copy, Debug)]
enum Said {
    /// A call begins on this slot.
    Begins(u8),
    /// A message of this number is sent to this node.
    Sends(u64, Node),
    /// The message of this number is taken.
    Takes(u64),
    /// The call on this slot is told.
    Tells(u8),
    Ticks,
    Dies,
}

const C0: Node = Node::Client(0);

const T0: Node = Node::Target(0);

/// A line. Its call, message and answer are as short as there are, since the law looks at none.
fn line(stamp: u64, node: Node, said: Said) -> Line {
    let at = At {
        stamp: Stamp(stamp),
        node,
    };
    let entry = match said {
        Said::Begins(slot) => Entry::Begin {
            slot,
            call: Call::Flush(0),
        },
        Said::Sends(number, to) => Entry::Send {
            number,
            to,
            message: Message::Up(1),
        },
        Said::Takes(number) => Entry::Take(number),
        Said::Tells(slot) => Entry::Told {
            slot,
            at,
            answer: Answer::Done,
        },
        Said::Ticks => Entry::Tick,
        Said::Dies => Entry::Die,
    };
    Line { at, entry }
}

/// Adds a line, or judges the lines and starts anew; whether that came out as it must.
fn is_so(alloc: Global, lines: &mut Entries, step: Step) -> Result<bool, Memory> {
    let due = match step {
        Step::Client(stamp, client, said) => {
            lines.push(line(stamp, Node::Client(client), said))?;
            return Ok(true);
        }
        Step::Target(stamp, target, said) => {
            lines.push(line(stamp, Node::Target(target), said))?;
            return Ok(true);
        }
        Step::Lawful => None,
        Step::Broken(place) => Some(place),
    };
    let first = first_in_messages(alloc, lines.as_slice())?;
    *lines = Entries::new(alloc);
    Ok(first == due)
}

/// The place of the first step that doesn't come out as it must.
fn first_wrong(alloc: Global, steps: &[Step]) -> Result<Option<usize>, Memory> {
    let mut lines = Entries::new(alloc);
    for (place, step) in steps.iter().enumerate() {
        if !is_so(alloc, &mut lines, *step)? {
            return Ok(Some(place));
        }
    }
    Ok(None)
}

/// Messages have the numbers 1, 2 and so on in the order of their sending, and only the node that a message was sent to
/// takes it, as often as it comes.
const NUMBERED: [Step; 34] = [
    // Nothing has happened.
    Step::Lawful,
    // A message is taken, and its answer twice.
    Step::Client(1, 0, Said::Begins(0)),
    Step::Client(1, 0, Said::Sends(1, T0)),
    Step::Target(2, 0, Said::Takes(1)),
    Step::Target(2, 0, Said::Sends(2, C0)),
    Step::Client(3, 0, Said::Takes(2)),
    Step::Client(3, 0, Said::Tells(0)),
    Step::Client(4, 0, Said::Takes(2)),
    Step::Lawful,
    // A message is taken that was never sent.
    Step::Client(1, 0, Said::Begins(0)),
    Step::Client(1, 0, Said::Sends(1, T0)),
    Step::Target(2, 0, Said::Takes(2)),
    Step::Broken(2),
    // A message is taken by another target, and by its sender.
    Step::Client(1, 0, Said::Sends(1, T0)),
    Step::Target(2, 1, Said::Takes(1)),
    Step::Broken(1),
    Step::Client(1, 0, Said::Sends(1, T0)),
    Step::Client(2, 0, Said::Takes(1)),
    Step::Broken(1),
    // A message is taken before it is sent.
    Step::Target(1, 0, Said::Takes(1)),
    Step::Client(2, 0, Said::Sends(1, T0)),
    Step::Broken(0),
    // Two messages have one number.
    Step::Client(1, 0, Said::Sends(1, T0)),
    Step::Client(2, 0, Said::Ticks),
    Step::Client(2, 0, Said::Sends(1, T0)),
    Step::Broken(2),
    // The first message has number 2, or 0.
    Step::Client(1, 0, Said::Sends(2, T0)),
    Step::Broken(0),
    Step::Client(1, 0, Said::Sends(0, T0)),
    Step::Broken(0),
    // A number is left out, after which a message is taken that was never sent.
    Step::Client(1, 0, Said::Sends(1, T0)),
    Step::Client(1, 0, Said::Sends(3, T0)),
    Step::Target(2, 0, Said::Takes(2)),
    Step::Broken(1),
];

/// Stamps don't fall, and at one stamp clients stand before targets, each by their numbers.
const ORDER: [Step; 23] = [
    Step::Client(1, 0, Said::Ticks),
    Step::Client(1, 1, Said::Ticks),
    Step::Client(1, 1, Said::Ticks),
    Step::Target(1, 0, Said::Ticks),
    Step::Target(1, 1, Said::Ticks),
    Step::Client(2, 0, Said::Ticks),
    Step::Lawful,
    // A later line has an earlier stamp.
    Step::Client(2, 0, Said::Begins(0)),
    Step::Client(1, 0, Said::Ticks),
    Step::Broken(1),
    // In one stamp a client has a line after a target.
    Step::Target(1, 0, Said::Ticks),
    Step::Client(1, 0, Said::Ticks),
    Step::Broken(1),
    // In one stamp a node has a line after one with a greater number.
    Step::Client(1, 1, Said::Ticks),
    Step::Client(1, 0, Said::Ticks),
    Step::Broken(1),
    Step::Target(1, 1, Said::Ticks),
    Step::Target(1, 0, Said::Ticks),
    Step::Broken(1),
    // Only the line before counts.
    Step::Client(3, 0, Said::Ticks),
    Step::Client(2, 0, Said::Ticks),
    Step::Client(1, 0, Said::Ticks),
    Step::Broken(1),
];

/// A call begins on a free slot of a client, and what is told belongs to a call that stands there.
const SLOTS: [Step; 27] = [
    // Two slots, two clients, and a slot that is free again.
    Step::Client(1, 0, Said::Begins(0)),
    Step::Client(2, 0, Said::Begins(1)),
    Step::Client(3, 1, Said::Begins(0)),
    Step::Client(4, 0, Said::Tells(0)),
    Step::Client(4, 0, Said::Begins(0)),
    Step::Client(5, 0, Said::Tells(1)),
    Step::Client(5, 1, Said::Tells(0)),
    Step::Client(6, 0, Said::Tells(0)),
    Step::Lawful,
    // A call begins on a slot that has one.
    Step::Client(1, 0, Said::Begins(0)),
    Step::Client(2, 0, Said::Begins(0)),
    Step::Broken(1),
    // A call begins at a target, and is told at one.
    Step::Target(1, 0, Said::Begins(0)),
    Step::Broken(0),
    Step::Client(1, 0, Said::Begins(0)),
    Step::Target(1, 0, Said::Tells(0)),
    Step::Broken(1),
    // An answer is told on a slot without a call, on another slot, and at another client.
    Step::Client(1, 0, Said::Begins(0)),
    Step::Client(3, 0, Said::Tells(0)),
    Step::Client(4, 0, Said::Tells(0)),
    Step::Broken(2),
    Step::Client(1, 0, Said::Begins(0)),
    Step::Client(1, 0, Said::Tells(1)),
    Step::Broken(1),
    Step::Client(1, 0, Said::Begins(0)),
    Step::Client(1, 1, Said::Tells(0)),
    Step::Broken(1),
];

/// After its death a client has no line, and what was sent to it is taken by nobody.
const DEAD: [Step; 12] = [
    // Others go on, and also the target of the same number.
    Step::Client(1, 0, Said::Dies),
    Step::Target(1, 0, Said::Sends(1, C0)),
    Step::Client(2, 1, Said::Ticks),
    Step::Lawful,
    // The dead go on.
    Step::Client(1, 0, Said::Dies),
    Step::Client(2, 0, Said::Ticks),
    Step::Broken(1),
    Step::Client(1, 0, Said::Dies),
    Step::Target(1, 0, Said::Sends(1, C0)),
    Step::Client(2, 0, Said::Takes(1)),
    Step::Client(3, 0, Said::Dies),
    Step::Broken(2),
];

#[test]
fn the_first_broken_line_is_named(rt: HostRuntime) -> Result<(), Fail> {
    for steps in [
        NUMBERED.as_slice(),
        ORDER.as_slice(),
        SLOTS.as_slice(),
        DEAD.as_slice(),
    ] {
        assert_eq!(rt; first_wrong(rt.alloc(), steps)?, None);
    }
    Ok(())
}
