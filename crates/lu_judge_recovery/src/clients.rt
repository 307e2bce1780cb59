//! The clients of a trace.

ghost use Rattle.std.specs.Prelude.{◌≡◌, reverse, max};
ghost use Rattle.lu_spec_laws.specs.Words.Clients.{clients, node_clients, message_clients, entry_clients, clients_step};
ghost use Rattle.lu_judge_recovery.specs.Clients.{count_of};

use lu_base::Node;
use lu_msg::Message;
use lu_trace::{Entry, Line};

/// The greater client; none is below each.
fn greater(a: Option<u16>, b: Option<u16>) -> Option<u16>
    ensures { count_of result ≡ max (count_of a) (count_of b) }
{
    match (a, b) {
        (Some(first), Some(second)) => Some(first.max(second)),
        (Some(first), None) => Some(first),
        (None, other) => other,
    }
}

/// The node's client.
fn of_node(node: Node) -> Option<u16>
    ensures { count_of result ≡ node_clients node }
{
    match node {
        Node::Client(client) => Some(client),
        Node::Target(_) => None,
    }
}

/// The greatest client that the message names.
fn of_message(message: &Message) -> Option<u16>
    ensures { count_of result ≡ message_clients message.now }
{
    match message {
        Message::Request(request) => Some(request.who.client),
        Message::Cancel { who, .. } => Some(who.client),
        Message::Where { who, .. } => Some(who.client),
        Message::Replay(replay) => Some(replay.who.client),
        Message::Lock(replay) => Some(replay.who.client),
        Message::Word { who, .. } => Some(who.client),
        Message::Join { who, .. } => Some(who.client),
        Message::Size(report) => greater(Some(report.who.client), Some(report.for_who.client)),
        Message::Up(_) => None,
        Message::Reply(reply) => greater(Some(reply.who.client), of_node(reply.at.node)),
        Message::Grant(notice) => Some(notice.who.client),
        Message::Block { who, .. } => Some(who.client),
        Message::Ask { who, for_who, .. } => greater(Some(who.client), Some(for_who.client)),
        Message::Ready { who, .. } => Some(who.client),
        Message::Evicted { who, .. } => Some(who.client),
    }
}

/// The greatest client that the entry names.
fn of_entry(entry: &Entry) -> Option<u16>
    ensures { count_of result ≡ entry_clients entry.now }
{
    match entry {
        Entry::Send { to, message, .. } => greater(of_node(*to), of_message(message)),
        Entry::Told { at, .. } => of_node(at.node),
        Entry::Life(who) => Some(who.client),
        Entry::Act { who, .. } => Some(who.client),
        Entry::Txn { who, .. } => Some(who.client),
        Entry::Grant(lock) => Some(lock.ask.who.client),
        Entry::Wait(lock) => Some(lock.ask.who.client),
        Entry::Back(who) => Some(who.client),
        Entry::Restore(lock) => Some(lock.ask.who.client),
        Entry::Evict { who, .. } => Some(who.client),
        Entry::Joined(who) => Some(who.client),
        _ => None,
    }
}

/// The greatest client that is known after a line.
fn after(known: Option<u16>, line: &Line) -> Option<u16>
    ensures { count_of result ≡ clients_step line.now (count_of known) }
{
    greater(known, greater(of_node(line.at.node), of_entry(&line.entry)))
}

/// The greatest client that a whole trace names; none where it names none.
pub fn greatest_client(lines: &[Line]) -> Option<u16>
    ensures { count_of result ≡ clients (reverse lines.now) }
{
    let mut known = None;
    let mut place = 0;
    while place < lines.len() {
        known = after(known, &lines[place]);
        place += 1;
    }
    known
}
