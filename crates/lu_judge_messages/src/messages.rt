//! The law of messages, decided from tables.

ghost use Rattle.std.specs.Prelude.{◌≡◌, suc, [], reverse, None, IfOk, IsTrue, ◌↔◌};
ghost use Rattle.lu_spec_laws.specs.Words.Pasts.{Past};
ghost use Rattle.lu_spec_laws.specs.Words.Sends.{is_sent_to};
ghost use Rattle.lu_spec_laws.specs.Holds.{Holds};
ghost use Rattle.lu_spec_laws.specs.Laws.Messages.{Messages as MessagesLaw, Follows, Lives, Passes, IsFree, IsOpen};
ghost use Rattle.lu_judge_pass.specs.Firsts.{About, IsFirst};
ghost use Rattle.lu_judge_messages.specs.Shown.{Shown, last_after};

use lu_base::{At, Memory, Node};
use lu_judge_pass::{Calls, Deaths, Judge, Sendings, first_broken, is_up_to, same_node};
use lu_trace::{Entry, Line};
use std::alloc::Global;

/// What the law of messages asks of the lines so far.
#[derive(Debug, Drop)]
struct Messages<'a> {
    /// The turn of the newest line.
    newest: Option<At>,
    /// The number of the newest message; 0 where none was sent.
    last: u64,
    deaths: Deaths,
    calls: Calls<'a>,
    sendings: Sendings<'a>,
}

impl<'a> Messages<'a> {
    /// Of no line. It takes no memory yet.
    fn new(alloc: Global) -> Messages<'a>
        ensures { Shown result [] }
    {
        Messages {
            newest: None,
            last: 0,
            deaths: Deaths::new(alloc),
            calls: Calls::new(alloc),
            sendings: Sendings::new(alloc),
        }
    }

    /// Whether a line of this turn may come next.
    fn follows(&self, at: At) -> bool
        ensures { (past : Past) → Shown self.now past → IsTrue result ↔ Follows past at }
    {
        match self.newest {
            Some(newest) => is_up_to(newest, at),
            None => true,
        }
    }

    /// Whether the node isn't a client that died.
    fn lives(&self, node: Node) -> bool
        ensures { (past : Past) → Shown self.now past → IsTrue result ↔ Lives past node }
    {
        match node {
            Node::Client(client) => !self.deaths.has(client),
            Node::Target(_) => true,
        }
    }

    /// Whether this is the number of the next message.
    fn is_next(&self, number: u64) -> bool
        ensures { IsTrue result ↔ (number ≡ suc self.now.last) }
    {
        number > 0 && number - 1 == self.last
    }

    /// Whether the message of this number was sent to the node.
    fn is_sent_to(&self, number: u64, node: Node) -> bool
        ensures { (past : Past) → Shown self.now past → result ≡ is_sent_to past number node }
    {
        match self.sendings.get(number) {
            Some(sending) => same_node(sending.to, node),
            None => false,
        }
    }

    /// Whether a call may begin in the slot.
    fn is_free(&self, node: Node, slot: u8) -> bool
        ensures { (past : Past) → Shown self.now past → IsTrue result ↔ IsFree past node slot }
    {
        match node {
            Node::Client(client) => !self.calls.has(client, slot),
            Node::Target(_) => false,
        }
    }

    /// Whether a call stands in the slot.
    fn is_open(&self, node: Node, slot: u8) -> bool
        ensures { (past : Past) → Shown self.now past → IsTrue result ↔ IsOpen past node slot }
    {
        match node {
            Node::Client(client) => self.calls.has(client, slot),
            Node::Target(_) => false,
        }
    }

    /// Whether the entry may stand in this turn.
    fn passes(&self, at: At, entry: &Entry) -> bool
        ensures { (past : Past) → Shown self.now past → IsTrue result ↔ Passes past at entry.now }
    {
        match entry {
            Entry::Send { number, .. } => self.is_next(*number),
            Entry::Take(number) => self.is_sent_to(*number, at.node),
            Entry::Begin { slot, .. } => self.is_free(at.node, *slot),
            Entry::Told { slot, .. } => self.is_open(at.node, *slot),
            _ => true,
        }
    }
}

/// The number of the newest message after a line.
fn last_after(last: u64, entry: &Entry) -> u64
    ensures { result ≡ last_after last entry.now }
{
    match entry {
        Entry::Send { number, .. } => *number,
        _ => last,
    }
}

impl<'a> Judge<'a> for Messages<'a> {
    ghost about = { λ _. record { osts = 0; whole = [] } };

    ghost given = { λ _ _ _ _. Unit {0} };

    ghost shows = { Shown };

    ghost law = { λ _. MessagesLaw };

    fn allows(&self, line: &'a Line, _later: &'a [Line]) -> Result<bool, Memory> {
        Ok(self.follows(line.at) && self.lives(line.at.node) && self.passes(line.at, &line.entry))
    }

    fn step(&mut self, line: &'a Line) -> Result<(), Memory> {
        self.newest = Some(line.at);
        self.last = last_after(self.last, &line.entry);
        self.deaths.step(line)?;
        self.calls.step(line)?;
        self.sendings.step(line)
    }
}

/// The place, from 0, of the first line that breaks the law of messages; none exactly where the law holds of the trace.
/// It answers want of memory alone.
pub fn first_in_messages(alloc: Global, lines: &[Line]) -> Result<Option<usize>, Memory>
    ensures first { IfOk result (IsFirst MessagesLaw lines.now) }
    ensures none { IfOk result (λ place. (place ≡ None) ↔ Holds MessagesLaw (reverse lines.now)) }
{
    first_broken(Messages::new(alloc), lines)
}
