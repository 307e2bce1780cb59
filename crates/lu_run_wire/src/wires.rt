//! All messages between the nodes, and the lines of the turns so far.

ghost use Rattle.std.specs.Prelude.{◌≡◌, ℕ, ◌+◌, ◌^◌, ◌<◌, ◌≤◌, [], ◌∷◌, ◌++◌, List, map, OnOk, IfSome};
ghost use Rattle.std.specs.Option.{option_copied};
ghost use Rattle.lu_base.specs.declared.ids.Node.{Node as NodeOf};
ghost use Rattle.lu_msg.specs.declared.messages.Message.{Message as MessageOf};
ghost use Rattle.lu_net.specs.Posts.{sent_at, IsUnspent, least_unspent, spend};
ghost use Rattle.lu_spec_entries.specs.Words.{Entry as EntryOf, Take};
ghost use Rattle.lu_spec_entries.specs.Given.{step_of};
ghost use Rattle.lu_proof_run.specs.Numbering.{last_after, last_after_all, numbered_line, numbered_sends, with_taken, numbered_step};
ghost use Rattle.lu_spec_run.specs.Scenarios.{Config, posted, with_turn};
ghost use Rattle.lu_run_wire.specs.Wires.{empty_wire, is_full_in, ShowsWire};

use lu_base::{At, Memory, Node, Stamp};
use lu_msg::{Message, Post};
use lu_net::{Links, Sent};
use lu_trace::{Entries, Entry, Line, Step};
use std::alloc::Global;
use std::marker::Model;

/// No turn begins once a run has this many turns.
const MOST_TURNS: u64 = 65536;

/// No turn begins once a run has this many sent messages.
const MOST_MESSAGES: u64 = 131072;

/// The lines of the turns so far, and all messages; how many turns and messages there were. A turn is added as its node gave
/// it, without the numbers of messages; it gets them here: a message that is sent the number of its place among all, and the
/// line of a message that came the number under which it was sent.
#[derive(Drop)]
pub struct Wire {
    links: Links,
    entries: Entries,
    turns: u64,
    messages: u64,
}

impl Model for Wire {
    ghost use Rattle.lu_run_wire.specs.Wires.{WireState};

    ghost Value = { WireState };

    ghost view = { λ w. record { links = w.links; entries = w.entries; turns = w.turns; messages = w.messages } };
}

impl Wire {
    /// No turns and no messages.
    pub fn new(alloc: Global) -> Wire
        ensures empty { result ≡ empty_wire }
    {
        Wire {
            links: Links::new(alloc),
            entries: Entries::new(alloc),
            turns: 0,
            messages: 0,
        }
    }

    /// Whether no turn may begin.
    pub fn is_full(&self) -> bool
        ensures full { result ≡ is_full_in self.now }
    {
        self.turns >= MOST_TURNS || self.messages >= MOST_MESSAGES
    }

    /// The message of this number; none where none was sent.
    pub fn sent(&self, number: u64) -> Option<&Sent>
        ensures sent { option_copied result ≡ sent_at self.now.links number }
    {
        self.links.at(number)
    }

    /// The least number of a message that is neither taken nor lost; none where there is none.
    pub fn least_unspent(&self) -> Option<u64>
        ensures number { result ≡ least_unspent self.now.links }
        ensures unspent { IfSome result (IsUnspent self.now.links) }
    {
        self.links.least_unspent()
    }

    /// The message of this number is taken or lost; nothing changes where none was sent.
    pub fn spend(&mut self, number: u64)
        ensures spent { self.new ≡ record self.old { links = spend self.old.links number } }
    {
        self.links.spend(number);
    }

    /// The stamp of the next turn.
    pub fn next_stamp(&self) -> Stamp
        requires room { self.now.turns < 65536 }
        ensures stamp { result ≡ record { 0 = self.now.turns + 1 } }
    {
        Stamp(self.turns + 1)
    }

    /// The lines of all turns.
    pub fn into_entries(self) -> Entries
        ensures lines { result ≡ self.entries }
    {
        self.entries
    }
}

// ---- turns

impl Wire {
    /// Adds a turn in which no message came. After want of memory a part of the turn may be there.
    pub fn add(&mut self, at: At, step: Step) -> Result<(), Memory>
        requires turns_room { self.old.turns < 65536 }
        requires messages_room { self.old.messages < 131072 }
        ensures shows { OnOk result ((c : Config) (es : List EntryOf) → ShowsWire self.old c → step ≡ step_of at es
            → ShowsWire self.new (with_turn c (record { at = at; entries = es }))) }
    {
        let Step { sends, entries } = step;
        self.write(entries.into_vec())?;
        self.post(at, sends.into_vec())?;
        self.turns += 1;
        Ok(())
    }

    /// Adds a turn in which the message of this number came. Its node, which doesn't know the number, gave it as the first
    /// line. After want of memory a part of the turn may be there.
    pub fn add_taken(&mut self, at: At, step: Step, number: u64) -> Result<(), Memory>
        requires turns_room { self.old.turns < 65536 }
        requires messages_room { self.old.messages < 131072 }
        ensures shows { OnOk result ((c : Config) (from : NodeOf) (m : MessageOf) (es : List EntryOf)
            → ShowsWire self.old c
            → step ≡ step_of at (Take 0 from m ∷ es)
            → ShowsWire self.new (with_turn c (record { at = at; entries = Take number from m ∷ es }))) }
    {
        let Step { sends, entries } = step;
        self.write(taken(entries.into_vec(), number))?;
        self.post(at, sends.into_vec())?;
        self.turns += 1;
        Ok(())
    }

    /// Writes lines with the numbers of what they send.
    fn write(&mut self, lines: Vec<Line>) -> Result<(), Memory>
        requires room { self.old.messages < 131072 }
        ensures lines { OnOk result (self.new.entries ≡ self.old.entries
            ++ numbered_sends self.old.messages lines.items) }
        ensures messages { OnOk result (self.new.messages ≡ last_after_all self.old.messages lines.items) }
        ensures links { self.new.links ≡ self.old.links }
        ensures turns { self.new.turns ≡ self.old.turns }
    {
        for line in lines {
            self.write_line(line)?;
        }
        Ok(())
    }

    /// Writes a line with the number of what it sends.
    fn write_line(&mut self, line: Line) -> Result<(), Memory>
        requires room { self.old.messages + 1 < 2 ^ 64 }
        ensures line { OnOk result (self.new.entries ≡ self.old.entries ++ numbered_line self.old.messages line ∷ []) }
        ensures messages { OnOk result (self.new.messages ≡ last_after self.old.messages line.entry) }
        ensures links { self.new.links ≡ self.old.links }
        ensures turns { self.new.turns ≡ self.old.turns }
    {
        let numbered = self.numbered(line);
        self.entries.push(numbered)?;
        Ok(())
    }

    /// The line with the number of what it sends. A `send` is one more message.
    fn numbered(&mut self, line: Line) -> Line
        requires room { self.old.messages + 1 < 2 ^ 64 }
        ensures line { result ≡ numbered_line self.old.messages line }
        ensures wire { self.new ≡ record self.old { messages = last_after self.old.messages line.entry } }
    {
        let Line { at, entry } = line;
        let entry = match entry {
            Entry::Send { to, message, .. } => self.numbered_send(to, message),
            other => other,
        };
        Line { at, entry }
    }

    /// The `send` of one more message.
    fn numbered_send(&mut self, to: Node, message: Message) -> Entry
        requires room { self.old.messages + 1 < 2 ^ 64 }
        ensures entry { result ≡ Entry.Send (self.old.messages + 1) to message }
        ensures wire { self.new ≡ record self.old { messages = self.old.messages + 1 } }
    {
        self.messages += 1;
        Entry::Send {
            number: self.messages,
            to,
            message,
        }
    }

    /// Sends the messages of a turn.
    fn post(&mut self, at: At, sends: Vec<Post>) -> Result<(), Memory>
        ensures posts { OnOk result (self.new.links ≡ self.old.links ++ map (posted at) sends.items) }
        ensures entries { self.new.entries ≡ self.old.entries }
        ensures turns { self.new.turns ≡ self.old.turns }
        ensures messages { self.new.messages ≡ self.old.messages }
    {
        for post in sends {
            self.post_one(at, post)?;
        }
        Ok(())
    }

    /// Sends a message.
    fn post_one(&mut self, at: At, post: Post) -> Result<(), Memory>
        ensures posts { OnOk result (self.new.links ≡ self.old.links ++ posted at post ∷ []) }
        ensures entries { self.new.entries ≡ self.old.entries }
        ensures turns { self.new.turns ≡ self.old.turns }
        ensures messages { self.new.messages ≡ self.old.messages }
    {
        self.links.post(Sent {
            number: 0,
            stamp: at.stamp,
            from: at.node,
            to: post.to,
            message: post.message,
        })?;
        Ok(())
    }
}

/// The lines of a turn, of which the first tells that a message of this number came.
fn taken(lines: Vec<Line>, number: u64) -> Vec<Line>
    ensures lines { result.items ≡ with_taken number lines.items }
{
    let mut lines = lines;
    if let Some(first) = lines.first_mut() {
        if let Entry::Take(_) = first.entry {
            first.entry = Entry::Take(number);
        }
    }
    lines
}
