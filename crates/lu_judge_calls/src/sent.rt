//! When requests were first sent.

ghost use Rattle.std.specs.Prelude.{◌≡◌, ℕ, Some, None, if◌then◌else◌, [], ◌∷◌, OnOk};
ghost use Rattle.lu_base.specs.declared.ids.Who.{Who as SpecWho};
ghost use Rattle.lu_trace.specs.declared.entries.Line.{Line};
ghost use Rattle.lu_spec_laws.specs.Words.Pasts.{Past, or_else};
ghost use Rattle.lu_spec_laws.specs.Words.Pieces.{is_request};
ghost use Rattle.lu_judge_calls.specs.PieceTables.{first_in, ShowsSent};

use lu_base::{Memory, Node, Who, Xid};
use lu_msg::{Message, Request};
use lu_trace::{Entry, Line};
use std::alloc::Global;
use std::collections::HashMap;

/// The number of the message in which each request was first sent.
#[derive(Debug, Drop)]
pub struct Sent {
    /// By the target, the life and the request number.
    first: HashMap<((u16, (u16, u32)), u64), u64>,
}

impl Sent {
    /// Of no line. It takes no memory yet.
    pub fn new(alloc: Global) -> Sent
        ensures shows { ShowsSent result [] }
    {
        Sent {
            first: HashMap::new(alloc),
        }
    }

    /// The number of the message in which the life's request of this number was first sent to the target; none where it
    /// wasn't sent.
    pub fn first(&self, target: u16, who: Who, xid: Xid) -> Option<u64>
        ensures first { result ≡ first_in self.now target who xid.0 }
    {
        self.first
            .get(&((target, (who.client, who.life)), xid.0))
            .copied()
    }

    /// Takes a request to the target in, unless it was sent before.
    fn add(&mut self, target: u16, request: &Request, number: u64) -> Result<(), Memory>
        ensures added { OnOk result ((t : ℕ) (who : SpecWho) (x : ℕ) → first_in self.new t who x
            ≡ or_else (first_in self.old t who x)
            (if is_request t who x (Node.Target target) (Message.Request request.now) then Some number else None)) }
    {
        let key = (
            (target, (request.who.client, request.who.life)),
            request.xid.0,
        );
        if self.first.contains_key(&key) {
            return Ok(());
        }
        self.first.insert(key, number)?;
        Ok(())
    }

    /// Takes in the next line. After want of memory nothing is known of the table.
    pub fn step(&mut self, line: &Line) -> Result<(), Memory>
        ensures shows { OnOk result ((past : Past) → ShowsSent self.old past
            → ShowsSent self.new (line.now ∷ past)) }
    {
        match &line.entry {
            Entry::Send {
                number,
                to: Node::Target(target),
                message: Message::Request(request),
            } => self.add(*target, request, *number),
            _ => Ok(()),
        }
    }
}
