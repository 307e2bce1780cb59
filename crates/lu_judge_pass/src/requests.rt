//! The requests that were sent, by target, life and number.

ghost use Rattle.std.specs.Prelude.{◌≡◌, ℕ, [], ◌∷◌, OnOk};
ghost use Rattle.std.specs.Option.{option_map};
ghost use Rattle.lu_trace.specs.declared.entries.Line.{Line};
ghost use Rattle.lu_base.specs.declared.ids.Who.{Who as SpecWho};
ghost use Rattle.lu_spec_laws.specs.Words.Pasts.{Past};
ghost use Rattle.lu_spec_laws.specs.Words.Requests.{first_with};
ghost use Rattle.lu_judge_pass.specs.Ledgers.{request_in, ShowsRequests};

use lu_base::{Memory, Node, Who, Xid};
use lu_msg::{Message, Op, Request};
use lu_trace::{Entry, Line};
use std::alloc::Global;
use std::collections::HashMap;

/// The first request that was sent to each target with each life and number.
#[derive(Debug, Drop)]
pub struct Requests<'a> {
    first: HashMap<((u16, (u16, u32)), u64), &'a Request>,
}

impl<'a> Requests<'a> {
    /// Of no line. It takes no memory yet.
    pub fn new(alloc: Global) -> Requests<'a>
        ensures shows { ShowsRequests result [] }
    {
        Requests {
            first: HashMap::new(alloc),
        }
    }

    /// The first request of that life and number to the target; none where none was sent.
    pub fn first(&self, target: u16, who: Who, xid: Xid) -> Option<&'a Request>
        ensures request { option_map (λ r. r.now) result ≡ request_in self.now target who xid.0 }
    {
        self.first
            .get(&((target, (who.client, who.life)), xid.0))
            .copied()
    }

    /// What that request asks for.
    pub fn asked(&self, target: u16, who: Who, xid: Xid) -> Option<&'a Op>
        ensures asked { option_map (λ o. o.now) result
            ≡ option_map (λ r. r.op) (request_in self.now target who xid.0) }
    {
        match self.first(target, who, xid) {
            Some(request) => Some(&request.op),
            None => None,
        }
    }

    /// Takes a request to the target in, unless there is one of its life and number.
    fn add(&mut self, target: u16, request: &'a Request) -> Result<(), Memory>
        ensures added { OnOk result ((t : ℕ) (who : SpecWho) (x : ℕ) → request_in self.new t who x
            ≡ first_with (request_in self.old t who x) t who x (Node.Target target) (Message.Request request.now)) }
    {
        let key = (
            (target, (request.who.client, request.who.life)),
            request.xid.0,
        );
        if self.first.contains_key(&key) {
            return Ok(());
        }
        self.first.insert(key, request)?;
        Ok(())
    }

    /// Takes in the next line. After want of memory nothing is known of the table.
    pub fn step(&mut self, line: &'a Line) -> Result<(), Memory>
        ensures shows { OnOk result ((past : Past) → ShowsRequests self.old past
            → ShowsRequests self.new (line.now ∷ past)) }
    {
        match &line.entry {
            Entry::Send {
                to: Node::Target(target),
                message: Message::Request(request),
                ..
            } => self.add(*target, request),
            _ => Ok(()),
        }
    }
}
