//! The calls that stand in the clients' slots.

ghost use Rattle.std.specs.Prelude.{◌≡◌, [], ◌∷◌, OnOk, is_some};
ghost use Rattle.std.specs.Option.{option_map};
ghost use Rattle.lu_trace.specs.declared.entries.Line.{Line};
ghost use Rattle.lu_spec_laws.specs.Words.Pasts.{Past};
ghost use Rattle.lu_judge_pass.specs.Tables.{standing_in, ShowsCalls};

use lu_base::{Memory, Node};
use lu_msg::Call;
use lu_trace::{Entry, Line};
use std::alloc::Global;
use std::collections::HashMap;

/// The calls that were begun so far and aren't told, by client and slot.
#[derive(Debug, Drop)]
pub struct Calls<'a> {
    by_slot: HashMap<(u16, u8), &'a Call>,
}

impl<'a> Calls<'a> {
    /// Of no line. It takes no memory yet.
    pub fn new(alloc: Global) -> Calls<'a>
        ensures shows { ShowsCalls result [] }
    {
        Calls {
            by_slot: HashMap::new(alloc),
        }
    }

    /// The call that stands in the client's slot; none where none does.
    pub fn get(&self, client: u16, slot: u8) -> Option<&'a Call>
        ensures call { option_map (λ call. call.now) result ≡ standing_in self.now client slot }
    {
        self.by_slot.get(&(client, slot)).copied()
    }

    /// Whether a call stands in the client's slot.
    pub fn has(&self, client: u16, slot: u8) -> bool
        ensures call { result ≡ is_some (standing_in self.now client slot) }
    {
        self.by_slot.contains_key(&(client, slot))
    }

    /// Takes in the next line. After want of memory nothing is known of the table.
    pub fn step(&mut self, line: &'a Line) -> Result<(), Memory>
        ensures shows { OnOk result ((past : Past) → ShowsCalls self.old past
            → ShowsCalls self.new (line.now ∷ past)) }
    {
        match &line.entry {
            Entry::Begin { slot, call } => match line.at.node {
                Node::Client(client) => {
                    self.by_slot.insert((client, *slot), call)?;
                    Ok(())
                }
                Node::Target(_) => Ok(()),
            },
            Entry::Told { slot, .. } => match line.at.node {
                Node::Client(client) => {
                    self.by_slot.remove(&(client, *slot));
                    Ok(())
                }
                Node::Target(_) => Ok(()),
            },
            _ => Ok(()),
        }
    }
}
