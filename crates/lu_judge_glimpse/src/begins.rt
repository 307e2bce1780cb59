//! Where the last call in each slot began.

ghost use Rattle.std.specs.Prelude.{◌≡◌, [], ◌∷◌, length, OnOk};
ghost use Rattle.lu_trace.specs.declared.entries.Line.{Line};
ghost use Rattle.lu_spec_laws.specs.Words.Pasts.{Past};
ghost use Rattle.lu_judge_glimpse.specs.Begins.{begun_in, ShowsBegins};

use lu_base::{Memory, Node};
use lu_trace::{Entry, Line};
use std::alloc::Global;
use std::collections::HashMap;

/// The place of the line, from 0, at which the last call in each client's slot began.
#[derive(Debug, Drop)]
pub struct Begins {
    by_slot: HashMap<(u16, u8), usize>,
}

impl Begins {
    /// Of no line. It takes no memory yet.
    pub fn new(alloc: Global) -> Begins
        ensures shows { ShowsBegins result [] }
    {
        Begins {
            by_slot: HashMap::new(alloc),
        }
    }

    /// The place at which the last call in the slot began, 0 where none did.
    pub fn get(&self, client: u16, slot: u8) -> usize
        ensures place { result ≡ begun_in self.now client slot }
    {
        self.by_slot.get(&(client, slot)).copied().unwrap_or(0)
    }

    /// Takes in the next line, at its place. After want of memory nothing is known of the table.
    pub fn step(&mut self, line: &Line, place: usize) -> Result<(), Memory>
        ensures shows { OnOk result ((past : Past) → place ≡ length past → ShowsBegins self.old past
            → ShowsBegins self.new (line.now ∷ past)) }
    {
        match &line.entry {
            Entry::Begin { slot, .. } => match line.at.node {
                Node::Client(client) => {
                    self.by_slot.insert((client, *slot), place)?;
                    Ok(())
                }
                Node::Target(_) => Ok(()),
            },
            _ => Ok(()),
        }
    }
}
