//! The present lives of the clients.

ghost use Rattle.std.specs.Prelude.{◌≡◌, ◌==◌, ◌&&◌, [], ◌∷◌, OnOk};
ghost use Rattle.lu_trace.specs.declared.entries.Line.{Line};
ghost use Rattle.lu_spec_laws.specs.Words.Pasts.{Past, is_client};
ghost use Rattle.lu_judge_pass.specs.Ledgers.{life_in, ShowsLives};

use lu_base::{Memory, Node, Who};
use lu_trace::{Entry, Line};
use std::alloc::Global;
use std::collections::HashMap;

/// The present life of each client: 1 until a line of its own names another.
#[derive(Debug, Drop)]
pub struct Lives {
    by_client: HashMap<u16, u32>,
}

impl Lives {
    /// Of no line. It takes no memory yet.
    pub fn new(alloc: Global) -> Lives
        ensures shows { ShowsLives result [] }
    {
        Lives {
            by_client: HashMap::new(alloc),
        }
    }

    /// The client's present life.
    pub fn life(&self, client: u16) -> u32
        ensures life { result ≡ life_in self.now client }
    {
        self.by_client.get(&client).copied().unwrap_or(1)
    }

    /// The client with its present life.
    pub fn who(&self, client: u16) -> Who
        ensures who { result ≡ record { client = client; life = life_in self.now client } }
    {
        Who {
            client,
            life: self.life(client),
        }
    }

    /// Whether a line of this node, next, is that life's.
    pub fn is_by(&self, who: Who, node: Node) -> bool
        ensures own { result ≡ (is_client who.client node && life_in self.now who.client == who.life) }
    {
        match node {
            Node::Client(client) => client == who.client && self.life(client) == who.life,
            Node::Target(_) => false,
        }
    }

    /// Takes in the next line. After want of memory nothing is known of the table.
    pub fn step(&mut self, line: &Line) -> Result<(), Memory>
        ensures shows { OnOk result ((past : Past) → ShowsLives self.old past
            → ShowsLives self.new (line.now ∷ past)) }
    {
        match &line.entry {
            Entry::Life(who) => match line.at.node {
                Node::Client(client) => {
                    self.by_client.insert(client, who.life)?;
                    Ok(())
                }
                Node::Target(_) => Ok(()),
            },
            _ => Ok(()),
        }
    }
}
