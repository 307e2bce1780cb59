//! The clients that died.

ghost use Rattle.std.specs.Prelude.{◌≡◌, [], ◌∷◌, OnOk};
ghost use Rattle.lu_trace.specs.declared.entries.Line.{Line};
ghost use Rattle.lu_spec_laws.specs.Words.Pasts.{Past};
ghost use Rattle.lu_judge_pass.specs.Tables.{is_dead, ShowsDeaths};

use lu_base::{Memory, Node};
use lu_trace::{Entry, Line};
use std::alloc::Global;
use std::collections::HashSet;

/// The clients that died so far.
#[derive(Debug, Drop)]
pub struct Deaths {
    clients: HashSet<u16>,
}

impl Deaths {
    /// Of no line. It takes no memory yet.
    pub fn new(alloc: Global) -> Deaths
        ensures shows { ShowsDeaths result [] }
    {
        Deaths {
            clients: HashSet::new(alloc),
        }
    }

    /// Whether the client died.
    pub fn has(&self, client: u16) -> bool
        ensures dead { result ≡ is_dead self.now client }
    {
        self.clients.contains(&client)
    }

    /// Takes in the next line. After want of memory nothing is known of the table.
    pub fn step(&mut self, line: &Line) -> Result<(), Memory>
        ensures shows { OnOk result ((past : Past) → ShowsDeaths self.old past
            → ShowsDeaths self.new (line.now ∷ past)) }
    {
        match &line.entry {
            Entry::Die => match line.at.node {
                Node::Client(client) => {
                    self.clients.insert(client)?;
                    Ok(())
                }
                Node::Target(_) => Ok(()),
            },
            _ => Ok(()),
        }
    }
}
