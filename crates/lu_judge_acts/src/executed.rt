//! What the metadata target executed, by turn, life and request number.

ghost use Rattle.std.specs.Prelude.{◌≡◌, [], ◌∷◌, OnOk};
ghost use Rattle.lu_trace.specs.declared.entries.Line.{Line};
ghost use Rattle.lu_spec_laws.specs.Words.Pasts.{Past};
ghost use Rattle.lu_judge_windows.specs.Lost.{ShowsLost};
ghost use Rattle.lu_judge_acts.specs.Tables.{acted_in, made_in, ShowsExecuted};

use lu_base::{At, Memory, Node, Who, Xid};
use lu_judge_pass::same_node;
use lu_judge_windows::Lost;
use lu_trace::{Entry, Line};
use std::alloc::Global;
use std::collections::HashSet;

/// A turn's stamp, a life and a request number.
type Key = (u64, ((u16, u32), u64));

/// The requests that the metadata target executed so far, by turn.
#[derive(Debug, Drop)]
pub struct Executed {
    /// Those that made no transaction.
    acted: HashSet<Key>,
    /// Those that made a transaction that stands at the end of the trace.
    made: HashSet<Key>,
}

impl Executed {
    /// Of no line. It takes no memory yet.
    pub fn new(alloc: Global) -> Executed
        ensures shows { (whole : Past) → ShowsExecuted result whole [] }
    {
        Executed {
            acted: HashSet::new(alloc),
            made: HashSet::new(alloc),
        }
    }

    /// Whether the metadata target executed that life's request in the turn, with no transaction.
    pub fn has_acted(&self, turn: At, who: Who, xid: Xid) -> bool
        ensures acted { result ≡ acted_in self.now turn who xid.0 }
    {
        match turn.node {
            Node::Client(_) => false,
            Node::Target(target) => {
                target == 0
                    && self
                        .acted
                        .contains(&(turn.stamp.0, ((who.client, who.life), xid.0)))
            }
        }
    }

    /// Whether the metadata target executed that life's request in the turn, with a transaction that stands at the end.
    pub fn has_made(&self, turn: At, who: Who, xid: Xid) -> bool
        ensures made { result ≡ made_in self.now turn who xid.0 }
    {
        match turn.node {
            Node::Client(_) => false,
            Node::Target(target) => {
                target == 0
                    && self
                        .made
                        .contains(&(turn.stamp.0, ((who.client, who.life), xid.0)))
            }
        }
    }

    /// Takes in the next line. After want of memory nothing is known of the table.
    pub fn step(&mut self, lost: &Lost, line: &Line) -> Result<(), Memory>
        ensures shows { OnOk result ((whole past : Past) → ShowsLost lost.now whole
            → ShowsExecuted self.old whole past → ShowsExecuted self.new whole (line.now ∷ past)) }
    {
        if !same_node(line.at.node, Node::Target(0)) {
            return Ok(());
        }
        let stamp = line.at.stamp.0;
        match &line.entry {
            Entry::Act { who, xid, .. } => {
                self.acted.insert((stamp, ((who.client, who.life), xid.0)))?;
                Ok(())
            }
            Entry::Txn { txn, who, xid, .. } => {
                if lost.has(0, txn.0) {
                    return Ok(());
                }
                self.made.insert((stamp, ((who.client, who.life), xid.0)))?;
                Ok(())
            }
            _ => Ok(()),
        }
    }
}
