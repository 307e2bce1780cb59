//! The requests that the turns of the metadata target executed without a transaction.

ghost use Rattle.std.specs.Prelude.{◌≡◌, ℕ, [], ◌∷◌, OnOk};
ghost use Rattle.std.specs.Option.{option_map};
ghost use Rattle.lu_trace.specs.declared.entries.Line.{Line};
ghost use Rattle.lu_spec_laws.specs.Words.Pasts.{Past, is_target, or_else};
ghost use Rattle.lu_judge_locks.specs.Acts.{acting_of, acting_in, acting_at, ShowsActs};

use lu_base::{At, Memory, Node, Stamp, Who, Xid};
use lu_trace::{Entry, Line};
use std::alloc::Global;
use std::collections::HashMap;

/// A life's request.
#[derive(Clone, Copy, Debug)]
pub(crate) struct Acting {
    pub(crate) who: Who,
    pub(crate) xid: Xid,
}

/// Of each turn of the metadata target the request of its last `act` line.
#[derive(Debug, Drop)]
pub(crate) struct Acts {
    by_stamp: HashMap<u64, Acting>,
}

impl Acts {
    /// Of no line. It takes no memory yet.
    pub(crate) fn new(alloc: Global) -> Acts
        ensures shows { ShowsActs result [] }
    {
        Acts {
            by_stamp: HashMap::new(alloc),
        }
    }

    /// The request of the last `act` line so far of the turn of the metadata target with this stamp; none where it has none.
    pub(crate) fn get(&self, stamp: Stamp) -> Option<Acting>
        ensures acting { option_map acting_of result ≡ acting_in self.now stamp.0 }
    {
        self.by_stamp.get(&stamp.0).copied()
    }

    /// Takes in the next line. After want of memory nothing is known of the table.
    pub(crate) fn step(&mut self, line: &Line) -> Result<(), Memory>
        ensures shows { OnOk result ((past : Past) → ShowsActs self.old past → ShowsActs self.new (line.now ∷ past)) }
    {
        match &line.entry {
            Entry::Act { who, xid, .. } => self.act(line.at, *who, *xid),
            _ => Ok(()),
        }
    }

    /// The turn executes the request. After want of memory nothing is known of the table.
    fn act(&mut self, at: At, who: Who, xid: Xid) -> Result<(), Memory>
        ensures acts { OnOk result ((stamp : ℕ) → acting_in self.new stamp
            ≡ or_else (acting_at at who xid.0 stamp) (acting_in self.old stamp)) }
    {
        if !is_names(at.node) {
            return Ok(());
        }
        self.by_stamp.insert(at.stamp.0, Acting { who, xid })?;
        Ok(())
    }
}

/// Whether the node is the metadata target.
pub(crate) fn is_names(node: Node) -> bool
    ensures { result ≡ is_target 0 node }
{
    match node {
        Node::Client(_) => false,
        Node::Target(target) => target == 0,
    }
}
