//! The seen numbers of the transactions that turns made, by request.

ghost use Rattle.std.specs.Prelude.{◌≡◌, [], ◌∷◌, OnOk};
ghost use Rattle.std.specs.Option.{option_map};
ghost use Rattle.lu_trace.specs.declared.entries.Line.{Line};
ghost use Rattle.lu_spec_laws.specs.Words.Pasts.{Past};
ghost use Rattle.lu_judge_recovery.specs.Marks.{made_in, ShowsMade};

use super::turns::Turn;
use lu_base::{Memory, Node, Numbers, Who, Xid};
use lu_trace::{Entry, Line};
use std::alloc::Global;
use std::collections::HashMap;

/// Of each turn and request the seen numbers of the last transaction that the request made in the turn.
#[derive(Drop)]
pub struct Made<'a> {
    by_request: HashMap<((u64, u16), ((u16, u32), u64)), &'a Numbers>,
}

impl<'a> Made<'a> {
    /// Of no line. It takes no memory yet.
    pub fn new(alloc: Global) -> Made<'a>
        ensures shows { ShowsMade result [] }
    {
        Made {
            by_request: HashMap::new(alloc),
        }
    }

    /// The seen numbers of the transaction that the life's request made in the turn; none where it made none.
    pub fn get(&self, turn: Turn, who: Who, xid: Xid) -> Option<&'a Numbers>
        ensures made { option_map (λ seen. seen.now) result
            ≡ made_in self.now turn.stamp turn.target who xid.0 }
    {
        self.by_request
            .get(&((turn.stamp, turn.target), ((who.client, who.life), xid.0)))
            .copied()
    }

    /// Takes in the next line. After want of memory nothing is known of the table.
    pub fn step(&mut self, line: &'a Line) -> Result<(), Memory>
        ensures shows { OnOk result ((past : Past) → ShowsMade self.old past
            → ShowsMade self.new (line.now ∷ past)) }
    {
        match &line.entry {
            Entry::Txn { who, xid, seen, .. } => match line.at.node {
                Node::Target(target) => {
                    let key = ((line.at.stamp.0, target), ((who.client, who.life), xid.0));
                    self.by_request.insert(key, seen)?;
                    Ok(())
                }
                Node::Client(_) => Ok(()),
            },
            _ => Ok(()),
        }
    }
}
