//! The transactions of the metadata target, by the turn, the life and the request number.

ghost use Rattle.std.specs.Prelude.{◌≡◌, [], ◌∷◌, OnOk};
ghost use Rattle.lu_trace.specs.declared.entries.Line.{Line};
ghost use Rattle.lu_spec_laws.specs.Words.Pasts.{Past};
ghost use Rattle.lu_judge_calls.specs.Tables.{number_of, ShowsTransactions};

use lu_base::{At, Memory, Node, Txn, Who, Xid};
use lu_trace::{Entry, Line};
use std::alloc::Global;
use std::collections::HashMap;

/// The transactions of the metadata target: of each turn, life and request number the last one.
#[derive(Debug, Drop)]
pub struct Transactions {
    /// By the turn's stamp, the life and the request number.
    by_stamp: HashMap<(u64, ((u16, u32), u64)), Txn>,
}

impl Transactions {
    /// Of no line. It takes no memory yet.
    pub fn new(alloc: Global) -> Transactions
        ensures shows { ShowsTransactions result [] }
    {
        Transactions {
            by_stamp: HashMap::new(alloc),
        }
    }

    /// The transaction of that life's request in the turn; none in a turn of another node than the metadata target.
    pub fn get(&self, at: At, who: Who, xid: Xid) -> Option<Txn>
        ensures number { result ≡ number_of self.now at who xid.0 }
    {
        match at.node {
            Node::Client(_) => None,
            Node::Target(target) => {
                if target == 0 {
                    self.by_stamp
                        .get(&(at.stamp.0, ((who.client, who.life), xid.0)))
                        .copied()
                } else {
                    None
                }
            }
        }
    }

    /// Takes in the next line. After want of memory nothing is known of the table.
    pub fn step(&mut self, line: &Line) -> Result<(), Memory>
        ensures shows { OnOk result ((past : Past) → ShowsTransactions self.old past
            → ShowsTransactions self.new (line.now ∷ past)) }
    {
        match &line.entry {
            Entry::Txn { txn, who, xid, .. } => match line.at.node {
                Node::Client(_) => Ok(()),
                Node::Target(target) => {
                    if target == 0 {
                        self.by_stamp
                            .insert((line.at.stamp.0, ((who.client, who.life), xid.0)), *txn)?;
                    }
                    Ok(())
                }
            },
            _ => Ok(()),
        }
    }
}
