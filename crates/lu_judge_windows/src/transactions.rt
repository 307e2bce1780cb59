//! The transactions of the targets.

ghost use Rattle.std.specs.Prelude.{◌≡◌, ℕ, ◌==◌, if◌then◌else◌, [], ◌∷◌, ◌++◌, map, OnOk};
ghost use Rattle.std.specs.Option.{option_map_or};
ghost use Rattle.lu_trace.specs.declared.entries.Line.{Line};
ghost use Rattle.lu_spec_laws.specs.Words.Pasts.{Past};
ghost use Rattle.lu_judge_windows.specs.Transactions.{transaction_of, has_transaction, transactions_in, ShowsTransactions};

use super::slices::or_none;
use lu_base::{Memory, Node, Numbers, Who};
use lu_trace::{Entry, Line};
use std::alloc::Global;
use std::collections::{HashMap, HashSet};

/// A transaction, whose it is, and what it has seen.
#[derive(Clone, Copy, Debug)]
pub(crate) struct Done<'a> {
    pub(crate) number: u64,
    pub(crate) who: Who,
    pub(crate) seen: &'a Numbers,
}

/// The transactions of each target so far.
#[derive(Debug, Drop)]
pub(crate) struct Transactions<'a> {
    alloc: Global,
    /// Of each target in the order of their lines.
    in_order: HashMap<u16, Vec<Done<'a>>>,
    numbers: HashSet<(u16, u64)>,
}

impl<'a> Transactions<'a> {
    /// Of no line. It takes no memory yet.
    pub(crate) fn new(alloc: Global) -> Transactions<'a>
        ensures shows { ShowsTransactions result [] }
    {
        Transactions {
            alloc,
            in_order: HashMap::new(alloc),
            numbers: HashSet::new(alloc),
        }
    }

    /// Whether a transaction of the target has this number.
    pub(crate) fn has(&self, target: u16, number: u64) -> bool
        ensures there { result ≡ has_transaction self.now target number }
    {
        self.numbers.contains(&(target, number))
    }

    /// The transactions of the target, where it has any.
    fn find(&self, target: u16) -> Option<&[Done<'a>]>
        ensures all { map transaction_of (option_map_or (λ all. all.now) result []) ≡ transactions_in self.now target }
    {
        match self.in_order.get(&target) {
            Some(all) => Some(all.as_slice()),
            None => None,
        }
    }

    /// The transactions of the target, the first one first.
    pub(crate) fn all(&self, target: u16) -> &[Done<'a>]
        ensures all { map transaction_of result.now ≡ transactions_in self.now target }
    {
        or_none(self.find(target))
    }

    /// Puts a transaction at the end of those of the target.
    fn push(&mut self, target: u16, done: Done<'a>) -> Result<(), Memory>
        ensures pushed { OnOk result ((t : ℕ) → transactions_in self.new t
            ≡ (if target == t then transactions_in self.old target
            ++ transaction_of done.entry ∷ [] else transactions_in self.old t)) }
        ensures same { OnOk result (self.new.numbers ≡ self.old.numbers) }
    {
        match self.in_order.get_mut(&target) {
            Some(all) => {
                all.push(done)?;
                Ok(())
            }
            None => {
                let mut all = Vec::new(self.alloc);
                all.push(done)?;
                self.in_order.insert(target, all)?;
                Ok(())
            }
        }
    }

    /// Takes in the next line. After want of memory nothing is known of the table.
    pub(crate) fn step(&mut self, line: &'a Line) -> Result<(), Memory>
        ensures shows { OnOk result ((past : Past) → ShowsTransactions self.old past
            → ShowsTransactions self.new (line.now ∷ past)) }
    {
        match &line.entry {
            Entry::Txn { txn, who, seen, .. } => match line.at.node {
                Node::Target(target) => {
                    let done = Done {
                        number: txn.0,
                        who: *who,
                        seen,
                    };
                    self.push(target, done)?;
                    self.numbers.insert((target, txn.0))?;
                    Ok(())
                }
                Node::Client(_) => Ok(()),
            },
            _ => Ok(()),
        }
    }
}
