//! The names that some transactions leave.

ghost use Rattle.std.specs.Prelude.{◌≡◌, ◌≤◌, IfOk, OnOk};
ghost use Rattle.std.specs.Option.{option_map};
ghost use Rattle.lu_tree.specs.State.{asked as act};
ghost use Rattle.lu_judge_names.specs.Events.{marked_of};
ghost use Rattle.lu_judge_names.specs.Names.{no_names, state_writes, state_touches, state_wants, acted, forgot, changed_by};

use super::events::Event;
use lu_base::{Memory, Txn, Who};
use lu_msg::Op;
use lu_part::{Parts, Wants};
use lu_tree::Tree;
use std::alloc::Global;
use std::marker::Model;

/// The names, and the greatest number of a transaction that was performed.
#[derive(Drop)]
pub(crate) struct Names {
    osts: u16,
    tree: Tree,
    greatest: u64,
}

impl Model for Names {
    ghost use Rattle.lu_judge_names.specs.Names.{NamesState, IsWell};

    ghost Value = { NamesState };

    ghost view = { λ n. record { tree = n.tree; greatest = n.greatest } };

    ghost invariant = { λ n. IsWell n.osts n.tree n.greatest };
}

impl Names {
    /// Of an empty file system over this many object storage targets, 1 to 8.
    pub(crate) fn new(alloc: Global, osts: u16) -> Result<Names, Memory>
        requires some { 1 ≤ osts }
        requires most { osts ≤ 8 }
        ensures { IfOk result (λ names. names ≡ no_names osts) }
    {
        Ok(Names {
            osts,
            tree: Tree::new(alloc, osts)?,
            greatest: 0,
        })
    }

    /// Of an empty file system over as many object storage targets.
    pub(crate) fn anew(&self, alloc: Global) -> Result<Names, Memory>
        ensures { IfOk result (λ names. names ≡ no_names self.now.tree.osts) }
    {
        Names::new(alloc, self.osts)
    }

    /// What an operation would write; without one nothing.
    pub(crate) fn writes(
        &self,
        alloc: Global,
        number: Txn,
        who: Who,
        op: Option<&Op>,
    ) -> Result<Parts, Memory>
        ensures { IfOk result (λ parts. parts
            ≡ state_writes self.now.tree number who (option_map (λ o. o.now) op.entry)) }
    {
        match op {
            Some(op) => self.tree.writes(alloc, who, op),
            None => Ok(Parts::new(alloc)),
        }
    }

    /// What an operation would touch; without one nothing.
    pub(crate) fn touches(
        &self,
        alloc: Global,
        number: Txn,
        who: Who,
        op: Option<&Op>,
    ) -> Result<Parts, Memory>
        ensures { IfOk result (λ parts. parts
            ≡ state_touches self.now.tree number who (option_map (λ o. o.now) op.entry)) }
    {
        match op {
            Some(op) => self.tree.touches(alloc, who, op),
            None => Ok(Parts::new(alloc)),
        }
    }

    /// The locks that an operation would ask for; without one none.
    pub(crate) fn wants(&self, alloc: Global, who: Who, op: Option<&Op>) -> Result<Wants, Memory>
        ensures { IfOk result (λ wants. wants
            ≡ state_wants self.now.tree who (option_map (λ o. o.now) op.entry)) }
    {
        match op {
            Some(op) => self.tree.grants(alloc, who, op),
            None => Ok(Wants::new(alloc)),
        }
    }

    /// Performs an operation, if its number is above the root's and all before.
    fn act(&mut self, alloc: Global, number: Txn, who: Who, op: &Op) -> Result<(), Memory>
        ensures { OnOk result (self.new ≡ acted self.old (act number who op.now)) }
    {
        if self.greatest.max(1) < number.0 {
            self.tree.apply(alloc, number, who, op)?;
            self.greatest = number.0;
        }
        Ok(())
    }

    /// Forgets the opens of a life.
    fn forget(&mut self, who: Who)
        ensures { self.new ≡ forgot self.old who }
    {
        self.tree.forget(who);
    }

    /// Goes on to after this event.
    pub(crate) fn step(&mut self, alloc: Global, event: Event) -> Result<(), Memory>
        ensures { OnOk result (self.new
            ≡ changed_by self.old (marked_of event.entry).item (marked_of event.entry).lost) }
    {
        match event {
            Event::Transaction { lost: true, .. } => Ok(()),
            Event::Transaction {
                number,
                who,
                op,
                ..
            } => self.act(alloc, number, who, op),
            Event::Eviction(who) => {
                self.forget(who);
                Ok(())
            }
        }
    }
}
