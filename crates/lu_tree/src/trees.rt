//! The tree of the metadata target, and what it answers.

ghost use Rattle.std.specs.Prelude.{◌≡◌, ◌<◌, ◌≤◌, true, IfOk, OnOk, OnErr};
ghost use Rattle.lu_base.specs.declared.ids.Txn.{Txn as SpecTxn};
ghost use Rattle.lu_spec_machine.specs.Footprint as footprint;
ghost use Rattle.lu_tree.specs.State.{fresh, asked, performed, forgotten};

use super::ends::{bits, changes, last_used};
use super::inodes::Inodes;
use super::operations::whole_path;
use super::touches::{push_looked, push_written};
use lu_base::{Memory, Txn, Who};
use lu_msg::{Answer, Op};
use lu_part::{Parts, Wants};
use std::alloc::Global;
use std::marker::Model;

/// The names of a file system, with the inodes to which they lead.
#[derive(Drop)]
pub struct Tree {
    osts: u16,
    /// The greatest number that was used.
    last: u64,
    inodes: Inodes,
}

impl Model for Tree {
    ghost use Rattle.lu_tree.specs.State.{TreeState, IsSound};

    ghost Value = { TreeState };

    ghost view = { λ a. record { osts = a.osts; last = a.last; tree = a.inodes } };

    ghost invariant = { λ a. IsSound (record { osts = a.osts; last = a.last; tree = a.inodes }) };
}

impl Tree {
    /// The tree of a new file system over this many object storage targets, 1 to 8: the root without names.
    pub fn new(alloc: Global, osts: u16) -> Result<Tree, Memory>
        requires some { 1 ≤ osts }
        requires most { osts ≤ 8 }
        ensures fresh { IfOk result (λ tree. tree ≡ fresh osts) }
    {
        Ok(Tree {
            osts,
            last: 1,
            inodes: Inodes::new(alloc)?,
        })
    }

    /// Performs an operation of a life, as transaction `number` if it makes one, which is then above all numbers
    /// used before. A refusal, and after want of memory everything, leaves the tree as it was.
    pub fn apply(&mut self, alloc: Global, number: Txn, who: Who, op: &Op) -> Result<Answer, Memory>
        requires above { footprint.changes self.old.osts self.old.tree (asked number who op.now) ≡ true →
            self.old.last < number.0 }
        ensures answer { IfOk result (λ answer. answer ≡ footprint.answer self.old.osts self.old.tree
            (asked number who op.now)) }
        ensures after { OnOk result (self.new ≡ performed self.old (asked number who op.now)) }
        ensures kept { OnErr result (self.new ≡ self.old) }
    {
        let end = self.inodes.end(self.osts, op);
        let answer = self.inodes.answer(alloc, number, end)?;
        self.inodes.perform(alloc, self.osts, number, who, end)?;
        self.last = last_used(self.last, number, end);
        Ok(answer)
    }

    /// What the operation would be answered, as transaction `number` if it makes one. The tree stays.
    pub fn answer(&self, alloc: Global, number: Txn, who: Who, op: &Op) -> Result<Answer, Memory>
        ensures answer { IfOk result (λ answer. answer ≡ footprint.answer self.now.osts self.now.tree
            (asked number who op.now)) }
    {
        let end = self.inodes.end(self.osts, op);
        self.inodes.answer(alloc, number, end)
    }

    /// Whether the operation would make a transaction.
    pub fn changes(&self, _who: Who, op: &Op) -> bool
        ensures changes { (number : SpecTxn) → result ≡ footprint.changes self.now.osts self.now.tree
            (asked number _who op.now) }
    {
        changes(self.inodes.end(self.osts, op))
    }

    /// The parts that the operation would touch, in the order in which it looks at them.
    pub fn touches(&self, alloc: Global, _who: Who, op: &Op) -> Result<Parts, Memory>
        ensures touches { IfOk result (λ parts. (number : SpecTxn) → parts
            ≡ footprint.touches self.now.osts self.now.tree (asked number _who op.now)) }
    {
        let mut parts = Parts::new(alloc);
        self.inodes.push_names(alloc, &mut parts, op)?;
        push_looked(&mut parts, self.inodes.end(self.osts, op))?;
        Ok(parts)
    }

    /// The parts that the operation would write, none where it is refused.
    pub fn writes(&self, alloc: Global, _who: Who, op: &Op) -> Result<Parts, Memory>
        ensures writes { IfOk result (λ parts. (number : SpecTxn) → parts
            ≡ footprint.writes self.now.osts self.now.tree (asked number _who op.now)) }
    {
        let mut parts = Parts::new(alloc);
        push_written(alloc, &mut parts, self.inodes.end(self.osts, op))?;
        Ok(parts)
    }

    /// The locks that would come with the answer, in order, none where it is refused or makes a transaction.
    pub fn grants(&self, alloc: Global, _who: Who, op: &Op) -> Result<Wants, Memory>
        ensures grants { IfOk result (λ wants. (number : SpecTxn) → wants
            ≡ footprint.grants self.now.osts self.now.tree (asked number _who op.now)) }
    {
        match bits(self.inodes.end(self.osts, op)) {
            Some(more) => self.inodes.wants(alloc, whole_path(op), more),
            None => Ok(Wants::new(alloc)),
        }
    }

    /// Forgets the opens of a life.
    pub fn forget(&mut self, who: Who)
        ensures forgotten { self.new ≡ forgotten self.old who }
    {
        self.inodes.forget(who);
    }
}
