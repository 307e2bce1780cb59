//! Operations on names, under numbers that may have been passed.

ghost use Rattle.std.specs.Prelude.{◌≡◌, ◌≤◌, ◌<◌, IfOk, OnOk};
ghost use Rattle.lu_posix.specs.Names.{asked, first_names, is_passed, answer_of, names_after, made_layout};

use super::striping::new_layout;
use lu_base::{Memory, Txn, Who};
use lu_layout::Layout;
use lu_msg::{Answer, Errno, Op};
use lu_tree::Tree;
use std::alloc::Global;
use std::marker::Model;

/// The names, over this many object storage targets, and the greatest number of an operation on names so far.
#[derive(Drop)]
pub(crate) struct Names {
    osts: u16,
    last: u64,
    tree: Tree,
}

impl Model for Names {
    ghost use Rattle.lu_posix.specs.Names.{NamesState, IsNames};

    ghost Value = { NamesState };

    ghost view = { λ names. record { osts = names.osts; last = names.last; tree = names.tree } };

    ghost invariant = { λ names. IsNames (record { osts = names.osts; last = names.last; tree = names.tree }) };
}

impl Names {
    /// The names of a new file system over this many object storage targets, 1 to 8.
    pub(crate) fn new(alloc: Global, osts: u16) -> Result<Names, Memory>
        requires some { 1 ≤ osts }
        requires most { osts ≤ 8 }
        ensures first { IfOk result (λ names. names ≡ first_names osts) }
    {
        Ok(Names {
            osts,
            last: 1,
            tree: Tree::new(alloc, osts)?,
        })
    }

    /// Whether the operation would make a transaction under a number that isn't above all before it.
    fn is_passed(&self, number: Txn, who: Who, op: &Op) -> bool
        ensures passed { result ≡ is_passed self.now (asked number who op.now) }
    {
        self.tree.changes(who, op) && !(self.last < number.0)
    }

    /// Performs an operation of a life under a number, and answers what the metadata target would. Where it would make a
    /// transaction, and the number isn't above all before it, it is refused with EBADF and changes nothing.
    pub(crate) fn perform(
        &mut self,
        alloc: Global,
        number: Txn,
        who: Who,
        op: &Op,
    ) -> Result<Answer, Memory>
        ensures answer { IfOk result (λ answer. answer ≡ answer_of self.old (asked number who op.now)) }
        ensures after { OnOk result (self.new ≡ names_after self.old (asked number who op.now)) }
    {
        if self.is_passed(number, who, op) {
            return Ok(Answer::Refused(Errno::EBADF));
        }
        let answer = self.tree.apply(alloc, number, who, op)?;
        self.last = self.last.max(number.0);
        Ok(answer)
    }

    /// What `perform` would answer. Nothing changes.
    pub(crate) fn answer(
        &self,
        alloc: Global,
        number: Txn,
        who: Who,
        op: &Op,
    ) -> Result<Answer, Memory>
        ensures answer { IfOk result (λ answer. answer ≡ answer_of self.now (asked number who op.now)) }
    {
        if self.is_passed(number, who, op) {
            return Ok(Answer::Refused(Errno::EBADF));
        }
        self.tree.answer(alloc, number, who, op)
    }

    /// The layout of the file that the operation made, if it made one, by its answer.
    pub(crate) fn made(&self, number: Txn, op: &Op, answer: &Answer) -> Option<Layout>
        ensures made { result ≡ made_layout self.now.osts number op.now answer.now }
    {
        match (op, answer) {
            (Op::Create { size, count, .. }, Answer::Made(_)) => {
                new_layout(self.osts, number, *size, *count)
            }
            _ => None,
        }
    }
}
