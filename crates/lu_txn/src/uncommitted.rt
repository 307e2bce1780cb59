//! The transactions that aren't on the disk.

ghost use Rattle.std.specs.Prelude.{◌≡◌, ◌<◌, ◌≤◌, [], ◌∷◌, ◌++◌, length, take, drop, map, slice_get, IfOk, OnOk, OnErr};
ghost use Rattle.std.specs.Option.{option_copied};
ghost use Rattle.lu_txn.specs.Logs.{number, up_to, above, seen_by};
ghost use Rattle.lu_txn.specs.Commits.{last_replies};

use super::index::Index;
use super::logs::{Logged, seen_among};
use super::slots::Slots;
use lu_base::{Duplicate, Memory, Txn};
use lu_msg::{KeptReplies, Transactions};
use lu_part::Parts;
use std::alloc::Global;
use std::collections::VecDeque;
use std::marker::Model;

/// The transactions that aren't on the disk, in rising number.
#[derive(Debug, Drop)]
pub(crate) struct Uncommitted {
    alloc: Global,
    /// The greatest number of a transaction so far; 0 where there was none.
    newest: Txn,
    transactions: VecDeque<Logged>,
    /// The place of the first one in the index: how many were committed.
    first: usize,
    /// Where they stand by what they write.
    index: Index,
}

impl Model for Uncommitted {
    ghost use Rattle.lu_txn.specs.Logs.{LogState};
    ghost use Rattle.lu_txn.specs.Indexes.{IsFiled};

    ghost Value = { LogState };

    ghost view = { λ log. record { newest = log.newest.0; transactions = log.transactions.items } };

    ghost invariant = { λ log. IsFiled log.first log.newest.0 log.index log.transactions.items };
}

impl Uncommitted {
    /// None, where this is the greatest number so far. It takes no memory yet.
    pub(crate) fn new(alloc: Global, newest: Txn) -> Uncommitted
        ensures new { result ≡ record { newest = newest.0; transactions = [] } }
    {
        Uncommitted {
            alloc,
            newest,
            transactions: VecDeque::new(alloc),
            first: 0,
            index: Index::new(alloc),
        }
    }

    /// The greatest number so far.
    pub(crate) fn newest(&self) -> Txn
        ensures newest { result.0 ≡ self.now.newest }
    {
        self.newest
    }

    /// Adds a transaction. After want of memory all is as before.
    pub(crate) fn push(&mut self, logged: Logged) -> Result<(), Memory>
        requires above { self.old.newest < number logged }
        ensures added { OnOk result (self.new ≡ record {
          newest = number logged;
          transactions = self.old.transactions ++ logged ∷ [];
        }) }
        ensures kept { OnErr result (self.new ≡ self.old) }
    {
        let place = self.first + self.transactions.len();
        self.index.add(&logged.writes, place)?;
        let number = logged.transaction.txn;
        self.transactions.push_back(logged)?;
        self.newest = number;
        Ok(())
    }

    /// How many there are.
    pub(crate) fn len(&self) -> usize
        ensures count { result ≡ length self.now.transactions }
    {
        self.transactions.len()
    }

    /// The transaction at this place, from 0; none past the last.
    pub(crate) fn at(&self, place: usize) -> Option<&Logged>
        ensures logged { option_copied result ≡ slice_get self.now.transactions place }
    {
        self.transactions.get(place)
    }

    /// The numbers of those that what touches these parts has seen.
    pub(crate) fn seen(&self, touched: &Parts) -> Result<Vec<u64>, Memory>
        ensures seen { IfOk result (λ numbers. numbers.items ≡ seen_by touched.now self.now.transactions) }
    {
        let places = self.index.candidates(touched)?;
        let numbers = seen_among(self.alloc, &self.transactions, self.first, touched, &places)?;
        Ok(numbers)
    }

    /// How many have a number up to this one.
    fn count_to(&self, to: Txn) -> usize
        ensures bound { result ≤ length self.now.transactions }
        ensures front { take result self.now.transactions ≡ up_to to.0 self.now.transactions }
        ensures rest { drop result self.now.transactions ≡ above to.0 self.now.transactions }
    {
        self.transactions
            .partition_point(|logged| logged.transaction.txn <= to)
    }

    /// Copies of those up to this number.
    pub(crate) fn transactions_to(&self, to: Txn) -> Result<Transactions, Memory>
        ensures copies { IfOk result (λ copies.
            copies ≡ map (λ logged. logged.transaction) (up_to to.0 self.now.transactions)) }
    {
        let mut copies = Transactions::new(self.alloc);
        for place in 0..self.count_to(to) {
            copies.push(self.transactions[place].transaction.copy(self.alloc)?)?;
        }
        Ok(copies)
    }

    /// The last replies of each life and tag of those up to this number, by life and then by tag.
    pub(crate) fn replies_to(&self, to: Txn) -> Result<KeptReplies, Memory>
        ensures replies { IfOk result (λ replies. replies ≡ last_replies (up_to to.0 self.now.transactions)) }
    {
        let mut slots = Slots::new(self.alloc);
        let count = self.count_to(to);
        for place in 0..count {
            let logged = &self.transactions[place];
            slots.add(logged.transaction.who)?;
            let reply = logged.reply.copy(self.alloc)?;
            slots.keep(logged.transaction.who, logged.transaction.tag, reply);
        }
        slots.replies(self.alloc)
    }

    /// Takes the first one out.
    fn drop_first(&mut self)
        ensures left { self.new ≡ record self.old { transactions = drop 1 self.old.transactions } }
    {
        if let Some(gone) = self.transactions.pop_front() {
            self.index.remove(gone.into_writes(), self.first);
            self.first += 1;
        }
    }

    /// Takes those up to this number out. It takes no memory.
    pub(crate) fn drop_to(&mut self, to: Txn)
        ensures left { self.new ≡ record self.old { transactions = above to.0 self.old.transactions } }
    {
        for _place in 0..self.count_to(to) {
            self.drop_first();
        }
    }
}
