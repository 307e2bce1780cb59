//! What the batches on a disk tell.

ghost use Rattle.std.specs.Prelude.{◌≡◌, ◌<◌, [], IfOk, OnOk};
ghost use Rattle.lu_txn.specs.Loads.{nothing, last_number, with_batch, stored_by};

use super::slots::Slots;
use lu_base::{Memory, Txn, Who};
use lu_msg::{Batch, Batches, Transaction};
use std::alloc::Global;
use std::marker::Model;

/// What the batches so far tell.
#[derive(Debug, Drop)]
pub(crate) struct Stored {
    /// The number of the last transaction; 0 where there is none.
    pub(crate) committed: Txn,
    pub(crate) slots: Slots,
    /// The lives whose slots went.
    pub(crate) removed: Vec<Who>,
}

impl Model for Stored {
    ghost use Rattle.lu_txn.specs.Loads.{Stored as StoredState};

    ghost Value = { StoredState };

    ghost view = { λ stored. record {
      committed = stored.committed.0;
      slots = stored.slots;
      removed = stored.removed.items;
    } };
}

/// The number of the last of these transactions, or the number before them.
fn last_number(before: Txn, transactions: &[Transaction]) -> Txn
    ensures { result.0 ≡ last_number before.0 transactions.now }
{
    let mut last = before;
    for transaction in transactions {
        last = transaction.txn;
    }
    last
}

impl Stored {
    /// What no batch tells.
    fn new(alloc: Global) -> Stored
        ensures nothing { result ≡ nothing }
    {
        Stored {
            committed: Txn(0),
            slots: Slots::new(alloc),
            removed: Vec::new(alloc),
        }
    }

    /// Takes the next batch. After want of memory it may be taken in part.
    fn take(&mut self, alloc: Global, batch: &Batch) -> Result<(), Memory>
        ensures taken { OnOk result (self.new ≡ with_batch self.old batch.now) }
    {
        self.committed = last_number(self.committed, batch.transactions.as_slice());
        self.slots.add_all(batch.added.as_slice())?;
        self.slots.keep_all(alloc, batch.replies.as_slice())?;
        self.slots.remove_all(batch.removed.as_slice());
        self.slots.add_all(batch.added.as_slice())?;
        self.removed.extend_from_slice(batch.removed.as_slice())?;
        Ok(())
    }

    /// What these batches tell, in the order of their commits.
    pub(crate) fn by(alloc: Global, batches: &Batches) -> Result<Stored, Memory>
        ensures stored { IfOk result (λ stored. stored ≡ stored_by batches.now) }
    {
        let mut stored = Stored::new(alloc);
        for batch in batches.as_slice() {
            stored.take(alloc, batch)?;
        }
        Ok(stored)
    }
}
