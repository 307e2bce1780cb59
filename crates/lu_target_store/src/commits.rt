//! What goes from a journal to a disk.

ghost use Rattle.std.specs.Prelude.{◌≡◌, ℕ, ◌+◌, ◌≤◌, [], ◌∷◌, ◌++◌, length, take, map, IfErr, OnOk, OnErr};
ghost use Rattle.lu_txn.specs.Logs.{number};
ghost use Rattle.lu_txn.specs.Commits.{batch_of, after_commit};
ghost use Rattle.lu_txn.specs.Journals.{IsSound};
ghost use Rattle.lu_target_refines.specs.Batches.{left_by, joined_by};
ghost use Rattle.lu_target_store.specs.Commits.{counted, last_in, HasCause, IsOfDisk, last_boot};

use super::faults::StoreFault;
use lu_base::{Memory, Txn, Who};
use lu_disk::Disk;
use lu_msg::Batch;
use lu_txn::Journal;

/// The last boot among these batches, 0 where there is none.
pub(crate) fn last_boot(batches: &[Batch]) -> u32
    ensures boot { result ≡ last_boot batches.now }
{
    let mut last = 0;
    for batch in batches {
        last = batch.boot.max(last);
    }
    last
}

/// How many of `all` transactions are the first `count`; all where there is no count.
pub(crate) fn counted(count: Option<u32>, all: usize) -> usize
    ensures first { result ≡ counted count all }
{
    match count {
        Some(count) => all.min(count as usize),
        None => all,
    }
}

/// The number of the last of the first `count` transactions that aren't on the disk; that of the last one there where
/// `count` is 0. There are so many.
pub(crate) fn last_of_first(journal: &Journal, count: usize) -> Txn
    requires there { count ≤ length journal.now.transactions }
    requires sound { journal.now.committed ≤ journal.now.newest }
    ensures last { result.0 ≡ last_in journal.now.committed (take count journal.now.transactions) }
    ensures order { journal.now.committed ≤ result.0 }
    ensures given { result.0 ≤ journal.now.newest }
{
    if count == 0 {
        return journal.last_committed();
    }
    match journal.uncommitted(count - 1) {
        Some(number) => number,
        None => unreachable!(),
    }
}

/// Drops the slots of these lives.
pub(crate) fn drop_slots(journal: &mut Journal, gone: &[Who])
    ensures left { journal.new ≡ left_by gone.now journal.old }
    ensures boot { journal.new.boot ≡ journal.old.boot }
{
    for who in gone {
        journal.drop_slot(*who);
    }
}

/// Adds slots for these lives. After want of memory some may have got theirs.
pub(crate) fn add_slots(journal: &mut Journal, come: &[Who]) -> Result<(), Memory>
    ensures joined { OnOk result (journal.new ≡ joined_by come.now journal.old) }
    ensures boot { journal.new.boot ≡ journal.old.boot }
{
    for who in come {
        journal.add_slot(*who)?;
    }
    Ok(())
}

/// Commits all up to this number. After an error nothing has changed but the disk's count of faults.
pub(crate) fn write<D: Disk>(journal: &mut Journal, disk: &mut D, to: Txn) -> Result<(), StoreFault>
    requires order { journal.old.committed ≤ to.0 }
    requires given { to.0 ≤ journal.old.newest }
    ensures committed { OnOk result (journal.new ≡ after_commit to.0 journal.old) }
    ensures stored { OnOk result (D.batches disk.new ≡ D.batches disk.old ++ batch_of to.0 journal.old ∷ []) }
    ensures journal { OnErr result (journal.new ≡ journal.old) }
    ensures boot { journal.new.boot ≡ journal.old.boot }
    ensures kept { OnErr result (D.batches disk.new ≡ D.batches disk.old) }
    ensures cause { HasCause (D.faults disk.old) (D.faults disk.new) result }
    ensures faults { IfErr result IsOfDisk }
    ensures sound { OnOk result (IsSound journal.new) }
{
    let batch = journal.batch(to)?;
    disk.commit(&batch)?;
    journal.committed(to);
    Ok(())
}
