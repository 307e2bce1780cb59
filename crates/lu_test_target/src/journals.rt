//! Journals: numbers, slots, what an operation has seen, batches, and the journal of the next boot.

ghost use Rattle.std.specs.Prelude.{◌≡◌, ◌+◌, ◌*◌, ◌^◌, ◌<◌, ◌≤◌, true, All};
ghost use Rattle.lu_txn.specs.Loads.{AreBelow};

use crate::values::{A, B, FIRST, mkdir, reply};
use lu_base::{Bytes, Fid, Memory, Numbers, Txn, Who, Xid};
use lu_msg::{Batch, Batches, Transaction};
use lu_part::{Part, Parts};
use lu_txn::{Journal, Seen, TxnError};
use std::alloc::Global;
use std::test::Fail;

/// Appends the transaction of boot 1 and this count, request 1 of `A`, which writes the name `a` in inode 1.
fn append_at(alloc: Global, journal: &mut Journal, count: u32) -> Result<(), Fail>
    requires above { journal.old.newest < 4294967296 + count }
    requires boot { 4294967296 + count < (journal.old.boot + 1) * 2 ^ 32 }
    ensures newest { journal.new.newest ≤ 4294967296 + count }
    ensures boot { journal.new.boot ≡ journal.old.boot }
{
    let number = Txn(4_294_967_296 + u64::from(count));
    let op = mkdir(alloc)?;
    let mut writes = Parts::new(alloc);
    writes.push(Part::Name(Fid(1), Bytes::from_slice(alloc, b"a")?))?;
    journal.append(number, A, 0, op, writes, reply(alloc, A, 1, number))?;
    Ok(())
}

/// What a request of tag 0 is when it is looked up.
fn looked(journal: &Journal, who: Who, xid: u64) -> &'static str {
    match journal.look(who, 0, Xid(xid)) {
        Ok(Seen::New) => "new",
        Ok(Seen::Again(_)) => "again",
        Ok(Seen::Old) => "old",
        Err(TxnError::NoSlot) => "no slot",
        Err(_) => "other",
    }
}

/// What touches the list of inode 1 has seen.
fn seen(alloc: Global, journal: &Journal) -> Result<Numbers, Memory> {
    let mut touched = Parts::new(alloc);
    touched.push(Part::List(Fid(1)))?;
    journal.seen(&touched)
}

/// All is committed.
fn commit_all(journal: &mut Journal) -> Result<(), Fail> {
    match journal.uncommitted(0) {
        Some(to) => {
            journal.committed(to);
            Ok(())
        }
        None => Err(Fail::from("nothing to commit")),
    }
}

#[test]
fn a_transaction_is_looked_up_and_seen(rt: HostRuntime) -> Result<(), Fail> {
    let alloc = rt.alloc();
    let mut journal = Journal::start(alloc, &[A])?;
    assert_eq!(rt; journal.next(), Ok(Txn(FIRST)));
    append_at(alloc, &mut journal, 1)?;
    for (xid, word) in [(1, "again"), (2, "new"), (0, "old")] {
        assert_eq!(rt; looked(&journal, A, xid), word);
    }
    assert_eq!(rt; looked(&journal, B, 1), "no slot");
    assert_eq!(rt; seen(alloc, &journal)?.as_slice(), [FIRST].as_slice());
    assert_eq!(rt; journal.uncommitted_count(), 1);
    commit_all(&mut journal)?;
    assert!(rt; seen(alloc, &journal)?.is_empty());
    assert_eq!(rt; journal.last_committed(), Txn(FIRST));
    Ok(())
}

#[test]
fn the_last_number_of_a_boot_is_given_once(rt: HostRuntime) -> Result<(), Fail> {
    let mut journal = Journal::start(rt.alloc(), &[A])?;
    append_at(rt.alloc(), &mut journal, 4_294_967_294)?;
    assert_eq!(rt; journal.next(), Ok(Txn(8_589_934_591)));
    append_at(rt.alloc(), &mut journal, 4_294_967_295)?;
    assert_eq!(rt; journal.next(), Err(TxnError::NumbersSpent));
    Ok(())
}

/// Lives get and lose slots, and a reply to one without a slot isn't kept.
#[test]
fn lives_have_slots(rt: HostRuntime) -> Result<(), Fail> {
    let alloc = rt.alloc();
    let mut journal = Journal::start(alloc, &[A])?;
    let refused = journal.keep(B, 0, reply(alloc, B, 1, Txn(0)));
    assert_eq!(rt; refused, Err(TxnError::NoSlot));
    journal.add_slot(B)?;
    assert_eq!(rt; journal.keep(B, 0, reply(alloc, B, 1, Txn(0))), Ok(()));
    assert!(rt; journal.reply(B, 0).is_some());
    journal.drop_slot(A);
    assert_eq!(rt; journal.life(0), Some(B));
    assert!(rt; journal.is_over(A) && !journal.is_over(B));
    Ok(())
}

/// Whether these transactions are of boots below this one.
fn are_low(transactions: &[Transaction], boot: u32) -> bool
    ensures low { result ≡ true → All (λ transaction. transaction.txn.0 < boot * 2 ^ 32) transactions.now }
{
    let bound = u64::from(boot) << 32;
    transactions.iter().all(|made| made.txn.0 < bound)
}

/// Whether all transactions are of boots below this one.
fn are_below(batches: &[Batch], boot: u32) -> bool
    ensures below { result ≡ true → AreBelow boot batches.now }
{
    batches
        .iter()
        .all(|batch| are_low(batch.transactions.as_slice(), boot))
}

/// The journal of boot 2 over one batch.
fn booted(alloc: Global, batch: Batch) -> Result<Journal, Fail> {
    let mut batches = Batches::new(alloc);
    batches.push(batch)?;
    if !are_below(batches.as_slice(), 2) {
        return Err(Fail::from("a transaction of a later boot"));
    }
    Ok(Journal::new(alloc, &batches, 2)?)
}

/// A batch holds the new lives, and the next boot's journal has them.
#[test]
fn a_boot_finds_the_lives_of_a_batch(rt: HostRuntime) -> Result<(), Fail> {
    let alloc = rt.alloc();
    let journal = Journal::start(alloc, &[A])?;
    let batch = journal.batch(journal.last_committed())?;
    assert_eq!(rt; batch.boot, 1);
    assert_eq!(rt; batch.added.as_slice(), [A].as_slice());
    let journal = booted(alloc, batch)?;
    assert_eq!(rt; journal.next(), Ok(Txn(8_589_934_593)));
    assert_eq!(rt; journal.life(0), Some(A));
    Ok(())
}
