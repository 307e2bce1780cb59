//! Batches of names that a new service loads, and what it answers then.

ghost use Rattle.std.specs.Prelude.{◌+◌, length, IfOk, OnOk};
ghost use Rattle.lu_test_target.specs.Told.{IsNext, AreNext};

use super::rows::{BOOT, Told, Verb, found, op};
use super::values::{A, B};
use lu_base::{Lives, Memory, Txn, Who, Xid};
use lu_mdt::Mdt;
use lu_msg::{Batch, Batches, Errno, KeptReplies, Transaction, Transactions};
use lu_target_redo::{forget_all, load};
use std::alloc::Global;
use std::test::Fail;

/// A life's operation and the name of its path, which are a batch alone, and the lives that leave with it. The first one of
/// a table is transaction 1.1, the second one 1.2, and so on.
type Row = (Who, Verb, &'static [u8], &'static [Who]);

/// The batch of this row, whose transaction has that number.
fn batch_of(alloc: Global, row: Row, number: u64) -> Result<Batch, Memory>
    ensures next { IfOk result (IsNext number) }
{
    let mut transactions = Transactions::new(alloc);
    transactions.push(Transaction {
        txn: Txn(number),
        who: row.0,
        xid: Xid(1),
        tag: 0,
        op: op(alloc, row.1, row.2)?,
    })?;
    Ok(Batch {
        boot: 0,
        transactions,
        replies: KeptReplies::new(alloc),
        added: Lives::new(alloc),
        removed: Lives::from(Vec::from_slice(alloc, row.3)?),
    })
}

/// Puts the batch of this row behind the others; its transaction's number is the next one.
fn add(alloc: Global, batches: &mut Batches, row: Row, number: u64) -> Result<(), Memory>
    requires below { AreNext number batches.old }
    ensures more { OnOk result (AreNext (number + 1) batches.new) }
{
    batches.push(batch_of(alloc, row, number)?)
}

/// The batches of these rows.
fn batches_of(alloc: Global, rows: &[Row]) -> Result<Batches, Memory>
    ensures told { IfOk result (λ batches. AreNext (4294967297 + length rows.now) batches) }
{
    let mut batches = Batches::new(alloc);
    let mut number = BOOT;
    for row in rows {
        number += 1;
        add(alloc, &mut batches, *row, number)?;
    }
    Ok(batches)
}

/// New names, over one object storage target, that loaded these batches.
fn loaded(alloc: Global, rows: &[Row]) -> Result<Mdt, Memory> {
    let mut mdt = Mdt::new(alloc, 1)?;
    let batches = batches_of(alloc, rows)?;
    load(alloc, &mut mdt, batches.as_slice())?;
    Ok(mdt)
}

/// A directory is made, and goes in the batch with which the second life leaves.
const ROWS: [Row; 3] = [
    (A, Verb::Mkdir, b"a", &[]),
    (B, Verb::Mkdir, b"b", &[]),
    (A, Verb::Rmdir, b"a", &[B]),
];

/// The batches are performed in their order, and lives that are forgotten take no name with them.
#[test]
fn a_new_service_loads_batches(rt: HostRuntime) -> Result<(), Fail> {
    let alloc = rt.alloc();
    let mut mdt = loaded(alloc, &ROWS)?;
    forget_all(&mut mdt, &[B]);
    found(&rt, alloc, &mut mdt, b"b", Told::Dir(2))?;
    found(&rt, alloc, &mut mdt, b"a", Told::No(Errno::ENOENT))?;
    Ok(())
}
