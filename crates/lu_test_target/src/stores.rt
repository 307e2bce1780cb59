//! Requests, commits, lives and boots of a store.

ghost use Rattle.std.specs.Prelude.{◌≡◌, ◌<◌, [], ◌∷◌, IfOk, IsSome};
ghost use Rattle.lu_msg.specs.Limits.{tag_count};
ghost use Rattle.lu_txn.specs.Slots.{slot_of};
ghost use Rattle.lu_test_target.specs.Disks.{IsOne};

use crate::values::{A, B, NEXT, reply};
use lu_base::{Fid, Lives, Memory, Numbers, Path, Txn, Who, Xid};
use lu_disk::{Disk, MemoryDisk};
use lu_msg::{Batch, KeptReplies, Op, Request, Transactions};
use lu_part::{Part, Parts};
use lu_target_store::{Look, Store, StoreFault};
use std::alloc::Global;
use std::test::Fail;

/// The number of boot 1 and this count.
const fn first(count: u64) -> Txn {
    Txn(4_294_967_296 + count % 4_294_967_296)
}

/// A store over a disk whose calls of these numbers fail, with slots for A and B.
fn begun(alloc: Global, failing: &[u64]) -> Result<Result<Store<MemoryDisk>, StoreFault>, Fail> {
    let failing = Numbers::from(Vec::from_slice(alloc, failing)?);
    let disk = MemoryDisk::new(alloc, failing);
    match Store::start(alloc, disk, &[A, B]) {
        Ok(store) => Ok(Ok(store)),
        Err((_, fault)) => Ok(Err(fault)),
    }
}

fn request(alloc: Global, who: Who, tag: u8, xid: u64) -> Request
    ensures who { result.who ≡ who }
    ensures tag { result.tag ≡ tag }
{
    Request {
        who,
        boot: 1,
        xid: Xid(xid),
        tag,
        op: Op::Lookup(Path::new(alloc)),
    }
}

/// What becomes of a request.
#[derive(Clone, Copy, Debug)]
enum Step {
    /// It is taken.
    Taken,
    /// It is taken and answered.
    Answered,
    /// It is taken and makes a transaction.
    Made,
}

/// A request of this life, tag and number comes. The tag is below 8.
fn comes(
    alloc: Global,
    store: &mut Store<MemoryDisk>,
    step: Step,
    who: Who,
    tag: u8,
    xid: u64,
) -> Result<(), Fail>
    requires tag { tag < tag_count }
{
    if !store.serves(who) {
        return Err(Fail::from(Memory));
    }
    match step {
        Step::Taken => Ok(store.enter(&request(alloc, who, tag, xid))?),
        Step::Answered => answered(alloc, store, who, tag, xid),
        Step::Made => made(alloc, store, who, tag, xid, Parts::new(alloc)),
    }
}

/// It is taken and answered.
fn answered(
    alloc: Global,
    store: &mut Store<MemoryDisk>,
    who: Who,
    tag: u8,
    xid: u64,
) -> Result<(), Fail>
    requires tag { tag < tag_count }
    requires slot { IsSome (slot_of who store.old.journal.slots) }
{
    store.enter(&request(alloc, who, tag, xid))?;
    store.keep(tag, reply(alloc, who, xid, Txn(0)))?;
    Ok(())
}

/// It is taken and makes the next transaction, which writes these parts.
fn made(
    alloc: Global,
    store: &mut Store<MemoryDisk>,
    who: Who,
    tag: u8,
    xid: u64,
    writes: Parts,
) -> Result<(), Fail>
    requires tag { tag < tag_count }
    requires slot { IsSome (slot_of who store.old.journal.slots) }
{
    store.enter(&request(alloc, who, tag, xid))?;
    let number = store.next()?;
    let op = Op::Mkdir(Path::new(alloc));
    store.append(tag, op, writes, reply(alloc, who, xid, number))?;
    Ok(())
}

/// At the close of a window a kept replay of this life is the next transaction again.
fn redone(alloc: Global, store: &mut Store<MemoryDisk>, who: Who, tag: u8) -> Result<Txn, Fail>
    requires tag { tag < tag_count }
{
    if !store.serves(who) {
        return Err(Fail::from(Memory));
    }
    let number = store.next()?;
    let op = Op::Mkdir(Path::new(alloc));
    let writes = Parts::new(alloc);
    store.redo(tag, op, writes, reply(alloc, who, 7, number))?;
    Ok(number)
}

/// What a number says, in a word.
fn looked(store: &Store<MemoryDisk>, who: Who, tag: u8, xid: u64) -> &'static str
    requires tag { tag < tag_count }
{
    match store.look(who, tag, Xid(xid)) {
        Look::New => "new",
        Look::Again(_) => "again",
        Look::Waits => "waits",
        Look::Old => "old",
    }
}

#[test]
fn a_number_stands_beside_the_newest_request(rt: HostRuntime) -> Result<(), Fail> {
    let alloc = rt.alloc();
    let mut store = begun(alloc, &[])??;
    comes(alloc, &mut store, Step::Answered, A, 0, 5)?;
    for (xid, word) in [(4, "old"), (5, "again"), (6, "new")] {
        assert_eq!(rt; looked(&store, A, 0, xid), word);
    }
    comes(alloc, &mut store, Step::Taken, A, 0, 6)?;
    assert_eq!(rt; looked(&store, A, 0, 6), "waits");
    Ok(())
}

/// The attributes of this inode.
fn attributes(alloc: Global, inode: u64) -> Result<Parts, Memory> {
    let mut parts = Parts::new(alloc);
    parts.push(Part::Attr(Fid(inode)))?;
    Ok(parts)
}

/// A life's request of tag 0 and this number makes a transaction that writes the attributes of this inode.
fn wrote(
    alloc: Global,
    store: &mut Store<MemoryDisk>,
    who: Who,
    xid: u64,
    inode: u64,
) -> Result<(), Fail> {
    if !store.serves(who) {
        return Err(Fail::from(Memory));
    }
    made(alloc, store, who, 0, xid, attributes(alloc, inode)?)
}

/// Whether these are the numbers that an operation has seen which touches the attributes of this inode.
fn sees(
    alloc: Global,
    store: &Store<MemoryDisk>,
    inode: u64,
    numbers: &[u64],
) -> Result<bool, Fail> {
    let seen = store.seen(&attributes(alloc, inode)?)?;
    Ok(seen.as_slice() == numbers)
}

#[test]
fn the_first_transactions_are_committed(rt: HostRuntime) -> Result<(), Fail> {
    let alloc = rt.alloc();
    let mut store = begun(alloc, &[])??;
    for (who, xid, inode) in [(A, 1, 7), (B, 1, 8), (A, 2, 7)] {
        wrote(alloc, &mut store, who, xid, inode)?;
    }
    assert!(rt; sees(alloc, &store, 7, &[first(1).0, first(3).0])?);
    assert_eq!(rt; store.commit(Some(1))?, Some(first(1)));
    assert!(rt; sees(alloc, &store, 7, &[first(3).0])?);
    assert_eq!(rt; store.commit(None)?, Some(first(3)));
    assert_eq!(rt; store.last_committed(), first(3));
    Ok(())
}

#[test]
fn a_failing_disk_keeps_what_it_had(rt: HostRuntime) -> Result<(), Fail> {
    let alloc = rt.alloc();
    if let Err(fault) = begun(alloc, &[0])? {
        assert_eq!(rt; fault, StoreFault::Disk);
    } else {
        return Err(Fail::from(Memory));
    }
    let mut store = begun(alloc, &[1])??;
    comes(alloc, &mut store, Step::Made, A, 0, 1)?;
    assert_eq!(rt; store.commit(None), Err(StoreFault::Disk));
    assert_eq!(rt; store.last_committed(), Txn(0));
    let mut disk = store.into_disk();
    assert_eq!(rt; disk.load()?.len(), 1);
    Ok(())
}

/// The old life leaves and the new one comes, with all that isn't on the disk.
fn replaced(store: &mut Store<MemoryDisk>, old: Who, new: Who) -> Result<Txn, Fail> {
    if !store.serves(old) || store.serves(new) {
        return Err(Fail::from(Memory));
    }
    Ok(store.move_lives(&[old], &[new])?)
}

#[test]
fn a_life_takes_the_place_of_another(rt: HostRuntime) -> Result<(), Fail> {
    let alloc = rt.alloc();
    let mut store = begun(alloc, &[])??;
    comes(alloc, &mut store, Step::Made, A, 0, 1)?;
    assert_eq!(rt; replaced(&mut store, A, NEXT)?, first(1));
    assert!(rt; store.is_over(A) && store.serves(B) && store.serves(NEXT));
    assert_eq!(rt; store.life_of(alloc, 0)?, Some(NEXT));
    assert_eq!(rt; store.lives(alloc)?.len(), 2);
    Ok(())
}

/// A disk whose one batch is that of boot 3, in which B got a slot.
fn disk_of_boot_3(alloc: Global) -> Result<MemoryDisk, Fail>
    ensures batch { IfOk result (λ disk. IsOne disk.batches) }
{
    let mut disk = MemoryDisk::new(alloc, Numbers::new(alloc));
    disk.commit(&Batch {
        boot: 3,
        transactions: Transactions::new(alloc),
        replies: KeptReplies::new(alloc),
        added: Lives::from(Vec::from_slice(alloc, &[B])?),
        removed: Lives::new(alloc),
    })?;
    Ok(disk)
}

/// The store of the target that boots over it.
fn booted(alloc: Global) -> Result<Store<MemoryDisk>, Fail> {
    let mut disk = disk_of_boot_3(alloc)?;
    let batches = disk.load()?;
    match Store::boot(alloc, disk, &batches) {
        Ok(store) => Ok(store),
        Err((_, fault)) => Err(Fail::from(fault)),
    }
}

#[test]
fn a_kept_replay_goes_to_the_disk_at_the_close(rt: HostRuntime) -> Result<(), Fail> {
    let alloc = rt.alloc();
    let mut store = booted(alloc)?;
    assert!(rt; store.serves(B) && !store.serves(A));
    assert_eq!(rt; store.boot_number(), 4);
    let number = redone(alloc, &mut store, B, 2)?;
    assert_eq!(rt; number, Txn(4 * 4_294_967_296 + 1));
    assert_eq!(rt; replaced(&mut store, B, A)?, number);
    let mut disk = store.into_disk();
    assert_eq!(rt; disk.load()?.len(), 3);
    Ok(())
}
