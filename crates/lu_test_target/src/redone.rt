//! Replays of names, and what the service of names answers once they were performed again.

ghost use Rattle.std.specs.Prelude.{◌+◌, length, IfOk, OnOk};
ghost use Rattle.lu_test_target.specs.Kept.{AreKept};

use super::rows::{BOOT, Told, Verb, answer, found, op};
use super::values::{A, B};
use lu_base::{At, Memory, Node, Numbers, Stamp, Txn, Who, Xid};
use lu_mdt::Mdt;
use lu_msg::Errno;
use lu_replay::Replay;
use lu_target_redo::{Close, Deed, Deeds, close_window, redo};
use lu_window::{KeptReplay, KeptReplays};
use std::alloc::Global;
use std::process::Abort;
use std::test::Fail;

/// A close in boot 2, with nothing of boot 1 on the disk.
const CLOSE: Close = Close {
    at: At {
        stamp: Stamp(9),
        node: Node::Target(0),
    },
    boot: 2,
    committed: Txn(0),
};

/// A life's operation, the name of its path, what it must answer, and whether it writes anything. The first one of a table
/// is transaction 1.1, the second one 1.2, and so on.
type Row = (Who, Verb, &'static [u8], Told, bool);

/// Puts a replay of that number, the next one, behind the others.
fn add(alloc: Global, kept: &mut KeptReplays, row: Row, number: u64) -> Result<(), Memory>
    requires below { AreKept number kept.old }
    ensures more { OnOk result (AreKept (number + 1) kept.new) }
{
    let replay = Replay {
        number: Txn(number),
        xid: Xid(1),
        tag: 3,
        seen: Numbers::new(alloc),
        op: op(alloc, row.1, row.2)?,
    };
    kept.push(KeptReplay { who: row.0, replay })
}

/// The replays of these rows.
fn kept_of(alloc: Global, rows: &[Row]) -> Result<KeptReplays, Memory>
    ensures kept { IfOk result (λ kept. AreKept (4294967297 + length rows.now) kept) }
{
    let mut kept = KeptReplays::new(alloc);
    let mut number = BOOT;
    for row in rows {
        number += 1;
        add(alloc, &mut kept, *row, number)?;
    }
    Ok(kept)
}

/// New names, over one object storage target, after a close with these replays; the second life leaves.
fn closed(alloc: Global, rows: &[Row]) -> Result<(Mdt, Deeds), Memory> {
    let mut mdt = Mdt::new(alloc, 1)?;
    let kept = kept_of(alloc, rows)?;
    let deeds = close_window(alloc, &mut mdt, CLOSE, kept, &[B])?;
    Ok((mdt, deeds))
}

/// New names, once these replays were performed again; no life leaves.
fn redone(alloc: Global, rows: &[Row]) -> Result<(Mdt, Deeds), Memory> {
    let mut mdt = Mdt::new(alloc, 1)?;
    let kept = kept_of(alloc, rows)?;
    let deeds = redo(alloc, &mut mdt, CLOSE, kept)?;
    Ok((mdt, deeds))
}

/// The replay of this row and number was performed again so.
fn is_of(rt: &impl Abort, deed: &Deed, row: Row, number: u64) {
    assert_eq!(rt; deed.tag, 3);
    assert_eq!(rt; deed.reply.who, row.0);
    assert_eq!(rt; deed.reply.boot, 2);
    assert_eq!(rt; deed.reply.txn, Txn(number));
    assert_eq!(rt; deed.reply.at, CLOSE.at);
    let same = deed.reply.answer == answer(row.3);
    assert!(rt; same);
    assert_eq!(rt; deed.writes.is_empty(), !row.4);
}

/// The deeds are those of these rows.
fn are_of(rt: &impl Abort, deeds: &Deeds, rows: &[Row]) {
    assert_eq!(rt; deeds.len(), rows.len());
    let mut number = BOOT;
    for (deed, row) in deeds.as_slice().iter().zip(rows) {
        number = number.saturating_add(1);
        is_of(rt, deed, *row, number);
    }
}

/// What was lost before a replay may make a refusal of it.
const ROWS: [Row; 3] = [
    (A, Verb::Mkdir, b"a", Told::Made(1), true),
    (B, Verb::Mkdir, b"a", Told::No(Errno::EEXIST), false),
    (A, Verb::Rmdir, b"a", Told::Done, true),
];

#[test]
fn replays_are_answered_anew(rt: HostRuntime) -> Result<(), Fail> {
    let alloc = rt.alloc();
    let (mut mdt, deeds) = closed(alloc, &ROWS)?;
    are_of(&rt, &deeds, &ROWS);
    found(&rt, alloc, &mut mdt, b"a", Told::No(Errno::ENOENT))?;
    Ok(())
}

/// So they are before the lives leave.
#[test]
fn replays_are_performed_in_their_order(rt: HostRuntime) -> Result<(), Fail> {
    let (mdt, deeds) = redone(rt.alloc(), &ROWS)?;
    are_of(&rt, &deeds, &ROWS);
    drop(mdt);
    Ok(())
}
