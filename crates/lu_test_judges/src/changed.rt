//! Traces with one line changed, and what must come of it, worked out by hand from the laws. Above each row stands what is
//! changed, and why the law is broken at that line. A row has the trace, the number of the line, from 1, what becomes of it,
//! and the number of the line at which the changed trace breaks the law: the first, and no law before is broken anywhere.
//! A line that is inserted has the number itself.

use crate::judging::Change::{Inserted, Removed, Replaced};
use crate::judging::{Change, broken, judged, judged_with};
use crate::traces::Shown;
use lu_judge::{Law, Verdict};
use std::alloc::Global;
use std::process::Abort;
use std::test::Fail;

/// A trace, the number of a line, what becomes of it, and the number of the line at which the law is broken.
type Row = (Shown, usize, Change<'static>, u64);

/// Each changed trace breaks this law, at its line.
fn break_at(rt: &impl Abort, alloc: Global, law: Law, rows: &[Row]) -> Result<(), Fail> {
    for (shown, number, change, line) in rows {
        let verdict = judged_with(alloc, shown.text(), *number, *change)?;
        assert_eq!(rt; verdict, broken(law, *line));
    }
    Ok(())
}

/// Traces that break the law of messages.
const MESSAGES: [Row; 15] = [
    // Message 2 is taken here, and sent only later in this turn.
    (Shown::Resent, 3, Replaced(b"2 t0 take 2"), 3),
    // Message 9 is taken, which is never sent.
    (Shown::OneClient, 6, Replaced(b"3 c0 take 9"), 6),
    // The `send` is left out: what the next line takes is a message from nobody.
    (Shown::OneClient, 2, Removed, 2),
    // Message 2 is taken, which was sent to the other client.
    (Shown::CalledBack, 15, Replaced(b"6 c1 take 2"), 15),
    // Message 17 is taken, which was sent to the other target.
    (Shown::Absent, 63, Replaced(b"23 t1 take 17"), 63),
    // The second message that is sent has the number 3.
    (
        Shown::OneClient,
        5,
        Replaced(b"2 t0 send 3 c0 reply c0.1 1 1 1.1 0.0 - 2:t0 - ok 1.1"),
        5,
    ),
    // The answer is told again, and nothing is open.
    (
        Shown::KnownName,
        21,
        Inserted(b"7 c0 told 0 7:c0 dir 1.1"),
        21,
    ),
    // The second `begin` is left out: the next answer belongs to no call.
    (Shown::OneClient, 9, Removed, 15),
    // The answer is told in slot 1, where nothing is open.
    (Shown::OneClient, 8, Replaced(b"3 c0 told 1 2:t0 ok 1.1"), 8),
    // Another call begins in a slot whose call isn't told yet.
    (Shown::OneClient, 3, Inserted(b"1 c0 begin 0 lookup /b"), 3),
    // The client that died takes a message.
    (Shown::Absent, 33, Inserted(b"13 c0 take 7"), 33),
    // The stamp falls from 3 to 2.
    (Shown::OneClient, 9, Replaced(b"2 c0 begin 0 mkdir /a"), 9),
    // At one stamp the client's turn stands after the target's.
    (Shown::OneClient, 6, Replaced(b"2 c0 take 2"), 6),
    // The call begins at a target, which has no slots.
    (
        Shown::KnownName,
        19,
        Replaced(b"7 t0 begin 0 lookup /a"),
        19,
    ),
    // The answer is told at a target, which has no slots.
    (
        Shown::KnownName,
        20,
        Replaced(b"7 t0 told 0 7:c0 dir 1.1"),
        20,
    ),
];

#[test]
fn breaks_the_law_of_messages(rt: HostRuntime) -> Result<(), Fail> {
    break_at(&rt, rt.alloc(), Law::Messages, &MESSAGES)
}

/// Traces that break the law of locks.
const LOCKS: [Row; 13] = [
    // The grant doesn't grow, though no other lock is there: to the end is due.
    (
        Shown::Written,
        28,
        Replaced(b"11 t1 grant 1.1 c0.1 1.1/0 PW 0-1"),
        28,
    ),
    // The grant is too wide: a lookup asks for bit 1, and bits don't grow.
    (
        Shown::KnownName,
        13,
        Replaced(b"5 t0 grant 1.1 c0.1 1.1 PR 3"),
        13,
    ),
    // Another lock waits from byte 100 on: the grant to the end is too wide, up to 99 is due.
    (
        Shown::Written,
        38,
        Inserted(b"14 t1 wait 1.3 c0.1 1.1/0 PW 100-199"),
        55,
    ),
    // A lock in conflict waits ahead of the one that is granted.
    (
        Shown::Written,
        37,
        Inserted(b"14 t1 wait 1.3 c0.1 1.1/0 PW 0-7"),
        55,
    ),
    // The `release` is left out: what is granted next conflicts with a granted lock.
    (Shown::Written, 53, Removed, 53),
    // The `wait` is left out: when the lock is granted nothing has asked for it.
    (Shown::Written, 37, Removed, 53),
    // The lock is granted to a life that asked for nothing.
    (
        Shown::KnownName,
        13,
        Replaced(b"5 t0 grant 1.1 c1.1 1.1 PR 1"),
        13,
    ),
    // The `take` is left out: the turn has no request that asks for the lock.
    (Shown::Unlinked, 19, Removed, 19),
    // The `drop` is left out: the reader's lock is held beside the writer's.
    (Shown::Written, 50, Removed, 56),
    // A lock of another target is dropped: the reader's is held beside the writer's.
    (Shown::Written, 50, Replaced(b"18 c0 drop t0 1.1"), 57),
    // A lock is held that was never granted.
    (Shown::KnownName, 17, Replaced(b"6 c0 hold t0 1.2"), 17),
    // A lock is held that was granted to the other client.
    (Shown::CalledBack, 19, Inserted(b"7 c0 hold t0 1.1"), 19),
    // The `drop` is left out: the directory goes while a lock on its name is held.
    (Shown::CalledBack, 25, Removed, 28),
];

#[test]
fn breaks_the_law_of_locks(rt: HostRuntime) -> Result<(), Fail> {
    break_at(&rt, rt.alloc(), Law::Locks, &LOCKS)
}

/// Traces that break the law of silent repeats.
const SILENT: [Row; 7] = [
    // The repeated lookup sends before it is told.
    (
        Shown::KnownName,
        20,
        Inserted(b"7 c0 send 5 t0 req c0.1 1 3 lookup /a"),
        19,
    ),
    // The repeated lookup sends and isn't told.
    (
        Shown::KnownName,
        20,
        Replaced(b"7 c0 send 5 t0 req c0.1 1 3 lookup /a"),
        19,
    ),
    // The repeated lookup isn't told.
    (Shown::KnownName, 20, Removed, 19),
    // The repeated lookup is told a turn later.
    (
        Shown::KnownName,
        20,
        Replaced(b"8 c0 told 0 8:c0 dir 1.1"),
        19,
    ),
    // The lookup is repeated before the lock is called back, and isn't told.
    (
        Shown::CalledBack,
        19,
        Inserted(b"6 c1 begin 0 lookup /a"),
        19,
    ),
    // The read is repeated, without a lock for writing, and isn't told.
    (
        Shown::Written,
        64,
        Inserted(b"22 c1 begin 0 read 0 0 8"),
        64,
    ),
    // The list is repeated in another slot, its `up` having had its `ready`, and isn't told.
    (
        Shown::BothRecover,
        51,
        Inserted(b"19 c0 begin 1 list /"),
        51,
    ),
];

#[test]
fn breaks_the_law_of_silent_repeats(rt: HostRuntime) -> Result<(), Fail> {
    break_at(&rt, rt.alloc(), Law::Silent, &SILENT)
}

/// Traces that break the law of acts.
const ACTS: [Row; 20] = [
    // EBADF is told to a read on a bound handle.
    (
        Shown::Unlinked,
        35,
        Replaced(b"13 c0 told 0 13:c0 EBADF"),
        35,
    ),
    // The read on a closed handle isn't told EBADF, which is asked of its `begin`.
    (
        Shown::Unlinked,
        45,
        Replaced(b"17 c0 told 0 17:c0 content 61"),
        44,
    ),
    // EIO is told, and nobody evicted this life.
    (Shown::OneClient, 24, Replaced(b"9 c0 told 0 9:c0 EIO"), 24),
    // The turn takes an `up` and no notice, and tells EIO.
    (Shown::Evicted, 65, Replaced(b"39 c0 take 10"), 66),
    // EIO names another turn.
    (Shown::Evicted, 66, Replaced(b"39 c0 told 1 38:t0 EIO"), 66),
    // What a glimpse is told names another turn.
    (
        Shown::Glimpse,
        45,
        Replaced(b"17 c1 told 0 16:t1 sizes 2"),
        45,
    ),
    // The turn that is named stands before the call's `begin`.
    (
        Shown::OneClient,
        16,
        Replaced(b"6 c0 told 0 2:t0 EEXIST"),
        16,
    ),
    // The turn that is named stands after the answer.
    (
        Shown::Written,
        63,
        Replaced(b"22 c1 told 0 23:c1 content 6869"),
        63,
    ),
    // Nothing acted in the turn that is named.
    (
        Shown::KnownName,
        18,
        Replaced(b"6 c0 told 0 4:t0 dir 1.1"),
        18,
    ),
    // In the turn that is named the other client's request acted.
    (
        Shown::Reordered,
        13,
        Replaced(b"5 c1 told 0 4:t0 ok 1.1"),
        13,
    ),
    // The `heard` is left out: no request is heard whose act is told.
    (Shown::KnownName, 16, Removed, 17),
    // The call makes another directory than the request that is heard.
    (Shown::OneClient, 1, Replaced(b"1 c0 begin 0 mkdir /b"), 8),
    // The request closes another open than that of the call's handle.
    (
        Shown::Unlinked,
        37,
        Replaced(b"14 c0 send 9 t0 req c0.1 1 4 close 1.3 1.1"),
        43,
    ),
    // The transaction of the turn that is named was lost at the close.
    (
        Shown::ReplyLost,
        23,
        Replaced(b"9 c0 told 0 2:t0 ok 1.1"),
        23,
    ),
    // The act of one slot is told in another again, where the same call stands.
    (Shown::Twice, 37, Inserted(b"15 c1 told 3 10:t0 ok 1.1"), 37),
    // The first request is heard again: its act was told, and stands in another turn.
    (Shown::OneClient, 15, Replaced(b"6 c0 heard t0 1"), 16),
    // The request is executed twice: two of its transactions stand, and the law breaks at both.
    (
        Shown::Resent,
        11,
        Inserted(b"5 t0 txn 1.2 c0.1 1 1.1 EEXIST"),
        4,
    ),
    // The request is sent again with another tag.
    (
        Shown::Resent,
        9,
        Replaced(b"4 c0 send 4 t0 req c0.1 1 1/1 mkdir /a"),
        9,
    ),
    // A second request is sent with the tag of one that is in flight.
    (
        Shown::Resent,
        9,
        Replaced(b"4 c0 send 4 t0 req c0.1 1 2 mkdir /a"),
        9,
    ),
    // The `heard` is left out: the request before is in flight beside this one, with its tag.
    (Shown::Written, 42, Removed, 57),
];

#[test]
fn breaks_the_law_of_acts(rt: HostRuntime) -> Result<(), Fail> {
    break_at(&rt, rt.alloc(), Law::Acts, &ACTS)
}

/// Traces that break the law of recovery.
const RECOVERY: [Row; 36] = [
    // The seen numbers are left out: the name that goes was written by 1.1.
    (
        Shown::OneClient,
        28,
        Replaced(b"11 t0 txn 1.2 c0.1 4 - ok"),
        28,
    ),
    // The seen numbers are left out: the refusal rests on the name that 1.1 wrote.
    (
        Shown::OneClient,
        13,
        Replaced(b"5 t0 send 4 c0 reply c0.1 1 2 0.0 0.0 - 5:t0 - EEXIST"),
        13,
    ),
    // A number too much is seen: 1.1 wrote another name.
    (
        Shown::OneClient,
        21,
        Replaced(b"8 t0 send 6 c0 reply c0.1 1 3 0.0 0.0 1.1 8:t0 - ENOENT"),
        21,
    ),
    // The grant's seen numbers are left out: 1.1 wrote bytes under the lock.
    (
        Shown::Written,
        55,
        Replaced(b"19 t1 send 15 c1 grant c1.1 1 1.2 0-end 2 0.0 -"),
        55,
    ),
    // The reply that passes on the holder's answer has seen what the target doesn't have.
    (
        Shown::Glimpse,
        42,
        Replaced(b"16 t1 send 12 c1 reply c1.1 1 1 0.0 0.0 1.1 15:c0 - size 2"),
        42,
    ),
    // The `commit` is left out: the list has seen both transactions, and its reply names none.
    (Shown::BothRecover, 34, Removed, 45),
    // The number isn't above the last one.
    (
        Shown::OneClient,
        28,
        Replaced(b"11 t0 txn 1.1 c0.1 4 1.1 ok"),
        28,
    ),
    // The number is of a boot that didn't come.
    (
        Shown::OneClient,
        28,
        Replaced(b"11 t0 txn 2.2 c0.1 4 1.1 ok"),
        28,
    ),
    // The commit falls from 1.2.
    (Shown::Absent, 60, Replaced(b"22 t0 commit 0.0"), 60),
    // The commit falls from 1.2 in the same turn.
    (Shown::BothRecover, 35, Inserted(b"14 t0 commit 1.1"), 35),
    // What the close has lost is committed.
    (Shown::Absent, 46, Replaced(b"19 t0 commit 1.1"), 46),
    // A number is committed that no transaction has.
    (Shown::BothRecover, 34, Replaced(b"14 t0 commit 1.3"), 34),
    // The `back` is left out after the word that brings the life back.
    (Shown::BothRecover, 29, Removed, 28),
    // A `back` stands before the life's word has come.
    (Shown::BothRecover, 28, Inserted(b"11 t0 back c0.1"), 28),
    // A `back` stands twice in its turn.
    (Shown::BothRecover, 30, Inserted(b"12 t0 back c0.1"), 30),
    // The `back` is another life's, so that of the life which came back is missing.
    (Shown::Absent, 41, Replaced(b"16 t0 back c2.1"), 40),
    // A close too early: the turn took a lock, and the holder's word hasn't come.
    (Shown::Expired, 75, Inserted(b"25 t1 close"), 75),
    // The close stands in a turn that took a message, while a life is away.
    (Shown::Absent, 45, Inserted(b"19 t0 take 12"), 46),
    // The window is closed a second time.
    (Shown::Absent, 53, Inserted(b"19 t0 close"), 53),
    // The first `kept` line is left out, which is asked of the close.
    (Shown::BothRecover, 35, Removed, 33),
    // The `kept` line is left out, which is asked of the close.
    (Shown::Absent, 47, Removed, 45),
    // A `kept` line falls from 1.2 to 1.1.
    (Shown::BothRecover, 37, Inserted(b"14 t0 kept 1.1"), 37),
    // What is lost, since its life is away, has a `kept` line.
    (Shown::Absent, 47, Inserted(b"19 t0 kept 1.1"), 47),
    // The eviction of a life that saw 1.1 is left out, which is asked of the close.
    (Shown::Absent, 50, Removed, 45),
    // The cause is wrong: the close evicts a life that isn't back as absent.
    (Shown::Absent, 48, Replaced(b"19 t0 evict c0.1 gap"), 45),
    // A life is evicted that rests on nothing lost.
    (Shown::Absent, 52, Inserted(b"19 t0 evict c2.1 gap"), 52),
    // The eviction of client 0 stands after that of client 1.
    (Shown::Absent, 48, Inserted(b"19 t0 evict c1.1 gap"), 49),
    // The holder's eviction is left out: when the window closes it has a slot and is away.
    (Shown::Expired, 45, Removed, 76),
    // The cause is wrong: the turn took no `join` of a newer life.
    (
        Shown::Expired,
        45,
        Replaced(b"16 t1 evict c0.1 replaced"),
        45,
    ),
    // The cause is wrong: the turn has no close.
    (Shown::Expired, 45, Replaced(b"16 t1 evict c0.1 absent"), 45),
    // The cause is wrong: the turn has no tick.
    (
        Shown::Expired,
        68,
        Replaced(b"23 t0 evict c0.1 expired"),
        68,
    ),
    // The `block` is left out: a life expires that wasn't called back.
    (Shown::Expired, 39, Removed, 44),
    // The `commit` before the eviction is left out.
    (Shown::Expired, 44, Removed, 44),
    // A life is evicted that has no slot any more.
    (
        Shown::Expired,
        46,
        Inserted(b"16 t1 evict c0.1 expired"),
        46,
    ),
    // The `restore` is left out, which is asked of the close.
    (Shown::Expired, 79, Removed, 77),
    // A lock is restored that nobody handed in.
    (
        Shown::Expired,
        80,
        Inserted(b"26 t1 restore 1.1 c0.1 1.1/0 PW 0-end"),
        80,
    ),
];

#[test]
fn breaks_the_law_of_recovery(rt: HostRuntime) -> Result<(), Fail> {
    break_at(&rt, rt.alloc(), Law::Recovery, &RECOVERY)
}

/// Traces that break the law of history.
const HISTORY: [Row; 14] = [
    // A new directory has the number of its transaction, and another is told.
    (Shown::OneClient, 8, Replaced(b"3 c0 told 0 2:t0 ok 1.2"), 8),
    // A directory is told to be made whose name is there.
    (
        Shown::OneClient,
        16,
        Replaced(b"6 c0 told 0 5:t0 ok 1.2"),
        16,
    ),
    // A name is told to be there that never was.
    (
        Shown::OneClient,
        24,
        Replaced(b"9 c0 told 0 8:t0 dir 1.1"),
        24,
    ),
    // A stale answer: the directory was made before.
    (
        Shown::KnownName,
        20,
        Replaced(b"7 c0 told 0 7:c0 ENOENT"),
        20,
    ),
    // A stale answer: the bytes were written before.
    (
        Shown::Written,
        63,
        Replaced(b"22 c1 told 0 22:c1 content -"),
        63,
    ),
    // A byte is told that nobody wrote.
    (
        Shown::Unlinked,
        35,
        Replaced(b"13 c0 told 0 13:c0 content 62"),
        35,
    ),
    // Bytes are told that a life which is gone wrote and never sent.
    (
        Shown::Expired,
        62,
        Replaced(b"21 c1 told 0 21:c1 content 6869"),
        62,
    ),
    // A name is missing whose transaction was kept.
    (
        Shown::BothRecover,
        50,
        Replaced(b"19 c0 told 0 18:t0 names 1 a"),
        50,
    ),
    // The directory of the lost transaction is told.
    (
        Shown::ReplyLost,
        23,
        Replaced(b"9 c0 told 0 8:t0 ok 1.1"),
        23,
    ),
    // A byte from nowhere: the second one is none that this life wrote.
    (
        Shown::Written,
        44,
        Replaced(b"16 c0 send 12 t1 req c0.1 1 2 put 1.1/0 1.1 0 686a"),
        46,
    ),
    // The object is cut, and this life never cut the file.
    (
        Shown::Written,
        44,
        Replaced(b"16 c0 send 12 t1 req c0.1 1 2 cut 1.1/0 1.1 2"),
        46,
    ),
    // The write's answer is left out: its bytes are put before it was told.
    (Shown::Written, 33, Removed, 45),
    // A transaction does what the plain machine refuses.
    (
        Shown::Reordered,
        9,
        Replaced(b"4 t0 txn 1.2 c0.1 1 1.1 EEXIST"),
        9,
    ),
    // A transaction has a request that nobody sent.
    (
        Shown::OneClient,
        30,
        Inserted(b"11 t0 txn 1.3 c0.1 9 - ok 1.3"),
        30,
    ),
];

#[test]
fn breaks_the_law_of_history(rt: HostRuntime) -> Result<(), Fail> {
    break_at(&rt, rt.alloc(), Law::History, &HISTORY)
}

/// Traces that break the law of glimpses.
const GLIMPSES: [Row; 5] = [
    // A size of no moment: the object never had three bytes.
    (
        Shown::Glimpse,
        45,
        Replaced(b"17 c1 told 0 17:c1 sizes 3"),
        45,
    ),
    // A stale size: the object was empty only before the call began.
    (
        Shown::Glimpse,
        45,
        Replaced(b"17 c1 told 0 17:c1 sizes 0"),
        45,
    ),
    // A second size is told, and what the file doesn't have is empty.
    (
        Shown::Glimpse,
        45,
        Replaced(b"17 c1 told 0 17:c1 sizes 2,1"),
        45,
    ),
    // The write's answer is left out: the object is empty, and its holder isn't gone.
    (Shown::Glimpse, 33, Removed, 44),
    // Three bytes are written before the call begins, and two are told.
    (
        Shown::Glimpse,
        25,
        Replaced(b"10 c0 begin 0 write 0 0 686970"),
        45,
    ),
];

#[test]
fn breaks_the_law_of_glimpses(rt: HostRuntime) -> Result<(), Fail> {
    break_at(&rt, rt.alloc(), Law::Glimpse, &GLIMPSES)
}

/// Traces that break two laws: the second one stands above the row, with its line in brackets.
const TWO_LAWS: [(Shown, usize, Change<'static>, Law, u64); 8] = [
    // Slot 0 is told with nothing open; Acts: slot 1 isn't told EBADF (44).
    (
        Shown::Unlinked,
        44,
        Replaced(b"17 c0 begin 1 read 0 0 4"),
        Law::Messages,
        45,
    ),
    // The wait of this life ends, and its lock is granted; Recovery: it wasn't called back (46).
    (
        Shown::Expired,
        46,
        Inserted(b"16 t1 evict c1.1 expired"),
        Law::Locks,
        49,
    ),
    // The second lookup repeats the first and sends; Acts: the first is told a mkdir (8).
    (
        Shown::KnownName,
        1,
        Replaced(b"1 c0 begin 0 lookup /a"),
        Law::Silent,
        9,
    ),
    // What was told is lost at this close; Recovery: a life is away there (30).
    (
        Shown::BothRecover,
        30,
        Inserted(b"12 t0 close"),
        Law::Acts,
        16,
    ),
    // EIO is told without an eviction; Recovery: the close leaves it out (53).
    (Shown::Evicted, 55, Removed, Law::Acts, 65),
    // What is told acted and made a transaction; History: the machine refuses it (13).
    (
        Shown::OneClient,
        13,
        Inserted(b"5 t0 txn 1.9 c0.1 2 1.1 ok 1.9"),
        Law::Acts,
        17,
    ),
    // The first page has seen no transaction; History: the bytes come from nowhere (46).
    (
        Shown::Written,
        44,
        Replaced(b"16 c0 send 12 t1 req c0.1 1 2 put 1.1/0 1.1 5000 6869"),
        Law::Recovery,
        60,
    ),
    // Another file is told to be open; Glimpse: it has no bytes (45).
    (
        Shown::Glimpse,
        24,
        Replaced(b"9 c1 told 0 8:t0 ok 1.2"),
        Law::History,
        24,
    ),
];

#[test]
fn the_first_law_in_order_wins(rt: HostRuntime) -> Result<(), Fail> {
    for (shown, number, change, law, line) in TWO_LAWS {
        let verdict = judged_with(rt.alloc(), shown.text(), number, change)?;
        assert_eq!(rt; verdict, broken(law, line));
    }
    Ok(())
}

/// Changes after which a trace is lawful.
const HARMLESS: [(Shown, usize, Change<'static>); 8] = [
    // A refusal isn't known: this lookup may wait.
    (Shown::OneClient, 25, Inserted(b"9 c0 begin 1 lookup /b")),
    // The lock was called back: this lookup may wait.
    (Shown::CalledBack, 25, Inserted(b"9 c1 begin 0 lookup /a")),
    // A call may act in the turn in which it is told.
    (Shown::KnownName, 18, Replaced(b"6 c0 told 0 6:c0 dir 1.1")),
    // The directory is guarded by what is held, not by what is granted.
    (Shown::CalledBack, 28, Removed),
    // The lock of a life that its target evicted stands in no one's way.
    (Shown::Expired, 56, Removed),
    // The seen numbers of a kept reply that is sent again are free.
    (
        Shown::Resent,
        7,
        Replaced(b"3 t0 send 3 c0 reply c0.1 1 1 1.1 0.0 1.1 2:t0 - ok 1.1"),
    ),
    // What a life that is gone was told isn't measured.
    (Shown::Evicted, 66, Replaced(b"39 c0 told 1 39:c0 ENOENT")),
    // A stripe that the file doesn't have is empty.
    (
        Shown::Glimpse,
        45,
        Replaced(b"17 c1 told 0 17:c1 sizes 2,0"),
    ),
];

#[test]
fn a_harmless_change_breaks_nothing(rt: HostRuntime) -> Result<(), Fail> {
    for (shown, number, change) in HARMLESS {
        let verdict = judged_with(rt.alloc(), shown.text(), number, change)?;
        assert_eq!(rt; verdict, Verdict::Lawful);
    }
    Ok(())
}

/// The traces themselves.
const UNCHANGED: [Shown; 14] = [
    Shown::OneClient,
    Shown::Resent,
    Shown::Reordered,
    Shown::KnownName,
    Shown::CalledBack,
    Shown::Written,
    Shown::Glimpse,
    Shown::Unlinked,
    Shown::Twice,
    Shown::Evicted,
    Shown::ReplyLost,
    Shown::BothRecover,
    Shown::Absent,
    Shown::Expired,
];

#[test]
fn each_unchanged_trace_is_lawful(rt: HostRuntime) -> Result<(), Fail> {
    for shown in UNCHANGED {
        assert_eq!(rt; judged(rt.alloc(), shown.text())?, Verdict::Lawful);
    }
    Ok(())
}
