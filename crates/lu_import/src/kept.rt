//! What a life keeps for a target's next recovery (Lustre Operations Manual, recovery).

ghost use Rattle.std.specs.Prelude.{◌≡◌, ◌<◌, ◌++◌, ℕ, filter, map, nat_lt, length, AllPairs, IfOk, OnOk, OnErr};
ghost use Rattle.lu_import.specs.Kept.{Replay, nothing_kept, with_replay, noted, taught, settled, forgotten, IsSettled};
ghost use Rattle.lu_import.specs.Adding.{replay_of, replays_of, starts_by};
ghost use Rattle.lu_import.specs.Recovery.{replay_told, replays, word};

use super::numbers::{add_numbers, settle_numbers, take_out};
use super::recovery::{Teller, count_of};
use super::requests::InFlight;
use lu_base::{Duplicate, Memory, Numbers, Txn, Xid};
use lu_msg::{Message, Op, Post, Reply, RequestReplay, Sends};
use std::alloc::Global;
use std::collections::{BTreeMap, BTreeSet};
use std::marker::Model;

/// A request whose reply named a transaction.
#[derive(Debug, Drop)]
pub(crate) struct Answered {
    xid: Xid,
    /// The request's tag, 0 to 7.
    tag: u8,
    /// The uncommitted transactions that the operation has seen, rising, as its reply named them.
    seen: Numbers,
    op: Op,
}

/// Whether the least transaction is at or below this one.
fn starts_by(replays: &BTreeMap<Txn, Answered>, number: Txn) -> bool
    ensures starts { result ≡ starts_by (λ (r : Replay). r.txn.0) number.0 (replays_of replays.now.entries) }
    ensures rising { AllPairs (λ (earlier later : Replay). earlier.txn.0 < later.txn.0)
        (replays_of replays.now.entries) }
{
    match replays.iter().next() {
        Some((txn, _)) => *txn <= number,
        None => false,
    }
}

/// Takes out all transactions at or below this one.
fn settle_replays(replays: &mut BTreeMap<Txn, Answered>, number: Txn)
    ensures settled { replays_of replays.new.entries
        ≡ filter (λ (r : Replay). nat_lt number.0 r.txn.0) (replays_of replays.old.entries) }
    ensures rising { AllPairs (λ (earlier later : Replay). earlier.txn.0 < later.txn.0)
        (replays_of replays.new.entries) }
{
    while starts_by(replays, number) {
        replays.pop_first();
    }
}

/// Keeps a replay under its transaction; it takes the place of one that is there. After want of memory nothing has
/// changed.
fn put_replay(
    replays: &mut BTreeMap<Txn, Answered>,
    txn: Txn,
    answered: Answered,
) -> Result<(), Memory>
    ensures put { OnOk result (replays_of replays.new.entries
        ≡ with_replay (replay_of txn answered) (replays_of replays.old.entries)) }
    ensures kept { OnErr result (replays_of replays.new.entries ≡ replays_of replays.old.entries) }
{
    replays.insert(txn, answered)?;
    Ok(())
}

/// What one life keeps of one target.
#[derive(Debug, Drop)]
pub(crate) struct Kept {
    alloc: Global,
    /// The greatest number of which the life was told that all up to it is committed; 0 where it was told none.
    committed: Txn,
    /// The uncommitted transactions that the life has seen.
    seen: BTreeSet<u64>,
    /// The requests whose transactions aren't known to be committed, by their transactions.
    replays: BTreeMap<Txn, Answered>,
}

impl Model for Kept {
    ghost use Rattle.lu_import.specs.Kept.{KeptState};
    ghost use Rattle.lu_import.specs.Adding.{replays_of};

    ghost Value = { KeptState };

    ghost view = { λ k. record {
      committed = k.committed.0;
      seen = k.seen.keys;
      replays = replays_of k.replays.entries;
    } };
}

impl Kept {
    /// Nothing is kept. It takes no memory yet.
    pub(crate) fn new(alloc: Global) -> Kept
        ensures nothing { result ≡ nothing_kept }
        ensures sound { IsSettled result }
    {
        Kept {
            alloc,
            committed: Txn(0),
            seen: BTreeSet::new(alloc),
            replays: BTreeMap::new(alloc),
        }
    }

    /// All up to a number is committed: what is at or below it is forgotten.
    pub(crate) fn settle(&mut self, committed: Txn)
        ensures settled { self.new ≡ settled committed.0 self.old }
        ensures sound { IsSettled self.new }
    {
        self.committed = Txn(committed.0.max(self.committed.0));
        settle_numbers(&mut self.seen, self.committed.0);
        settle_replays(&mut self.replays, self.committed);
    }

    /// Takes a committed number and numbers that the life has seen. After want of memory nothing has changed.
    pub(crate) fn note(&mut self, committed: Txn, seen: &Numbers) -> Result<(), Memory>
        ensures noted { OnOk result (self.new ≡ noted committed.0 seen.now self.old) }
        ensures kept { OnErr result (self.new ≡ self.old) }
        ensures sound { OnOk result (IsSettled self.new) }
    {
        add_numbers(self.alloc, &mut self.seen, seen.as_slice())?;
        self.settle(committed);
        Ok(())
    }

    /// Takes what the reply to a request teaches. After want of memory nothing has changed.
    pub(crate) fn hear(&mut self, request: &InFlight, reply: &Reply) -> Result<(), Memory>
        ensures taught { OnOk result (self.new ≡ taught request.now reply.now self.old) }
        ensures kept { OnErr result (self.new ≡ self.old) }
        ensures sound { OnOk result (IsSettled self.new) }
    {
        if reply.txn == Txn(0) {
            return self.note(reply.committed, &reply.seen);
        }
        let answered = Answered {
            xid: reply.xid,
            tag: request.tag,
            seen: reply.seen.copy(self.alloc)?,
            op: request.op.copy(self.alloc)?,
        };
        let added = add_numbers(self.alloc, &mut self.seen, reply.seen.as_slice())?;
        if put_replay(&mut self.replays, reply.txn, answered).is_err() {
            take_out(&mut self.seen, added);
            return Err(Memory);
        }
        self.settle(reply.committed);
        Ok(())
    }

    /// Forgets all but the committed number, as a new life does.
    pub(crate) fn forget(&mut self)
        ensures forgotten { self.new ≡ forgotten self.old }
        ensures sound { IsSettled self.new }
    {
        self.seen.clear();
        self.replays.clear();
    }

    /// Adds the replays to what is sent, in rising number.
    pub(crate) fn tell_replays(
        &self,
        alloc: Global,
        teller: &Teller,
        sends: &mut Sends,
    ) -> Result<(), Memory>
        ensures { OnOk result (sends.new ≡ sends.old ++ replays teller.now self.now.replays) }
    {
        for (txn, answered) in &self.replays {
            sends.push(answered.replay(alloc, teller, *txn)?)?;
        }
        Ok(())
    }

    /// The word: how many replays and locks there are, and what the life has seen.
    pub(crate) fn word(&self, alloc: Global, teller: &Teller, locks: usize) -> Result<Post, Memory>
        ensures { IfOk result (λ post. post ≡ word teller.now (length self.now.replays) locks self.now.seen) }
    {
        let seen: Vec<u64> = self.seen.iter().copied().collect(alloc)?;
        Ok(teller.post(Message::Word {
            who: teller.who,
            boot: teller.boot,
            replays: count_of(self.replays.len())?,
            locks: count_of(locks)?,
            seen: Numbers::from(seen),
        }))
    }
}

impl Answered {
    /// The request as it is replayed.
    fn replay(&self, alloc: Global, teller: &Teller, txn: Txn) -> Result<Post, Memory>
        ensures { IfOk result (λ post. post ≡ replay_told teller.now (replay_of txn self.now)) }
    {
        Ok(teller.post(Message::Replay(RequestReplay {
            who: teller.who,
            boot: teller.boot,
            txn,
            xid: self.xid,
            tag: self.tag,
            seen: self.seen.copy(alloc)?,
            op: self.op.copy(alloc)?,
        })))
    }
}
