//! A target's journal (Lustre Operations Manual, recovery: transaction numbers and the last reply of each client).

ghost use Rattle.std.specs.Prelude.{◌≡◌, ◌≢◌, ℕ, ◌==◌, ◌&&◌, if◌then◌else◌, ◌+◌, ◌-◌, ◌*◌, ◌^◌, ◌<◌, ◌≤◌, ◌↔◌, List, [], ◌∷◌, ◌++◌, length, slice_get, option_map, Option, Some, None, IsSome, IfSome, IfOk, IfErr, OnOk, OnErr, Err};
ghost use Rattle.std.specs.List.{list_any};
ghost use Rattle.std.specs.List.Sorted.{IsStrictlyIncreasing};
ghost use Rattle.std.specs.Option.{option_copied};
ghost use Rattle.lu_msg.specs.Limits.{tag_count};
ghost use Rattle.lu_txn.specs.Slots.{slot_of, empty_of, with_reply, reply_at, lives_of, IsReplyKept};
ghost use Rattle.lu_txn.specs.Logs.{number, up_to, seen_by};
ghost use Rattle.lu_txn.specs.Journals.{JournalState, fresh, count, most_numbers, appended, with_slot, without_slot, is_over, IsSeen, IsSound};
ghost use Rattle.lu_txn.specs.Commits.{batch_of, reply_for, last_reply, after_commit};
ghost use Rattle.lu_txn.specs.Loads.{loaded, AreBelow};
ghost use Rattle.lu_txn.specs.declared.journals.TxnError.TheVariants as error;

use super::loads::Stored;
use super::logs::Logged;
use super::slots::Slots;
use super::uncommitted::Uncommitted;
use lu_base::{Duplicate, Lives, Memory, Numbers, Txn, Who, Xid};
use lu_msg::{Batch, Batches, Op, Reply, Transaction};
use lu_part::Parts;
use std::alloc::{AllocError, AllocFailed, Global};
use std::marker::Model;

/// How many numbers a boot has: 2^32 - 1.
const MOST_NUMBERS: u64 = 4_294_967_295;

/// What a request's number says at the slot of its life and tag.
#[derive(Clone, Copy, Debug)]
pub enum Seen<'a> {
    /// It is above the slot's number, or the slot has no reply yet.
    New,
    /// It is the slot's number: the request was answered by this reply.
    Again(&'a Reply),
    /// It is below the slot's number.
    Old,
}

/// Why a call of a journal wasn't done. The journal is as it was.
#[derive(Clone, Copy, Debug, PartialEq, Eq)]
pub enum TxnError {
    /// The boot has no number left: its count stands at 2^32 - 1.
    NumbersSpent,
    /// The life has no slot.
    NoSlot,
    /// Want of memory.
    Memory,
}

impl From<Memory> for TxnError {
    ghost use Rattle.std.specs.Prelude.{◌≡◌};
    ghost use Rattle.lu_txn.specs.declared.journals.TxnError.TheVariants as error;

    ghost from_gives = { λ _ e. e ≡ error.Memory };

    fn from(_error: Memory) -> TxnError {
        TxnError::Memory
    }
}

impl<T: Drop> From<AllocFailed<T>> for TxnError {
    ghost use Rattle.std.specs.Prelude.{◌≡◌};
    ghost use Rattle.lu_txn.specs.declared.journals.TxnError.TheVariants as error;

    ghost from_gives = { λ _ e. e ≡ error.Memory };

    fn from(_error: AllocFailed<T>) -> TxnError {
        TxnError::Memory
    }
}

/// What a target has done that isn't on its disk, and what it keeps to answer repeated requests.
#[derive(Debug, Drop)]
pub struct Journal {
    alloc: Global,
    /// The target's boot, from 1.
    boot: u32,
    /// Whether the boot is on the disk.
    boot_stored: bool,
    /// The greatest number that is on the disk; 0 where there is none.
    committed: Txn,
    /// What isn't committed.
    log: Uncommitted,
    /// What is kept for each life.
    slots: Slots,
    /// The lives whose slots were added since the last commit.
    added: Vec<Who>,
    /// The lives whose slots were dropped, the last ones since the last commit. There is room for one more life
    /// of each slot.
    removed: Vec<Who>,
    /// How many of these are on the disk.
    settled: usize,
}

impl Model for Journal {
    ghost use Rattle.std.specs.Prelude.{◌≤◌, ◌+◌, length, drop};
    ghost use Rattle.std.specs.Vec.{vec_capacity};
    ghost use Rattle.lu_txn.specs.Journals.{JournalState, IsSound};

    ghost Value = { JournalState };

    ghost view = { λ j. record {
      boot = j.boot;
      boot_stored = j.boot_stored;
      newest = j.log.newest;
      committed = j.committed.0;
      transactions = j.log.transactions;
      slots = j.slots;
      added = j.added.items;
      dropped = drop j.settled j.removed.items;
      removed = j.removed.items;
    } };

    ghost invariant = { λ j.
        IsSound (record {
          boot = j.boot;
          boot_stored = j.boot_stored;
          newest = j.log.newest;
          committed = j.committed.0;
          transactions = j.log.transactions;
          slots = j.slots;
          added = j.added.items;
          dropped = drop j.settled j.removed.items;
          removed = j.removed.items;
        }) × (j.settled ≤ length j.removed.items)
        × (length j.removed.items + length j.slots ≤ vec_capacity j.removed) };
}

impl Journal {
    /// The journal of a target that starts anew: of boot 1, with a slot without replies for each of these lives.
    /// Nothing of it is on the disk yet.
    pub fn start(alloc: Global, first: &[Who]) -> Result<Journal, Memory>
        ensures fresh { IfOk result (λ journal. journal ≡ fresh first.now) }
        ensures lives { IfOk result (λ journal. (who : Who) → slot_of who journal.slots ≡ empty_of who first.now) }
        ensures sound { IfOk result IsSound }
    {
        let mut slots = Slots::new(alloc);
        slots.add_all(first)?;
        let added = slots.lives(alloc)?;
        let mut removed = Vec::new(alloc);
        removed.reserve(slots.len())?;
        Ok(Journal {
            alloc,
            boot: 1,
            boot_stored: false,
            committed: Txn(0),
            log: Uncommitted::new(alloc, Txn(0)),
            slots,
            added,
            removed,
            settled: 0,
        })
    }

    /// The journal of this boot over what a disk holds: the batches in the order of their commits. Only the boot
    /// isn't on the disk yet.
    pub fn new(alloc: Global, batches: &Batches, boot: u32) -> Result<Journal, Memory>
        requires boots { AreBelow boot batches.now }
        ensures loaded { IfOk result (λ journal. journal ≡ loaded batches.now boot) }
        ensures sound { IfOk result IsSound }
    {
        let Stored {
            committed,
            slots,
            mut removed,
        } = Stored::by(alloc, batches)?;
        removed.reserve(slots.len())?;
        let settled = removed.len();
        Ok(Journal {
            alloc,
            boot,
            boot_stored: false,
            committed,
            log: Uncommitted::new(alloc, committed),
            slots,
            added: Vec::new(alloc),
            removed,
            settled,
        })
    }

    /// The number of the next transaction: of this boot, one above its count. It is above all numbers
    /// in the journal. `NumbersSpent` exactly where the count of this boot stands at 2^32 - 1.
    pub fn next(&self) -> Result<Txn, TxnError>
        ensures number { IfOk result (λ next. next.0 ≡ self.now.boot * 2 ^ 32 + count self.now + 1) }
        ensures above { IfOk result (λ next. self.now.newest < next.0) }
        ensures room { IfOk result (λ _. count self.now < most_numbers) }
        ensures spent { IfErr result (λ e. (e ≡ error.NumbersSpent) × (count self.now ≡ most_numbers)) }
        ensures sound { IsSound self.now }
    {
        let first = u64::from(self.boot) << 32;
        let count = self.log.newest().0.saturating_sub(first);
        if count == MOST_NUMBERS {
            return Err(TxnError::NumbersSpent);
        }
        Ok(Txn(first + count + 1))
    }

    /// Adds a transaction of this life and tag with what it writes, and keeps its reply in their slot.
    /// The request's number is the reply's. `NoSlot` exactly where the life has no slot.
    pub fn append(
        &mut self,
        number: Txn,
        who: Who,
        tag: u8,
        op: Op,
        writes: Parts,
        reply: Reply,
    ) -> Result<(), TxnError>
        requires above { self.old.newest < number.0 }
        requires boot { number.0 < (self.old.boot + 1) * 2 ^ 32 }
        requires tag { tag < tag_count }
        ensures added { OnOk result (self.new ≡ appended number who tag op writes reply self.old) }
        ensures replies { OnOk result (IsReplyKept who tag reply self.old.slots self.new.slots) }
        ensures slot { OnOk result (IsSome (slot_of who self.old.slots)) }
        ensures no_slot { result ≡ Err error.NoSlot ↔ slot_of who self.old.slots ≡ None }
        ensures err { IfErr result (λ e. e ≢ error.NumbersSpent) }
        ensures kept { OnErr result (self.new ≡ self.old) }
        ensures sound { IsSound self.new }
    {
        if self.slots.of(who).is_none() {
            return Err(TxnError::NoSlot);
        }
        let kept = reply.copy(self.alloc)?;
        let transaction = Transaction {
            txn: number,
            who,
            xid: reply.xid,
            tag,
            op,
        };
        self.log.push(Logged {
            transaction,
            writes,
            reply: kept,
        })?;
        self.slots.keep(who, tag, reply);
        Ok(())
    }

    /// Keeps the reply to a request of this life and tag that made no transaction in their slot. `NoSlot`
    /// exactly where the life has no slot; no other error comes. It takes no memory.
    pub fn keep(&mut self, who: Who, tag: u8, reply: Reply) -> Result<(), TxnError>
        requires tag { tag < tag_count }
        ensures stored { OnOk result (self.new
            ≡ record self.old { slots = with_reply who tag reply self.old.slots }) }
        ensures replies { OnOk result (IsReplyKept who tag reply self.old.slots self.new.slots) }
        ensures slot { OnOk result (IsSome (slot_of who self.old.slots)) }
        ensures no_slot { IfErr result (λ e. (e ≡ error.NoSlot) × (slot_of who self.old.slots ≡ None)) }
        ensures kept { OnErr result (self.new ≡ self.old) }
        ensures sound { IsSound self.new }
    {
        if self.slots.of(who).is_none() {
            return Err(TxnError::NoSlot);
        }
        self.slots.keep(who, tag, reply);
        Ok(())
    }

    /// The reply that is kept for this life and tag; none where the life has no slot, or none was kept.
    pub fn reply(&self, who: Who, tag: u8) -> Option<&Reply>
        requires tag { tag < tag_count }
        ensures reply { option_copied result ≡ reply_at who tag self.now.slots }
        ensures sound { IsSound self.now }
    {
        match self.slots.of(who) {
            Some(slot) => slot.replies[usize::from(tag)].as_ref(),
            None => None,
        }
    }

    /// What this number says at the slot of this life and tag. `NoSlot` exactly where the life has no slot.
    /// It takes no memory.
    pub fn look(&self, who: Who, tag: u8, xid: Xid) -> Result<Seen<'_>, TxnError>
        requires tag { tag < tag_count }
        ensures seen { IfOk result (λ seen. IsSeen (reply_at who tag self.now.slots) xid seen) }
        ensures slot { IfOk result (λ _. IsSome (slot_of who self.now.slots)) }
        ensures no_slot { IfErr result (λ e. (e ≡ error.NoSlot) × (slot_of who self.now.slots ≡ None)) }
        ensures sound { IsSound self.now }
    {
        let Some(slot) = self.slots.of(who) else {
            return Err(TxnError::NoSlot);
        };
        let Some(reply) = &slot.replies[tag as usize] else {
            return Ok(Seen::New);
        };
        if xid > reply.xid {
            Ok(Seen::New)
        } else if xid == reply.xid {
            Ok(Seen::Again(reply))
        } else {
            Ok(Seen::Old)
        }
    }

    /// The numbers of the uncommitted transactions that an operation has seen which touches these parts,
    /// rising: those whose writes meet something touched.
    pub fn seen(&self, touched: &Parts) -> Result<Numbers, Memory>
        ensures seen { IfOk result (λ numbers. numbers ≡ seen_by touched.now self.now.transactions) }
        ensures rising { IfOk result IsStrictlyIncreasing }
        ensures sound { IsSound self.now }
    {
        Ok(Numbers::from(self.log.seen(touched)?))
    }

    /// The lives that have a slot, by client and then by life, from place 0 on; none past the last.
    pub fn life(&self, at: usize) -> Option<Who>
        ensures life { result ≡ slice_get (lives_of self.now.slots) at }
        ensures sound { IsSound self.now }
    {
        self.slots.life(at)
    }

    /// The uncommitted transactions in rising number, from place 0 on; none past the last.
    pub fn uncommitted(&self, at: usize) -> Option<Txn>
        ensures number { result
            ≡ option_map (λ logged. logged.transaction.txn) (slice_get self.now.transactions at) }
        ensures above { IfSome result (λ txn. self.now.committed < txn.0) }
        ensures given { IfSome result (λ txn. txn.0 ≤ self.now.newest) }
        ensures sound { IsSound self.now }
    {
        Some(self.log.at(at)?.transaction.txn)
    }

    /// How many transactions aren't on the disk.
    pub fn uncommitted_count(&self) -> usize
        ensures count { result ≡ length self.now.transactions }
        ensures sound { IsSound self.now }
    {
        self.log.len()
    }

    /// The greatest number that is on the disk; 0 where there is none.
    pub fn last_committed(&self) -> Txn
        ensures number { result.0 ≡ self.now.committed }
    {
        self.committed
    }

    /// The batch that commits all up to this number: the boot where it isn't on the disk yet, the transactions
    /// with the last reply of each life and tag, and the lives whose slots were added and dropped since the last
    /// commit.
    pub fn batch(&self, to: Txn) -> Result<Batch, Memory>
        ensures batch { IfOk result (λ batch. batch ≡ batch_of to.0 self.now) }
        ensures last { IfOk result (λ batch. (who : Who) (tag : ℕ)
            → reply_for who tag batch.replies ≡ last_reply who tag (up_to to.0 self.now.transactions)) }
        ensures sound { IsSound self.now }
    {
        Ok(Batch {
            boot: if self.boot_stored { 0 } else { self.boot },
            transactions: self.log.transactions_to(to)?,
            replies: self.log.replies_to(to)?,
            added: Lives::from(Vec::from_slice(self.alloc, &self.added)?),
            removed: Lives::from(Vec::from_slice(self.alloc, &self.removed[self.settled..])?),
        })
    }

    /// That batch is on the disk. It takes no memory.
    pub fn committed(&mut self, to: Txn)
        requires order { self.old.committed ≤ to.0 }
        requires given { to.0 ≤ self.old.newest }
        ensures committed { self.new ≡ after_commit to.0 self.old }
        ensures sound { IsSound self.new }
    {
        let settled = self.removed.len();
        self.log.drop_to(to);
        self.boot_stored = true;
        self.committed = to;
        self.added.clear();
        self.settled = settled;
    }

    /// Adds a slot without replies for this life; nothing where it has one.
    pub fn add_slot(&mut self, who: Who) -> Result<(), Memory>
        ensures added { OnOk result (slot_of who self.old.slots ≡ None → self.new ≡ with_slot who self.old) }
        ensures there { IsSome (slot_of who self.old.slots) → self.new ≡ self.old }
        ensures slot { OnOk result (IsSome (slot_of who self.new.slots)) }
        ensures kept { OnErr result (self.new ≡ self.old) }
        ensures sound { IsSound self.new }
    {
        if self.slots.of(who).is_some() {
            return Ok(());
        }
        self.added.reserve(1)?;
        self.removed.reserve(self.slots.len() + 1)?;
        self.slots.add(who)?;
        self.added.push_reserved(who);
        Ok(())
    }

    /// Removes the slot of this life, with its replies; nothing where it has none. It takes no memory.
    pub fn drop_slot(&mut self, who: Who)
        ensures dropped { IsSome (slot_of who self.old.slots) → self.new ≡ without_slot who self.old }
        ensures absent { slot_of who self.old.slots ≡ None → self.new ≡ self.old }
        ensures slot { slot_of who self.new.slots ≡ None }
        ensures sound { IsSound self.new }
    {
        if self.slots.of(who).is_none() {
            return;
        }
        self.slots.remove(who);
        self.added.retain(|life| *life != who);
        self.removed.push_reserved(who);
    }

    /// Whether a life of this client that isn't older had a slot here which was removed: this life comes too late.
    pub fn is_over(&self, who: Who) -> bool
        ensures over { result ≡ list_any (is_over who) self.now.removed }
    {
        self.removed
            .iter()
            .any(|gone| gone.client == who.client && gone.life >= who.life)
    }
}
