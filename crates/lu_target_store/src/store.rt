//! The journal over its disk, and the newest requests.

ghost use Rattle.std.specs.Prelude.{◌≡◌, ◌≢◌, ◌↔◌, ◌⊎◌, ℕ, ◌+◌, ◌*◌, ◌^◌, ◌<◌, [], ◌∷◌, ◌++◌, Some, None, IfOk, IfErr, OnOk, OnErr, IsSome, IsTrue};
ghost use Rattle.std.specs.List.{list_any};
ghost use Rattle.lu_msg.specs.Limits.{tag_count};
ghost use Rattle.lu_txn.specs.Slots.{slot_of, reply_at, lives_of};
ghost use Rattle.lu_txn.specs.Journals.{count, most_numbers, appended};
ghost use Rattle.lu_txn.specs.Loads.{AreBelow};
ghost use Rattle.lu_spec_entries.specs.Words.{Enters, Boot as BootEntry, Txn as TxnEntry};
ghost use Rattle.lu_spec_target.specs.Lives.{slot_in, is_life};
ghost use Rattle.lu_spec_target.specs.Replies.{seen_in, next_number};
ghost use Rattle.lu_spec_target.specs.States.{Setting, Target, after, first_batch, lives_from, started};
ghost use Rattle.lu_spec_target.specs.Leaving.{is_over, life_of};
ghost use Rattle.lu_spec_target.specs.Disks.{boot_batch};
ghost use Rattle.lu_spec_target.specs.Rows.{first_deeds};
ghost use Rattle.lu_target_refines.specs.Journals.{slot_shown, ShowsDisk};
ghost use Rattle.lu_target_store.specs.Taken.{shown};
ghost use Rattle.lu_target_store.specs.Stores.{Serves, Recovers, KeepsDisk, HasTaken, KeepsTaken, KeepsTakenBut, IsAnsweredBy, IsCommit, MayMove, IsMove, IsRedone, IsClose, IsLook};
ghost use Rattle.lu_target_store.specs.Commits.{HasCause, IsOfDisk, failure, last_boot, most_boots};
ghost use Rattle.lu_target_store.specs.declared.faults.StoreFault.TheVariants as store_fault;

use super::commits::{add_slots, counted, drop_slots, last_boot, last_of_first, write};
use super::faults::StoreFault;
use super::taken::{Newest, TakenRequests};
use lu_base::{Lives, Memory, Numbers, Txn, Who, Xid};
use lu_disk::Disk;
use lu_msg::{Batches, Op, Reply, Request};
use lu_part::Parts;
use lu_txn::{Journal, TxnError};
use std::alloc::Global;
use std::marker::Model;

/// What a request's number says beside the newest request of its life and tag.
#[derive(Debug)]
pub enum Look<'a> {
    /// It is above: the request is new.
    New,
    /// It is the same, and was answered so.
    Again(&'a Reply),
    /// It is the same, and isn't answered yet.
    Waits,
    /// It is below: the request is an old one.
    Old,
}

/// What a target has taken and answered, and its disk.
#[derive(Drop)]
pub struct Store<D: Disk> {
    alloc: Global,
    disk: D,
    /// The target's boot, from 1.
    boot: u32,
    journal: Journal,
    taken: TakenRequests,
}

impl<D: Disk> Model for Store<D> {
    ghost use Rattle.std.specs.Prelude.{◌≡◌};
    ghost use Rattle.lu_target_store.specs.Stores.{StoreState};

    ghost Value = { StoreState };

    ghost view = { λ s. record {
      journal = s.journal;
      taken = s.taken;
      batches = D.batches s.disk;
      faults = D.faults s.disk;
    } };

    ghost invariant = { λ s. s.boot ≡ s.journal.boot };
}

impl<D: Disk> Store<D> {
    /// The store of a target that begins a run over a disk without batches, to which boot 1 and a slot without replies
    /// for each of these lives go. After an error the disk comes back, without batches.
    pub fn start(alloc: Global, disk: D, first: &[Who]) -> Result<Store<D>, (D, StoreFault)>
        requires empty { D.batches disk ≡ [] }
        ensures started { IfOk result (λ store. (setting : Setting) (clients : ℕ)
            → first.now ≡ lives_from 0 clients → Serves store (started setting clients)) }
        ensures stored { IfOk result (λ store. (clients : ℕ)
            → first.now ≡ lives_from 0 clients → store.batches ≡ first_batch clients ∷ []) }
        ensures kept { IfErr result (λ failed. D.batches failed.0 ≡ []) }
        ensures faults { IfOk result (λ store. store.faults ≡ D.faults disk) }
        ensures cause { IfErr result (λ failed. HasCause (D.faults disk) (D.faults failed.0) (failure failed.1)) }
        ensures of_disk { IfErr result (λ failed. IsOfDisk failed.1) }
    {
        let journal = match Journal::start(alloc, first) {
            Ok(journal) => journal,
            Err(Memory) => return Err((disk, StoreFault::Memory)),
        };
        let mut store = Store {
            alloc,
            disk,
            boot: 1,
            journal,
            taken: TakenRequests::new(alloc),
        };
        match write(&mut store.journal, &mut store.disk, Txn(0)) {
            Ok(()) => Ok(store),
            Err(fault) => Err((store.disk, fault)),
        }
    }

    /// The store of a target that boots over its disk, of which these batches were loaded: the boot after the last one there
    /// goes there too, and the target recovers. `BootsSpent` exactly where that was 2^32 - 1. After an error the disk comes
    /// back as it was.
    pub fn boot(alloc: Global, disk: D, batches: &Batches) -> Result<Store<D>, (D, StoreFault)>
        requires loaded { batches.now ≡ D.batches disk }
        requires below { AreBelow (last_boot (D.batches disk) + 1) (D.batches disk) }
        ensures booted { IfOk result (λ store. (v : Target) → ShowsDisk (D.batches disk) v
            → Recovers store (after v (BootEntry (v.disk.boot + 1) v.disk))) }
        ensures room { IfOk result (λ _. last_boot (D.batches disk) < most_boots) }
        ensures stored { IfOk result (λ store. store.batches ≡ D.batches disk
            ++ boot_batch (last_boot (D.batches disk) + 1) ∷ []) }
        ensures steady { IfOk result (λ store. store.faults ≡ D.faults disk) }
        ensures kept { IfErr result (λ failed. D.batches failed.0 ≡ D.batches disk) }
        ensures cause { IfErr result (λ failed. HasCause (D.faults disk) (D.faults failed.0) (failure failed.1)) }
        ensures faults { IfErr result (λ failed. IsOfDisk failed.1
            ⊎ ((failed.1 ≡ store_fault.BootsSpent) × (last_boot (D.batches disk) ≡ most_boots))) }
    {
        let last = last_boot(batches.as_slice());
        if last == u32::MAX {
            return Err((disk, StoreFault::BootsSpent));
        }
        let journal = match Journal::new(alloc, batches, last + 1) {
            Ok(journal) => journal,
            Err(Memory) => return Err((disk, StoreFault::Memory)),
        };
        let to = journal.last_committed();
        let mut store = Store {
            alloc,
            disk,
            boot: last + 1,
            journal,
            taken: TakenRequests::new(alloc),
        };
        match write(&mut store.journal, &mut store.disk, to) {
            Ok(()) => Ok(store),
            Err(fault) => Err((store.disk, fault)),
        }
    }

    /// Whether this life has a slot.
    pub fn serves(&self, who: Who) -> bool
        ensures serving { (v : Target) → Serves self.now v → result ≡ is_life who v.lives }
        ensures recovering { (v : Target) → Recovers self.now v → result ≡ is_life who v.lives }
        ensures slot { IsTrue result ↔ IsSome (slot_of who self.now.journal.slots) }
    {
        self.journal.look(who, 0, Xid(0)).is_ok()
    }

    /// What this number says beside the newest request of its life and tag; no request has the number 0.
    pub fn look(&self, who: Who, tag: u8, xid: Xid) -> Look<'_>
        requires tag { tag < tag_count }
        ensures look { (v : Target) → Serves self.now v → IsLook (slot_in v.slots who tag) xid result }
    {
        match self.taken.newest(who, tag) {
            Some(newest) => self.beside(who, tag, newest, xid),
            None => self.replied(who, tag, xid),
        }
    }

    /// The same, where this one is the newest since the target serves.
    fn beside(&self, who: Who, tag: u8, newest: Newest, xid: Xid) -> Look<'_>
        requires tag { tag < tag_count }
        ensures look { IsLook (slot_shown (shown (Some newest)) (reply_at who tag self.now.journal.slots)) xid result }
    {
        if xid > newest.xid {
            return Look::New;
        }
        if xid < newest.xid {
            return Look::Old;
        }
        match self.journal.reply(who, tag) {
            Some(reply) if newest.answered => Look::Again(reply),
            _ => Look::Waits,
        }
    }

    /// The same, where none was taken since.
    fn replied(&self, who: Who, tag: u8, xid: Xid) -> Look<'_>
        requires tag { tag < tag_count }
        ensures look { IsLook (slot_shown None (reply_at who tag self.now.journal.slots)) xid result }
    {
        let Some(reply) = self.journal.reply(who, tag) else {
            return if xid > Xid(0) { Look::New } else { Look::Waits };
        };
        if xid > reply.xid {
            Look::New
        } else if xid == reply.xid {
            Look::Again(reply)
        } else {
            Look::Old
        }
    }

    /// The uncommitted transactions that an operation has seen which touches these parts, rising.
    pub fn seen(&self, touched: &Parts) -> Result<Numbers, Memory>
        ensures seen { IfOk result (λ numbers. (v : Target) → Serves self.now v → numbers ≡ seen_in touched.now v.log) }
    {
        self.journal.seen(touched)
    }

    /// The number of the next transaction. `NumbersSpent` exactly where this boot's count stands at 2^32 - 1.
    pub fn next(&self) -> Result<Txn, StoreFault>
        ensures number { IfOk result (λ number. (v : Target) → Serves self.now v → number ≡ next_number v) }
        ensures value { IfOk result (λ number. number.0 ≡ self.now.journal.boot * 2 ^ 32 + count self.now.journal + 1) }
        ensures above { IfOk result (λ number. self.now.journal.newest < number.0) }
        ensures boot { IfOk result (λ number. number.0 < (self.now.journal.boot + 1) * 2 ^ 32) }
        ensures room { IfOk result (λ number. count self.now.journal < most_numbers) }
        ensures spent { IfErr result (λ fault. (fault ≡ store_fault.NumbersSpent)
            × (count self.now.journal ≡ most_numbers)) }
    {
        match self.journal.next() {
            Ok(number) => Ok(number),
            Err(_) => Err(StoreFault::NumbersSpent),
        }
    }

    /// The greatest transaction that is on the disk, 0 where there is none.
    pub fn last_committed(&self) -> Txn
        ensures serving { (v : Target) → Serves self.now v → result.0 ≡ v.committed }
        ensures recovering { (v : Target) → Recovers self.now v → result.0 ≡ v.committed }
    {
        self.journal.last_committed()
    }

    /// Whether a life of this client that isn't older had a slot which was removed.
    pub fn is_over(&self, who: Who) -> bool
        ensures serving { (v : Target) → Serves self.now v → result ≡ list_any (is_over who) v.removed }
        ensures recovering { (v : Target) → Recovers self.now v → result ≡ list_any (is_over who) v.removed }
    {
        self.journal.is_over(who)
    }

    /// A request is taken: it is the newest of its life and tag, and isn't answered.
    pub fn enter(&mut self, request: &Request) -> Result<(), Memory>
        requires tag { request.now.tag < tag_count }
        ensures shows { OnOk result ((v : Target) → Serves self.old v
            → Serves self.new (after v (Enters request.now))) }
        ensures entered { OnOk result (HasTaken request.now.who request.now.tag self.new) }
        ensures takes { OnOk result (KeepsTaken self.old self.new) }
        ensures journal { self.new.journal ≡ self.old.journal }
        ensures disk { KeepsDisk self.old self.new }
    {
        self.taken.enter(request.who, request.tag, request.xid)
    }

    /// A request of this life and tag, which was taken, is answered without a transaction: its reply is kept. The
    /// life has a slot.
    pub fn keep(&mut self, tag: u8, reply: Reply) -> Result<(), Memory>
        requires slot { IsSome (slot_of reply.who self.old.journal.slots) }
        requires taken { HasTaken reply.who tag self.old }
        requires tag { tag < tag_count }
        ensures shows { OnOk result (IsAnsweredBy tag reply self.old self.new) }
        ensures takes { OnOk result (KeepsTaken self.old self.new) }
        ensures disk { KeepsDisk self.old self.new }
    {
        let who = reply.who;
        self.taken.answer(who, tag)?;
        match self.journal.keep(who, tag, reply) {
            Ok(()) => Ok(()),
            Err(_) => unreachable!(),
        }
    }

    /// A request of this life and tag, which was taken, is this transaction, the next one. The life has a slot.
    pub fn append(&mut self, tag: u8, op: Op, writes: Parts, reply: Reply) -> Result<(), Memory>
        requires slot { IsSome (slot_of reply.who self.old.journal.slots) }
        requires taken { HasTaken reply.who tag self.old }
        requires tag { tag < tag_count }
        requires above { self.old.journal.newest < reply.txn.0 }
        requires boot { reply.txn.0 < (self.old.journal.boot + 1) * 2 ^ 32 }
        ensures shows { OnOk result ((v : Target) → Serves self.old v → reply.txn ≡ next_number v
            → Serves self.new (after v (TxnEntry (record { tag = tag; op = op; writes = writes; reply = reply })))) }
        ensures takes { OnOk result (KeepsTaken self.old self.new) }
        ensures disk { KeepsDisk self.old self.new }
    {
        let who = reply.who;
        self.taken.answer(who, tag)?;
        match self.journal.append(reply.txn, who, tag, op, writes, reply) {
            Ok(()) => Ok(()),
            Err(TxnError::Memory) => Err(Memory),
            Err(_) => unreachable!(),
        }
    }

    /// While the window closes, a kept replay is the next transaction again, with the reply made anew. The life has a
    /// slot.
    pub fn redo(&mut self, tag: u8, op: Op, writes: Parts, reply: Reply) -> Result<(), Memory>
        requires slot { IsSome (slot_of reply.who self.old.journal.slots) }
        requires tag { tag < tag_count }
        requires above { self.old.journal.newest < reply.txn.0 }
        requires boot { reply.txn.0 < (self.old.journal.boot + 1) * 2 ^ 32 }
        ensures redone { OnOk result (IsRedone (record { tag = tag; op = op; writes = writes; reply = reply }) self.old
            self.new) }
        ensures journal { OnOk result (self.new.journal
            ≡ appended reply.txn reply.who tag op writes reply self.old.journal) }
        ensures disk { KeepsDisk self.old self.new }
    {
        let who = reply.who;
        match self.journal.append(reply.txn, who, tag, op, writes, reply) {
            Ok(()) => Ok(()),
            Err(TxnError::Memory) => Err(Memory),
            Err(_) => unreachable!(),
        }
    }

    /// Commits the first `count` of the transactions that aren't on the disk, or all where there is no count: the number
    /// of the last of them, and `None` where there is none. After an error the disk has what it had.
    pub fn commit(&mut self, count: Option<u32>) -> Result<Option<Txn>, StoreFault>
        ensures commit { IfOk result (λ to. IsCommit count to self.old self.new) }
        ensures some { OnErr result ((v : Target) → Serves self.old v → first_deeds count v.log ≢ []) }
        ensures takes { OnOk result (KeepsTaken self.old self.new) }
        ensures kept { OnErr result (self.new.batches ≡ self.old.batches) }
        ensures cause { HasCause self.old.faults self.new.faults result }
        ensures faults { IfErr result IsOfDisk }
    {
        let first = counted(count, self.journal.uncommitted_count());
        if first == 0 {
            return Ok(None);
        }
        let to = last_of_first(&self.journal, first);
        write(&mut self.journal, &mut self.disk, to)?;
        Ok(Some(to))
    }

    /// Commits all that isn't on the disk, while these lives lose their slots and those get one: the number of the last
    /// transaction on the disk then. So does the close of the recovery window, once the kept replays are done again. After an error the disk has what it had, and the slots may have changed.
    pub fn move_lives(&mut self, gone: &[Who], come: &[Who]) -> Result<Txn, StoreFault>
        requires may { MayMove gone.now come.now self.old }
        ensures moved { IfOk result (λ to. IsMove gone.now come.now to self.old self.new) }
        ensures closed { IfOk result (λ to. IsClose gone.now come.now to self.old self.new) }
        ensures takes { OnOk result (KeepsTakenBut gone.now self.old self.new) }
        ensures kept { OnErr result (self.new.batches ≡ self.old.batches) }
        ensures cause { HasCause self.old.faults self.new.faults result }
        ensures faults { IfErr result IsOfDisk }
    {
        let all = self.journal.uncommitted_count();
        let to = last_of_first(&self.journal, all);
        drop_slots(&mut self.journal, gone);
        add_slots(&mut self.journal, come)?;
        write(&mut self.journal, &mut self.disk, to)?;
        self.taken.forget(gone);
        Ok(to)
    }

    /// The target's boot, from 1.
    pub fn boot_number(&self) -> u32
        ensures serving { (v : Target) → Serves self.now v → result ≡ v.boot }
        ensures recovering { (v : Target) → Recovers self.now v → result ≡ v.boot }
    {
        self.boot
    }

    /// The lives that have a slot, by client and then by life.
    pub fn lives(&self, alloc: Global) -> Result<Lives, Memory>
        ensures slots { IfOk result (λ lives. lives ≡ lives_of self.now.journal.slots) }
        ensures serving { IfOk result (λ lives. (v : Target) → Serves self.now v → lives ≡ v.lives) }
        ensures recovering { IfOk result (λ lives. (v : Target) → Recovers self.now v → lives ≡ v.lives) }
    {
        let mut lives = Lives::new(alloc);
        while let Some(who) = self.journal.life(lives.len()) {
            lives.push(who)?;
        }
        Ok(lives)
    }

    /// The first life of this client that has a slot.
    pub fn life_of(&self, alloc: Global, client: u16) -> Result<Option<Who>, Memory>
        ensures serving { IfOk result (λ life. (v : Target) → Serves self.now v → life ≡ life_of client v.lives) }
        ensures recovering { IfOk result (λ life. (v : Target) → Recovers self.now v → life ≡ life_of client v.lives) }
    {
        let lives = self.lives(alloc)?;
        for who in lives.as_slice() {
            if who.client == client {
                return Ok(Some(*who));
            }
        }
        Ok(None)
    }

    /// The disk.
    pub fn into_disk(self) -> D
        ensures batches { D.batches result ≡ self.batches }
        ensures faults { D.faults result ≡ self.faults }
    {
        self.disk
    }
}
