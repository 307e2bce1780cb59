//! What a client holds, and what each entry of its turns makes of it.

ghost use Rattle.std.specs.Prelude.{◌≡◌, ◌+◌, ◌≤◌, ◌^◌, ℕ, List, [], ◌∷◌, false, length, option_map, IfOk, OnOk, OnErr, IfSome, IfNone};
ghost use Rattle.lu_base.specs.declared.ids.Who.{Who};
ghost use Rattle.lu_held.specs.Locks.{named, name_of};
ghost use Rattle.lu_held.specs.Held.{is_held, to_trim};
ghost use Rattle.lu_spec_entries.specs.Words.{Hold, Drop as DropOf, Life, Pins, Unpins, Marks, Unmarks, Learns, Changes, Acks, Fills, Zeroes, Grown, Shows};
ghost use Rattle.lu_cache.specs.Cached.{cache_after};
ghost use Rattle.lu_spec_client.specs.Patches.{in_flight, next_flush};
ghost use Rattle.lu_spec_client.specs.Facts.{without_facts};
ghost use Rattle.lu_spec_client.specs.Caches.{held_as, forgotten_bytes, forgotten_notes, patch_at};
ghost use Rattle.lu_client_store.specs.Stored.{first_state, stored_after, stored_sent, stored_marked, locks_held, trims_left, IsInFile};

use super::patches::Patches;
use lu_base::{Ask, Extent, Lock, Memory, Policy, Resource, TargetId};
use lu_cache::Cache;
use lu_held::{Held, LockName};
use lu_msg::{Answer, Op};
use lu_spec_entries::Flush;
use std::alloc::Global;
use std::marker::Model;

/// The locks that a client holds, what it knows under them, and its own changes of objects. Offsets and sizes are in
/// bytes, from 0. No size that is kept is above 2^40, and no change reaches past it.
#[derive(Drop)]
pub struct Store {
    pub(crate) held: Held,
    pub(crate) cache: Cache,
    pub(crate) patches: Patches,
}

impl Model for Store {
    ghost use Rattle.lu_client_store.specs.Stored.{StoreState};
    ghost use Rattle.lu_client_store.specs.Bounds.{AreShort};

    ghost Value = { StoreState };

    ghost view = { λ s. record {
      unused = s.held.unused;
      facts = s.cache.facts;
      store = record {
        held = s.held.locks;
        bytes = s.cache.bytes;
        sizes = s.cache.sizes;
        shown = s.cache.shown;
        patches = s.patches;
      };
    } };

    ghost invariant = { λ s. AreShort s.cache.sizes };
}

/// Holds a lock that a target granted, as the last used; it is called back already where `marked`. After want of memory
/// nothing has changed.
fn grant(held: &mut Held, target: TargetId, lock: &Lock, marked: bool) -> Result<(), Memory>
    requires absent { is_held (named target lock.now.cookie) held.old.locks ≡ false }
    ensures added { OnOk result (held.new
        ≡ record held.old { locks = held_as target.0 lock.now marked ∷ held.old.locks }) }
    ensures kept { OnErr result (held.new ≡ held.old) }
{
    held.granted(target, *lock)?;
    if marked {
        held.block(target, lock.cookie);
        return Ok(());
    }
    Ok(())
}

/// Learns what an answer tells of names, attributes, lists and layouts. After want of memory nothing has changed.
fn learn_names(cache: &mut Cache, op: &Op, answer: &Answer, locks: &[Lock]) -> Result<(), Memory>
    ensures learned { OnOk result ((target : ℕ)
        → cache.new ≡ cache_after cache.old (Learns target op.now answer.now locks.now)) }
    ensures kept { OnErr result (cache.new ≡ cache.old) }
{
    if let Op::Enqueue { .. } = op {
        return Ok(());
    }
    cache.know(op, answer, locks)
}

/// Forgets the facts under a lock that is given up: the metadata target's locks guard them.
fn forget_names(cache: &mut Cache, target: TargetId, lock: &Lock)
    ensures forgotten { cache.new ≡ record cache.old { facts = without_facts target.0 lock.now cache.old.facts } }
{
    if target.0 == 0 {
        cache.forget(&Lock {
            ask: Ask {
                policy: Policy::Bits(0),
                ..lock.ask
            },
            ..*lock
        });
    }
}

/// Forgets what is known of an object under a lock on a range of it that is given up.
fn forget_range(cache: &mut Cache, lock: &Lock)
    ensures forgotten { cache.new ≡ record cache.old {
      bytes = forgotten_bytes lock.now.ask.policy lock.now.resource cache.old.bytes;
      sizes = forgotten_notes lock.now.ask.policy lock.now cache.old.sizes;
      shown = forgotten_notes lock.now.ask.policy lock.now cache.old.shown;
    } }
{
    if let Policy::Range(_) = lock.ask.policy {
        cache.forget(lock);
    }
}

impl Store {
    /// Nothing is held, known or changed. At most `unused` locks that are neither pinned nor marked are kept by `trim`.
    pub fn new(alloc: Global, unused: u32) -> Result<Store, Memory>
        ensures first { IfOk result (λ store. store ≡ first_state unused) }
    {
        Ok(Store {
            held: Held::new(alloc, unused)?,
            cache: Cache::new(alloc),
            patches: Patches::new(alloc),
        })
    }

    // ---- held locks

    /// Holds a lock that a target granted, as the last used; it is called back already where `marked`. Keeps the object's
    /// size that came with it, at most 2^40, where the lock reaches the end. After want of memory nothing has changed.
    pub fn hold(
        &mut self,
        target: TargetId,
        lock: &Lock,
        marked: bool,
        size: Option<u64>,
    ) -> Result<(), Memory>
        requires absent { is_held (named target lock.now.cookie) self.old.store.held ≡ false }
        requires short { IfSome size (λ n. n ≤ 2 ^ 40) }
        ensures held { OnOk result ((seen : List ℕ)
            → self.new ≡ stored_after self.old (Hold target.0 lock.now marked size seen)) }
        ensures kept { OnErr result (self.new ≡ self.old) }
    {
        grant(&mut self.held, target, lock, marked)?;
        if let Err(error) = self.cache.hold(lock, size) {
            self.held.remove(target, lock.cookie);
            return Err(error);
        }
        Ok(())
    }

    /// Gives a lock up: it is held no more, and what is known under it is forgotten.
    pub fn drop_lock(&mut self, target: TargetId, lock: &Lock)
        ensures dropped { self.new ≡ stored_after self.old (DropOf target.0 lock.now) }
    {
        self.held.remove(target, lock.cookie);
        forget_names(&mut self.cache, target, lock);
        forget_range(&mut self.cache, lock);
    }

    /// Pins a lock: it is in use. Where it isn't held nothing changes.
    pub fn pin(&mut self, name: LockName)
        ensures pinned { self.new ≡ stored_after self.old (Pins name) }
    {
        self.held.pin(name.target, name.cookie);
    }

    /// Takes one pin from a lock, which is the last used then. Where it isn't held nothing changes.
    pub fn unpin(&mut self, name: LockName)
        ensures unpinned { self.new ≡ stored_after self.old (Unpins name) }
    {
        self.held.unpin(name.target, name.cookie);
    }

    /// Marks a lock: it is to be given back. False where it isn't held; then nothing has changed.
    pub fn mark(&mut self, name: LockName) -> bool
        ensures held { result ≡ is_held name self.old.store.held }
        ensures marked { self.new ≡ stored_after self.old (Marks name) }
    {
        self.held.block(name.target, name.cookie)
    }

    /// Takes the marks of a target's locks away.
    pub fn unmark(&mut self, target: TargetId)
        ensures unmarked { self.new ≡ stored_after self.old (Unmarks target.0) }
    {
        self.held.unmark(target);
    }

    /// Where more locks than may be kept are neither pinned nor marked, marks the least recently used of them, and
    /// answers its name; none where at most as many are.
    pub fn trim(&mut self) -> Option<LockName>
        ensures trimmed { result ≡ option_map name_of (to_trim (locks_held self.old)) }
        ensures marked { self.new ≡ stored_marked result self.old }
        ensures some { IfSome result (λ name. trims_left self.old ≡ Marks name ∷ trims_left self.new) }
        ensures none { IfNone result (trims_left self.old ≡ []) }
    {
        let (target, cookie) = self.held.trim()?;
        Some(LockName { target, cookie })
    }

    // ---- what is known

    /// Learns what an answer tells of names, attributes, lists and layouts, under the locks that came with it. After want
    /// of memory nothing has changed.
    pub fn learn(
        &mut self,
        target: TargetId,
        op: &Op,
        answer: &Answer,
        locks: &[Lock],
    ) -> Result<(), Memory>
        ensures learned { OnOk result (self.new ≡ stored_after self.old (Learns target.0 op.now answer.now locks.now)) }
        ensures kept { OnErr result (self.new ≡ self.old) }
    {
        learn_names(&mut self.cache, op, answer, locks)
    }

    /// Bytes of an object are known from this offset on. After want of memory nothing has changed.
    pub fn fill(&mut self, resource: Resource, at: u64, from: &[u8]) -> Result<(), Memory>
        requires fits { at + length from.now ≤ 2 ^ 62 }
        ensures filled { OnOk result (self.new ≡ stored_after self.old (Fills resource at from.now)) }
        ensures kept { OnErr result (self.new ≡ self.old) }
    {
        self.cache.fill(resource, at, from)
    }

    /// Makes the known bytes of an object 0 from this offset on.
    pub fn zero(&mut self, resource: Resource, n: u64)
        ensures zeroed { self.new ≡ stored_after self.old (Zeroes resource n) }
    {
        self.cache.cut(resource, n);
    }

    /// Makes the sizes that are kept for an object those after an answered change of it.
    pub fn grow(&mut self, resource: Resource, change: &Flush)
        requires fits { IsInFile change.now }
        ensures grown { self.new ≡ stored_after self.old (Grown resource change.now) }
    {
        self.cache.grow(resource, change);
    }

    /// Keeps the greatest offset that was shown under a lock. After want of memory nothing has changed.
    pub fn show(&mut self, lock: &Lock, last: u64) -> Result<(), Memory>
        ensures shown { OnOk result (self.new
            ≡ stored_after self.old (Shows lock.now.resource lock.now.cookie last)) }
        ensures kept { OnErr result (self.new ≡ self.old) }
    {
        self.cache.show(lock, last)
    }

    // ---- changes

    /// Changes an object: cuts it, or writes bytes. After want of memory nothing has changed.
    pub fn change(&mut self, resource: Resource, change: &Flush) -> Result<(), Memory>
        requires fits { IsInFile change.now }
        ensures changed { OnOk result (self.new ≡ stored_after self.old (Changes resource change.now)) }
        ensures kept { OnErr result (self.new ≡ self.old) }
    {
        self.patches.change(resource, change)
    }

    /// The next write-back of an object's changes in a range: the pending cut, or else the dirty run of least offset, which
    /// ends with its page and with the range. None where there is no change in the range. It is under way then; none is
    /// before. After want of memory nothing has changed.
    pub fn take_flush(
        &mut self,
        resource: Resource,
        within: Extent,
    ) -> Result<Option<Flush>, Memory>
        requires rests { in_flight (patch_at resource self.old.store.patches) ≡ false }
        ensures flush { IfOk result (λ flush.
            flush ≡ next_flush within (patch_at resource self.old.store.patches)) }
        ensures in_file { IfOk result (λ flush. IfSome flush IsInFile) }
        ensures sent { IfOk result (λ flush. self.new ≡ stored_sent resource flush self.old) }
        ensures kept { OnErr result (self.new ≡ self.old) }
    {
        self.patches.take_flush(resource, within)
    }

    /// Takes away what was in flight of an object and wasn't touched since: its write-back was answered.
    pub fn ack(&mut self, resource: Resource)
        ensures acked { self.new ≡ stored_after self.old (Acks resource) }
    {
        self.patches.ack(resource);
    }

    /// A new life begins: nothing is known and nothing is changed. What is held stays until it is given up.
    pub fn begin_life(&mut self)
        ensures begun { (who : Who) → self.new ≡ stored_after self.old (Life who) }
    {
        self.cache.clear();
        self.patches.clear();
    }
}
