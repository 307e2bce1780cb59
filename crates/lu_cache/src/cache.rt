//! What a client knows under its locks.

ghost use Rattle.std.specs.Prelude.{◌≡◌, ℕ, Bool, ◌+◌, ◌<◌, ◌≤◌, ◌^◌, [], length, List, Option, Some, None, IfOk, OnOk, OnErr, IsTrue, IsFalse, option_map, unwrap_or, slice_index};
ghost use Rattle.std.specs.Option.{option_copied};
ghost use Rattle.lu_base.specs.declared.ids.Who.{Who};
ghost use Rattle.lu_held.specs.declared.locks.HeldLock.{HeldLock};
ghost use Rattle.lu_spec_machine.specs.Places.{found_at};
ghost use Rattle.lu_spec_entries.specs.Words.{Learns, Hold, Drop as DropOf, Life, Fills, Zeroes, Grown, Shows};
ghost use Rattle.lu_spec_client.specs.Caches.{bytes_at, noted};
ghost use Rattle.lu_spec_client.specs.Known.{cookies_of_file};
ghost use Rattle.lu_cache.specs.Usable.{Agrees, isn't_marked};
ghost use Rattle.lu_cache.specs.Tells.{notes, known_on, known_of, locks_of};
ghost use Rattle.lu_cache.specs.Cached.{Cached, nothing, cache_after, learned, IsOfTarget, forgotten};
ghost use Rattle.lu_cache.specs.Kept.{Fits};
ghost use Rattle.lu_cache.specs.Reading.{AreKnown, AreAt};

use super::bytes::KnownBytes;
use super::known::Known;
use super::learning::taught;
use super::log::Facts;
use super::notes::Notes;
use super::paths;
use lu_base::{Cookie, Cookies, Fid, Lock, Memory, Path, Policy, Resource};
use lu_held::Held;
use lu_msg::{Answer, Op};
use lu_page::Places;
use lu_spec_entries::Flush;
use std::alloc::Global;
use std::cmp::max;
use std::marker::Model;

/// What a client knows under the locks that it holds: facts of names, attributes, lists and layouts under the metadata
/// target's locks; bytes of objects, the sizes of objects and the greatest offsets shown under the others'. Offsets and
/// sizes are in bytes, from 0.
#[derive(Drop)]
pub struct Cache {
    alloc: Global,
    facts: Facts,
    bytes: KnownBytes,
    sizes: Notes,
    shown: Notes,
}

impl Model for Cache {
    ghost use Rattle.lu_cache.specs.Cached.{Cached};
    ghost use Rattle.lu_cache.specs.Logs.{facts_of};

    ghost Value = { Cached };

    ghost view = { λ c. record { facts = facts_of c.facts; bytes = c.bytes; sizes = c.sizes; shown = c.shown } };
}

impl Cache {
    /// Nothing is known. It takes no memory yet.
    pub fn new(alloc: Global) -> Cache
        ensures nothing { result ≡ nothing }
    {
        Cache {
            alloc,
            facts: Facts::new(alloc),
            bytes: KnownBytes::new(alloc),
            sizes: Notes::new(alloc),
            shown: Notes::new(alloc),
        }
    }

    /// Learns what an answer tells, under the locks that came with it: of the metadata target's answers facts; of a
    /// granted lock that reaches the end the object's size. After want of memory nothing has changed.
    pub fn know(&mut self, op: &Op, answer: &Answer, locks: &[Lock]) -> Result<(), Memory>
        ensures learned { OnOk result (self.new ≡ learned op.now answer.now locks.now self.old) }
        ensures kept { OnErr result (self.new ≡ self.old) }
    {
        if let (
            Op::Enqueue { resource, .. },
            Answer::Granted {
                cookie,
                extent,
                size,
            },
        ) = (op, answer)
        {
            if extent.last != u64::MAX {
                return Ok(());
            }
            return self.sizes.keep(*resource, *cookie, *size);
        }
        let facts = taught(self.alloc, op, answer, locks)?;
        self.facts.learn(facts)
    }

    /// Keeps the object's size that came with a lock, where the lock reaches the end. After want of memory nothing has
    /// changed.
    pub fn hold(&mut self, lock: &Lock, size: Option<u64>) -> Result<(), Memory>
        ensures held { OnOk result ((t : ℕ) (marked : Bool) (seen : List ℕ)
            → self.new ≡ cache_after self.old (Hold t lock.now marked size seen)) }
        ensures kept { OnErr result (self.new ≡ self.old) }
    {
        let Some(size) = size else {
            return Ok(());
        };
        let Policy::Range(extent) = lock.ask.policy else {
            return Ok(());
        };
        if extent.last != u64::MAX {
            return Ok(());
        }
        self.sizes.keep(lock.resource, lock.cookie, size)
    }

    /// What a call on names is told from what is known, and the locks under which that is known, where `marked` are
    /// those that are called back and all others are held. None where something isn't known, or the call always asks.
    pub fn known(&self, alloc: Global, op: &Op, marked: &Cookies) -> Result<Option<Known>, Memory>
        ensures known { IfOk result (λ known. (held : List HeldLock)
            → Agrees (isn't_marked marked.now) held self.now.facts
            → known ≡ option_map known_of (known_on op.now (notes self.now.facts held))) }
    {
        paths::known(&self.facts, marked, alloc, op)
    }

    /// The same under the locks that are held and not called back.
    pub fn known_under(&self, alloc: Global, op: &Op, held: &Held) -> Result<Option<Known>, Memory>
        ensures known { IfOk result (λ known.
            known ≡ option_map known_of (known_on op.now (notes self.now.facts held.now.locks))) }
    {
        paths::known(&self.facts, held, alloc, op)
    }

    /// The locks that are held and not called back under which what a stat of a file was told is known, rising and
    /// each once.
    pub fn stat_locks(
        &self,
        alloc: Global,
        path: &Path,
        file: Fid,
        held: &Held,
    ) -> Result<Cookies, Memory>
        ensures locks { IfOk result (λ locks.
            locks ≡ locks_of (cookies_of_file (notes self.now.facts held.now.locks) path.now file)) }
    {
        paths::stat_locks(&self.facts, held, alloc, path, file)
    }

    /// Bytes of an object are known from this offset on. After want of memory nothing has changed.
    pub fn fill(&mut self, resource: Resource, at: u64, from: &[u8]) -> Result<(), Memory>
        requires fits { at + length from.now ≤ 2 ^ 62 }
        ensures filled { OnOk result (self.new ≡ cache_after self.old (Fills resource at from.now)) }
        ensures kept { OnErr result (self.new ≡ self.old) }
    {
        self.bytes.fill(resource, at, from)
    }

    /// Reads bytes of an object from this offset on. False, and nothing is written, exactly where one of them isn't
    /// known.
    pub fn read(&self, resource: Resource, at: u64, into: &mut [u8]) -> bool
        requires fits { at + length into.old ≤ 2 ^ 62 }
        ensures known { IsTrue result → AreKnown (bytes_at resource self.now.bytes) at (length into.old) }
        ensures missing { IsFalse result → AreKnown (bytes_at resource self.now.bytes) at (length into.old) → ⊥ }
        ensures bytes { IsTrue result → AreAt (bytes_at resource self.now.bytes) at into.new (length into.old) }
        ensures kept { IsFalse result → into.new ≡ into.old }
        ensures count { length into.new ≡ length into.old }
    {
        self.bytes.read(resource, at, into)
    }

    /// What is known of an object, byte by byte; none where nothing was ever known.
    pub fn bytes(&self, resource: Resource) -> Option<&Places<u8>>
        ensures bytes { unwrap_or (option_copied result) [] ≡ bytes_at resource self.now.bytes }
    {
        self.bytes.of(resource)
    }

    /// Makes the known bytes of an object 0 from this offset on.
    pub fn cut(&mut self, resource: Resource, n: u64)
        ensures cut { self.new ≡ cache_after self.old (Zeroes resource n) }
    {
        self.bytes.cut(resource, n);
    }

    /// The object's size that is kept for a lock that reaches the end.
    pub fn size(&self, resource: Resource, cookie: Cookie) -> Option<u64>
        ensures size { result ≡ noted resource cookie self.now.sizes }
    {
        self.sizes.of(resource, cookie)
    }

    /// Makes the sizes that are kept for an object those after an answered change of it.
    pub fn grow(&mut self, resource: Resource, change: &Flush)
        requires fits { Fits change.now }
        ensures grown { self.new ≡ cache_after self.old (Grown resource change.now) }
    {
        self.sizes.grow(resource, change);
    }

    /// Keeps the greatest offset that was shown under a lock. After want of memory nothing has changed.
    pub fn show(&mut self, lock: &Lock, last: u64) -> Result<(), Memory>
        ensures shown { OnOk result (self.new ≡ cache_after self.old (Shows lock.now.resource lock.now.cookie last)) }
        ensures kept { OnErr result (self.new ≡ self.old) }
    {
        let last = match self.shown.of(lock.resource, lock.cookie) {
            Some(before) => max(before, last),
            None => last,
        };
        self.shown.keep(lock.resource, lock.cookie, last)
    }

    /// The greatest offset that was shown under a lock; none where nothing was shown.
    pub fn shown(&self, lock: &Lock) -> Option<u64>
        ensures shown { result ≡ noted lock.now.resource lock.now.cookie self.now.shown }
    {
        self.shown.of(lock.resource, lock.cookie)
    }

    /// Forgets what is known under a lock that is given up: of a lock on names its facts; of a lock on a range each
    /// known byte of the object in it, whichever lock it came under, and the size and the offset that are kept for
    /// the lock.
    pub fn forget(&mut self, lock: &Lock)
        ensures forgotten { self.new ≡ forgotten lock.now self.old }
        ensures dropped { (t : ℕ) → IsOfTarget t lock.now.ask.policy
            → self.new ≡ cache_after self.old (DropOf t lock.now) }
    {
        match lock.ask.policy {
            Policy::Bits(_) => self.facts.forget(lock.cookie),
            Policy::Range(extent) => {
                self.bytes.forget(lock.resource, extent);
                self.sizes.forget(lock.resource, lock.cookie);
                self.shown.forget(lock.resource, lock.cookie);
            }
        }
    }

    /// Forgets all.
    pub fn clear(&mut self)
        ensures cleared { (who : Who) → self.new ≡ cache_after self.old (Life who) }
    {
        *self = Cache::new(self.alloc);
    }
}
