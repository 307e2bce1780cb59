//! What a client's calls and its pass over the locks look at.

ghost use Rattle.std.specs.Prelude.{◌≡◌, ◌≤◌, ◌^◌, [], map, nat_lt, find, slice_get, option_map, unwrap_or, IfOk, IfSome};
ghost use Rattle.std.specs.Option.{option_copied};
ghost use Rattle.lu_held.specs.declared.locks.Wanted.TheVariants as wanted;
ghost use Rattle.lu_held.specs.Locks.{is_named, lock_of};
ghost use Rattle.lu_held.specs.Held.{in_order, those, serving, IsOnce};
ghost use Rattle.lu_cache.specs.Tells.{notes, known_on, known_of, locks_of};
ghost use Rattle.lu_spec_client.specs.Known.{cookies_of_file};
ghost use Rattle.lu_spec_client.specs.Patches.{clean, size_over, in_flight, has_change, dirty_in};
ghost use Rattle.lu_spec_client.specs.Caches.{noted, bytes_at, patch_at};
ghost use Rattle.lu_spec_client.specs.Locks.{dirty_total};
ghost use Rattle.lu_spec_client.specs.WriteBack.{is_clean};

use super::store::Store;
use lu_base::{Cookie, Cookies, Extent, Fid, Lock, Memory, Path, Resource, TargetId};
use lu_cache::Known;
use lu_held::{HeldLock, LockName, Use};
use lu_msg::Op;
use lu_page::Places;
use lu_patch::Patch;
use std::alloc::Global;

impl Store {
    // ---- held locks

    /// The held lock that does for a use: it isn't marked, its mode serves the wanted one, and it covers what is wanted. A
    /// lock that reaches the end comes before one that doesn't, and then the one of least cookie; none where no lock does.
    pub fn serving(&self, wanted: Use) -> Option<Lock>
        ensures serving { result ≡ option_map lock_of (serving wanted self.now.store.held) }
    {
        self.held.serving(wanted).copied()
    }

    /// The held lock of this name.
    pub fn held(&self, name: LockName) -> Option<HeldLock>
        ensures held { result ≡ find (is_named name) self.now.store.held }
        ensures sound { IsOnce self.now.store.held }
    {
        self.held.held(name).copied()
    }

    /// The held locks of a target in rising cookie, from place 0 on; none past the last.
    pub fn lock(&self, target: TargetId, at: usize) -> Option<&Lock>
        ensures lock { option_copied result
            ≡ option_map lock_of (slice_get (those (wanted.Of target) self.now.store.held) at) }
    {
        self.held.lock(target, at)
    }

    /// The held locks of this target and resource that aren't marked and hold this offset, in rising cookie, from place 0
    /// on; none past the last.
    pub fn covering(
        &self,
        target: TargetId,
        resource: Resource,
        offset: u64,
        at: usize,
    ) -> Option<&Lock>
        ensures lock { option_copied result
            ≡ option_map lock_of (slice_get (those (wanted.Holding target resource offset) self.now.store.held) at) }
    {
        self.held.covering(target, resource, offset, at)
    }

    /// The held locks by target and then by cookie.
    pub fn in_order(&self, alloc: Global) -> Result<Vec<HeldLock>, Memory>
        ensures order { IfOk result (λ locks. locks.items ≡ in_order self.now.store.held) }
    {
        self.held.in_order(alloc)
    }

    /// The held locks of a target, in rising cookie.
    pub fn locks_of(&self, alloc: Global, target: TargetId) -> Result<Vec<Lock>, Memory>
        ensures locks { IfOk result (λ locks.
            locks.items ≡ map lock_of (those (wanted.Of target) self.now.store.held)) }
    {
        self.held.of_target(alloc, target)
    }

    /// The held locks that are marked and not pinned, by target and then by cookie.
    pub fn ready(&self, alloc: Global) -> Result<Vec<HeldLock>, Memory>
        ensures ready { IfOk result (λ locks. locks.items ≡ those wanted.Ready self.now.store.held) }
    {
        self.held.ready(alloc)
    }

    // ---- what is known

    /// What a call on names is told from what is known under the locks that are held and not called back. None where
    /// something isn't known, or the call always asks.
    pub fn known(&self, alloc: Global, op: &Op) -> Result<Option<Known>, Memory>
        ensures known { IfOk result (λ known.
            known ≡ option_map known_of (known_on op.now (notes self.now.facts self.now.store.held))) }
    {
        self.cache.known_under(alloc, op, &self.held)
    }

    /// The locks that are held and not called back under which what a stat of a file was told is known, rising and each
    /// once.
    pub fn stat_locks(&self, alloc: Global, path: &Path, file: Fid) -> Result<Cookies, Memory>
        ensures locks { IfOk result (λ locks.
            locks ≡ locks_of (cookies_of_file (notes self.now.facts self.now.store.held) path.now file)) }
    {
        self.cache.stat_locks(alloc, path, file, &self.held)
    }

    /// The object's size that is kept for a lock that reaches the end.
    pub fn size(&self, resource: Resource, cookie: Cookie) -> Option<u64>
        ensures size { result ≡ noted resource cookie self.now.store.sizes }
        ensures short { IfSome result (λ n. n ≤ 2 ^ 40) }
    {
        self.cache.size(resource, cookie)
    }

    /// The greatest offset that was shown under a lock; none where nothing was shown.
    pub fn shown(&self, lock: &Lock) -> Option<u64>
        ensures shown { result ≡ noted lock.now.resource lock.now.cookie self.now.store.shown }
    {
        self.cache.shown(lock)
    }

    /// What is known of an object's bytes; none where nothing was ever known.
    pub fn bytes(&self, resource: Resource) -> Option<&Places<u8>>
        ensures bytes { unwrap_or (option_copied result) [] ≡ bytes_at resource self.now.store.bytes }
    {
        self.cache.bytes(resource)
    }

    // ---- changes

    /// The client's changes of an object; none where it never changed it.
    pub fn patch(&self, resource: Resource) -> Option<&Patch>
        ensures patch { unwrap_or (option_copied result) clean ≡ patch_at resource self.now.store.patches }
    {
        self.patches.of(resource)
    }

    /// The size of an object with the client's changes, where it had this one at the server.
    pub fn size_over(&self, resource: Resource, server: u64) -> u64
        ensures size { result ≡ size_over server (patch_at resource self.now.store.patches) }
        ensures short { server ≤ 2 ^ 40 → result ≤ 2 ^ 40 }
    {
        self.patches.size_over(resource, server)
    }

    /// Whether a write-back of an object is under way.
    pub fn in_flight(&self, resource: Resource) -> bool
        ensures flies { result ≡ in_flight (patch_at resource self.now.store.patches) }
    {
        self.patches.in_flight(resource)
    }

    /// Whether nothing of an object is changed.
    pub fn is_clean(&self, resource: Resource) -> bool
        ensures clean { result ≡ is_clean (patch_at resource self.now.store.patches) }
    {
        self.patches.is_clean(resource)
    }

    /// Whether there is a change of an object in a range, in flight or not: dirty bytes, or a pending cut all of whose
    /// positions the range holds.
    pub fn has_change(&self, resource: Resource, within: Extent) -> bool
        ensures change { result ≡ has_change within (patch_at resource self.now.store.patches) }
    {
        self.patches.has_change(resource, within)
    }

    /// Whether a byte of an object is dirty in a range, in flight or not.
    pub fn is_dirty_in(&self, resource: Resource, within: Extent) -> bool
        ensures dirty { result ≡ nat_lt 0 (dirty_in within (patch_at resource self.now.store.patches)) }
    {
        self.patches.is_dirty_in(resource, within)
    }

    /// Whether more bytes than this are dirty, of all objects together, those in flight among them.
    pub fn is_dirty_above(&self, limit: u64) -> bool
        ensures above { result ≡ nat_lt limit (dirty_total self.now.store.patches) }
    {
        self.patches.is_dirty_above(limit)
    }
}
