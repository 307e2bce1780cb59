//! A client's own changes, object by object.

ghost use Rattle.std.specs.Prelude.{◌≡◌, ◌≤◌, ◌+◌, ◌^◌, [], false, nat_lt, unwrap_or, is_some, IfOk, IfSome, OnOk, OnErr};
ghost use Rattle.std.specs.Option.{option_copied};
ghost use Rattle.lu_spec_entries.specs.Words.{Changes, Acks};
ghost use Rattle.lu_spec_client.specs.Patches.{clean, size_over, in_flight, cut_within, has_change, next_flush, dirty_in};
ghost use Rattle.lu_spec_client.specs.Caches.{patch_at, patches_after};
ghost use Rattle.lu_spec_client.specs.Locks.{dirty_total};
ghost use Rattle.lu_spec_client.specs.WriteBack.{is_clean};
ghost use Rattle.lu_client_store.specs.Stored.{IsInFile, patches_sent};
ghost use Rattle.lu_client_store.specs.Counting.{AreFew};

use super::objects::ObjectPatch;
use indexmap::IndexMap;
use lu_base::{Extent, Memory, Resource};
use lu_patch::Patch;
use lu_spec_entries::Flush;
use std::alloc::Global;
use std::marker::Model;

/// The changes of each object that a client has changed, in the order in which the objects came.
#[derive(Drop)]
pub(crate) struct Patches {
    alloc: Global,
    objects: IndexMap<Resource, ObjectPatch>,
    /// How many bytes of all objects are dirty, those in flight among them.
    total: u128,
}

impl Model for Patches {
    ghost use Rattle.std.specs.Prelude.{List};
    ghost use Rattle.lu_base.specs.declared.locks.Resource.{Resource as ResourceOf};
    ghost use Rattle.lu_spec_client.specs.Patches.{Patch as Shown};
    ghost use Rattle.lu_client_store.specs.Counting.{IsTotal};

    ghost Value = { List (ResourceOf × Shown) };

    ghost view = { λ p. p.objects.entries };

    ghost invariant = { λ p. IsTotal p.total p.objects.entries };
}

/// How many bytes of all objects are dirty, once so many of one are that were so many before.
fn recounted(
    objects: &IndexMap<Resource, ObjectPatch>,
    total: u128,
    before: u64,
    after: u64,
) -> u128
    requires few { AreFew objects.now.entries }
    requires changed { total + after ≡ dirty_total objects.now.entries + before }
    ensures counted { result ≡ dirty_total objects.now.entries }
{
    // There are fewer than 2^63 objects, each with fewer than 2^64 dirty bytes.
    let _objects = objects.len();
    total + after as u128 - before as u128
}

/// Whether a cut is pending: past the object's size a byte is 0 then, whatever the server has.
fn is_cut(patch: &Patch) -> bool
    ensures cut { result ≡ is_some patch.now.pending }
{
    patch.byte(patch.size_over(0), None).is_some()
}

/// Whether nothing is changed.
fn is_clean(patch: &Patch) -> bool
    ensures clean { result ≡ is_clean patch.now }
{
    if is_cut(patch) {
        return false;
    }
    patch.size_over(0) == 0
}

/// Whether a range without dirty bytes holds what the pending cut changes: the byte before its size, and all from there
/// on.
fn holds_cut(patch: &Patch, within: Extent) -> bool
    requires range { within.first ≤ within.last }
    requires bare { dirty_in within patch.now ≡ 0 }
    ensures cut { result ≡ is_some (cut_within within patch.now.pending) }
{
    if within.last < u64::MAX {
        return false;
    }
    if !is_cut(patch) {
        return false;
    }
    if within.first == 0 {
        return true;
    }
    patch.byte(within.first, None).is_none()
}

/// Whether there is a change in a range: dirty bytes, or a pending cut all of whose positions it holds.
fn has_change(patch: &Patch, within: Extent) -> bool
    ensures change { result ≡ has_change within patch.now }
{
    if patch.is_dirty_in(within) {
        return true;
    }
    if within.last < within.first {
        return false;
    }
    holds_cut(patch, within)
}

impl Patches {
    /// Nothing is changed. It takes no memory yet.
    pub(crate) fn new(alloc: Global) -> Patches
        ensures empty { result ≡ [] }
    {
        Patches {
            alloc,
            objects: IndexMap::new(alloc),
            total: 0,
        }
    }

    /// An object's entry; none where it was never changed.
    fn object(&self, resource: Resource) -> Option<&ObjectPatch>
        ensures patch { unwrap_or (option_copied result) clean ≡ patch_at resource self.now }
    {
        self.objects.get(&resource)
    }

    /// The changes of an object; none where it was never changed.
    pub(crate) fn of(&self, resource: Resource) -> Option<&Patch>
        ensures patch { unwrap_or (option_copied result) clean ≡ patch_at resource self.now }
    {
        match self.object(resource) {
            Some(object) => Some(object.patch()),
            None => None,
        }
    }

    /// Changes an object: cuts it, or writes bytes. After want of memory nothing has changed.
    pub(crate) fn change(&mut self, resource: Resource, change: &Flush) -> Result<(), Memory>
        requires fits { IsInFile change.now }
        ensures changed { OnOk result (self.new ≡ patches_after self.old (Changes resource change.now)) }
        ensures kept { OnErr result (self.new ≡ self.old) }
    {
        if let Some(object) = self.objects.get_mut(&resource) {
            let before = object.count();
            let made = object.change(change);
            let after = object.count();
            self.total = recounted(&self.objects, self.total, before, after);
            return made;
        }
        let mut object = ObjectPatch::new(self.alloc);
        object.change(change)?;
        let count = object.count();
        self.objects.insert(resource, object)?;
        self.total = recounted(&self.objects, self.total, 0, count);
        Ok(())
    }

    /// The next write-back of an object's changes in a range; none where there is no change in it. It is under way then;
    /// none is before. After want of memory nothing has changed.
    pub(crate) fn take_flush(
        &mut self,
        resource: Resource,
        within: Extent,
    ) -> Result<Option<Flush>, Memory>
        requires rests { in_flight (patch_at resource self.old) ≡ false }
        ensures flush { IfOk result (λ flush. flush ≡ next_flush within (patch_at resource self.old)) }
        ensures in_file { IfOk result (λ flush. IfSome flush IsInFile) }
        ensures sent { IfOk result (λ flush. self.new ≡ patches_sent resource flush self.old) }
        ensures kept { OnErr result (self.new ≡ self.old) }
    {
        if within.last < within.first {
            return Ok(None);
        }
        let Some(object) = self.objects.get_mut(&resource) else {
            return Ok(None);
        };
        let before = object.count();
        let flush = object.take_flush(within);
        let after = object.count();
        self.total = recounted(&self.objects, self.total, before, after);
        flush
    }

    /// Takes away what was in flight of an object and wasn't touched since.
    pub(crate) fn ack(&mut self, resource: Resource)
        ensures acked { self.new ≡ patches_after self.old (Acks resource) }
    {
        let Some(object) = self.objects.get_mut(&resource) else {
            return;
        };
        let unanswered = object.count();
        object.ack_flush();
        let left = object.count();
        self.total = recounted(&self.objects, self.total, unanswered, left);
    }

    /// Nothing is changed any more.
    pub(crate) fn clear(&mut self)
        ensures cleared { self.new ≡ [] }
    {
        *self = Patches::new(self.alloc);
    }

    /// The size of an object with its changes, where it had this one at the server.
    pub(crate) fn size_over(&self, resource: Resource, server: u64) -> u64
        ensures size { result ≡ size_over server (patch_at resource self.now) }
        ensures short { server ≤ 2 ^ 40 → result ≤ 2 ^ 40 }
    {
        match self.object(resource) {
            Some(object) => object.size_over(server),
            None => server,
        }
    }

    /// Whether a write-back of an object is under way.
    pub(crate) fn in_flight(&self, resource: Resource) -> bool
        ensures flies { result ≡ in_flight (patch_at resource self.now) }
    {
        match self.of(resource) {
            Some(patch) => patch.in_flight(),
            None => false,
        }
    }

    /// Whether nothing of an object is changed.
    pub(crate) fn is_clean(&self, resource: Resource) -> bool
        ensures clean { result ≡ is_clean (patch_at resource self.now) }
    {
        match self.of(resource) {
            Some(patch) => is_clean(patch),
            None => true,
        }
    }

    /// Whether there is a change of an object in a range: dirty bytes, or a pending cut all of whose positions it holds.
    pub(crate) fn has_change(&self, resource: Resource, within: Extent) -> bool
        ensures change { result ≡ has_change within (patch_at resource self.now) }
    {
        match self.of(resource) {
            Some(patch) => has_change(patch, within),
            None => false,
        }
    }

    /// Whether a byte of an object is dirty in a range, in flight or not.
    pub(crate) fn is_dirty_in(&self, resource: Resource, within: Extent) -> bool
        ensures dirty { result ≡ nat_lt 0 (dirty_in within (patch_at resource self.now)) }
    {
        match self.of(resource) {
            Some(patch) => patch.is_dirty_in(within),
            None => false,
        }
    }

    /// Whether more bytes than this are dirty, of all objects together.
    pub(crate) fn is_dirty_above(&self, limit: u64) -> bool
        ensures above { result ≡ nat_lt limit (dirty_total self.now) }
    {
        self.total > limit as u128
    }
}
