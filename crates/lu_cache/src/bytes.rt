//! What is known of the bytes of objects.

ghost use Rattle.std.specs.Prelude.{◌≡◌, ◌+◌, ◌≤◌, ◌^◌, ◌<◌, [], length, unwrap_or, slice_index, IfOk, OnOk, OnErr, IsTrue, IsFalse, Some, None};
ghost use Rattle.std.specs.Option.{option_copied};
ghost use Rattle.lu_spec_machine.specs.Places.{laid, found_at};
ghost use Rattle.lu_spec_bytes.specs.Changes.{outside, zeroed};
ghost use Rattle.lu_spec_client.specs.Caches.{bytes_at, with_object, on_object};
ghost use Rattle.lu_cache.specs.Reading.{AreKnown, AreAt};

use indexmap::IndexMap;
use lu_base::{Extent, Memory, Resource};
use lu_page::Places;
use std::alloc::Global;
use std::marker::Model;

/// The known bytes of each object, in the order in which the objects came.
#[derive(Drop)]
pub(crate) struct KnownBytes {
    alloc: Global,
    objects: IndexMap<Resource, Places<u8>>,
}

impl Model for KnownBytes {
    ghost use Rattle.std.specs.Prelude.{List};
    ghost use Rattle.lu_base.specs.declared.locks.Resource.{Resource as ResourceOf};
    ghost use Rattle.lu_spec_bytes.specs.Changes.{Bytes};

    ghost Value = { List (ResourceOf × Bytes) };

    ghost view = { λ b. b.objects.entries };
}

/// Whether so many bytes from an offset on are known.
fn are_known(places: &Places<u8>, at: u64, count: usize) -> bool
    requires fits { at + count ≤ 2 ^ 63 }
    ensures known { IsTrue result → AreKnown places.now at count }
    ensures missing { IsFalse result → AreKnown places.now at count → ⊥ }
{
    for k in 0..count {
        if places.at(at + k as u64).is_none() {
            return false;
        }
    }
    true
}

/// Writes the known bytes from an offset on.
fn copy_known(places: &Places<u8>, at: u64, into: &mut [u8])
    requires fits { at + length into.old ≤ 2 ^ 63 }
    requires known { AreKnown places.now at (length into.old) }
    ensures bytes { AreAt places.now at into.new (length into.old) }
    ensures count { length into.new ≡ length into.old }
{
    for k in 0..into.len() {
        if let Some(byte) = places.at(at + k as u64) {
            into[k] = byte;
        }
    }
}

impl KnownBytes {
    /// Nothing is known. It takes no memory yet.
    pub(crate) fn new(alloc: Global) -> KnownBytes
        ensures empty { result ≡ [] }
    {
        KnownBytes {
            alloc,
            objects: IndexMap::new(alloc),
        }
    }

    /// Bytes of an object are known from this offset on. After want of memory nothing has changed.
    pub(crate) fn fill(&mut self, resource: Resource, at: u64, from: &[u8]) -> Result<(), Memory>
        requires fits { at + length from.now ≤ 2 ^ 62 }
        ensures filled { OnOk result (self.new
            ≡ with_object resource (laid at from.now (bytes_at resource self.old)) self.old) }
        ensures kept { OnErr result (self.new ≡ self.old) }
    {
        if let Some(places) = self.objects.get_mut(&resource) {
            return places.lay(at, from);
        }
        let mut places = Places::new(self.alloc);
        places.lay(at, from)?;
        self.objects.insert(resource, places)?;
        Ok(())
    }

    /// What is known of an object; none where nothing was ever known.
    pub(crate) fn of(&self, resource: Resource) -> Option<&Places<u8>>
        ensures bytes { unwrap_or (option_copied result) [] ≡ bytes_at resource self.now }
    {
        self.objects.get(&resource)
    }

    /// Reads bytes of an object from this offset on. False, and nothing is written, exactly where one of them isn't
    /// known.
    pub(crate) fn read(&self, resource: Resource, at: u64, into: &mut [u8]) -> bool
        requires fits { at + length into.old ≤ 2 ^ 62 }
        ensures known { IsTrue result → AreKnown (bytes_at resource self.now) at (length into.old) }
        ensures missing { IsFalse result → AreKnown (bytes_at resource self.now) at (length into.old) → ⊥ }
        ensures bytes { IsTrue result → AreAt (bytes_at resource self.now) at into.new (length into.old) }
        ensures kept { IsFalse result → into.new ≡ into.old }
        ensures count { length into.new ≡ length into.old }
    {
        let Some(places) = self.of(resource) else {
            return into.is_empty();
        };
        if !are_known(places, at, into.len()) {
            return false;
        }
        copy_known(places, at, into);
        true
    }

    /// What is known in a range of an object is forgotten.
    pub(crate) fn forget(&mut self, resource: Resource, extent: Extent)
        ensures forgotten { self.new ≡ on_object resource (outside extent) self.old }
    {
        let Some(places) = self.objects.get_mut(&resource) else {
            return;
        };
        places.remove(extent);
    }

    /// The known bytes of an object from an offset on are 0.
    pub(crate) fn cut(&mut self, resource: Resource, n: u64)
        ensures cut { self.new ≡ on_object resource (zeroed n) self.old }
    {
        let Some(places) = self.objects.get_mut(&resource) else {
            return;
        };
        places.zero_from(n);
    }
}
