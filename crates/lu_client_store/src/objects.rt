//! A client's changes of one object, none past the greatest size of a file.

ghost use Rattle.std.specs.Prelude.{◌≡◌, ◌≤◌, ◌^◌, false, length, IfOk, IfSome, OnOk, OnErr};
ghost use Rattle.lu_spec_client.specs.Patches.{clean, size_over, in_flight, next_flush, taken, acked};
ghost use Rattle.lu_spec_client.specs.Caches.{made};
ghost use Rattle.lu_client_store.specs.Stored.{IsInFile};

use lu_base::{Extent, Memory};
use lu_patch::Patch;
use lu_spec_entries::Flush;
use std::alloc::Global;
use std::marker::Model;

/// The changes of an object, which end at most at 2^40: its pending cut, and the dirty bytes over it.
#[derive(Drop)]
pub(crate) struct ObjectPatch {
    patch: Patch,
}

impl Model for ObjectPatch {
    ghost use Rattle.lu_spec_client.specs.Patches.{Patch as Shown};
    ghost use Rattle.lu_client_store.specs.Bounds.{IsBounded};

    ghost Value = { Shown };

    ghost view = { λ object. object.patch };

    ghost invariant = { λ object. IsBounded object.patch };
}

/// A change is made of a patch. After want of memory nothing has changed.
fn make(patch: &mut Patch, change: &Flush) -> Result<(), Memory>
    requires fits { IsInFile change.now }
    ensures made { OnOk result (patch.new ≡ made change.now patch.old) }
    ensures kept { OnErr result (patch.new ≡ patch.old) }
{
    match change {
        Flush::Cut(n) => patch.cut(*n),
        Flush::Put(at, bytes) => patch.write(*at, bytes.as_slice()),
    }
}

impl ObjectPatch {
    /// No change. It takes no memory yet.
    pub(crate) fn new(alloc: Global) -> ObjectPatch
        ensures clean { result ≡ clean }
    {
        ObjectPatch {
            patch: Patch::new(alloc),
        }
    }

    /// The changes.
    pub(crate) fn patch(&self) -> &Patch
        ensures patch { result.now ≡ self.now }
    {
        &self.patch
    }

    /// How many bytes are dirty, those in flight among them.
    pub(crate) fn count(&self) -> u64
        ensures count { result ≡ length self.now.dirty }
    {
        self.patch.count()
    }

    /// Changes the object: cuts it, or writes bytes. After want of memory nothing has changed.
    pub(crate) fn change(&mut self, change: &Flush) -> Result<(), Memory>
        requires fits { IsInFile change.now }
        ensures made { OnOk result (self.new ≡ made change.now self.old) }
        ensures kept { OnErr result (self.new ≡ self.old) }
    {
        make(&mut self.patch, change)
    }

    /// The next write-back of changes in a range; none where there is no change in it. It is under way then; none is
    /// before. After want of memory nothing has changed.
    pub(crate) fn take_flush(&mut self, within: Extent) -> Result<Option<Flush>, Memory>
        requires range { within.first ≤ within.last }
        requires rests { in_flight self.old ≡ false }
        ensures flush { IfOk result (λ flush. flush ≡ next_flush within self.old) }
        ensures in_file { IfOk result (λ flush. IfSome flush IsInFile) }
        ensures taken { IfOk result (λ flush. self.new ≡ taken flush self.old) }
        ensures kept { OnErr result (self.new ≡ self.old) }
    {
        self.patch.take_flush(within)
    }

    /// Takes away what was in flight and wasn't touched since.
    pub(crate) fn ack_flush(&mut self)
        ensures acked { self.new ≡ acked self.old }
    {
        self.patch.ack_flush();
    }

    /// The size of the object once it has the changes, where it had this one at the server.
    pub(crate) fn size_over(&self, server: u64) -> u64
        ensures size { result ≡ size_over server self.now }
        ensures short { server ≤ 2 ^ 40 → result ≤ 2 ^ 40 }
    {
        self.patch.size_over(server)
    }
}
