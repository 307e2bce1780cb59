//! Objects by what they are named: a file and a stripe.

ghost use Rattle.std.specs.Prelude.{◌≡◌, ◌≤◌, ◌+◌, ◌^◌, [], length, OnOk, OnErr, IfNone, IfSome};
ghost use Rattle.lu_spec_machine.specs.Objects.{put_bytes, cut_bytes, object_size};
ghost use Rattle.lu_service.specs.Contents.{object_in, with_object, IsObject};

use indexmap::IndexMap;
use lu_base::{Memory, Resource};
use lu_object::Object;
use std::alloc::Global;
use std::marker::Model;

/// Objects, in the order in which they were first written or cut. A contract sees the list of pairs of resource and
/// bytes by offset. Each ends at or below 2^40.
#[derive(Drop)]
pub struct Objects {
    entries: IndexMap<Resource, Object>,
}

impl Model for Objects {
    ghost use Rattle.std.specs.Prelude.{List};
    ghost use Rattle.lu_base.specs.declared.locks.Resource.{Resource as SpecResource};
    ghost use Rattle.lu_spec_machine.specs.Objects.{Object as SpecObject};
    ghost use Rattle.lu_spec_machine.specs.Footprint.{Every};
    ghost use Rattle.lu_service.specs.Contents.{IsObject};

    ghost Value = { List (SpecResource × SpecObject) };

    ghost view = { λ objects. objects.entries.entries };

    ghost invariant = { λ objects. Every (λ (e : SpecResource × SpecObject). IsObject e.1) objects.entries.entries };
}

impl Objects {
    /// No objects. It takes no memory yet.
    pub fn new(alloc: Global) -> Objects
        ensures empty { result ≡ [] }
    {
        Objects {
            entries: IndexMap::new(alloc),
        }
    }

    /// The object of a resource, none where it was never written or cut.
    pub fn of(&self, resource: Resource) -> Option<&Object>
        ensures some { IfSome result (λ object. object.now ≡ object_in self.now resource) }
        ensures none { IfNone result (object_in self.now resource ≡ []) }
        ensures sound { IsObject (object_in self.now resource) }
    {
        self.entries.get(&resource)
    }

    /// The size of an object, 0 where it was never written or cut.
    pub fn size(&self, resource: Resource) -> u64
        ensures size { result ≡ object_size (object_in self.now resource) }
        ensures fits { result ≤ 2 ^ 40 }
    {
        match self.of(resource) {
            Some(object) => object.size(),
            None => 0,
        }
    }

    /// Puts bytes of an object from an offset on. After want of memory nothing has changed.
    pub fn put(
        &mut self,
        alloc: Global,
        resource: Resource,
        offset: u64,
        bytes: &[u8],
    ) -> Result<(), Memory>
        requires fits { offset + length bytes.now ≤ 2 ^ 40 }
        ensures sound { IsObject (object_in self.old resource) }
        ensures put { OnOk result (self.new
            ≡ with_object resource (put_bytes offset bytes.now (object_in self.old resource)) self.old) }
        ensures kept { OnErr result (self.new ≡ self.old) }
    {
        if let Some(object) = self.entries.get_mut(&resource) {
            return object.write(offset, bytes);
        }
        let mut object = Object::new(alloc);
        object.write(offset, bytes)?;
        self.begin(resource, object)
    }

    /// Ends an object at a size. After want of memory nothing has changed.
    pub fn cut(&mut self, alloc: Global, resource: Resource, size: u64) -> Result<(), Memory>
        requires fits { size ≤ 2 ^ 40 }
        ensures cut { OnOk result (self.new
            ≡ with_object resource (cut_bytes size (object_in self.old resource)) self.old) }
        ensures kept { OnErr result (self.new ≡ self.old) }
    {
        if let Some(object) = self.entries.get_mut(&resource) {
            return object.cut(size);
        }
        let mut object = Object::new(alloc);
        object.cut(size)?;
        self.begin(resource, object)
    }

    /// Adds an object, or has it in the place of the one that is there. After want of memory nothing has changed.
    fn begin(&mut self, resource: Resource, object: Object) -> Result<(), Memory>
        requires sound { IsObject object }
        ensures begun { OnOk result (self.new ≡ with_object resource object self.old) }
        ensures kept { OnErr result (self.new ≡ self.old) }
    {
        self.entries.insert(resource, object)?;
        Ok(())
    }
}
