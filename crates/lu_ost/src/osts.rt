//! Objects as a service.

ghost use Rattle.std.specs.Prelude.{◌≡◌, ◌≤◌, ◌+◌, ◌-◌, ◌*◌, ◌<◌, ◌/◌, IfOk, OnOk, OnErr, refl};
ghost use Rattle.lu_service.specs.Objects.{bare};

use super::accepting::{is_on_object, is_write};
use super::objects::Objects;
use super::ranges::{cut_range, page_range, put_range, whole};
use super::reading::page_content;
use lu_base::{Bytes, Extent, Lock, Memory, Resource, Txn, Who};
use lu_msg::{Answer, Errno, Op};
use lu_part::{Parts, Wants};
use lu_service::Service;
use std::alloc::Global;
use std::marker::Model;

/// What an object storage target serves: objects, each the bytes of one stripe of a file by offset. One that was
/// never written or cut has no bytes.
#[derive(Drop)]
pub struct Ost {
    objects: Objects,
    /// The greatest number used.
    last: u64,
}

impl Model for Ost {
    ghost use Rattle.lu_service.specs.Contents.{Contents};
    ghost use Rattle.lu_ost.specs.Shown.{shown};

    ghost Value = { Contents };

    ghost view = { λ ost. shown ost.last ost.objects };
}

impl Ost {
    /// A target without objects. It takes no memory yet.
    pub fn new(alloc: Global) -> Ost
        ensures bare { result ≡ bare }
    {
        Ost {
            objects: Objects::new(alloc),
            last: 0,
        }
    }
}

impl Service for Ost {
    ghost use Rattle.lu_service.specs.declared.services.Kind.TheVariants.{Ost as OstKind};
    ghost use Rattle.lu_service.specs.Objects.{objects};
    ghost use Rattle.lu_ost.specs.Lawful.{objects_lawful};

    ghost kind = { OstKind };

    ghost contents = { λ ost. ost };

    ghost acts = { objects };

    ghost lawful = { objects_lawful };

    ghost serves_names = { λ is. absurd (cc (is)) };

    ghost serves_objects = { λ _. refl };

    fn apply(&mut self, alloc: Global, number: Txn, _who: Who, op: &Op) -> Result<Answer, Memory> {
        match op {
            Op::Put {
                resource,
                offset,
                bytes,
                ..
            } => {
                self.objects
                    .put(alloc, *resource, *offset, bytes.as_slice())?;
                self.last = number.0;
                Ok(Answer::Done)
            }
            Op::Cut { resource, size, .. } => {
                self.objects.cut(alloc, *resource, *size)?;
                self.last = number.0;
                Ok(Answer::Done)
            }
            Op::Size(resource) => Ok(Answer::Size(self.objects.size(*resource))),
            _ => Ok(Answer::Refused(Errno::EBADF)),
        }
    }

    fn changes(&self, _who: Who, op: &Op) -> bool {
        matches!(op, Op::Put { .. } | Op::Cut { .. })
    }

    fn touches(&self, alloc: Global, _who: Who, op: &Op) -> Result<Parts, Memory> {
        match op {
            Op::Get { resource, page, .. } => page_range(alloc, *resource, *page),
            Op::Size(resource) => whole(alloc, *resource),
            _ => Ok(Parts::new(alloc)),
        }
    }

    fn writes(&self, alloc: Global, _who: Who, op: &Op) -> Result<Parts, Memory> {
        match op {
            Op::Put {
                resource,
                offset,
                bytes,
                ..
            } => put_range(alloc, *resource, *offset, bytes),
            Op::Cut { resource, size, .. } => cut_range(alloc, *resource, *size),
            _ => Ok(Parts::new(alloc)),
        }
    }

    fn grants(&self, alloc: Global, _who: Who, _op: &Op) -> Result<Wants, Memory> {
        Ok(Wants::new(alloc))
    }

    fn forget(&mut self, _who: Who) {}

    fn read(&self, alloc: Global, resource: Resource, part: Extent) -> Result<Bytes, Memory> {
        let Some(object) = self.objects.of(resource) else {
            return Ok(Bytes::new(alloc));
        };
        page_content(alloc, object, part)
    }

    fn accepts(&self, op: &Op) -> bool {
        is_on_object(op)
    }

    fn repeats(&self, op: &Op) -> bool {
        is_write(op)
    }

    fn accepts_lock(&self, _lock: &Lock) -> bool {
        true
    }

    fn requests_wait(&self) -> bool {
        false
    }
}
