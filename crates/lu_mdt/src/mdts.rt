//! The names of a file system as a service.

ghost use Rattle.std.specs.Prelude.{◌≡◌, ◌≤◌, IfOk, refl};
ghost use Rattle.lu_service.specs.Names.{fresh};

use super::accepting::is_named;
use lu_base::{Bytes, Extent, Lock, Memory, Mode, Resource, Txn, Who};
use lu_msg::{Answer, Op};
use lu_part::{Parts, Wants};
use lu_service::Service;
use lu_tree::Tree;
use std::alloc::Global;
use std::marker::Model;

/// What the metadata target serves.
#[derive(Drop)]
pub struct Mdt {
    tree: Tree,
}

impl Model for Mdt {
    ghost use Rattle.lu_service.specs.Contents.{Contents};
    ghost use Rattle.lu_mdt.specs.Names.{shown};

    ghost Value = { Contents };

    ghost view = { λ a. shown a.tree };
}

impl Mdt {
    /// A new file system over this many object storage targets, 1 to 8: the root without names.
    pub fn new(alloc: Global, osts: u16) -> Result<Mdt, Memory>
        requires some { 1 ≤ osts }
        requires most { osts ≤ 8 }
        ensures fresh { IfOk result (λ mdt. mdt ≡ fresh osts) }
    {
        Ok(Mdt {
            tree: Tree::new(alloc, osts)?,
        })
    }
}

impl Service for Mdt {
    ghost use Rattle.lu_service.specs.declared.services.Kind.TheVariants.{Mdt as MdtKind};
    ghost use Rattle.lu_service.specs.Names.{names};
    ghost use Rattle.lu_mdt.specs.Lawful.{names_lawful, serves_no_objects};

    ghost kind = { MdtKind };

    ghost contents = { λ mdt. mdt };

    ghost acts = { names };

    ghost lawful = { names_lawful };

    ghost serves_names = { λ _. refl };

    ghost serves_objects = { serves_no_objects };

    fn apply(&mut self, alloc: Global, number: Txn, who: Who, op: &Op) -> Result<Answer, Memory> {
        self.tree.apply(alloc, number, who, op)
    }

    fn changes(&self, who: Who, op: &Op) -> bool {
        self.tree.changes(who, op)
    }

    fn touches(&self, alloc: Global, who: Who, op: &Op) -> Result<Parts, Memory> {
        self.tree.touches(alloc, who, op)
    }

    fn writes(&self, alloc: Global, who: Who, op: &Op) -> Result<Parts, Memory> {
        self.tree.writes(alloc, who, op)
    }

    fn grants(&self, alloc: Global, who: Who, op: &Op) -> Result<Wants, Memory> {
        self.tree.grants(alloc, who, op)
    }

    fn forget(&mut self, who: Who) {
        self.tree.forget(who);
    }

    fn read(&self, alloc: Global, _resource: Resource, _part: Extent) -> Result<Bytes, Memory> {
        Ok(Bytes::new(alloc))
    }

    fn accepts(&self, op: &Op) -> bool {
        is_named(op)
    }

    fn repeats(&self, op: &Op) -> bool {
        is_named(op)
    }

    fn accepts_lock(&self, lock: &Lock) -> bool {
        lock.ask.mode == Mode::PR
    }

    fn requests_wait(&self) -> bool {
        true
    }
}
