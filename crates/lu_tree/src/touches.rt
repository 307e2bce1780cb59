//! The parts that the operations look at, and those that they write.

ghost use Rattle.std.specs.Prelude.{◌≡◌, ◌++◌, ◌∷◌, [], ℕ, OnOk};
ghost use Rattle.lu_base.specs.declared.ids.Txn.{Txn as SpecTxn};
ghost use Rattle.lu_base.specs.declared.ids.Who.{Who as SpecWho};
ghost use Rattle.lu_spec_machine.specs.Change.{written};
ghost use Rattle.lu_spec_machine.specs.Tree.{Tree, fid_of};
ghost use Rattle.lu_part.specs.declared.parts.Part.TheVariants.{Attr, Name as NamePart, Parent};
ghost use Rattle.lu_spec_machine.specs.Table.{root};
ghost use Rattle.lu_tree.specs.Ends.{changes_of, looked_at, looked_of, names_after, names_of, rename_names};
ghost use Rattle.lu_tree.specs.Walks.{looks, reach};

use super::ends::{End, Place};
use super::inodes::Inodes;
use super::walks::fid;
use lu_base::{Duplicate, Memory, Name};
use lu_msg::Op;
use lu_part::{Part, Parts};
use lu_spec_machine::Child;
use std::alloc::Global;

impl Inodes {
    /// Adds the names that a `link` looks up.
    fn push_link_names(
        &self,
        alloc: Global,
        parts: &mut Parts,
        old: &[Name],
        new: &[Name],
    ) -> Result<(), Memory>
        ensures pushed { OnOk result (parts.new ≡ parts.old
            ++ (looks self.now root old.now ++ names_after self.now new.now (reach self.now root old.now))) }
    {
        self.push_looks(alloc, parts, old)?;
        match self.reach(old) {
            Err(_) => Ok(()),
            Ok(at) => match at {
                Child::Dir(_) => Ok(()),
                Child::File(_) => self.push_looks(alloc, parts, new),
            },
        }
    }

    /// Adds the names that a `rename` looks up.
    fn push_rename_names(
        &self,
        alloc: Global,
        parts: &mut Parts,
        old: &[Name],
        new: &[Name],
    ) -> Result<(), Memory>
        ensures pushed { OnOk result (parts.new ≡ parts.old ++ rename_names self.now old.now new.now) }
    {
        if old.is_empty() || new.is_empty() {
            return Ok(());
        }
        self.push_looks(alloc, parts, old)?;
        match self.reach(old) {
            Err(_) => Ok(()),
            Ok(_) => self.push_looks(alloc, parts, new),
        }
    }

    /// Adds the names that an operation looks up.
    pub(crate) fn push_names(&self, alloc: Global, parts: &mut Parts, op: &Op) -> Result<(), Memory>
        ensures pushed { OnOk result (parts.new ≡ parts.old ++ names_of self.now op.now) }
    {
        match op {
            Op::Lookup(path) => self.push_looks(alloc, parts, path.as_slice()),
            Op::Stat(path) => self.push_looks(alloc, parts, path.as_slice()),
            Op::List(path) => self.push_looks(alloc, parts, path.as_slice()),
            Op::Layout(path) => self.push_looks(alloc, parts, path.as_slice()),
            Op::Mkdir(path) => self.push_looks(alloc, parts, path.as_slice()),
            Op::Create { path, .. } => self.push_looks(alloc, parts, path.as_slice()),
            Op::Rename { old, new } => {
                self.push_rename_names(alloc, parts, old.as_slice(), new.as_slice())
            }
            Op::Chmod { path, .. } => self.push_looks(alloc, parts, path.as_slice()),
            Op::Open(path) => self.push_looks(alloc, parts, path.as_slice()),
            Op::Link { old, new } => {
                self.push_link_names(alloc, parts, old.as_slice(), new.as_slice())
            }
            Op::Unlink(path) => self.push_looks(alloc, parts, path.as_slice()),
            Op::Rmdir(path) => self.push_looks(alloc, parts, path.as_slice()),
            _ => Ok(()),
        }
    }
}

/// Adds what is looked at of what loses a name.
fn push_looked_at(parts: &mut Parts, gone: Child) -> Result<(), Memory>
    ensures pushed { OnOk result (parts.new ≡ parts.old ++ looked_at gone) }
{
    match gone {
        Child::Dir(dir) => parts.push(Part::List(dir)),
        Child::File(file) => parts.push(Part::Attr(file)),
    }
}

/// Adds what an operation that comes to this has looked at after the names.
pub(crate) fn push_looked(parts: &mut Parts, end: End<'_>) -> Result<(), Memory>
    ensures pushed { OnOk result (parts.new ≡ parts.old ++ looked_of end.entry) }
{
    match end {
        End::NotEmpty(dir) => parts.push(Part::List(dir)),
        End::Stats(child) => match child {
            Child::Dir(dir) => parts.push(Part::Attr(dir)),
            Child::File(file) => {
                parts.push(Part::Attr(file))?;
                parts.push(Part::Layout(file))
            }
        },
        End::Lists(dir) => parts.push(Part::List(dir)),
        End::Shows(file) => parts.push(Part::Layout(file)),
        End::Links(_, file) => parts.push(Part::Attr(file)),
        End::Loses(_, gone) => push_looked_at(parts, gone),
        End::Replaces(_, _, _, gone) => push_looked_at(parts, gone),
        End::SetsMode(child, _) => parts.push(Part::Attr(fid(child))),
        End::KeepsMode(child) => parts.push(Part::Attr(fid(child))),
        End::OpensFile(file) => parts.push(Part::Layout(file)),
        _ => Ok(()),
    }
}

/// Adds a name.
fn push_name(alloc: Global, parts: &mut Parts, place: Place<'_>) -> Result<(), Memory>
    ensures pushed { OnOk result (parts.new ≡ parts.old ++ NamePart place.entry.dir place.entry.name.now ∷ []) }
{
    parts.push(Part::Name(place.dir, place.name.copy(alloc)?))
}

/// Adds what is written where this leaves the old name for the new one.
fn push_moved(
    alloc: Global,
    parts: &mut Parts,
    old: Place<'_>,
    child: Child,
    new: Place<'_>,
) -> Result<(), Memory>
    ensures pushed { OnOk result (parts.new ≡ parts.old ++ NamePart old.entry.dir old.entry.name.now
        ∷ NamePart new.entry.dir new.entry.name.now ∷ Parent (fid_of child) ∷ []) }
{
    push_name(alloc, parts, old)?;
    push_name(alloc, parts, new)?;
    parts.push(Part::Parent(fid(child)))
}

/// Adds what is written of what loses a name.
fn push_gone(parts: &mut Parts, gone: Child) -> Result<(), Memory>
    ensures pushed { OnOk result (parts.new ≡ parts.old ++ Parent (fid_of gone) ∷ Attr (fid_of gone) ∷ []) }
{
    parts.push(Part::Parent(fid(gone)))?;
    parts.push(Part::Attr(fid(gone)))
}

/// Adds what an operation that comes to this writes.
pub(crate) fn push_written(alloc: Global, parts: &mut Parts, end: End<'_>) -> Result<(), Memory>
    ensures pushed { OnOk result ((osts : ℕ) (t : Tree) (number : SpecTxn) (who : SpecWho) → parts.new ≡ parts.old
        ++ written (changes_of osts t number who end.entry)) }
{
    match end {
        End::Makes(new) => push_name(alloc, parts, new),
        End::Creates { new, .. } => push_name(alloc, parts, new),
        End::Links(new, file) => {
            push_name(alloc, parts, new)?;
            parts.push(Part::Attr(file))
        }
        End::Loses(old, gone) => {
            push_name(alloc, parts, old)?;
            push_gone(parts, gone)
        }
        End::Moves(old, child, new) => push_moved(alloc, parts, old, child, new),
        End::Replaces(old, child, new, gone) => {
            push_moved(alloc, parts, old, child, new)?;
            push_gone(parts, gone)
        }
        End::SetsMode(child, _) => parts.push(Part::Attr(fid(child))),
        _ => Ok(()),
    }
}
