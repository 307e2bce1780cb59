//! Walks by names.

ghost use Rattle.std.specs.Prelude.{◌≡◌, ◌++◌, ◌<◌, Some, None, IfOk, OnOk};
ghost use Rattle.lu_spec_machine.specs.Table.{root, passes, wants};
ghost use Rattle.lu_spec_machine.specs.Tree.{fid_of};
ghost use Rattle.lu_tree.specs.Walks.{find, if_found, reach, find_last, looks, trail, only, passed_wants};

use super::inodes::Inodes;
use lu_base::{Duplicate, Fid, Memory, Name};
use lu_msg::Errno;
use lu_part::{LOOKUP, Part, Parts, Want, Wants};
use lu_spec_machine::Child;
use std::alloc::Global;

/// The number of the root.
pub(crate) const ROOT: u64 = 1;

/// The most bytes that a name has.
const MOST_NAME_BYTES: usize = 255;

/// A name that was looked up: in which directory, and what it leads to.
#[derive(Clone, Copy)]
pub(crate) struct Found {
    pub(crate) dir: Fid,
    pub(crate) child: Option<Child>,
}

impl Inodes {
    /// Looks a name up in an inode.
    fn find(&self, at: Child, name: &Name) -> Result<Found, Errno>
        ensures found { result ≡ find self.now at name.now }
    {
        if name.len() > MOST_NAME_BYTES {
            return Err(Errno::ENAMETOOLONG);
        }
        match at {
            Child::File(_) => Err(Errno::ENOTDIR),
            Child::Dir(dir) => Ok(Found {
                dir,
                child: self.child(dir, name),
            }),
        }
    }

    /// Walks from the root by all names.
    pub(crate) fn reach(&self, path: &[Name]) -> Result<Child, Errno>
        ensures reached { result ≡ reach self.now root path.now }
    {
        let mut at = Child::Dir(Fid(ROOT));
        for name in path {
            let found = self.find(at, name)?;
            let Some(child) = found.child else {
                return Err(Errno::ENOENT);
            };
            at = child;
        }
        Ok(at)
    }

    /// Walks by the names in front and looks the last one up.
    pub(crate) fn find_last(&self, front: &[Name], name: &Name) -> Result<Found, Errno>
        ensures found { result ≡ find_last self.now root front.now name.now }
    {
        let at = self.reach(front)?;
        self.find(at, name)
    }

    /// Adds the names that a walk from the root looks up.
    pub(crate) fn push_looks(
        &self,
        alloc: Global,
        parts: &mut Parts,
        path: &[Name],
    ) -> Result<(), Memory>
        ensures looks { OnOk result (parts.new ≡ parts.old ++ looks self.now root path.now) }
    {
        let mut at = Child::Dir(Fid(ROOT));
        for name in path {
            let Ok(found) = self.find(at, name) else {
                return Ok(());
            };
            parts.push(Part::Name(found.dir, name.copy(alloc)?))?;
            let Some(child) = found.child else {
                return Ok(());
            };
            at = child;
        }
        Ok(())
    }

    /// What a name in an inode leads to, if it leads anywhere.
    fn next(&self, at: Child, name: &Name) -> Option<Child>
        ensures next { result ≡ if_found Some (λ _. None) (find self.now at name.now) }
    {
        match self.find(at, name) {
            Ok(found) => found.child,
            Err(_) => None,
        }
    }

    /// Whether this is a directory that a walk from the root by these names passes.
    pub(crate) fn passes(&self, child: Child, path: &[Name]) -> bool
        ensures passes { result ≡ passes child (trail self.now root path.now) }
    {
        let Child::Dir(dir) = child else {
            return false;
        };
        let mut at = Child::Dir(Fid(ROOT));
        for name in path {
            let Some(next) = self.next(at, name) else {
                return false;
            };
            if fid(next) == dir {
                return true;
            }
            at = next;
        }
        false
    }

    /// The PR locks on what a walk from the root comes to: LOOKUP on each inode after the root, and `more`
    /// bits on the last one. The root is locked only where it is the last, and then without LOOKUP.
    pub(crate) fn wants(&self, alloc: Global, path: &[Name], more: u8) -> Result<Wants, Memory>
        requires { more < 8 }
        ensures wants { IfOk result (λ made. made ≡ wants more (trail self.now root path.now)) }
    {
        let mut wants = Wants::new(alloc);
        let mut at = Child::Dir(Fid(ROOT));
        let mut pending = None;
        for name in path {
            let Some(child) = self.next(at, name) else {
                push_last(&mut wants, pending, more)?;
                return Ok(wants);
            };
            push_lookup(&mut wants, pending)?;
            pending = Some(child);
            at = child;
        }
        push_last(&mut wants, pending, more)?;
        Ok(wants)
    }
}

/// The number of an inode.
pub(crate) fn fid(child: Child) -> Fid
    ensures { result ≡ fid_of child }
{
    match child {
        Child::Dir(fid) | Child::File(fid) => fid,
    }
}

/// Adds the lock on an inode that a walk passes, if there is one.
fn push_lookup(made: &mut Wants, passed: Option<Child>) -> Result<(), Memory>
    ensures pushed { OnOk result (made.new ≡ made.old ++ passed_wants passed) }
{
    if let Some(child) = passed {
        made.push(Want {
            fid: fid(child),
            bits: LOOKUP,
        })?;
    }
    Ok(())
}

/// Adds the lock on the inode at which a walk ends, the root where it passes none.
fn push_last(made: &mut Wants, last: Option<Child>, more: u8) -> Result<(), Memory>
    requires { more < 8 }
    ensures pushed { OnOk result (made.new ≡ made.old ++ wants more (only last)) }
{
    match last {
        Some(child) => made.push(Want {
            fid: fid(child),
            bits: LOOKUP + more,
        }),
        None => {
            if more > 0 {
                made.push(Want {
                    fid: Fid(ROOT),
                    bits: more,
                })?;
            }
            Ok(())
        }
    }
}
