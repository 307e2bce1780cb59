//! Parts of a target's contents, and the locks that guard them (this project's profile).

ghost use Rattle.std.specs.Prelude.{◌≡◌, IsTrue, ◌↔◌};
ghost use Rattle.lu_part.specs.Meets.{meets, Meets};
ghost use Rattle.lu_part.specs.Guards.{guard, inode, GuardsMeet};

use super::bits::{LAYOUT, LOOKUP, UPDATE};
use lu_base::{Duplicate, Extent, Fid, Memory, Name, Policy, Resource, Sequence};
use lu_lock::extents_meet;
use std::alloc::Global;

/// A part of a target's contents, as an operation looks at it or changes it.
#[derive(Debug, PartialEq, Eq, Drop)]
pub enum Part {
    /// What a name in a directory leads to, if to anything.
    Name(Fid, Name),
    /// The names in a directory.
    List(Fid),
    /// An inode's attributes.
    Attr(Fid),
    /// A file's layout.
    Layout(Fid),
    /// Where an inode stands in the tree.
    Parent(Fid),
    /// The bytes of a range of the object of a file's stripe, from 0.
    Bytes(Fid, u16, Extent),
}

/// Parts.
pub type Parts = Sequence<Part>;

/// A lock on an inode that a reply is to grant, in mode PR.
#[derive(Clone, Copy, Debug, PartialEq, Eq, PartialOrd, Ord, Hash)]
pub struct Want {
    /// The inode.
    pub fid: Fid,
    /// The wanted bits, added up.
    pub bits: u8,
}

/// Wanted locks.
pub type Wants = Sequence<Want>;

impl Duplicate for Part {
    fn copy(&self, alloc: Global) -> Result<Part, Memory> {
        match self {
            Part::Name(directory, name) => Ok(Part::Name(*directory, name.copy(alloc)?)),
            Part::List(directory) => Ok(Part::List(*directory)),
            Part::Attr(fid) => Ok(Part::Attr(*fid)),
            Part::Layout(fid) => Ok(Part::Layout(*fid)),
            Part::Parent(fid) => Ok(Part::Parent(*fid)),
            Part::Bytes(fid, stripe, range) => Ok(Part::Bytes(*fid, *stripe, *range)),
        }
    }
}

impl Duplicate for Want {
    fn copy(&self, _alloc: Global) -> Result<Want, Memory> {
        Ok(*self)
    }
}

/// Whether two parts meet: they are of one kind and equal, or bytes of one object with an offset in common, or
/// the list of a directory and a name in it. It takes no memory.
pub fn meets(a: &Part, b: &Part) -> bool
    ensures test { result ≡ meets a.now b.now }
    ensures rule { IsTrue result ↔ Meets a.now b.now }
    ensures symmetric { result ≡ meets b.now a.now }
    ensures guarded { IsTrue result → GuardsMeet a.now b.now }
{
    match (a, b) {
        (Part::Name(d, n), Part::Name(e, m)) => d == e && n == m,
        (Part::Name(d, _) | Part::List(d), Part::List(e)) => d == e,
        (Part::List(d), Part::Name(e, _)) => d == e,
        (Part::Attr(f), Part::Attr(g)) => f == g,
        (Part::Layout(f), Part::Layout(g)) => f == g,
        (Part::Parent(f), Part::Parent(g)) => f == g,
        (Part::Bytes(f, s, range), Part::Bytes(g, t, other)) => {
            f == g && s == t && extents_meet(*range, *other)
        }
        _ => false,
    }
}

/// The resource whose lock guards a part, and what that lock covers of it. An inode's resource has stripe 0.
/// It takes no memory.
pub fn guard(part: &Part) -> (Resource, Policy)
    ensures { result ≡ guard part.now }
{
    match part {
        Part::Name(directory, _) => inode(*directory, UPDATE),
        Part::List(directory) => inode(*directory, UPDATE),
        Part::Attr(fid) => inode(*fid, UPDATE),
        Part::Layout(fid) => inode(*fid, LAYOUT),
        Part::Parent(fid) => inode(*fid, LOOKUP),
        Part::Bytes(fid, stripe, range) => {
            let object = Resource {
                fid: *fid,
                stripe: *stripe,
            };
            (object, Policy::Range(*range))
        }
    }
}

/// These bits of an inode.
fn inode(fid: Fid, bits: u8) -> (Resource, Policy)
    ensures { result ≡ inode fid bits }
{
    (Resource { fid, stripe: 0 }, Policy::Bits(bits))
}
