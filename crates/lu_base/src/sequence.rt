//! The lists of the protocol: one growing list type, which contracts see as the list of its items.

ghost use Rattle.std.specs.Prelude.{◌≡◌, ◌≤◌, List, [], ◌∷◌, ◌++◌, length, take, IfOk, OnOk, OnErr, slice_get, IsTrue, ◌↔◌};
ghost use Rattle.std.specs.Option.{option_copied};
ghost use Rattle.std.specs.Hash as fed;
ghost use Rattle.std.specs.Hash.{items_Alike};
ghost use Rattle.std.specs.Cmp.Lexicographic.{pointwise, lists_per, lists_equiv, slice_cmp, slice_partial_cmp, lists_po, lists_total, lists_agrees, lists_ties};

use super::faults::Memory;
use super::ids::{Cookie, Who};
use super::locks::{Lock, Resource};
use std::alloc::Global;
use std::cmp::Ordering;
use std::hash::{Hash, Hasher};
use std::marker::Model;

/// A value that can be copied where memory allows.
pub trait Duplicate: Sized {
    /// An equal value.
    fn copy(&self, alloc: Global) -> Result<Self, Memory>
        ensures same { IfOk result (λ copied. copied ≡ self.now) };
}

/// A list that grows at its end.
#[derive(Debug, Drop)]
pub struct Sequence<T> {
    items: Vec<T>,
}

impl<T> Model for Sequence<T> {
    ghost Value = { List T };

    ghost view = { λ sequence. sequence.items.items };
}

/// Bytes, as of a file, a text or a name.
pub type Bytes = Sequence<u8>;
/// A name in a directory.
pub type Name = Sequence<u8>;
/// Names.
pub type Names = Sequence<Name>;
/// The names of a path from the root on; the root itself has none.
pub type Path = Sequence<Name>;
/// Numbers, as of transactions.
pub type Numbers = Sequence<u64>;
/// Cookies of locks.
pub type Cookies = Sequence<Cookie>;
/// Lives of clients.
pub type Lives = Sequence<Who>;
/// What locks are on.
pub type Resources = Sequence<Resource>;
/// Locks.
pub type Locks = Sequence<Lock>;

impl<T> Sequence<T> {
    /// An empty list. It takes no memory yet.
    pub fn new(alloc: Global) -> Self
        ensures empty { result ≡ [] }
    {
        Sequence {
            items: Vec::new(alloc),
        }
    }

    /// How many items there are.
    pub fn len(&self) -> usize
        ensures count { result ≡ length self.now }
    {
        self.items.len()
    }

    /// Whether there is no item.
    pub fn is_empty(&self) -> bool
        ensures empty { IsTrue result ↔ (self.now ≡ []) }
    {
        self.items.is_empty()
    }

    /// Adds an item at the end. After want of memory the list is as before.
    pub fn push(&mut self, item: T) -> Result<(), Memory>
    where
        T: Drop,
        ensures added { OnOk result (self.new ≡ self.old ++ item ∷ []) }
        ensures kept { OnErr result (self.new ≡ self.old) }
    {
        self.items.push(item)?;
        Ok(())
    }

    /// The item at this place, from 0; none past the end.
    pub fn at(&self, place: usize) -> Option<&T>
        ensures item { option_copied result ≡ slice_get self.now place }
    {
        self.items.get(place)
    }

    /// The items as a slice.
    pub fn as_slice(&self) -> &[T]
        ensures same { result.now ≡ self.now }
    {
        self.items.as_slice()
    }

    /// The items, as a vector.
    pub fn into_vec(self) -> Vec<T>
        ensures items { result.items ≡ self }
    {
        self.items
    }

    /// Keeps the first `count` items, or all where there are fewer.
    pub fn truncate(&mut self, count: usize)
    where
        T: Drop,
        ensures front { self.new ≡ take count self.old }
    {
        self.items.truncate(count);
    }
}

impl Sequence<u8> {
    /// A list of these bytes.
    pub fn from_slice(alloc: Global, items: &[u8]) -> Result<Self, Memory>
        ensures same { IfOk result (λ sequence. sequence ≡ items.now) }
    {
        Ok(Sequence {
            items: Vec::from_slice(alloc, items)?,
        })
    }

    /// Adds bytes at the end. After want of memory the list is as before.
    pub fn extend(&mut self, from: &[u8]) -> Result<(), Memory>
        ensures added { OnOk result (self.new ≡ self.old ++ from.now) }
        ensures kept { OnErr result (self.new ≡ self.old) }
    {
        self.items.extend_from_slice(from)?;
        Ok(())
    }
}

impl<T> From<Vec<T>> for Sequence<T> {
    ghost from_gives = { λ items sequence. sequence ≡ items.items };

    fn from(items: Vec<T>) -> Sequence<T> {
        Sequence { items }
    }
}

impl<T: Duplicate + Drop> Duplicate for Sequence<T> {
    fn copy(&self, alloc: Global) -> Result<Self, Memory> {
        let mut items = Vec::new(alloc);
        for item in &self.items {
            items.push(item.copy(alloc)?)?;
        }
        Ok(Sequence { items })
    }
}

impl<T: PartialEq> PartialEq for Sequence<T> {
    ghost eq = { λ a b. pointwise T.eq a b };

    ghost laws = { lists_per T.laws };

    fn eq(&self, other: &Sequence<T>) -> bool {
        self.items == other.items
    }
}

impl<T: Eq> Eq for Sequence<T> {
    ghost laws = { lists_equiv T.Eq.laws };
}

impl<T: PartialOrd> PartialOrd for Sequence<T> {
    ghost partial_cmp = { λ a b. slice_partial_cmp T.partial_cmp a b };

    ghost laws = { lists_po T.PartialOrd.laws };

    fn partial_cmp(&self, other: &Sequence<T>) -> Option<Ordering> {
        self.items.partial_cmp(&other.items)
    }
}

impl<T: Ord> Ord for Sequence<T> {
    ghost cmp = { λ a b. slice_cmp T.cmp a b };

    ghost total = { lists_total T.total };

    ghost matches_partial_cmp = { λ a b. lists_agrees T.matches_partial_cmp a b };

    ghost matches_eq = { λ a b. lists_ties T.cmp T.matches_eq a b };

    fn cmp(&self, other: &Sequence<T>) -> Ordering {
        self.items.cmp(&other.items)
    }
}

impl<T: Hash> Hash for Sequence<T> {
    ghost hash_input = { λ sequence. fed.slice T.hash_input sequence };

    ghost respects_eq = { (items_Alike (record { fed = T.respects_eq })).fed };

    fn hash<H: Hasher>(&self, state: &mut H) {
        self.items.hash(state);
    }
}

impl Duplicate for u8 {
    fn copy(&self, _alloc: Global) -> Result<u8, Memory> {
        Ok(*self)
    }
}

impl Duplicate for u64 {
    fn copy(&self, _alloc: Global) -> Result<u64, Memory> {
        Ok(*self)
    }
}

impl Duplicate for Cookie {
    fn copy(&self, _alloc: Global) -> Result<Cookie, Memory> {
        Ok(*self)
    }
}

impl Duplicate for Who {
    fn copy(&self, _alloc: Global) -> Result<Who, Memory> {
        Ok(*self)
    }
}

impl Duplicate for Resource {
    fn copy(&self, _alloc: Global) -> Result<Resource, Memory> {
        Ok(*self)
    }
}

impl Duplicate for Lock {
    fn copy(&self, _alloc: Global) -> Result<Lock, Memory> {
        Ok(*self)
    }
}
