//! Waiting locks in order of arrival, each found by its cookie.

ghost use Rattle.std.specs.Prelude.{◌≡◌, false, [], ◌∷◌, ◌++◌, IfOk, OnOk, OnErr, IsTrue, ◌↔◌, slice_get, find, ◌==◌};
ghost use Rattle.std.specs.List.{list_any};
ghost use Rattle.std.specs.Option.{option_copied};
ghost use Rattle.lu_queue.specs.Queues.{has, is_of, IsOnce};

use super::locks::{Grant, is_of};
use indexmap::IndexMap;
use lu_base::{Cookie, Memory, Who};
use std::alloc::Global;
use std::marker::Model;

/// Waiting locks.
#[derive(Debug, Drop)]
pub(crate) struct Arrivals {
    locks: IndexMap<Cookie, Grant>,
}

impl Model for Arrivals {
    ghost use Rattle.std.specs.Prelude.{◌≡◌, List, map, All};
    ghost use Rattle.lu_queue.specs.declared.locks.Grant.{Grant};

    ghost Value = { List Grant };

    ghost view = { λ arrivals. map (λ entry. entry.1) arrivals.locks.entries };

    ghost invariant = { λ arrivals. All (λ entry. entry.0 ≡ entry.1.cookie) arrivals.locks.entries };
}

impl Arrivals {
    /// No lock. It takes no memory yet.
    pub(crate) fn new(alloc: Global) -> Arrivals
        ensures { result ≡ [] }
    {
        Arrivals {
            locks: IndexMap::new(alloc),
        }
    }

    /// Whether a lock has this cookie.
    pub(crate) fn has(&self, cookie: Cookie) -> bool
        ensures { result ≡ has cookie.0 self.now }
    {
        self.locks.contains_key(&cookie)
    }

    /// The lock of this cookie.
    pub(crate) fn find(&self, cookie: Cookie) -> Option<&Grant>
        ensures { option_copied result ≡ find (λ lock. lock.cookie.0 == cookie.0) self.now }
    {
        self.locks.get(&cookie)
    }

    /// Adds a lock at the end. After want of memory nothing has changed.
    pub(crate) fn push(&mut self, lock: Grant) -> Result<(), Memory>
        requires { has lock.cookie.0 self.old ≡ false }
        ensures added { OnOk result (self.new ≡ self.old ++ lock ∷ []) }
        ensures kept { OnErr result (self.new ≡ self.old) }
    {
        self.locks.insert(lock.cookie, lock)?;
        Ok(())
    }

    /// The lock at this place, from 0; none past the last.
    pub(crate) fn at(&self, place: usize) -> Option<&Grant>
        ensures { option_copied result ≡ slice_get self.now place }
    {
        match self.locks.get_index(place) {
            Some((_, lock)) => Some(lock),
            None => None,
        }
    }

    /// Whether no lock waits.
    pub(crate) fn is_empty(&self) -> bool
        ensures { IsTrue result ↔ (self.now ≡ []) }
    {
        self.locks.is_empty()
    }

    /// Whether one is of one of these lives.
    pub(crate) fn has_of(&self, lives: &[Who]) -> bool
        ensures { result ≡ list_any (is_of lives.now) self.now }
    {
        self.locks.values().any(|lock| is_of(lives, lock))
    }

    /// The locks as a vector.
    pub(crate) fn to_vec(&self, alloc: Global) -> Result<Vec<Grant>, Memory>
        ensures { IfOk result (λ locks. locks.items ≡ self.now) }
    {
        let locks = self.locks.values().map(|lock| *lock).collect(alloc)?;
        Ok(locks)
    }

    /// These locks, no two of which have one cookie.
    pub(crate) fn from_slice(alloc: Global, locks: &[Grant]) -> Result<Arrivals, Memory>
        requires { IsOnce locks.now }
        ensures { IfOk result (λ arrivals. arrivals ≡ locks.now) }
    {
        let mut arrivals = Arrivals::new(alloc);
        for lock in locks {
            arrivals.push(*lock)?;
        }
        Ok(arrivals)
    }
}
