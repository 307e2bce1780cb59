//! The locks that lives bring back.

ghost use Rattle.std.specs.Prelude.{◌≡◌, not, if◌then◌else◌, [], length, filter, map, IfOk, OnOk, OnErr};
ghost use Rattle.std.specs.List.{list_any};
ghost use Rattle.lu_spec_target.specs.Windows.{is_lock, with_brought, staying};
ghost use Rattle.lu_spec_entries.specs.Words.{same_life};
ghost use Rattle.lu_window.specs.Shown.{gone, lock_of};

use super::outcomes::Eviction;
use lu_base::{Ask, Cookie, Lock, Locks, Memory, Mode, Policy, Resource, Who};
use lu_replay::{Handed, Key};
use std::alloc::{AllocError, Global};
use std::collections::BTreeMap;
use std::marker::Model;

/// A lock without its cookie and its life, under which it is kept.
#[derive(Clone, Copy, Debug)]
pub(crate) struct LockBody {
    pub(crate) resource: Resource,
    pub(crate) mode: Mode,
    pub(crate) policy: Policy,
}

/// The lock of this cookie and life.
fn lock_of(key: &Key, body: &LockBody) -> Lock
    ensures { result ≡ lock_of (key.now, body.now) }
{
    Lock {
        cookie: Cookie(key.number),
        resource: body.resource,
        ask: Ask {
            who: key.who,
            mode: body.mode,
            policy: body.policy,
        },
    }
}

/// Whether this life loses its slot. At most one life of each client does.
fn is_gone(evicted: &[Eviction], who: Who) -> bool
    ensures { result ≡ list_any (λ eviction. same_life who eviction.who) evicted.now }
{
    evicted.iter().any(|eviction| who == eviction.who)
}

/// The locks of the lives that don't lose their slots, in rising cookie.
fn staying(
    alloc: Global,
    locks: &BTreeMap<Key, LockBody>,
    evicted: &[Eviction],
) -> Result<Vec<Lock>, AllocError>
    ensures { IfOk result (λ staying. staying.items ≡ map lock_of
        (filter (λ lock. not (list_any (λ eviction. same_life lock.0.who eviction.who) evicted.now))
        locks.now.entries)) }
{
    locks
        .iter()
        .filter(|(key, _)| !is_gone(evicted, key.who))
        .map(|(key, body)| lock_of(key, body))
        .collect(alloc)
}

/// The locks that were brought: one for each cookie of each life, in rising cookie.
#[derive(Debug, Drop)]
pub(crate) struct Brought {
    alloc: Global,
    locks: Handed<LockBody>,
}

impl Model for Brought {
    ghost use Rattle.std.specs.Prelude.{List, map};
    ghost use Rattle.lu_base.specs.declared.locks.Lock.{Lock};
    ghost use Rattle.lu_window.specs.Shown.{lock_of};

    ghost Value = { List Lock };

    ghost view = { λ brought. map lock_of brought.locks };
}

impl Brought {
    /// No lock. It takes no memory yet.
    pub(crate) fn new(alloc: Global) -> Brought
        ensures { result ≡ [] }
    {
        Brought {
            alloc,
            locks: Handed::new(alloc),
        }
    }

    /// How many locks this life has brought.
    pub(crate) fn count(&self, who: Who) -> usize
        ensures { result ≡ length (filter (λ lock. same_life lock.ask.who who) self.now) }
    {
        self.locks.count(who)
    }

    /// Takes a lock, where its life hasn't brought it already. After want of memory nothing has changed.
    pub(crate) fn put(&mut self, lock: Lock) -> Result<(), Memory>
        ensures put { OnOk result (self.new ≡ (if list_any (is_lock lock) self.old
            then self.old
            else with_brought lock self.old)) }
        ensures kept { OnErr result (self.new ≡ self.old) }
    {
        let Ask { who, mode, policy } = lock.ask;
        let key = Key {
            number: lock.cookie.0,
            who,
        };
        let body = LockBody {
            resource: lock.resource,
            mode,
            policy,
        };
        self.locks.insert(key, body)?;
        Ok(())
    }

    /// The locks of the lives that don't lose their slots, in rising cookie.
    pub(crate) fn staying(&self, evicted: &[Eviction]) -> Result<Locks, Memory>
        ensures { IfOk result (λ locks. locks ≡ staying (map gone evicted.now) self.now) }
    {
        let locks = staying(self.alloc, self.locks.by_key(), evicted)?;
        Ok(Locks::from(locks))
    }
}
