//! The lockspace of a target (Wang et al., Understanding Lustre Filesystem Internals, the lock manager).

ghost use Rattle.std.specs.Prelude.{◌≡◌, ℕ, Bool, true, false, List, [], ◌∷◌, ◌++◌, IfOk, IfSome, OnOk, OnErr, IsErrOf, IsTrue, ◌↔◌, Some, slice_get, filter, map, IsPermutation, is_some};
ghost use Rattle.std.specs.List.{list_any};
ghost use Rattle.std.specs.Option.{option_map};
ghost use Rattle.lu_lock.specs.Overlap.{IsOrdered};
ghost use Rattle.lu_queue.specs.Queues.{lock_under, placed, with_lock, may_restore, restored, same_who, IsTakenAway};
ghost use Rattle.lu_lockspace.specs.Entries.{IsPlaced};
ghost use Rattle.lu_lockspace.specs.Spaces.{empty, is_in, has, lock_of, grant_of, queue_of, KeepsOthers, IsSpace, IsCancelled, AreCancelled, IsAt, AreCookiesOf, meets_guard, AreBlockers, AreWaitedOn};

use super::ending::{ended, forget, replace_all, taken};
use super::listing::{lock_in, lock_on, sorted};
use super::noted::Noted;
use lu_base::{Ask, Cookie, Cookies, Lock, Memory, Resource, Resources, Who};
use lu_part::Parts;
use lu_queue::{Grants, Placed, Queue};
use std::alloc::Global;
use std::collections::BTreeMap;
use std::marker::Model;

/// Why a call did nothing.
#[derive(Clone, Copy, Debug, PartialEq, Eq)]
pub enum SpaceError {
    /// A lock has the cookie already.
    Twice,
    /// No lock has the cookie.
    NoLock,
    /// Want of memory.
    Memory,
}

impl From<Memory> for SpaceError {
    ghost use Rattle.lu_lockspace.specs.declared.space.SpaceError.{SpaceError};

    ghost from_gives = { λ _ error. error ≡ SpaceError.Memory };

    fn from(_: Memory) -> SpaceError {
        SpaceError::Memory
    }
}

/// All locks of a target, granted and waiting.
#[derive(Debug, Drop)]
pub struct Lockspace {
    /// On which resource the lock of a cookie is.
    places: BTreeMap<Cookie, Resource>,
    queues: Noted,
}

impl Model for Lockspace {
    ghost use Rattle.lu_lockspace.specs.Spaces.{SpaceState};
    ghost use Rattle.lu_lockspace.specs.Entries.{all_of, IsIndexed};

    ghost Value = { SpaceState };

    ghost view = { λ space. all_of space.queues };

    ghost invariant = { λ space. IsIndexed space.queues space.places.entries };
}

impl Lockspace {
    /// A lockspace without locks. It takes no memory yet.
    pub fn new(alloc: Global) -> Lockspace
        ensures empty { result ≡ empty }
        ensures lawful { IsSpace result }
    {
        Lockspace {
            places: BTreeMap::new(alloc),
            queues: Noted::new(alloc),
        }
    }

    /// Adds a lock that is asked for to the queue of its resource. After an error nothing has changed.
    pub fn enqueue(
        &mut self,
        alloc: Global,
        cookie: Cookie,
        resource: Resource,
        ask: Ask,
    ) -> Result<Placed, SpaceError>
        requires { IsOrdered ask.policy }
        ensures twice { IsErrOf result SpaceError.Twice ↔ IsTrue (is_in cookie.0 self.old) }
        ensures errors { ¬ IsErrOf result SpaceError.NoLock }
        ensures placed { IfOk result (λ answer. answer ≡ placed (lock_under cookie ask) (queue_of resource self.old)) }
        ensures added { OnOk result (queue_of resource self.new
            ≡ with_lock (lock_under cookie ask) (queue_of resource self.old)) }
        ensures others { KeepsOthers resource self.old self.new }
        ensures kept { OnErr result (self.new ≡ self.old) }
        ensures lawful { IsSpace self.new }
    {
        if self.has(cookie) {
            return Err(SpaceError::Twice);
        }
        let placed = self.admit(
            alloc,
            Lock {
                cookie,
                resource,
                ask,
            },
        )?;
        Ok(placed)
    }

    /// Takes away a lock, granted or waiting, and grants what may be granted then on its resource: it answers
    /// these locks, in the order in which they were granted. After an error nothing has changed.
    pub fn cancel(&mut self, alloc: Global, cookie: Cookie) -> Result<Grants, SpaceError>
        ensures no_lock { IsErrOf result SpaceError.NoLock ↔ (is_in cookie.0 self.old ≡ false) }
        ensures errors { ¬ IsErrOf result SpaceError.Twice }
        ensures granted { IfOk result (λ grants. IsCancelled cookie.0 self.old grants self.new) }
        ensures kept { OnErr result (self.new ≡ self.old) }
        ensures lawful { IsSpace self.new }
    {
        let Some((resource, _)) = self.queue_with(cookie) else {
            return Err(SpaceError::NoLock);
        };
        let grants = self.take_away(alloc, cookie, resource)?;
        Ok(grants)
    }

    /// The lock of this cookie, granted or waiting; none where no lock has it.
    pub fn find(&self, cookie: Cookie) -> Option<Lock>
        ensures lock { result ≡ lock_of cookie.0 self.now }
        ensures found { is_some result ≡ is_in cookie.0 self.now }
        ensures lawful { IsSpace self.now }
    {
        match self.queue_with(cookie) {
            Some((resource, queue)) => lock_in(resource, queue, cookie),
            None => None,
        }
    }

    /// Whether a granted lock has this cookie.
    pub fn is_granted(&self, cookie: Cookie) -> bool
        ensures granted { result ≡ has cookie.0 self.now.granted }
        ensures lawful { IsSpace self.now }
    {
        match self.queue_with(cookie) {
            Some((_, queue)) => queue.is_granted(cookie),
            None => false,
        }
    }

    /// Adds a lock that was granted before, as it was, on a resource on which nothing waits. False, and
    /// nothing has changed, where it conflicts with a granted lock there. After an error nothing has changed.
    pub fn restore(&mut self, alloc: Global, lock: Lock) -> Result<bool, SpaceError>
        requires ask { IsOrdered lock.ask.policy }
        requires quiet { (queue_of lock.resource self.old).waiting ≡ [] }
        ensures twice { IsErrOf result SpaceError.Twice ↔ IsTrue (is_in lock.cookie.0 self.old) }
        ensures errors { ¬ IsErrOf result SpaceError.NoLock }
        ensures restored { IfOk result (λ answer.
            answer ≡ may_restore (grant_of lock) (queue_of lock.resource self.old)) }
        ensures added { OnOk result (queue_of lock.resource self.new
            ≡ restored (grant_of lock) (queue_of lock.resource self.old)) }
        ensures others { KeepsOthers lock.resource self.old self.new }
        ensures kept { OnErr result (self.new ≡ self.old) }
        ensures lawful { IsSpace self.new }
    {
        if self.has(lock.cookie) {
            return Err(SpaceError::Twice);
        }
        let restored = self.put_back(alloc, lock)?;
        Ok(restored)
    }

    /// Takes away all locks of these lives, granted and waiting, and only then grants what may be granted, by
    /// rising Fid and stripe: it answers these locks. After want of memory nothing has changed.
    pub fn cancel_all(&mut self, alloc: Global, lives: &[Who]) -> Result<Grants, Memory>
        ensures granted { IfOk result (λ grants. AreCancelled lives.now self.old grants self.new) }
        ensures kept { OnErr result (self.new ≡ self.old) }
        ensures lawful { IsSpace self.new }
    {
        let stays = self.queues.stays(alloc, lives)?;
        let resources = self.queues.of_lives(alloc, lives, &stays)?;
        let cookies = taken(alloc, &self.queues, lives, &resources)?;
        let (queues, grants) = ended(alloc, &self.queues, lives, &resources)?;
        replace_all(&mut self.queues, queues);
        self.queues.tidy_all(&stays);
        forget(&mut self.places, &cookies);
        Ok(grants)
    }

    /// The granted lock on a resource at this place, from 0, in rising cookie; none past the last.
    pub fn granted(&self, resource: Resource, at: usize) -> Option<Lock>
        ensures lock { IsAt resource at self.now.granted result }
        ensures lawful { IsSpace self.now }
    {
        let Some(queue) = self.queues.of(resource) else {
            return None;
        };
        let Some(grant) = queue.rising(at) else {
            return None;
        };
        Some(lock_on(resource, *grant))
    }

    /// The cookies of the granted locks of a life, rising.
    pub fn of(&self, alloc: Global, who: Who) -> Result<Cookies, Memory>
        ensures cookies { IfOk result (AreCookiesOf (λ lock. same_who lock.ask.who who) self.now.granted) }
        ensures lawful { IsSpace self.now }
    {
        Ok(sorted(self.queues.of_life(alloc, who)?))
    }

    /// The cookies of the granted locks that meet a guard of these parts, taken in mode EX, rising.
    pub fn clash(&self, alloc: Global, parts: &Parts) -> Result<Cookies, Memory>
        ensures cookies { IfOk result (AreCookiesOf (meets_guard parts.now) self.now.granted) }
        ensures lawful { IsSpace self.now }
    {
        Ok(sorted(self.queues.clashing(alloc, parts.as_slice())?))
    }

    /// For each waiting lock of a resource in order, the cookies of the granted locks that block it in rising
    /// order, each once.
    pub fn blockers(&self, alloc: Global, resource: Resource) -> Result<Cookies, Memory>
        ensures cookies { IfOk result (AreBlockers (queue_of resource self.now)) }
        ensures lawful { IsSpace self.now }
    {
        let cookies = self.queues.blockers(alloc, resource)?;
        Ok(cookies)
    }

    /// The resources on which a lock waits, each once, in rising Fid and stripe.
    pub fn waited_on(&self, alloc: Global) -> Result<Resources, Memory>
        ensures resources { IfOk result (AreWaitedOn self.now) }
        ensures lawful { IsSpace self.now }
    {
        let resources = self.queues.waited_on(alloc)?;
        Ok(Resources::from(resources))
    }

    /// The resource of the lock of this cookie, and its queue; none where no lock has it.
    fn queue_with(&self, cookie: Cookie) -> Option<(Resource, &Queue)>
        ensures placed { IsPlaced cookie.0 self.now (option_map (λ found. found.0) result) }
        ensures queue { IfSome result (λ found. found.1.now ≡ queue_of found.0 self.now) }
        ensures lawful { IsSpace self.now }
    {
        let Some(resource) = self.places.get(&cookie) else {
            return None;
        };
        let Some(queue) = self.queues.of(*resource) else {
            return None;
        };
        Some((*resource, queue))
    }

    /// Whether a lock has this cookie.
    fn has(&self, cookie: Cookie) -> bool
        ensures found { result ≡ is_in cookie.0 self.now }
        ensures lawful { IsSpace self.now }
    {
        self.places.contains_key(&cookie)
    }

    /// Adds a lock under a cookie that is new here.
    fn admit(&mut self, alloc: Global, lock: Lock) -> Result<Placed, Memory>
        requires ask { IsOrdered lock.ask.policy }
        requires new { is_in lock.cookie.0 self.old ≡ false }
        ensures placed { IfOk result (λ answer. answer ≡ placed (grant_of lock) (queue_of lock.resource self.old)) }
        ensures added { OnOk result (queue_of lock.resource self.new
            ≡ with_lock (grant_of lock) (queue_of lock.resource self.old)) }
        ensures others { KeepsOthers lock.resource self.old self.new }
        ensures kept { OnErr result (self.new ≡ self.old) }
        ensures lawful { IsSpace self.new }
    {
        self.places.insert(lock.cookie, lock.resource)?;
        match self
            .queues
            .enqueue(alloc, lock.resource, lock.cookie, lock.ask)
        {
            Ok(placed) => Ok(placed),
            Err(_) => {
                self.places.remove(&lock.cookie);
                Err(Memory)
            }
        }
    }

    /// Adds a lock under a cookie that is new here, as it was granted.
    fn put_back(&mut self, alloc: Global, lock: Lock) -> Result<bool, Memory>
        requires ask { IsOrdered lock.ask.policy }
        requires quiet { (queue_of lock.resource self.old).waiting ≡ [] }
        requires new { is_in lock.cookie.0 self.old ≡ false }
        ensures restored { IfOk result (λ answer.
            answer ≡ may_restore (grant_of lock) (queue_of lock.resource self.old)) }
        ensures added { OnOk result (queue_of lock.resource self.new
            ≡ restored (grant_of lock) (queue_of lock.resource self.old)) }
        ensures others { KeepsOthers lock.resource self.old self.new }
        ensures kept { OnErr result (self.new ≡ self.old) }
        ensures lawful { IsSpace self.new }
    {
        self.places.insert(lock.cookie, lock.resource)?;
        match self
            .queues
            .restore(alloc, lock.resource, lock.cookie, lock.ask)
        {
            Ok(true) => Ok(true),
            Ok(false) => {
                self.places.remove(&lock.cookie);
                Ok(false)
            }
            Err(_) => {
                self.places.remove(&lock.cookie);
                Err(Memory)
            }
        }
    }

    /// Takes away the lock of a cookie on this resource, and grants what may be granted then.
    fn take_away(
        &mut self,
        alloc: Global,
        cookie: Cookie,
        resource: Resource,
    ) -> Result<Grants, Memory>
        requires { IsPlaced cookie.0 self.old (Some resource) }
        ensures granted { IfOk result (λ grants.
            IsTakenAway cookie.0 (queue_of resource self.old) grants (queue_of resource self.new)) }
        ensures others { KeepsOthers resource self.old self.new }
        ensures kept { OnErr result (self.new ≡ self.old) }
        ensures lawful { IsSpace self.new }
    {
        match self.queues.cancel(alloc, resource, cookie) {
            Ok(grants) => {
                self.places.remove(&cookie);
                Ok(grants)
            }
            Err(_) => Err(Memory),
        }
    }
}
