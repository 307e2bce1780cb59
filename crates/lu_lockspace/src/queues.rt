//! The queues of a target's resources. They stand in one slab, and beside it each resource that has locks has its seat,
//! the key of its queue there; so what is seen is each queue under its resource, in rising Fid and stripe.

ghost use Rattle.std.specs.Prelude.{◌≡◌, [], IfOk, OnOk, OnErr, None, IsSome, IsTrue, IsPermutation};
ghost use Rattle.std.specs.Option.{option_copied};
ghost use Rattle.lu_lock.specs.Overlap.{IsOrdered};
ghost use Rattle.lu_queue.specs.Queues.{empty, lock_under, placed, with_lock, may_restore, restored, has_of, IsTakenAway, IsQueue};
ghost use Rattle.lu_lockspace.specs.Guarded.{guarded_on, guarded_on_all, of_life_on, of_life_on_all};
ghost use Rattle.lu_lockspace.specs.Spaces.{meets_guard, some_waits, AreBlockers};
ghost use Rattle.lu_lockspace.specs.Entries.{entry_of, at, cookies_that, AreRising, Keeps};

use super::listing::{blocking_in, guarded, guards, of_life};
use lu_base::{Ask, Cookie, Cookies, Memory, Resource, Who};
use lu_part::Part;
use lu_queue::{Grants, Placed, Queue, QueueError};
use slab::Slab;
use std::alloc::Global;
use std::collections::BTreeMap;
use std::marker::Model;

/// Whether a lock of the queue waits.
#[tactic(auto, unfolding(crate::specs::Spaces::some_waits))]
fn waits(queue: &Queue) -> bool
    ensures { result ≡ some_waits queue.now }
{
    queue.waiting(0).is_some()
}

/// The queues of the resources that have locks.
#[derive(Debug, Drop)]
pub(crate) struct Queues {
    /// The seat of each resource that has locks.
    seats: BTreeMap<Resource, usize>,
    /// The queues, each at its seat.
    queues: Slab<Queue>,
}

impl Model for Queues {
    ghost use Rattle.lu_lockspace.specs.Entries.{Entries};
    ghost use Rattle.lu_lockspace.specs.Seats.{seated, IsSeated};

    ghost Value = { Entries };

    ghost view = { λ queues. seated queues.seats.entries queues.queues };

    ghost invariant = { λ queues. IsSeated queues.seats.entries queues.queues };
}

impl Queues {
    /// No queue. It takes no memory yet.
    pub(crate) fn new(alloc: Global) -> Queues
        ensures empty { result ≡ [] }
    {
        Queues {
            seats: BTreeMap::new(alloc),
            queues: Slab::new(alloc),
        }
    }

    /// The queue of a resource, if it has locks.
    pub(crate) fn of(&self, resource: Resource) -> Option<&Queue>
        ensures found { option_copied result ≡ entry_of resource self.now }
    {
        let seat = self.seats.get(&resource)?;
        Some(&self.queues[*seat])
    }

    /// Adds a lock that is asked for to the queue of a resource. After an error nothing has changed.
    pub(crate) fn enqueue(
        &mut self,
        alloc: Global,
        resource: Resource,
        cookie: Cookie,
        ask: Ask,
    ) -> Result<Placed, QueueError>
        requires { IsOrdered ask.policy }
        ensures placed { IfOk result (λ answer. answer ≡ placed (lock_under cookie ask) (at resource self.old)) }
        ensures added { OnOk result (at resource self.new ≡ with_lock (lock_under cookie ask) (at resource self.old)) }
        ensures others { Keeps resource self.old self.new }
        ensures kept { OnErr result (self.new ≡ self.old) }
        ensures lawful { OnOk result (IsQueue (at resource self.new)) }
        ensures rising { AreRising self.new }
    {
        if let Some(seat) = self.seats.get(&resource) {
            return self.queues[*seat].enqueue(alloc, cookie, ask);
        }
        let mut queue = Queue::new(alloc);
        let placed = queue.enqueue(alloc, cookie, ask)?;
        self.begin(resource, queue)?;
        Ok(placed)
    }

    /// Adds a lock that was granted before, as it was, to the queue of a resource. False, and nothing has
    /// changed, where it conflicts with a granted lock there. After an error nothing has changed.
    pub(crate) fn restore(
        &mut self,
        alloc: Global,
        resource: Resource,
        cookie: Cookie,
        ask: Ask,
    ) -> Result<bool, QueueError>
        requires ask { IsOrdered ask.policy }
        requires quiet { (at resource self.old).waiting ≡ [] }
        ensures restored { IfOk result (λ answer. answer ≡ may_restore (lock_under cookie ask) (at resource self.old)) }
        ensures added { OnOk result (at resource self.new ≡ restored (lock_under cookie ask) (at resource self.old)) }
        ensures others { Keeps resource self.old self.new }
        ensures kept { OnErr result (self.new ≡ self.old) }
        ensures lawful { OnOk result (IsQueue (at resource self.new)) }
        ensures rising { AreRising self.new }
    {
        if let Some(seat) = self.seats.get(&resource) {
            return self.queues[*seat].restore(alloc, cookie, ask);
        }
        let mut queue = Queue::new(alloc);
        let restored = queue.restore(alloc, cookie, ask)?;
        self.begin(resource, queue)?;
        Ok(restored)
    }

    /// Takes away a lock of the queue of a resource, and grants what may be granted then: it answers these
    /// locks. After an error nothing has changed.
    pub(crate) fn cancel(
        &mut self,
        alloc: Global,
        resource: Resource,
        cookie: Cookie,
    ) -> Result<Grants, QueueError>
        ensures granted { IfOk result (λ grants.
            IsTakenAway cookie.0 (at resource self.old) grants (at resource self.new)) }
        ensures others { Keeps resource self.old self.new }
        ensures kept { OnErr result (self.new ≡ self.old) }
        ensures lawful { OnOk result (IsQueue (at resource self.new)) }
        ensures rising { AreRising self.new }
    {
        let grants = self.take_away(alloc, resource, cookie)?;
        self.forget_empty(resource);
        Ok(grants)
    }

    /// The same, where a queue without locks stays.
    fn take_away(
        &mut self,
        alloc: Global,
        resource: Resource,
        cookie: Cookie,
    ) -> Result<Grants, QueueError>
        ensures granted { IfOk result (λ grants.
            IsTakenAway cookie.0 (at resource self.old) grants (at resource self.new)) }
        ensures others { Keeps resource self.old self.new }
        ensures kept { OnErr result (self.new ≡ self.old) }
        ensures lawful { OnOk result (IsQueue (at resource self.new)) }
        ensures rising { AreRising self.new }
    {
        if let Some(seat) = self.seats.get(&resource) {
            return self.queues[*seat].cancel(alloc, cookie);
        }
        Err(QueueError::NoLock)
    }

    /// The cookies of the granted locks of a life on a resource.
    fn of_life_on(&self, alloc: Global, resource: Resource, who: Who) -> Result<Vec<Cookie>, Memory>
        ensures { IfOk result (λ cookies. cookies.items ≡ of_life_on who resource self.now) }
    {
        match self.of(resource) {
            Some(queue) => of_life(alloc, queue.granted_locks(), who),
            None => Ok(Vec::new(alloc)),
        }
    }

    /// The cookies of the granted locks of a life on these resources.
    pub(crate) fn of_life(
        &self,
        alloc: Global,
        resources: &[Resource],
        who: Who,
    ) -> Result<Vec<Cookie>, Memory>
        ensures { IfOk result (λ cookies. cookies.items ≡ of_life_on_all who resources.now self.now) }
    {
        let mut cookies: Vec<Cookie> = Vec::new(alloc);
        for resource in resources {
            cookies.extend_from_slice(&self.of_life_on(alloc, *resource, who)?)?;
        }
        Ok(cookies)
    }

    /// The cookies of the granted locks of a resource that meet a guard of these parts.
    fn guarded_on(
        &self,
        alloc: Global,
        resource: Resource,
        parts: &[Part],
    ) -> Result<Vec<Cookie>, Memory>
        ensures { IfOk result (λ cookies. cookies.items ≡ guarded_on resource parts.now self.now) }
    {
        match self.of(resource) {
            Some(queue) => guarded(alloc, resource, queue.granted_locks(), parts),
            None => Ok(Vec::new(alloc)),
        }
    }

    /// The cookies of the granted locks of these resources that meet a guard of these parts.
    fn guarded_on_all(
        &self,
        alloc: Global,
        resources: &[Resource],
        parts: &[Part],
    ) -> Result<Vec<Cookie>, Memory>
        ensures { IfOk result (λ cookies. cookies.items ≡ guarded_on_all resources.now parts.now self.now) }
    {
        let mut cookies: Vec<Cookie> = Vec::new(alloc);
        for resource in resources {
            cookies.extend_from_slice(&self.guarded_on(alloc, *resource, parts)?)?;
        }
        Ok(cookies)
    }

    /// The cookies of the granted locks that meet a guard of these parts.
    pub(crate) fn clashing(&self, alloc: Global, parts: &[Part]) -> Result<Vec<Cookie>, Memory>
        requires { AreRising self.now }
        ensures { IfOk result (λ cookies. IsPermutation (cookies_that (meets_guard parts.now) self.now) cookies.items) }
    {
        let resources = guards(alloc, parts)?;
        let cookies = self.guarded_on_all(alloc, &resources, parts)?;
        Ok(cookies)
    }

    /// For each waiting lock of a resource in order, the cookies of the granted locks that block it in rising
    /// order, each once.
    pub(crate) fn blockers(&self, alloc: Global, resource: Resource) -> Result<Cookies, Memory>
        ensures { IfOk result (AreBlockers (at resource self.now)) }
    {
        match self.of(resource) {
            Some(queue) => blocking_in(alloc, queue),
            None => blocking_in(alloc, &Queue::new(alloc)),
        }
    }

    /// Whether a lock of the queue of a resource, granted or waiting, is of one of these lives.
    pub(crate) fn has_of(&self, resource: Resource, lives: &[Who]) -> bool
        ensures { result ≡ has_of lives.now (at resource self.now) }
    {
        match self.of(resource) {
            Some(queue) => queue.has_of(lives),
            None => false,
        }
    }

    /// Whether a lock waits on a resource.
    pub(crate) fn waits(&self, resource: Resource) -> bool
        ensures { result ≡ some_waits (at resource self.now) }
    {
        match self.of(resource) {
            Some(queue) => waits(queue),
            None => false,
        }
    }

    /// Whose the lock of a cookie on a resource is.
    pub(crate) fn who_of(&self, resource: Resource, cookie: Cookie) -> Option<Who> {
        let queue = self.of(resource)?;
        let lock = queue.find(cookie)?;
        Some(lock.ask.who)
    }

    /// Puts another queue in the place of the one of a resource.
    pub(crate) fn replace(&mut self, resource: Resource, queue: Queue)
        requires { IsSome (entry_of resource self.old) }
        ensures here { at resource self.new ≡ queue }
        ensures others { Keeps resource self.old self.new }
        ensures rising { AreRising self.new }
    {
        self.put(resource, queue);
        self.forget_empty(resource);
    }

    /// The same, also where the new one has no locks.
    fn put(&mut self, resource: Resource, queue: Queue)
        requires { IsSome (entry_of resource self.old) }
        ensures here { at resource self.new ≡ queue }
        ensures others { Keeps resource self.old self.new }
    {
        let Some(seat) = self.seats.get(&resource) else {
            return;
        };
        self.queues[*seat] = queue;
    }

    /// Whether the queue of a resource is there and has no locks.
    fn is_empty(&self, resource: Resource) -> bool
        ensures { IsTrue result → at resource self.now ≡ empty }
    {
        match self.of(resource) {
            Some(queue) => queue.is_empty(),
            None => false,
        }
    }

    /// Takes the queue of a resource out where it has no locks.
    fn forget_empty(&mut self, resource: Resource)
        ensures here { at resource self.new ≡ at resource self.old }
        ensures others { Keeps resource self.old self.new }
        ensures rising { AreRising self.new }
    {
        if !self.is_empty(resource) {
            return;
        }
        if let Some(seat) = self.seats.remove(&resource) {
            self.queues.remove(seat);
        }
    }

    /// Adds the queue of a resource that has none. After want of memory nothing has changed.
    fn begin(&mut self, resource: Resource, queue: Queue) -> Result<(), Memory>
        requires { entry_of resource self.old ≡ None }
        ensures here { OnOk result (at resource self.new ≡ queue) }
        ensures others { Keeps resource self.old self.new }
        ensures kept { OnErr result (self.new ≡ self.old) }
        ensures rising { AreRising self.new }
    {
        self.queues.reserve(1)?;
        self.seats.insert(resource, self.queues.vacant_key())?;
        self.queues.insert_reserved(queue);
        Ok(())
    }
}
