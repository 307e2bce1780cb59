//! The queues, and beside them where each life has locks and where locks wait: so none of these is looked for among
//! all. A note may be of what is gone, as after want of memory, but what is there is noted.

ghost use Rattle.std.specs.Prelude.{◌≡◌, [], IfOk, OnOk, OnErr, IsSome, IsPermutation, filter};
ghost use Rattle.std.specs.List.Sorted.{IsStrictlySortedBy};
ghost use Rattle.std.specs.Option.{option_copied};
ghost use Rattle.lu_lock.specs.Overlap.{IsOrdered};
ghost use Rattle.lu_queue.specs.Queues.{lock_under, placed, with_lock, may_restore, restored, same_who, has_of, IsTakenAway, IsQueue};
ghost use Rattle.lu_lockspace.specs.Spaces.{meets_guard, some_waits, AreBlockers};
ghost use Rattle.lu_lockspace.specs.Entries.{order, entry_of, at, changed, waited_on, cookies_that, AreRising, Keeps};
ghost use Rattle.lu_lockspace.specs.Notes.{IsFewer, AllListed};

use super::queues::Queues;
use super::stays::{Stay, note_stay, note_waits, resources_of, stays_of};
use lu_base::{Ask, Cookie, Cookies, Memory, Resource, Who};
use lu_part::Part;
use lu_queue::{Grants, Placed, Queue, QueueError};
use std::alloc::Global;
use std::collections::BTreeSet;
use std::marker::Model;

/// Those of these resources on which one of these lives has a lock.
fn held_among(
    alloc: Global,
    queues: &Queues,
    noted: &BTreeSet<Resource>,
    lives: &[Who],
) -> Result<Vec<Resource>, Memory>
    ensures resources { IfOk result (λ resources.
        resources.items ≡ filter (λ resource. has_of lives.now (at resource queues.now)) noted.now.keys) }
    ensures ordered { IsStrictlySortedBy order noted.now.keys }
{
    let resources = noted
        .iter()
        .filter(|resource| queues.has_of(**resource, lives))
        .map(|resource| *resource)
        .collect(alloc)?;
    Ok(resources)
}

/// Those of these resources on which a lock waits.
fn waiting_among(
    alloc: Global,
    queues: &Queues,
    waited: &BTreeSet<Resource>,
) -> Result<Vec<Resource>, Memory>
    ensures resources { IfOk result (λ resources.
        resources.items ≡ filter (λ resource. some_waits (at resource queues.now)) waited.now.keys) }
    ensures ordered { IsStrictlySortedBy order waited.now.keys }
{
    let resources = waited
        .iter()
        .filter(|resource| queues.waits(**resource))
        .map(|resource| *resource)
        .collect(alloc)?;
    Ok(resources)
}

/// The queues of the resources that have locks, with notes.
#[derive(Debug, Drop)]
pub(crate) struct Noted {
    queues: Queues,
    /// Where each life has locks.
    stays: BTreeSet<Stay>,
    /// Where locks wait.
    waited: BTreeSet<Resource>,
}

impl Model for Noted {
    ghost use Rattle.lu_lockspace.specs.Entries.{Entries};
    ghost use Rattle.lu_lockspace.specs.Notes.{AreNoted};

    ghost Value = { Entries };

    ghost view = { λ noted. noted.queues };

    ghost invariant = { λ noted. AreNoted noted.queues noted.stays.keys noted.waited.keys };
}

impl Noted {
    /// No queue. It takes no memory yet.
    pub(crate) fn new(alloc: Global) -> Noted
        ensures empty { result ≡ [] }
    {
        Noted {
            queues: Queues::new(alloc),
            stays: BTreeSet::new(alloc),
            waited: BTreeSet::new(alloc),
        }
    }

    /// The queue of a resource, if it has locks.
    pub(crate) fn of(&self, resource: Resource) -> Option<&Queue>
        ensures found { option_copied result ≡ entry_of resource self.now }
    {
        self.queues.of(resource)
    }

    /// Adds a lock that is asked for to the queue of a resource. After an error nothing has changed.
    pub(crate) fn enqueue(
        &mut self,
        alloc: Global,
        resource: Resource,
        cookie: Cookie,
        ask: Ask,
    ) -> Result<Placed, QueueError>
        requires { IsOrdered ask.policy }
        ensures placed { IfOk result (λ answer. answer ≡ placed (lock_under cookie ask) (at resource self.old)) }
        ensures added { OnOk result (at resource self.new ≡ with_lock (lock_under cookie ask) (at resource self.old)) }
        ensures others { Keeps resource self.old self.new }
        ensures kept { OnErr result (self.new ≡ self.old) }
        ensures lawful { OnOk result (IsQueue (at resource self.new)) }
        ensures rising { AreRising self.new }
    {
        note_stay(&mut self.stays, ask.who, resource)?;
        note_waits(&mut self.waited, resource)?;
        match self.queues.enqueue(alloc, resource, cookie, ask) {
            Ok(placed) => {
                self.tidy(ask.who, resource);
                Ok(placed)
            }
            Err(error) => {
                self.tidy(ask.who, resource);
                Err(error)
            }
        }
    }

    /// Adds a lock that was granted before, as it was, to the queue of a resource. False, and nothing has
    /// changed, where it conflicts with a granted lock there. After an error nothing has changed.
    pub(crate) fn restore(
        &mut self,
        alloc: Global,
        resource: Resource,
        cookie: Cookie,
        ask: Ask,
    ) -> Result<bool, QueueError>
        requires ask { IsOrdered ask.policy }
        requires quiet { (at resource self.old).waiting ≡ [] }
        ensures restored { IfOk result (λ answer. answer ≡ may_restore (lock_under cookie ask) (at resource self.old)) }
        ensures added { OnOk result (at resource self.new ≡ restored (lock_under cookie ask) (at resource self.old)) }
        ensures others { Keeps resource self.old self.new }
        ensures kept { OnErr result (self.new ≡ self.old) }
        ensures lawful { OnOk result (IsQueue (at resource self.new)) }
        ensures rising { AreRising self.new }
    {
        note_stay(&mut self.stays, ask.who, resource)?;
        match self.queues.restore(alloc, resource, cookie, ask) {
            Ok(restored) => {
                self.tidy(ask.who, resource);
                Ok(restored)
            }
            Err(error) => {
                self.tidy(ask.who, resource);
                Err(error)
            }
        }
    }

    /// Takes away a lock of the queue of a resource, and grants what may be granted then: it answers these
    /// locks. After an error nothing has changed.
    pub(crate) fn cancel(
        &mut self,
        alloc: Global,
        resource: Resource,
        cookie: Cookie,
    ) -> Result<Grants, QueueError>
        ensures granted { IfOk result (λ grants.
            IsTakenAway cookie.0 (at resource self.old) grants (at resource self.new)) }
        ensures others { Keeps resource self.old self.new }
        ensures kept { OnErr result (self.new ≡ self.old) }
        ensures lawful { OnOk result (IsQueue (at resource self.new)) }
        ensures rising { AreRising self.new }
    {
        let Some(who) = self.queues.who_of(resource, cookie) else {
            return Err(QueueError::NoLock);
        };
        let grants = self.queues.cancel(alloc, resource, cookie)?;
        self.tidy(who, resource);
        Ok(grants)
    }

    /// Puts another queue in the place of the one of a resource, with no lock that waits where none waited, and
    /// none of a life that had none there.
    pub(crate) fn replace(&mut self, resource: Resource, queue: Queue)
        requires there { IsSome (entry_of resource self.old) }
        requires fewer { IsFewer queue (at resource self.old) }
        ensures here { at resource self.new ≡ queue }
        ensures others { Keeps resource self.old self.new }
        ensures rising { AreRising self.new }
    {
        self.queues.replace(resource, queue);
        self.tidy_waits(resource);
    }

    /// What is noted of these lives.
    pub(crate) fn stays(&self, alloc: Global, lives: &[Who]) -> Result<Vec<Stay>, Memory>
        ensures { IfOk result (λ stays. AllListed lives.now self.now stays.items) }
    {
        let stays = stays_of(alloc, &self.stays, lives)?;
        Ok(stays)
    }

    /// The resources on which one of these lives has a lock, in rising Fid and stripe, found among these notes.
    pub(crate) fn of_lives(
        &self,
        alloc: Global,
        lives: &[Who],
        stays: &[Stay],
    ) -> Result<Vec<Resource>, Memory>
        requires { AllListed lives.now self.now stays.now }
        ensures resources { IfOk result (λ resources. resources.items ≡ changed lives.now self.now) }
        ensures rising { AreRising self.now }
    {
        let queues = &self.queues;
        let noted = resources_of(alloc, stays)?;
        let resources = held_among(alloc, queues, &noted, lives)?;
        Ok(resources)
    }

    /// The resources on which a lock waits, in rising Fid and stripe.
    pub(crate) fn waited_on(&self, alloc: Global) -> Result<Vec<Resource>, Memory>
        ensures resources { IfOk result (λ resources. resources.items ≡ waited_on self.now) }
        ensures rising { AreRising self.now }
    {
        let resources = waiting_among(alloc, &self.queues, &self.waited)?;
        Ok(resources)
    }

    /// The cookies of the granted locks of a life.
    pub(crate) fn of_life(&self, alloc: Global, who: Who) -> Result<Vec<Cookie>, Memory>
        ensures { IfOk result (λ cookies. cookies.items ≡ cookies_that (λ lock. same_who lock.ask.who who) self.now) }
    {
        let stays = self.stays(alloc, &[who])?;
        let resources = self.of_lives(alloc, &[who], &stays)?;
        let cookies = self.queues.of_life(alloc, &resources, who)?;
        Ok(cookies)
    }

    /// The cookies of the granted locks that meet a guard of these parts.
    pub(crate) fn clashing(&self, alloc: Global, parts: &[Part]) -> Result<Vec<Cookie>, Memory>
        requires { AreRising self.now }
        ensures { IfOk result (λ cookies. IsPermutation (cookies_that (meets_guard parts.now) self.now) cookies.items) }
    {
        self.queues.clashing(alloc, parts)
    }

    /// For each waiting lock of a resource in order, the cookies of the granted locks that block it in rising
    /// order, each once.
    pub(crate) fn blockers(&self, alloc: Global, resource: Resource) -> Result<Cookies, Memory>
        ensures { IfOk result (AreBlockers (at resource self.now)) }
    {
        self.queues.blockers(alloc, resource)
    }

    /// Forgets those of these notes that are of what is gone.
    pub(crate) fn tidy_all(&mut self, stays: &[Stay])
        ensures { self.new ≡ self.old }
    {
        for stay in stays {
            self.tidy_stay(stay.who, stay.resource);
        }
    }

    /// Forgets what is noted of a life and a resource, where it has no locks there, and that locks wait there,
    /// where none does.
    fn tidy(&mut self, who: Who, resource: Resource)
        ensures { self.new ≡ self.old }
    {
        self.tidy_stay(who, resource);
        self.tidy_waits(resource);
    }

    /// Forgets what is noted of a life and a resource, where it has no locks there.
    fn tidy_stay(&mut self, who: Who, resource: Resource)
        ensures { self.new ≡ self.old }
    {
        if self.queues.has_of(resource, &[who]) {
            return;
        }
        self.stays.remove(&Stay { who, resource });
    }

    /// Forgets that locks wait on a resource, where none does.
    fn tidy_waits(&mut self, resource: Resource)
        ensures { self.new ≡ self.old }
    {
        if self.queues.waits(resource) {
            return;
        }
        self.waited.remove(&resource);
    }
}
