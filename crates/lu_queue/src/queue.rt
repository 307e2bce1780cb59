//! The queue of one resource (Wang et al., Understanding Lustre Filesystem Internals, the lock manager).

ghost use Rattle.std.specs.Prelude.{◌≡◌, ℕ, Bool, true, false, List, [], ◌∷◌, ◌++◌, IfOk, OnOk, OnErr, IsErrOf, IsTrue, ◌↔◌, slice_get, IsPermutation};
ghost use Rattle.std.specs.Option.{option_copied};
ghost use Rattle.lu_lock.specs.Overlap.{IsOrdered};
ghost use Rattle.lu_queue.specs.Queues.{empty, queue_with, lock_under, is_in, has, lock_of, has_of, placed, with_lock, may_restore, restored, without_lives, AreGranted, IsTakenAway, blocking, IsAt, IsRising, IsCoherent, IsQueue};

use super::arrivals::Arrivals;
use super::granted::Granted;
use super::granting::{has_to_wait, settle};
use super::locks::{
    Grant, Grants, Placed, QueueError, as_granted, conflicts, find, has, has_of, in_conflict,
    of_others, other_than,
};
use lu_base::{Ask, Cookie, Cookies, Memory, Who};
use std::alloc::Global;
use std::marker::Model;

/// The locks of one resource, granted and waiting.
#[derive(Debug, Drop)]
pub struct Queue {
    granted: Granted,
    waiting: Arrivals,
}

impl Model for Queue {
    ghost use Rattle.lu_queue.specs.Queues.{QueueState, IsQueue};

    ghost Value = { QueueState };

    ghost view = { λ queue. record { granted = queue.granted; waiting = queue.waiting } };

    ghost invariant = { λ queue. IsQueue (record { granted = queue.granted; waiting = queue.waiting }) };
}

impl Queue {
    /// A queue without locks. It takes no memory yet.
    pub fn new(alloc: Global) -> Queue
        ensures empty { result ≡ empty }
        ensures lawful { IsQueue result }
    {
        Queue {
            granted: Granted::new(alloc),
            waiting: Arrivals::new(alloc),
        }
    }

    /// Adds a lock that is asked for. It is granted where it conflicts with no lock of the queue, and else
    /// waits behind the others. After an error nothing has changed.
    pub fn enqueue(&mut self, alloc: Global, cookie: Cookie, ask: Ask) -> Result<Placed, QueueError>
        requires { IsOrdered ask.policy }
        ensures twice { IsErrOf result QueueError.Twice ↔ IsTrue (is_in cookie.0 self.old) }
        ensures errors { ¬ IsErrOf result QueueError.NoLock }
        ensures placed { IfOk result (λ answer. answer ≡ placed (lock_under cookie ask) self.old) }
        ensures added { OnOk result (self.new ≡ with_lock (lock_under cookie ask) self.old) }
        ensures kept { OnErr result (self.new ≡ self.old) }
        ensures lawful { IsQueue self.new }
    {
        if self.has(cookie) {
            return Err(QueueError::Twice);
        }
        let placed = self.admit(alloc, Grant { cookie, ask })?;
        Ok(placed)
    }

    /// Adds a lock that was granted before, as it was. False, and nothing has changed, where it conflicts
    /// with a granted lock. After an error nothing has changed.
    pub fn restore(&mut self, alloc: Global, cookie: Cookie, ask: Ask) -> Result<bool, QueueError>
        requires ask { IsOrdered ask.policy }
        requires quiet { self.old.waiting ≡ [] }
        ensures twice { IsErrOf result QueueError.Twice ↔ IsTrue (is_in cookie.0 self.old) }
        ensures errors { ¬ IsErrOf result QueueError.NoLock }
        ensures restored { IfOk result (λ answer. answer ≡ may_restore (lock_under cookie ask) self.old) }
        ensures added { OnOk result (self.new ≡ restored (lock_under cookie ask) self.old) }
        ensures kept { OnErr result (self.new ≡ self.old) }
        ensures lawful { IsQueue self.new }
    {
        if self.has(cookie) {
            return Err(QueueError::Twice);
        }
        if conflicts(&ask, self.granted.as_slice()) {
            return Ok(false);
        }
        self.granted.push(alloc, Grant { cookie, ask })?;
        Ok(true)
    }

    /// Takes away a lock, granted or waiting, and grants what may be granted then: it answers these locks, in
    /// the order in which they were granted. After an error nothing has changed.
    pub fn cancel(&mut self, alloc: Global, cookie: Cookie) -> Result<Grants, QueueError>
        ensures no_lock { IsErrOf result QueueError.NoLock ↔ (is_in cookie.0 self.old ≡ false) }
        ensures errors { ¬ IsErrOf result QueueError.Twice }
        ensures granted { IfOk result (λ grants. IsTakenAway cookie.0 self.old grants self.new) }
        ensures kept { OnErr result (self.new ≡ self.old) }
        ensures lawful { IsQueue self.new }
    {
        if !self.has(cookie) {
            return Err(QueueError::NoLock);
        }
        let (queue, grants) = self.without(alloc, cookie)?;
        *self = queue;
        Ok(grants)
    }

    /// The queue without the locks of these lives, granted and waiting, once all is granted that may be then,
    /// and what was granted, in that order.
    pub fn ended(&self, alloc: Global, lives: &[Who]) -> Result<(Queue, Grants), Memory>
        ensures granted { IfOk result (λ new. AreGranted (without_lives lives.now self.now) new.1 new.0) }
        ensures lawful { IfOk result (λ new. IsQueue new.0) }
    {
        let granted = of_others(alloc, self.granted.as_slice(), lives)?;
        let waiting = of_others(alloc, &self.waiting.to_vec(alloc)?, lives)?;
        settled(alloc, granted, waiting)
    }

    /// The cookies of the granted locks in conflict with a waiting one, rising; none for a granted one.
    pub fn blockers(&self, alloc: Global, cookie: Cookie) -> Result<Cookies, QueueError>
        ensures no_lock { IsErrOf result QueueError.NoLock ↔ (is_in cookie.0 self.now ≡ false) }
        ensures errors { ¬ IsErrOf result QueueError.Twice }
        ensures rising { IfOk result IsRising }
        ensures all { IfOk result (λ cookies. IsPermutation (blocking cookie.0 self.now) cookies) }
    {
        if !self.has(cookie) {
            return Err(QueueError::NoLock);
        }
        let cookies = self.blocking(alloc, cookie)?;
        Ok(cookies)
    }

    /// The granted lock at this place, from 0, in the order in which they were granted; none past the last.
    pub fn granted(&self, at: usize) -> Option<&Grant>
        ensures lock { option_copied result ≡ slice_get self.now.granted at }
        ensures lawful { IsQueue self.now }
    {
        self.granted.as_slice().get(at)
    }

    /// The waiting lock at this place, from 0, in order of arrival; none past the last.
    pub fn waiting(&self, at: usize) -> Option<&Grant>
        ensures lock { option_copied result ≡ slice_get self.now.waiting at }
        ensures lawful { IsQueue self.now }
    {
        self.waiting.at(at)
    }

    /// The granted lock at this place, from 0, in rising cookie; none past the last.
    pub fn rising(&self, at: usize) -> Option<&Grant>
        ensures lock { IsAt at self.now.granted (option_copied result) }
        ensures lawful { IsQueue self.now }
    {
        self.granted.rising(at)
    }

    /// The granted locks, in the order in which they were granted.
    pub fn granted_locks(&self) -> &[Grant]
        ensures locks { result.now ≡ self.now.granted }
        ensures lawful { IsQueue self.now }
    {
        self.granted.as_slice()
    }

    /// The waiting locks, in order of arrival.
    pub fn waiting_locks(&self, alloc: Global) -> Result<Vec<Grant>, Memory>
        ensures locks { IfOk result (λ locks. locks.items ≡ self.now.waiting) }
        ensures lawful { IsQueue self.now }
    {
        self.waiting.to_vec(alloc)
    }

    /// The lock of this cookie, granted or waiting; none where no lock has it.
    pub fn find(&self, cookie: Cookie) -> Option<&Grant>
        ensures lock { option_copied result ≡ lock_of cookie.0 self.now }
        ensures lawful { IsQueue self.now }
    {
        match find(self.granted.as_slice(), cookie) {
            Some(lock) => Some(lock),
            None => self.waiting.find(cookie),
        }
    }

    /// Whether a granted lock has this cookie.
    pub fn is_granted(&self, cookie: Cookie) -> bool
        ensures granted { result ≡ has cookie.0 self.now.granted }
        ensures lawful { IsQueue self.now }
    {
        has(self.granted.as_slice(), cookie)
    }

    /// Whether a lock, granted or waiting, is of one of these lives.
    pub fn has_of(&self, lives: &[Who]) -> bool
        ensures some { result ≡ has_of lives.now self.now }
        ensures lawful { IsQueue self.now }
    {
        has_of(lives, self.granted.as_slice()) || self.waiting.has_of(lives)
    }

    /// Whether there is no lock.
    pub fn is_empty(&self) -> bool
        ensures none { IsTrue result ↔ (self.now ≡ empty) }
    {
        self.granted.as_slice().is_empty() && self.waiting.is_empty()
    }

    /// Whether a lock of the queue has this cookie.
    pub fn has(&self, cookie: Cookie) -> bool
        ensures found { result ≡ is_in cookie.0 self.now }
        ensures lawful { IsQueue self.now }
    {
        has(self.granted.as_slice(), cookie) || self.waiting.has(cookie)
    }

    /// Adds a lock under a cookie that is new here.
    fn admit(&mut self, alloc: Global, lock: Grant) -> Result<Placed, Memory>
        requires ask { IsOrdered lock.ask.policy }
        requires new { is_in lock.cookie.0 self.old ≡ false }
        ensures placed { IfOk result (λ answer. answer ≡ placed lock self.old) }
        ensures added { OnOk result (self.new ≡ with_lock lock self.old) }
        ensures kept { OnErr result (self.new ≡ self.old) }
        ensures lawful { IsQueue self.new }
    {
        let waiting = self.waiting.to_vec(alloc)?;
        if has_to_wait(&lock.ask, self.granted.as_slice(), &waiting) {
            self.waiting.push(lock)?;
            return Ok(Placed::Waiting);
        }
        let grant = as_granted(alloc, lock, self.granted.as_slice(), &waiting)?;
        self.granted.push(alloc, grant)?;
        Ok(Placed::Granted(grant.ask.policy))
    }

    /// The queue without the lock of a cookie, once all is granted that may be then, and what was granted.
    fn without(&self, alloc: Global, cookie: Cookie) -> Result<(Queue, Grants), Memory>
        ensures granted { IfOk result (λ new. IsTakenAway cookie.0 self.now new.1 new.0) }
        ensures lawful { IfOk result (λ new. IsQueue new.0) }
    {
        let granted = other_than(alloc, self.granted.as_slice(), cookie)?;
        let waiting = other_than(alloc, &self.waiting.to_vec(alloc)?, cookie)?;
        settled(alloc, granted, waiting)
    }

    /// The cookies of the granted locks in conflict with the waiting one of this cookie, rising.
    fn blocking(&self, alloc: Global, cookie: Cookie) -> Result<Cookies, Memory>
        ensures rising { IfOk result IsRising }
        ensures all { IfOk result (λ cookies. IsPermutation (blocking cookie.0 self.now) cookies) }
    {
        match self.waiting.find(cookie) {
            Some(lock) => in_conflict(alloc, &lock.ask, self.granted.as_slice()),
            None => Ok(Cookies::new(alloc)),
        }
    }
}

/// The queue of these locks, once all that may be granted is granted, and what was granted.
fn settled(
    alloc: Global,
    mut granted: Vec<Grant>,
    mut waiting: Vec<Grant>,
) -> Result<(Queue, Grants), Memory>
    requires { IsCoherent (queue_with granted.items waiting.items) }
    ensures granted { IfOk result (λ new. AreGranted (queue_with granted.items waiting.items) new.1 new.0) }
    ensures lawful { IfOk result (λ new. IsQueue new.0) }
{
    let grants = settle(alloc, &mut granted, &mut waiting)?;
    let granted = Granted::of(alloc, granted)?;
    let waiting = Arrivals::from_slice(alloc, &waiting)?;
    Ok((Queue { granted, waiting }, grants))
}
