//! The locks of a target, with what it has asked of their holders.

ghost use Rattle.std.specs.Prelude.{◌≡◌, ◌⊎◌, ℕ, ◌+◌, ◌<◌, ◌≤◌, false, [], length, Some, is_some, slice_get, IfOk, IfErr, OnOk, OnErr};
ghost use Rattle.lu_lock.specs.Overlap.{IsOrdered};
ghost use Rattle.lu_spec_target.specs.Objects.{lock_of};
ghost use Rattle.lu_spec_target.specs.Names.{in_way};
ghost use Rattle.lu_spec_target.specs.Glimpses.{asked_for};
ghost use Rattle.lu_spec_target.specs.Phase.{first_of};
ghost use Rattle.lu_spec_target.specs.Leaving.{condemned, sends_again};
ghost use Rattle.lu_spec_target.specs.Outcomes.{restored};
ghost use Rattle.lu_spec_target.specs.States.{Target, after};
ghost use Rattle.lu_spec_entries.specs.Carried.{Glimpse};
ghost use Rattle.lu_spec_entries.specs.Words.{Ends, Tick};
ghost use Rattle.lu_target_refines.specs.Callbacks.{ShowsCalls};
ghost use Rattle.lu_target_locks.specs.Adding.{IsAdded, IsAdmitted};
ghost use Rattle.lu_target_locks.specs.Admitted.{AreAdmitted};
ghost use Rattle.lu_target_locks.specs.Asking.{kinds_asked, IsGlimpsed, AreShared, cookies_of as row_cookies, AreCalled};
ghost use Rattle.lu_target_locks.specs.Departing.{IsLeft};
ghost use Rattle.lu_target_locks.specs.Reminding.{again_told};
ghost use Rattle.lu_target_locks.specs.Standing.{AreOrdered, StandAgain};
ghost use Rattle.lu_target_locks.specs.Servers.{greatest, most_cookies, most_ticks, enqueued_of, Shows, ShowsCounts, HasNoLocks, IsEnqueued, IsCancel, AreCalledBack};
ghost use Rattle.lu_target_locks.specs.declared.faults.LockFault.TheVariants as lock_fault;

use super::calling::call_all;
use super::departing::{Left, all_go_on, cookies_of, departures, found};
use super::expiring::holders;
use super::faults::LockFault;
use super::reminding::{Reminder, reminders};
use super::standing::all_stand;
use lu_base::{
    Ask, Cookie, Cookies, Lives, Lock, Locks, Memory, Mode, Policy, Resource, Sequence, Who, Xid,
};
use lu_callback::{Asked, Callbacks, Kind};
use lu_lockspace::Lockspace;
use lu_msg::SizeReport;
use lu_part::{Parts, Want, Wants};
use lu_queue::{Grants, Placed};
use std::alloc::Global;
use std::marker::Model;

/// What became of a lock that was asked for.
#[derive(Clone, Copy, Debug, PartialEq, Eq)]
pub enum Enqueued {
    /// It is granted, as far as it grows.
    Granted(Lock),
    /// It waits, as it was asked for.
    Waiting(Lock),
}

/// A lock that was released, and what was granted on its resource then.
#[derive(Debug, Drop)]
pub struct Released {
    pub lock: Lock,
    /// The locks that had waited, in the order in which they were granted.
    pub granted: Grants,
}

/// A lock that was asked for, as it was placed.
fn as_placed(lock: Lock, placed: Placed) -> Enqueued
    ensures { result ≡ enqueued_of lock placed }
{
    match placed {
        Placed::Granted(policy) => Enqueued::Granted(Lock {
            ask: Ask { policy, ..lock.ask },
            ..lock
        }),
        Placed::Waiting => Enqueued::Waiting(lock),
    }
}

/// The locks of a target, granted and waiting, and what it has asked of their holders.
#[derive(Debug, Drop)]
pub struct LockServer {
    pub(crate) space: Lockspace,
    pub(crate) calls: Callbacks,
    pub(crate) boot: u32,
    /// How many cookies the boot has given.
    pub(crate) count: u32,
    ticks: u64,
}

impl Model for LockServer {
    ghost use Rattle.lu_target_locks.specs.Servers.{ServerState};

    ghost Value = { ServerState };

    ghost view = { λ s. record {
      space = s.space;
      asked = s.calls;
      boot = s.boot;
      count = s.count;
      ticks = s.ticks;
    } };
}

impl LockServer {
    /// No locks, at the start of this boot. It takes no memory yet.
    pub fn new(alloc: Global, boot: u32) -> LockServer
        ensures shows { (v : Target) → HasNoLocks boot v → Shows result v }
        ensures counts { (v : Target) → v.boot ≡ boot → v.cookie ≡ first_of boot → v.ticks ≡ 0
            → ShowsCounts result v }
    {
        LockServer {
            space: Lockspace::new(alloc),
            calls: Callbacks::new(alloc),
            boot,
            count: 0,
            ticks: 0,
        }
    }

    /// The cookie of the next lock. `CookiesSpent` exactly where this boot's count stands at 2^32 - 1.
    pub fn next_cookie(&self) -> Result<Cookie, LockFault>
        ensures next { IfOk result (λ cookie. (v : Target) → Shows self.now v → cookie.0 ≡ v.cookie + 1) }
        ensures value { IfOk result (λ cookie. cookie.0 ≡ greatest self.now + 1) }
        ensures room { IfOk result (λ _. self.now.count < most_cookies) }
        ensures spent { IfErr result (λ fault. (fault ≡ lock_fault.CookiesSpent) × (self.now.count ≡ most_cookies)) }
    {
        if self.count == u32::MAX {
            return Err(LockFault::CookiesSpent);
        }
        let first = u64::from(self.boot) << 32;
        Ok(Cookie(first + u64::from(self.count) + 1))
    }

    /// A lock is asked for, under the next cookie: it is granted, or waits. After an error nothing has changed;
    /// `CookiesSpent` exactly where this boot's count stands at 2^32 - 1.
    pub fn enqueue(
        &mut self,
        alloc: Global,
        resource: Resource,
        ask: Ask,
    ) -> Result<Enqueued, LockFault>
        requires ordered { IsOrdered ask.policy }
        ensures enqueued { IfOk result (λ answer. IsEnqueued resource ask answer self.old self.new) }
        ensures room { IfOk result (λ _. self.old.count < most_cookies) }
        ensures spent { IfErr result (λ fault. ((fault ≡ lock_fault.CookiesSpent) × (self.old.count ≡ most_cookies))
            ⊎ ((fault ≡ lock_fault.Memory) × (self.old.count < most_cookies))) }
        ensures kept { OnErr result (self.new ≡ self.old) }
    {
        let (lock, placed) = self.add(alloc, resource, ask)?;
        Ok(as_placed(lock, placed))
    }

    /// Adds a lock under the next cookie. After an error nothing has changed.
    fn add(
        &mut self,
        alloc: Global,
        resource: Resource,
        ask: Ask,
    ) -> Result<(Lock, Placed), LockFault>
        requires ordered { IsOrdered ask.policy }
        ensures lock { IfOk result (λ both. both.0
            ≡ record { cookie = both.0.cookie; resource = resource; ask = ask }) }
        ensures added { IfOk result (λ both. IsAdded resource ask both.0.cookie both.1 self.old self.new) }
        ensures room { IfOk result (λ _. self.old.count < most_cookies) }
        ensures spent { IfErr result (λ fault. ((fault ≡ lock_fault.CookiesSpent) × (self.old.count ≡ most_cookies))
            ⊎ ((fault ≡ lock_fault.Memory) × (self.old.count < most_cookies))) }
        ensures kept { OnErr result (self.new ≡ self.old) }
    {
        let cookie = self.next_cookie()?;
        let Ok(placed) = self.space.enqueue(alloc, cookie, resource, ask) else {
            return Err(LockFault::Memory);
        };
        self.count += 1;
        let lock = Lock {
            cookie,
            resource,
            ask,
        };
        Ok((lock, placed))
    }

    /// Calls back what is in the way of the locks that wait on a resource, and answers the locks that weren't called back
    /// before, in the order in which they are called back. After want of memory some may be called back.
    pub fn call_back(&mut self, alloc: Global, resource: Resource) -> Result<Locks, Memory>
        ensures called { IfOk result (λ locks. AreCalledBack resource locks self.old self.new) }
    {
        let cookies = self.space.blockers(alloc, resource)?;
        let locks = call_all(
            alloc,
            &mut self.calls,
            &self.space,
            self.ticks,
            cookies.as_slice(),
        )?;
        Ok(locks)
    }

    /// The lock of this cookie, where it is granted to this life.
    pub fn find(&self, who: Who, cookie: Cookie) -> Option<Lock>
        ensures lock { (v : Target) → Shows self.now v → result ≡ lock_of who cookie v.granted }
    {
        if !self.space.is_granted(cookie) {
            return None;
        }
        let lock = self.space.find(cookie)?;
        if lock.ask.who == who {
            Some(lock)
        } else {
            None
        }
    }

    /// A life gives back the lock of this cookie: what was outstanding of it ends, and what may be granted then on its
    /// resource is granted. None, and nothing has changed, where no lock of this cookie is granted to that life. After
    /// want of memory nothing has changed.
    pub fn cancel(
        &mut self,
        alloc: Global,
        who: Who,
        cookie: Cookie,
    ) -> Result<Option<Released>, Memory>
        ensures released { IfOk result (λ released. IsCancel who cookie released self.old self.new) }
        ensures kept { OnErr result (self.new ≡ self.old) }
    {
        let Some(lock) = self.find(who, cookie) else {
            return Ok(None);
        };
        let Ok(granted) = self.space.cancel(alloc, cookie) else {
            return Err(Memory);
        };
        self.calls.answered(cookie);
        Ok(Some(Released { lock, granted }))
    }

    /// The cookies of the granted locks that guard one of these parts, rising: they are in the way of a change of these.
    pub fn in_way(&self, alloc: Global, parts: &Parts) -> Result<Cookies, Memory>
        ensures cookies { IfOk result (λ cookies. (v : Target) → Shows self.now v → AreShared v.granted
            → cookies ≡ row_cookies (in_way v.granted parts.now)) }
    {
        let cookies = self.space.clash(alloc, parts)?;
        Ok(cookies)
    }

    /// Calls back the granted locks of these cookies, and answers those that weren't called back before, in that order.
    /// After want of memory some may be called back.
    pub fn call_back_all(&mut self, alloc: Global, cookies: &Cookies) -> Result<Locks, Memory>
        ensures called { IfOk result (λ locks. AreCalled cookies.now locks self.old self.new) }
    {
        let locks = call_all(
            alloc,
            &mut self.calls,
            &self.space,
            self.ticks,
            cookies.as_slice(),
        )?;
        Ok(locks)
    }

    /// Asks the holder of a granted lock for the size of its object, for a request of this life and number. False, and
    /// nothing has changed, where that was asked before and isn't answered. After want of memory nothing has changed.
    pub fn ask_size(&mut self, cookie: Cookie, who: Who, xid: Xid) -> Result<bool, Memory>
        ensures asked { IfOk result (λ new. IsGlimpsed cookie who xid new self.old self.new) }
        ensures same { IfOk result (λ new. new ≡ false → self.new ≡ self.old) }
        ensures kept { OnErr result (self.new ≡ self.old) }
    {
        let new = self.calls.ask(cookie, Kind::Glimpse(who, xid), self.ticks)?;
        Ok(new)
    }

    /// The holder of a lock has said how long its object is. False, and nothing has changed, where that isn't outstanding.
    pub fn report(&mut self, report: &SizeReport) -> bool
        ensures was { (v : Target) → Shows self.old v → result ≡ is_some (asked_for report.now v.glimpses) }
        ensures shows { (v : Target) (g : Glimpse) → Shows self.old v → asked_for report.now v.glimpses ≡ Some g
            → Shows self.new (after v (Ends g)) }
        ensures kept { result ≡ false → self.new ≡ self.old }
    {
        self.calls
            .glimpsed(report.cookie, report.for_who, report.xid)
    }

    /// What is outstanding of a lock, from place 0 on: its block first, and then the glimpses in the order in which they
    /// were asked; none past the last.
    pub fn outstanding(&self, cookie: Cookie, at: usize) -> Option<Kind>
        ensures asked { (v : Target) (l : Lock) → Shows self.now v → l.cookie ≡ cookie
            → result ≡ slice_get (kinds_asked v l) at }
    {
        self.calls.of(cookie, at)
    }

    /// One tick more. `TicksSpent`, and nothing has changed, exactly where the count stands at 2^64 - 1.
    pub fn tick(&mut self) -> Result<(), LockFault>
        ensures shows { OnOk result ((v : Target) → Shows self.old v → Shows self.new (after v Tick)) }
        ensures counts { OnOk result ((v : Target) → ShowsCounts self.old v → ShowsCounts self.new (after v Tick)) }
        ensures room { IfOk result (λ _. self.old.ticks < most_ticks) }
        ensures spent { IfErr result (λ fault. (fault ≡ lock_fault.TicksSpent) × (self.old.ticks ≡ most_ticks)) }
        ensures kept { OnErr result (self.new ≡ self.old) }
    {
        if self.ticks == u64::MAX {
            return Err(LockFault::TicksSpent);
        }
        self.ticks += 1;
        Ok(())
    }

    /// The locks of an act of this life at a target of names: one for each want, under the next cookies, all granted.
    /// `CookiesSpent`, and nothing has changed, exactly where the boot has fewer cookies left than there are wants. After
    /// want of memory some of them may be granted.
    pub fn admit(&mut self, alloc: Global, who: Who, wants: &Wants) -> Result<Locks, LockFault>
        ensures admitted { IfOk result (λ locks. AreAdmitted who wants.now locks self.old self.new) }
        ensures room { IfOk result (λ _. self.old.count + length wants.now ≤ most_cookies) }
        ensures spent { IfErr result (λ fault.
            ((fault ≡ lock_fault.CookiesSpent) × (most_cookies < self.old.count + length wants.now)
            × (self.new ≡ self.old))
            ⊎ ((fault ≡ lock_fault.Memory) × (self.old.count + length wants.now ≤ most_cookies))) }
    {
        if u64::from(u32::MAX - self.count) < wants.len() as u64 {
            return Err(LockFault::CookiesSpent);
        }
        let mut locks = Vec::new(alloc);
        for want in wants.as_slice() {
            let Ok(lock) = self.admit_one(alloc, who, *want) else {
                return Err(LockFault::Memory);
            };
            if locks.push(lock).is_err() {
                return Err(LockFault::Memory);
            }
        }
        Ok(Locks::from(locks))
    }

    /// One of them.
    fn admit_one(&mut self, alloc: Global, who: Who, want: Want) -> Result<Lock, LockFault>
        ensures admitted { IfOk result (λ lock. IsAdmitted who want lock self.old self.new) }
    {
        let resource = Resource {
            fid: want.fid,
            stripe: 0,
        };
        let ask = Ask {
            who,
            mode: Mode::PR,
            policy: Policy::Bits(want.bits),
        };
        let (lock, _) = self.add(alloc, resource, ask)?;
        Ok(lock)
    }

    /// These lives leave with the commit that takes their slots: what each had granted ends, with the glimpses for
    /// requests of others that wait for it; and then all queues go on. After want of memory some locks may be away, or
    /// called back.
    pub fn leave(&mut self, alloc: Global, gone: &[Who]) -> Result<Left, Memory>
        ensures left { IfOk result (λ left. IsLeft gone.now left self.old self.new) }
    {
        let departures = departures(alloc, &self.space, &self.calls, gone)?;
        let resources = self.space.waited_on(alloc)?;
        let cookies = cookies_of(alloc, &self.space, gone)?;
        let grants = self.space.cancel_all(alloc, gone)?;
        self.calls.end_lives(gone, &cookies);
        let granted = found(alloc, &self.space, grants.as_slice())?;
        let steps = all_go_on(
            alloc,
            &mut self.calls,
            &self.space,
            self.ticks,
            &granted,
            resources.as_slice(),
        )?;
        Ok(Left { departures, steps })
    }

    /// The lives of the locks that were called back at least `age` ticks ago, by client and life, each once.
    pub fn due(&self, alloc: Global, age: u64) -> Result<Lives, Memory>
        ensures due { IfOk result (λ lives. (v : Target) → Shows self.now v → v.setting.expire ≡ age
            → lives ≡ condemned v v.called) }
    {
        let cookies = self.calls.due(alloc, self.ticks, age)?;
        let lives = holders(alloc, &self.space, cookies.as_slice())?;
        Ok(lives)
    }

    /// All that is outstanding, for `again`.
    pub fn asked(&self, alloc: Global) -> Result<Sequence<Asked>, Memory>
        ensures asked { IfOk result (λ asked. (v : Target) → Shows self.now v → ShowsCalls asked v) }
    {
        let asked = self.calls.all(alloc)?;
        Ok(asked)
    }

    /// What was outstanding before, and still is: in rising cookie, for one lock its block first and then its glimpses.
    pub fn again(
        &self,
        alloc: Global,
        before: &Sequence<Asked>,
    ) -> Result<Sequence<Reminder>, Memory>
        ensures again { IfOk result (λ reminders. (v w : Target) → ShowsCalls before.now v → Shows self.now w
            → sends_again w v.called v.glimpses w.granted ≡ again_told w reminders) }
    {
        let reminders = reminders(alloc, &self.calls, &self.space, before.as_slice())?;
        Ok(Sequence::from(reminders))
    }

    /// At the close of a window these locks stand again, in their order, but for those that meet one before; it answers
    /// them. Whatever locks there were are forgotten. After want of memory nothing has changed. It answers that too where
    /// a cookie comes twice.
    pub fn restore(&mut self, alloc: Global, locks: &Locks) -> Result<Locks, Memory>
        requires ordered { AreOrdered locks.now }
        ensures stand { IfOk result (λ standing. standing ≡ restored [] locks.now) }
        ensures shows { OnOk result ((v w : Target) → ShowsCounts self.old v → StandAgain locks.now v w
            → Shows self.new w) }
        ensures kept { OnErr result (self.new ≡ self.old) }
    {
        let (space, standing) = all_stand(alloc, locks.as_slice())?;
        self.space = space;
        self.calls = Callbacks::new(alloc);
        Ok(standing)
    }
}
