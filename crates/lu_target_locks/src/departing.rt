//! What ends with lives that leave, and what comes of the queues that go on then.

ghost use Rattle.std.specs.Prelude.{◌≡◌, ◌++◌, [], filter_map, IfOk, OnOk};
ghost use Rattle.std.specs.List.{cons_option};
ghost use Rattle.lu_spec_target.specs.Lives.{is_life};
ghost use Rattle.lu_target_locks.specs.Leaving.{asked_by, ended_under, ended_all, IsDeparture, AreDepartures, AreTheirs, found_all, granted_on, called_steps, HasGoneOn, AllHaveGoneOn};

use super::calling::call_all;
use lu_base::{Cookie, Cookies, Lock, Memory, Resource, Sequence, Who, Xid};
use lu_callback::{Callbacks, Kind};
use lu_lockspace::Lockspace;
use lu_queue::Grant;
use std::alloc::Global;

/// A request for which the holder of a lock was asked how long its object is, by its life and number.
#[derive(Clone, Copy, Debug, PartialEq, Eq)]
pub struct Asker {
    pub who: Who,
    pub xid: Xid,
}

/// A lock that ends with its life.
#[derive(Debug, Drop)]
pub struct EndedLock {
    pub lock: Lock,
    /// Who isn't answered any more by its holder, in the order in which they asked; none of them leaves.
    pub askers: Sequence<Asker>,
}

/// A life that leaves.
#[derive(Debug, Drop)]
pub struct Departure {
    pub who: Who,
    /// Its granted locks, in rising cookie.
    pub released: Sequence<EndedLock>,
}

/// What comes of a queue that goes on.
#[derive(Clone, Copy, Debug, PartialEq, Eq)]
pub enum QueueStep {
    /// A lock that had waited is granted, as far as it grows.
    Granted(Lock),
    /// A granted lock is called back, which wasn't before.
    Called(Lock),
}

/// Lives that left.
#[derive(Debug, Drop)]
pub struct Left {
    /// In the order in which the lives were named.
    pub departures: Sequence<Departure>,
    /// What comes of the queues then: by rising Fid and stripe, and on one resource first what is granted.
    pub steps: Sequence<QueueStep>,
}

// ---- what the lives had

/// Whether a life is one of these.
fn is_life(who: Who, lives: &[Who]) -> bool
    ensures { result ≡ is_life who lives.now }
{
    lives.iter().any(|life| who == *life)
}

/// Who of those that stay is behind a thing that was asked of a holder.
fn asker_of(kind: Kind, gone: &[Who]) -> Option<Asker>
    ensures { result ≡ asked_by gone.now kind }
{
    match kind {
        Kind::Block => None,
        Kind::Glimpse(who, xid) => {
            if is_life(who, gone) {
                None
            } else {
                Some(Asker { who, xid })
            }
        }
    }
}

/// Those of all that was asked of one holder.
pub(crate) fn all_askers(alloc: Global, kinds: &[Kind], gone: &[Who]) -> Result<Vec<Asker>, Memory>
    ensures askers { IfOk result (λ askers. askers.items ≡ filter_map (asked_by gone.now) kinds.now) }
{
    let askers: Vec<Asker> = kinds
        .iter()
        .filter_map(|kind| asker_of(*kind, gone))
        .collect(alloc)?;
    Ok(askers)
}

/// The lock of this cookie, with those who have asked its holder in vain.
fn ended(
    alloc: Global,
    space: &Lockspace,
    calls: &Callbacks,
    gone: &[Who],
    cookie: Cookie,
) -> Result<Option<EndedLock>, Memory>
    ensures ended { IfOk result (λ ended. ended ≡ ended_under space.now calls.now gone.now cookie) }
{
    let Some(lock) = space.find(cookie) else {
        return Ok(None);
    };
    let kinds = calls.kinds(alloc, cookie)?;
    let askers = Sequence::from(all_askers(alloc, kinds.as_slice(), gone)?);
    Ok(Some(EndedLock { lock, askers }))
}

/// Puts it behind the others, where there is one.
fn add_ended(all: &mut Vec<EndedLock>, ended: Option<EndedLock>) -> Result<(), Memory>
    ensures added { OnOk result (all.new.items ≡ all.old.items ++ cons_option ended []) }
{
    match ended {
        Some(ended) => {
            all.push(ended)?;
            Ok(())
        }
        None => Ok(()),
    }
}

/// The locks of these cookies, each with them.
fn all_ended(
    alloc: Global,
    space: &Lockspace,
    calls: &Callbacks,
    gone: &[Who],
    cookies: &[Cookie],
) -> Result<Sequence<EndedLock>, Memory>
    ensures ended { IfOk result (λ all. all ≡ ended_all space.now calls.now gone.now cookies.now) }
{
    let mut all = Vec::new(alloc);
    for cookie in cookies {
        let ended = ended(alloc, space, calls, gone, *cookie)?;
        add_ended(&mut all, ended)?;
    }
    Ok(Sequence::from(all))
}

/// A life that leaves, with what it has granted.
fn departs(
    alloc: Global,
    space: &Lockspace,
    calls: &Callbacks,
    gone: &[Who],
    who: Who,
) -> Result<Departure, Memory>
    ensures departure { IfOk result (λ departure. IsDeparture space.now calls.now gone.now who departure) }
{
    let cookies = space.of(alloc, who)?;
    let released = all_ended(alloc, space, calls, gone, cookies.as_slice())?;
    Ok(Departure { who, released })
}

/// All these lives, with what they have granted.
pub(crate) fn departures(
    alloc: Global,
    space: &Lockspace,
    calls: &Callbacks,
    gone: &[Who],
) -> Result<Sequence<Departure>, Memory>
    ensures departures { IfOk result (λ departures. AreDepartures space.now calls.now gone.now gone.now departures) }
{
    let mut departures = Vec::new(alloc);
    for who in gone {
        departures.push(departs(alloc, space, calls, gone, *who)?)?;
    }
    Ok(Sequence::from(departures))
}

/// The cookies of all that these lives have granted.
pub(crate) fn cookies_of(alloc: Global, space: &Lockspace, gone: &[Who]) -> Result<Cookies, Memory>
    ensures theirs { IfOk result (λ cookies. AreTheirs space.now gone.now cookies) }
{
    let mut cookies: Vec<Cookie> = Vec::new(alloc);
    for who in gone {
        cookies.extend_from_slice(space.of(alloc, *who)?.as_slice())?;
    }
    Ok(Cookies::from(cookies))
}

// ---- the queues go on

/// These locks, which were granted now.
pub(crate) fn found(alloc: Global, space: &Lockspace, grants: &[Grant]) -> Result<Vec<Lock>, Memory>
    ensures found { IfOk result (λ locks. locks.items ≡ found_all space.now grants.now) }
{
    let locks: Vec<Lock> = grants
        .iter()
        .filter_map(|grant| space.find(grant.cookie))
        .collect(alloc)?;
    Ok(locks)
}

/// Tells of those of these locks that are on a resource.
fn tell_granted(
    steps: &mut Vec<QueueStep>,
    granted: &[Lock],
    resource: Resource,
) -> Result<(), Memory>
    ensures told { OnOk result (steps.new.items ≡ steps.old.items ++ granted_on resource granted.now) }
{
    for lock in granted {
        if lock.resource == resource {
            steps.push(QueueStep::Granted(*lock))?;
        }
    }
    Ok(())
}

/// Tells of these locks, which were called back.
fn tell_called(steps: &mut Vec<QueueStep>, called: &[Lock]) -> Result<(), Memory>
    ensures told { OnOk result (steps.new.items ≡ steps.old.items ++ called_steps called.now) }
{
    for lock in called {
        steps.push(QueueStep::Called(*lock))?;
    }
    Ok(())
}

/// The queue of a resource goes on: of these locks some are granted there, and then others are called back.
fn goes_on(
    alloc: Global,
    calls: &mut Callbacks,
    space: &Lockspace,
    tick: u64,
    granted: &[Lock],
    resource: Resource,
    steps: &mut Vec<QueueStep>,
) -> Result<(), Memory>
    ensures gone { OnOk result ((first : _) × (steps.new.items ≡ steps.old.items ++ first)
        × HasGoneOn space.now tick granted.now resource calls.old first calls.new) }
{
    tell_granted(steps, granted, resource)?;
    let cookies = space.blockers(alloc, resource)?;
    let called = call_all(alloc, calls, space, tick, cookies.as_slice())?;
    tell_called(steps, called.as_slice())
}

/// The queues of these resources go on, one after another. After want of memory some locks may be called back.
pub(crate) fn all_go_on(
    alloc: Global,
    calls: &mut Callbacks,
    space: &Lockspace,
    tick: u64,
    granted: &[Lock],
    resources: &[Resource],
) -> Result<Sequence<QueueStep>, Memory>
    ensures gone { IfOk result (λ steps. AllHaveGoneOn space.now tick granted.now resources.now calls.old steps
        calls.new) }
{
    let mut steps = Vec::new(alloc);
    for resource in resources {
        goes_on(alloc, calls, space, tick, granted, *resource, &mut steps)?;
    }
    Ok(Sequence::from(steps))
}
