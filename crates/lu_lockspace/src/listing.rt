//! What is told of the locks of a queue.

ghost use Rattle.std.specs.Prelude.{◌≡◌, ℕ, ◌+◌, ◌<◌, ◌≤◌, ◌&&◌, not, false, List, [], IfOk, map, filter, length, slice_index_or, IsPermutation};
ghost use Rattle.std.specs.List.{list_any};
ghost use Rattle.lu_lock.specs.Conflict.{conflict};
ghost use Rattle.lu_queue.specs.Queues.{lock_of, same_who, is_of, IsRising, IsOnce};
ghost use Rattle.lu_lockspace.specs.Ending.{cookies_of, taken};
ghost use Rattle.std.specs.Option.{option_map};
ghost use Rattle.lu_lockspace.specs.Spaces.{lock_on, is_guarded, meets_guard, is_told, blocking_more, AreInOrder, AreBlocking, AreBlockers};
ghost use Rattle.lu_base.specs.declared.locks.Resource.{Resource};
ghost use Rattle.lu_lockspace.specs.Guarded.{is_listed, IsAdded, AreApart, AreGuards, guarded_in};

use lu_base::{Ask, Cookie, Cookies, Lock, Memory, Mode, Resource, Who};
use lu_lock::conflict;
use lu_part::{Part, guard};
use lu_queue::{Grant, Queue};
use std::alloc::Global;

/// A lock of a queue as one of the target's, on this resource.
pub(crate) fn lock_on(resource: Resource, grant: Grant) -> Lock
    ensures { result ≡ lock_on resource grant }
{
    Lock {
        cookie: grant.cookie,
        resource,
        ask: grant.ask,
    }
}

/// The lock of this cookie in the queue of a resource.
pub(crate) fn lock_in(resource: Resource, queue: &Queue, cookie: Cookie) -> Option<Lock>
    ensures { result ≡ option_map (lock_on resource) (lock_of cookie.0 queue.now) }
{
    let grant = queue.find(cookie)?;
    Some(lock_on(resource, *grant))
}

/// The cookies, sorted.
pub(crate) fn sorted(mut cookies: Vec<Cookie>) -> Cookies
    ensures same { IsPermutation cookies.items result }
    ensures rising { AreInOrder result }
{
    cookies.sort_unstable();
    Cookies::from(cookies)
}

/// The cookies of the locks of a life.
pub(crate) fn of_life(alloc: Global, locks: &[Grant], who: Who) -> Result<Vec<Cookie>, Memory>
    ensures { IfOk result (λ cookies. cookies.items
        ≡ map (λ lock. lock.cookie) (filter (λ lock. same_who lock.ask.who who) locks.now)) }
{
    let cookies = locks
        .iter()
        .filter(|lock| lock.ask.who == who)
        .map(|lock| lock.cookie)
        .collect(alloc)?;
    Ok(cookies)
}

/// Whether a lock is of one of these lives.
fn is_of(lives: &[Who], lock: &Grant) -> bool
    ensures { result ≡ is_of lives.now lock.now }
{
    lives.iter().any(|who| *who == lock.ask.who)
}

/// The cookies of the locks of these lives in a list.
fn of_lives(alloc: Global, locks: &[Grant], lives: &[Who]) -> Result<Vec<Cookie>, Memory>
    ensures { IfOk result (λ cookies. cookies.items ≡ cookies_of lives.now locks.now) }
{
    let cookies = locks
        .iter()
        .filter(|lock| is_of(lives, lock))
        .map(|lock| lock.cookie)
        .collect(alloc)?;
    Ok(cookies)
}

/// The cookies of the locks of these lives in a queue, granted and waiting.
pub(crate) fn taken_in(alloc: Global, queue: &Queue, lives: &[Who]) -> Result<Vec<Cookie>, Memory>
    ensures { IfOk result (λ cookies. cookies.items ≡ taken lives.now queue.now) }
{
    let mut cookies = of_lives(alloc, queue.granted_locks(), lives)?;
    let waiting = of_lives(alloc, &queue.waiting_locks(alloc)?, lives)?;
    cookies.extend_from_slice(&waiting)?;
    Ok(cookies)
}

/// Whether a lock meets the guard of a part, taken in mode EX.
fn is_guarded(part: &Part, lock: &Lock) -> bool
    ensures { result ≡ is_guarded part.now lock.now }
{
    let (resource, policy) = guard(part);
    let exclusive = Ask {
        who: lock.ask.who,
        mode: Mode::EX,
        policy,
    };
    lock.resource == resource && conflict(&exclusive, &lock.ask)
}

/// Whether a lock meets the guard of one of the parts.
fn meets_guard(parts: &[Part], lock: &Lock) -> bool
    ensures { result ≡ meets_guard parts.now lock.now }
{
    parts.iter().any(|part| is_guarded(part, lock))
}

/// The cookies of the locks on this resource that meet a guard of the parts.
pub(crate) fn guarded(
    alloc: Global,
    resource: Resource,
    locks: &[Grant],
    parts: &[Part],
) -> Result<Vec<Cookie>, Memory>
    ensures { IfOk result (λ cookies. cookies.items ≡ guarded_in resource parts.now locks.now) }
{
    let cookies = locks
        .iter()
        .filter(|lock| meets_guard(parts, &lock_on(resource, **lock)))
        .map(|lock| lock.cookie)
        .collect(alloc)?;
    Ok(cookies)
}

/// Whether the resource is in the list.
fn is_listed(resources: &[Resource], resource: Resource) -> bool
    ensures { result ≡ is_listed resource resources.now }
{
    resources.iter().any(|other| resource == *other)
}

/// Adds a resource where it isn't in the list.
fn add_resource(resources: &mut Vec<Resource>, resource: Resource) -> Result<(), Memory>
    ensures once { AreApart resources.old.items → AreApart resources.new.items }
    ensures added { IfOk result (λ _. IsAdded resource resources.old.items resources.new.items) }
{
    if is_listed(resources, resource) {
        return Ok(());
    }
    resources.push(resource)?;
    Ok(())
}

/// The resources of the guards of the parts, each once.
pub(crate) fn guards(alloc: Global, parts: &[Part]) -> Result<Vec<Resource>, Memory>
    ensures { IfOk result (λ resources. AreGuards parts.now resources.items) }
{
    let mut resources = Vec::new(alloc);
    for part in parts {
        add_resource(&mut resources, guard(part).0)?;
    }
    Ok(resources)
}

/// Whether the cookie is in the list.
fn is_told(told: &[Cookie], cookie: Cookie) -> bool
    ensures { result ≡ is_told cookie told.now }
{
    told.iter().any(|other| *other == cookie)
}

/// The cookies of the granted locks in conflict with an ask, but for those that were told before.
fn more(alloc: Global, ask: &Ask, granted: &[Grant], told: &[Cookie]) -> Result<Vec<Cookie>, Memory>
    ensures { IfOk result (λ cookies. cookies.items ≡ blocking_more ask.now granted.now told.now) }
{
    let cookies = granted
        .iter()
        .filter(|other| conflict(ask, &other.ask) && !is_told(told, other.cookie))
        .map(|other| other.cookie)
        .collect(alloc)?;
    Ok(cookies)
}

/// The same, rising.
fn more_rising(
    alloc: Global,
    ask: &Ask,
    granted: &[Grant],
    told: &[Cookie],
) -> Result<Cookies, Memory>
    requires { IsOnce granted.now }
    ensures same { IfOk result (IsPermutation (blocking_more ask.now granted.now told.now)) }
    ensures rising { IfOk result IsRising }
{
    Ok(sorted(more(alloc, ask, granted, told)?))
}

/// For each waiting lock in order, the granted locks that block it in rising order, each once.
fn blocking(alloc: Global, granted: &[Grant], waiting: &[Grant]) -> Result<Cookies, Memory>
    requires { IsOnce granted.now }
    ensures { IfOk result (AreBlocking granted.now waiting.now []) }
{
    let mut cookies = Vec::new(alloc);
    for lock in waiting {
        let first = more_rising(alloc, &lock.ask, granted, &cookies)?;
        cookies.extend_from_slice(first.as_slice())?;
    }
    Ok(Cookies::from(cookies))
}

/// The same of a queue.
pub(crate) fn blocking_in(alloc: Global, queue: &Queue) -> Result<Cookies, Memory>
    ensures { IfOk result (AreBlockers queue.now) }
{
    let waiting = queue.waiting_locks(alloc)?;
    blocking(alloc, queue.granted_locks(), &waiting)
}
