//! The locks of a resource, and what is looked up in lists of them.

ghost use Rattle.std.specs.Prelude.{◌≡◌, IfOk, map, filter, find, not, ◌==◌, IsPermutation};
ghost use Rattle.std.specs.List.{list_any};
ghost use Rattle.std.specs.Option.{option_copied};
ghost use Rattle.lu_lock.specs.Overlap.{IsOrdered};
ghost use Rattle.lu_lock.specs.Conflict.{conflict};
ghost use Rattle.lu_lock.specs.Growth.{granted_policy};
ghost use Rattle.lu_queue.specs.Queues.{asks, has, conflicts, in_conflict, as_granted, other_than, is_of, IsOnce, IsRising};

use lu_base::{Ask, Cookie, Cookies, Duplicate, Memory, Policy, Sequence, Who};
use lu_lock::{conflict, grow};
use std::alloc::Global;

/// A lock of a queue, under its cookie: granted with its policy as granted, or waiting as it was asked for.
#[derive(Clone, Copy, Debug, PartialEq, Eq, PartialOrd, Ord, Hash)]
pub struct Grant {
    pub cookie: Cookie,
    pub ask: Ask,
}

/// Locks of a queue.
pub type Grants = Sequence<Grant>;

impl Duplicate for Grant {
    fn copy(&self, _alloc: Global) -> Result<Grant, Memory> {
        Ok(*self)
    }
}

/// What became of a lock that was asked for.
#[derive(Clone, Copy, Debug, PartialEq, Eq)]
pub enum Placed {
    /// It is granted with this policy.
    Granted(Policy),
    /// It waits.
    Waiting,
}

/// Why a call did nothing.
#[derive(Clone, Copy, Debug, PartialEq, Eq)]
pub enum QueueError {
    /// The cookie is in the queue already.
    Twice,
    /// No lock of the queue has the cookie.
    NoLock,
    /// Want of memory.
    Memory,
}

impl From<Memory> for QueueError {
    ghost use Rattle.lu_queue.specs.declared.locks.QueueError.{QueueError};

    ghost from_gives = { λ _ error. error ≡ QueueError.Memory };

    fn from(_: Memory) -> QueueError {
        QueueError::Memory
    }
}

/// Whether a lock of the list has this cookie.
pub(crate) fn has(locks: &[Grant], cookie: Cookie) -> bool
    ensures { result ≡ has cookie.0 locks.now }
{
    locks.iter().any(|lock| lock.cookie == cookie)
}

/// The lock of the list that has this cookie.
pub(crate) fn find(locks: &[Grant], cookie: Cookie) -> Option<&Grant>
    ensures { option_copied result ≡ find (λ lock. lock.cookie.0 == cookie.0) locks.now }
{
    locks.iter().find(|lock| lock.cookie == cookie)
}

/// Whether a lock of the list conflicts with this ask.
pub(crate) fn conflicts(ask: &Ask, locks: &[Grant]) -> bool
    ensures { result ≡ conflicts ask.now locks.now }
{
    locks.iter().any(|lock| conflict(ask, &lock.ask))
}

/// The locks of other cookies.
pub(crate) fn other_than(
    alloc: Global,
    locks: &[Grant],
    cookie: Cookie,
) -> Result<Vec<Grant>, Memory>
    ensures { IfOk result (λ others. others.items ≡ other_than cookie.0 locks.now) }
{
    let others = locks
        .iter()
        .filter(|lock| lock.cookie != cookie)
        .map(|lock| *lock)
        .collect(alloc)?;
    Ok(others)
}

/// Whether a lock is of one of these lives.
pub(crate) fn is_of(lives: &[Who], lock: &Grant) -> bool
    ensures { result ≡ is_of lives.now lock.now }
{
    lives.iter().any(|who| *who == lock.ask.who)
}

/// The locks of other lives.
pub(crate) fn of_others(alloc: Global, locks: &[Grant], lives: &[Who]) -> Result<Vec<Grant>, Memory>
    ensures { IfOk result (λ others. others.items ≡ filter (λ lock. not (is_of lives.now lock)) locks.now) }
{
    let others = locks
        .iter()
        .filter(|lock| !is_of(lives, lock))
        .map(|lock| *lock)
        .collect(alloc)?;
    Ok(others)
}

/// Whether a lock of the list is of one of these lives.
pub(crate) fn has_of(lives: &[Who], locks: &[Grant]) -> bool
    ensures { result ≡ list_any (is_of lives.now) locks.now }
{
    locks.iter().any(|lock| is_of(lives, lock))
}

/// The cookies of the locks in conflict with an ask, sorted.
pub(crate) fn in_conflict(alloc: Global, ask: &Ask, locks: &[Grant]) -> Result<Cookies, Memory>
    requires { IsOnce locks.now }
    ensures rising { IfOk result IsRising }
    ensures all { IfOk result (λ cookies. IsPermutation (in_conflict ask.now locks.now) cookies) }
{
    let mut cookies = cookies_in_conflict(alloc, ask, locks)?;
    cookies.sort_unstable();
    Ok(Cookies::from(cookies))
}

/// The cookies of the locks in conflict with an ask.
fn cookies_in_conflict(alloc: Global, ask: &Ask, locks: &[Grant]) -> Result<Vec<Cookie>, Memory>
    ensures { IfOk result (λ cookies. cookies.items ≡ in_conflict ask.now locks.now) }
{
    let cookies = locks
        .iter()
        .filter(|lock| conflict(ask, &lock.ask))
        .map(|lock| lock.cookie)
        .collect(alloc)?;
    Ok(cookies)
}

/// What the locks of the list ask for.
fn asks(alloc: Global, locks: &[Grant]) -> Result<Vec<Ask>, Memory>
    ensures { IfOk result (λ all. all.items ≡ asks locks.now) }
{
    let all = locks.iter().map(|lock| lock.ask).collect(alloc)?;
    Ok(all)
}

/// The policy with which an ask is granted beside these other granted and waiting locks.
fn granted_policy(
    alloc: Global,
    ask: &Ask,
    granted: &[Grant],
    waiting: &[Grant],
) -> Result<Policy, Memory>
    requires { IsOrdered ask.now.policy }
    ensures { IfOk result (λ policy. policy ≡ granted_policy ask.now (asks granted.now) (asks waiting.now)) }
{
    match ask.policy {
        Policy::Bits(_) => Ok(ask.policy),
        Policy::Range(_) => {
            let granted = asks(alloc, granted)?;
            let waiting = asks(alloc, waiting)?;
            Ok(Policy::Range(grow(ask, &granted, &waiting)))
        }
    }
}

/// A lock as it is granted beside these other granted and waiting locks.
pub(crate) fn as_granted(
    alloc: Global,
    lock: Grant,
    granted: &[Grant],
    waiting: &[Grant],
) -> Result<Grant, Memory>
    requires { IsOrdered lock.ask.policy }
    ensures { IfOk result (λ grant. grant ≡ as_granted lock granted.now waiting.now) }
{
    let policy = granted_policy(alloc, &lock.ask, granted, waiting)?;
    Ok(Grant {
        cookie: lock.cookie,
        ask: Ask { policy, ..lock.ask },
    })
}
