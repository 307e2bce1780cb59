//! Which locks wait ahead of another, and which beside it.

ghost use Rattle.std.specs.Prelude.{◌≡◌, ◌+◌, ◌≤◌, ◌++◌, length, take, drop, IfOk};
ghost use Rattle.lu_spec_laws.specs.Words.Queues.{has_cookie, ahead_of, without_first, asks};
ghost use Rattle.lu_judge_locks.specs.Orders.{asks_in, locks_of};

use super::lists::Placed;
use lu_base::{Ask, Cookie, Memory};
use std::alloc::Global;

/// How many stand ahead of the first of the cookie; all where there is none.
fn count_ahead(locks: &[Placed<'_>], cookie: Cookie) -> usize
    ensures within { result ≤ length locks.now }
    ensures ahead { ahead_of cookie.0 (locks_of locks.now) ≡ locks_of (take result locks.now) }
    ensures others { without_first cookie.0 (locks_of locks.now)
        ≡ locks_of (take result locks.now) ++ locks_of (drop (result + 1) locks.now) }
{
    let mut count = 0;
    while count < locks.len() && !has_cookie(&locks[count], cookie) {
        count += 1;
    }
    count
}

/// Whether the lock has the cookie.
fn has_cookie(placed: &Placed<'_>, cookie: Cookie) -> bool
    ensures { result ≡ has_cookie cookie.0 placed.now.lock.now }
{
    placed.lock.cookie == cookie
}

/// The asks of these locks.
fn asks_of(alloc: Global, locks: &[Placed<'_>]) -> Result<Vec<Ask>, Memory>
    ensures { IfOk result (λ all. all.items ≡ asks_in locks.now) }
{
    let all = locks.iter().map(|placed| placed.lock.ask).collect(alloc)?;
    Ok(all)
}

/// The asks of those ahead of the first of the cookie; of all where there is none.
pub(crate) fn asks_ahead(
    alloc: Global,
    locks: &[Placed<'_>],
    cookie: Cookie,
) -> Result<Vec<Ask>, Memory>
    ensures { IfOk result (λ all. all.items ≡ asks (ahead_of cookie.0 (locks_of locks.now))) }
{
    let count = count_ahead(locks, cookie);
    asks_of(alloc, &locks[..count])
}

/// The asks of all but the first of the cookie.
pub(crate) fn asks_of_others(
    alloc: Global,
    locks: &[Placed<'_>],
    cookie: Cookie,
) -> Result<Vec<Ask>, Memory>
    ensures { IfOk result (λ all. all.items ≡ asks (without_first cookie.0 (locks_of locks.now))) }
{
    let count = count_ahead(locks, cookie);
    let mut all = asks_of(alloc, &locks[..count])?;
    let behind = asks_behind(alloc, locks, count)?;
    all.extend_from_slice(&behind)?;
    Ok(all)
}

/// The asks of those behind this place.
fn asks_behind(alloc: Global, locks: &[Placed<'_>], place: usize) -> Result<Vec<Ask>, Memory>
    ensures { IfOk result (λ all. all.items ≡ asks_in (drop (place + 1) locks.now)) }
{
    if place >= locks.len() {
        return Ok(Vec::new(alloc));
    }
    asks_of(alloc, &locks[place + 1..])
}
