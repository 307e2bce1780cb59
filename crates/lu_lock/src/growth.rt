//! How far an extent grows when its lock is granted (this project's profile).

ghost use Rattle.std.specs.Prelude.{◌≡◌, ◌≤◌, ◌∷◌, [], IsTrue, option_to_list};
ghost use Rattle.lu_lock.specs.Overlap.{IsRange, Covers};
ghost use Rattle.lu_lock.specs.Conflict.{conflicts_with_any, StaysClear};
ghost use Rattle.lu_lock.specs.Growth.{opposing, past_below, before_above, grown_extent, granted_policy, granted_ask};

use super::conflicts::conflicts_with_any;
use super::modes::compatible;
use lu_base::{Ask, Extent, Mode, Policy};

/// The extent with which a lock is granted beside the other granted and waiting locks of its resource. It
/// reaches to the nearest of those whose mode isn't compatible with the asked one, the waiting ones with what
/// they asked for; it stays as asked where a waiting lock conflicts with the ask. Bits never grow, so there is
/// nothing to ask here for them.
pub fn grow(ask: &Ask, granted: &[Ask], waiting: &[Ask]) -> Extent
    requires { IsRange ask.now.policy }
    ensures grown { Policy.Range result ≡ granted_policy ask.now granted.now waiting.now }
    ensures as_asked { IsTrue (conflicts_with_any ask.now waiting.now) → Policy.Range result ≡ ask.now.policy }

    // The grown extent holds the asked one, and its ends are in order.
    ensures holds { Covers (Policy.Range result) ask.now.policy }
    ensures ordered { result.first ≤ result.last }

    // Granted so, the lock conflicts with none of the locks of a list with none of which the ask conflicts.
    ensures beside_granted { StaysClear ask.now (granted_ask ask.now granted.now waiting.now) granted.now }
    ensures beside_waiting { StaysClear ask.now (granted_ask ask.now granted.now waiting.now) waiting.now }
{
    match ask.policy {
        Policy::Range(asked) => extended(ask, asked, granted, waiting),
        Policy::Bits(_) => unreachable!(),
    }
}

/// The lock as it is granted beside the other granted and waiting locks of its resource. The ends of what it asks for may
/// stand in any order.
pub fn granted_ask(ask: &Ask, granted: &[Ask], waiting: &[Ask]) -> Ask
    ensures { result ≡ granted_ask ask.now granted.now waiting.now }
{
    match ask.policy {
        Policy::Range(asked) => Ask {
            who: ask.who,
            mode: ask.mode,
            policy: Policy::Range(extended(ask, asked, granted, waiting)),
        },
        Policy::Bits(_) => *ask,
    }
}

/// The extent of a lock that asks for this one.
fn extended(ask: &Ask, asked: Extent, granted: &[Ask], waiting: &[Ask]) -> Extent
    requires { ask.now.policy ≡ Policy.Range asked }
    ensures grown { result
        ≡ grown_extent asked (opposing ask.now.mode granted.now) (opposing ask.now.mode waiting.now) }
    ensures holds { Covers (Policy.Range result) (Policy.Range asked) }
{
    if conflicts_with_any(ask, waiting) {
        return asked;
    }
    let mode = ask.mode;
    Extent {
        first: past_below(mode, asked.first, granted).max(past_below(mode, asked.first, waiting)),
        last: before_above(mode, asked.last, granted).min(before_above(mode, asked.last, waiting)),
    }
}

/// One past the greatest end below the offset, or 0, among the locks whose mode isn't compatible with this one.
fn past_below(mode: Mode, offset: u64, locks: &[Ask]) -> u64
    ensures nearest { result ≡ past_below offset (opposing mode locks.now) }
    ensures within { result ≤ offset }
{
    let mut first: u64 = 0;
    for lock in locks {
        first = first.max(past_one(mode, offset, lock));
    }
    first
}

/// The same of one lock.
fn past_one(mode: Mode, offset: u64, lock: &Ask) -> u64
    ensures { result ≡ past_below offset (opposing mode (lock.now ∷ [])) }
{
    match opposing(mode, lock) {
        Some(extent) if extent.last < offset => extent.last + 1,
        _ => 0,
    }
}

/// One before the least start above the offset, or the end, among the locks whose mode isn't compatible with
/// this one.
fn before_above(mode: Mode, offset: u64, locks: &[Ask]) -> u64
    ensures nearest { result ≡ before_above offset (opposing mode locks.now) }
    ensures within { offset ≤ result }
{
    let mut last = u64::MAX;
    for lock in locks {
        last = last.min(before_one(mode, offset, lock));
    }
    last
}

/// The same of one lock.
fn before_one(mode: Mode, offset: u64, lock: &Ask) -> u64
    ensures { result ≡ before_above offset (opposing mode (lock.now ∷ [])) }
{
    match opposing(mode, lock) {
        Some(extent) if offset < extent.first => extent.first - 1,
        _ => u64::MAX,
    }
}

/// The extent of a lock whose mode isn't compatible with this one.
fn opposing(mode: Mode, lock: &Ask) -> Option<Extent>
    ensures { option_to_list result ≡ opposing mode (lock.now ∷ []) }
{
    match lock.policy {
        Policy::Range(extent) if !compatible(mode, lock.mode) => Some(extent),
        _ => None,
    }
}
