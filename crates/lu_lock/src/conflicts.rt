//! Which locks on one resource conflict (Wang et al., Understanding Lustre Filesystem Internals, the lock manager).

ghost use Rattle.std.specs.Prelude.{◌≡◌, IsTrue, ◌↔◌};
ghost use Rattle.lu_lock.specs.Overlap.{extents_meet, ExtentsMeet, policies_meet};
ghost use Rattle.lu_lock.specs.Conflict.{conflict, Conflict, conflicts_with_any};

use super::modes::compatible;
use lu_base::{Ask, Extent, Policy};

/// Whether an offset is in both extents.
pub fn extents_meet(a: Extent, b: Extent) -> bool
    ensures test { result ≡ extents_meet a b }
    ensures rule { IsTrue result ↔ ExtentsMeet a b }
    ensures symmetric { result ≡ extents_meet b a }
{
    a.first.max(b.first) <= a.last.min(b.last)
}

/// Whether what two locks cover of one resource meets. Bits and a range never do.
fn policies_meet(a: Policy, b: Policy) -> bool
    ensures test { result ≡ policies_meet a b }
{
    match (a, b) {
        (Policy::Bits(a), Policy::Bits(b)) => a & b != 0,
        (Policy::Range(a), Policy::Range(b)) => extents_meet(a, b),
        _ => false,
    }
}

/// Whether two locks on one resource conflict: their modes aren't compatible, and they share a bit or an
/// offset. Bits and a range never meet. Locks of one life conflict like others.
pub fn conflict(a: &Ask, b: &Ask) -> bool
    ensures test { result ≡ conflict a.now b.now }
    ensures rule { IsTrue result ↔ Conflict a.now b.now }
    ensures symmetric { result ≡ conflict b.now a.now }
{
    !compatible(a.mode, b.mode) && policies_meet(a.policy, b.policy)
}

/// Whether a lock of the list conflicts with this one.
pub fn conflicts_with_any(ask: &Ask, locks: &[Ask]) -> bool
    ensures { result ≡ conflicts_with_any ask.now locks.now }
{
    locks.iter().any(|lock| conflict(ask, lock))
}
