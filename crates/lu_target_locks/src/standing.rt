//! Locks that stand again.

ghost use Rattle.std.specs.Prelude.{◌≡◌, ◌++◌, ◌↔◌, [], IsTrue, IfOk, OnOk};
ghost use Rattle.lu_lock.specs.Overlap.{IsOrdered};
ghost use Rattle.lu_queue.specs.Queues.{may_restore, restored as with_restored};
ghost use Rattle.lu_lockspace.specs.Spaces.{empty, grant_of, queue_of, KeepsOthers, IsSpace};
ghost use Rattle.lu_spec_target.specs.Outcomes.{restored};
ghost use Rattle.lu_target_refines.specs.Locks.{AreRestored};
ghost use Rattle.lu_target_locks.specs.Standing.{where_standing, AreOrdered};

use lu_base::{Lock, Locks, Memory, Policy};
use lu_lockspace::Lockspace;
use std::alloc::Global;

/// Whether a range has its ends in order.
fn is_ordered(policy: Policy) -> bool
    ensures { IsTrue result ↔ IsOrdered policy }
{
    match policy {
        Policy::Bits(_) => true,
        Policy::Range(extent) => extent.first <= extent.last,
    }
}

/// Whether all ranges have their ends in order, as `LockServer::restore` wants it.
pub fn are_ordered(locks: &Locks) -> bool
    ensures ordered { IsTrue result ↔ AreOrdered locks.now }
{
    locks
        .as_slice()
        .iter()
        .all(|lock| is_ordered(lock.ask.policy))
}

/// Has a lock stand again where it meets none that stands. It answers `Memory` too where a lock has its cookie.
fn stands(alloc: Global, space: &mut Lockspace, lock: Lock) -> Result<bool, Memory>
    requires ordered { IsOrdered lock.ask.policy }
    requires quiet { (queue_of lock.resource space.old).waiting ≡ [] }
    ensures stands { IfOk result (λ stands. stands ≡ may_restore (grant_of lock) (queue_of lock.resource space.old)) }
    ensures added { OnOk result (queue_of lock.resource space.new
        ≡ with_restored (grant_of lock) (queue_of lock.resource space.old)) }
    ensures others { KeepsOthers lock.resource space.old space.new }
    ensures lawful { IsSpace space.new }
{
    match space.restore(alloc, lock) {
        Ok(stands) => Ok(stands),
        Err(_) => Err(Memory),
    }
}

/// Puts a lock behind the others, where it stands.
fn add_standing(standing: &mut Vec<Lock>, lock: Lock, stands: bool) -> Result<(), Memory>
    ensures added { OnOk result (standing.new.items ≡ standing.old.items ++ where_standing stands lock) }
{
    if stands {
        standing.push(lock)?;
    }
    Ok(())
}

/// A lockspace in which these locks stand, one after another, but for those that meet one before; and those that stand.
pub(crate) fn all_stand(alloc: Global, locks: &[Lock]) -> Result<(Lockspace, Locks), Memory>
    requires ordered { AreOrdered locks.now }
    ensures standing { IfOk result (λ made. made.1 ≡ restored [] locks.now) }
    ensures restored { IfOk result (λ made. AreRestored locks.now empty made.0) }
    ensures lawful { IfOk result (λ made. IsSpace made.0) }
{
    let mut space = Lockspace::new(alloc);
    let mut standing = Vec::new(alloc);
    for lock in locks {
        let stands = stands(alloc, &mut space, *lock)?;
        add_standing(&mut standing, *lock, stands)?;
    }
    Ok((space, Locks::from(standing)))
}
