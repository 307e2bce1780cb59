//! How waiting locks come to be granted.

ghost use Rattle.std.specs.Prelude.{◌≡◌, IfOk, All};
ghost use Rattle.lu_lock.specs.Overlap.{IsOrdered};
ghost use Rattle.lu_queue.specs.Queues.{queue_with, has_to_wait, AreGranted};

use super::locks::{Grant, Grants, as_granted, conflicts};
use lu_base::{Ask, Memory};
use std::alloc::Global;

/// Whether a lock has to wait beside these granted locks, with these waiting ahead of it.
pub(crate) fn has_to_wait(ask: &Ask, granted: &[Grant], ahead: &[Grant]) -> bool
    ensures { result ≡ has_to_wait ask.now granted.now ahead.now }
{
    conflicts(ask, granted) || conflicts(ask, ahead)
}

/// Grants all waiting locks that may be granted, in order of arrival, and tells which. After want of memory
/// the lists are good for nothing.
pub(crate) fn settle(
    alloc: Global,
    granted: &mut Vec<Grant>,
    waiting: &mut Vec<Grant>,
) -> Result<Grants, Memory>
    requires { All (λ lock. IsOrdered lock.ask.policy) waiting.old.items }
    ensures { IfOk result (λ grants. AreGranted
        (queue_with granted.old.items waiting.old.items) grants (queue_with granted.new.items waiting.new.items)) }
{
    let mut grants = Grants::new(alloc);
    let mut place = 0;
    while place < waiting.len() {
        if has_to_wait(&waiting[place].ask, granted, &waiting[..place]) {
            place += 1;
        } else {
            let lock = waiting.remove(place);
            let grant = as_granted(alloc, lock, granted, waiting)?;
            granted.push(grant)?;
            grants.push(grant)?;
        }
    }
    Ok(grants)
}
