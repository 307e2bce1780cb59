//! Granted locks, in the order in which they were granted, and once more in rising cookie.

ghost use Rattle.std.specs.Prelude.{◌≡◌, [], ◌∷◌, ◌++◌, IfOk, OnOk, OnErr};
ghost use Rattle.std.specs.Option.{option_copied};
ghost use Rattle.lu_queue.specs.Queues.{IsInOrder, IsAt};

use super::locks::Grant;
use lu_base::Memory;
use std::alloc::Global;
use std::marker::Model;

/// Granted locks.
#[derive(Debug, Drop)]
pub(crate) struct Granted {
    /// In the order in which they were granted.
    locks: Vec<Grant>,
    /// In rising cookie.
    rising: Vec<Grant>,
}

impl Model for Granted {
    ghost use Rattle.std.specs.Prelude.{List};
    ghost use Rattle.lu_queue.specs.declared.locks.Grant.{Grant};
    ghost use Rattle.lu_queue.specs.Queues.{IsInOrder};

    ghost Value = { List Grant };

    ghost view = { λ granted. granted.locks.items };

    ghost invariant = { λ granted. IsInOrder granted.locks.items granted.rising.items };
}

impl Granted {
    /// No lock. It takes no memory yet.
    pub(crate) fn new(alloc: Global) -> Granted
        ensures { result ≡ [] }
    {
        Granted {
            locks: Vec::new(alloc),
            rising: Vec::new(alloc),
        }
    }

    /// These locks.
    pub(crate) fn of(alloc: Global, locks: Vec<Grant>) -> Result<Granted, Memory>
        ensures { IfOk result (λ granted. granted ≡ locks.items) }
    {
        let rising = in_order(alloc, &locks)?;
        Ok(Granted { locks, rising })
    }

    /// The locks, in the order in which they were granted.
    pub(crate) fn as_slice(&self) -> &[Grant]
        ensures { result.now ≡ self.now }
    {
        &self.locks
    }

    /// The lock at this place, from 0, in rising cookie; none past the last.
    pub(crate) fn rising(&self, at: usize) -> Option<&Grant>
        ensures { IsAt at self.now (option_copied result) }
    {
        self.rising.get(at)
    }

    /// Adds a lock that is granted now. After want of memory nothing has changed.
    pub(crate) fn push(&mut self, alloc: Global, lock: Grant) -> Result<(), Memory>
        ensures added { OnOk result (self.new ≡ self.old ++ lock ∷ []) }
        ensures kept { OnErr result (self.new ≡ self.old) }
    {
        let rising = in_order_with(alloc, &self.rising, lock)?;
        self.locks.push(lock)?;
        self.rising = rising;
        Ok(())
    }
}

/// The locks in rising cookie.
fn in_order(alloc: Global, locks: &[Grant]) -> Result<Vec<Grant>, Memory>
    ensures { IfOk result (λ order. IsInOrder locks.now order.items) }
{
    let mut order = Vec::from_slice(alloc, locks)?;
    order.sort_unstable();
    Ok(order)
}

/// These locks and one more, in rising cookie.
fn in_order_with(alloc: Global, locks: &[Grant], lock: Grant) -> Result<Vec<Grant>, Memory>
    ensures { IfOk result (λ order. IsInOrder (locks.now ++ lock ∷ []) order.items) }
{
    let mut order = Vec::from_slice(alloc, locks)?;
    order.push(lock)?;
    order.sort_unstable();
    Ok(order)
}
