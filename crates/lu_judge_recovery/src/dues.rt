//! Seen numbers that are due, compared.

ghost use Rattle.std.specs.Prelude.{◌≡◌, IfOk, IsTrue, ◌↔◌};
ghost use Rattle.lu_spec_laws.specs.Laws.Recovery.{other_than};

use lu_base::{Memory, Numbers, Txn};
use std::alloc::Global;

/// Whether both are the same numbers.
pub fn are_same(seen: &Numbers, due: &Numbers) -> bool
    ensures { IsTrue result ↔ (seen.now ≡ due.now) }
{
    *seen == *due
}

/// The numbers without this one; all where it is 0, which is no transaction.
pub fn other_than(alloc: Global, number: Txn, seen: Numbers) -> Result<Numbers, Memory>
    ensures others { IfOk result (λ numbers. numbers ≡ other_than number.0 seen) }
{
    if number.0 == 0 {
        return Ok(seen);
    }
    let others: Vec<u64> = seen
        .as_slice()
        .iter()
        .copied()
        .filter(|seen| *seen != number.0)
        .collect(alloc)?;
    Ok(Numbers::from(others))
}
