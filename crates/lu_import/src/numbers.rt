//! Sets of transaction numbers, to which all of some numbers are added or none.

ghost use Rattle.std.specs.Prelude.{◌≡◌, filter, nat_lt, IfOk, OnOk, OnErr};
ghost use Rattle.std.specs.List.Sorted.{IsStrictlyIncreasing};
ghost use Rattle.lu_import.specs.Kept.{with_number, with_numbers};
ghost use Rattle.lu_import.specs.Adding.{undone, starts_by};

use lu_base::Memory;
use std::alloc::Global;
use std::collections::BTreeSet;

/// Adds a number to a set, and to the list of those that weren't in it where it is new. After want of memory nothing
/// has changed.
fn add_number(seen: &mut BTreeSet<u64>, added: &mut Vec<u64>, number: u64) -> Result<(), Memory>
    ensures added { OnOk result (seen.new.keys ≡ with_number number seen.old.keys) }
    ensures undone { undone added.new.items seen.new.keys ≡ undone added.old.items seen.old.keys }
{
    added.push(number)?;
    match seen.insert(number) {
        Ok(true) => Ok(()),
        Ok(false) => {
            added.pop();
            Ok(())
        }
        Err(_) => {
            added.pop();
            Err(Memory)
        }
    }
}

/// Takes numbers that were added out again.
pub(crate) fn take_out(seen: &mut BTreeSet<u64>, mut added: Vec<u64>)
    ensures undone { seen.new.keys ≡ undone added.items seen.old.keys }
{
    while let Some(number) = added.pop() {
        seen.remove(&number);
    }
}

/// Adds numbers to a set, and answers those that weren't in it. After want of memory nothing has changed.
pub(crate) fn add_numbers(
    alloc: Global,
    seen: &mut BTreeSet<u64>,
    numbers: &[u64],
) -> Result<Vec<u64>, Memory>
    ensures added { OnOk result (seen.new.keys ≡ with_numbers numbers.now seen.old.keys) }
    ensures undone { IfOk result (λ added. undone added.items seen.new.keys ≡ seen.old.keys) }
    ensures kept { OnErr result (seen.new.keys ≡ seen.old.keys) }
{
    let mut added = Vec::new(alloc);
    for number in numbers {
        if add_number(seen, &mut added, *number).is_err() {
            take_out(seen, added);
            return Err(Memory);
        }
    }
    Ok(added)
}

/// Whether the least number is at or below this one.
fn starts_by(seen: &BTreeSet<u64>, number: u64) -> bool
    ensures starts { result ≡ starts_by (λ n. n) number seen.now.keys }
    ensures rising { IsStrictlyIncreasing seen.now.keys }
{
    match seen.iter().next() {
        Some(first) => *first <= number,
        None => false,
    }
}

/// Takes out all numbers at or below this one.
pub(crate) fn settle_numbers(seen: &mut BTreeSet<u64>, number: u64)
    ensures settled { seen.new.keys ≡ filter (nat_lt number) seen.old.keys }
    ensures rising { IsStrictlyIncreasing seen.new.keys }
{
    while starts_by(seen, number) {
        seen.pop_first();
    }
}
