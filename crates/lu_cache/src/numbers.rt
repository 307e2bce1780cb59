//! Numbers that fall: what comes later has a lesser number.

ghost use Rattle.std.specs.Prelude.{◌≡◌, IfOk};
ghost use Rattle.lu_cache.specs.Numbered.{IsBefore};

use lu_base::Memory;
use std::collections::BTreeMap;

/// A number below all that are there. Numbers have 64 bits; after the last of them it answers want of memory.
pub(crate) fn next_number<T>(log: &BTreeMap<u64, T>) -> Result<u64, Memory>
    ensures less { IfOk result (λ n. IsBefore n log.now.entries) }
{
    match log.first_key_value() {
        None => Ok(u64::MAX),
        Some((least, _)) => least.checked_sub(1).ok_or(Memory),
    }
}
