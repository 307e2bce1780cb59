//! What is under way of a write-back.

ghost use Rattle.std.specs.Prelude.{◌≡◌, IfOk};
ghost use Rattle.lu_spec_client.specs.Patches.{fresh, sent, bytes_of};

use lu_base::{Bytes, Memory};
use lu_spec_entries::Dirty;
use std::alloc::Global;

/// What is under way of a write-back.
#[derive(Clone, Copy, Debug, PartialEq, Eq)]
pub(crate) enum Flight {
    /// A cut to this size.
    Cut(u64),
    /// Bytes. Those that weren't touched since fly, from `first` on and below `end`.
    Bytes { first: u64, end: u64 },
}

/// Bytes that were written and not sent.
pub(crate) fn fresh(alloc: Global, from: &[u8]) -> Result<Vec<Dirty>, Memory>
    ensures fresh { IfOk result (λ run. run.items ≡ fresh from.now) }
{
    let mut run = Vec::new(alloc);
    for byte in from {
        run.push(Dirty {
            byte: *byte,
            flies: false,
        })?;
    }
    Ok(run)
}

/// The bytes of a run.
pub(crate) fn bytes_of(alloc: Global, run: &[Dirty]) -> Result<Bytes, Memory>
    ensures bytes { IfOk result (λ bytes. bytes ≡ bytes_of run.now) }
{
    let mut bytes = Bytes::new(alloc);
    for dirty in run {
        bytes.push(dirty.byte)?;
    }
    Ok(bytes)
}

/// The run once it was sent.
pub(crate) fn sent(alloc: Global, run: &[Dirty]) -> Result<Vec<Dirty>, Memory>
    ensures sent { IfOk result (λ made. made.items ≡ sent (bytes_of run.now)) }
{
    let mut made = Vec::new(alloc);
    for dirty in run {
        made.push(Dirty {
            byte: dirty.byte,
            flies: true,
        })?;
    }
    Ok(made)
}
