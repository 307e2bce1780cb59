//! Where bytes come from, and reading all of them.

ghost use Rattle.std.specs.Prelude.{◌≡◌, ℕ, ◌+◌, ◌^◌, ◌<◌, ◌≤◌, ◌↔◌, List, length, drop, IfOk, OnOk, IsErr, OnErr, Some, Contains};
ghost use Rattle.std.specs.Result.{IsErrOf};
ghost use Rattle.std.specs.declared.option.Option.{Option};
ghost use Rattle.std.specs.Io.{ReadsAtMost};
ghost use Rattle.std.specs.Io.KnownBytes.{ReadConsumes};
ghost use Rattle.lu_base.specs.Faults.{Rose, HasCause, ReadWhole, CameMore};
ghost use Rattle.lu_base.specs.Memories.{counted};

use super::faults::{Failed, ReadError};
use super::sequence::{Bytes, Numbers};
use std::alloc::Global;
use std::io::Read;
use std::marker::Model;

/// Where bytes come from. It counts its faults: a call that answers leaves the count as it was, and no
/// call lowers it.
pub trait Source {
    ghost left: { Self → Option (List ℕ) };

    ghost faults: { Self → ℕ };

    /// Reads into the front of `into`, and answers how many bytes came; 0 for a buffer with room
    /// means the end. `Failed` comes only where the count of faults rose.
    fn read(&mut self, into: &mut [u8]) -> Result<usize, Failed>
        ensures bound { ReadsAtMost result into.new }
        ensures bytes { ReadConsumes (left self.old) (left self.new) result into.new }
        ensures cause { HasCause (faults self.old) (faults self.new) result }
        ensures steady { OnOk result (faults self.new ≡ faults self.old) };
}

/// A source over a reader of std. It is trusted to pass on what the reader tells.
#[derive(Debug, Drop)]
pub struct StdSource<R> {
    inner: R,
    faults: u64,
}

impl<R: Read> StdSource<R> {
    /// A source of what is left of the reader, that has met no fault.
    pub fn new(inner: R) -> StdSource<R>
        ensures bytes { ⟦<StdSource<R> as Source>⟧.left result ≡ R.remaining inner }
        ensures calm { ⟦<StdSource<R> as Source>⟧.faults result ≡ 0 }
    {
        StdSource { inner, faults: 0 }
    }
}

impl<R: Read> Source for StdSource<R> {
    ghost left = { λ s. R.remaining s.inner };

    ghost faults = { λ s. s.faults };

    fn read(&mut self, into: &mut [u8]) -> Result<usize, Failed> {
        match self.inner.read(into) {
            Ok(count) => Ok(count),
            Err(_) => {
                self.faults = self.faults.saturating_add(1);
                Err(Failed)
            }
        }
    }
}

/// Bytes in memory, of which the listed calls fail.
#[derive(Debug, Drop)]
pub struct MemorySource {
    held: Bytes,
    position: usize,
    failing: Numbers,
    calls: u64,
    faults: u64,
}

impl Model for MemorySource {
    ghost use Rattle.std.specs.Prelude.{length, ◌≤◌, drop};
    ghost use Rattle.lu_base.specs.Memories.{MemoryInput};

    ghost Value = { MemoryInput };

    ghost view = { λ s. record {
      left = drop s.position s.held;
      failing = s.failing;
      calls = s.calls;
      faults = s.faults;
    } };

    ghost invariant = { λ s. s.position ≤ length s.held };
}

impl MemorySource {
    /// A source of these bytes whose calls at the numbers in `failing`, counted from 0, fail.
    pub fn new(held: Bytes, failing: Numbers) -> MemorySource
        ensures fresh { result ≡ record { left = held; failing = failing; calls = 0; faults = 0 } }
    {
        MemorySource {
            held,
            position: 0,
            failing,
            calls: 0,
            faults: 0,
        }
    }
}

impl Source for MemorySource {
    ghost left = { λ s. Some s.left };

    ghost faults = { λ s. s.faults };

    fn read(&mut self, into: &mut [u8]) -> Result<usize, Failed>
        ensures bound { ReadsAtMost result into.new }
        ensures bytes { ReadConsumes (Some self.old.left) (Some self.new.left) result into.new }
        ensures cause { HasCause self.old.faults self.new.faults result }
        ensures fails { IsErr result ↔ Contains self.old.failing self.old.calls }
        ensures calls { self.new.calls ≡ counted self.old.calls }
        ensures steady { OnOk result (self.new.faults ≡ self.old.faults) }
        ensures listed { self.new.failing ≡ self.old.failing }
    {
        let call = self.calls;
        self.calls = self.calls.saturating_add(1);
        if self.failing.as_slice().contains(&call) {
            self.faults = self.faults.saturating_add(1);
            return Err(Failed);
        }
        let rest = &self.held.as_slice()[self.position..];
        let count = rest.len().min(into.len());
        into[..count].copy_from_slice(&rest[..count]);
        self.position += count;
        Ok(count)
    }
}

/// How many bytes one call of `read_all` asks for.
const PIECE: usize = 4096;

/// Reads to the end, to the first fault, or until more than `limit` bytes came.
pub fn read_all<S: Source>(alloc: Global, source: &mut S, limit: usize) -> Result<Bytes, ReadError>
    ensures whole { IfOk result (ReadWhole (S.left source.old) (S.left source.new)) }
    ensures fits { IfOk result (λ bytes. length bytes ≤ limit) }
    ensures too_long { IsErrOf result ReadError.TooLong → CameMore (S.left source.old) (S.left source.new) limit }
    ensures read_fault { IsErrOf result ReadError.ReadFault → Rose (S.faults source.old) (S.faults source.new) }
    ensures later { S.faults source.old ≤ S.faults source.new }
    ensures steady { OnOk result (S.faults source.new ≡ S.faults source.old) }
    // Nothing but a read fault changes the count.
    ensures unmoved { ¬ IsErrOf result ReadError.ReadFault → S.faults source.new ≡ S.faults source.old }
{
    let mut all = Bytes::new(alloc);
    let mut piece = [0u8; PIECE];
    loop {
        let Ok(count) = source.read(&mut piece) else {
            return Err(ReadError::ReadFault);
        };
        if count == 0 {
            return Ok(all);
        }
        if all.extend(&piece[..count]).is_err() {
            return Err(ReadError::Memory);
        }
        if all.len() > limit {
            return Err(ReadError::TooLong);
        }
    }
}
