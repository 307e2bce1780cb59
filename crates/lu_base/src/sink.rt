//! Where bytes go, and writing all of them.

ghost use Rattle.std.specs.Prelude.{◌≡◌, ℕ, ◌+◌, ◌-◌, ◌^◌, ◌<◌, ◌≤◌, List, [], length, take, min, IfOk, OnOk, IsErr, OnErr, Some, Contains};
ghost use Rattle.std.specs.declared.option.Option.{Option};
ghost use Rattle.std.specs.Io.KnownBytes.{WriteAppends, Appends};
ghost use Rattle.lu_base.specs.Faults.{Rose, HasCause, WrotePrefix};
ghost use Rattle.lu_base.specs.Memories.{counted};

use super::faults::Failed;
use super::sequence::{Bytes, Numbers};
use std::alloc::Global;
use std::io::Write;
use std::marker::Model;

/// Where bytes go. It counts its faults: a call that answers leaves the count as it was, and no call
/// lowers it.
pub trait Sink {
    ghost holds: { Self → Option (List ℕ) };

    ghost faults: { Self → ℕ };

    /// Writes a prefix of `from`, of at least one byte where there is one, and answers how many were
    /// taken. `Failed` comes only where the count of faults rose; then nothing was taken.
    fn write(&mut self, from: &[u8]) -> Result<usize, Failed>
        ensures bound { IfOk result (λ n. (n ≤ length from.now) × (0 < length from.now → 0 < n)) }
        ensures bytes { WriteAppends (holds self.old) (holds self.new) result from.now }
        ensures cause { HasCause (faults self.old) (faults self.new) result }
        ensures steady { OnOk result (faults self.new ≡ faults self.old) };
}

/// A sink over a writer of std. It is trusted to pass on what the writer tells; a write that takes
/// nothing of a piece counts as a fault.
#[derive(Debug, Drop)]
pub struct StdSink<W> {
    inner: W,
    faults: u64,
}

impl<W: Write> StdSink<W> {
    /// A sink over what the writer holds, that has met no fault.
    pub fn new(inner: W) -> StdSink<W>
        ensures bytes { ⟦<StdSink<W> as Sink>⟧.holds result ≡ W.contents inner }
        ensures calm { ⟦<StdSink<W> as Sink>⟧.faults result ≡ 0 }
    {
        StdSink { inner, faults: 0 }
    }
}

impl<W: Write> Sink for StdSink<W> {
    ghost holds = { λ s. W.contents s.inner };

    ghost faults = { λ s. s.faults };

    fn write(&mut self, from: &[u8]) -> Result<usize, Failed> {
        if from.is_empty() {
            return Ok(0);
        }
        match self.inner.write(from) {
            Ok(0) | Err(_) => {
                self.faults = self.faults.saturating_add(1);
                Err(Failed)
            }
            Ok(count) => Ok(count),
        }
    }
}

/// A sink in memory that takes a piece at a time, and of which the listed calls fail.
#[derive(Debug, Drop)]
pub struct MemorySink {
    written: Bytes,
    piece: usize,
    failing: Numbers,
    calls: u64,
    faults: u64,
}

impl Model for MemorySink {
    ghost use Rattle.std.specs.Prelude.{◌<◌};
    ghost use Rattle.lu_base.specs.Memories.{MemoryOutput};

    ghost Value = { MemoryOutput };

    ghost view = { λ s. record {
      written = s.written;
      piece = s.piece;
      failing = s.failing;
      calls = s.calls;
      faults = s.faults;
    } };

    ghost invariant = { λ s. 0 < s.piece };
}

impl MemorySink {
    /// An empty sink that takes at most `piece` bytes a call, and whose calls at the numbers in
    /// `failing`, counted from 0, fail. A call that finds no memory fails too.
    pub fn new(alloc: Global, piece: usize, failing: Numbers) -> MemorySink
        requires some { 0 < piece }
        ensures fresh { result ≡ record { written = []; piece = piece; failing = failing; calls = 0; faults = 0 } }
    {
        MemorySink {
            written: Bytes::new(alloc),
            piece,
            failing,
            calls: 0,
            faults: 0,
        }
    }

    /// What was written so far.
    pub fn written(&self) -> &[u8]
        ensures all { result.now ≡ self.now.written }
    {
        self.written.as_slice()
    }

    /// Counts a fault.
    fn fail(&mut self) -> Result<usize, Failed>
        ensures counts { self.new ≡ record self.old { faults = counted self.old.faults } }
        ensures fails { IsErr result }
    {
        self.faults = self.faults.saturating_add(1);
        Err(Failed)
    }
}

impl Sink for MemorySink {
    ghost holds = { λ s. Some s.written };

    ghost faults = { λ s. s.faults };

    fn write(&mut self, from: &[u8]) -> Result<usize, Failed>
        ensures bound { IfOk result (λ n. (n ≤ length from.now) × (0 < length from.now → 0 < n)) }
        ensures bytes { WriteAppends (Some self.old.written) (Some self.new.written) result from.now }
        ensures cause { HasCause self.old.faults self.new.faults result }
        ensures fails { Contains self.old.failing self.old.calls → IsErr result }
        ensures taken { IfOk result (λ n. n ≡ min self.old.piece (length from.now)) }
        ensures steady { OnOk result (self.new.faults ≡ self.old.faults) }
        ensures calls { self.new.calls ≡ counted self.old.calls }
        ensures listed { (self.new.failing ≡ self.old.failing) × (self.new.piece ≡ self.old.piece) }
    {
        let call = self.calls;
        self.calls = self.calls.saturating_add(1);
        if self.failing.as_slice().contains(&call) {
            return self.fail();
        }
        let count = self.piece.min(from.len());
        if self.written.extend(&from[..count]).is_err() {
            return self.fail();
        }
        Ok(count)
    }
}

/// Writes all of `from`, or a prefix of it up to the first fault.
pub fn write_all<K: Sink>(sink: &mut K, from: &[u8]) -> Result<(), Failed>
    ensures whole { OnOk result (Appends (K.holds sink.old) (K.holds sink.new) from.now) }
    ensures prefix { OnErr result (WrotePrefix (K.holds sink.old) (K.holds sink.new) from.now) }
    ensures cause { HasCause (K.faults sink.old) (K.faults sink.new) result }
    ensures steady { OnOk result (K.faults sink.new ≡ K.faults sink.old) }
{
    let mut written = 0;
    while written < from.len() {
        written += sink.write(&from[written..])?;
    }
    Ok(())
}
