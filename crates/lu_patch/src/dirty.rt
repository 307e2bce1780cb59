//! The dirty bytes of a patch, and how many they are.

ghost use Rattle.std.specs.Prelude.{◌≡◌, ◌≤◌, ◌+◌, ◌^◌, [], length, option_map, is_some, OnOk, OnErr, IfOk, IfSome};
ghost use Rattle.lu_spec_machine.specs.Places.{found_at, below, laid, inside, end_of};
ghost use Rattle.lu_spec_bytes.specs.Runs.{first_position, first_run};
ghost use Rattle.lu_spec_client.specs.Patches.{landed};
ghost use Rattle.lu_patch.specs.Counted.{between};
ghost use Rattle.lu_patch.specs.Flights.{FlyBetween};

use lu_base::{Extent, Memory};
use lu_page::Places;
use lu_spec_entries::Dirty;
use std::alloc::Global;
use std::marker::Model;

/// Dirty bytes by offset. Each change counts the range that it touches alone, so that how many there are is known without
/// going over them.
#[derive(Drop)]
pub(crate) struct DirtyBytes {
    bytes: Places<Dirty>,
    count: u64,
}

impl Model for DirtyBytes {
    ghost use Rattle.std.specs.Prelude.{ℕ, List};
    ghost use Rattle.lu_spec_entries.specs.declared.changes.Dirty.{Dirty as DirtyByte};
    ghost use Rattle.lu_patch.specs.Counted.{IsCounted};

    ghost Value = { List (ℕ × DirtyByte) };

    ghost view = { λ d. d.bytes };

    ghost invariant = { λ d. IsCounted d.count d.bytes };
}

/// How many bytes are dirty from an offset on and below an end.
fn count_between(bytes: &Places<Dirty>, first: u64, end: u64) -> u64
    ensures count { result ≡ length (between first end bytes.now) }
{
    if end <= first {
        return 0;
    }
    bytes.count(Extent {
        first,
        last: end - 1,
    })
}

impl DirtyBytes {
    /// No byte is dirty. It takes no memory yet.
    pub(crate) fn new(alloc: Global) -> DirtyBytes
        ensures empty { result ≡ [] }
    {
        DirtyBytes {
            bytes: Places::new(alloc),
            count: 0,
        }
    }

    /// How many bytes are dirty.
    pub(crate) fn count(&self) -> u64
        ensures count { result ≡ length self.now }
    {
        self.count
    }

    /// How many bytes of a range are dirty.
    pub(crate) fn count_in(&self, within: Extent) -> u64
        requires range { within.first ≤ within.last }
        ensures count { result ≡ length (inside within self.now) }
    {
        self.bytes.count(within)
    }

    /// Whether a byte of a range is dirty. It looks no further than the first.
    pub(crate) fn is_any_in(&self, within: Extent) -> bool
        ensures any { result ≡ is_some (first_position (inside within self.now)) }
    {
        self.bytes.first_in(within).is_some()
    }

    /// The dirty byte at an offset.
    pub(crate) fn at(&self, offset: u64) -> Option<Dirty>
        ensures found { result ≡ found_at self.now offset }
    {
        self.bytes.at(offset)
    }

    /// One past the last dirty byte, or 0.
    pub(crate) fn end(&self) -> u64
        ensures end { result ≡ end_of self.now }
    {
        self.bytes.end()
    }

    /// The unbroken run of least offset in a range, up to the end of its page.
    pub(crate) fn first_run(
        &self,
        alloc: Global,
        within: Extent,
    ) -> Result<Option<(u64, Vec<Dirty>)>, Memory>
        ensures run { IfOk result (λ run. option_map (λ r. (r.0, r.1.items)) run ≡ first_run (inside within self.now)) }
        ensures fits { IfOk result (λ run. IfSome run (λ r. r.0 + length r.1.items ≤ 2 ^ 62)) }
    {
        self.bytes.first_run(alloc, within)
    }

    /// Puts a run of dirty bytes from an offset on. After want of memory all is as before.
    pub(crate) fn lay(&mut self, at: u64, run: &[Dirty]) -> Result<(), Memory>
        requires fits { at + length run.now ≤ 2 ^ 62 }
        ensures laid { OnOk result (self.new ≡ laid at run.now self.old) }
        ensures kept { OnErr result (self.new ≡ self.old) }
    {
        let laid = run.len() as u64;
        let replaced = count_between(&self.bytes, at, at + laid);
        self.bytes.lay(at, run)?;
        self.count = self.count - replaced + laid;
        Ok(())
    }

    /// Keeps what is dirty below an offset.
    pub(crate) fn keep_below(&mut self, n: u64)
        ensures below { self.new ≡ below n self.old }
    {
        let cut = count_between(&self.bytes, n, u64::MAX);
        self.bytes.keep_below(n);
        self.count -= cut;
    }

    /// Takes away what flies. All of it lies from `first` on and below `end`.
    pub(crate) fn land(&mut self, first: u64, end: u64)
        requires between { FlyBetween first end self.old }
        ensures landed { self.new ≡ landed self.old }
    {
        let flown = count_between(&self.bytes, first, end);
        self.bytes.drop_marked_in(Extent {
            first,
            last: end.saturating_sub(1),
        });
        let left = count_between(&self.bytes, first, end);
        self.count = self.count - flown + left;
    }
}
