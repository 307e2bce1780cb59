//! What a page is asked: what stands in a range of its positions.

ghost use Rattle.std.specs.Prelude.{◌≡◌, ◌≤◌, ◌<◌, ◌+◌, ◌++◌, ◌^◌, ℕ, None, length, OnOk, IfOk};
ghost use Rattle.lu_spec_machine.specs.Places.{is_in, found_at, inside, end_of};
ghost use Rattle.lu_spec_bytes.specs.Maps.{AllBelow};
ghost use Rattle.lu_spec_bytes.specs.Runs.{first_position, run_at, found_run};

use crate::page::{PAGE, Page};
use lu_base::{Extent, Memory};
use std::alloc::Global;

/// Whether a position is in a range.
fn is_in(extent: Extent, position: u64) -> bool
    ensures { result ≡ is_in extent position }
{
    extent.first <= position && position <= extent.last
}

impl<T: Copy> Page<T> {
    /// What stands at a position of a range.
    pub fn at_inside(&self, extent: Extent, position: u64) -> Option<T>
        ensures found { result ≡ found_at (inside extent self.now.here) position }
    {
        if is_in(extent, position) {
            self.at(position)
        } else {
            None
        }
    }

    /// How many positions of the page lie before a range.
    fn slots_before(&self, extent: Extent) -> u64
        ensures bare { (p : ℕ) → p < self.now.first + result → found_at (inside extent self.now.here) p ≡ None }
        ensures most { result ≤ 4096 }
    {
        let first = self.first();
        if extent.first < first {
            return 0;
        }
        if PAGE <= extent.first - first {
            return PAGE;
        }
        extent.first - first
    }

    /// How many positions of the page don't lie past a range.
    fn slots_up_to(&self, extent: Extent) -> u64
        ensures below { AllBelow (self.now.first + result) (inside extent self.now.here) }
        ensures most { result ≤ 4096 }
    {
        let first = self.first();
        if extent.last < first {
            return 0;
        }
        if PAGE <= extent.last - first {
            return PAGE;
        }
        extent.last - first + 1
    }

    /// The least position in a range where something stands.
    pub fn first_in(&self, extent: Extent) -> Option<u64>
        ensures first { result ≡ first_position (inside extent self.now.here) }
    {
        let first = self.first();
        for slot in self.slots_before(extent)..PAGE {
            if self.at_inside(extent, first + slot).is_some() {
                return Some(first + slot);
            }
        }
        None
    }

    /// One past the last position in a range where something stands, or 0.
    pub fn end_in(&self, extent: Extent) -> u64
        ensures end { result ≡ end_of (inside extent self.now.here) }
    {
        let first = self.first();
        let mut slot = self.slots_up_to(extent);
        while slot > 0 {
            slot -= 1;
            if self.at_inside(extent, first + slot).is_some() {
                return first + slot + 1;
            }
        }
        0
    }

    /// In how many positions of a range something stands.
    pub fn count(&self, extent: Extent) -> u64
        ensures count { result ≡ length (inside extent self.now.here) }
    {
        let first = self.first();
        let mut count = 0;
        for slot in 0..PAGE {
            if self.at_inside(extent, first + slot).is_some() {
                count += 1;
            }
        }
        count
    }

    /// What stands in a range from a position on without a gap, at most so many.
    pub fn run(&self, alloc: Global, extent: Extent, from: u64, most: u64) -> Result<Vec<T>, Memory>
    where
        T: Drop,
        requires fits { from + most ≤ 2 ^ 63 }
        ensures run { IfOk result (λ run. run.items ≡ run_at most (inside extent self.now.here) from) }
    {
        let mut run = Vec::new(alloc);
        for k in 0..most {
            let Some(item) = self.at_inside(extent, from + k) else {
                return Ok(run);
            };
            run.push(item)?;
        }
        Ok(run)
    }

    /// Puts what stands at so many positions from this one on behind what was read.
    pub fn read(&self, at: u64, count: u64, into: &mut Vec<Option<T>>) -> Result<(), Memory>
    where
        T: Drop,
        requires fits { at + count ≤ 2 ^ 63 }
        ensures found { OnOk result (into.new.items ≡ into.old.items ++ found_run count self.now.here at) }
    {
        for k in 0..count {
            into.push(self.at(at + k))?;
        }
        Ok(())
    }
}
