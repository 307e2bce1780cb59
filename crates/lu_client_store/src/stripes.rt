//! Writes and cuts of a file, stripe by stripe.

ghost use Rattle.std.specs.Prelude.{◌≡◌, ◌≤◌, ◌<◌, ◌+◌, ◌^◌, All, length, OnOk, IfOk};
ghost use Rattle.lu_spec_entries.specs.declared.changes.Flush.TheVariants.{Cut};
ghost use Rattle.lu_spec_entries.specs.Words.{Changes};
ghost use Rattle.lu_spec_client.specs.Stripes.{below_on, bytes_on};
ghost use Rattle.lu_spec_client.specs.Advances.{writes_on, writes, cuts};
ghost use Rattle.lu_client_store.specs.Stored.{stored_after, stored_turn};

use super::store::Store;
use lu_base::{Bytes, Lock, Memory};
use lu_layout::Layout;
use lu_spec_entries::{Flush, Using};
use std::alloc::Global;

/// Of bytes at a position of the file, those that lie on a stripe, in order.
fn bytes_on(
    alloc: Global,
    layout: &Layout,
    stripe: u16,
    position: u64,
    bytes: &[u8],
) -> Result<Bytes, Memory>
    requires fits { position + length bytes.now ≤ 2 ^ 40 }
    ensures bytes { IfOk result (λ run. run ≡ bytes_on layout.now stripe position bytes.now) }
{
    let mut run = Bytes::new(alloc);
    for (i, byte) in bytes.iter().enumerate() {
        if layout.place(position + i as u64).0 == stripe {
            run.push(*byte)?;
        }
    }
    Ok(run)
}

impl Store {
    /// Writes bytes of an object whose lock is in use, and keeps that the last of them was shown under that lock.
    fn write_run(&mut self, one: Using, first: u64, run: Bytes) -> Result<(), Memory>
        requires fits { first + length run ≤ 2 ^ 40 }
        ensures written { OnOk result (self.new ≡ stored_turn self.old (writes_on one first run)) }
    {
        let last = (first + run.len() as u64).saturating_sub(1);
        self.change(one.want.resource, &Flush::Put(first, run))?;
        let shown = Lock {
            resource: one.want.resource,
            ..one.lock
        };
        self.show(&shown, last)
    }

    /// Writes bytes at a position of the file, those on the stripe of a lock in use.
    fn write_on(
        &mut self,
        alloc: Global,
        layout: &Layout,
        one: Using,
        position: u64,
        bytes: &[u8],
    ) -> Result<(), Memory>
        requires fits { position + length bytes.now ≤ 2 ^ 40 }
        requires stripe { one.want.resource.stripe < length layout.now.targets }
        ensures written { OnOk result (self.new ≡ stored_turn self.old
            (writes_on one (below_on layout.now one.want.resource.stripe position)
            (bytes_on layout.now one.want.resource.stripe position bytes.now))) }
    {
        let _size = layout.size();
        let stripe = one.want.resource.stripe;
        let first = layout.below(stripe, position);
        let run = bytes_on(alloc, layout, stripe, position, bytes)?;
        self.write_run(one, first, run)
    }

    /// Writes bytes at a position of the file, on the stripe of each lock in use, and keeps for each of these locks that the
    /// last of its bytes was shown under it. The bytes end at most at 2^40. After want of memory the stripes of some of the
    /// locks, the first of them, may have been written.
    pub fn write_all(
        &mut self,
        alloc: Global,
        layout: &Layout,
        position: u64,
        bytes: &[u8],
        used: &[Using],
    ) -> Result<(), Memory>
        requires fits { position + length bytes.now ≤ 2 ^ 40 }
        requires stripes { All (λ u. u.want.resource.stripe < length layout.now.targets) used.now }
        ensures written { OnOk result (self.new
            ≡ stored_turn self.old (writes layout.now position bytes.now used.now)) }
    {
        for one in used {
            self.write_on(alloc, layout, *one, position, bytes)?;
        }
        Ok(())
    }

    /// Cuts the object of a lock in use, as a cut of the file to a size does.
    fn cut_on(&mut self, layout: &Layout, one: Using, size: u64) -> Result<(), Memory>
        requires fits { size ≤ 2 ^ 40 }
        requires stripe { one.want.resource.stripe < length layout.now.targets }
        ensures cut { OnOk result (self.new ≡ stored_after self.old
            (Changes one.want.resource (Cut (below_on layout.now one.want.resource.stripe size)))) }
    {
        let _size = layout.size();
        let resource = one.want.resource;
        let end = layout.below(resource.stripe, size);
        self.change(resource, &Flush::Cut(end))
    }

    /// Makes the file end at a size, at most 2^40: cuts the object of each lock in use. After want of memory some of them,
    /// the first, may have been cut.
    pub fn cut_all(&mut self, layout: &Layout, size: u64, used: &[Using]) -> Result<(), Memory>
        requires fits { size ≤ 2 ^ 40 }
        requires stripes { All (λ u. u.want.resource.stripe < length layout.now.targets) used.now }
        ensures cut { OnOk result (self.new ≡ stored_turn self.old (cuts layout.now size used.now)) }
    {
        for one in used {
            self.cut_on(layout, *one, size)?;
        }
        Ok(())
    }
}
