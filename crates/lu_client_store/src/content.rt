//! Bytes of a file as a read is told them: the runs of its objects, unit by unit.

ghost use Rattle.std.specs.Prelude.{◌≡◌, ◌<◌, ◌≤◌, ◌+◌, ◌++◌, ◌%◌, ◌^◌, [], length, unwrap_or, IfOk, OnOk};
ghost use Rattle.std.specs.Option.{option_copied};
ghost use Rattle.lu_spec_bytes.specs.Runs.{found_run};
ghost use Rattle.lu_spec_client.specs.Caches.{bytes_at};
ghost use Rattle.lu_spec_client.specs.Looks.{content};
ghost use Rattle.lu_spec_client.specs.Patches.{clean};
ghost use Rattle.lu_client_store.specs.Runs.{seen_at, seen_run, run_on};

use super::store::Store;
use lu_base::{Bytes, Fid, Memory, Resource};
use lu_layout::Layout;
use lu_page::Places;
use lu_patch::Patch;
use std::alloc::Global;
use std::cmp::min;

/// How many of so many positions from one on lie in its unit: all up to the unit's end.
fn left_of_unit(layout: &Layout, position: u64, count: u64) -> u64
    ensures within { result ≤ count }
    ensures some { 0 < count → 0 < result }
    ensures unit { position % layout.now.size + result ≤ layout.now.size }
{
    let size = layout.size();
    min(count, size - position % size)
}

/// A byte of an object as a read takes it: the client's own changes lie over what is known, and what is neither is 0.
fn seen_at(patch: Option<&Patch>, offset: u64, known: Option<u8>) -> u8
    ensures byte { result ≡ seen_at (unwrap_or (option_copied patch.entry) clean) offset known }
{
    let byte = match patch {
        Some(patch) => patch.byte(offset, known),
        None => known,
    };
    byte.unwrap_or(0)
}

/// Adds a run of bytes of an object from an offset on, by what is known of each.
fn add_seen(
    bytes: &mut Bytes,
    patch: Option<&Patch>,
    offset: u64,
    known: &[Option<u8>],
) -> Result<(), Memory>
    requires fits { offset + length known.now ≤ 2 ^ 63 }
    ensures added { OnOk result (bytes.new
        ≡ bytes.old ++ seen_run (unwrap_or (option_copied patch.entry) clean) offset known.now) }
{
    for (k, byte) in known.iter().enumerate() {
        bytes.push(seen_at(patch, offset + k as u64, *byte))?;
    }
    Ok(())
}

impl Store {
    /// What is known of each of so many bytes of an object from an offset on.
    fn known_run(
        &self,
        alloc: Global,
        resource: Resource,
        offset: u64,
        count: u64,
    ) -> Result<Vec<Option<u8>>, Memory>
        requires fits { offset + count ≤ 2 ^ 63 }
        ensures known { IfOk result (λ known.
            known.items ≡ found_run count (bytes_at resource self.now.store.bytes) offset) }
    {
        match self.bytes(resource) {
            Some(places) => places.read(alloc, offset, count),
            None => Places::new(alloc).read(alloc, offset, count),
        }
    }

    /// Adds a run of bytes of an object.
    fn add_run(
        &self,
        alloc: Global,
        bytes: &mut Bytes,
        resource: Resource,
        offset: u64,
        count: u64,
    ) -> Result<(), Memory>
        requires fits { offset + count ≤ 2 ^ 63 }
        ensures added { OnOk result (bytes.new ≡ bytes.old ++ run_on resource offset count self.now.store) }
    {
        let known = self.known_run(alloc, resource, offset, count)?;
        add_seen(bytes, self.patch(resource), offset, &known)
    }

    /// Adds bytes of a file that lie in one unit.
    fn add_unit(
        &self,
        alloc: Global,
        bytes: &mut Bytes,
        layout: &Layout,
        fid: Fid,
        position: u64,
        count: u64,
    ) -> Result<(), Memory>
        requires fits { position + count ≤ 2 ^ 40 }
        requires unit { position % layout.now.size + count ≤ layout.now.size }
        ensures added { OnOk result (bytes.new
            ≡ bytes.old ++ content layout.now fid self.now.store position count) }
    {
        let (stripe, offset) = layout.place(position);
        self.add_run(alloc, bytes, Resource { fid, stripe }, offset, count)
    }

    /// So many bytes of a file from a position on, as a read is told them: the client's own changes lie over what is known,
    /// and what is neither is 0. Position and end are at most 2^40.
    pub fn content(
        &self,
        alloc: Global,
        layout: &Layout,
        fid: Fid,
        position: u64,
        count: u64,
    ) -> Result<Bytes, Memory>
        requires fits { position + count ≤ 2 ^ 40 }
        ensures content { IfOk result (λ bytes. bytes ≡ content layout.now fid self.now.store position count) }
    {
        let mut bytes = Bytes::new(alloc);
        let mut done = 0;
        while done < count {
            let run = left_of_unit(layout, position + done, count - done);
            self.add_unit(alloc, &mut bytes, layout, fid, position + done, run)?;
            done += run;
        }
        Ok(bytes)
    }
}
