//! The bytes of a file through its layout.

ghost use Rattle.std.specs.Prelude.{◌≡◌, ◌≤◌, ◌<◌, ◌+◌, ◌%◌, ◌++◌, ◌^◌, length, replicate, IfOk, OnOk};
ghost use Rattle.lu_spec_machine.specs.Bytes.{FileBytes, read, write, cut};
ghost use Rattle.lu_service.specs.Contents.{object_in};
ghost use Rattle.lu_posix.specs.Files.{size_in, run_in, file_run, ShowsFile, Others};

use lu_base::{Bytes, Fid, Memory, Resource};
use lu_layout::Layout;
use lu_ost::Objects;
use std::alloc::Global;
use std::cmp::min;

/// The greatest number of stripes.
const MOST_STRIPES: usize = 8;

/// How many of so many positions from one on lie in its unit: all up to the unit's end.
fn left_of_unit(layout: &Layout, position: u64, count: u64) -> u64
    ensures within { result ≤ count }
    ensures some { 0 < count → 0 < result }
    ensures unit { position % layout.now.size + result ≤ layout.now.size }
{
    let size = layout.size();
    min(count, size - position % size)
}

/// So many zeros.
fn add_zeros(alloc: Global, bytes: &mut Bytes, count: usize) -> Result<(), Memory>
    ensures added { OnOk result (bytes.new ≡ bytes.old ++ replicate count 0) }
{
    let zeros: Vec<u8> = Vec::from_elem(alloc, 0, count)?;
    bytes.extend(&zeros)
}

/// The size of a file.
pub(crate) fn file_size(objects: &Objects, fid: Fid, layout: &Layout) -> u64
    ensures size { result ≡ size_in objects.now fid layout.now }
    ensures fits { result ≤ 2 ^ 44 }
{
    let mut sizes = [0; MOST_STRIPES];
    for stripe in 0..layout.count() {
        sizes[stripe as usize] = objects.size(Resource { fid, stripe });
    }
    layout.file_size(&sizes[..layout.count() as usize])
}

/// Adds so many bytes of an object from an offset on; an absent one is 0.
fn add_run(
    objects: &Objects,
    alloc: Global,
    bytes: &mut Bytes,
    resource: Resource,
    offset: u64,
    count: u64,
) -> Result<(), Memory>
    requires fits { offset + count ≤ 2 ^ 40 }
    ensures added { OnOk result (bytes.new
        ≡ bytes.old ++ run_in (object_in objects.now resource) offset count) }
{
    let Some(object) = objects.of(resource) else {
        return add_zeros(alloc, bytes, count as usize);
    };
    let run = object.read(alloc, offset, count as usize)?;
    bytes.extend(run.as_slice())?;
    add_zeros(alloc, bytes, count as usize - run.len())
}

/// Adds bytes of a file that lie in one unit.
fn add_unit(
    objects: &Objects,
    alloc: Global,
    bytes: &mut Bytes,
    layout: &Layout,
    fid: Fid,
    position: u64,
    count: u64,
) -> Result<(), Memory>
    requires fits { position + count ≤ 2 ^ 40 }
    requires unit { position % layout.now.size + count ≤ layout.now.size }
    ensures added { OnOk result (bytes.new
        ≡ bytes.old ++ file_run layout.now fid objects.now position count) }
{
    let (stripe, offset) = layout.place(position);
    add_run(
        objects,
        alloc,
        bytes,
        Resource { fid, stripe },
        offset,
        count,
    )
}

/// So many bytes of a file from a position on; an absent one is 0.
fn content(
    objects: &Objects,
    alloc: Global,
    layout: &Layout,
    fid: Fid,
    position: u64,
    count: u64,
) -> Result<Bytes, Memory>
    requires fits { position + count ≤ 2 ^ 40 }
    ensures content { IfOk result (λ bytes. bytes ≡ file_run layout.now fid objects.now position count) }
{
    let mut bytes = Bytes::new(alloc);
    let mut done = 0;
    while done < count {
        let run = left_of_unit(layout, position + done, count - done);
        add_unit(
            objects,
            alloc,
            &mut bytes,
            layout,
            fid,
            position + done,
            run,
        )?;
        done += run;
    }
    Ok(bytes)
}

/// The bytes that a read of so many from a position on gives: none past the size of the file.
pub(crate) fn read_file(
    objects: &Objects,
    alloc: Global,
    layout: &Layout,
    fid: Fid,
    position: u64,
    count: u64,
) -> Result<Bytes, Memory>
    requires fits { position + count ≤ 2 ^ 40 }
    ensures read { IfOk result (λ bytes. (file : FileBytes) → ShowsFile objects.now fid file
        → bytes ≡ read layout.now file position count) }
{
    let left = file_size(objects, fid, layout).saturating_sub(position);
    content(objects, alloc, layout, fid, position, min(count, left))
}

/// Writes bytes of a file that lie in one unit.
fn write_unit(
    objects: &mut Objects,
    alloc: Global,
    layout: &Layout,
    fid: Fid,
    position: u64,
    bytes: &[u8],
) -> Result<(), Memory>
    requires fits { position + length bytes.now ≤ 2 ^ 40 }
    requires unit { position % layout.now.size + length bytes.now ≤ layout.now.size }
    ensures written { OnOk result ((file : FileBytes) → ShowsFile objects.old fid file
        → ShowsFile objects.new fid (write layout.now position bytes.now file)) }
    ensures others { OnOk result (Others fid objects.old objects.new) }
{
    let (stripe, offset) = layout.place(position);
    objects.put(alloc, Resource { fid, stripe }, offset, bytes)
}

/// Writes bytes of a file from a position on. After want of memory nothing is claimed.
pub(crate) fn write_file(
    objects: &mut Objects,
    alloc: Global,
    layout: &Layout,
    fid: Fid,
    position: u64,
    bytes: &[u8],
) -> Result<(), Memory>
    requires fits { position + length bytes.now ≤ 2 ^ 40 }
    ensures written { OnOk result ((file : FileBytes) → ShowsFile objects.old fid file
        → ShowsFile objects.new fid (write layout.now position bytes.now file)) }
    ensures others { OnOk result (Others fid objects.old objects.new) }
{
    let mut done = 0;
    while done < bytes.len() {
        let at = position + done as u64;
        let run = left_of_unit(layout, at, (bytes.len() - done) as u64) as usize;
        write_unit(objects, alloc, layout, fid, at, &bytes[done..done + run])?;
        done += run;
    }
    Ok(())
}

/// Makes a file end at a size. After want of memory nothing is claimed.
pub(crate) fn cut_file(
    objects: &mut Objects,
    alloc: Global,
    layout: &Layout,
    fid: Fid,
    size: u64,
) -> Result<(), Memory>
    requires fits { size ≤ 2 ^ 40 }
    ensures cut { OnOk result ((file : FileBytes) → ShowsFile objects.old fid file
        → ShowsFile objects.new fid (cut layout.now size file)) }
    ensures others { OnOk result (Others fid objects.old objects.new) }
{
    for stripe in 0..layout.count() {
        let end = layout.below(stripe, size);
        objects.cut(alloc, Resource { fid, stripe }, end)?;
    }
    Ok(())
}
