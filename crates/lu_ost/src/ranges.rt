//! The parts of objects that operations touch and write.

ghost use Rattle.std.specs.Prelude.{◌≡◌, ◌≤◌, ◌+◌, ◌-◌, ◌*◌, max, length, IfOk};
ghost use Rattle.lu_lock.specs.Growth.{the_end};
ghost use Rattle.lu_spec_machine.specs.Objects.{range, put_range, page_extent, page_size};
ghost use Rattle.lu_service.specs.Contents.{most_bytes};

use super::reading::PAGE;
use lu_base::{Bytes, Extent, Memory, Resource};
use lu_part::{Part, Parts};
use std::alloc::Global;

/// The bytes of an extent of an object.
fn range(alloc: Global, resource: Resource, extent: Extent) -> Result<Parts, Memory>
    ensures range { IfOk result (λ parts. parts ≡ range resource extent.first extent.last) }
{
    let mut parts = Parts::new(alloc);
    parts.push(Part::Bytes(resource.fid, resource.stripe, extent))?;
    Ok(parts)
}

/// All bytes of an object.
pub(crate) fn whole(alloc: Global, resource: Resource) -> Result<Parts, Memory>
    ensures range { IfOk result (λ parts. parts ≡ range resource 0 the_end) }
{
    range(
        alloc,
        resource,
        Extent {
            first: 0,
            last: u64::MAX,
        },
    )
}

/// The bytes of a page.
pub(crate) fn page_range(alloc: Global, resource: Resource, page: u64) -> Result<Parts, Memory>
    requires end { (page + 1) * page_size ≤ most_bytes }
    ensures range { IfOk result (λ parts. parts
        ≡ range resource (page_extent page).first (page_extent page).last) }
{
    range(
        alloc,
        resource,
        Extent {
            first: page * PAGE,
            last: page * PAGE + (PAGE - 1),
        },
    )
}

/// What a put writes: nothing where it has no bytes.
pub(crate) fn put_range(
    alloc: Global,
    resource: Resource,
    offset: u64,
    bytes: &Bytes,
) -> Result<Parts, Memory>
    requires end { offset + length bytes.now ≤ most_bytes }
    ensures range { IfOk result (λ parts. parts ≡ put_range resource offset bytes.now) }
{
    let len = bytes.len() as u64;
    if len == 0 {
        return Ok(Parts::new(alloc));
    }
    range(
        alloc,
        resource,
        Extent {
            first: offset,
            last: offset + (len - 1),
        },
    )
}

/// What a cut writes: its last offset, which it also gives a byte, and all from there on.
pub(crate) fn cut_range(alloc: Global, resource: Resource, size: u64) -> Result<Parts, Memory>
    ensures range { IfOk result (λ parts. parts ≡ range resource (max size 1 - 1) the_end) }
{
    range(
        alloc,
        resource,
        Extent {
            first: size.max(1) - 1,
            last: u64::MAX,
        },
    )
}
