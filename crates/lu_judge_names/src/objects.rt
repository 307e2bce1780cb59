//! What an operation of an object storage target writes and touches.

ghost use Rattle.std.specs.Prelude.{◌≡◌, ◌+◌, ◌-◌, ◌*◌, ◌^◌, ◌≤◌, length, max, [], IfOk, if◌then◌else◌};
ghost use Rattle.lu_spec_machine.specs.Fits.{IsContent, IsSize, has_form};
ghost use Rattle.lu_spec_machine.specs.Objects.{object_writes, object_touches, range, put_range, page_extent, granted_range};
ghost use Rattle.lu_trace.specs.WellFormed.{IsOp};

use lu_base::{Extent, Memory, Resource};
use lu_msg::{Answer, Op};
use lu_part::{Part, Parts};
use std::alloc::Global;

/// The bytes of a page.
const PAGE: u64 = 4096;

/// A range of an object, from the first offset to the last.
pub fn range(alloc: Global, resource: Resource, first: u64, last: u64) -> Result<Parts, Memory>
    ensures { IfOk result (λ parts. parts ≡ range resource first last) }
{
    let mut parts = Parts::new(alloc);
    parts.push(Part::Bytes(resource.fid, resource.stripe, Extent { first, last }))?;
    Ok(parts)
}

/// What a put of so many bytes writes. Of bytes that would end beyond the greatest offset nothing is claimed.
fn put_range(alloc: Global, resource: Resource, offset: u64, bytes: &[u8]) -> Result<Parts, Memory>
    ensures { IfOk result (λ parts. offset + length bytes.now ≤ 2 ^ 40
        → parts ≡ put_range resource offset bytes.now) }
{
    if bytes.is_empty() {
        return Ok(Parts::new(alloc));
    }
    let last = offset.saturating_add(bytes.len() as u64 - 1);
    range(alloc, resource, offset, last)
}

/// What a page holds. Of a page beyond the greatest offset nothing is claimed.
fn page_range(alloc: Global, resource: Resource, page: u64) -> Result<Parts, Memory>
    ensures { IfOk result (λ parts. (page + 1) * 4096 ≤ 2 ^ 40
        → parts ≡ range resource (page_extent page).first (page_extent page).last) }
{
    let first = page.saturating_mul(PAGE);
    range(alloc, resource, first, first.saturating_add(PAGE - 1))
}

/// What an operation writes, where it is a well formed one of an object storage target.
pub fn object_writes(alloc: Global, op: &Op) -> Result<Parts, Memory>
    ensures writes { IfOk result (λ parts. IsOp op.now → parts ≡ object_writes op.now) }
{
    match op {
        Op::Put {
            resource,
            offset,
            bytes,
            ..
        } => put_range(alloc, *resource, *offset, bytes.as_slice()),
        Op::Cut { resource, size, .. } => range(alloc, *resource, (*size).max(1) - 1, u64::MAX),
        _ => Ok(Parts::new(alloc)),
    }
}

/// What an operation touches, where it is a well formed one of an object storage target that has this answer.
pub fn object_touches(alloc: Global, op: &Op, answer: &Answer) -> Result<Parts, Memory>
    ensures touches { IfOk result (λ parts. IsOp op.now → parts ≡ object_touches op.now answer.now) }
{
    match op {
        Op::Enqueue { resource, .. } => granted_range(alloc, *resource, answer),
        Op::Get { resource, page, .. } => got_range(alloc, *resource, *page, answer),
        Op::Size(resource) => sized_range(alloc, *resource, answer),
        _ => Ok(Parts::new(alloc)),
    }
}

/// What a lock that is granted lets its holder touch.
fn granted_range(alloc: Global, resource: Resource, answer: &Answer) -> Result<Parts, Memory>
    ensures { IfOk result (λ parts. parts ≡ granted_range resource answer.now) }
{
    match answer {
        Answer::Granted { extent, .. } => range(alloc, resource, extent.first, extent.last),
        _ => Ok(Parts::new(alloc)),
    }
}

/// What a page that is answered touches.
fn got_range(alloc: Global, resource: Resource, page: u64, answer: &Answer) -> Result<Parts, Memory>
    ensures { IfOk result (λ parts. (page + 1) * 4096 ≤ 2 ^ 40
        → parts ≡ (if has_form IsContent answer.now
        then range resource (page_extent page).first (page_extent page).last else [])) }
{
    match answer {
        Answer::Content(_) => page_range(alloc, resource, page),
        _ => Ok(Parts::new(alloc)),
    }
}

/// What a size that is answered touches: the whole object.
fn sized_range(alloc: Global, resource: Resource, answer: &Answer) -> Result<Parts, Memory>
    ensures { IfOk result (λ parts. parts
        ≡ (if has_form IsSize answer.now then range resource 0 (2 ^ 64 - 1) else [])) }
{
    match answer {
        Answer::Size(_) => range(alloc, resource, 0, u64::MAX),
        _ => Ok(Parts::new(alloc)),
    }
}
