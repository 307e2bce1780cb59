//! What is read of a page.

ghost use Rattle.std.specs.Prelude.{◌≡◌, ◌≤◌, ◌<◌, ◌/◌, ◌%◌, ◌++◌, replicate, length, IfOk, OnOk, OnErr};
ghost use Rattle.lu_spec_machine.specs.Objects.{content, page_size};
ghost use Rattle.lu_service.specs.Contents.{most_bytes};

use lu_base::{Bytes, Extent, Memory};
use lu_object::Object;
use std::alloc::Global;

/// The bytes of a page.
pub(crate) const PAGE: u64 = 4096;

/// What a `get` reads under a lock on this part of a page: from the page's start to the last byte that is there in
/// the part.
pub(crate) fn page_content(alloc: Global, object: &Object, part: Extent) -> Result<Bytes, Memory>
    requires ordered { part.first ≤ part.last }
    requires page { part.last / page_size ≡ part.first / page_size }
    requires end { part.last < most_bytes }
    ensures read { IfOk result (λ bytes. bytes ≡ content (part.first / page_size) part object.now) }
{
    let read = object.read(alloc, part.first, (part.last - part.first + 1) as usize)?;
    if read.is_empty() {
        return Ok(read);
    }
    let mut content = zeros(alloc, (part.first % PAGE) as usize)?;
    content.extend(read.as_slice())?;
    Ok(content)
}

/// So many zeros.
fn zeros(alloc: Global, count: usize) -> Result<Bytes, Memory>
    ensures zeros { IfOk result (λ bytes. bytes ≡ replicate count 0) }
{
    let bytes: Vec<u8> = Vec::from_elem(alloc, 0, count)?;
    Ok(Bytes::from(bytes))
}
