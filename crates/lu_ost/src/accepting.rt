//! Which operations are on objects, within the limits.

ghost use Rattle.std.specs.Prelude.{◌↔◌, IsTrue};
ghost use Rattle.lu_service.specs.Serving.{IsRepeatable};
ghost use Rattle.lu_service.specs.Takes.{IsOnObject};
ghost use Rattle.lu_service.specs.declared.services.Kind.TheVariants as kind;

use lu_msg::Op;

/// Objects end at or below this offset.
const MOST_BYTES: u64 = 1 << 40;

/// The pages of 4,096 bytes that end at or below it.
const MOST_PAGES: u64 = 1 << 28;

/// Whether it is an operation on an object, in a range that is in order and ends at or below the limit.
pub(crate) fn is_on_object(op: &Op) -> bool
    ensures test { IsTrue result ↔ IsOnObject op.now }
{
    match op {
        Op::Enqueue { extent, .. } => extent.first <= extent.last,
        Op::Get { page, .. } => *page < MOST_PAGES,
        Op::Put { offset, bytes, .. } => {
            *offset <= MOST_BYTES && bytes.len() as u64 <= MOST_BYTES - *offset
        }
        Op::Cut { size, .. } => *size <= MOST_BYTES,
        Op::Size(_) => true,
        _ => false,
    }
}

/// Whether it is one that is performed again: a put or a cut, that ends at or below the limit.
pub(crate) fn is_write(op: &Op) -> bool
    ensures test { IsTrue result ↔ IsRepeatable kind.Ost op.now }
{
    match op {
        Op::Put { .. } | Op::Cut { .. } => is_on_object(op),
        _ => false,
    }
}
