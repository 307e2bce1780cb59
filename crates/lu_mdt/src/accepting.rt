//! Which operations are on names.

ghost use Rattle.std.specs.Prelude.{◌↔◌, IsTrue};
ghost use Rattle.lu_service.specs.Takes.{IsNamed};

use lu_msg::Op;

/// Whether it is an operation on names.
pub(crate) fn is_named(op: &Op) -> bool
    ensures test { IsTrue result ↔ IsNamed op.now }
{
    match op {
        Op::Create { count, .. } => *count >= -1,
        Op::Enqueue { .. } | Op::Get { .. } | Op::Put { .. } | Op::Cut { .. } | Op::Size(_) =>
            false,
        _ => true,
    }
}
