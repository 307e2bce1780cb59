//! The objects that operations are on.

ghost use Rattle.std.specs.Prelude.{◌≡◌};
ghost use Rattle.lu_spec_laws.specs.Words.Requests.{object, same_resource, same_object};

use lu_base::Resource;
use lu_msg::{Op, Request};

/// The object that the operation is on; none for one of the metadata target.
fn object(op: &Op) -> Option<Resource>
    ensures object { result ≡ object op.now }
{
    match op {
        Op::Enqueue { resource, .. }
        | Op::Get { resource, .. }
        | Op::Put { resource, .. }
        | Op::Cut { resource, .. }
        | Op::Size(resource) => Some(*resource),
        _ => None,
    }
}

/// Whether the two requests are on one object.
pub fn same_object(a: &Request, b: &Request) -> bool
    ensures same { result ≡ same_object a.now b.now }
{
    match object(&a.op) {
        Some(one) => match object(&b.op) {
            Some(other) => one.fid.0 == other.fid.0 && one.stripe == other.stripe,
            None => false,
        },
        None => false,
    }
}
