//! Requests in flight at one target: their numbers, tags and objects.

ghost use Rattle.std.specs.Prelude.{◌≡◌, ℕ, ◌<◌, ◌≤◌, length};
ghost use Rattle.std.specs.Option.{option_copied};
ghost use Rattle.lu_msg.specs.Limits.{tag_count};
ghost use Rattle.lu_import.specs.Objects.{object, same_object};
ghost use Rattle.lu_import.specs.InFlights.{has_number, request_of, has_tag, IsLeastFree, is_busy, front_waits};

use lu_base::{Resource, TargetId, Xid};
use lu_msg::Op;

/// An operation that waits to be sent.
#[derive(Debug, Drop)]
pub struct Waiting {
    /// The slot, 0 to 3, of the call that it is for; none of a write-back.
    pub slot: Option<u8>,
    pub op: Op,
}

/// A request that was sent and whose reply wasn't heard.
#[derive(Debug, Drop)]
pub struct InFlight {
    pub xid: Xid,
    /// The tag, 0 to 7.
    pub tag: u8,
    pub op: Op,
    /// The slot, 0 to 3, of the call that it is for; none of a write-back.
    pub slot: Option<u8>,
}

/// The object that an operation of an object storage target is on; none of one of the metadata target.
fn object(op: &Op) -> Option<Resource>
    ensures { result ≡ object op.now }
{
    match op {
        Op::Enqueue { resource, .. }
        | Op::Get { resource, .. }
        | Op::Put { resource, .. }
        | Op::Cut { resource, .. }
        | Op::Size(resource) => Some(*resource),
        _ => None,
    }
}

/// Whether both operations are on one object.
fn same_object(a: &Op, b: &Op) -> bool
    ensures { result ≡ same_object a.now b.now }
{
    match (object(a), object(b)) {
        (Some(a), Some(b)) => a == b,
        _ => false,
    }
}

/// Whether a request has this number.
pub(crate) fn has_number(requests: &[InFlight], xid: Xid) -> bool
    ensures { result ≡ has_number xid.0 requests.now }
{
    requests.iter().any(|request| request.xid == xid)
}

/// The request of this number.
pub(crate) fn request_of(requests: &[InFlight], xid: Xid) -> Option<&InFlight>
    ensures { option_copied result ≡ request_of xid.0 requests.now }
{
    for request in requests {
        if request.xid == xid {
            return Some(request);
        }
    }
    None
}

/// Whether a request is on the object of this operation.
fn is_busy(requests: &[InFlight], op: &Op) -> bool
    ensures { result ≡ is_busy requests.now op.now }
{
    requests.iter().any(|request| same_object(&request.op, op))
}

/// Whether this operation, at the front of the queue, has to wait: at an object storage target, while
/// a request on its object is in flight.
pub(crate) fn front_waits(target: TargetId, requests: &[InFlight], op: &Op) -> bool
    ensures { result ≡ front_waits target requests.now op.now }
{
    target.0 > 0 && is_busy(requests, op)
}

/// Whether a request has this tag.
fn has_tag(requests: &[InFlight], tag: u8) -> bool
    ensures { result ≡ has_tag tag requests.now }
{
    requests.iter().any(|request| request.tag == tag)
}

/// The least tag that no request has.
pub(crate) fn free_tag(requests: &[InFlight]) -> u8
    requires { length requests.now < tag_count }
    ensures least { IsLeastFree requests.now result }
    ensures within { result ≤ length requests.now }
{
    let mut tag = 0;
    while has_tag(requests, tag) {
        tag += 1;
    }
    tag
}
