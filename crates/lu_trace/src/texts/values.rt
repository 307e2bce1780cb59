//! The texts of values. Each function here appends one text.

ghost use Rattle.std.specs.Prelude.{◌≡◌, ◌++◌, ◌∷◌, OnOk, decimal};
ghost use Rattle.std.specs.Fmt.{signed_decimal};
ghost use Rattle.lu_base.specs.Texts.{pair_text};
ghost use Rattle.lu_trace.specs.Values.{who_text, at_text, last_text, extent_text, policy_text, object_text, resource_text};

use itoa::Buffer;
use lu_base::{
    At, Bytes, Extent, Memory, Policy, Resource, Who, put_client, put_node, put_number, put_pair,
};

/// A life.
pub fn put_who(out: &mut Bytes, who: Who) -> Result<(), Memory>
    ensures put { OnOk result (out.new ≡ out.old ++ who_text who) }
{
    put_client(out, who.client)?;
    out.push(b'.')?;
    put_number(out, u64::from(who.life))
}

/// A turn.
pub fn put_at(out: &mut Bytes, at: At) -> Result<(), Memory>
    ensures put { OnOk result (out.new ≡ out.old ++ at_text at) }
{
    put_number(out, at.stamp.0)?;
    out.push(b':')?;
    put_node(out, at.node)
}

/// The last offset of a range.
fn put_last(out: &mut Bytes, last: u64) -> Result<(), Memory>
    ensures put { OnOk result (out.new ≡ out.old ++ last_text last) }
{
    if last == u64::MAX {
        out.extend(b"end")
    } else {
        put_number(out, last)
    }
}

/// A range of offsets.
pub fn put_extent(out: &mut Bytes, extent: Extent) -> Result<(), Memory>
    ensures put { OnOk result (out.new ≡ out.old ++ extent_text extent) }
{
    put_number(out, extent.first)?;
    out.push(b'-')?;
    put_last(out, extent.last)
}

/// An object.
pub fn put_object(out: &mut Bytes, resource: Resource) -> Result<(), Memory>
    ensures put { OnOk result (out.new ≡ out.old ++ object_text resource) }
{
    put_pair(out, resource.fid.0)?;
    out.push(b'/')?;
    put_number(out, u64::from(resource.stripe))
}

/// A number of stripes, which can be -1.
pub fn put_count(out: &mut Bytes, count: i32) -> Result<(), Memory>
    ensures put { OnOk result (out.new ≡ out.old ++ signed_decimal count) }
{
    let mut buffer = Buffer::new();
    out.extend(buffer.format(count).as_bytes())
}

/// The bits of an inode, or a range.
pub fn put_policy(out: &mut Bytes, policy: Policy) -> Result<(), Memory>
    ensures put { OnOk result (out.new ≡ out.old ++ policy_text policy) }
{
    match policy {
        Policy::Bits(bits) => put_number(out, u64::from(bits)),
        Policy::Range(extent) => put_extent(out, extent),
    }
}

/// What a lock of this policy is on.
pub fn put_resource(out: &mut Bytes, resource: Resource, policy: Policy) -> Result<(), Memory>
    ensures put { OnOk result (out.new ≡ out.old ++ resource_text resource policy) }
{
    match policy {
        Policy::Bits(_) => put_pair(out, resource.fid.0),
        Policy::Range(_) => put_object(out, resource),
    }
}
