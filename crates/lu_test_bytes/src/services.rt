//! The service of an object storage target.

ghost use Rattle.std.specs.Prelude.{◌<◌, ◌≤◌};

use lu_base::{Bytes, Cookie, Extent, Fid, Resource, Txn, Who};
use lu_msg::{Answer, Op};
use lu_ost::Ost;
use lu_service::Service;
use std::alloc::Global;
use std::test::Fail;

const ASKER: Who = Who { client: 0, life: 1 };

const OBJECT: Resource = Resource {
    fid: Fid(7),
    stripe: 0,
};

/// Whether a put of bytes from offset 5 on changes the object, writes one part, and is done.
fn is_put(alloc: Global, ost: &mut Ost, bytes: &[u8]) -> Result<bool, Fail>
    requires above { ost.old.last < 1 }
    ensures below { ost.new.last ≤ 1 }
{
    if bytes.len() > 9 {
        return Ok(false);
    }
    let op = Op::Put {
        resource: OBJECT,
        cookie: Cookie(1),
        offset: 5,
        bytes: Bytes::from_slice(alloc, bytes)?,
    };
    let is_one = ost.changes(ASKER, &op) && ost.writes(alloc, ASKER, &op)?.len() == 1;
    Ok(is_one && ost.apply(alloc, Txn(1), ASKER, &op)? == Answer::Done)
}

#[test]
fn objects_are_served(rt: HostRuntime) -> Result<(), Fail> {
    let alloc = rt.alloc();
    let mut ost = Ost::new(alloc);
    assert!(rt; is_put(alloc, &mut ost, b"abc")?);
    let size = Op::Size(OBJECT);
    assert!(rt; !ost.changes(ASKER, &size));
    assert_eq!(rt; ost.touches(alloc, ASKER, &size)?.len(), 1);
    assert!(rt; ost.grants(alloc, ASKER, &size)?.is_empty());
    assert!(rt; ost.apply(alloc, Txn(2), ASKER, &size)? == Answer::Size(8));
    let cut = Op::Cut {
        resource: OBJECT,
        cookie: Cookie(1),
        size: 7,
    };
    assert!(rt; ost.apply(alloc, Txn(3), ASKER, &cut)? == Answer::Done);
    let page = Extent {
        first: 0,
        last: 4095,
    };
    let read = ost.read(alloc, OBJECT, page)?;
    assert_eq!(rt; read.as_slice(), b"\x00\x00\x00\x00\x00ab".as_slice());
    ost.forget(ASKER);
    Ok(())
}
