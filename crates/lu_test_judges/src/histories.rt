//! The plain machine of names and bytes: each public call once.

use lu_base::{Bytes, Cookie, Fid, Memory, Name, Path, Resource, Txn, Who};
use lu_msg::{Answer, Call, Op};
use lu_posix::Machine;
use lu_spec_machine::{Act, Deed};
use std::alloc::Global;
use std::test::Fail;

const ASKER: Who = Who { client: 0, life: 1 };

/// The numbers 1.1 and 1.2.
const FIRST: u64 = 0x1_0000_0001;

const SECOND: u64 = 0x1_0000_0002;

/// The path of a name in the root.
fn path(alloc: Global, name: &[u8]) -> Result<Path, Memory> {
    let mut path = Path::new(alloc);
    path.push(Name::from_slice(alloc, name)?)?;
    Ok(path)
}

#[test]
fn a_directory_is_made_and_listed(rt: HostRuntime) -> Result<(), Fail> {
    let alloc = rt.alloc();
    let mut machine = Machine::new(alloc, 1)?;
    let make = Op::Mkdir(path(alloc, b"a")?);
    assert!(rt; machine.would_answer(alloc, Txn(FIRST), ASKER, &make)? == Answer::Made(Fid(FIRST)));
    assert!(rt; machine.perform(alloc, Txn(FIRST), ASKER, &make)? == Answer::Made(Fid(FIRST)));
    let list = Act {
        who: ASKER,
        number: Txn(0),
        deed: Deed::Names(Op::List(Path::new(alloc))),
    };
    match machine.answer(alloc, &list)? {
        Answer::Names(names) => {
            assert_eq!(rt; names.len(), 1);
            assert!(rt;
                names
                    .at(0)
                    .is_some_and(|name| name.as_slice() == b"a".as_slice())
            );
        }
        _ => assert!(rt; false, "no names"),
    }
    Ok(())
}

/// The file 1.2 with the default layout, over one target.
fn with_file(alloc: Global) -> Result<Machine, Memory> {
    let mut machine = Machine::new(alloc, 1)?;
    let create = Op::Create {
        path: path(alloc, b"f")?,
        size: 0,
        count: 0,
    };
    machine.perform(alloc, Txn(SECOND), ASKER, &create)?;
    Ok(machine)
}

/// The first nine bytes of the file.
fn read(alloc: Global, machine: &mut Machine) -> Result<Answer, Memory> {
    let read = Call::Read {
        handle: 0,
        offset: 0,
        length: 9,
    };
    machine.call(alloc, Fid(SECOND), &read)
}

#[test]
fn bytes_are_cut_put_and_read(rt: HostRuntime) -> Result<(), Fail> {
    let alloc = rt.alloc();
    let mut machine = with_file(alloc)?;
    let cut = Call::Cut { handle: 0, size: 3 };
    assert!(rt; machine.call(alloc, Fid(SECOND), &cut)? == Answer::Done);
    let object = Resource {
        fid: Fid(SECOND),
        stripe: 0,
    };
    assert_eq!(rt; machine.object_size(object), 3);
    let read = read(alloc, &mut machine)?;
    assert!(rt; read == Answer::Content(Bytes::from_slice(alloc, &[0, 0, 0])?));
    let piece = Act {
        who: ASKER,
        number: Txn(0),
        deed: Deed::Piece(Op::Cut {
            resource: object,
            cookie: Cookie(1),
            size: 1,
        }),
    };
    assert!(rt; machine.answer(alloc, &piece)? == Answer::Done);
    assert_eq!(rt; machine.object_size(object), 1);
    Ok(())
}
