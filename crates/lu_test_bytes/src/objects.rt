//! One object.

use lu_base::Extent;
use lu_object::Object;
use std::test::Fail;

#[test]
fn an_object_is_written_read_and_cut(rt: HostRuntime) -> Result<(), Fail> {
    let alloc = rt.alloc();
    let mut object = Object::new(alloc);
    object.write(2, b"\x61")?;
    assert_eq!(rt; object.size(), 3);
    assert_eq!(rt;
        object.read(alloc, 0, 9)?.as_slice(),
        b"\x00\x00\x61".as_slice()
    );
    let part = Extent { first: 0, last: 9 };
    assert_eq!(rt; object.last_in(part), Some(2));
    for size in [5, 1, 0] {
        if size <= 5 {
            object.cut(size)?;
        }
        assert_eq!(rt; object.size(), size);
    }
    Ok(())
}
