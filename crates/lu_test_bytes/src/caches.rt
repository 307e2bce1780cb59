//! What a client knows under its locks.

use lu_base::{
    Ask, Cookie, Cookies, Extent, Fid, Lock, Memory, Mode, Name, Path, Policy, Resource, TargetId,
    Who,
};
use lu_cache::Cache;
use lu_held::Held;
use lu_msg::{Answer, Op};
use lu_spec_entries::Flush;
use std::alloc::Global;
use std::test::Fail;

/// The cookie 1.1.
const FIRST: Cookie = Cookie(0x1_0000_0001);

const OBJECT: Resource = Resource {
    fid: Fid(0x1_0000_0001),
    stripe: 0,
};

/// A reader's lock 1.1.
const fn lock(policy: Policy) -> Lock {
    Lock {
        cookie: FIRST,
        resource: OBJECT,
        ask: Ask {
            who: Who { client: 0, life: 1 },
            mode: Mode::PR,
            policy,
        },
    }
}

/// The same on the object from its first byte to an offset.
const fn up_to(last: u64) -> Lock {
    lock(Policy::Range(Extent { first: 0, last }))
}

/// Whether the first byte is known, and is this one.
fn knows(cache: &Cache, wanted: u8) -> bool {
    let mut into = [9];
    cache.read(OBJECT, 0, &mut into) && into[0] == wanted
}

#[test]
fn bytes_are_known_until_a_lock_over_them_goes(rt: HostRuntime) -> Result<(), Fail> {
    let mut cache = Cache::new(rt.alloc());
    assert!(rt; !knows(&cache, 0x61));
    cache.fill(OBJECT, 0, b"\x61")?;
    assert!(rt; knows(&cache, 0x61));
    cache.cut(OBJECT, 0);
    assert!(rt; knows(&cache, 0));
    assert!(rt; cache.bytes(OBJECT).is_some());
    cache.forget(&up_to(0));
    assert!(rt; !knows(&cache, 0));
    Ok(())
}

#[test]
fn a_size_comes_with_a_lock_to_the_end(rt: HostRuntime) -> Result<(), Fail> {
    let mut cache = Cache::new(rt.alloc());
    assert_eq!(rt; cache.size(OBJECT, FIRST), None);
    let extent = Extent {
        first: 0,
        last: u64::MAX,
    };
    let asked = Op::Enqueue {
        resource: OBJECT,
        mode: Mode::PR,
        extent,
    };
    let granted = Answer::Granted {
        cookie: FIRST,
        extent,
        size: 2,
    };
    cache.know(&asked, &granted, &[])?;
    assert_eq!(rt; cache.size(OBJECT, FIRST), Some(2));
    cache.hold(&up_to(u64::MAX), Some(9))?;
    assert_eq!(rt; cache.size(OBJECT, FIRST), Some(9));
    cache.grow(OBJECT, &Flush::Cut(3));
    assert_eq!(rt; cache.size(OBJECT, FIRST), Some(3));
    cache.clear();
    assert_eq!(rt; cache.size(OBJECT, FIRST), None);
    Ok(())
}

#[test]
fn an_offset_was_shown(rt: HostRuntime) -> Result<(), Fail> {
    let mut cache = Cache::new(rt.alloc());
    let narrow = up_to(99);
    assert_eq!(rt; cache.shown(&narrow), None);
    cache.show(&narrow, 50)?;
    assert_eq!(rt; cache.shown(&narrow), Some(50));
    Ok(())
}

/// The path of `/a`.
fn path(alloc: Global) -> Result<Path, Memory> {
    let mut path = Path::new(alloc);
    path.push(Name::from_slice(alloc, b"a")?)?;
    Ok(path)
}

/// Holds a lock of the metadata target, neither pinned nor called back.
fn hold(held: &mut Held, target: TargetId, lock: Lock) -> Result<(), Memory> {
    held.remove(target, lock.cookie);
    held.granted(target, lock)
}

#[test]
fn a_name_is_known_under_its_lock(rt: HostRuntime) -> Result<(), Fail> {
    let alloc = rt.alloc();
    let mut cache = Cache::new(alloc);
    let look = Op::Lookup(path(alloc)?);
    let mut marked = Cookies::new(alloc);
    assert!(rt; cache.known(alloc, &look, &marked)?.is_none());
    cache.know(&look, &Answer::Dir(OBJECT.fid), &[lock(Policy::Bits(1))])?;
    let known = cache.known(alloc, &look, &marked)?;
    assert!(rt; known.is_some_and(|known| known.answer == Answer::Dir(OBJECT.fid)));
    marked.push(FIRST)?;
    assert!(rt; cache.known(alloc, &look, &marked)?.is_none());
    Ok(())
}

/// A fact counts where the metadata target's lock is held.
#[test]
fn a_name_is_known_while_its_lock_is_held(rt: HostRuntime) -> Result<(), Fail> {
    let alloc = rt.alloc();
    let mut cache = Cache::new(alloc);
    let mut held = Held::new(alloc, 16)?;
    let path = path(alloc)?;
    let look = Op::Lookup(self::path(alloc)?);
    cache.know(&look, &Answer::Dir(OBJECT.fid), &[lock(Policy::Bits(1))])?;
    assert!(rt; cache.known_under(alloc, &look, &held)?.is_none());
    hold(&mut held, TargetId(0), lock(Policy::Bits(1)))?;
    assert!(rt; cache.known_under(alloc, &look, &held)?.is_some());
    let locks = cache.stat_locks(alloc, &path, OBJECT.fid, &held)?;
    assert_eq!(rt; locks.as_slice(), [FIRST].as_slice());
    Ok(())
}
