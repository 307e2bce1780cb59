//! How locks are called back, one after another.

ghost use Rattle.std.specs.Prelude.{◌≡◌, IfOk, OnOk};
ghost use Rattle.lu_target_locks.specs.Calling.{calling, call_one, call_all};

use lu_base::{Cookie, Lock, Locks, Memory};
use lu_callback::{Callbacks, Kind};
use lu_lockspace::Lockspace;
use std::alloc::Global;

/// Calls back the lock of this cookie where it isn't called back, and puts it behind those of before.
fn call_one(
    calls: &mut Callbacks,
    space: &Lockspace,
    tick: u64,
    cookie: Cookie,
    called: &mut Vec<Lock>,
) -> Result<(), Memory>
    ensures called { OnOk result (calling calls.new called.new.items
        ≡ call_one space.now tick (calling calls.old called.old.items) cookie) }
{
    if !calls.ask(cookie, Kind::Block, tick)? {
        return Ok(());
    }
    if let Some(lock) = space.find(cookie) {
        called.push(lock)?;
    }
    Ok(())
}

/// Calls back the locks of these cookies that aren't called back, and answers them. After want of memory some may be
/// called back.
pub(crate) fn call_all(
    alloc: Global,
    calls: &mut Callbacks,
    space: &Lockspace,
    tick: u64,
    cookies: &[Cookie],
) -> Result<Locks, Memory>
    ensures called { IfOk result (λ locks. calling calls.new locks ≡ call_all space.now tick calls.old cookies.now) }
{
    let mut called = Vec::new(alloc);
    for cookie in cookies {
        call_one(calls, space, tick, *cookie, &mut called)?;
    }
    Ok(Locks::from(called))
}
