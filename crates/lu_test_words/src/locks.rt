//! Locks: which conflict, and how far an extent grows.

ghost use Rattle.std.specs.Prelude.{◌≡◌};

use lu_base::{Ask, Extent, Mode, Policy, Who};
use lu_lock::{conflict, grow};

/// A lock of client 0 on a range of offsets.
fn lock(mode: Mode, first: u64, last: u64) -> Ask
    ensures range { result.policy ≡ Policy.Range (record { first = first; last = last }) }
{
    Ask {
        who: Who { client: 0, life: 1 },
        mode,
        policy: Policy::Range(Extent { first, last }),
    }
}

#[test]
fn locks_conflict_where_they_share_a_byte(rt: HostRuntime) {
    let read = lock(Mode::PR, 0, 4095);
    assert!(rt; conflict(&read, &lock(Mode::PW, 4095, 8191)));
    assert!(rt; !conflict(&read, &lock(Mode::PW, 4096, 8191)));
}

/// A lock from 200 to 299 grows to the locks beside it, granted or waiting.
#[test]
fn an_extent_grows_to_the_nearest_lock(rt: HostRuntime) {
    let ask = lock(Mode::PW, 200, 299);
    let granted = lock(Mode::PW, 0, 99);
    let waiting = lock(Mode::PW, 500, 599);
    let extent = grow(&ask, &[granted], &[waiting]);
    assert!(rt;
        extent
            == Extent {
                first: 100,
                last: 499
            }
    );
}
