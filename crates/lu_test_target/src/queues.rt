//! The queue of one resource.

ghost use Rattle.lu_lock.specs.Overlap.{IsOrdered};

use crate::values::{A, B, END, over};
use lu_base::{Ask, Cookie, Extent, Mode, Policy};
use lu_queue::{Grant, Placed, Queue, QueueError};
use std::alloc::Global;
use std::test::Fail;

/// Restores a lock where nothing waits.
fn restored(alloc: Global, queue: &mut Queue, cookie: u64, ask: Ask) -> Result<bool, Fail>
    requires ordered { IsOrdered ask.policy }
{
    let waiting = queue.waiting_locks(alloc)?;
    match waiting.as_slice() {
        [] => Ok(queue.restore(alloc, Cookie(cookie), ask)?),
        _ => Err(Fail::from("a lock waits")),
    }
}

#[test]
fn a_lock_waits_for_another(rt: HostRuntime) -> Result<(), Fail> {
    let alloc = rt.alloc();
    let mut queue = Queue::new(alloc);
    let whole = Policy::Range(Extent {
        first: 0,
        last: END,
    });
    let placed = queue.enqueue(alloc, Cookie(1), over(A, Mode::PR, 0, 9));
    assert_eq!(rt; placed, Ok(Placed::Granted(whole)));
    let wanted = over(B, Mode::PW, 5, 5);
    assert_eq!(rt;
        queue.enqueue(alloc, Cookie(2), wanted),
        Ok(Placed::Waiting)
    );
    assert_eq!(rt;
        queue.enqueue(alloc, Cookie(2), wanted),
        Err(QueueError::Twice)
    );
    assert_eq!(rt;
        queue.blockers(alloc, Cookie(2))?.as_slice(),
        [Cookie(1)].as_slice()
    );
    assert_eq!(rt; queue.waiting(0).is_some(), true);
    let granted = queue.cancel(alloc, Cookie(1))?;
    let all = Grant {
        cookie: Cookie(2),
        ask: Ask {
            who: B,
            mode: Mode::PW,
            policy: whole,
        },
    };
    assert_eq!(rt; granted.as_slice(), [all].as_slice());
    assert_eq!(rt;
        queue.cancel(alloc, Cookie(1)).err(),
        Some(QueueError::NoLock)
    );
    assert_eq!(rt; queue.granted(0), Some(&all));
    assert_eq!(rt; queue.find(Cookie(2)), Some(&all));
    assert!(rt; !restored(alloc, &mut queue, 3, over(A, Mode::PR, 0, 0))?);
    Ok(())
}

#[test]
fn a_lock_is_restored(rt: HostRuntime) -> Result<(), Fail> {
    let alloc = rt.alloc();
    let mut queue = Queue::new(alloc);
    assert!(rt; restored(alloc, &mut queue, 3, over(A, Mode::PR, 0, 0))?);
    assert!(rt; queue.is_granted(Cookie(3)) && !queue.has(Cookie(4)));
    Ok(())
}

/// Lives that end leave the others, as far as they grow.
#[test]
fn lives_end(rt: HostRuntime) -> Result<(), Fail> {
    let alloc = rt.alloc();
    let mut queue = Queue::new(alloc);
    queue.enqueue(alloc, Cookie(1), over(A, Mode::PW, 0, 9))?;
    queue.enqueue(alloc, Cookie(2), over(B, Mode::PW, 5, 5))?;
    let (queue, granted) = queue.ended(alloc, &[A])?;
    assert_eq!(rt; granted.len(), 1);
    assert!(rt; !queue.has_of(&[A]) && queue.has_of(&[B]) && !queue.is_empty());
    Ok(())
}
