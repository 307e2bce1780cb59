//! What a client asks of one target, and what it tells when the target recovers.

ghost use Rattle.std.specs.Prelude.{◌<◌, ◌≤◌, ◌+◌, ◌^◌, OnOk};

use crate::values::{A, FIRST, INODE, NEXT, mkdir, on_bits, reply};
use lu_base::{Cookie, Lock, Mode, Numbers, TargetId, Txn, Xid};
use lu_import::{Import, Standing};
use lu_msg::{Message, Post};
use std::test::Fail;

/// The number of a request; 0 of what isn't one.
fn sent(message: Option<&Message>) -> u64 {
    match message {
        Some(Message::Request(request)) => request.xid.0,
        _ => 0,
    }
}

/// The number of the request that is sent next; 0 where none is.
fn next_number(import: &mut Import) -> Result<u64, Fail>
    requires { import.old.last < 2 ^ 63 }
    ensures { OnOk result (import.new.last ≤ import.old.last + 1) }
{
    let message = import.next()?;
    Ok(sent(message.as_ref()))
}

/// Whether a message is the word that so many replays and locks were sent.
fn is_word(post: Option<&Post>, count: (u32, u32)) -> bool {
    match post {
        Some(post) => {
            matches!(&post.message, Message::Word { replays, locks, .. } if (*replays, *locks) == count)
        }
        None => false,
    }
}

#[test]
fn a_request_goes_and_its_reply_is_heard_once(rt: HostRuntime) -> Result<(), Fail> {
    let alloc = rt.alloc();
    let mut import = Import::new(alloc, TargetId(0), A, 1, 1);
    import.queue(Some(0), mkdir(alloc)?)?;
    assert_eq!(rt; next_number(&mut import)?, 1);
    assert_eq!(rt; next_number(&mut import)?, 0);
    assert_eq!(rt; import.in_flight(0).map(|request| request.0), Some(Xid(1)));
    assert_eq!(rt;
        import.find(Xid(1)).and_then(|request| request.slot),
        Some(0)
    );
    assert_eq!(rt; import.again()?.len(), 1);
    assert_eq!(rt; import.hear(&reply(alloc, A, 1, Txn(0))), Ok(true));
    assert_eq!(rt; import.hear(&reply(alloc, A, 1, Txn(0))), Ok(false));
    assert!(rt; import.ready(1, Txn(0))?.is_empty());
    Ok(())
}

/// A target boots: the client hands in its replay and its lock, and is served again. Its next life joins.
#[test]
fn a_boot_is_told_what_isnt_committed(rt: HostRuntime) -> Result<(), Fail> {
    let alloc = rt.alloc();
    let mut import = Import::new(alloc, TargetId(0), A, 1, 1);
    import.queue(Some(0), mkdir(alloc)?)?;
    assert_eq!(rt; next_number(&mut import)?, 1);
    assert_eq!(rt; import.hear(&reply(alloc, A, 1, Txn(FIRST))), Ok(true));
    let lock = Lock {
        cookie: Cookie(7),
        resource: INODE,
        ask: on_bits(A, Mode::PR, 3),
    };
    let sends = import.reconnect(2, &[lock])?;
    assert_eq!(rt; sends.len(), 3);
    assert!(rt; is_word(sends.at(2), (1, 1)));
    assert_eq!(rt; import.standing(), Standing::Recovering);
    import.note(Txn(FIRST), &Numbers::new(alloc))?;
    assert!(rt; import.ready(2, Txn(FIRST))?.is_empty());
    assert!(rt; import.serving() && import.boot() == 2);
    import.begin_life(NEXT);
    assert_eq!(rt; import.standing(), Standing::Joining);
    Ok(())
}
