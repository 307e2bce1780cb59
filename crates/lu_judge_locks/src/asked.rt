//! How a lock is asked for.

ghost use Rattle.std.specs.Prelude.{◌≡◌, find, reverse, map};
ghost use Rattle.std.specs.Option.{option_map};
ghost use Rattle.lu_spec_laws.specs.Words.Asked.{is_for, wanted_lock};
ghost use Rattle.lu_judge_pass.specs.Tables.{sending_of};
ghost use Rattle.lu_judge_locks.specs.Asked.{enqueued_lock, enqueued_of, enqueued_with, requested_in};

use lu_base::{Ask, Cookie, Lock, Mode, Policy, Resource, Who};
use lu_judge_pass::{Requests, Sending};
use lu_msg::{Message, Op};
use lu_part::Want;

/// Whether the asked lock is on the same resource and of the same life as this one.
fn is_for(lock: &Lock, asked: &Lock) -> bool
    ensures { result ≡ is_for lock.now asked.now }
{
    asked.resource == lock.resource && asked.ask.who == lock.ask.who
}

/// A wanted lock, under this cookie.
fn wanted_lock(cookie: Cookie, who: Who, want: &Want) -> Lock
    ensures { result ≡ wanted_lock cookie who want.now }
{
    Lock {
        cookie,
        resource: Resource {
            fid: want.fid,
            stripe: 0,
        },
        ask: Ask {
            who,
            mode: Mode::PR,
            policy: Policy::Bits(want.bits),
        },
    }
}

/// How this lock stands among those that the life wants.
pub(crate) fn find_wanted(wants: &[Want], who: Who, lock: &Lock) -> Option<Lock>
    ensures { result ≡ find (is_for lock.now) (map (wanted_lock lock.now.cookie who) wants.now) }
{
    for want in wants {
        let asked = wanted_lock(lock.cookie, who, want);
        if is_for(lock, &asked) {
            return Some(asked);
        }
    }
    None
}

/// What a request to enqueue asks for, under this cookie.
fn enqueued_lock(cookie: Cookie, who: Who, op: Option<&Op>) -> Option<Lock>
    ensures { result ≡ enqueued_lock cookie who (option_map (λ o. o.now) op.entry) }
{
    match op {
        Some(
            Op::Enqueue {
                resource,
                mode,
                extent,
            },
        ) => Some(Lock {
            cookie,
            resource: *resource,
            ask: Ask {
                who,
                mode: *mode,
                policy: Policy::Range(*extent),
            },
        }),
        _ => None,
    }
}

/// What a message that the target took asks for, under this cookie.
fn enqueued_by<'a>(
    requests: &Requests<'a>,
    target: u16,
    cookie: Cookie,
    sending: &Sending<'a>,
) -> Option<Lock>
    ensures { result ≡ enqueued_of (requested_in requests.now target) cookie (sending_of sending.now).message }
{
    match sending.message {
        Message::Request(request) => {
            enqueued_lock(
                cookie,
                request.who,
                requests.asked(target, request.who, request.xid),
            )
        }
        _ => None,
    }
}

/// How this lock stands among what the messages that the target took ask for, the last one first.
pub(crate) fn find_enqueued<'a>(
    requests: &Requests<'a>,
    target: u16,
    lock: &Lock,
    taken: &[Sending<'a>],
) -> Option<Lock>
    ensures { result ≡ find (is_for lock.now)
        (enqueued_with (requested_in requests.now target) lock.now.cookie (reverse (map sending_of taken.now))) }
{
    let mut left = taken.len();
    while left > 0 {
        left -= 1;
        if let Some(asked) = enqueued_by(requests, target, lock.cookie, &taken[left]) {
            if is_for(lock, &asked) {
                return Some(asked);
            }
        }
    }
    None
}
