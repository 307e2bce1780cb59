//! Whether a message may come to a client: in a run each one may.

ghost use Rattle.std.specs.Prelude.{◌≡◌, ◌+◌, ◌<◌, ◌^◌, nat_le, length, map, option_map};
ghost use Rattle.std.specs.List.{list_any};
ghost use Rattle.std.specs.Option.{option_copied};
ghost use Rattle.lu_base.specs.declared.ids.Node.TheVariants.{Target};
ghost use Rattle.lu_base.specs.declared.locks.Lock.{Lock as LockOf};
ghost use Rattle.lu_client_refines.specs.Imports.{flight_of};
ghost use Rattle.lu_spec_client.specs.Caches.{brought, granted_lock};
ghost use Rattle.lu_spec_client.specs.Imports.{import_of};
ghost use Rattle.lu_spec_client.specs.Messages.{find_flight, is_waiter, size_with};
ghost use Rattle.lu_held.specs.Held.{is_held};
ghost use Rattle.lu_msg.specs.declared.messages.Reply.{Reply as ReplyOf};
ghost use Rattle.lu_client.specs.Accepting.{cookies_of, has_cookie, is_new};
ghost use Rattle.lu_client.specs.Comings.{are_new, is_in_file, is_short, may_answer, may_come, may_evict, may_from, may_grant, may_reply};

use super::client::Client;
use lu_base::{Cookie, Lock, TargetId, Who, Xid};
use lu_call::CallState;
use lu_held::LockName;
use lu_import::InFlight;
use lu_msg::{Answer, GrantNotice, Message, Op, Reply};
use lu_spec_machine::answer_fits;

/// The size of the greatest file, in bytes.
const MOST_BYTES: u64 = 1 << 40;

/// As many pages has the greatest file.
const MOST_PAGES: u64 = 1 << 28;

/// Whether a size that an answer tells, if any, is at most that of the greatest file.
fn tells_short(answer: &Answer) -> bool
    ensures short { result ≡ is_short (size_with answer.now) }
{
    match answer {
        Answer::Granted { size, .. } => *size <= MOST_BYTES,
        _ => true,
    }
}

/// Whether so many bytes from an offset on lie in the greatest file.
fn lies_in_file(offset: u64, count: usize) -> bool
    ensures lies { result ≡ nat_le (offset + count) (2 ^ 40) }
{
    if offset > MOST_BYTES {
        return false;
    }
    count as u64 <= MOST_BYTES - offset
}

/// Whether what an operation on an object reads or writes lies in the greatest file.
fn is_in_file(op: &Op) -> bool
    ensures within { result ≡ is_in_file op.now }
{
    match op {
        Op::Get { page, .. } => *page < MOST_PAGES,
        Op::Put { offset, bytes, .. } => lies_in_file(*offset, bytes.len()),
        Op::Cut { size, .. } => *size <= MOST_BYTES,
        _ => true,
    }
}

/// Whether one of these locks has this cookie.
fn has_cookie(locks: &[Lock], cookie: Cookie) -> bool
    ensures has { result ≡ has_cookie cookie.0 locks.now }
{
    locks.iter().any(|lock| cookie == lock.cookie)
}

/// The cookie of the lock that is granted to a request for it.
fn granted_cookie(op: &Op, answer: &Answer) -> Option<Cookie>
    ensures granted { (reply : ReplyOf) → map (λ (l : LockOf). l.cookie) (granted_lock op.now reply answer.now)
        ≡ cookies_of result }
{
    match (op, answer) {
        (Op::Enqueue { .. }, Answer::Granted { cookie, .. }) => Some(*cookie),
        _ => None,
    }
}

/// Whether the call, if any, waits for the lock of this name.
fn is_waiter(call: &Option<CallState>, name: LockName) -> bool
    ensures waits { result ≡ is_waiter name call.now }
{
    match call {
        Some(call) => call.is_waiter(name),
        None => false,
    }
}

impl Client {
    /// Whether a message of a target may come: it is of a target of the run, brings no lock that is held already and no size
    /// above that of the greatest file, what it answers lies in a file, and the client has a life left. A run sends no
    /// others.
    pub fn accepts(&self, from: TargetId, message: &Message) -> bool
        ensures may { result ≡ may_come (Target from.0) message.now self.now.client }
    {
        if from.0 >= self.targets() {
            return false;
        }
        self.accepts_from(from, message)
    }

    /// The same of a message of one of its targets.
    fn accepts_from(&self, target: TargetId, message: &Message) -> bool
        requires target { target.0 < length self.now.client.imports }
        ensures may { result ≡ may_from target.0 message.now self.now.client }
    {
        match message {
            Message::Reply(reply) => self.accepts_reply(target, reply),
            Message::Grant(grant) => self.accepts_grant(target, grant),
            Message::Evicted { who, .. } => self.accepts_eviction(*who),
            _ => true,
        }
    }

    // ---- a reply

    /// One that no request in flight waits for, or whose answer doesn't fit, is only taken.
    fn accepts_reply(&self, target: TargetId, reply: &Reply) -> bool
        requires target { target.0 < length self.now.client.imports }
        ensures may { result ≡ may_reply target.0 reply.now self.now.client }
    {
        if !self.is_present(target, reply.who, reply.boot) {
            return true;
        }
        let Some(request) = self.find_request(target, reply.xid) else {
            return true;
        };
        if !answer_fits(&request.op, &reply.answer) {
            return true;
        }
        self.accepts_answer(target, reply, request)
    }

    /// The request of this number in flight at a target; none where there is none.
    fn find_request(&self, target: TargetId, xid: Xid) -> Option<&InFlight>
        requires target { target.0 < length self.now.client.imports }
        ensures request { option_map flight_of (option_copied result)
            ≡ find_flight xid.0 (import_of target.0 self.now.client.imports).flights }
    {
        self.imports[target.0 as usize].find(xid)
    }

    fn accepts_answer(&self, target: TargetId, reply: &Reply, request: &InFlight) -> bool
        ensures may { result ≡ may_answer target.0 reply.now (flight_of request.now) self.now.client }
    {
        if !self.brings_new(target, reply, &request.op) {
            return false;
        }
        tells_short(&reply.answer) && is_in_file(&request.op)
    }

    /// Whether none of the locks that a reply brings is held.
    fn brings_new(&self, target: TargetId, reply: &Reply, op: &Op) -> bool
        ensures new { result ≡ are_new target.0 (brought op.now reply.now) self.now.client.store.held }
    {
        let locks = reply.locks.as_slice();
        if !self.are_new(target, locks) {
            return false;
        }
        match granted_cookie(op, &reply.answer) {
            Some(cookie) => self.is_new(target, cookie, locks),
            None => true,
        }
    }

    /// Whether none of these locks of a target is held, and no two have one cookie.
    fn are_new(&self, target: TargetId, locks: &[Lock]) -> bool
        ensures new { result ≡ are_new target.0 locks.now self.now.client.store.held }
    {
        for (at, lock) in locks.iter().enumerate() {
            if !self.is_new(target, lock.cookie, &locks[..at]) {
                return false;
            }
        }
        true
    }

    /// Whether a lock of this cookie isn't held of a target, and none of the earlier ones has it.
    fn is_new(&self, target: TargetId, cookie: Cookie, earlier: &[Lock]) -> bool
        ensures new { result ≡ is_new target.0 cookie earlier.now self.now.client.store.held }
    {
        let name = LockName { target, cookie };
        if self.is_held(name) {
            return false;
        }
        !has_cookie(earlier, cookie)
    }

    /// Whether the lock of this name is held.
    fn is_held(&self, name: LockName) -> bool
        ensures held { result ≡ is_held name self.now.client.store.held }
    {
        self.store.held(name).is_some()
    }

    // ---- a grant

    /// One that no call waits for is only taken.
    fn accepts_grant(&self, target: TargetId, grant: &GrantNotice) -> bool
        requires target { target.0 < length self.now.client.imports }
        ensures may { result ≡ may_grant target.0 grant.now self.now.client }
    {
        if !self.is_present(target, grant.who, grant.boot) {
            return true;
        }
        let name = LockName {
            target,
            cookie: grant.cookie,
        };
        if !self.has_waiter(name) {
            return true;
        }
        !self.is_held(name) && grant.size <= MOST_BYTES
    }

    /// Whether a call waits for the lock of this name.
    fn has_waiter(&self, name: LockName) -> bool
        ensures waits { result ≡ list_any (is_waiter name) self.now.client.calls }
    {
        self.calls.iter().any(|call| is_waiter(call, name))
    }

    // ---- an eviction

    /// There is a number for the next life.
    fn accepts_eviction(&self, who: Who) -> bool
        ensures may { result ≡ may_evict who self.now.client }
    {
        if !self.is_life(who) {
            return true;
        }
        self.who.life < u32::MAX
    }
}
