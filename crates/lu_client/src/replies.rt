//! A reply is heard: the request that it answers isn't in flight any more, its call is told, and the locks that
//! came with it are held.

ghost use Rattle.std.specs.Prelude.{◌≡◌, ◌<◌, ◌≤◌, ◌^◌, ◌++◌, ℕ, true, false, List, [], ◌∷◌, length, Some, IfOk, IfSome, OnOk, option_map};
ghost use Rattle.lu_held.specs.Held.{is_held};
ghost use Rattle.lu_held.specs.Locks.{named};
ghost use Rattle.lu_spec_machine.specs.Fits.{answer_fits};
ghost use Rattle.lu_trace.specs.Turns.{Making};
ghost use Rattle.lu_spec_entries.specs.Carried.{Flight};
ghost use Rattle.lu_spec_entries.specs.Words.{Heard, Hold};
ghost use Rattle.lu_spec_client.specs.Caches.{brought};
ghost use Rattle.lu_spec_client.specs.Calls.{call_after, calls_after};
ghost use Rattle.lu_spec_client.specs.Imports.{imports_after};
ghost use Rattle.lu_spec_client.specs.Messages.{holds, is_present, learns, replied, size_with};
ghost use Rattle.lu_client.specs.Clients.{with_imports, Makes};
ghost use Rattle.lu_client.specs.Comings.{are_new, may_reply};
ghost use Rattle.lu_client.specs.Replies.{answered, asked_of, with_calls, IsTaken, Stores};

use super::client::Client;
use lu_base::{Ask, Duplicate, Lock, Locks, Memory, Policy, TargetId};
use lu_call::CallState;
use lu_msg::{Answer, Op, Reply};
use lu_spec_machine::answer_fits;
use lu_trace::{Entry, Turn};
use std::alloc::Global;

/// What a request in flight asks.
#[derive(Drop)]
struct Asked {
    /// The slot, 0 to 3, of the call that it is for; none of a write-back.
    slot: Option<u8>,
    op: Op,
}

/// The size of the object, which comes with a granted lock.
fn size_with(answer: &Answer) -> Option<u64>
    ensures size { result ≡ size_with answer.now }
{
    match answer {
        Answer::Granted { size, .. } => Some(*size),
        _ => None,
    }
}

/// The locks that a reply brings: its own, and then the one that a request for a lock was granted.
fn brought(alloc: Global, op: &Op, reply: &Reply) -> Result<Locks, Memory>
    ensures brought { IfOk result (λ locks. locks ≡ brought op.now reply.now) }
{
    let mut locks = reply.locks.copy(alloc)?;
    match (op, &reply.answer) {
        (Op::Enqueue { resource, mode, .. }, Answer::Granted { cookie, extent, .. }) => {
            locks.push(Lock {
                cookie: *cookie,
                resource: *resource,
                ask: Ask {
                    who: reply.who,
                    mode: *mode,
                    policy: Policy::Range(*extent),
                },
            })?;
            Ok(locks)
        }
        _ => Ok(locks),
    }
}

/// The call on a slot, if any, is told the reply to its request.
fn tell(call: &mut Option<CallState>, target: TargetId, reply: &Reply) -> Result<(), Memory>
    ensures told { OnOk result ((slot : ℕ) (f : Flight) → f.slot ≡ Some slot
        → call.new ≡ call_after slot call.old (Heard target.0 f reply.now)) }
{
    match call {
        Some(call) => call.heard(target, reply),
        None => Ok(()),
    }
}

impl Client {
    /// A reply comes from a target. After want of memory the client is of no use.
    pub(crate) fn hear(
        &mut self,
        turn: &mut Turn,
        target: TargetId,
        reply: &Reply,
    ) -> Result<(), Memory>
        requires target { target.0 < length self.old.client.imports }
        requires may { may_reply target.0 reply.now self.old.client ≡ true }
        ensures makes { OnOk result (Makes (λ k. replied target.0 reply.now k
            (is_present reply.now.who reply.now.boot target.0 k))
            self.old self.new turn.old turn.new) }
    {
        let Some(asked) = self.find_asked(target, reply)? else {
            return Ok(());
        };
        if !answer_fits(&asked.op, &reply.answer) {
            return Ok(());
        }
        self.hear_answer(turn, target, &asked, reply)
    }

    /// What the request in flight asks that a reply answers; none where the reply is of another life or boot, or no
    /// such request is in flight.
    fn find_asked(&self, target: TargetId, reply: &Reply) -> Result<Option<Asked>, Memory>
        requires target { target.0 < length self.now.client.imports }
        ensures asked { IfOk result (λ asked.
            asked ≡ option_map asked_of (answered target.0 reply.now self.now.client)) }
    {
        if !self.is_present(target, reply.who, reply.boot) {
            return Ok(None);
        }
        let import = &self.imports[target.0 as usize];
        let Some(request) = import.find(reply.xid) else {
            return Ok(None);
        };
        let op = request.op.copy(self.alloc)?;
        Ok(Some(Asked {
            slot: request.slot,
            op,
        }))
    }

    /// A reply is heard whose answer fits what was asked.
    fn hear_answer(
        &mut self,
        turn: &mut Turn,
        target: TargetId,
        asked: &Asked,
        reply: &Reply,
    ) -> Result<(), Memory>
        requires target { target.0 < length self.old.client.imports }
        requires may { may_reply target.0 reply.now self.old.client ≡ true }
        requires asked { option_map asked_of (answered target.0 reply.now self.old.client) ≡ Some asked.now }
        requires fits { answer_fits asked.now.op reply.now.answer ≡ true }
        ensures makes { OnOk result (Makes (λ k. replied target.0 reply.now k
            (is_present reply.now.who reply.now.boot target.0 k))
            self.old self.new turn.old turn.new) }
    {
        let locks = brought(self.alloc, &asked.op, reply)?;
        self.take_in_answer(turn, target, asked, reply, locks.as_slice())?;
        self.heed_answer(target, asked.slot, &asked.op, reply, locks.as_slice())
    }

    /// The request was answered: the locks that came with the reply are held, and what it told is known.
    fn take_in_answer(
        &mut self,
        turn: &mut Turn,
        target: TargetId,
        asked: &Asked,
        reply: &Reply,
        locks: &[Lock],
    ) -> Result<(), Memory>
        requires target { target.0 < length self.old.client.imports }
        requires asked { option_map asked_of (answered target.0 reply.now self.old.client) ≡ Some asked.now }
        requires brought { locks.now ≡ brought asked.now.op reply.now }
        requires new { are_new target.0 locks.now self.old.client.store.held ≡ true }
        requires short { IfSome (size_with reply.now.answer) (λ n. n ≤ 2 ^ 40) }
        ensures makes { OnOk result ((f : Flight) → answered target.0 reply.now self.old.client ≡ Some f
            → Makes (λ k. Heard target.0 f reply.now
            ∷ holds target.0 (size_with reply.now.answer) reply.now.seen locks.now
            ++ learns target.0 asked.now.op reply.now.answer reply.now.locks) self.old self.new turn.old turn.new) }
    {
        self.take_reply(turn, target, asked.slot, reply)?;
        self.hold_all_brought(turn, target, size_with(&reply.answer), locks)?;
        self.learn_answer(target, &asked.op, reply)
    }

    // ---- the request

    /// The request that a reply answers isn't in flight any more, and its call is told.
    fn take_reply(
        &mut self,
        turn: &mut Turn,
        target: TargetId,
        slot: Option<u8>,
        reply: &Reply,
    ) -> Result<(), Memory>
        requires target { target.0 < length self.old.client.imports }
        ensures taken { OnOk result ((f : Flight) → answered target.0 reply.now self.old.client ≡ Some f
            → f.slot ≡ slot → IsTaken target.0 f reply.now self.old self.new turn.old turn.new) }
    {
        self.end_request(target, reply)?;
        turn.note(Entry::Heard {
            target,
            xid: reply.xid,
        })?;
        self.tell_call(target, slot, reply)
    }

    /// The request that a reply answers isn't in flight any more.
    fn end_request(&mut self, target: TargetId, reply: &Reply) -> Result<(), Memory>
        requires target { target.0 < length self.old.client.imports }
        ensures ended { OnOk result ((f : Flight) → answered target.0 reply.now self.old.client ≡ Some f
            → self.new ≡ with_imports (imports_after self.old.client.imports (Heard target.0 f reply.now)) self.old) }
    {
        let import = &mut self.imports[target.0 as usize];
        import.hear(reply)?;
        Ok(())
    }

    /// The call, if any, of a request that was answered is told the reply.
    fn tell_call(&mut self, target: TargetId, slot: Option<u8>, reply: &Reply) -> Result<(), Memory>
        ensures told { OnOk result ((f : Flight) → f.slot ≡ slot
            → self.new ≡ with_calls (calls_after self.old.client.calls (Heard target.0 f reply.now)) self.old) }
    {
        let Some(slot) = slot else {
            return Ok(());
        };
        let Some(call) = self.calls.get_mut(slot as usize) else {
            return Ok(());
        };
        tell(call, target, reply)
    }

    // ---- what it brings

    /// Locks that a reply brings are held, one after another, each with the size of the object, where it came.
    fn hold_all_brought(
        &mut self,
        turn: &mut Turn,
        target: TargetId,
        size: Option<u64>,
        locks: &[Lock],
    ) -> Result<(), Memory>
        requires new { are_new target.0 locks.now self.old.client.store.held ≡ true }
        requires short { IfSome size (λ n. n ≤ 2 ^ 40) }
        ensures held { OnOk result ((seen : List ℕ)
            → Stores (holds target.0 size seen locks.now) self.old self.new turn.old turn.new) }
    {
        for lock in locks {
            self.hold_brought(turn, target, size, lock)?;
        }
        Ok(())
    }

    /// A lock is held from now on.
    fn hold_brought(
        &mut self,
        turn: &mut Turn,
        target: TargetId,
        size: Option<u64>,
        lock: &Lock,
    ) -> Result<(), Memory>
        requires absent { is_held (named target lock.now.cookie) self.old.client.store.held ≡ false }
        requires short { IfSome size (λ n. n ≤ 2 ^ 40) }
        ensures held { OnOk result ((seen : List ℕ)
            → Stores (Hold target.0 lock.now false size seen ∷ []) self.old self.new turn.old turn.new) }
    {
        self.store.hold(target, lock, false, size)?;
        turn.note(Entry::Hold {
            target,
            cookie: lock.cookie,
        })
    }

    /// What an answer told is known under the locks that came with it.
    fn learn_answer(&mut self, target: TargetId, op: &Op, reply: &Reply) -> Result<(), Memory>
        ensures learned { OnOk result ((turn : Making)
            → Stores (learns target.0 op.now reply.now.answer reply.now.locks) self.old self.new turn turn) }
    {
        if reply.locks.is_empty() {
            return Ok(());
        }
        self.store
            .learn(target, op, &reply.answer, reply.locks.as_slice())
    }
}
