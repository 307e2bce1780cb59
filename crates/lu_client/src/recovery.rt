//! A target is up again, or doesn't serve the life yet: what the client tells it.

ghost use Rattle.std.specs.Prelude.{◌≡◌, ℕ, ◌<◌, true, false, length, nat_lt, IfOk, OnOk};
ghost use Rattle.lu_trace.specs.Turns.{Making};
ghost use Rattle.lu_spec_entries.specs.Words.{Unmarks};
ghost use Rattle.lu_call.specs.Turning.{call_turn};
ghost use Rattle.lu_spec_client.specs.Imports.{import_of, is_serving};
ghost use Rattle.lu_spec_client.specs.Messages.{up_heard};
ghost use Rattle.lu_spec_client.specs.Recovery.{held_of, forgets_stage, on_call, on_calls};
ghost use Rattle.lu_client_refines.specs.Rounds.{ticks_one};
ghost use Rattle.lu_client_refines.specs.Telling.{locks_of};
ghost use Rattle.lu_client_store.specs.Stored.{stored_after};
ghost use Rattle.lu_client.specs.Clients.{Makes, stored_of, with_store};
ghost use Rattle.lu_client.specs.Recovering.{IsUp, IsTold, is_joining, forgets_row, forgets_one};

use super::client::Client;
use super::posting::send_posts;
use lu_base::{Lock, Memory, TargetId};
use lu_call::CallState;
use lu_import::Standing;
use lu_msg::Sends;
use lu_trace::Turn;

/// A call, if any, that waits for a lock of a target forgets it there.
fn forget_ask(call: &mut Option<CallState>, target: TargetId)
    ensures forgets { (slot : ℕ) → call_turn slot call.old (on_call (forgets_stage target.0) slot call.old)
        ≡ call.new }
{
    if let Some(call) = call {
        call.forget_asks(target);
    }
}

impl Client {
    // ---- a target is up

    /// A target is up in this boot: where that is later than the known one, the client tells it what it has, and asks
    /// again for what it waits for there once the target serves. After want of memory the client is of no use.
    pub(crate) fn come_up(
        &mut self,
        turn: &mut Turn,
        target: TargetId,
        boot: u32,
    ) -> Result<(), Memory>
        requires target { target.0 < length self.old.client.imports }
        ensures makes { OnOk result (Makes (λ k. up_heard target.0 boot k
            (nat_lt (import_of target.0 k.imports).boot boot)) self.old self.new turn.old turn.new) }
    {
        if boot <= self.boot_known(target) {
            return Ok(());
        }
        let posts = self.reconnect(target, boot)?;
        self.forget_for_recovery(target);
        send_posts(turn, posts)
    }

    /// At a tick a target that doesn't serve the life is told again what it was told. After want of memory the client
    /// is of no use.
    pub(crate) fn tell_again(&mut self, turn: &mut Turn, target: TargetId) -> Result<(), Memory>
        requires target { target.0 < length self.old.client.imports }
        requires unserved { is_serving (import_of target.0 self.old.client.imports).standing ≡ false }
        ensures makes { OnOk result (Makes (ticks_one target.0) self.old self.new turn.old turn.new) }
    {
        let boot = self.boot_known(target);
        let posts = self.reconnect(target, boot)?;
        send_posts(turn, posts)
    }

    // ---- what is told

    /// What the client tells a target under this boot, the known one or a later one, which it knows then.
    fn reconnect(&mut self, target: TargetId, boot: u32) -> Result<Sends, Memory>
        requires target { target.0 < length self.old.client.imports }
        ensures up { IfOk result (λ posts. nat_lt (import_of target.0 self.old.client.imports).boot boot ≡ true
            → IsUp target.0 boot posts self.old self.new) }
        ensures told { IfOk result (λ posts. boot ≡ (import_of target.0 self.old.client.imports).boot
            → is_serving (import_of target.0 self.old.client.imports).standing ≡ false
            → IsTold target.0 posts self.old self.new) }
    {
        let locks = self.locks_of(target)?;
        let import = &mut self.imports[target.0 as usize];
        let posts = import.reconnect(boot, locks.as_slice())?;
        Ok(posts)
    }

    /// The locks that are held of a target, in rising cookie.
    fn locks_of(&self, target: TargetId) -> Result<Vec<Lock>, Memory>
        ensures locks { IfOk result (λ locks. locks.items ≡ locks_of (held_of target.0 self.now.client.store.held)) }
    {
        self.store.locks_of(self.alloc, target)
    }

    // ---- what is forgotten

    /// A target has forgotten what the life waits for there, and which locks it called back: so does the client. A
    /// life that is joining there has neither.
    fn forget_for_recovery(&mut self, target: TargetId)
        requires target { target.0 < length self.old.client.imports }
        ensures forgets { (making : Making) → Makes (forgets_row target.0) self.old self.new making making }
    {
        if self.is_joining_at(target) {
            return;
        }
        self.unmark_locks(target);
        self.forget_asks(target);
    }

    /// Whether the life is joining at a target.
    fn is_joining_at(&self, target: TargetId) -> bool
        requires target { target.0 < length self.now.client.imports }
        ensures joining { result ≡ is_joining (import_of target.0 self.now.client.imports).standing }
    {
        match self.imports[target.0 as usize].standing() {
            Standing::Joining => true,
            _ => false,
        }
    }

    /// No lock of a target is called back any more.
    fn unmark_locks(&mut self, target: TargetId)
        ensures unmarked { self.new
            ≡ with_store (stored_after (stored_of self.old) (Unmarks target.0)) self.old }
    {
        self.store.unmark(target);
    }

    /// Each call that waits for a lock of a target forgets it there.
    fn forget_asks(&mut self, target: TargetId)
        ensures forgets { (making : Making) → Makes (λ k. on_calls (forgets_stage target.0) 0 k.calls)
            self.old self.new making making }
    {
        for slot in 0..self.slots() {
            self.forget_ask_on(target, slot);
        }
    }

    /// So does the call on one slot.
    fn forget_ask_on(&mut self, target: TargetId, slot: usize)
        requires slot { slot < length self.old.client.calls }
        ensures forgets { (making : Making) → Makes (forgets_one target.0 slot) self.old self.new making making }
    {
        forget_ask(&mut self.calls[slot], target);
    }
}
