//! Time goes on: a target that serves the life is sent again what is in flight there, and asked where the locks are
//! that calls wait for; another is told again what the life has.

ghost use Rattle.std.specs.Prelude.{◌≡◌, ℕ, ◌<◌, true, length, IfOk, OnOk};
ghost use Rattle.lu_base.specs.declared.ids.Who.{Who as WhoOf};
ghost use Rattle.lu_call.specs.Hearing.{asks_where};
ghost use Rattle.lu_spec_client.specs.Calls.{call_on};
ghost use Rattle.lu_spec_client.specs.Imports.{import_of, is_serving};
ghost use Rattle.lu_spec_client.specs.Recovery.{on_call, ticks, where_stage};
ghost use Rattle.lu_spec_client.specs.Sending.{resends};
ghost use Rattle.lu_client_refines.specs.Posts.{posted};
ghost use Rattle.lu_client_refines.specs.Rounds.{ticks_one, wheres_left, wheres_one};
ghost use Rattle.lu_client.specs.Clients.{Makes};

use super::client::Client;
use super::posting::send_posts;
use lu_base::{Memory, Node, TargetId};
use lu_held::LockName;
use lu_msg::{Message, Post, Sends};
use lu_trace::Turn;

impl Client {
    /// Time goes on at each target in order. After want of memory the client is of no use.
    pub(crate) fn remind_all(&mut self, turn: &mut Turn) -> Result<(), Memory>
        ensures makes { OnOk result (Makes (λ k. ticks 0 k.imports k) self.old self.new turn.old turn.new) }
    {
        for target in 0..self.targets() {
            self.remind(turn, TargetId(target))?;
        }
        Ok(())
    }

    /// Time goes on at one target.
    fn remind(&mut self, turn: &mut Turn, target: TargetId) -> Result<(), Memory>
        requires target { target.0 < length self.old.client.imports }
        ensures makes { OnOk result (Makes (ticks_one target.0) self.old self.new turn.old turn.new) }
    {
        if self.is_served_by(target) {
            return self.ask_again(turn, target);
        }
        self.tell_again(turn, target)
    }

    /// Whether a target serves the life.
    fn is_served_by(&self, target: TargetId) -> bool
        requires target { target.0 < length self.now.client.imports }
        ensures serving { result ≡ is_serving (import_of target.0 self.now.client.imports).standing }
    {
        self.imports[target.0 as usize].serving()
    }

    /// A target that serves the life is sent again what is in flight there, and asked where the locks are that calls
    /// wait for.
    fn ask_again(&self, turn: &mut Turn, target: TargetId) -> Result<(), Memory>
        requires target { target.0 < length self.now.client.imports }
        requires serving { is_serving (import_of target.0 self.now.client.imports).standing ≡ true }
        ensures makes { OnOk result (Makes (ticks_one target.0) self.now self.now turn.old turn.new) }
    {
        let again = self.requests_again(target)?;
        send_posts(turn, again)?;
        self.ask_where(turn, target)
    }

    /// The requests that are in flight at a target, as they are sent again.
    fn requests_again(&self, target: TargetId) -> Result<Sends, Memory>
        requires target { target.0 < length self.now.client.imports }
        ensures again { IfOk result (λ again. posted again ≡ resends self.now.client.who
            (import_of target.0 self.now.client.imports).boot target.0
            (import_of target.0 self.now.client.imports).flights) }
    {
        self.imports[target.0 as usize].again()
    }

    // ---- locks that calls wait for

    /// A target is asked where each lock of it is that a call waits for.
    fn ask_where(&self, turn: &mut Turn, target: TargetId) -> Result<(), Memory>
        requires target { target.0 < length self.now.client.imports }
        ensures makes { OnOk result (Makes (wheres_left target.0 0) self.now self.now turn.old turn.new) }
    {
        for slot in 0..self.slots() {
            self.ask_where_of(turn, target, slot)?;
        }
        Ok(())
    }

    /// The same of the lock that the call on one slot waits for.
    fn ask_where_of(&self, turn: &mut Turn, target: TargetId, slot: usize) -> Result<(), Memory>
        requires target { target.0 < length self.now.client.imports }
        requires slot { slot < length self.now.client.calls }
        ensures makes { OnOk result (Makes (wheres_one target.0 slot) self.now self.now turn.old turn.new) }
    {
        match self.awaited_lock(slot) {
            Some(lock) if lock.target.0 == target.0 => turn.send(Post {
                to: Node::Target(target.0),
                message: Message::Where {
                    who: self.who,
                    boot: self.boot_known(target),
                    cookie: lock.cookie,
                },
            }),
            _ => Ok(()),
        }
    }

    /// The lock that the call on a slot waits for, if any.
    fn awaited_lock(&self, slot: usize) -> Option<LockName>
        requires slot { slot < length self.now.client.calls }
        ensures asks { (who : WhoOf) (boot target : ℕ)
            → on_call (where_stage who boot target) slot (call_on slot self.now.client.calls)
            ≡ asks_where who boot target result }
    {
        match &self.calls[slot] {
            Some(call) => call.waits_for(),
            None => None,
        }
    }
}
