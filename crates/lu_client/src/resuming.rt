//! A target serves the life: what is in flight is sent again, and asks that were forgotten are made again.

ghost use Rattle.std.specs.Prelude.{◌≡◌, ◌<◌, length, IfOk, OnOk};
ghost use Rattle.lu_trace.specs.Turns.{Making};
ghost use Rattle.lu_spec_client.specs.Imports.{import_of};
ghost use Rattle.lu_spec_client.specs.Messages.{is_present, ready_heard};
ghost use Rattle.lu_spec_client.specs.Recovery.{looks_stage, on_calls};
ghost use Rattle.lu_client.specs.Clients.{Makes};
ghost use Rattle.lu_client.specs.Resuming.{IsServed, looks_one};

use super::client::Client;
use super::posting::send_posts;
use lu_base::{Memory, TargetId, Txn, Who};
use lu_msg::Sends;
use lu_trace::Turn;

impl Client {
    // ---- a target serves the life

    /// A target serves the life from now on: what is in flight is sent again, and asks that were forgotten are made
    /// again. What it says for another life, or in another boot than the known one, is only taken. After want of
    /// memory the client is of no use.
    pub(crate) fn resume(
        &mut self,
        turn: &mut Turn,
        target: TargetId,
        who: Who,
        boot: u32,
        committed: Txn,
    ) -> Result<(), Memory>
        requires target { target.0 < length self.old.client.imports }
        ensures makes { OnOk result (Makes (λ k. ready_heard target.0 boot committed.0 k
            (is_present who boot target.0 k)) self.old self.new turn.old turn.new) }
    {
        if !self.is_present(target, who, boot) {
            return Ok(());
        }
        let again = self.hear_ready(target, boot, committed)?;
        send_posts(turn, again)?;
        self.look_for_locks(target);
        Ok(())
    }

    /// The target serves the life from now on: the requests in flight, as they are sent again. After want of memory
    /// the client is of no use.
    fn hear_ready(&mut self, target: TargetId, boot: u32, committed: Txn) -> Result<Sends, Memory>
        requires target { target.0 < length self.old.client.imports }
        requires known { boot ≡ (import_of target.0 self.old.client.imports).boot }
        ensures served { IfOk result (IsServed target.0 boot committed.0 self.old self.new) }
    {
        let import = &mut self.imports[target.0 as usize];
        import.ready(boot, committed)
    }

    // ---- asks that were forgotten

    /// Each call whose ask was forgotten there makes it again.
    fn look_for_locks(&mut self, target: TargetId)
        ensures makes { (turn : Making) → Makes (λ k. on_calls (looks_stage target.0) 0 k.calls)
            self.old self.new turn turn }
    {
        for slot in 0..self.slots() {
            self.look_for_lock(target, slot);
        }
    }

    /// The same of the call on one slot.
    fn look_for_lock(&mut self, target: TargetId, slot: usize)
        requires slot { slot < length self.old.client.calls }
        ensures makes { (turn : Making) → Makes (looks_one target.0 slot) self.old self.new turn turn }
    {
        if let Some(call) = &mut self.calls[slot] {
            call.ask_again(target);
        }
    }

    /// How many slots the client has, which is 4.
    pub(crate) fn slots(&self) -> usize
        ensures slots { result ≡ length self.now.client.calls }
    {
        self.calls.len()
    }
}
