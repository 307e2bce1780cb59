//! A client's turns.

ghost use Rattle.std.specs.Prelude.{◌≡◌, ◌<◌, [], ◌∷◌, true, false, None, IfOk, OnOk, OnErr, IsErr, is_some};
ghost use Rattle.lu_base.specs.declared.ids.Node.TheVariants.{Target};
ghost use Rattle.lu_call.specs.Ranges.{IsCall};
ghost use Rattle.lu_spec_client.specs.Calls.{call_on};
ghost use Rattle.lu_spec_client.specs.Starts.{with_stripes};
ghost use Rattle.lu_spec_client.specs.Rows.{rests, Begins, Comes, Ticks, Dies};
ghost use Rattle.lu_msg.specs.Limits.{slot_count};
ghost use Rattle.lu_spec_entries.specs.Given.{step_of};
ghost use Rattle.lu_spec_entries.specs.Words.{Busy as BusyLine};
ghost use Rattle.lu_client.specs.Clients.{turn_of, Makes};
ghost use Rattle.lu_client.specs.Comings.{may_come};
ghost use Rattle.lu_client.specs.Numbers.{AreCounted, HasNumbers};
ghost use Rattle.lu_client.specs.Stepping.{row_at, step_at, stepped};

use super::client::Client;
use lu_base::{Memory, Stamp, TargetId};
use lu_call::with_stripes;
use lu_msg::{Call, Message};
use lu_trace::{Entry, Step, Turn};

impl Client {
    /// A call begins on this slot, 0 to 3; a `create` that doesn't say its stripes begins with those of a new file that is
    /// given no numbers. Then each call goes as far as it can, the held locks are gone through, and what has room is sent.
    /// Where the slot has a call that isn't told, the turn is the line that says so, and the client is then as before. Fewer
    /// than 2^63 requests were sent to each target before.
    pub fn call(&mut self, stamp: Stamp, slot: u8, call: Call) -> Result<Step, Memory>
        requires slot { slot < slot_count }
        requires range { IsCall call }
        requires numbers { self.old.spent ≡ false → HasNumbers self.old.client.imports }
        ensures step { IfOk result (λ step. step ≡ step_at stamp (Begins slot (with_stripes call)) self.old) }
        ensures after { OnOk result (self.new ≡ stepped stamp (Begins slot (with_stripes call)) self.old) }
        ensures busy { is_some (call_on slot self.old.client.calls) ≡ true
            → row_at stamp (Begins slot (with_stripes call)) self.old ≡ BusyLine slot ∷ [] }
        ensures kept { is_some (call_on slot self.old.client.calls) ≡ true → OnOk result (self.new ≡ self.old) }
        ensures spent { OnErr result (self.new.spent ≡ true) }
        ensures again { self.old.spent ≡ true → IsErr result }
        ensures counted { OnOk result (AreCounted self.old.client.imports self.new.client.imports) }
    {
        if self.spent {
            return Err(Memory);
        }
        if self.has_call(slot) {
            let busy = self.make_busy_turn(stamp, slot);
            return self.spend(busy);
        }
        let begun = self.make_call_turn(stamp, slot, call);
        self.spend(begun)
    }

    /// A message of a target comes, whose number the client doesn't know: it is 0 in the line. What it brings about is done;
    /// then each call goes as far as it can, the held locks are gone through, and what has room is sent. Fewer than 2^63
    /// requests were sent to each target before.
    pub fn deliver(
        &mut self,
        stamp: Stamp,
        from: TargetId,
        message: &Message,
    ) -> Result<Step, Memory>
        requires may { self.old.spent ≡ false → may_come (Target from.0) message.now self.old.client ≡ true }
        requires numbers { self.old.spent ≡ false → HasNumbers self.old.client.imports }
        ensures step { IfOk result (λ step. step ≡ step_at stamp (Comes 0 (Target from.0) message.now) self.old) }
        ensures after { OnOk result (self.new ≡ stepped stamp (Comes 0 (Target from.0) message.now) self.old) }
        ensures spent { OnErr result (self.new.spent ≡ true) }
        ensures again { self.old.spent ≡ true → IsErr result }
        ensures counted { OnOk result (AreCounted self.old.client.imports self.new.client.imports) }
    {
        if self.spent {
            return Err(Memory);
        }
        let taken = self.make_message_turn(stamp, from, message);
        self.spend(taken)
    }

    /// The client's time goes on: it tells each target again what it waits for there. Then each call goes as far as it can,
    /// the held locks are gone through, and what has room is sent. Fewer than 2^63 requests were sent to each target
    /// before.
    pub fn tick(&mut self, stamp: Stamp) -> Result<Step, Memory>
        requires numbers { self.old.spent ≡ false → HasNumbers self.old.client.imports }
        ensures step { IfOk result (λ step. step ≡ step_at stamp Ticks self.old) }
        ensures after { OnOk result (self.new ≡ stepped stamp Ticks self.old) }
        ensures spent { OnErr result (self.new.spent ≡ true) }
        ensures again { self.old.spent ≡ true → IsErr result }
        ensures counted { OnOk result (AreCounted self.old.client.imports self.new.client.imports) }
    {
        if self.spent {
            return Err(Memory);
        }
        let passed = self.make_tick_turn(stamp);
        self.spend(passed)
    }

    /// The client dies. It is to make no further turn.
    pub fn die(&mut self, stamp: Stamp) -> Result<Step, Memory>
        ensures step { IfOk result (λ step. step ≡ step_at stamp Dies self.old) }
        ensures after { OnOk result (self.new ≡ stepped stamp Dies self.old) }
        ensures spent { OnErr result (self.new.spent ≡ true) }
        ensures again { self.old.spent ≡ true → IsErr result }
        ensures counted { OnOk result (AreCounted self.old.client.imports self.new.client.imports) }
    {
        if self.spent {
            return Err(Memory);
        }
        let ended = self.make_last_turn(stamp);
        self.spend(ended)
    }

    // ---- the turns

    /// The turn in which a call begins on a free slot.
    fn make_call_turn(&mut self, stamp: Stamp, slot: u8, call: Call) -> Result<Step, Memory>
        requires slot { slot < slot_count }
        requires free { call_on slot self.old.client.calls ≡ None }
        requires range { IsCall call }
        requires numbers { HasNumbers self.old.client.imports }
        ensures step { IfOk result (λ step. step ≡ step_at stamp (Begins slot (with_stripes call)) self.old) }
        ensures after { OnOk result (self.new ≡ stepped stamp (Begins slot (with_stripes call)) self.old) }
        ensures counted { OnOk result (AreCounted self.old.client.imports self.new.client.imports) }
    {
        let call = with_stripes(call);
        let mut turn = self.turn(stamp);
        self.begin_call(&mut turn, slot, call)?;
        self.rest(&mut turn)?;
        Ok(turn.into_step())
    }

    /// The turn in which a slot is busy.
    fn make_busy_turn(&self, stamp: Stamp, slot: u8) -> Result<Step, Memory>
        ensures step { IfOk result (λ step. step ≡ step_of (turn_of stamp self.now) (BusyLine slot ∷ [])) }
    {
        let mut turn = self.turn(stamp);
        turn.note(Entry::Busy(slot))?;
        Ok(turn.into_step())
    }

    /// The turn in which a message comes.
    fn make_message_turn(
        &mut self,
        stamp: Stamp,
        from: TargetId,
        message: &Message,
    ) -> Result<Step, Memory>
        requires may { may_come (Target from.0) message.now self.old.client ≡ true }
        requires numbers { HasNumbers self.old.client.imports }
        ensures step { IfOk result (λ step. step ≡ step_at stamp (Comes 0 (Target from.0) message.now) self.old) }
        ensures after { OnOk result (self.new ≡ stepped stamp (Comes 0 (Target from.0) message.now) self.old) }
        ensures counted { OnOk result (AreCounted self.old.client.imports self.new.client.imports) }
    {
        let mut turn = self.turn(stamp);
        turn.note(Entry::Take(0))?;
        self.heed(&mut turn, from, message)?;
        self.rest(&mut turn)?;
        Ok(turn.into_step())
    }

    /// The turn in which time goes on.
    fn make_tick_turn(&mut self, stamp: Stamp) -> Result<Step, Memory>
        requires numbers { HasNumbers self.old.client.imports }
        ensures step { IfOk result (λ step. step ≡ step_at stamp Ticks self.old) }
        ensures after { OnOk result (self.new ≡ stepped stamp Ticks self.old) }
        ensures counted { OnOk result (AreCounted self.old.client.imports self.new.client.imports) }
    {
        let mut turn = self.turn(stamp);
        turn.note(Entry::Tick)?;
        self.remind_all(&mut turn)?;
        self.rest(&mut turn)?;
        Ok(turn.into_step())
    }

    /// The turn in which the client dies.
    fn make_last_turn(&self, stamp: Stamp) -> Result<Step, Memory>
        ensures step { IfOk result (λ step. step ≡ step_at stamp Dies self.now) }
    {
        let mut turn = self.turn(stamp);
        turn.note(Entry::Die)?;
        Ok(turn.into_step())
    }

    /// What follows each event: each call goes as far as it can, unused locks are marked, the held locks write their changes
    /// back or are given up, and what has room is sent. After want of memory the client is of no use.
    pub(crate) fn rest(&mut self, turn: &mut Turn) -> Result<(), Memory>
        requires numbers { HasNumbers self.old.client.imports }
        ensures makes { OnOk result (Makes (λ k. rests self.old.limits turn.old.at k)
            self.old self.new turn.old turn.new) }
        ensures counted { OnOk result (AreCounted self.old.client.imports self.new.client.imports) }
    {
        self.go_on(turn)?;
        self.trim();
        self.visit_locks(turn)?;
        self.send_all(turn)
    }

    /// After want of memory in a turn the client is spent.
    fn spend(&mut self, made: Result<Step, Memory>) -> Result<Step, Memory>
        ensures same { result ≡ made }
        ensures kept { OnOk result (self.new ≡ self.old) }
        ensures spent { OnErr result (self.new.spent ≡ true) }
    {
        if made.is_err() {
            self.spent = true;
        }
        made
    }
}
