//! The slots: each call goes as far as it can, in order of slots.

ghost use Rattle.std.specs.Prelude.{◌≡◌, ◌<◌, Some, None, IfOk, OnOk};
ghost use Rattle.std.specs.List.{list_any};
ghost use Rattle.lu_spec_client.specs.Calls.{call_on};
ghost use Rattle.lu_spec_client.specs.Slots.{all_slots, goes, is_free_close, passes, slots_go};
ghost use Rattle.lu_spec_client.specs.Starts.{count_on, is_on};
ghost use Rattle.lu_msg.specs.Limits.{slot_count};
ghost use Rattle.lu_client.specs.Advancing.{bound_by, begun_number, close_number, must_wait, Advances, Finishes};
ghost use Rattle.lu_client.specs.Clients.{with_call, with_handles, AsksNoMore, Makes};

use super::client::Client;
use lu_base::{At, Memory, Txn};
use lu_call::{Binding, CallState, Next};
use lu_msg::{Answer, SLOTS};
use lu_trace::{Entry, Turn};

/// The most passes over the slots in a turn: a further one follows where a close has become free, which four slots admit
/// four times.
const PASSES: u8 = 5;

/// Whether the call, if any, is on the open with this number.
fn is_on(call: &Option<CallState>, number: Txn) -> bool
    ensures on { result ≡ is_on number.0 call.now }
{
    match call {
        Some(call) => call.is_on(number),
        None => false,
    }
}

/// Of a close that has asked nothing, the number of its open.
fn close_number(call: &CallState) -> Option<Txn>
    ensures number { result ≡ close_number (Some call.now) }
{
    if call.is_unasked_close() {
        return call.open_number();
    }
    None
}

/// Of a close that begins, the number of its open.
fn begun_number(call: &CallState) -> Option<Txn>
    ensures number { result ≡ begun_number (Some call.now) }
{
    if call.is_plain() {
        return close_number(call);
    }
    None
}

impl Client {
    // ---- all slots

    /// Each call goes as far as it can, and again while a close has become free. After want of memory the client is of no
    /// use.
    pub(crate) fn go_on(&mut self, turn: &mut Turn) -> Result<(), Memory>
        ensures makes { OnOk result (Makes (slots_go 5 turn.old.at) self.old self.new turn.old turn.new) }
        ensures asks { OnOk result (AsksNoMore self.old.client.imports self.new.client.imports) }
    {
        for _pass in 0..PASSES {
            self.pass(turn)?;
            if !self.has_free_close() {
                return Ok(());
            }
        }
        Ok(())
    }

    /// One pass over the slots, in order.
    fn pass(&mut self, turn: &mut Turn) -> Result<(), Memory>
        ensures makes { OnOk result (Makes (passes turn.old.at all_slots) self.old self.new turn.old turn.new) }
        ensures asks { OnOk result (AsksNoMore self.old.client.imports self.new.client.imports) }
    {
        for slot in 0..SLOTS {
            self.go_on_slot(turn, slot)?;
        }
        Ok(())
    }

    /// Whether a close that waited for another call on its open has become free.
    fn has_free_close(&self) -> bool
        ensures free { result ≡ list_any (is_free_close self.now.client.calls) self.now.client.calls }
    {
        self.calls.iter().any(|call| self.is_free_close(call))
    }

    fn is_free_close(&self, call: &Option<CallState>) -> bool
        ensures free { result ≡ is_free_close self.now.client.calls call.now }
    {
        let Some(call) = call else {
            return false;
        };
        match close_number(call) {
            Some(number) => self.count_on(number) == 1,
            None => false,
        }
    }

    /// How many calls are on the open with this number.
    fn count_on(&self, number: Txn) -> usize
        ensures count { result ≡ count_on number.0 self.now.client.calls }
    {
        self.calls.iter().filter(|call| is_on(call, number)).count()
    }

    // ---- one slot

    /// The call on a slot, if any, goes as far as it can; a close waits while other calls are on its open.
    fn go_on_slot(&mut self, turn: &mut Turn, slot: u8) -> Result<(), Memory>
        requires slot { slot < slot_count }
        ensures makes { OnOk result (Makes (goes turn.old.at slot) self.old self.new turn.old turn.new) }
        ensures asks { OnOk result (AsksNoMore self.old.client.imports self.new.client.imports) }
    {
        if self.must_wait(slot) {
            return Ok(());
        }
        let next = self.advance_call(turn.at(), slot)?;
        self.finish_call(turn, slot, next)
    }

    /// Whether a close begins on the slot while other calls are on its open.
    fn must_wait(&self, slot: u8) -> bool
        requires slot { slot < slot_count }
        ensures waits { result ≡ must_wait self.now.client.calls (call_on slot self.now.client.calls) }
    {
        let Some(call) = &self.calls[slot as usize] else {
            return false;
        };
        match begun_number(call) {
            Some(number) => self.count_on(number) > 1,
            None => false,
        }
    }

    /// The call on a slot, if any, goes as far as it can by what its client knows; what it leaves to its client is answered.
    fn advance_call(&mut self, at: At, slot: u8) -> Result<Next, Memory>
        requires slot { slot < slot_count }
        ensures advances { IfOk result (λ out.
            Advances at slot (call_on slot self.old.client.calls) self.old self.new out) }
    {
        let Some(mut call) = self.take_call(slot) else {
            return Ok(Next::Waits);
        };
        let next = call.advance(at, &mut self.store);
        self.put(slot, Some(call));
        next
    }

    /// The call on a slot, which is free from now on.
    fn take_call(&mut self, slot: u8) -> Option<CallState>
        requires slot { slot < slot_count }
        ensures call { result ≡ call_on slot self.old.client.calls }
        ensures free { self.new ≡ with_call slot None self.old }
    {
        self.calls[slot as usize].take()
    }

    // ---- what a call leaves to its client

    /// What the call on a slot left is done: a request is queued, or the answer is told.
    fn finish_call(&mut self, turn: &mut Turn, slot: u8, next: Next) -> Result<(), Memory>
        requires slot { slot < slot_count }
        ensures finishes { OnOk result (Finishes slot next self.old self.new turn.old turn.new) }
    {
        match next {
            Next::Waits => Ok(()),
            Next::Asks(target, op) => self.queue(target, Some(slot), op),
            Next::WritesBack(target, op) => self.queue(target, None, op),
            Next::Told {
                at,
                answer,
                binding,
            } => self.tell_answer(turn, slot, at, answer, binding),
        }
    }

    /// The call on a slot is told its answer, with the turn in which it acted: the slot is free. An open binds its handle.
    fn tell_answer(
        &mut self,
        turn: &mut Turn,
        slot: u8,
        at: At,
        answer: Answer,
        binding: Option<Binding>,
    ) -> Result<(), Memory>
        requires slot { slot < slot_count }
        ensures finishes { OnOk result (Finishes slot (Next.Told at answer binding)
            self.old self.new turn.old turn.new) }
    {
        self.bind_handle(binding)?;
        turn.note(Entry::Told { slot, at, answer })?;
        self.put(slot, None);
        Ok(())
    }

    /// A handle, if any, is bound.
    fn bind_handle(&mut self, binding: Option<Binding>) -> Result<(), Memory>
        ensures bound { OnOk result (self.new ≡ with_handles (bound_by binding self.old.client.handles) self.old) }
    {
        let Some(binding) = binding else {
            return Ok(());
        };
        self.handles.insert(0, binding)?;
        Ok(())
    }
}
