//! How a call begins.

ghost use Rattle.std.specs.Prelude.{◌≡◌, ◌<◌, ◌||◌, [], ◌∷◌, None, is_some, option_map, OnOk};
ghost use Rattle.std.specs.List.{list_any};
ghost use Rattle.lu_msg.specs.Limits.{slot_count};
ghost use Rattle.lu_spec_entries.specs.Carried.{Plain};
ghost use Rattle.lu_spec_entries.specs.Words.{Begin};
ghost use Rattle.lu_spec_client.specs.Calls.{call_on, file_of, unbound};
ghost use Rattle.lu_spec_client.specs.Slots.{begins, begins_close, begins_open, begun, opens, refuses};
ghost use Rattle.lu_call.specs.Ranges.{IsCall};
ghost use Rattle.lu_call.specs.Views.{file_of as row_file};
ghost use Rattle.lu_client.specs.Advancing.{handle_of, IsOther};
ghost use Rattle.lu_client.specs.Clients.{with_call, with_handles, Makes};

use super::client::Client;
use lu_base::{Duplicate, Memory};
use lu_call::{CallState, HandleFile};
use lu_msg::{Answer, Call, Errno};
use lu_trace::{Entry, Turn};

/// Whether the call, if any, opens this handle.
fn opens(call: &Option<CallState>, handle: u8) -> bool
    ensures opens { result ≡ opens handle call.now }
{
    match call {
        Some(call) => call.is_open_of(handle),
        None => false,
    }
}

/// The handle of a call on a handle that isn't a close.
fn handle_of(call: &Call) -> Option<u8>
    ensures handle { result ≡ handle_of call.now }
{
    match call {
        Call::Read { handle, .. }
        | Call::Write { handle, .. }
        | Call::Cut { handle, .. }
        | Call::Flush(handle)
        | Call::Glimpse(handle) => Some(*handle),
        _ => None,
    }
}

impl Client {
    /// Whether the slot, 0 to 3, has a call that isn't told.
    pub(crate) fn has_call(&self, slot: u8) -> bool
        requires slot { slot < slot_count }
        ensures has { result ≡ is_some (call_on slot self.now.client.calls) }
    {
        self.calls[slot as usize].is_some()
    }

    /// The slot, 0 to 3, has this call from now on, or none.
    pub(crate) fn put(&mut self, slot: u8, call: Option<CallState>)
        requires slot { slot < slot_count }
        ensures put { self.new ≡ with_call slot call self.old }
    {
        self.calls[slot as usize] = call;
    }

    // ---- a call begins

    /// A call begins on a free slot, 0 to 3: one on a handle that isn't bound is refused, and so is an open of a handle that is
    /// bound or being opened. After want of memory the client is of no use.
    pub(crate) fn begin_call(&mut self, turn: &mut Turn, slot: u8, call: Call) -> Result<(), Memory>
        requires slot { slot < slot_count }
        requires free { call_on slot self.old.client.calls ≡ None }
        requires range { IsCall call }
        ensures makes { OnOk result (Makes (begins turn.old.at slot call) self.old self.new turn.old turn.new) }
    {
        match &call {
            Call::Open { handle, .. } => {
                let handle = *handle;
                self.begin_open(turn, slot, call, handle)
            }
            Call::Close(handle) => {
                let handle = *handle;
                self.begin_close(turn, slot, handle)
            }
            _ => self.begin_other(turn, slot, call),
        }
    }

    fn begin_open(
        &mut self,
        turn: &mut Turn,
        slot: u8,
        call: Call,
        handle: u8,
    ) -> Result<(), Memory>
        requires slot { slot < slot_count }
        requires free { call_on slot self.old.client.calls ≡ None }
        requires range { IsCall call }
        ensures makes { OnOk result (Makes (λ k.
            begins_open turn.old.at slot call (is_some (file_of handle k.handles) || list_any (opens handle) k.calls))
            self.old self.new turn.old turn.new) }
    {
        if self.file(handle).is_some() {
            return self.refuse(turn, slot, call);
        }
        if self.is_opening(handle) {
            return self.refuse(turn, slot, call);
        }
        self.stand(turn, slot, call, None)
    }

    /// A close unbinds its handle as it begins.
    fn begin_close(&mut self, turn: &mut Turn, slot: u8, handle: u8) -> Result<(), Memory>
        requires slot { slot < slot_count }
        requires free { call_on slot self.old.client.calls ≡ None }
        ensures makes { OnOk result (Makes (λ k. begins_close turn.old.at slot handle (file_of handle k.handles))
            self.old self.new turn.old turn.new) }
    {
        match self.file(handle) {
            None => self.refuse(turn, slot, Call::Close(handle)),
            Some(file) => {
                self.stand(turn, slot, Call::Close(handle), Some(file))?;
                self.unbind(handle);
                Ok(())
            }
        }
    }

    /// A call that is neither an open nor a close begins.
    fn begin_other(&mut self, turn: &mut Turn, slot: u8, call: Call) -> Result<(), Memory>
        requires slot { slot < slot_count }
        requires free { call_on slot self.old.client.calls ≡ None }
        requires range { IsCall call }
        requires other { IsOther call }
        ensures makes { OnOk result (Makes (begins turn.old.at slot call) self.old self.new turn.old turn.new) }
    {
        let Some(handle) = handle_of(&call) else {
            return self.stand(turn, slot, call, None);
        };
        let Some(file) = self.file(handle) else {
            return self.refuse(turn, slot, call);
        };
        self.stand(turn, slot, call, Some(file))
    }

    /// The call stands on the slot, and has asked nothing yet.
    fn stand(
        &mut self,
        turn: &mut Turn,
        slot: u8,
        call: Call,
        file: Option<HandleFile>,
    ) -> Result<(), Memory>
        requires slot { slot < slot_count }
        requires range { IsCall call }
        ensures makes { OnOk result (Makes (λ k. Begin slot (begun turn.old.at call (option_map row_file file) Plain)
            ∷ [])
            self.old self.new turn.old turn.new) }
    {
        let copied = call.copy(self.alloc)?;
        turn.note(Entry::Begin { slot, call: copied })?;
        let standing = CallState::new(self.alloc, turn.at(), call, file);
        self.put(slot, Some(standing));
        Ok(())
    }

    /// The call begins, and is told at once that its handle is bad.
    fn refuse(&self, turn: &mut Turn, slot: u8, call: Call) -> Result<(), Memory>
        requires free { call_on slot self.now.client.calls ≡ None }
        ensures makes { OnOk result (Makes (λ k. refuses turn.old.at slot call) self.now self.now turn.old turn.new) }
    {
        turn.note(Entry::Begin { slot, call })?;
        let at = turn.at();
        let answer = Answer::Refused(Errno::EBADF);
        turn.note(Entry::Told { slot, at, answer })
    }

    // ---- handles

    /// The file that a handle is bound to.
    fn file(&self, handle: u8) -> Option<HandleFile>
        ensures file { option_map row_file result ≡ file_of handle self.now.client.handles }
    {
        for bound in &self.handles {
            if bound.handle == handle {
                return Some(bound.file);
            }
        }
        None
    }

    /// The handle isn't bound any more.
    fn unbind(&mut self, handle: u8)
        ensures unbound { self.new ≡ with_handles (unbound handle self.old.client.handles) self.old }
    {
        self.handles.retain(|bound| bound.handle != handle);
    }

    /// Whether a call opens this handle.
    fn is_opening(&self, handle: u8) -> bool
        ensures opening { result ≡ list_any (opens handle) self.now.client.calls }
    {
        self.calls.iter().any(|call| opens(call, handle))
    }
}
