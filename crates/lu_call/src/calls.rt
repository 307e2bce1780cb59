//! A call that isn't told.

ghost use Rattle.std.specs.Prelude.{◌≡◌, [], Some, option_map};
ghost use Rattle.lu_spec_entries.specs.Carried.{HandleFile as RowFile, Unasked, Plain};
ghost use Rattle.lu_spec_client.specs.Slots.{is_close, opens};
ghost use Rattle.lu_spec_client.specs.Starts.{is_on};
ghost use Rattle.lu_call.specs.Hearing.{is_plain};
ghost use Rattle.lu_call.specs.Ranges.{IsCall};
ghost use Rattle.lu_call.specs.Views.{file_of};

use super::works::{HandleFile, Work};
use lu_base::{At, Lock, TargetId, Txn};
use lu_held::LockName;
use lu_msg::{Call, Reply};
use std::alloc::Global;
use std::marker::Model;

/// Whether a call's newest request is out.
#[derive(Debug, Drop)]
pub enum Asking {
    /// It has asked nothing yet.
    Unasked,
    /// Its request is queued or in flight.
    Asked,
    /// This reply to it was heard.
    Answered { target: TargetId, reply: Reply },
}

/// How far a call has come.
#[derive(Debug, Drop)]
pub enum Stage {
    /// It has no locks to look for: a call on names, or one that has just begun.
    Plain,
    /// It looks for the first of the locks that are left.
    Looks(Work),
    /// That lock is asked for.
    Enqueued(Work),
    /// It waits for that lock, which may have been called back already.
    Waits {
        work: Work,
        target: TargetId,
        lock: Lock,
        marked: bool,
    },
    /// That lock was granted.
    Came {
        work: Work,
        lock: Lock,
    },
    /// It waited for that lock when its target went down, and asks again once the target serves.
    Forgotten(Work),
    /// A page is fetched.
    Gets(Work),
    /// It writes back the object of this stripe.
    Flushing(u16),
    /// It asks how long the object of the first of the locks that are left is.
    Sizes(Work),
}

/// A call that isn't told: in which turn it began, the file of its handle, where it stands, and the locks that it
/// pinned, in order.
#[derive(Debug, Drop)]
pub struct CallState {
    pub(crate) alloc: Global,
    pub(crate) at: At,
    pub(crate) call: Call,
    pub(crate) file: Option<HandleFile>,
    pub(crate) asking: Asking,
    pub(crate) stage: Stage,
    pub(crate) pins: Vec<LockName>,
}

impl Model for CallState {
    ghost use Rattle.lu_spec_entries.specs.Carried.{Running};
    ghost use Rattle.lu_call.specs.Ranges.{IsSound};
    ghost use Rattle.lu_call.specs.Views.{running_of, stage_of};

    ghost Value = { Running };

    ghost view = { λ c. running_of c.at c.call c.file c.asking c.stage c.pins.items };

    ghost invariant = { λ c. IsSound c.call (stage_of c.stage) };
}

impl CallState {
    /// A call begins in this turn: it has asked nothing, and has no locks to look for yet. Of a call on a handle
    /// `file` is what the handle is bound to. It takes no memory yet.
    pub fn new(alloc: Global, at: At, call: Call, file: Option<HandleFile>) -> CallState
        requires range { IsCall call }
        ensures begun { result ≡ record {
          at = at;
          call = call;
          file = option_map file_of file;
          asking = Unasked;
          stage = Plain;
          pins = [];
        } }
    {
        CallState {
            alloc,
            at,
            call,
            file,
            asking: Asking::Unasked,
            stage: Stage::Plain,
            pins: Vec::new(alloc),
        }
    }

    /// Whether it is on the open with this number.
    pub fn is_on(&self, number: Txn) -> bool
        ensures on { result ≡ is_on number.0 (Some self.now) }
    {
        match &self.file {
            Some(file) => file.number == number,
            None => false,
        }
    }

    /// The number of the open that it is on; none of a call on no handle.
    pub fn open_number(&self) -> Option<Txn>
        ensures number { result ≡ option_map (λ (f : RowFile). f.number) self.now.file }
    {
        match &self.file {
            Some(file) => Some(file.number),
            None => None,
        }
    }

    /// Whether it has no locks to look for: a call on names, or one that has just begun.
    pub fn is_plain(&self) -> bool
        ensures plain { result ≡ is_plain self.now.stage }
    {
        match &self.stage {
            Stage::Plain => true,
            _ => false,
        }
    }

    /// Whether it is a close that has asked nothing yet.
    pub fn is_unasked_close(&self) -> bool
        ensures close { result ≡ is_close self.now.call self.now.asking }
    {
        match (&self.call, &self.asking) {
            (Call::Close(_), Asking::Unasked) => true,
            _ => false,
        }
    }

    /// Whether it opens this handle.
    pub fn is_open_of(&self, handle: u8) -> bool
        ensures opens { result ≡ opens handle (Some self.now) }
    {
        match &self.call {
            Call::Open { handle: opened, .. } => *opened == handle,
            _ => false,
        }
    }
}
