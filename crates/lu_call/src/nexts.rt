//! What a call leaves to its client when it has gone on.

use super::works::HandleFile;
use lu_base::{At, TargetId};
use lu_msg::{Answer, Op};

/// A handle, 0 to 15, that is bound to a file.
#[derive(Clone, Copy, Debug)]
pub struct Binding {
    pub handle: u8,
    pub file: HandleFile,
}

/// What a call leaves to its client when it has gone as far as it can.
#[derive(Debug, Drop)]
pub enum Next {
    /// The call waits, and asks nothing new.
    Waits,
    /// This is asked of a target; the call waits for the answer.
    Asks(TargetId, Op),
    /// A change is written back: this is asked of a target for no call, and the call waits for it.
    WritesBack(TargetId, Op),
    /// The call is told this answer, with the turn in which it acted; an open binds its handle first. There is no call
    /// any more.
    Told {
        at: At,
        answer: Answer,
        binding: Option<Binding>,
    },
}
