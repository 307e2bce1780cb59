//! Calls that change nothing and whose answers a life can know.

ghost use Rattle.std.specs.Prelude.{◌≡◌, false, Some, IfSome, IfNone};
ghost use Rattle.lu_spec_laws.specs.Words.Repeats.{is_error, disturbs};
ghost use Rattle.lu_judge_silent.specs.Readings.{asks, is_reading, reads_of, rebound_by};

use lu_base::Path;
use lu_msg::{Answer, Call, Message};

/// What a call asks that changes nothing.
#[derive(Clone, Copy, Debug, PartialEq, Eq, Hash)]
pub enum Reading<'a> {
    /// What a path leads to.
    Lookup(&'a Path),
    /// The attributes of what a path leads to.
    Stat(&'a Path),
    /// The names in a directory.
    List(&'a Path),
    /// The layout of a file.
    Layout(&'a Path),
    /// So many bytes from a position on, by a handle.
    Read {
        handle: u8,
        offset: u64,
        length: u64,
    },
}

/// What the call asks, where it changes nothing and its answer can be known.
pub fn question(call: &Call) -> Option<Reading<'_>>
    ensures some { IfSome result (λ asked. asks asked ≡ call.now) }
    ensures none { IfNone result (is_reading call.now ≡ false) }
{
    match call {
        Call::Lookup(path) => Some(Reading::Lookup(path)),
        Call::Stat(path) => Some(Reading::Stat(path)),
        Call::List(path) => Some(Reading::List(path)),
        Call::Layout(path) => Some(Reading::Layout(path)),
        Call::Read {
            handle,
            offset,
            length,
        } => Some(Reading::Read {
            handle: *handle,
            offset: *offset,
            length: *length,
        }),
        _ => None,
    }
}

/// The handle that a call reads by; none where it reads by none.
pub fn handle_read(call: &Call) -> Option<u8>
    ensures { result ≡ reads_of call.now }
{
    match call {
        Call::Read { handle, .. } => Some(*handle),
        _ => None,
    }
}

/// The handle that a call opens or closes; none where it does neither.
pub fn handle_rebound(call: &Call) -> Option<u8>
    ensures { result ≡ rebound_by call.now }
{
    match call {
        Call::Open { handle, .. } | Call::Close(handle) => Some(*handle),
        _ => None,
    }
}

/// Whether the answer is an error.
pub fn is_error(answer: &Answer) -> bool
    ensures { result ≡ is_error answer.now }
{
    matches!(answer, Answer::Refused(_))
}

/// Whether the message tells a life that what it knows may change.
pub fn is_disturbing(message: &Message) -> bool
    ensures { result ≡ disturbs (Some message.now) }
{
    matches!(
        message,
        Message::Block { .. } | Message::Up { .. } | Message::Evicted { .. }
    )
}
