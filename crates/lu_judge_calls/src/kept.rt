//! Calls that were done, each with a mark.

ghost use Rattle.std.specs.Prelude.{◌≡◌, ◌+◌, ◌≤◌, ◌^◌, IsTrue, ◌↔◌};
ghost use Rattle.lu_spec_laws.specs.Words.Pieces.{wrote};
ghost use Rattle.lu_judge_calls.specs.Marks.{IsWithin};

use lu_base::MOST_POSITION;
use lu_msg::Call;

/// A call that was done.
#[derive(Clone, Copy, Debug)]
pub(crate) struct Kept<'a> {
    /// How many messages had been sent.
    pub(crate) mark: u64,
    pub(crate) call: &'a Call,
}

/// Whether so many bytes from an offset on end at or below 2^40.
fn ends_within(offset: u64, count: u64) -> bool
    ensures { IsTrue result ↔ (offset + count ≤ 2 ^ 40) }
{
    offset <= MOST_POSITION && count <= MOST_POSITION - offset
}

/// Whether what the call reads, writes or cuts ends at or below 2^40, as in each well formed trace.
pub fn is_within(call: &Call) -> bool
    ensures { IsTrue result ↔ IsWithin call.now }
{
    match call {
        Call::Read { offset, length, .. } => ends_within(*offset, *length),
        Call::Write { offset, bytes, .. } => ends_within(*offset, bytes.len() as u64),
        Call::Cut { size, .. } => *size <= MOST_POSITION,
        _ => true,
    }
}

/// Whether the call wrote this byte at this position of its file.
pub(crate) fn wrote(call: &Call, position: u64, byte: u8) -> bool
    ensures { result ≡ wrote position byte call.now }
{
    match call {
        Call::Write { offset, bytes, .. } => {
            if position < *offset {
                return false;
            }
            match bytes.as_slice().get((position - *offset) as usize) {
                Some(other) => *other == byte,
                None => false,
            }
        }
        _ => false,
    }
}
