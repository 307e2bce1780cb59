//! Which numbers a call may have.

ghost use Rattle.std.specs.Prelude.{◌↔◌, IsTrue};
ghost use Rattle.lu_call.specs.Ranges.{IsCall, IsSpan};

use lu_msg::Call;

/// The most bytes of a read or a write.
const MOST_BYTES: u64 = 65_536;

/// No file is longer, in bytes.
const LONGEST: u64 = 1 << 40;

/// Whether bytes that are read or written together are 1 to 65,536, and end at or below 2^40.
fn is_span(offset: u64, count: u64) -> bool
    ensures span { IsTrue result ↔ IsSpan offset count }
{
    if count == 0 || count > MOST_BYTES {
        return false;
    }
    offset <= LONGEST - count
}

/// Whether a call's numbers are in their range: a read or a write is of 1 to 65,536 bytes and ends at or below 2^40, and a cut
/// leaves at most 2^40 bytes.
pub fn is_in_range(call: &Call) -> bool
    ensures range { IsTrue result ↔ IsCall call.now }
{
    match call {
        Call::Read { offset, length, .. } => is_span(*offset, *length),
        Call::Write { offset, bytes, .. } => is_span(*offset, bytes.len() as u64),
        Call::Cut { size, .. } => *size <= LONGEST,
        _ => true,
    }
}
