//! Bytes, of the word that a trace has for them.

ghost use Rattle.std.specs.Prelude.{◌≡◌, ◌<◌, ◌^◌, All, IfOk, IsTrue, length};
ghost use Rattle.lu_trace.specs.WellFormed.{Fits};
ghost use Rattle.lu_scene.specs.Fields.{data_of};
ghost use Rattle.lu_judge_reader.specs.Reading.{Gives};
ghost use Rattle.lu_judge_reader.specs.Values.{has_star, repeated, repeated_of, bytes_of};

use super::faults::LineFault;
use super::values::number_of;
use lu_base::{Bytes, read_bytes};
use std::alloc::Global;

/// Whether the third byte is `*`.
fn has_star(word: &[u8]) -> bool
    ensures star { result ≡ has_star word.now }
{
    word.len() > 2 && word[2] == b'*'
}

/// The first byte, so often.
fn repeated(alloc: Global, count: u64, bytes: &[u8]) -> Result<Bytes, LineFault>
    requires small { count < 2 ^ 63 }
    ensures read { Gives result (repeated count bytes.now) }
{
    let Some(byte) = bytes.first() else {
        return Err(LineFault::Unread);
    };
    Ok(Bytes::from(vec![in alloc; *byte; count as usize]?))
}

/// One byte, as often as the number behind the star says.
fn repeated_of(alloc: Global, word: &[u8]) -> Result<Bytes, LineFault>
    requires star { IsTrue (has_star word.now) }
    ensures read { Gives result (repeated_of word.now) }
{
    let bytes = data_of(alloc, &word[..2])?;
    let count = number_of(&word[3..])?;
    if count < 1 << 63 {
        repeated(alloc, count, bytes.as_slice())
    } else {
        Err(LineFault::Unread)
    }
}

/// Bytes of two digits each, or one byte and how often it stands up to 65,536 times.
fn data_of(alloc: Global, word: &[u8]) -> Result<Bytes, LineFault>
    ensures read { Gives result (data_of word.now) }
{
    match read_bytes(alloc, word)? {
        Some(bytes) => Ok(bytes),
        None => Err(LineFault::Unread),
    }
}

/// Bytes; `-` for none.
#[tactic(auto, unfolding(crate::specs::Values::bytes_of))]
pub fn bytes_of(alloc: Global, word: &[u8]) -> Result<Bytes, LineFault>
    ensures read { Gives result (bytes_of word.now) }
    ensures bytes { IfOk result (All (Fits 8)) }
    ensures count { IfOk result (λ bytes. length bytes < 2 ^ 63) }
{
    if word == b"-".as_slice() {
        return Ok(Bytes::new(alloc));
    }
    if has_star(word) {
        repeated_of(alloc, word)
    } else {
        data_of(alloc, word)
    }
}
