//! Words where a number, a node, a path or data stands.

ghost use Rattle.std.specs.Prelude.{◌≡◌, ℕ, ◌==◌, ◌≤◌, ◌&&◌, nat_le, codes, IfOk, IfSome, IfNone, IsTrue, ◌↔◌, map, MatchOption};
ghost use Rattle.std.specs.Option.{option_map};
ghost use Rattle.std.specs.List.{list_all, slice_split};
ghost use Rattle.lu_scene.specs.Gives.{Gives};
ghost use Rattle.lu_scene.specs.Fields.{number_of, number_in, number_at, is_octal, mode_of, mode_at, count_at, number_behind, client_at, target_at, node_at, slot_of, slot_at, path_at, or_fault, data_of, data_at};

use super::faults::{Fault, LineError};
use lu_base::{Bytes, MOST_CALL_BYTES, Node, Path, TargetId, read_bytes, read_number, read_path};
use std::alloc::{AllocError, Global};

/// The greatest number of a slot.
const MOST_SLOT: u64 = 3;

/// The greatest number of stripes that a call asks for.
const MOST_STRIPES: u64 = 1000;

/// The number below 2^64 that the text is.
fn number_of(text: &[u8]) -> Option<u64>
    ensures number { result ≡ number_of text.now }
{
    read_number(text)
}

/// Any number below 2^64.
pub fn number_at(word: &[u8]) -> Result<u64, LineError>
    ensures number { Gives result (number_at word.now) }
{
    match number_of(word) {
        Some(n) => Ok(n),
        None => Err(LineError::Bad(Fault::Number)),
    }
}

/// A number from `least` to `most`.
pub fn number_in(word: &[u8], least: u64, most: u64) -> Result<u64, LineError>
    ensures number { Gives result (number_in least most word.now) }
{
    let n = number_at(word)?;
    if least <= n && n <= most {
        Ok(n)
    } else {
        Err(LineError::Bad(Fault::Number))
    }
}

/// A mode, of one to four octal digits.
pub fn mode_at(word: &[u8]) -> Result<u16, LineError>
    ensures mode { Gives result (mode_at word.now) }
{
    match mode_of(word) {
        Some(mode) => Ok(mode),
        None => Err(LineError::Bad(Fault::Number)),
    }
}

/// The value of one to four octal digits.
fn mode_of(text: &[u8]) -> Option<u16>
    ensures mode { result ≡ mode_of text.now }
{
    if !is_octal(text) {
        return None;
    }
    let Ok(digits) = std::str::from_utf8(text) else {
        return None;
    };
    match u16::from_str_radix(digits, 8) {
        Ok(mode) => Some(mode),
        Err(_) => None,
    }
}

/// Whether these are one to four octal digits.
fn is_octal(text: &[u8]) -> bool
    ensures octal { result ≡ is_octal text.now }
{
    !text.is_empty() && text.len() <= 4 && are_octal(text)
}

/// Whether each byte is an octal digit.
fn are_octal(text: &[u8]) -> bool
    ensures octal { result ≡ list_all (λ b. nat_le 48 b && nat_le b 55) text.now }
{
    text.iter().all(|b| b'0' <= *b && *b <= b'7')
}

/// How many stripes a new file has: a number up to 1,000, or -1 for one on each target.
pub fn count_at(word: &[u8]) -> Result<i32, LineError>
    ensures count { Gives result (count_at word.now) }
{
    if word == b"-1".as_slice() {
        return Ok(-1);
    }
    let n = number_in(word, 0, MOST_STRIPES)?;
    Ok(n as i32)
}

/// The number behind a letter.
fn number_behind(letter: u8, word: &[u8]) -> Option<u64>
    ensures number { result ≡ number_behind letter word.now }
{
    let (first, digits) = word.split_first()?;
    if *first == letter {
        number_of(digits)
    } else {
        None
    }
}

/// A client of a scenario that has so many.
pub fn client_at(word: &[u8], clients: u16) -> Result<u16, LineError>
    ensures client { Gives result (client_at clients word.now) }
{
    let Some(client) = number_behind(b'c', word) else {
        return Err(LineError::Bad(Fault::Node));
    };
    if client < clients as u64 {
        Ok(client as u16)
    } else {
        Err(LineError::Bad(Fault::Node))
    }
}

/// A target of a scenario that has so many object storage targets.
pub fn target_at(word: &[u8], osts: u16) -> Result<TargetId, LineError>
    ensures target { Gives result (target_at osts word.now) }
{
    let Some(target) = number_behind(b't', word) else {
        return Err(LineError::Bad(Fault::Node));
    };
    if target <= osts as u64 {
        Ok(TargetId(target as u16))
    } else {
        Err(LineError::Bad(Fault::Node))
    }
}

/// A client or a target.
pub fn node_at(word: &[u8], clients: u16, osts: u16) -> Result<Node, LineError>
    ensures node { Gives result (node_at clients osts word.now) }
{
    if word.first() == Some(&b'c') {
        let client = client_at(word, clients)?;
        Ok(Node::Client(client))
    } else {
        let target = target_at(word, osts)?;
        Ok(Node::Target(target.0))
    }
}

/// What stands between dots.
fn between_dots(alloc: Global, word: &[u8]) -> Result<Vec<&[u8]>, AllocError>
    ensures parts { IfOk result (λ parts. map (λ part. part.now) parts.items ≡ slice_split (λ b. b == 46) word.now) }
{
    word.split(|b| *b == b'.').collect(alloc)
}

/// A client and one of its slots.
fn slot_of(parts: &[&[u8]], clients: u16) -> Result<(u16, u8), LineError>
    ensures slot { Gives result (slot_of clients (map (λ part. part.now) parts.now)) }
{
    let [first, second] = parts else {
        return Err(LineError::Bad(Fault::Node));
    };
    let Some(client) = number_of(first) else {
        return Err(LineError::Bad(Fault::Node));
    };
    let Some(slot) = number_of(second) else {
        return Err(LineError::Bad(Fault::Node));
    };
    if client < clients as u64 && slot <= MOST_SLOT {
        Ok((client as u16, slot as u8))
    } else {
        Err(LineError::Bad(Fault::Node))
    }
}

/// A client and one of its slots, with a dot between them.
pub fn slot_at(alloc: Global, word: &[u8], clients: u16) -> Result<(u16, u8), LineError>
    ensures slot { Gives result (slot_at clients word.now) }
{
    let parts = between_dots(alloc, word)?;
    slot_of(parts.as_slice(), clients)
}

/// A path.
pub fn path_at(alloc: Global, word: &[u8]) -> Result<Path, LineError>
    ensures path { Gives result (path_at word.now) }
{
    match read_path(alloc, word)? {
        Some(path) => Ok(path),
        None => Err(LineError::Bad(Fault::Path)),
    }
}

/// Data of any length.
fn any_data_at(alloc: Global, word: &[u8]) -> Result<Bytes, LineError>
    ensures data { Gives result (or_fault Fault.Data (data_of word.now)) }
{
    match read_bytes(alloc, word)? {
        Some(bytes) => Ok(bytes),
        None => Err(LineError::Bad(Fault::Data)),
    }
}

/// Data of at most 65,536 bytes.
pub fn data_at(alloc: Global, word: &[u8]) -> Result<Bytes, LineError>
    ensures data { Gives result (data_at word.now) }
{
    let bytes = any_data_at(alloc, word)?;
    if bytes.len() as u64 <= MOST_CALL_BYTES {
        Ok(bytes)
    } else {
        Err(LineError::Bad(Fault::Data))
    }
}
