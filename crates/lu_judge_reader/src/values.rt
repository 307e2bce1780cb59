//! Values, of the words that a trace has for them.

ghost use Rattle.std.specs.Prelude.{◌≡◌, ◌≤◌, ◌<◌, ◌^◌, ◌&&◌, nat_le, map, IfOk};
ghost use Rattle.std.specs.List.{list_all};
ghost use Rattle.lu_base.specs.Texts.{IsName, IsPath};
ghost use Rattle.lu_trace.specs.WellFormed.{IsCount};
ghost use Rattle.lu_scene.specs.Fields.{number_of, path_of};
ghost use Rattle.lu_judge_reader.specs.Reading.{Gives};
ghost use Rattle.lu_judge_reader.specs.Values.{small_of, up_to, halves_of, pair_of, life_of, who_of, node_of, target_of, turn_of, at_of, request_of, tagged_of, size_of, stripe_of, object_of, inode_of, last_of, range_of, extent_of, mode_of, cause_of, is_octal, octal_of, rights_of, count_of, name_of};
ghost use Rattle.lu_base.specs.Values.{mode_text};
ghost use Rattle.lu_trace.specs.Entries.{cause_text};

use super::faults::LineFault;
use lu_base::{
    At, Bytes, Cause, Extent, Fid, Mode, Name, Node, Path, Resource, Stamp, Who, Xid, is_name,
    read_number, read_path, split_at_byte,
};
use std::alloc::Global;

/// A number below 2^64.
pub fn number_of(word: &[u8]) -> Result<u64, LineFault>
    ensures read { Gives result (number_of word.now) }
    ensures fits { IfOk result (λ n. n < 2 ^ 64) }
{
    match read_number(word) {
        Some(number) => Ok(number),
        None => Err(LineFault::Unread),
    }
}

/// A number below 2^32.
pub fn short_of(word: &[u8]) -> Result<u32, LineFault>
    ensures read { Gives result (small_of 32 word.now) }
{
    match u32::try_from(number_of(word)?) {
        Ok(number) => Ok(number),
        Err(_) => Err(LineFault::Unread),
    }
}

/// A number below 2^16.
pub fn place_of(word: &[u8]) -> Result<u16, LineFault>
    ensures read { Gives result (small_of 16 word.now) }
    ensures fits { IfOk result (λ n. n < 2 ^ 16) }
{
    match u16::try_from(number_of(word)?) {
        Ok(number) => Ok(number),
        Err(_) => Err(LineFault::Unread),
    }
}

/// A number below 2^8.
pub fn octet_of(word: &[u8]) -> Result<u8, LineFault>
    ensures read { Gives result (small_of 8 word.now) }
{
    match u8::try_from(number_of(word)?) {
        Ok(number) => Ok(number),
        Err(_) => Err(LineFault::Unread),
    }
}

/// A number up to this one.
pub fn up_to(most: u64, word: &[u8]) -> Result<u64, LineFault>
    ensures read { Gives result (up_to most word.now) }
    ensures most { IfOk result (λ n. n ≤ most) }
{
    let number = number_of(word)?;
    if number <= most {
        Ok(number)
    } else {
        Err(LineFault::Unread)
    }
}

/// The number of a page that ends at or below 2^40.
pub fn page_of(word: &[u8]) -> Result<u64, LineFault>
    ensures read { Gives result (small_of 28 word.now) }
    ensures most { IfOk result (λ n. n < 2 ^ 28) }
{
    let number = number_of(word)?;
    if number < 1 << 28 {
        Ok(number)
    } else {
        Err(LineFault::Unread)
    }
}

/// The high and the low half of a number.
fn halves_of(parts: &[&[u8]]) -> Result<u64, LineFault>
    ensures read { Gives result (halves_of (map (λ part. part.now) parts.now)) }
{
    match parts {
        [high, low] => {
            let high = short_of(high)?;
            let low = short_of(low)?;
            Ok(u64::from(high) * (1 << 32) + u64::from(low))
        }
        _ => Err(LineFault::Unread),
    }
}

/// `boot.count`, each below 2^32.
#[tactic(auto, unfolding(crate::specs::Values::pair_of))]
pub fn pair_of(alloc: Global, word: &[u8]) -> Result<u64, LineFault>
    ensures read { Gives result (pair_of word.now) }
    ensures fits { IfOk result (λ n. n < 2 ^ 64) }
{
    let parts = split_at_byte(alloc, word, b'.')?;
    halves_of(parts.as_slice())
}

/// A client and its life.
fn life_of(parts: &[&[u8]]) -> Result<Who, LineFault>
    ensures read { Gives result (life_of (map (λ part. part.now) parts.now)) }
{
    match parts {
        [client, life] => {
            let client = place_of(client)?;
            let life = short_of(life)?;
            Ok(Who { client, life })
        }
        _ => Err(LineFault::Unread),
    }
}

/// `cCLIENT.LIFE`.
#[tactic(auto, unfolding(crate::specs::Values::who_of))]
pub fn who_of(alloc: Global, word: &[u8]) -> Result<Who, LineFault>
    ensures read { Gives result (who_of word.now) }
{
    let Some((letter, numbers)) = word.split_first() else {
        return Err(LineFault::Unread);
    };
    if *letter != b'c' {
        return Err(LineFault::Unread);
    }
    let parts = split_at_byte(alloc, numbers, b'.')?;
    life_of(parts.as_slice())
}

/// `cCLIENT` or `tTARGET`.
#[tactic(auto, unfolding(crate::specs::Values::node_of))]
pub fn node_of(word: &[u8]) -> Result<Node, LineFault>
    ensures read { Gives result (node_of word.now) }
{
    let Some((letter, number)) = word.split_first() else {
        return Err(LineFault::Unread);
    };
    if *letter == b'c' {
        return Ok(Node::Client(place_of(number)?));
    }
    if *letter == b't' {
        return Ok(Node::Target(place_of(number)?));
    }
    Err(LineFault::Unread)
}

/// `tTARGET`.
#[tactic(auto, unfolding(crate::specs::Values::target_of))]
pub fn target_of(word: &[u8]) -> Result<u16, LineFault>
    ensures read { Gives result (target_of word.now) }
{
    let Some((letter, number)) = word.split_first() else {
        return Err(LineFault::Unread);
    };
    if *letter == b't' {
        place_of(number)
    } else {
        Err(LineFault::Unread)
    }
}

/// A stamp and a node.
fn turn_of(parts: &[&[u8]]) -> Result<At, LineFault>
    ensures read { Gives result (turn_of (map (λ part. part.now) parts.now)) }
{
    match parts {
        [stamp, node] => {
            let stamp = Stamp(number_of(stamp)?);
            let node = node_of(node)?;
            Ok(At { stamp, node })
        }
        _ => Err(LineFault::Unread),
    }
}

/// `STAMP:NODE`.
#[tactic(auto, unfolding(crate::specs::Values::at_of))]
pub fn at_of(alloc: Global, word: &[u8]) -> Result<At, LineFault>
    ensures read { Gives result (at_of word.now) }
{
    let parts = split_at_byte(alloc, word, b':')?;
    turn_of(parts.as_slice())
}

/// A request's number, and its tag where that isn't 0.
fn request_of(parts: &[&[u8]]) -> Result<(Xid, u8), LineFault>
    ensures read { Gives result (request_of (map (λ part. part.now) parts.now)) }
{
    match parts {
        [number] => Ok((Xid(number_of(number)?), 0)),
        [number, tag] => {
            let number = number_of(number)?;
            let tag = octet_of(tag)?;
            Ok((Xid(number), tag))
        }
        _ => Err(LineFault::Unread),
    }
}

/// `NUMBER/TAG`, or the number alone for tag 0.
#[tactic(auto, unfolding(crate::specs::Values::tagged_of))]
pub fn tagged_of(alloc: Global, word: &[u8]) -> Result<(Xid, u8), LineFault>
    ensures read { Gives result (tagged_of word.now) }
{
    let parts = split_at_byte(alloc, word, b'/')?;
    request_of(parts.as_slice())
}

/// A size; `-` for none.
#[tactic(auto, unfolding(crate::specs::Values::size_of))]
pub fn size_of(word: &[u8]) -> Result<Option<u64>, LineFault>
    ensures read { Gives result (size_of word.now) }
{
    if word == b"-".as_slice() {
        return Ok(None);
    }
    Ok(Some(number_of(word)?))
}

/// A file and a stripe.
fn stripe_of(alloc: Global, parts: &[&[u8]]) -> Result<Resource, LineFault>
    ensures read { Gives result (stripe_of (map (λ part. part.now) parts.now)) }
{
    match parts {
        [file, stripe] => {
            let fid = Fid(pair_of(alloc, file)?);
            let stripe = place_of(stripe)?;
            Ok(Resource { fid, stripe })
        }
        _ => Err(LineFault::Unread),
    }
}

/// `FILE/STRIPE`.
#[tactic(auto, unfolding(crate::specs::Values::object_of))]
pub fn object_of(alloc: Global, word: &[u8]) -> Result<Resource, LineFault>
    ensures read { Gives result (object_of word.now) }
{
    let parts = split_at_byte(alloc, word, b'/')?;
    stripe_of(alloc, parts.as_slice())
}

/// An inode.
#[tactic(auto, unfolding(crate::specs::Values::inode_of))]
pub fn inode_of(alloc: Global, word: &[u8]) -> Result<Resource, LineFault>
    ensures read { Gives result (inode_of word.now) }
    ensures stripe { IfOk result (λ resource. resource.stripe ≡ 0) }
{
    let fid = Fid(pair_of(alloc, word)?);
    Ok(Resource { fid, stripe: 0 })
}

/// The last offset of a range, where `end` stands for the greatest.
#[tactic(auto, unfolding(crate::specs::Values::last_of))]
fn last_of(word: &[u8]) -> Result<u64, LineFault>
    ensures read { Gives result (last_of word.now) }
{
    if word == b"end".as_slice() {
        return Ok(u64::MAX);
    }
    number_of(word)
}

/// The first and the last offset.
fn range_of(parts: &[&[u8]]) -> Result<Extent, LineFault>
    ensures read { Gives result (range_of (map (λ part. part.now) parts.now)) }
{
    match parts {
        [first, last] => {
            let first = number_of(first)?;
            let last = last_of(last)?;
            Ok(Extent { first, last })
        }
        _ => Err(LineFault::Unread),
    }
}

/// `FIRST-LAST`.
#[tactic(auto, unfolding(crate::specs::Values::extent_of))]
pub fn extent_of(alloc: Global, word: &[u8]) -> Result<Extent, LineFault>
    ensures read { Gives result (extent_of word.now) }
{
    let parts = split_at_byte(alloc, word, b'-')?;
    range_of(parts.as_slice())
}

/// The modes of locks.
const MODES: [Mode; 6] = [Mode::EX, Mode::PW, Mode::PR, Mode::CW, Mode::CR, Mode::NL];

/// The word of a lock's mode.
fn mode_word(mode: Mode) -> &'static [u8]
    ensures word { result.now ≡ mode_text mode }
{
    match mode {
        Mode::EX => b"EX",
        Mode::PW => b"PW",
        Mode::PR => b"PR",
        Mode::CW => b"CW",
        Mode::CR => b"CR",
        Mode::NL => b"NL",
    }
}

/// The mode of this word.
fn find_mode(word: &[u8]) -> Option<Mode>
    ensures mode { result ≡ mode_of word.now }
{
    MODES.iter().copied().find(|mode| mode_word(*mode) == word)
}

/// A lock's mode.
pub fn mode_of(word: &[u8]) -> Result<Mode, LineFault>
    ensures read { Gives result (mode_of word.now) }
{
    match find_mode(word) {
        Some(mode) => Ok(mode),
        None => Err(LineFault::Unread),
    }
}

/// The causes of evictions.
const CAUSES: [Cause; 4] = [Cause::Absent, Cause::Gap, Cause::Expired, Cause::Replaced];

/// The word of a cause.
fn cause_word(cause: Cause) -> &'static [u8]
    ensures word { result.now ≡ cause_text cause }
{
    match cause {
        Cause::Absent => b"absent",
        Cause::Gap => b"gap",
        Cause::Expired => b"expired",
        Cause::Replaced => b"replaced",
    }
}

/// The cause of this word.
fn find_cause(word: &[u8]) -> Option<Cause>
    ensures cause { result ≡ cause_of word.now }
{
    CAUSES
        .iter()
        .copied()
        .find(|cause| cause_word(*cause) == word)
}

/// Why a life was evicted.
pub fn cause_of(word: &[u8]) -> Result<Cause, LineFault>
    ensures read { Gives result (cause_of word.now) }
{
    match find_cause(word) {
        Some(cause) => Ok(cause),
        None => Err(LineFault::Unread),
    }
}

/// Whether each byte is an octal digit.
fn are_octal(text: &[u8]) -> bool
    ensures octal { result ≡ list_all (λ b. nat_le 48 b && nat_le b 55) text.now }
{
    text.iter().all(|b| b'0' <= *b && *b <= b'7')
}

/// Whether these are octal digits, at least one.
fn is_octal(text: &[u8]) -> bool
    ensures octal { result ≡ is_octal text.now }
{
    !text.is_empty() && are_octal(text)
}

/// A number below 2^16 in octal.
pub fn octal_of(text: &[u8]) -> Result<u16, LineFault>
    ensures read { Gives result (octal_of text.now) }
{
    if !is_octal(text) {
        return Err(LineFault::Unread);
    }
    let Ok(digits) = std::str::from_utf8(text) else {
        return Err(LineFault::Unread);
    };
    match u16::from_str_radix(digits, 8) {
        Ok(mode) => Ok(mode),
        Err(_) => Err(LineFault::Unread),
    }
}

/// A number below 2^12 in octal.
pub fn rights_of(text: &[u8]) -> Result<u16, LineFault>
    ensures read { Gives result (rights_of text.now) }
    ensures most { IfOk result (λ n. n < 2 ^ 12) }
{
    let rights = octal_of(text)?;
    if rights < 4096 {
        Ok(rights)
    } else {
        Err(LineFault::Unread)
    }
}

/// A number of stripes: up to 1,000, or -1.
#[tactic(auto, unfolding(crate::specs::Values::count_of))]
pub fn count_of(word: &[u8]) -> Result<i32, LineFault>
    ensures read { Gives result (count_of word.now) }
    ensures fits { IfOk result IsCount }
{
    if word == b"-1".as_slice() {
        return Ok(-1);
    }
    let count = up_to(1000, word)?;
    Ok(count as i32)
}

/// A path.
pub fn path_of(alloc: Global, word: &[u8]) -> Result<Path, LineFault>
    ensures read { Gives result (path_of word.now) }
    ensures fits { IfOk result IsPath }
{
    match read_path(alloc, word)? {
        Some(path) => Ok(path),
        None => Err(LineFault::Unread),
    }
}

/// A name.
pub fn name_of(alloc: Global, word: &[u8]) -> Result<Name, LineFault>
    ensures read { Gives result (name_of word.now) }
    ensures fits { IfOk result IsName }
{
    if is_name(word) {
        Ok(Bytes::from_slice(alloc, word)?)
    } else {
        Err(LineFault::Unread)
    }
}
