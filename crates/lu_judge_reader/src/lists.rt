//! Lists, of the words that a trace has for them.

ghost use Rattle.std.specs.Prelude.{◌≡◌, ◌<◌, ◌^◌, All, length, map, IfOk};
ghost use Rattle.lu_base.specs.Texts.{IsName};
ghost use Rattle.lu_trace.specs.WellFormed.{Fits, IsReplyLock, IsStriped};
ghost use Rattle.lu_scene.specs.Fields.{number_of};
ghost use Rattle.lu_judge_reader.specs.Reading.{Gives};
ghost use Rattle.lu_judge_reader.specs.Values.{small_of, pair_of, name_of};
ghost use Rattle.lu_judge_reader.specs.Lists.{all_of, items_of, seen_of, sizes_of, granted_of, lock_of, locks_of, names_of, striped, raid_of, layout_of};

use super::faults::LineFault;
use super::values::{name_of, number_of, octet_of, pair_of, place_of};
use lu_base::{
    Ask, Cookie, Fid, Lock, Locks, Memory, Mode, Names, Numbers, Policy, Resource, Sequence, Who,
    split_at_byte,
};
use lu_layout::Layout;
use std::alloc::Global;

/// What stands between commas; nothing in `-`.
fn items_of(alloc: Global, word: &[u8]) -> Result<Vec<&[u8]>, Memory>
    ensures items { IfOk result (λ all. map (λ item. item.now) all.items ≡ items_of word.now) }
{
    if word == b"-".as_slice() {
        return Ok(Vec::new(alloc));
    }
    split_at_byte(alloc, word, b',')
}

/// Numbers of a boot and a count.
fn pairs_of(alloc: Global, words: &[&[u8]]) -> Result<Numbers, LineFault>
    ensures read { Gives result (all_of pair_of (map (λ word. word.now) words.now)) }
    ensures fits { IfOk result (All (Fits 64)) }
{
    let mut pairs = Numbers::new(alloc);
    for word in words {
        match pair_of(alloc, word) {
            Ok(pair) => pairs.push(pair)?,
            Err(fault) => return Err(fault),
        }
    }
    Ok(pairs)
}

/// Transactions that were seen.
#[tactic(auto, unfolding(crate::specs::Lists::seen_of))]
pub fn seen_of(alloc: Global, word: &[u8]) -> Result<Numbers, LineFault>
    ensures read { Gives result (seen_of word.now) }
    ensures fits { IfOk result (All (Fits 64)) }
{
    let items = items_of(alloc, word)?;
    pairs_of(alloc, items.as_slice())
}

/// Numbers.
fn numbers_of(alloc: Global, words: &[&[u8]]) -> Result<Numbers, LineFault>
    ensures read { Gives result (all_of number_of (map (λ word. word.now) words.now)) }
    ensures fits { IfOk result (All (Fits 64)) }
{
    let mut numbers = Numbers::new(alloc);
    for word in words {
        match number_of(word) {
            Ok(number) => numbers.push(number)?,
            Err(fault) => return Err(fault),
        }
    }
    Ok(numbers)
}

/// Sizes of objects.
#[tactic(auto, unfolding(crate::specs::Lists::sizes_of))]
pub fn sizes_of(alloc: Global, word: &[u8]) -> Result<Numbers, LineFault>
    ensures read { Gives result (sizes_of word.now) }
    ensures fits { IfOk result (All (Fits 64)) }
{
    let items = items_of(alloc, word)?;
    numbers_of(alloc, items.as_slice())
}

/// A lock that a reply to this life grants, of its three parts.
fn granted_of(alloc: Global, who: Who, parts: &[&[u8]]) -> Result<Lock, LineFault>
    ensures read { Gives result (granted_of who (map (λ part. part.now) parts.now)) }
    ensures fits { IfOk result (IsReplyLock who) }
{
    let [cookie, file, bits] = parts else {
        return Err(LineFault::Unread);
    };
    let cookie = Cookie(pair_of(alloc, cookie)?);
    let fid = Fid(pair_of(alloc, file)?);
    let policy = Policy::Bits(octet_of(bits)?);
    Ok(Lock {
        cookie,
        resource: Resource { fid, stripe: 0 },
        ask: Ask {
            who,
            mode: Mode::PR,
            policy,
        },
    })
}

/// `COOKIE:FID:BITS`.
fn lock_of(alloc: Global, who: Who, word: &[u8]) -> Result<Lock, LineFault>
    ensures read { Gives result (lock_of who word.now) }
    ensures fits { IfOk result (IsReplyLock who) }
{
    let parts = split_at_byte(alloc, word, b':')?;
    granted_of(alloc, who, parts.as_slice())
}

/// The locks of these words.
fn all_locks(alloc: Global, who: Who, words: &[&[u8]]) -> Result<Locks, LineFault>
    ensures read { Gives result (all_of (lock_of who) (map (λ word. word.now) words.now)) }
    ensures fits { IfOk result (All (IsReplyLock who)) }
{
    let mut locks = Locks::new(alloc);
    for word in words {
        match lock_of(alloc, who, word) {
            Ok(lock) => locks.push(lock)?,
            Err(fault) => return Err(fault),
        }
    }
    Ok(locks)
}

/// The locks that a reply to this life grants.
#[tactic(auto, unfolding(crate::specs::Lists::locks_of))]
pub fn locks_of(alloc: Global, who: Who, word: &[u8]) -> Result<Locks, LineFault>
    ensures read { Gives result (locks_of who word.now) }
    ensures fits { IfOk result (All (IsReplyLock who)) }
{
    let items = items_of(alloc, word)?;
    all_locks(alloc, who, items.as_slice())
}

/// The names that these words are.
fn all_names(alloc: Global, words: &[&[u8]]) -> Result<Names, LineFault>
    ensures read { Gives result (all_of name_of (map (λ word. word.now) words.now)) }
    ensures fits { IfOk result (All IsName) }
{
    let mut names = Names::new(alloc);
    for word in words {
        match name_of(alloc, word) {
            Ok(name) => names.push(name)?,
            Err(fault) => return Err(fault),
        }
    }
    Ok(names)
}

/// The names that these words are, so many.
#[tactic(auto, unfolding(crate::specs::Lists::names_of))]
pub fn names_of(alloc: Global, count: u64, words: &[&[u8]]) -> Result<Names, LineFault>
    ensures read { Gives result (names_of count (map (λ word. word.now) words.now)) }
    ensures fits { IfOk result (All IsName) }
    ensures count { IfOk result (λ names. length names < 2 ^ 63) }
{
    if words.len() as u64 == count {
        all_names(alloc, words)
    } else {
        Err(LineFault::Unread)
    }
}

/// The targets of stripes.
fn targets_of(alloc: Global, words: &[&[u8]]) -> Result<Sequence<u16>, LineFault>
    ensures read { Gives result (all_of (small_of 16) (map (λ word. word.now) words.now)) }
    ensures fits { IfOk result (All (Fits 16)) }
{
    let mut targets = Sequence::new(alloc);
    for word in words {
        match place_of(word) {
            Ok(target) => targets.push(target)?,
            Err(fault) => return Err(fault),
        }
    }
    Ok(targets)
}

/// The layout of this stripe size and these targets.
fn striped(size: u64, targets: &[u16]) -> Result<Layout, LineFault>
    requires targets { All (Fits 16) targets.now }
    ensures read { Gives result (striped size targets.now) }
    ensures fits { IfOk result IsStriped }
{
    match Layout::make(size, targets) {
        Ok(layout) => Ok(layout),
        Err(_) => Err(LineFault::Unread),
    }
}

/// A stripe size and the targets of stripes, joined by `,`.
fn raid_of(alloc: Global, parts: &[&[u8]]) -> Result<Layout, LineFault>
    ensures read { Gives result (raid_of (map (λ part. part.now) parts.now)) }
    ensures fits { IfOk result IsStriped }
{
    let [size, targets] = parts else {
        return Err(LineFault::Unread);
    };
    let size = number_of(size)?;
    let words = split_at_byte(alloc, targets, b',')?;
    let targets = targets_of(alloc, words.as_slice())?;
    striped(size, targets.as_slice())
}

/// `SIZE:TARGETS`.
#[tactic(auto, unfolding(crate::specs::Lists::layout_of))]
pub fn layout_of(alloc: Global, word: &[u8]) -> Result<Layout, LineFault>
    ensures read { Gives result (layout_of word.now) }
    ensures fits { IfOk result IsStriped }
{
    let parts = split_at_byte(alloc, word, b':')?;
    raid_of(alloc, parts.as_slice())
}
