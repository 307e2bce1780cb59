//! The requests that lives replay.

ghost use Rattle.std.specs.Prelude.{◌≡◌, ◌&&◌, not, nat_lt, if◌then◌else◌, [], length, filter, map, IfOk, OnOk, OnErr};
ghost use Rattle.std.specs.List.{list_any};
ghost use Rattle.std.specs.Map.{keys_of};
ghost use Rattle.lu_spec_target.specs.Windows.{cut_seen, is_replay, with_replay, has_number, misses, kept_of, lost_of, has_lost};
ghost use Rattle.lu_base.specs.declared.ids.Who.{Who};
ghost use Rattle.lu_spec_entries.specs.Words.{same_life};
ghost use Rattle.lu_window.specs.Shown.{replayed, replayed_of, kept_replay};

use super::outcomes::{KeptReplay, KeptReplays};
use lu_base::{Memory, Numbers, Who};
use lu_replay::{Key, Replay, ReplayBody, Replays};
use std::alloc::{AllocError, Global};
use std::collections::{BTreeMap, BTreeSet};
use std::marker::Model;

/// Whether this number is one of these.
fn has(numbers: &BTreeSet<u64>, number: u64) -> bool
    ensures { result ≡ has_number number numbers.now.keys }
{
    numbers.contains(&number)
}

/// Whether one of the numbers that were seen is neither committed nor kept.
pub(crate) fn misses(committed: u64, kept: &BTreeSet<u64>, seen: &Numbers) -> bool
    ensures { result ≡ misses committed kept.now.keys seen.now }
{
    seen.as_slice()
        .iter()
        .any(|number| committed < *number && !has(kept, *number))
}

/// Whether the replay of this number is lost.
fn is_lost(committed: u64, kept: &BTreeSet<u64>, number: u64) -> bool
    ensures { result ≡ (nat_lt committed number && not (has_number number kept.now.keys)) }
{
    committed < number && !has(kept, number)
}

/// The numbers of the replays that are lost, rising.
fn lost(
    alloc: Global,
    replays: &BTreeMap<Key, ReplayBody>,
    committed: u64,
    kept: &BTreeSet<u64>,
) -> Result<Vec<u64>, AllocError>
    ensures { IfOk result (λ lost. lost.items ≡ map (λ key. key.number)
        (filter (λ key. nat_lt committed key.number && not (has_number key.number kept.now.keys))
        (keys_of replays.now.entries))) }
{
    replays
        .keys()
        .filter(|key| is_lost(committed, kept, key.number))
        .map(|key| key.number)
        .collect(alloc)
}

/// Whether a replay of this life is lost.
fn has_lost(
    replays: &BTreeMap<Key, ReplayBody>,
    committed: u64,
    kept: &BTreeSet<u64>,
    who: Who,
) -> bool
    ensures { result ≡ list_any (λ key. same_life key.who who && (nat_lt committed key.number
        && not (has_number key.number kept.now.keys))) (keys_of replays.now.entries) }
{
    replays.keys().any(|key| key.who == who && is_lost(committed, kept, key.number))
}

/// The replay without the seen numbers at or above its own.
fn cut(replay: Replay) -> Replay
    ensures { (who : Who) → replayed who result ≡ cut_seen (replayed who replay) }
{
    let Replay {
        number,
        xid,
        tag,
        seen,
        op,
    } = replay;
    let mut below = seen.into_vec();
    below.retain(|seen| *seen < number.0);
    let seen = Numbers::from(below);
    Replay {
        number,
        xid,
        tag,
        seen,
        op,
    }
}

/// The replays that were taken: one for each number of each life, in rising number.
#[derive(Debug, Drop)]
pub(crate) struct Requests {
    alloc: Global,
    replays: Replays,
}

impl Model for Requests {
    ghost use Rattle.std.specs.Prelude.{List, map};
    ghost use Rattle.lu_spec_target.specs.Windows.{Replayed};
    ghost use Rattle.lu_window.specs.Shown.{replayed_of};

    ghost Value = { List Replayed };

    ghost view = { λ requests. map replayed_of requests.replays };
}

impl Requests {
    /// No replay. It takes no memory yet.
    pub(crate) fn new(alloc: Global) -> Requests
        ensures { result ≡ [] }
    {
        Requests {
            alloc,
            replays: Replays::new(alloc),
        }
    }

    /// How many requests this life has replayed.
    pub(crate) fn count(&self, who: Who) -> usize
        ensures { result ≡ length (filter (λ r. same_life r.who who) self.now) }
    {
        self.replays.count(who)
    }

    /// Takes a replay of this life, where the life hasn't replayed that number already. After want of
    /// memory nothing has changed.
    pub(crate) fn put(&mut self, who: Who, replay: Replay) -> Result<(), Memory>
        ensures put { OnOk result (self.new ≡ (if list_any (is_replay (replayed who replay)) self.old
            then self.old
            else with_replay (cut_seen (replayed who replay)) self.old)) }
        ensures kept { OnErr result (self.new ≡ self.old) }
    {
        self.replays.put(who, cut(replay))?;
        Ok(())
    }

    /// All of them.
    pub(crate) fn by_key(&self) -> &BTreeMap<Key, ReplayBody>
        ensures { map replayed_of result.now.entries ≡ self.now }
    {
        self.replays.by_key()
    }

    /// The numbers of those that are lost, rising.
    pub(crate) fn lost(&self, committed: u64, kept: &BTreeSet<u64>) -> Result<Numbers, Memory>
        ensures { IfOk result (λ lost. lost ≡ lost_of committed kept.now.keys self.now) }
    {
        let lost = lost(self.alloc, self.replays.by_key(), committed, kept)?;
        Ok(Numbers::from(lost))
    }

    /// Whether one of this life is lost.
    pub(crate) fn has_lost(&self, committed: u64, kept: &BTreeSet<u64>, who: Who) -> bool
        ensures { result ≡ has_lost committed kept.now.keys self.now who }
    {
        has_lost(self.replays.by_key(), committed, kept, who)
    }

    /// Takes out all, and gives those whose numbers are kept, in rising number. After want of memory nothing
    /// has changed.
    pub(crate) fn take_kept(&mut self, kept: &BTreeSet<u64>) -> Result<KeptReplays, Memory>
        ensures kept { IfOk result (λ replays. map kept_replay replays ≡ kept_of kept.now.keys self.old) }
        ensures all { OnOk result (self.new ≡ []) }
        ensures same { OnErr result (self.new ≡ self.old) }
    {
        let mut replays = Vec::with_capacity(self.alloc, self.replays.by_key().len())?;
        while let Some((who, replay)) = self.replays.take_least() {
            if has(kept, replay.number.0) {
                match replays.push(KeptReplay { who, replay }) {
                    Ok(()) => {}
                    Err(_) => unreachable!(),
                }
            }
        }
        Ok(KeptReplays::from(replays))
    }
}
