//! What lives hand in under numbers.

ghost use Rattle.std.specs.Prelude.{◌≡◌, ◌<◌, ◌-◌, ◌^◌, not, if◌then◌else◌, [], length, filter, IfOk, OnErr};
ghost use Rattle.lu_base.specs.declared.ids.Who.{Who};
ghost use Rattle.lu_replay.specs.Handed.{has, with_item, same_life, count_at, first_of, rest_of};

use lu_base::{Memory, Who};
use std::alloc::Global;
use std::collections::BTreeMap;
use std::marker::Model;

/// A number of a life, as of a transaction or a lock. Keys are in order by number, and then by life.
#[derive(Clone, Copy, Debug, PartialEq, Eq, PartialOrd, Ord)]
pub struct Key {
    pub number: u64,
    pub who: Who,
}

/// How many there are of this life.
fn count_in(counts: &BTreeMap<Who, usize>, who: Who) -> usize
    ensures { result ≡ count_at counts.now.entries who }
{
    match counts.get(&who) {
        Some(count) => *count,
        None => 0,
    }
}

/// Counts one less of this life.
fn lower(counts: &mut BTreeMap<Who, usize>, who: Who)
    ensures { (life : Who) → count_at counts.new.entries life
        ≡ (if same_life life who then count_at counts.old.entries life - 1 else count_at counts.old.entries life) }
{
    if let Some(count) = counts.get_mut(&who) {
        *count = count.saturating_sub(1);
    }
}

/// What lives have handed in: one thing for each number of each life, in the order of the keys.
#[derive(Debug, Drop)]
pub struct Handed<T> {
    items: BTreeMap<Key, T>,
    /// How many there are of each life; a life without any may stand here too.
    counts: BTreeMap<Who, usize>,
}

impl<T> Model for Handed<T> {
    ghost use Rattle.std.specs.Prelude.{List};
    ghost use Rattle.lu_replay.specs.declared.handed.Key.{Key};
    ghost use Rattle.lu_replay.specs.Handed.{IsCounted};

    ghost Value = { List (Key × T) };

    ghost view = { λ handed. handed.items.entries };

    ghost invariant = { λ handed. IsCounted handed.items.entries handed.counts.entries };
}

impl<T> Handed<T> {
    /// Nothing was handed in. It takes no memory yet.
    pub fn new(alloc: Global) -> Handed<T>
        ensures empty { result ≡ [] }
    {
        Handed {
            items: BTreeMap::new(alloc),
            counts: BTreeMap::new(alloc),
        }
    }

    /// All that was handed in, by key.
    pub fn by_key(&self) -> &BTreeMap<Key, T>
        ensures same { result.now.entries ≡ self.now }
    {
        &self.items
    }

    /// How many things this life has handed in. It takes the time of one look-up.
    pub fn count(&self, who: Who) -> usize
        ensures count { result ≡ length (filter (λ item. same_life item.0.who who) self.now) }
        ensures small { result < 2 ^ 63 }
    {
        let count = count_in(&self.counts, who);
        count.min(self.items.len())
    }

    /// Takes this in. False where that life has handed in something under that number already; then, and
    /// after want of memory, nothing has changed.
    pub fn insert(&mut self, key: Key, item: T) -> Result<bool, Memory>
    where
        T: Drop,
        ensures new { IfOk result (λ new. new ≡ not (has key self.old)) }
        ensures added { IfOk result (λ new. self.new ≡ (if new then with_item key item self.old else self.old)) }
        ensures kept { OnErr result (self.new ≡ self.old) }
    {
        if self.items.contains_key(&key) {
            return Ok(false);
        }
        let count = self.count(key.who);
        self.counts.insert(key.who, count + 1)?;
        if self.items.insert(key, item).is_err() {
            lower(&mut self.counts, key.who);
            return Err(Memory);
        }
        Ok(true)
    }

    /// Takes out the first thing; none where there is nothing. It takes no memory.
    pub fn take_first(&mut self) -> Option<(Key, T)>
        ensures first { result ≡ first_of self.old }
        ensures rest { self.new ≡ rest_of self.old }
    {
        let (key, item) = self.items.pop_first()?;
        lower(&mut self.counts, key.who);
        Some((key, item))
    }
}
