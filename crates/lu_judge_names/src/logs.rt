//! What the transactions of a target wrote, in the order of the lines.

ghost use Rattle.std.specs.Prelude.{◌≡◌, List, [], ◌∷◌, ◌++◌, ◌⊎◌, filter, IfOk, OnOk, OnErr};
ghost use Rattle.std.specs.List.{filter_map};
ghost use Rattle.lu_judge_names.specs.Logs.{is_above, meet, meets_written, is_seen, seen_at, seen_by};

use super::index::Index;
use lu_base::{Memory, Numbers};
use lu_part::{Part, Parts, meets};
use std::alloc::{AllocError, Global};
use std::marker::Model;
use std::mem;

/// A transaction's number, and what it wrote.
#[derive(Debug, Drop)]
pub struct Written {
    pub number: u64,
    pub writes: Parts,
}

/// Whether one of those written meets this part.
fn meets_written(writes: &[Part], part: &Part) -> bool
    ensures { result ≡ meets_written writes.now part.now }
{
    writes.iter().any(|written| meets(written, part))
}

/// Whether a part of one list meets a part of the other.
fn meet(writes: &Parts, touched: &Parts) -> bool
    ensures { result ≡ meet writes.now touched.now }
{
    touched
        .as_slice()
        .iter()
        .any(|part| meets_written(writes.as_slice(), part))
}

/// Whether what touches these parts sees this above the number.
fn is_seen(written: &Written, above: u64, touched: &Parts) -> bool
    ensures { result ≡ is_seen above touched.now written.now }
{
    above < written.number && meet(&written.writes, touched)
}

/// The number at this place, where it is seen.
fn seen_at(all: &[Written], above: u64, touched: &Parts, place: usize) -> Option<u64>
    ensures { result ≡ seen_at (is_seen above touched.now) all.now place }
{
    let written = all.get(place)?;
    if is_seen(written, above, touched) {
        Some(written.number)
    } else {
        None
    }
}

/// The numbers at these places that are seen.
fn seen_among(
    alloc: Global,
    all: &[Written],
    above: u64,
    touched: &Parts,
    places: &[usize],
) -> Result<Vec<u64>, AllocError>
    ensures { IfOk result (λ numbers. numbers.items
        ≡ filter_map (seen_at (is_seen above touched.now) all.now) places.now) }
{
    places
        .iter()
        .filter_map(|place| seen_at(all, above, touched, *place))
        .collect(alloc)
}

/// What was written so far.
#[derive(Debug, Drop)]
pub struct Log {
    alloc: Global,
    items: Vec<Written>,
    index: Index,
}

impl Model for Log {
    ghost use Rattle.std.specs.Prelude.{List};
    ghost use Rattle.lu_judge_names.specs.declared.logs.Written.{Written};
    ghost use Rattle.lu_judge_names.specs.Indexes.{IsIndexed};

    ghost Value = { List Written };

    ghost view = { λ log. log.items.items };

    ghost invariant = { λ log. IsIndexed log.index log.items.items };
}

impl Log {
    /// Nothing was written.
    pub fn new(alloc: Global) -> Log
        ensures { result ≡ [] }
    {
        Log {
            alloc,
            items: Vec::new(alloc),
            index: Index::new(alloc),
        }
    }

    /// Adds a transaction. After want of memory what was there is there.
    pub fn add(&mut self, written: Written) -> Result<(), Memory>
        ensures added { OnOk result (self.new ≡ self.old ++ written ∷ []) }
        ensures kept { OnErr result (self.new ≡ self.old) }
    {
        self.index.add(&written.writes, self.items.len())?;
        self.items.push(written)?;
        Ok(())
    }

    /// Lets go of all that isn't above this number, where that is at least half of it: so the work of it is no more than
    /// that of adding what goes.
    pub fn trim(&mut self, above: u64) -> Result<(), Memory>
        ensures trimmed { OnOk result ((self.new ≡ self.old) ⊎ (self.new ≡ filter (is_above above) self.old)) }
    {
        let dead = self.items.partition_point(|w| w.number <= above);
        if dead < self.items.len() / 2 {
            return Ok(());
        }
        self.rebuild(above)
    }

    /// Keeps what is above this number.
    fn rebuild(&mut self, above: u64) -> Result<(), Memory>
        ensures kept { OnOk result (self.new ≡ filter (is_above above) self.old) }
    {
        let items = mem::replace(&mut self.items, Vec::new(self.alloc));
        self.index = Index::new(self.alloc);
        for item in items {
            if above < item.number {
                self.add(item)?;
            }
        }
        Ok(())
    }

    /// The numbers above this one that are seen by what touches these parts, in the order of the lines.
    pub fn seen(&self, above: u64, touched: &Parts) -> Result<Numbers, Memory>
        ensures seen { IfOk result (λ numbers. numbers ≡ seen_by above touched.now self.now) }
    {
        let places = self.index.candidates(touched)?;
        let numbers = seen_among(
            self.alloc,
            self.items.as_slice(),
            above,
            touched,
            places.as_slice(),
        )?;
        Ok(Numbers::from(numbers))
    }
}
