//! An index of transactions by what they write. It leads from a part to the transactions that may have written
//! something that meets it; each of these is then looked at.

ghost use Rattle.std.specs.Prelude.{◌≡◌, ℕ, true, List, [], ◌∷◌, ◌++◌, IfOk, OnOk};
ghost use Rattle.std.specs.List.{flat_map};
ghost use Rattle.std.specs.List.Sorted.{IsStrictlyIncreasing};
ghost use Rattle.std.specs.Option.{option_to_list};
ghost use Rattle.lu_txn.specs.declared.index.Bucket.{Bucket};
ghost use Rattle.lu_txn.specs.declared.index.Bucket.TheVariants as bucket;
ghost use Rattle.lu_txn.specs.Buckets.{same_bucket, holds, filing, lookups};
ghost use Rattle.lu_part.specs.Places.{has};
ghost use Rattle.lu_txn.specs.Indexes.{places_of, Grows, Keeps, files, gathered};

use super::places::Places;
use lu_base::{Fid, Memory, Name};
use lu_part::{Part, Parts};
use std::alloc::Global;
use std::collections::HashMap;

/// What parts are filed under. Where a touched part and a written one meet, the first is looked up under something
/// that the second is filed under.
#[derive(Debug, PartialEq, Eq, Hash, Drop)]
enum Bucket {
    /// A name in a directory.
    Name(Fid, Name),
    /// All that is written in a directory: its names and its list.
    Inside(Fid),
    /// The list of a directory.
    List(Fid),
    Attr(Fid),
    Layout(Fid),
    Parent(Fid),
    /// The bytes of a file's stripe.
    Bytes(Fid, u16),
}

/// The bucket of a name in a directory.
fn of_name(alloc: Global, directory: Fid, name: &Name) -> Result<Bucket, Memory>
    ensures { IfOk result (λ b. b ≡ bucket.Name directory name.now) }
{
    Ok(Bucket::Name(directory, Name::from_slice(alloc, name.as_slice())?))
}

/// Where a written part is filed: under its own bucket, and in a directory under all that is written there.
fn filing(alloc: Global, part: &Part) -> Result<(Bucket, Option<Bucket>), Memory>
    ensures { IfOk result (λ pair. pair.0 ∷ option_to_list pair.1 ≡ filing part.now) }
{
    match part {
        Part::Name(directory, name) => Ok((
            of_name(alloc, *directory, name)?,
            Some(Bucket::Inside(*directory)),
        )),
        Part::List(directory) => {
            Ok((Bucket::List(*directory), Some(Bucket::Inside(*directory))))
        }
        Part::Attr(fid) => Ok((Bucket::Attr(*fid), None)),
        Part::Layout(fid) => Ok((Bucket::Layout(*fid), None)),
        Part::Parent(fid) => Ok((Bucket::Parent(*fid), None)),
        Part::Bytes(fid, stripe, _) => Ok((Bucket::Bytes(*fid, *stripe), None)),
    }
}

/// Where a written part is filed. It takes no memory.
fn into_filing(part: Part) -> (Bucket, Option<Bucket>)
    ensures { result.0 ∷ option_to_list result.1 ≡ filing part }
{
    match part {
        Part::Name(directory, name) => (
            Bucket::Name(directory, name),
            Some(Bucket::Inside(directory)),
        ),
        Part::List(directory) => (Bucket::List(directory), Some(Bucket::Inside(directory))),
        Part::Attr(fid) => (Bucket::Attr(fid), None),
        Part::Layout(fid) => (Bucket::Layout(fid), None),
        Part::Parent(fid) => (Bucket::Parent(fid), None),
        Part::Bytes(fid, stripe, _) => (Bucket::Bytes(fid, stripe), None),
    }
}

/// Where a touched part is looked up: under its own bucket, and for a name under the list of its directory; for a list
/// under all that is written in its directory.
fn lookups(alloc: Global, part: &Part) -> Result<(Bucket, Option<Bucket>), Memory>
    ensures { IfOk result (λ pair. pair.0 ∷ option_to_list pair.1 ≡ lookups part.now) }
{
    match part {
        Part::Name(directory, name) => Ok((
            of_name(alloc, *directory, name)?,
            Some(Bucket::List(*directory)),
        )),
        Part::List(directory) => Ok((Bucket::Inside(*directory), None)),
        Part::Attr(fid) => Ok((Bucket::Attr(*fid), None)),
        Part::Layout(fid) => Ok((Bucket::Layout(*fid), None)),
        Part::Parent(fid) => Ok((Bucket::Parent(*fid), None)),
        Part::Bytes(fid, stripe, _) => Ok((Bucket::Bytes(*fid, *stripe), None)),
    }
}

/// Where the transactions stand that wrote something in a bucket.
#[derive(Debug, Drop)]
pub(crate) struct Index {
    alloc: Global,
    buckets: HashMap<Bucket, Places>,
}

impl Index {
    /// No transaction. It takes no memory yet.
    pub(crate) fn new(alloc: Global) -> Index
        ensures { (b : Bucket) → places_of result b ≡ [] }
    {
        Index {
            alloc,
            buckets: HashMap::new(alloc),
        }
    }

    /// Files a place in a bucket, after those that are there.
    fn file(&mut self, bucket: Bucket, place: usize) -> Result<(), Memory>
        ensures filed { OnOk result ((b : Bucket) →
            same_bucket bucket b ≡ true → has (places_of self.new b) place ≡ true) }
        ensures grows { Grows self.old self.new }
    {
        self.buckets
            .entry(bucket)?
            .or_insert(Places::new(self.alloc))
            .push(place)
    }

    /// Files a place in the buckets of a written part.
    fn file_part(&mut self, part: &Part, place: usize) -> Result<(), Memory>
        ensures filed { OnOk result ((b : Bucket) →
            holds (filing part.now) b ≡ true → has (places_of self.new b) place ≡ true) }
        ensures grows { Grows self.old self.new }
    {
        let (own, other) = filing(self.alloc, part)?;
        self.file(own, place)?;
        match other {
            Some(other) => self.file(other, place),
            None => Ok(()),
        }
    }

    /// Files a transaction's place under all that it writes. After want of memory it may be filed under
    /// some of it.
    pub(crate) fn add(&mut self, writes: &Parts, place: usize) -> Result<(), Memory>
        ensures filed { OnOk result ((b : Bucket) →
            files writes.now b ≡ true → has (places_of self.new b) place ≡ true) }
        ensures grows { Grows self.old self.new }
    {
        for part in writes.as_slice() {
            self.file_part(part, place)?;
        }
        Ok(())
    }

    /// Takes the places up to this one out of a bucket, and the bucket with the last one.
    fn unfile(&mut self, bucket: &Bucket, place: usize)
        ensures kept { Keeps place self.old self.new }
    {
        let Some(places) = self.buckets.get_mut(bucket) else {
            return;
        };
        places.drop_to(place);
        if places.is_empty() {
            let _ = self.buckets.remove(bucket);
        }
    }

    /// Takes the places up to this one out of the buckets of a written part.
    fn unfile_part(&mut self, part: Part, place: usize)
        ensures kept { Keeps place self.old self.new }
    {
        let (own, other) = into_filing(part);
        self.unfile(&own, place);
        if let Some(other) = other {
            self.unfile(&other, place);
        }
    }

    /// Takes the places up to this one out of the buckets of all that a transaction writes.
    pub(crate) fn remove(&mut self, writes: Parts, place: usize)
        ensures kept { Keeps place self.old self.new }
    {
        for part in writes.into_vec() {
            self.unfile_part(part, place);
        }
    }

    /// Adds the places that are filed in a bucket.
    fn gather(&self, bucket: &Bucket, places: &mut Vec<usize>) -> Result<(), Memory>
        ensures gathered { OnOk result (places.new.items ≡ places.old.items ++ places_of self.now bucket.now) }
    {
        if let Some(found) = self.buckets.get(bucket) {
            found.add_to(places)?;
        }
        Ok(())
    }

    /// Adds the places that are filed in the buckets in which a touched part is looked up.
    fn gather_part(&self, part: &Part, places: &mut Vec<usize>) -> Result<(), Memory>
        ensures gathered { OnOk result (places.new.items
            ≡ places.old.items ++ flat_map (places_of self.now) (lookups part.now)) }
    {
        let (own, other) = lookups(self.alloc, part)?;
        self.gather(&own, places)?;
        match other {
            Some(other) => self.gather(&other, places),
            None => Ok(()),
        }
    }

    /// The places of all transactions that may have written something that meets a touched part, each
    /// once, rising.
    pub(crate) fn candidates(&self, touched: &Parts) -> Result<Vec<usize>, Memory>
        ensures rising { IfOk result (λ places. IsStrictlyIncreasing places.items) }
        ensures all { IfOk result (λ places. (place : ℕ) →
            has (gathered self.now touched.now) place ≡ true → has places.items place ≡ true) }
    {
        let mut places = Vec::new(self.alloc);
        for part in touched.as_slice() {
            self.gather_part(part, &mut places)?;
        }
        places.sort_unstable();
        places.dedup();
        Ok(places)
    }
}
