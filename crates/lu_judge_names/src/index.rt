//! An index of transactions by what they write. It leads from a part to the few transactions that
//! may have written something that meets it; each of these is then looked at.
//!
//! Parts are kept apart by buckets, which are hashes: two parts that meet have a bucket in common,
//! and two that don't may have one by chance.

ghost use Rattle.std.specs.Prelude.{◌≡◌, ℕ, ◌==◌, true, if◌then◌else◌, List, [], ◌∷◌, ◌++◌, IfOk, OnOk, OnErr};
ghost use Rattle.std.specs.List.{flat_map};
ghost use Rattle.std.specs.List.Sorted.{IsStrictlyIncreasing};
ghost use Rattle.lu_judge_names.specs.Buckets.{kind_number, bucket, filing, lookups};
ghost use Rattle.lu_part.specs.Places.{has};
ghost use Rattle.lu_judge_names.specs.Indexes.{places_of, Grows, files, gathered};

use lu_base::{Fid, Memory, Sequence};
use lu_part::{Part, Parts};
use std::alloc::Global;
use std::collections::HashMap;
use std::hash::{FoldHasher, Hasher};

/// Which parts a bucket is for.
#[derive(Clone, Copy, Debug)]
enum Kind {
    /// A name in a directory.
    Name,
    /// All that is written in a directory: its names and its list.
    Inside,
    /// The list of a directory.
    List,
    Attr,
    Layout,
    Parent,
    /// The bytes of a file.
    Bytes,
}

impl Kind {
    /// A number of its own for each kind.
    fn number(self) -> u8
        ensures { result ≡ kind_number self }
    {
        match self {
            Kind::Name => 0,
            Kind::Inside => 1,
            Kind::List => 2,
            Kind::Attr => 3,
            Kind::Layout => 4,
            Kind::Parent => 5,
            Kind::Bytes => 6,
        }
    }
}

/// The bucket of the parts of this kind, inode and name; where a part has no name, it is empty.
fn bucket(kind: Kind, fid: Fid, name: &[u8]) -> u64
    ensures { result ≡ bucket kind fid name.now }
{
    let mut hasher = FoldHasher::default();
    hasher.write_u8(kind.number());
    hasher.write_u64(fid.0);
    hasher.write(name);
    hasher.finish()
}

/// Where the transactions stand that wrote something in a bucket.
#[derive(Debug, Drop)]
pub(crate) struct Index {
    alloc: Global,
    buckets: HashMap<u64, Sequence<usize>>,
}

impl Index {
    /// No transaction. It takes no memory yet.
    pub(crate) fn new(alloc: Global) -> Index
        ensures { (b : ℕ) → places_of result b ≡ [] }
    {
        Index {
            alloc,
            buckets: HashMap::new(alloc),
        }
    }

    /// Files a place in a bucket, after those that are there.
    fn file(&mut self, bucket: u64, place: usize) -> Result<(), Memory>
        ensures filed { OnOk result ((b : ℕ)
            → places_of self.new b ≡ (if bucket == b then places_of self.old b
            ++ place ∷ [] else places_of self.old b)) }
        ensures kept { OnErr result ((b : ℕ) → places_of self.new b ≡ places_of self.old b) }
    {
        let places = self
            .buckets
            .entry(bucket)?
            .or_insert(Sequence::new(self.alloc));
        places.push(place)?;
        Ok(())
    }

    /// Files a place in the buckets of a written part.
    fn file_part(&mut self, part: &Part, place: usize) -> Result<(), Memory>
        ensures filed { OnOk result ((b : ℕ) → has (filing part.now) b ≡ true
            → has (places_of self.new b) place ≡ true) }
        ensures grows { Grows self.old self.new }
    {
        match part {
            Part::Name(directory, name) => {
                self.file(bucket(Kind::Name, *directory, name.as_slice()), place)?;
                self.file(bucket(Kind::Inside, *directory, &[]), place)
            }
            Part::List(directory) => {
                self.file(bucket(Kind::List, *directory, &[]), place)?;
                self.file(bucket(Kind::Inside, *directory, &[]), place)
            }
            Part::Attr(fid) => self.file(bucket(Kind::Attr, *fid, &[]), place),
            Part::Layout(fid) => self.file(bucket(Kind::Layout, *fid, &[]), place),
            Part::Parent(fid) => self.file(bucket(Kind::Parent, *fid, &[]), place),
            Part::Bytes(fid, _, _) => self.file(bucket(Kind::Bytes, *fid, &[]), place),
        }
    }

    /// Files a transaction's place under all that it writes. After want of memory it may be filed under
    /// some of it.
    pub(crate) fn add(&mut self, writes: &Parts, place: usize) -> Result<(), Memory>
        ensures filed { OnOk result ((b : ℕ) → files writes.now b ≡ true → has (places_of self.new b) place ≡ true) }
        ensures grows { Grows self.old self.new }
    {
        for part in writes.as_slice() {
            self.file_part(part, place)?;
        }
        Ok(())
    }

    /// Adds the places that are filed in a bucket.
    fn gather(&self, bucket: u64, places: &mut Vec<usize>) -> Result<(), Memory>
        ensures gathered { OnOk result (places.new.items ≡ places.old.items ++ places_of self.now bucket) }
    {
        if let Some(found) = self.buckets.get(&bucket) {
            places.extend_from_slice(found.as_slice())?;
        }
        Ok(())
    }

    /// Adds the places that are filed in the buckets in which a touched part is looked up.
    fn gather_part(&self, part: &Part, places: &mut Vec<usize>) -> Result<(), Memory>
        ensures gathered { OnOk result (places.new.items ≡ places.old.items
            ++ flat_map (places_of self.now) (lookups part.now)) }
    {
        match part {
            Part::Name(directory, name) => {
                self.gather(bucket(Kind::Name, *directory, name.as_slice()), places)?;
                self.gather(bucket(Kind::List, *directory, &[]), places)
            }
            Part::List(directory) => self.gather(bucket(Kind::Inside, *directory, &[]), places),
            Part::Attr(fid) => self.gather(bucket(Kind::Attr, *fid, &[]), places),
            Part::Layout(fid) => self.gather(bucket(Kind::Layout, *fid, &[]), places),
            Part::Parent(fid) => self.gather(bucket(Kind::Parent, *fid, &[]), places),
            Part::Bytes(fid, _, _) => self.gather(bucket(Kind::Bytes, *fid, &[]), places),
        }
    }

    /// The places of all transactions that may have written something that meets a touched part, each
    /// once, rising.
    pub(crate) fn candidates(&self, touched: &Parts) -> Result<Vec<usize>, Memory>
        ensures rising { IfOk result (λ places. IsStrictlyIncreasing places.items) }
        ensures all { IfOk result (λ places. (place : ℕ) → has (gathered self.now touched.now) place ≡ true
            → has places.items place ≡ true) }
    {
        let mut places = Vec::new(self.alloc);
        for part in touched.as_slice() {
            self.gather_part(part, &mut places)?;
        }
        places.sort_unstable();
        places.dedup();
        Ok(places)
    }
}
