//! When objects were last seen with a size.

ghost use Rattle.std.specs.Prelude.{◌≡◌, ℕ, ◌==◌, ◌&&◌, if◌then◌else◌, Option, Some, None, OnOk};
ghost use Rattle.lu_base.specs.declared.ids.Fid.{Fid};
ghost use Rattle.lu_judge_glimpse.specs.Sightings.{last_in, since_in};

use lu_base::{Fid, Memory};
use std::alloc::Global;
use std::collections::HashMap;

/// Of objects, by file and stripe, and sizes: the place of the last line, from 0, at which the object was seen with the
/// size.
#[derive(Debug, Drop)]
pub struct Sightings {
    last: HashMap<((u64, usize), u64), usize>,
}

impl Sightings {
    /// None was seen. It takes no memory yet.
    pub fn new(alloc: Global) -> Sightings
        ensures none { (fid : Fid) (stripe size : ℕ) → last_in result fid stripe size ≡ None }
    {
        Sightings {
            last: HashMap::new(alloc),
        }
    }

    /// The object of that stripe was seen with this size at the line of this place. After want of memory nothing is known
    /// of the table.
    pub fn note(&mut self, fid: Fid, stripe: usize, size: u64, place: usize) -> Result<(), Memory>
        ensures last { OnOk result ((f : Fid) (s n : ℕ) → last_in self.new f s n
            ≡ (if (fid.0 == f.0 && stripe == s) && size == n then Some place else last_in self.old f s n)) }
    {
        self.last.insert(((fid.0, stripe), size), place)?;
        Ok(())
    }

    /// Whether the object of that stripe was seen with this size at the line of this place or a later one; none was of no
    /// file.
    pub fn since(&self, file: Option<Fid>, stripe: usize, size: u64, place: usize) -> bool
        ensures since { result ≡ since_in self.now file stripe size place }
    {
        let Some(fid) = file else {
            return false;
        };
        match self.last.get(&((fid.0, stripe), size)) {
            Some(last) => place <= *last,
            None => false,
        }
    }
}
