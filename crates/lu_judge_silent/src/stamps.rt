//! When something last happened.

ghost use Rattle.std.specs.Prelude.{◌≡◌, if◌then◌else◌, OnOk};
ghost use Rattle.lu_judge_silent.specs.Tables.{stamp};

use lu_base::Memory;
use std::alloc::Global;
use std::collections::HashMap;
use std::hash::Hash;

/// By key the line at which something last happened: its number, from 1; 0 where it never did.
#[derive(Debug, Drop)]
pub struct Stamps<K: Eq + Hash> {
    by_key: HashMap<K, u64>,
}

impl<K: Eq + Hash + Drop> Stamps<K> {
    /// Of nothing. It takes no memory yet.
    pub fn new(alloc: Global) -> Stamps<K>
        ensures never { (k : K) → stamp K.eq result k ≡ 0 }
    {
        Stamps {
            by_key: HashMap::new(alloc),
        }
    }

    /// The line at which it last happened to the key.
    pub fn get(&self, key: &K) -> u64
        ensures last { result ≡ stamp K.eq self.now key.now }
    {
        self.by_key.get(key).copied().unwrap_or(0)
    }

    /// It happens to the key, at this line. After want of memory nothing is known of the table.
    pub fn set(&mut self, key: K, time: u64) -> Result<(), Memory>
        ensures set { OnOk result ((k : K) → stamp K.eq self.new k
            ≡ (if K.eq key k then time else stamp K.eq self.old k)) }
    {
        self.by_key.insert(key, time)?;
        Ok(())
    }
}
