//! Lists of locks that are held, by a key.

ghost use Rattle.std.specs.Prelude.{◌≡◌, not, if◌then◌else◌, [], ◌∷◌, ◌++◌, map, filter, unwrap_or, OnOk};
ghost use Rattle.std.specs.Option.{option_map};
ghost use Rattle.lu_spec_laws.specs.Words.Held.{is_held_by};
ghost use Rattle.lu_judge_windows.specs.Lists.{held_of, listed};

use lu_base::{Cookie, Lock, Memory, Who};
use std::alloc::Global;
use std::collections::HashMap;
use std::hash::Hash;

/// A lock of the target that the life holds.
#[derive(Clone, Copy, Debug)]
pub(crate) struct Holding<'a> {
    pub(crate) who: Who,
    pub(crate) target: u16,
    pub(crate) lock: &'a Lock,
}

impl<'a> Holding<'a> {
    /// Whether it is the life's lock of that cookie at the target.
    pub(crate) fn is(&self, who: Who, target: u16, cookie: Cookie) -> bool
        ensures { result ≡ is_held_by who target cookie.0 (held_of self.now) }
    {
        self.target == target && self.lock.cookie == cookie && self.who == who
    }
}

/// Locks that are held, in lists by a key. No clause says where in its list a lock stands.
#[derive(Debug, Drop)]
pub(crate) struct Lists<'a, K: Eq + Hash> {
    alloc: Global,
    lists: HashMap<K, Vec<Holding<'a>>>,
}

impl<'a, K: Eq + Hash + Drop> Lists<'a, K> {
    /// All lists are empty. It takes no memory yet.
    pub(crate) fn new(alloc: Global) -> Lists<'a, K>
        ensures empty { (k : K) → listed K.eq result k ≡ [] }
    {
        Lists {
            alloc,
            lists: HashMap::new(alloc),
        }
    }

    /// The list of the key; without one it is empty.
    pub(crate) fn get(&self, key: &K) -> Option<&Vec<Holding<'a>>>
        ensures list { unwrap_or (option_map (λ list. map held_of list.now.items) result) []
            ≡ listed K.eq self.now key.now }
    {
        self.lists.get(key)
    }

    /// Adds a lock to the list of the key. After want of memory nothing is known of the lists.
    pub(crate) fn add(&mut self, key: K, holding: Holding<'a>) -> Result<(), Memory>
        ensures added { OnOk result ((k : K) → listed K.eq self.new k
            ≡ (if K.eq key k then listed K.eq self.old key ++ held_of holding.entry ∷ [] else listed K.eq self.old k)) }
    {
        let mut list = self.lists.remove(&key).unwrap_or(Vec::new(self.alloc));
        list.push(holding)?;
        self.lists.insert(key, list)?;
        Ok(())
    }

    /// Takes the life's lock of that cookie at the target out of the list of the key.
    pub(crate) fn remove(&mut self, key: &K, who: Who, target: u16, cookie: Cookie)
        ensures removed { (k : K) → listed K.eq self.new k
            ≡ (if K.eq key.now k then filter (λ h. not (is_held_by who target cookie.0 h))
            (listed K.eq self.old key.now)
            else listed K.eq self.old k) }
    {
        if let Some(list) = self.lists.get_mut(key) {
            list.retain(|holding| !holding.is(who, target, cookie));
        }
    }
}
