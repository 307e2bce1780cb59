//! Numbers that are filed under a key and, below that, under the cookie of a lock.

ghost use Rattle.std.specs.Prelude.{◌≡◌, Some, None, IfOk, OnOk, OnErr, IsOk, IsSome, IsTrue};
ghost use Rattle.std.specs.Map.{lookup};
ghost use Rattle.std.specs.Option.{option_copied};
ghost use Rattle.lu_base.specs.declared.ids.Cookie.{Cookie as CookieOf};
ghost use Rattle.lu_cache.specs.Filings.{filed, Refiled, SameFiled};

use lu_base::{Cookie, Memory};
use std::alloc::Global;
use std::collections::{BTreeMap, HashMap};
use std::hash::Hash;

/// Numbers under keys and cookies.
#[derive(Debug, Drop)]
pub(crate) struct Filing<K: Eq + Hash> {
    alloc: Global,
    rows: HashMap<K, BTreeMap<Cookie, u64>>,
}

impl<K: Eq + Hash + Drop> Filing<K> {
    /// Nothing is filed. It takes no memory yet.
    pub(crate) fn new(alloc: Global) -> Filing<K>
        ensures empty { (k : K) (c : CookieOf) → filed K.eq k c result ≡ None }
    {
        Filing {
            alloc,
            rows: HashMap::new(alloc),
        }
    }

    /// Files a number, in place of one that was there: it answers that one. After want of memory the same is filed as
    /// before.
    pub(crate) fn file(
        &mut self,
        key: K,
        cookie: Cookie,
        number: u64,
    ) -> Result<Option<u64>, Memory>
        ensures before { IfOk result (λ old. old ≡ filed K.eq key cookie self.old) }
        ensures filed { OnOk result (Refiled K.eq key cookie (Some number) self.old self.new) }
        ensures kept { OnErr result (SameFiled K.eq self.old self.new) }
        ensures succeeds { IsSome (filed K.eq key cookie self.old) → IsOk result }
    {
        match self.rows.get_mut(&key) {
            Some(row) => Ok(row.insert(cookie, number)?),
            None => {
                let mut row = BTreeMap::new(self.alloc);
                row.insert(cookie, number)?;
                self.rows.insert(key, row)?;
                Ok(None)
            }
        }
    }

    /// Takes away what is filed there, and answers it.
    pub(crate) fn take_away(&mut self, key: &K, cookie: Cookie) -> Option<u64>
        ensures before { result ≡ filed K.eq key.now cookie self.old }
        ensures gone { Refiled K.eq key.now cookie None self.old self.new }
    {
        let number = self.remove(key, cookie);
        self.drop_empty(key);
        number
    }

    /// The same, where a key under which nothing is left stays.
    fn remove(&mut self, key: &K, cookie: Cookie) -> Option<u64>
        ensures before { result ≡ filed K.eq key.now cookie self.old }
        ensures gone { Refiled K.eq key.now cookie None self.old self.new }
    {
        let row = self.rows.get_mut(key)?;
        row.remove(&cookie)
    }

    /// Takes away a key under which nothing is filed.
    fn drop_empty(&mut self, key: &K)
        ensures same { SameFiled K.eq self.old self.new }
    {
        if self.is_bare(key) {
            self.rows.remove(key);
        }
    }

    /// Whether nothing is filed under this key.
    fn is_bare(&self, key: &K) -> bool
        ensures bare { IsTrue result → (c : CookieOf) → filed K.eq key.now c self.now ≡ None }
    {
        match self.rows.get(key) {
            Some(row) => row.is_empty(),
            None => true,
        }
    }

    /// What is filed under this key and cookie.
    pub(crate) fn number(&self, key: &K, cookie: Cookie) -> Option<u64>
        ensures number { result ≡ filed K.eq key.now cookie self.now }
    {
        self.rows.get(key)?.get(&cookie).copied()
    }

    /// What is filed under this key, in rising cookie.
    pub(crate) fn under(&self, key: &K) -> Option<&BTreeMap<Cookie, u64>>
        ensures row { option_copied result ≡ lookup (K.eq key.now) self.now.rows.entries }
    {
        self.rows.get(key)
    }
}
