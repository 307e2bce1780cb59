//! Which life gave a number.

ghost use Rattle.std.specs.Prelude.{◌≡◌, ◌↔◌, if◌then◌else◌, ℕ, IsTrue, IfOk, OnOk, OnErr, None, Some};
ghost use Rattle.lu_base.specs.declared.ids.Who.{Who as SpecWho};
ghost use Rattle.lu_target_server.specs.Givers.{giver_of, IsGivenBy, IsForgotten};

use lu_base::{Memory, Who};
use std::alloc::Global;
use std::collections::HashMap;
use std::marker::Model;

/// Which life gave each number: transactions of replays, or cookies of locks.
#[derive(Debug, Drop)]
pub(crate) struct Givers {
    by_number: HashMap<u64, Who>,
}

impl Model for Givers {
    ghost use Rattle.lu_target_server.specs.Givers.{Entries};

    ghost Value = { Entries };

    ghost view = { λ givers. givers.by_number.entries };
}

impl Givers {
    /// Nobody gave one. It takes no memory yet.
    pub(crate) fn new(alloc: Global) -> Givers
        ensures none { (n : ℕ) → giver_of n result ≡ None }
    {
        Givers {
            by_number: HashMap::new(alloc),
        }
    }

    /// Whether no other life gave this number.
    pub(crate) fn is_free(&self, number: u64, who: Who) -> bool
        ensures free { IsTrue result ↔ ((other : SpecWho) → giver_of number self.now ≡ Some other → other ≡ who) }
    {
        match self.by_number.get(&number) {
            Some(giver) => *giver == who,
            None => true,
        }
    }

    /// This life gives this number. True where nobody had given it.
    pub(crate) fn add(&mut self, number: u64, who: Who) -> Result<bool, Memory>
        ensures given { OnOk result (IsGivenBy number who self.old self.new) }
        ensures first { IfOk result (λ first. IsTrue first ↔ giver_of number self.old ≡ None) }
        ensures kept { OnErr result (self.new ≡ self.old) }
    {
        let before = self.by_number.insert(number, who)?;
        Ok(before.is_none())
    }

    /// Nobody gave this number.
    pub(crate) fn forget(&mut self, number: u64)
        ensures forgotten { IsForgotten number self.old self.new }
    {
        self.by_number.remove(&number);
    }
}
