//! Different numbers by life, counted, and the least of the numbers that stand at a key of a life.

ghost use Rattle.std.specs.Prelude.{◌≡◌, ℕ, ◌+◌, ◌==◌, ◌&&◌, ◌||◌, not, false, nat_le, if◌then◌else◌, IfOk, OnOk};
ghost use Rattle.lu_base.specs.declared.ids.Who.{Who};
ghost use Rattle.lu_spec_machine.specs.Tree.{same_life};
ghost use Rattle.lu_judge_windows.specs.Bounds.{IsBounded};

use lu_base::{Memory, Who};
use std::alloc::Global;
use std::collections::{HashMap, HashSet};

/// Different numbers of lives, and how many there are of each life.
#[derive(Debug, Drop)]
pub(crate) struct Counted {
    members: HashSet<((u16, u32), u64)>,
    counts: HashMap<(u16, u32), usize>,
    ghost bounded: { IsBounded members counts },
}

impl Counted {
    ghost use Rattle.lu_judge_windows.specs.Counted.{has_member, count_of};

    /// None. It takes no memory yet.
    pub(crate) fn new(alloc: Global) -> Counted
        ensures members { (w : Who) (n : ℕ) → has_member result w n ≡ false }
        ensures counts { (w : Who) → count_of result w ≡ 0 }
    {
        Counted {
            members: HashSet::new(alloc),
            counts: HashMap::new(alloc),
        }
    }

    /// How many there are of the life.
    pub(crate) fn count(&self, who: Who) -> usize
        ensures count { result ≡ count_of self.now who }
    {
        match self.counts.get(&(who.client, who.life)) {
            Some(count) => *count,
            None => 0,
        }
    }

    /// How many there would be of the life with one more.
    pub(crate) fn next_count(&self, who: Who) -> usize
        ensures next { result ≡ count_of self.now who + 1 }
    {
        // no life has more than there are in all
        let count = self.count(who).min(self.members.len());
        count + 1
    }

    /// Whether the number of the life is there.
    pub(crate) fn has(&self, who: Who, number: u64) -> bool
        ensures there { result ≡ has_member self.now who number }
    {
        self.members.contains(&((who.client, who.life), number))
    }

    /// Takes in a number of the life. False where it is there already; then nothing changes.
    pub(crate) fn add(&mut self, who: Who, number: u64) -> Result<bool, Memory>
        ensures new { IfOk result (λ new. new ≡ not (has_member self.old who number)) }
        ensures members { IfOk result (λ new. (w : Who) (n : ℕ) → has_member self.new w n
            ≡ ((same_life who w && number == n) || has_member self.old w n)) }
        ensures same { IfOk result (λ new. new ≡ false → self.new ≡ self.old) }
        ensures counts { IfOk result (λ new. (w : Who) → count_of self.new w
            ≡ (if new && same_life who w then count_of self.old w + 1 else count_of self.old w)) }
    {
        let life = (who.client, who.life);
        if self.members.contains(&(life, number)) {
            return Ok(false);
        }
        // no life has more than there are in all
        let count = self.count(who).min(self.members.len());
        self.members.insert((life, number))?;
        self.counts.insert(life, count + 1)?;
        Ok(true)
    }
}

/// Of the numbers that stand at each key of each life the least.
#[derive(Debug, Drop)]
pub(crate) struct Least {
    numbers: HashMap<((u16, u32), u64), u64>,
}

impl Least {
    ghost use Rattle.lu_judge_windows.specs.Counted.{is_within};

    /// No number stands anywhere. It takes no memory yet.
    pub(crate) fn new(alloc: Global) -> Least
        ensures none { (w : Who) (k bound : ℕ) → is_within result w k bound ≡ false }
    {
        Least {
            numbers: HashMap::new(alloc),
        }
    }

    /// Whether a number up to this bound stands at the key of the life.
    pub(crate) fn is_within(&self, who: Who, key: u64, bound: u64) -> bool
        ensures within { result ≡ is_within self.now who key bound }
    {
        match self.numbers.get(&((who.client, who.life), key)) {
            Some(least) => *least <= bound,
            None => false,
        }
    }

    /// Puts a number at the key of the life.
    pub(crate) fn put(&mut self, who: Who, key: u64, number: u64) -> Result<(), Memory>
        ensures put { OnOk result ((w : Who) (k bound : ℕ) → is_within self.new w k bound
            ≡ (((same_life who w && key == k) && nat_le number bound) || is_within self.old w k bound)) }
    {
        if self.is_within(who, key, number) {
            return Ok(());
        }
        self.numbers.insert(((who.client, who.life), key), number)?;
        Ok(())
    }
}
