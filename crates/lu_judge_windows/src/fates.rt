//! What a close loses, as far as it was looked through.

ghost use Rattle.std.specs.Prelude.{◌≡◌, ℕ, List, [], ◌∷◌, OnOk};
ghost use Rattle.std.specs.List.{list_any};
ghost use Rattle.lu_spec_laws.specs.Words.Lost.{is_among};
ghost use Rattle.lu_judge_windows.specs.Fates.{IsFate};

use lu_base::{Memory, Numbers};
use std::alloc::Global;
use std::collections::HashSet;

/// The numbers that a close loses, the first one first.
#[derive(Debug, Drop)]
pub(crate) struct Fate {
    in_order: Vec<u64>,
    numbers: HashSet<u64>,
}

impl Fate {
    /// None. It takes no memory yet.
    pub(crate) fn new(alloc: Global) -> Fate
        ensures fate { IsFate result [] }
    {
        Fate {
            in_order: Vec::new(alloc),
            numbers: HashSet::new(alloc),
        }
    }

    /// Whether this number is lost.
    pub(crate) fn has(&self, number: u64) -> bool
        ensures lost { (lost : List ℕ) → IsFate self.now lost → result ≡ is_among lost number }
    {
        self.numbers.contains(&number)
    }

    /// Whether any of these numbers is lost.
    pub(crate) fn has_any(&self, numbers: &Numbers) -> bool
        ensures lost { (lost : List ℕ) → IsFate self.now lost → result ≡ list_any (is_among lost) numbers.now }
    {
        for number in numbers.as_slice() {
            if self.has(*number) {
                return true;
            }
        }
        false
    }

    /// One more number is lost.
    pub(crate) fn add(&mut self, number: u64) -> Result<(), Memory>
        ensures added { OnOk result ((lost : List ℕ) → IsFate self.old lost → IsFate self.new (number ∷ lost)) }
    {
        self.in_order.push(number)?;
        self.numbers.insert(number)?;
        Ok(())
    }

    /// The numbers, the last one first.
    pub(crate) fn newest_first(self) -> Numbers
        ensures same { (lost : List ℕ) → IsFate self lost → result ≡ lost }
    {
        let Fate {
            in_order,
            numbers: _,
        } = self;
        let mut numbers = in_order;
        numbers.as_mut_slice().reverse();
        Numbers::from(numbers)
    }
}
