//! The words of lives that come back.

ghost use Rattle.std.specs.Prelude.{◌≡◌, ◌&&◌, nat_le, false, [], option_map, OnOk, OnErr};
ghost use Rattle.std.specs.List.{list_any};
ghost use Rattle.std.specs.Option.{option_copied};
ghost use Rattle.lu_spec_entries.specs.Words.{same_life};
ghost use Rattle.lu_spec_target.specs.Windows.{word_of, with_word};
ghost use Rattle.lu_window.specs.Shown.{said};

use lu_base::{Memory, Numbers, Who};
use std::alloc::Global;
use std::collections::BTreeMap;
use std::marker::Model;

/// The word of a life: how many requests and locks it has replayed, and what it has seen.
#[derive(Debug, Drop)]
pub(crate) struct Word {
    pub(crate) replays: u32,
    pub(crate) locks: u32,
    /// The uncommitted transactions that the life has seen.
    pub(crate) seen: Numbers,
}

impl Word {
    /// Whether there are so many replays and locks at least.
    pub(crate) fn is_met_by(&self, replays: usize, locks: usize) -> bool
        ensures { result ≡ (nat_le self.now.replays replays && nat_le self.now.locks locks) }
    {
        self.replays as usize <= replays && self.locks as usize <= locks
    }
}

/// The words, one for each life at most.
#[derive(Debug, Drop)]
pub(crate) struct Words {
    by_life: BTreeMap<Who, Word>,
}

impl Model for Words {
    ghost use Rattle.std.specs.Prelude.{List, map};
    ghost use Rattle.lu_spec_entries.specs.Carried.{Said};
    ghost use Rattle.lu_window.specs.Shown.{said_of};

    ghost Value = { List Said };

    ghost view = { λ words. map said_of words.by_life.entries };
}

impl Words {
    /// No word. It takes no memory yet.
    pub(crate) fn new(alloc: Global) -> Words
        ensures { result ≡ [] }
    {
        Words {
            by_life: BTreeMap::new(alloc),
        }
    }

    /// The word of this life; none where it hasn't come.
    pub(crate) fn of(&self, who: Who) -> Option<&Word>
        ensures { option_map (said who) (option_copied result) ≡ word_of who self.now }
    {
        self.by_life.get(&who)
    }

    /// Whether the word of this life has come.
    pub(crate) fn has(&self, who: Who) -> bool
        ensures { result ≡ list_any (λ word. same_life word.who who) self.now }
    {
        self.by_life.contains_key(&who)
    }

    /// Adds the first word of this life. After want of memory nothing has changed.
    pub(crate) fn add(&mut self, who: Who, word: Word) -> Result<(), Memory>
        requires first { list_any (λ word. same_life word.who who) self.old ≡ false }
        ensures added { OnOk result (self.new ≡ with_word (said who word) self.old) }
        ensures kept { OnErr result (self.new ≡ self.old) }
    {
        self.by_life.insert(who, word)?;
        Ok(())
    }
}
