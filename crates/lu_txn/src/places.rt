//! Places of transactions in the order in which they were filed.

ghost use Rattle.std.specs.Prelude.{◌≡◌, ℕ, ◌<◌, true, [], ◌∷◌, ◌++◌, OnOk, OnErr};
ghost use Rattle.lu_part.specs.Places.{has};

use lu_base::Memory;
use std::alloc::Global;
use std::collections::VecDeque;
use std::marker::Model;

/// Places of transactions in the order in which they were filed.
#[derive(Debug, Drop)]
pub(crate) struct Places {
    queue: VecDeque<usize>,
}

impl Model for Places {
    ghost use Rattle.std.specs.Prelude.{List, ℕ};

    ghost Value = { List ℕ };

    ghost view = { λ places. places.queue.items };
}

impl Places {
    /// No place. It takes no memory yet.
    pub(crate) fn new(alloc: Global) -> Places
        ensures empty { result ≡ [] }
    {
        Places {
            queue: VecDeque::new(alloc),
        }
    }

    /// Files a place after those that are there. After want of memory nothing has changed.
    pub(crate) fn push(&mut self, place: usize) -> Result<(), Memory>
        ensures added { OnOk result (self.new ≡ self.old ++ place ∷ []) }
        ensures kept { OnErr result (self.new ≡ self.old) }
    {
        self.queue.push_back(place)?;
        Ok(())
    }

    /// Takes the places up to this one from the front.
    pub(crate) fn drop_to(&mut self, place: usize)
        ensures kept { (later : ℕ) → place < later → has self.old later ≡ true → has self.new later ≡ true }
    {
        while let Some(front) = self.queue.front() {
            if *front > place {
                return;
            }
            let _ = self.queue.pop_front();
        }
    }

    /// Whether no place is left.
    pub(crate) fn is_empty(&self) -> bool
        ensures { result ≡ true → self.now ≡ [] }
    {
        self.queue.is_empty()
    }

    /// Adds all places to these.
    pub(crate) fn add_to(&self, places: &mut Vec<usize>) -> Result<(), Memory>
        ensures added { OnOk result (places.new.items ≡ places.old.items ++ self.now) }
    {
        let (older, newer) = self.queue.as_slices();
        places.extend_from_slice(older)?;
        places.extend_from_slice(newer)?;
        Ok(())
    }
}
