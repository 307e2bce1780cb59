//! A glimpse: how long each stripe's object is, without the holder's lock.

ghost use Rattle.std.specs.Prelude.{◌≡◌, ◌<◌, ◌++◌, [], ◌∷◌, ℕ, List, drop, length, IfOk, OnOk, IfSome, IfNone};
ghost use Rattle.lu_msg.specs.declared.answers.Answer.TheVariants as answer;
ghost use Rattle.lu_spec_client.specs.Glimpses.{glimpses, glimpse_asks, glimpse_comes, glimpse_hears};
ghost use Rattle.lu_spec_client.specs.Looks.{size_under};
ghost use Rattle.lu_client_store.specs.Stored.{StoreState};
ghost use Rattle.lu_call.specs.Glimpsed.{Glimpsed, GlimpsesOn, GlimpsesNoMore, asks_for_size};
ghost use Rattle.lu_call.specs.Going.{GoesBy};
ghost use Rattle.lu_call.specs.Ranges.{IsSizing, IsWork};
ghost use Rattle.lu_call.specs.Views.{work_of};

use super::calls::{Asking, CallState, Stage};
use super::nexts::Next;
use super::works::{Kind, Work};
use lu_base::{At, Lock, Memory, Numbers};
use lu_client_store::Store;
use lu_held::Use;
use lu_msg::{Answer, Op};
use std::collections::VecDeque;

/// The held lock that does for the first want that is left; none where no held lock does, or no want is left.
fn next_lock(left: &VecDeque<Use>, store: &Store) -> Option<Lock>
    ensures goes { IfSome result (λ lock. (sizes : List ℕ) → GlimpsesOn left.now.items (drop 1 left.now.items) sizes
        (sizes ++ size_under lock store.now.store ∷ []) store.now.store) }
    ensures some { IfSome result (λ _. 0 < length left.now.items) }
    ensures stops { IfNone result ((sizes : List ℕ) → GlimpsesNoMore left.now.items sizes store.now.store) }
{
    let wanted = left.front().copied()?;
    store.serving(wanted)
}

/// Takes the sizes of objects, one after another, under held locks, as far as those do.
fn take_sizes(left: &mut VecDeque<Use>, sizes: &mut Numbers, store: &Store) -> Result<(), Memory>
    ensures glimpsed { OnOk result
        (Glimpsed left.old.items left.new.items sizes.old sizes.new store.now.store) }
{
    while let Some(lock) = next_lock(left, store) {
        sizes.push(store.size_under(&lock))?;
        left.pop_front();
    }
    Ok(())
}

impl CallState {
    /// Asks the target of the first want that is left how long its object is, and waits.
    fn ask_size(&mut self, wanted: Use, work: Work) -> Next
        requires sizing { IsSizing (work_of work) }
        ensures asks { (slot : ℕ) (s : StoreState)
            → GoesBy (asks_for_size slot wanted self.old (work_of work)) slot self.new s s result }
    {
        self.stage = Stage::Sizes(work);
        self.asking = Asking::Asked;
        Next::Asks(wanted.target, Op::Size(wanted.resource))
    }

    /// A glimpse takes sizes under held locks, after those that it has; asks for the size of the first object for which
    /// no held lock does, or is told all sizes. After want of memory nothing is promised.
    pub(crate) fn glimpse(
        &mut self,
        at: At,
        mut sizes: Numbers,
        mut work: Work,
        store: &mut Store,
    ) -> Result<Next, Memory>
        requires work { IsWork (work_of work) }
        ensures goes { IfOk result (λ out. (slot : ℕ)
            → GoesBy (glimpses at slot work.left.items sizes self.old (work_of work) store.old.store)
            slot self.new store.old store.new out) }
    {
        take_sizes(&mut work.left, &mut sizes, store)?;
        match work.left.front().copied() {
            Some(wanted) => {
                work.kind = Kind::Glimpses { sizes };
                Ok(self.ask_size(wanted, work))
            }
            None => Ok(self.tell(at, Answer::Sizes(sizes), store)),
        }
    }

    /// A glimpse was told the size of the first object that is left, and goes on. After want of memory nothing is promised.
    pub(crate) fn glimpse_size(
        &mut self,
        at: At,
        size: u64,
        mut sizes: Numbers,
        mut work: Work,
        store: &mut Store,
    ) -> Result<Next, Memory>
        requires work { IsWork (work_of work) }
        requires some { 0 < length work.left.items }
        ensures goes { IfOk result (λ out. (slot : ℕ)
            → GoesBy (glimpse_hears at slot work.left.items sizes (answer.Size size) self.old (work_of work)
            store.old.store) slot self.new store.old store.new out) }
    {
        sizes.push(size)?;
        work.left.pop_front();
        self.glimpse(at, sizes, work, store)
    }

    /// The lock came that a glimpse asked for: the size of the first object that is left is taken under it. After want
    /// of memory nothing is promised.
    pub(crate) fn glimpse_come(
        &mut self,
        at: At,
        lock: Lock,
        sizes: Numbers,
        work: Work,
        store: &mut Store,
    ) -> Result<Next, Memory>
        requires work { IsWork (work_of work) }
        requires some { 0 < length work.left.items }
        ensures goes { IfOk result (λ out. (slot : ℕ)
            → GoesBy (glimpse_comes at slot lock work.left.items sizes self.old (work_of work) store.old.store)
            slot self.new store.old store.new out) }
    {
        let size = store.size_under(&lock);
        self.glimpse_size(at, size, sizes, work, store)
    }

    /// The target leaves the size of the first object that is left to the lock on it: a held one is used, or it is asked
    /// for. After want of memory nothing is promised.
    pub(crate) fn glimpse_or_ask(
        &mut self,
        at: At,
        sizes: Numbers,
        mut work: Work,
        store: &mut Store,
    ) -> Result<Next, Memory>
        requires work { IsWork (work_of work) }
        requires some { 0 < length work.left.items }
        ensures goes { IfOk result (λ out. (slot : ℕ)
            → GoesBy (glimpse_asks at slot work.left.items sizes self.old (work_of work) store.old.store)
            slot self.new store.old store.new out) }
    {
        let wanted = work.left[0];
        match store.serving(wanted) {
            Some(lock) => self.glimpse_come(at, lock, sizes, work, store),
            None => {
                work.kind = Kind::Glimpses { sizes };
                Ok(self.ask_lock(wanted, work))
            }
        }
    }
}
