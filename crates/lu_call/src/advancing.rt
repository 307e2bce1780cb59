//! A call goes on.

ghost use Rattle.std.specs.Prelude.{◌≡◌, ℕ, [], IfOk};
ghost use Rattle.lu_msg.specs.declared.answers.Answer.TheVariants as answer;
ghost use Rattle.lu_spec_entries.specs.Carried.{Sizes, Flushing};
ghost use Rattle.lu_spec_client.specs.Advances.{at_stage};
ghost use Rattle.lu_spec_client.specs.Glimpses.{glimpse_hears};
ghost use Rattle.lu_spec_client.specs.Slots.{goes_at};
ghost use Rattle.lu_spec_client.specs.Starts.{looks_at, comes_at, sizes_heard, goes_plain};
ghost use Rattle.lu_spec_client.specs.WriteBack.{flushing};
ghost use Rattle.lu_call.specs.Going.{GoesBy, GoesFrom};
ghost use Rattle.lu_call.specs.Ranges.{IsLooking, IsWanting, IsSizing, is_glimpse};
ghost use Rattle.lu_call.specs.Starting.{alone, sizes_of, glimpsing};
ghost use Rattle.lu_call.specs.Views.{work_of, kind_of};

use super::calls::{Asking, CallState, Stage};
use super::nexts::Next;
use super::works::{Kind, Work};
use lu_base::{At, Duplicate, Lock, Memory, Numbers};
use lu_client_store::Store;
use lu_msg::Answer;
use std::alloc::Global;

impl Work {
    /// Whether it glimpses.
    fn is_glimpse(&self) -> bool
        ensures glimpse { result ≡ is_glimpse (kind_of self.now.kind) }
    {
        match &self.kind {
            Kind::Glimpses { .. } => true,
            _ => false,
        }
    }

    /// The sizes that a glimpse has so far; it has none any more.
    fn take_sizes(&mut self, alloc: Global) -> Numbers
        ensures sizes { result ≡ sizes_of (kind_of self.old.kind) }
        ensures rest { work_of self.new ≡ glimpsing [] (work_of self.old) }
    {
        let none = Kind::Glimpses {
            sizes: Numbers::new(alloc),
        };
        match std::mem::replace(&mut self.kind, none) {
            Kind::Glimpses { sizes } => sizes,
            _ => Numbers::new(alloc),
        }
    }
}

impl CallState {
    /// A call on bytes looks for the locks that are left.
    fn go_looking(&mut self, at: At, mut work: Work, store: &mut Store) -> Result<Next, Memory>
        requires looking { IsLooking (work_of work) }
        ensures goes { IfOk result (λ out. (slot : ℕ)
            → GoesBy (looks_at at slot (kind_of work.kind) self.old (work_of work) store.old.store)
            slot self.new store.old store.new out) }
    {
        if work.is_glimpse() {
            let sizes = work.take_sizes(self.alloc);
            return self.glimpse_or_ask(at, sizes, work, store);
        }
        self.look_and_act(at, work, store)
    }

    /// The lock that a call on bytes asked for came.
    fn go_with_lock(
        &mut self,
        at: At,
        mut work: Work,
        lock: Lock,
        store: &mut Store,
    ) -> Result<Next, Memory>
        requires wanting { IsWanting (work_of work) }
        ensures goes { IfOk result (λ out. (slot : ℕ)
            → GoesBy (comes_at at slot (kind_of work.kind) self.old (work_of work) store.old.store lock)
            slot self.new store.old store.new out) }
    {
        if work.is_glimpse() {
            let sizes = work.take_sizes(self.alloc);
            return self.glimpse_come(at, lock, sizes, work, store);
        }
        self.come_and_act(at, work, lock, store)
    }

    /// A glimpse was told the size of the first object that is left.
    fn go_with_size(
        &mut self,
        at: At,
        size: u64,
        mut work: Work,
        store: &mut Store,
    ) -> Result<Next, Memory>
        requires sizing { IsSizing (work_of work) }
        ensures goes { IfOk result (λ out. (slot : ℕ)
            → GoesBy (glimpse_hears at slot work.left.items (sizes_of (kind_of work.kind)) (answer.Size size) self.old
            (work_of work) store.old.store) slot self.new store.old store.new out) }
    {
        let sizes = work.take_sizes(self.alloc);
        self.glimpse_size(at, size, sizes, work, store)
    }

    /// A glimpse asked for the size of an object: it goes on once it is told the size, or left to the lock.
    fn go_sizing(&mut self, at: At, work: Work, store: &mut Store) -> Result<Next, Memory>
        requires sizing { IsSizing (work_of work) }
        ensures goes { IfOk result (λ out. (slot : ℕ)
            → GoesFrom (sizes_heard at slot self.old.asking (kind_of work.kind) self.old (work_of work)
            store.old.store) slot (at_stage self.old (Sizes (work_of work))) self.new store.old store.new out) }
    {
        let Asking::Answered { reply, .. } = &self.asking else {
            self.stage = Stage::Sizes(work);
            return Ok(Next::Waits);
        };
        match &reply.answer {
            Answer::Size(size) => {
                let size = *size;
                self.go_with_size(at, size, work, store)
            }
            Answer::Lock => self.go_looking(at, work, store),
            _ => {
                self.stage = Stage::Sizes(work);
                Ok(Next::Waits)
            }
        }
    }

    /// A flush goes on with the stripe that it writes back.
    fn go_flushing(&mut self, at: At, stripe: u16, store: &mut Store) -> Result<Next, Memory>
        ensures goes { IfOk result (λ out. (slot : ℕ)
            → GoesFrom (flushing at slot stripe self.old self.old.file store.old.store)
            slot (at_stage self.old (Flushing stripe)) self.new store.old store.new out) }
    {
        match self.file {
            Some(file) => self.flush_from(at, file, stripe, store),
            None => {
                self.stage = Stage::Flushing(stripe);
                Ok(Next::Waits)
            }
        }
    }

    /// A call that looks for no locks begins, or goes on with the metadata target's answer.
    fn go_plain(&mut self, at: At, store: &mut Store) -> Result<Next, Memory>
        ensures goes { IfOk result (λ out. (slot : ℕ)
            → GoesFrom (goes_plain at slot self.old.asking self.old (alone self.old store.old))
            slot self.old self.new store.old store.new out) }
    {
        match &self.asking {
            Asking::Unasked => self.start(at, store),
            Asking::Asked => Ok(Next::Waits),
            Asking::Answered { reply, .. } => {
                let acted = reply.at;
                let answer = reply.answer.copy(self.alloc)?;
                self.answered(at, acted, answer, store)
            }
        }
    }

    /// The call goes as far as it can by what its client knows, in this turn; what it leaves to its client is
    /// answered. Once the call is told it is over. A close that others on its open keep waiting isn't let go on. After
    /// want of memory neither the call nor the store is of any use.
    pub fn advance(&mut self, at: At, store: &mut Store) -> Result<Next, Memory>
        ensures goes { IfOk result (λ out. (slot : ℕ)
            → GoesFrom (goes_at at slot self.old.stage self.old (alone self.old store.old))
            slot self.old self.new store.old store.new out) }
    {
        match std::mem::replace(&mut self.stage, Stage::Plain) {
            Stage::Plain => self.go_plain(at, store),
            Stage::Looks(work) => self.go_looking(at, work, store),
            Stage::Came { work, lock } => self.go_with_lock(at, work, lock, store),
            Stage::Sizes(work) => self.go_sizing(at, work, store),
            Stage::Flushing(stripe) => self.go_flushing(at, stripe, store),
            stage => {
                self.stage = stage;
                Ok(Next::Waits)
            }
        }
    }
}
