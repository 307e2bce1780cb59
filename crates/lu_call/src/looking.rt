//! How a call on bytes looks for its locks, and is told.

ghost use Rattle.std.specs.Prelude.{◌≡◌, ℕ, ◌<◌, drop, length, Option, IfOk, OnOk};
ghost use Rattle.lu_spec_entries.specs.Carried.{Work as RowWork};
ghost use Rattle.lu_spec_entries.specs.Words.{Pins};
ghost use Rattle.lu_spec_client.specs.Advances.{name_under, pinned, using, unpins, enqueue_of, asks_lock, tells};
ghost use Rattle.lu_spec_client.specs.Advances.{looks, comes, acts};
ghost use Rattle.lu_client_store.specs.Stored.{StoreState, stored_after, stored_turn};
ghost use Rattle.lu_call.specs.Going.{GoesBy};
ghost use Rattle.lu_call.specs.Looked.{Looked};
ghost use Rattle.lu_call.specs.Ranges.{IsWork, IsActing, IsWanting};
ghost use Rattle.lu_call.specs.Views.{kind_of, work_of};

use super::calls::{Asking, CallState, Stage};
use super::nexts::Next;
use super::works::Work;
use lu_base::{At, Lock, Memory, Policy};
use lu_client_store::Store;
use lu_held::{LockName, Use};
use lu_msg::{Answer, Op};
use lu_spec_entries::Using;

/// What a lock is asked for by. A want of bits, which no call on bytes has, asks for the object's size.
fn enqueue_of(wanted: Use) -> Op
    ensures asks { result ≡ enqueue_of wanted }
{
    match wanted.policy {
        Policy::Range(extent) => Op::Enqueue {
            resource: wanted.resource,
            mode: wanted.mode,
            extent,
        },
        Policy::Bits(_) => Op::Size(wanted.resource),
    }
}

/// Unpins locks in the order in which they were pinned.
pub(crate) fn unpin_all(pins: &[LockName], store: &mut Store)
    ensures unpinned { store.new ≡ stored_turn store.old (unpins pins.now) }
{
    for name in pins {
        store.unpin(*name);
    }
}

impl CallState {
    /// Uses this lock for the first want that is left: it is pinned. After want of memory nothing is promised.
    fn take_up(
        &mut self,
        wanted: Use,
        lock: Lock,
        work: &mut Work,
        store: &mut Store,
    ) -> Result<(), Memory>
        ensures pinned { OnOk result (self.new ≡ pinned (name_under wanted lock) self.old) }
        ensures used { OnOk result (work_of work.new
            ≡ using wanted lock (drop 1 work.old.left.items) (work_of work.old)) }
        ensures store { OnOk result (store.new ≡ stored_after store.old (Pins (name_under wanted lock))) }
    {
        let name = LockName {
            target: wanted.target,
            cookie: lock.cookie,
        };
        self.pins.push(name)?;
        work.used.push(Using { want: wanted, lock })?;
        work.left.pop_front();
        store.pin(name);
        Ok(())
    }

    /// Looks for its locks, one after another: where a held lock does for it, that is pinned, and in use then. Answers the
    /// first that no held lock does for; none where all are in use. After want of memory nothing is promised.
    pub(crate) fn look(&mut self, work: &mut Work, store: &mut Store) -> Result<Option<Use>, Memory>
        requires sound { IsWork (work_of work.old) }
        ensures looked { IfOk result (λ wanted.
            Looked wanted self.old self.new (work_of work.old) (work_of work.new) store.old store.new) }
        ensures sound { OnOk result (IsWork (work_of work.new)) }
    {
        while let Some(wanted) = work.left.front().copied() {
            let Some(lock) = store.serving(wanted) else {
                return Ok(Some(wanted));
            };
            self.take_up(wanted, lock, work, store)?;
        }
        Ok(None)
    }

    /// Looks for its locks; acts where it has all, or asks for the first that no held lock does for. After want of
    /// memory nothing is promised.
    pub(crate) fn look_and_act(
        &mut self,
        at: At,
        mut work: Work,
        store: &mut Store,
    ) -> Result<Next, Memory>
        requires acting { IsActing (work_of work) }
        ensures goes { IfOk result (λ out. (slot : ℕ) → GoesBy
            (looks slot (acts at slot (kind_of work.kind)) work.left.items self.old (work_of work) store.old.store)
            slot self.new store.old store.new out) }
    {
        match self.look(&mut work, store)? {
            Some(wanted) => Ok(self.ask_lock(wanted, work)),
            None => self.act(at, work, store),
        }
    }

    /// The lock that came is used for the first want that is left, and it looks for the others. After want of memory
    /// nothing is promised.
    pub(crate) fn come_and_act(
        &mut self,
        at: At,
        mut work: Work,
        lock: Lock,
        store: &mut Store,
    ) -> Result<Next, Memory>
        requires acting { IsActing (work_of work) }
        requires some { 0 < length work.left.items }
        ensures goes { IfOk result (λ out. (slot : ℕ) → GoesBy
            (comes slot (acts at slot (kind_of work.kind)) lock work.left.items self.old (work_of work)
            store.old.store) slot self.new store.old store.new out) }
    {
        let wanted = work.left[0];
        self.take_up(wanted, lock, &mut work, store)?;
        self.look_and_act(at, work, store)
    }

    /// Asks for the first lock that is left, and waits.
    pub(crate) fn ask_lock(&mut self, wanted: Use, work: Work) -> Next
        requires wanting { IsWanting (work_of work) }
        ensures asks { (slot : ℕ) (s : StoreState)
            → GoesBy (asks_lock slot wanted self.old (work_of work)) slot self.new s s result }
    {
        self.stage = Stage::Enqueued(work);
        self.asking = Asking::Asked;
        Next::Asks(wanted.target, enqueue_of(wanted))
    }

    /// It is told, with the turn in which it acted, and its locks are unpinned.
    pub(crate) fn tell(&mut self, at: At, answer: Answer, store: &mut Store) -> Next
        ensures told { (slot : ℕ) (work : Option RowWork)
            → GoesBy (tells slot self.old at answer work) slot self.new store.old store.new result }
    {
        unpin_all(&self.pins, store);
        Next::Told {
            at,
            answer,
            binding: None,
        }
    }
}
