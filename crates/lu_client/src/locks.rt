//! The held locks after the slots: marks of unused ones, then write-backs and what is given up.

ghost use Rattle.std.specs.Prelude.{◌≡◌, [], ◌∷◌, Bool, Some, IfOk, OnOk};
ghost use Rattle.lu_base.specs.declared.ids.Node.TheVariants.{Target};
ghost use Rattle.lu_held.specs.declared.locks.HeldLock.{HeldLock as HeldOf};
ghost use Rattle.lu_held.specs.Held.{in_order};
ghost use Rattle.lu_msg.specs.declared.messages.Message.TheVariants as message;
ghost use Rattle.lu_trace.specs.Turns.{Making};
ghost use Rattle.lu_spec_entries.specs.Words.{Send, Drop as DropOf};
ghost use Rattle.lu_spec_client.specs.Caches.{patch_at};
ghost use Rattle.lu_spec_client.specs.Imports.{import_of};
ghost use Rattle.lu_spec_client.specs.Locks.{is_called, must_write, trims, visits, visits_all, locks_go};
ghost use Rattle.lu_spec_client.specs.Patches.{Patch};
ghost use Rattle.lu_spec_client.specs.States.{Client as Rows};
ghost use Rattle.lu_client.specs.Clients.{Makes};
ghost use Rattle.lu_client.specs.Visits.{TrimsOne, must_write_in, back_row, gives_row, boot_served};

use super::client::Client;
use lu_base::{Ask, Extent, Lock, Memory, Mode, Node, Policy, TargetId};
use lu_held::HeldLock;
use lu_msg::{Message, Post};
use lu_trace::{Entry, Turn};

/// Whether a lock is called back and not in use.
fn is_called(held: &HeldLock) -> bool
    ensures called { result ≡ is_called held.now }
{
    held.marked && held.pins == 0
}

/// The range of an object that a lock lets its client change: that of a PW lock.
fn range_to_write(lock: &Lock) -> Option<Extent>
    ensures must { (over : Bool) (h : HeldOf) (p : Patch)
        → must_write over h lock.now.ask.mode lock.now.ask.policy p ≡ must_write_in over h result p }
{
    match lock.ask {
        Ask {
            mode: Mode::PW,
            policy: Policy::Range(extent),
            ..
        } => Some(extent),
        _ => None,
    }
}

impl Client {
    // ---- unused locks

    /// Where more locks are neither in use nor called back than may be kept, the least recently used of them are
    /// marked.
    pub(crate) fn trim(&mut self)
        ensures makes { (turn : Making) → Makes (trims self.old.limits) self.old self.new turn turn }
    {
        while self.trim_one() {}
    }

    /// The least recently used of them is marked. False where no more are than may be kept; then nothing has
    /// changed.
    fn trim_one(&mut self) -> bool
        ensures trims { TrimsOne result self.old self.new }
    {
        match self.store.trim() {
            Some(_) => true,
            None => false,
        }
    }

    // ---- the pass over the held locks

    /// Each held lock in order of target and cookie writes its changes back or is given up. Whether too much is
    /// dirty is looked at before. After want of memory the client is of no use.
    pub(crate) fn visit_locks(&mut self, turn: &mut Turn) -> Result<(), Memory>
        ensures makes { OnOk result (Makes (locks_go self.old.limits) self.old self.new turn.old turn.new) }
    {
        let over = self.store.is_dirty_above(self.dirty);
        let locks = self.to_visit(over)?;
        self.visit_all(turn, over, locks.as_slice())
    }

    /// The held locks that may need a visit, by target and then by cookie: all, where too much is dirty, or else
    /// those that are called back and not in use.
    fn to_visit(&self, over: bool) -> Result<Vec<HeldLock>, Memory>
        ensures visits { IfOk result (λ locks. (k : Rows)
            → visits_all over (in_order self.now.client.store.held) k ≡ visits_all over locks.items k) }
    {
        if over {
            return self.store.in_order(self.alloc);
        }
        self.store.ready(self.alloc)
    }

    /// Each of these locks, one after another, writes its changes back or is given up.
    fn visit_all(&mut self, turn: &mut Turn, over: bool, locks: &[HeldLock]) -> Result<(), Memory>
        ensures makes { OnOk result (Makes (visits_all over locks.now) self.old self.new turn.old turn.new) }
    {
        for held in locks {
            self.visit(turn, over, held)?;
        }
        Ok(())
    }

    /// A held lock writes a change back or is given up.
    fn visit(&mut self, turn: &mut Turn, over: bool, held: &HeldLock) -> Result<(), Memory>
        ensures makes { OnOk result (Makes (visits over held.now) self.old self.new turn.old turn.new) }
    {
        if self.must_write(over, held) {
            return self.write_back(held);
        }
        self.give_up(turn, held)
    }

    // ---- write-back

    /// Whether a change must be written back under the lock: any, where it is called back and not in use, and each
    /// dirty byte, where too much is dirty.
    fn must_write(&self, over: bool, held: &HeldLock) -> bool
        ensures must { result ≡ must_write over held.now held.now.lock.ask.mode held.now.lock.ask.policy
            (patch_at held.now.lock.resource self.now.client.store.patches) }
    {
        match range_to_write(&held.lock) {
            Some(extent) => self.must_write_in(over, held, extent),
            None => false,
        }
    }

    /// The same in a range of the lock's object.
    fn must_write_in(&self, over: bool, held: &HeldLock, extent: Extent) -> bool
        ensures must { result ≡ must_write_in over held.now (Some extent)
            (patch_at held.now.lock.resource self.now.client.store.patches) }
    {
        if is_called(held) {
            if self.store.has_change(held.lock.resource, extent) {
                return true;
            }
        }
        if over {
            return self.store.is_dirty_in(held.lock.resource, extent);
        }
        false
    }

    /// The next change under the lock is queued, unless one of its object is under way. After want of memory the
    /// client is of no use.
    fn write_back(&mut self, held: &HeldLock) -> Result<(), Memory>
        ensures makes { OnOk result ((turn : Making) → Makes (back_row held.now) self.old self.new turn turn) }
    {
        if self.store.in_flight(held.lock.resource) {
            return Ok(());
        }
        let Some(back) = self.store.take_flush_under(held)? else {
            return Ok(());
        };
        self.queue(back.target, None, back.operation())
    }

    // ---- giving up

    /// A lock that is called back and not in use is given back, where its target serves the life.
    fn give_up(&mut self, turn: &mut Turn, held: &HeldLock) -> Result<(), Memory>
        ensures makes { OnOk result (Makes (gives_row held.now) self.old self.new turn.old turn.new) }
    {
        if !is_called(held) {
            return Ok(());
        }
        let Some(boot) = self.boot_served(held.target) else {
            return Ok(());
        };
        self.give_back(turn, held, boot)
    }

    /// The boot that is known of a target, where it serves the life.
    fn boot_served(&self, target: TargetId) -> Option<u32>
        ensures boot { result ≡ boot_served (import_of target.0 self.now.client.imports) }
    {
        let Some(import) = self.imports.get(target.0 as usize) else {
            return None;
        };
        if import.serving() {
            return Some(import.boot());
        }
        None
    }

    /// A lock is held no more, and its target is told so.
    fn give_back(&mut self, turn: &mut Turn, held: &HeldLock, boot: u32) -> Result<(), Memory>
        ensures makes { OnOk result (Makes (λ k. DropOf held.now.target.0 held.now.lock
            ∷ Send (Target held.now.target.0) (message.Cancel k.who boot held.now.lock.cookie) ∷ [])
            self.old self.new turn.old turn.new) }
    {
        self.drop_held(turn, held)?;
        turn.send(Post {
            to: Node::Target(held.target.0),
            message: Message::Cancel {
                who: self.who,
                boot,
                cookie: held.lock.cookie,
            },
        })
    }

    /// A lock is held no more.
    pub(crate) fn drop_held(&mut self, turn: &mut Turn, held: &HeldLock) -> Result<(), Memory>
        ensures makes { OnOk result (Makes (λ k. DropOf held.now.target.0 held.now.lock ∷ [])
            self.old self.new turn.old turn.new) }
    {
        let cookie = held.lock.cookie;
        let target = held.target;
        self.store.drop_lock(target, &held.lock);
        turn.note(Entry::Drop { target, cookie })
    }
}
