//! Grants and callbacks: what a target says of the locks of a life.

ghost use Rattle.std.specs.Prelude.{◌≡◌, ◌<◌, ◌≤◌, ◌^◌, ◌∷◌, [], Bool, true, false, ℕ, Option, Some, length, position, OnOk};
ghost use Rattle.lu_base.specs.declared.locks.Lock.{Lock as LockOf};
ghost use Rattle.lu_held.specs.Held.{is_held};
ghost use Rattle.lu_held.specs.Locks.{named};
ghost use Rattle.lu_trace.specs.Turns.{Making, with_line};
ghost use Rattle.lu_trace.specs.declared.entries.Entry.TheVariants as printed;
ghost use Rattle.lu_spec_entries.specs.Words.{Hold, Settles, same_life};
ghost use Rattle.lu_spec_client.specs.Calls.{call_on};
ghost use Rattle.lu_spec_client.specs.Imports.{import_of};
ghost use Rattle.lu_spec_client.specs.Messages.{is_present, is_waiter, waiter, granted, on_slot, lock_granted, lock_blocked, blocked, blocked_waiting, cancels_unknown};
ghost use Rattle.lu_client_refines.specs.Turns.{imports_turn};
ghost use Rattle.lu_client_store.specs.Stored.{stored_after};
ghost use Rattle.lu_client.specs.Callbacks.{GrantGoes, MarksHeld};
ghost use Rattle.lu_client.specs.Clients.{stored_of, with_imports, with_store, Makes};
ghost use Rattle.lu_client.specs.Comings.{may_grant};

use super::client::Client;
use lu_base::{Cookie, Memory, Node, Numbers, TargetId, Txn, Who};
use lu_call::{CallState, CameLock};
use lu_held::LockName;
use lu_msg::{GrantNotice, Message, Post};
use lu_trace::{Entry, Turn};

/// Whether the call, if any, waits for the lock of this name.
fn is_waiter(call: &Option<CallState>, name: LockName) -> bool
    ensures waits { result ≡ is_waiter name call.now }
{
    match call {
        Some(call) => call.is_waiter(name),
        None => false,
    }
}

/// The first of these calls that waits for the lock of this name.
fn first_waiter(calls: &[Option<CallState>], name: LockName) -> Option<usize>
    ensures first { result ≡ position (is_waiter name) calls.now }
{
    calls.iter().position(|call| is_waiter(call, name))
}

impl Client {
    // ---- whom a message is for

    /// Whether a message for this life is for the client's own.
    pub(crate) fn is_life(&self, who: Who) -> bool
        ensures life { result ≡ same_life who self.now.client.who }
    {
        who == self.who
    }

    /// The boot of a target that is known; 1 of a target that the run doesn't have.
    pub(crate) fn boot_known(&self, target: TargetId) -> u32
        ensures boot { result ≡ (import_of target.0 self.now.client.imports).boot }
    {
        match self.imports.get(target.0 as usize) {
            Some(import) => import.boot(),
            None => 1,
        }
    }

    /// Whether a message of a target is for the client's life, and of the boot that it knows.
    pub(crate) fn is_present(&self, target: TargetId, who: Who, boot: u32) -> bool
        ensures present { result ≡ is_present who boot target.0 self.now.client }
    {
        self.is_life(who) && boot == self.boot_known(target)
    }

    /// The slot whose call waits for the lock of this name.
    fn waiter(&self, name: LockName) -> Option<usize>
        ensures waiter { result ≡ waiter name 0 self.now.client.calls }
    {
        first_waiter(&self.calls, name)
    }

    // ---- a grant

    /// A lock that waited is granted: it is held from now on, and the call that waits for it goes on with it. After want of
    /// memory the client is of no use.
    pub(crate) fn take_grant(
        &mut self,
        turn: &mut Turn,
        target: TargetId,
        grant: &GrantNotice,
    ) -> Result<(), Memory>
        requires target { target.0 < length self.old.client.imports }
        requires may { may_grant target.0 grant.now self.old.client ≡ true }
        ensures makes { OnOk result (Makes (λ k. granted target.0 grant.now k
            (is_present grant.now.who grant.now.boot target.0 k))
            self.old self.new turn.old turn.new) }
    {
        if !self.is_present(target, grant.who, grant.boot) {
            return Ok(());
        }
        let name = LockName {
            target,
            cookie: grant.cookie,
        };
        match self.waiter(name) {
            Some(slot) => self.grant_to(turn, target, slot, grant),
            None => Ok(()),
        }
    }

    /// The lock that the call on a slot waits for is held from now on, and the call goes on with it.
    fn grant_to(
        &mut self,
        turn: &mut Turn,
        target: TargetId,
        slot: usize,
        grant: &GrantNotice,
    ) -> Result<(), Memory>
        requires target { target.0 < length self.old.client.imports }
        requires waits { is_waiter (named target grant.now.cookie)
            (call_on slot self.old.client.calls) ≡ true }
        requires absent { is_held (named target grant.now.cookie) self.old.client.store.held ≡ false }
        requires short { grant.now.size ≤ 2 ^ 40 }
        ensures makes { OnOk result (Makes (λ k. on_slot (lock_granted target.0 grant.now) (Some slot) k)
            self.old self.new turn.old turn.new) }
    {
        let Some(came) = self.go_with_lock(slot, grant) else {
            return Ok(());
        };
        self.hold_granted(turn, target, &came, grant.size)?;
        self.note_granted(target, grant.committed, &grant.seen)
    }

    /// The call on a slot goes on with the lock that it waited for, which is answered. None where it waits for no lock; then
    /// nothing has changed.
    fn go_with_lock(&mut self, slot: usize, grant: &GrantNotice) -> Option<CameLock>
        requires slot { slot < length self.old.client.calls }
        ensures goes { (target : ℕ) → GrantGoes target grant.now slot self.old self.new result }
    {
        match &mut self.calls[slot] {
            Some(call) => call.granted(grant),
            None => None,
        }
    }

    /// A lock that came is held from now on, with the size of its object.
    fn hold_granted(
        &mut self,
        turn: &mut Turn,
        target: TargetId,
        came: &CameLock,
        size: u64,
    ) -> Result<(), Memory>
        requires absent { is_held (named target came.now.lock.cookie) self.old.client.store.held
            ≡ false }
        requires short { size ≤ 2 ^ 40 }
        ensures held { OnOk result ((seen : _) → self.new ≡ with_store (stored_after (stored_of self.old)
            (Hold target.0 came.now.lock came.now.marked (Some size) seen)) self.old) }
        ensures line { OnOk result (turn.new.step
            ≡ with_line turn.old.at turn.old.step (printed.Hold target came.now.lock.cookie)) }
        ensures turn { turn.new.at ≡ turn.old.at }
    {
        self.store
            .hold(target, &came.lock, came.marked, Some(size))?;
        turn.note(Entry::Hold {
            target,
            cookie: came.lock.cookie,
        })
    }

    /// Keeps for a recovery of the target what a granted lock told of its transactions. After want of memory nothing has
    /// changed.
    fn note_granted(
        &mut self,
        target: TargetId,
        committed: Txn,
        seen: &Numbers,
    ) -> Result<(), Memory>
        requires target { target.0 < length self.old.client.imports }
        ensures noted { OnOk result ((lock : LockOf) (marked : Bool) (size : Option ℕ) → self.new ≡ with_imports
            (imports_turn self.old.client.imports (Hold target.0 lock marked size seen.now
            ∷ Settles target.0 committed.0 ∷ []))
            self.old) }
    {
        let import = &mut self.imports[target.0 as usize];
        import.note(committed, seen)
    }

    // ---- a callback

    /// A lock is called back: a held one is marked, so is one that a call waits for; one that isn't known is given back,
    /// unless a request is in flight whose reply could bring it. After want of memory the client is of no use.
    pub(crate) fn call_back(
        &mut self,
        turn: &mut Turn,
        target: TargetId,
        who: Who,
        cookie: Cookie,
    ) -> Result<(), Memory>
        requires target { target.0 < length self.old.client.imports }
        ensures makes { OnOk result (Makes (λ k. blocked (named target cookie) k (same_life who k.who))
            self.old self.new turn.old turn.new) }
    {
        if !self.is_life(who) {
            return Ok(());
        }
        let name = LockName { target, cookie };
        if self.mark_held(name) {
            return Ok(());
        }
        self.block_waiting(turn, name)
    }

    /// Marks a held lock: it is to be given back. False where it isn't held; then nothing has changed.
    fn mark_held(&mut self, name: LockName) -> bool
        ensures held { result ≡ is_held name self.old.client.store.held }
        ensures marked { MarksHeld name result self.old self.new }
    {
        self.store.mark(name)
    }

    /// A lock that isn't held is called back.
    fn block_waiting(&mut self, turn: &mut Turn, name: LockName) -> Result<(), Memory>
        requires target { name.target.0 < length self.old.client.imports }
        ensures makes { OnOk result (Makes (λ k. blocked_waiting name k (waiter name 0 k.calls))
            self.old self.new turn.old turn.new) }
    {
        match self.waiter(name) {
            Some(slot) => {
                self.block_call(slot);
                Ok(())
            }
            None => self.cancel_unknown(turn, name),
        }
    }

    /// The lock that the call on a slot waits for is called back.
    fn block_call(&mut self, slot: usize)
        requires slot { slot < length self.old.client.calls }
        ensures makes { (turn : Making) → Makes (λ k. on_slot lock_blocked (Some slot) k) self.old self.new turn turn }
    {
        if let Some(call) = &mut self.calls[slot] {
            call.blocked();
        }
    }

    /// A lock that isn't known is given back, unless a request to its target is in flight: its reply could bring the lock.
    fn cancel_unknown(&self, turn: &mut Turn, name: LockName) -> Result<(), Memory>
        requires target { name.target.0 < length self.now.client.imports }
        ensures makes { OnOk result (Makes (λ k. cancels_unknown k.who name (import_of name.target.0 k.imports).boot
            (import_of name.target.0 k.imports).flights) self.now self.now turn.old turn.new) }
    {
        let import = &self.imports[name.target.0 as usize];
        if import.in_flight(0).is_some() {
            return Ok(());
        }
        turn.send(Post {
            to: Node::Target(name.target.0),
            message: Message::Cancel {
                who: self.who,
                boot: import.boot(),
                cookie: name.cookie,
            },
        })
    }
}
