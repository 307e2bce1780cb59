//! What messages of targets make of a call.

ghost use Rattle.std.specs.Prelude.{◌≡◌, ℕ, [], ◌∷◌, Option, Some, OnOk, OnErr, IfNone};
ghost use Rattle.lu_base.specs.declared.ids.Who.{Who as WhoOf};
ghost use Rattle.lu_spec_entries.specs.Carried.{Flight, Enqueued, Forgotten, Running};
ghost use Rattle.lu_spec_entries.specs.Words.{Heard};
ghost use Rattle.lu_spec_client.specs.Advances.{at_stage};
ghost use Rattle.lu_spec_client.specs.Messages as rows;
ghost use Rattle.lu_spec_client.specs.Recovery.{forgets_stage, looks_stage, where_stage};
ghost use Rattle.lu_call.specs.Ranges.{IsWanting, IsStage};
ghost use Rattle.lu_call.specs.Views.{work_of, stage_of};
ghost use Rattle.lu_call.specs.Turning.{call_turn};
ghost use Rattle.lu_call.specs.Hearing.{waited, waits_at, asks_where, comes_by_grant};

use super::calls::{Asking, CallState, Stage};
use super::works::Work;
use lu_base::{Ask, Cookie, Duplicate, Extent, Lock, Memory, Policy, TargetId, Who};
use lu_held::{LockName, Use};
use lu_msg::{Answer, GrantNotice, Reply};

/// A lock that a call waited for, as it was granted, and whether it was called back meanwhile.
#[derive(Clone, Copy, Debug, PartialEq, Eq)]
pub struct CameLock {
    pub lock: Lock,
    pub marked: bool,
}

/// The lock as it was granted on a range.
fn granted_on(lock: &Lock, extent: Extent) -> Lock
    ensures granted { result ≡ rows.granted_as lock.now extent }
{
    Lock {
        cookie: lock.cookie,
        resource: lock.resource,
        ask: Ask {
            who: lock.ask.who,
            mode: lock.ask.mode,
            policy: Policy::Range(extent),
        },
    }
}

impl CallState {
    // ---- the answer to what it asked

    /// The reply to its newest request was heard. After want of memory nothing has changed.
    pub fn heard(&mut self, target: TargetId, reply: &Reply) -> Result<(), Memory>
        ensures heard { OnOk result ((slot : ℕ) (flight : Flight) → flight.slot ≡ Some slot
            → call_turn slot (Some self.old) (Heard target.0 flight reply.now ∷ []) ≡ Some self.new) }
        ensures kept { OnErr result (self.new ≡ self.old) }
    {
        let reply = reply.copy(self.alloc)?;
        self.asking = Asking::Answered { target, reply };
        Ok(())
    }

    /// The reply to an enqueue of this life was heard, with these locks: the lock that the call asked for came with
    /// it, or waits. Where the call asked for no lock nothing changes.
    pub fn lock_heard(&mut self, who: Who, answer: &Answer, locks: &[Lock])
        ensures heard { (slot : ℕ) → call_turn slot (Some self.old)
            (rows.enqueue_heard who answer.now locks.now slot self.old self.old.stage) ≡ Some self.new }
    {
        match std::mem::replace(&mut self.stage, Stage::Plain) {
            Stage::Enqueued(work) => self.stage = lock_or_wait(work, who, answer, locks),
            stage => self.stage = stage,
        }
    }

    /// The page that the call fetched was heard: it looks again for what is missing.
    pub fn looks_again(&mut self)
        ensures looks { (slot : ℕ) → call_turn slot (Some self.old)
            (rows.looks_again slot self.old self.old.stage) ≡ Some self.new }
    {
        match std::mem::replace(&mut self.stage, Stage::Plain) {
            Stage::Gets(work) => self.stage = Stage::Looks(work),
            stage => self.stage = stage,
        }
    }

    // ---- the lock that it waits for

    /// The name of the lock that the call waits for.
    pub fn waits_for(&self) -> Option<LockName>
        ensures waits { result ≡ waited self.now.stage }
        ensures asks { (who : WhoOf) (boot target slot : ℕ)
            → where_stage who boot target slot self.now self.now.stage ≡ asks_where who boot target result }
    {
        match &self.stage {
            Stage::Waits { target, lock, .. } => Some(LockName {
                target: *target,
                cookie: lock.cookie,
            }),
            _ => None,
        }
    }

    /// Whether the call waits for the lock of this name.
    pub fn is_waiter(&self, name: LockName) -> bool
        ensures waits { result ≡ rows.is_waiter name (Some self.now) }
    {
        match &self.stage {
            Stage::Waits { target, lock, .. } => {
                *target == name.target && lock.cookie == name.cookie
            }
            _ => false,
        }
    }

    /// The lock that the call waits for is granted: it is to be held as answered, and the call goes on with it. None
    /// where the call waits for no lock; then nothing has changed.
    pub fn granted(&mut self, grant: &GrantNotice) -> Option<CameLock>
        ensures granted { (target slot : ℕ) → rows.lock_granted target grant.now slot self.old self.old.stage
            ≡ comes_by_grant target grant.now slot self.new result }
        ensures none { IfNone result (self.new ≡ self.old) }
    {
        match std::mem::replace(&mut self.stage, Stage::Plain) {
            Stage::Waits {
                work,
                lock,
                marked,
                ..
            } => {
                let lock = granted_on(&lock, grant.extent);
                self.stage = Stage::Came { work, lock };
                Some(CameLock { lock, marked })
            }
            stage => {
                self.stage = stage;
                None
            }
        }
    }

    /// The lock that the call waits for is called back: it is given back once it came and was used.
    pub fn blocked(&mut self)
        ensures blocked { (slot : ℕ) → call_turn slot (Some self.old)
            (rows.lock_blocked slot self.old self.old.stage) ≡ Some self.new }
    {
        if let Stage::Waits { marked, .. } = &mut self.stage {
            *marked = true;
        }
    }

    // ---- recovery

    /// The target is up again: a lock of it that the call waits for is forgotten there, and is asked for again once
    /// the target serves.
    pub fn forget_asks(&mut self, target: TargetId)
        ensures forgets { (slot : ℕ) → call_turn slot (Some self.old)
            (forgets_stage target.0 slot self.old self.old.stage) ≡ Some self.new }
    {
        if !self.waits_at(target) {
            return;
        }
        match std::mem::replace(&mut self.stage, Stage::Plain) {
            Stage::Waits { work, .. } => self.stage = Stage::Forgotten(work),
            stage => self.stage = stage,
        }
    }

    /// Whether it waits for a lock of this target.
    fn waits_at(&self, target: TargetId) -> bool
        ensures waits { result ≡ waits_at target self.now.stage }
    {
        match &self.stage {
            Stage::Waits { target: at, .. } => *at == target,
            _ => false,
        }
    }

    /// The target serves: a call that waited for a lock of it when it went down looks for that lock again.
    pub fn ask_again(&mut self, target: TargetId)
        ensures looks { (slot : ℕ) → call_turn slot (Some self.old)
            (looks_stage target.0 slot self.old self.old.stage) ≡ Some self.new }
    {
        match std::mem::replace(&mut self.stage, Stage::Plain) {
            Stage::Forgotten(work) => self.stage = look_or_stay(work, target),
            stage => self.stage = stage,
        }
    }
}

/// How a call stands that asked for the first of the locks that are left.
fn lock_or_wait(work: Work, who: Who, answer: &Answer, locks: &[Lock]) -> Stage
    requires wanting { IsWanting (work_of work) }
    ensures heard { (slot : ℕ) (r : Running) → call_turn slot (Some (at_stage r (Enqueued (work_of work))))
        (rows.lock_heard who slot r (work_of work) answer.now locks.now work.left.items)
        ≡ Some (at_stage r (stage_of result)) }
    ensures sound { IsStage (stage_of result) }
{
    if let Some(lock) = locks.first() {
        return Stage::Came { work, lock: *lock };
    }
    let (Answer::Waiting(cookie), Some(wanted)) = (answer, work.left.front()) else {
        return Stage::Enqueued(work);
    };
    let target = wanted.target;
    let lock = waiting_lock(who, *cookie, wanted);
    Stage::Waits {
        work,
        target,
        lock,
        marked: false,
    }
}

/// A lock as it waits.
fn waiting_lock(who: Who, cookie: Cookie, wanted: &Use) -> Lock
    ensures waiting { result ≡ rows.waiting_lock who cookie wanted.now }
{
    Lock {
        cookie,
        resource: wanted.resource,
        ask: Ask {
            who,
            mode: wanted.mode,
            policy: wanted.policy,
        },
    }
}

/// A call whose lock was forgotten looks for it again, where that is one of this target's.
fn look_or_stay(work: Work, target: TargetId) -> Stage
    requires wanting { IsWanting (work_of work) }
    ensures looks { (slot : ℕ) (r : Running) → call_turn slot (Some (at_stage r (Forgotten (work_of work))))
        (looks_stage target.0 slot (at_stage r (Forgotten (work_of work))) (Forgotten (work_of work)))
        ≡ Some (at_stage r (stage_of result)) }
    ensures sound { IsStage (stage_of result) }
{
    match work.left.front() {
        Some(wanted) if wanted.target == target => Stage::Looks(work),
        _ => Stage::Forgotten(work),
    }
}
