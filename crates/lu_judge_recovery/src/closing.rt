//! What a close decides: the lives that it evicts and why, the numbers that it keeps, the locks that it restores.

ghost use Rattle.std.specs.Prelude.{◌≡◌, ℕ, ◌==◌, ◌&&◌, ◌||◌, List, map, reverse, IsTrue, ◌↔◌, IfOk, OnOk, if◌then◌else◌};
ghost use Rattle.std.specs.HashSet.{contains_by};
ghost use Rattle.lu_base.specs.declared.ids.Who.{Who as WhoOf};
ghost use Rattle.lu_spec_laws.specs.Words.Pasts.{Past};
ghost use Rattle.lu_spec_laws.specs.Words.Lost.{is_among};
ghost use Rattle.lu_spec_laws.specs.Words.Boots.{boot};
ghost use Rattle.lu_spec_laws.specs.Words.Slots.{has_slot};
ghost use Rattle.lu_spec_laws.specs.Words.Handed.{handed, locks};
ghost use Rattle.lu_spec_laws.specs.Words.Learned.{heard_number, saw};
ghost use Rattle.lu_spec_laws.specs.Words.Closes.{lost_at, rests_on, cause_at, stays_at, restored_at, lock_of, is_lock, find_lock};
ghost use Rattle.lu_judge_pass.specs.Ledgers.{ShowsLedger};
ghost use Rattle.lu_judge_windows.specs.Windows.{ShowsWindows};
ghost use Rattle.lu_judge_recovery.specs.Closings.{KnowsClose, cause_among, cause_or_absent, lock_among, AreCauses};

use lu_base::{Ask, Cause, Cookie, Lock, Memory, Numbers, Resource, Who};
use lu_judge_pass::Ledger;
use lu_judge_windows::Windows;
use lu_msg::LockReplay;
use std::alloc::Global;
use std::collections::{HashMap, HashSet};

/// The lock that was handed in.
pub fn lock_of(replay: &LockReplay) -> Lock
    ensures { result ≡ lock_of replay.now }
{
    Lock {
        cookie: replay.cookie,
        resource: replay.resource,
        ask: Ask {
            who: replay.who,
            mode: replay.mode,
            policy: replay.policy,
        },
    }
}

/// Whether both are one cookie.
fn same_cookie(a: Cookie, b: Cookie) -> bool
    ensures { IsTrue result ↔ (a ≡ b) }
{
    a == b
}

/// Whether both are one resource.
fn same_resource(a: Resource, b: Resource) -> bool
    ensures { IsTrue result ↔ (a ≡ b) }
{
    a == b
}

/// Whether both ask for the same.
fn same_ask(a: Ask, b: Ask) -> bool
    ensures { IsTrue result ↔ (a ≡ b) }
{
    a == b
}

/// Whether both are one lock.
pub fn same_lock(a: Lock, b: Lock) -> bool
    ensures { IsTrue result ↔ (a ≡ b) }
{
    if !same_cookie(a.cookie, b.cookie) {
        return false;
    }
    if !same_resource(a.resource, b.resource) {
        return false;
    }
    same_ask(a.ask, b.ask)
}

/// What is known of a target where its window closes, next.
#[derive(Drop)]
pub struct Close<'b, 'a> {
    windows: &'b Windows<'a>,
    ledger: &'b Ledger<'a>,
    target: u16,
    /// The numbers that the close loses.
    lost: Numbers,
}

impl<'b, 'a> Close<'b, 'a> {
    /// A close of the target, next.
    pub fn new(
        windows: &'b Windows<'a>,
        ledger: &'b Ledger<'a>,
        target: u16,
    ) -> Result<Close<'b, 'a>, Memory>
        ensures knows { IfOk result (λ close. (past : Past) → ShowsLedger ledger.now past
            → ShowsWindows windows.now past
            → KnowsClose close target past) }
    {
        Ok(Close {
            windows,
            ledger,
            target,
            lost: windows.lost_at(ledger, target)?,
        })
    }

    /// Whether the life heard the reply to this transaction, or saw it.
    fn learned(&self, who: Who, number: u64) -> bool
        ensures learned { (t : ℕ) (past : Past) → KnowsClose self.now t past
            → result ≡ (heard_number t who number past || saw t who number past) }
    {
        self.windows.heard_number(self.target, who, number)
            || self.windows.saw(self.target, who, number)
    }

    /// Whether the life rests on what is lost.
    fn rests(&self, who: Who) -> bool
        ensures rests { (t : ℕ) (past : Past) → KnowsClose self.now t past
            → result ≡ rests_on t past who (lost_at t past) }
    {
        let lost = self.lost.as_slice();
        let mut place = 0;
        while place < lost.len() {
            if self.learned(who, lost[place]) {
                return true;
            }
            place += 1;
        }
        false
    }

    /// Why the close evicts the life, where it has a slot; none where it stays.
    pub fn cause(&self, who: Who) -> Option<Cause>
        ensures cause { (t : ℕ) (past : Past) → KnowsClose self.now t past → result ≡ cause_at t past who }
    {
        if !self.windows.is_back(self.ledger, self.target, who) {
            return Some(Cause::Absent);
        }
        if self.windows.has_newer(self.target, who) {
            return Some(Cause::Absent);
        }
        if self.rests(who) {
            Some(Cause::Gap)
        } else {
            None
        }
    }

    /// Whether the life has a slot.
    fn has_slot(&self, who: Who) -> bool
        ensures slot { (t : ℕ) (past : Past) → KnowsClose self.now t past → result ≡ has_slot t past who }
    {
        self.windows.has_slot(self.ledger, self.target, who)
    }

    /// The locks that were handed in, the first one first.
    pub fn handed(&self) -> &'b [&'a LockReplay]
        ensures handed { (t : ℕ) (past : Past) → KnowsClose self.now t past
            → reverse (map (λ r. r.now) result.now) ≡ locks (boot t past) (handed t past) }
    {
        self.windows.locks_handed(self.target)
    }
}

/// The causes of a close, by life, of lives with slots; none of a life that stays.
#[derive(Drop)]
pub struct Causes {
    by_life: HashMap<(u16, u32), Option<Cause>>,
}

impl Causes {
    /// Of these lives.
    pub fn of(alloc: Global, close: &Close<'_, '_>, lives: &[Who]) -> Result<Causes, Memory>
        ensures causes { IfOk result (λ causes. (t : ℕ) (past : Past) → KnowsClose close.now t past
            → AreCauses causes lives.now t past) }
    {
        let mut by_life = HashMap::new(alloc);
        let mut place = 0;
        while place < lives.len() {
            let who = lives[place];
            by_life.insert((who.client, who.life), close.cause(who))?;
            place += 1;
        }
        Ok(Causes { by_life })
    }

    /// The cause of a life, which may be none of these.
    pub fn cause(&self, close: &Close<'_, '_>, who: Who) -> Option<Cause>
        ensures cause { (t : ℕ) (past : Past) (lives : List WhoOf) → KnowsClose close.now t past
            → AreCauses self.now lives t past → result ≡ cause_at t past who }
    {
        match self.by_life.get(&(who.client, who.life)) {
            Some(cause) => *cause,
            None => close.cause(who),
        }
    }

    /// Whether the life has a slot and stays.
    pub fn stays(&self, close: &Close<'_, '_>, who: Who) -> bool
        ensures stays { (t : ℕ) (past : Past) (lives : List WhoOf) → KnowsClose close.now t past
            → AreCauses self.now lives t past → result ≡ stays_at t past who }
    {
        if !close.has_slot(who) {
            return false;
        }
        self.cause(close, who).is_none()
    }

    /// The cause of one of these lives; of another one that it is absent.
    pub fn among(&self, who: Who) -> Option<Cause>
        ensures cause { result ≡ cause_or_absent (cause_among self.now who) }
    {
        match self.by_life.get(&(who.client, who.life)) {
            Some(cause) => *cause,
            None => Some(Cause::Absent),
        }
    }
}

/// The locks that a close restores, by life and cookie.
#[derive(Drop)]
pub struct Restored {
    by_life: HashMap<((u16, u32), u64), Lock>,
}

impl Restored {
    /// Of a close with these causes.
    pub fn of(alloc: Global, close: &Close<'_, '_>, causes: &Causes) -> Result<Restored, Memory>
        ensures restored { IfOk result (λ restored. (t : ℕ) (past : Past) (lives : List WhoOf)
            → KnowsClose close.now t past → AreCauses causes.now lives t past
            → (who : WhoOf) (cookie : ℕ) → lock_among restored who cookie ≡ find_lock who cookie (restored_at t past)) }
    {
        let handed = close.handed();
        let mut restored = Restored {
            by_life: HashMap::new(alloc),
        };
        let mut place = 0;
        while place < handed.len() {
            restored.add(close, causes, handed[place])?;
            place += 1;
        }
        Ok(restored)
    }

    /// Adds a lock that was handed in, where its life stays.
    fn add(
        &mut self,
        close: &Close<'_, '_>,
        causes: &Causes,
        replay: &LockReplay,
    ) -> Result<(), Memory>
        ensures added { OnOk result ((t : ℕ) (past : Past) (lives : List WhoOf)
            → KnowsClose close.now t past → AreCauses causes.now lives t past
            → (who : WhoOf) (cookie : ℕ) → lock_among self.new who cookie
            ≡ (if stays_at t past replay.now.who && is_lock who cookie (lock_of replay.now)
            then Some (lock_of replay.now) else lock_among self.old who cookie)) }
    {
        if !causes.stays(close, replay.who) {
            return Ok(());
        }
        self.put(lock_of(replay))
    }

    /// Puts a lock in.
    fn put(&mut self, lock: Lock) -> Result<(), Memory>
        ensures put { OnOk result ((who : WhoOf) (cookie : ℕ) → lock_among self.new who cookie
            ≡ (if is_lock who cookie lock then Some lock else lock_among self.old who cookie)) }
    {
        let who = lock.ask.who;
        self.by_life
            .insert(((who.client, who.life), lock.cookie.0), lock)?;
        Ok(())
    }

    /// The lock of the life with the cookie; none where there is none.
    pub fn get(&self, who: Who, cookie: Cookie) -> Option<Lock>
        ensures lock { result ≡ lock_among self.now who cookie.0 }
    {
        self.by_life
            .get(&((who.client, who.life), cookie.0))
            .copied()
    }
}

/// A set of these numbers.
pub fn set_of(alloc: Global, numbers: &[u64]) -> Result<HashSet<u64>, Memory>
    ensures set { IfOk result (λ set. (n : ℕ) → contains_by (λ k. n == k) set ≡ is_among numbers.now n) }
{
    let mut set = HashSet::new(alloc);
    let mut place = 0;
    while place < numbers.len() {
        set.insert(numbers[place])?;
        place += 1;
    }
    Ok(set)
}
