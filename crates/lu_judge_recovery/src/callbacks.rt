//! The lives that targets called back since their boots, and the lives with granted locks.

ghost use Rattle.std.specs.Prelude.{◌≡◌, ℕ, ◌==◌, ◌&&◌, ◌||◌, not, [], ◌∷◌, false, if◌then◌else◌, OnOk, Some, None};
ghost use Rattle.std.specs.Option.{option_copied};
ghost use Rattle.std.specs.List.{list_any};
ghost use Rattle.lu_base.specs.declared.ids.Who.{Who as WhoOf};
ghost use Rattle.lu_trace.specs.declared.entries.Line.{Line};
ghost use Rattle.lu_spec_machine.specs.Tree.{same_life};
ghost use Rattle.lu_spec_laws.specs.Words.Pasts.{Past};
ghost use Rattle.lu_judge_recovery.specs.Turns.{line_at};
ghost use Rattle.lu_judge_recovery.specs.Callbacks.{lives_of, is_held, is_called, was_called, was_called_in, target_of, ShowsTarget, ShowsCallbacks};

use super::turns::Turn;
use lu_base::{Cookie, Memory, Node, Who};
use lu_trace::{Entry, Line};
use std::alloc::Global;
use std::collections::HashMap;

/// The lives with granted locks of one target, by cookie.
#[derive(Drop)]
pub struct Holders {
    alloc: Global,
    by_cookie: HashMap<u64, Vec<Who>>,
}

impl Holders {
    /// Of no lock.
    fn new(alloc: Global) -> Holders
        ensures none { (cookie : ℕ) → lives_of result cookie ≡ [] }
    {
        Holders {
            alloc,
            by_cookie: HashMap::new(alloc),
        }
    }

    /// The lives with a lock of this cookie.
    fn of(&self, cookie: Cookie) -> &[Who]
        ensures lives { result.now ≡ lives_of self.now cookie.0 }
    {
        match self.by_cookie.get(&cookie.0) {
            Some(lives) => lives.as_slice(),
            None => &[],
        }
    }

    /// Takes the lives with a lock of this cookie out.
    fn take(&mut self, cookie: Cookie) -> Vec<Who>
        ensures lives { result.items ≡ lives_of self.old cookie.0 }
        ensures rest { (c : ℕ) → lives_of self.new c ≡ (if cookie.0 == c then [] else lives_of self.old c) }
    {
        match self.by_cookie.remove(&cookie.0) {
            Some(lives) => lives,
            None => Vec::new(self.alloc),
        }
    }

    /// A lock is granted.
    fn grant(&mut self, cookie: Cookie, who: Who) -> Result<(), Memory>
        ensures held { OnOk result ((c : ℕ) (w : WhoOf) → is_held self.new c w
            ≡ ((cookie.0 == c && same_life who w) || is_held self.old c w)) }
    {
        let mut lives = self.take(cookie);
        lives.push(who)?;
        self.by_cookie.insert(cookie.0, lives)?;
        Ok(())
    }

    /// The locks of this cookie are given back.
    fn release(&mut self, cookie: Cookie)
        ensures held { (c : ℕ) (w : WhoOf) → is_held self.new c w
            ≡ (if cookie.0 == c then false else is_held self.old c w) }
    {
        self.by_cookie.remove(&cookie.0);
    }
}

/// When a life was called back: the stamp of one such turn, and whether there was one of another stamp.
#[derive(Clone, Copy)]
pub struct Calls {
    stamp: u64,
    several: bool,
}

/// The calls with one more at this stamp.
fn called_at(calls: Option<Calls>, stamp: u64) -> Calls
    ensures called { (s : ℕ) → is_called (Some result) s ≡ (not (stamp == s) || is_called calls s) }
{
    match calls {
        None => Calls {
            stamp,
            several: false,
        },
        Some(calls) => Calls {
            stamp: calls.stamp,
            several: calls.several || calls.stamp != stamp,
        },
    }
}

/// When one target called lives back since its boot.
#[derive(Drop)]
pub struct Called {
    by_life: HashMap<(u16, u32), Calls>,
}

impl Called {
    /// Of no call.
    fn new(alloc: Global) -> Called
        ensures none { (who : WhoOf) (s : ℕ) → was_called result who s ≡ false }
    {
        Called {
            by_life: HashMap::new(alloc),
        }
    }

    /// Whether the life was called back at another stamp than this one.
    fn was(&self, who: Who, stamp: u64) -> bool
        ensures called { result ≡ was_called self.now who stamp }
    {
        match self.by_life.get(&(who.client, who.life)) {
            Some(calls) => calls.stamp != stamp || calls.several,
            None => false,
        }
    }

    /// A life is called back.
    fn call(&mut self, stamp: u64, who: Who) -> Result<(), Memory>
        ensures called { OnOk result ((w : WhoOf) (s : ℕ) → was_called self.new w s
            ≡ ((same_life who w && not (stamp == s)) || was_called self.old w s)) }
    {
        let key = (who.client, who.life);
        let calls = called_at(self.by_life.get(&key).copied(), stamp);
        self.by_life.insert(key, calls)?;
        Ok(())
    }

    /// These lives are called back.
    fn call_all(&mut self, stamp: u64, lives: &[Who]) -> Result<(), Memory>
        ensures called { OnOk result ((w : WhoOf) (s : ℕ) → was_called self.new w s
            ≡ ((list_any (λ (who : WhoOf). same_life who w) lives.now && not (stamp == s))
            || was_called self.old w s)) }
    {
        let mut place = 0;
        while place < lives.len() {
            self.call(stamp, lives[place])?;
            place += 1;
        }
        Ok(())
    }
}

/// One target's granted locks and calls.
#[derive(Drop)]
pub struct TargetCalls {
    alloc: Global,
    holders: Holders,
    called: Called,
}

impl TargetCalls {
    /// Of no line.
    fn new(alloc: Global) -> TargetCalls
        ensures held { (cookie : ℕ) (who : WhoOf) → is_held result.holders cookie who ≡ false }
        ensures called { (who : WhoOf) (s : ℕ) → was_called result.called who s ≡ false }
    {
        TargetCalls {
            alloc,
            holders: Holders::new(alloc),
            called: Called::new(alloc),
        }
    }

    /// Takes in an entry of this turn.
    fn step(&mut self, turn: Turn, entry: &Entry) -> Result<(), Memory>
        ensures shows { OnOk result ((past : Past) → ShowsTarget self.old turn.target past
            → ShowsTarget self.new turn.target (line_at turn.stamp turn.target entry.now ∷ past)) }
    {
        match entry {
            Entry::Grant(lock) => self.holders.grant(lock.cookie, lock.ask.who),
            Entry::Restore(lock) => self.holders.grant(lock.cookie, lock.ask.who),
            Entry::Release(cookie) => {
                self.holders.release(*cookie);
                Ok(())
            }
            Entry::Block(cookie) => self.called.call_all(turn.stamp, self.holders.of(*cookie)),
            Entry::Crash => {
                self.holders = Holders::new(self.alloc);
                Ok(())
            }
            Entry::Boot(_) => {
                self.called = Called::new(self.alloc);
                Ok(())
            }
            _ => Ok(()),
        }
    }
}

/// The granted locks and the calls of each target.
#[derive(Drop)]
pub struct Callbacks {
    alloc: Global,
    by_target: HashMap<u16, TargetCalls>,
}

impl Callbacks {
    /// Of no line. It takes no memory yet.
    pub fn new(alloc: Global) -> Callbacks
        ensures shows { ShowsCallbacks result [] }
    {
        Callbacks {
            alloc,
            by_target: HashMap::new(alloc),
        }
    }

    /// Whether the turn's target, since its boot, called the life back in another turn so far.
    pub fn was_called(&self, turn: Turn, who: Who) -> bool
        ensures called { result ≡ was_called_in self.now turn.stamp turn.target who }
    {
        match self.by_target.get(&turn.target) {
            Some(target) => target.called.was(who, turn.stamp),
            None => false,
        }
    }

    /// Takes the table of the target out; a new one where there is none.
    fn take(&mut self, target: u16) -> TargetCalls
        ensures shows { (past : Past) → ShowsCallbacks self.old past → ShowsTarget result target past }
        ensures rest { (t : ℕ) → (target == t) ≡ false → target_of self.new t ≡ target_of self.old t }
    {
        match self.by_target.remove(&target) {
            Some(here) => here,
            None => TargetCalls::new(self.alloc),
        }
    }

    /// Takes in an entry of this turn.
    fn note(&mut self, turn: Turn, entry: &Entry) -> Result<(), Memory>
        ensures shows { OnOk result ((past : Past) → ShowsCallbacks self.old past
            → ShowsCallbacks self.new (line_at turn.stamp turn.target entry.now ∷ past)) }
    {
        let mut here = self.take(turn.target);
        here.step(turn, entry)?;
        self.by_target.insert(turn.target, here)?;
        Ok(())
    }

    /// Takes in the next line. After want of memory nothing is known of the table.
    pub fn step(&mut self, line: &Line) -> Result<(), Memory>
        ensures shows { OnOk result ((past : Past) → ShowsCallbacks self.old past
            → ShowsCallbacks self.new (line.now ∷ past)) }
    {
        match line.at.node {
            Node::Client(_) => Ok(()),
            Node::Target(target) => match &line.entry {
                Entry::Grant(_)
                | Entry::Restore(_)
                | Entry::Release(_)
                | Entry::Block(_)
                | Entry::Crash
                | Entry::Boot(_) => {
                    let turn = Turn {
                        stamp: line.at.stamp.0,
                        target,
                    };
                    self.note(turn, &line.entry)
                }
                _ => Ok(()),
            },
        }
    }
}
