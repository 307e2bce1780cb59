//! The locks that are granted at targets, and those that wait there.

ghost use Rattle.std.specs.Prelude.{◌≡◌, ℕ, ◌+◌, ◌==◌, List, [], ◌∷◌, length, reverse, map, IfOk, OnOk};
ghost use Rattle.std.specs.Option.{option_map};
ghost use Rattle.lu_trace.specs.declared.entries.Line.{Line};
ghost use Rattle.lu_spec_laws.specs.Words.Pasts.{Past};
ghost use Rattle.lu_spec_laws.specs.Words.Queues.{on, asks, granted, waiting, waits};
ghost use Rattle.lu_judge_locks.specs.Arrivals.{granted_with, waiting_with};
ghost use Rattle.lu_judge_locks.specs.Lists.{Arrival, ShowsLists};
ghost use Rattle.lu_judge_locks.specs.Queues.{ShowsWaiting, ShowsQueues};

use super::lists::{LockLists, Placed};
use super::waiting::Waiting;
use lu_base::{Ask, Cookie, Lock, Memory, Node, Resource};
use lu_trace::{Entry, Line};
use std::alloc::Global;

/// The locks of targets.
#[derive(Debug, Drop)]
pub(crate) struct Queues<'a> {
    alloc: Global,
    granted: LockLists<'a>,
    waiting: Waiting<'a>,
}

impl<'a> Queues<'a> {
    /// Of no line. It takes no memory yet.
    pub(crate) fn new(alloc: Global) -> Queues<'a>
        ensures shows { ShowsQueues result [] }
    {
        Queues {
            alloc,
            granted: LockLists::new(alloc),
            waiting: Waiting::new(alloc),
        }
    }

    /// The asks of the locks that are granted at the target on the resource, the newest first.
    pub(crate) fn granted(&self, target: u16, resource: Resource) -> Result<Vec<Ask>, Memory>
        ensures granted { IfOk result (λ all. (past : Past) → ShowsQueues self.now past
            → all.items ≡ asks (on resource (granted target past))) }
    {
        let granted = self.granted.lasting(target, resource)?;
        newest_first(self.alloc, &granted)
    }

    /// The locks that wait at the target for the resource, in the order of their arrival.
    pub(crate) fn waiting(&self, target: u16, resource: Resource) -> Result<Vec<Placed<'a>>, Memory>
        ensures waiting { IfOk result (λ all. (past : Past) → ShowsQueues self.now past
            → map (λ p. p.lock.now) all.items ≡ on resource (waiting target past)) }
    {
        self.waiting.on(target, resource)
    }

    /// The first lock of the cookie that waits at the target; none where none does.
    pub(crate) fn waits(&self, target: u16, cookie: Cookie) -> Option<&'a Lock>
        ensures waits { (past : Past) → ShowsQueues self.now past
            → option_map (λ lock. lock.now) result ≡ waits target cookie.0 past }
    {
        match self.waiting.first(target, cookie) {
            Some(placed) => Some(placed.lock),
            None => None,
        }
    }

    /// Takes in the next line, before which so many stand. After want of memory nothing is known of the tables.
    pub(crate) fn step(&mut self, line: &'a Line, place: usize) -> Result<(), Memory>
        ensures shows { OnOk result ((past : Past) → place ≡ length past → ShowsQueues self.old past
            → ShowsQueues self.new (line.now ∷ past)) }
    {
        match line.at.node {
            Node::Target(target) => {
                self.step_granted(target, &line.entry, place)?;
                self.step_waiting(target, &line.entry, place)?;
                Ok(())
            }
            Node::Client(_) => Ok(()),
        }
    }

    /// Takes in the next line of the target, as for what is granted.
    fn step_granted(&mut self, target: u16, entry: &'a Entry, place: usize) -> Result<(), Memory>
        ensures granted { OnOk result ((all : ℕ → List Arrival) → ShowsLists self.old.granted place all
            → ShowsLists self.new.granted (place + 1) (λ t. granted_with (target == t) place entry.now (all t))) }
        ensures waiting { OnOk result (self.new.waiting ≡ self.old.waiting) }
    {
        match entry {
            Entry::Grant(lock) => self.granted.add(target, Placed { place, lock }),
            Entry::Restore(lock) => self.granted.add(target, Placed { place, lock }),
            Entry::Release(cookie) => self.granted.end_cookie(target, *cookie, place),
            Entry::Crash => self.granted.end_target(target, place),
            _ => Ok(()),
        }
    }

    /// The same, as for what waits.
    fn step_waiting(&mut self, target: u16, entry: &'a Entry, place: usize) -> Result<(), Memory>
        ensures waiting { OnOk result ((all : ℕ → List Arrival) → ShowsWaiting self.old.waiting place all
            → ShowsWaiting self.new.waiting (place + 1) (λ t. waiting_with (target == t) place entry.now (all t))) }
        ensures granted { OnOk result (self.new.granted ≡ self.old.granted) }
    {
        match entry {
            Entry::Wait(lock) => self.waiting.wait(target, Placed { place, lock }),
            Entry::Grant(lock) => self.waiting.grant(target, lock.cookie, lock.resource),
            Entry::Evict { who, .. } => self.waiting.evict(target, *who, place),
            Entry::Crash => self.waiting.crash(target, place),
            _ => Ok(()),
        }
    }
}

/// The asks of these locks, the last one first.
fn newest_first(alloc: Global, locks: &[Placed<'_>]) -> Result<Vec<Ask>, Memory>
    ensures { IfOk result (λ all. all.items ≡ map (λ p. p.lock.now.ask) (reverse locks.now)) }
{
    let all = locks
        .iter()
        .rev()
        .map(|placed| placed.lock.ask)
        .collect(alloc)?;
    Ok(all)
}
