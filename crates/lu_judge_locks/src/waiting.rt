//! The locks that wait at targets, in the order of their arrival.

ghost use Rattle.std.specs.Prelude.{◌≡◌, ℕ, ◌+◌, true, ◌==◌, ◌&&◌, if◌then◌else◌, List, [], drop, map, filter, slice_get, IfOk, IfSome, OnOk};
ghost use Rattle.std.specs.Option.{option_map};
ghost use Rattle.lu_spec_machine.specs.Tree.{same_life};
ghost use Rattle.lu_judge_locks.specs.Arrivals.{first_of, without_that};
ghost use Rattle.lu_judge_locks.specs.Lists.{Arrival, arrival_of, lasts, lasting_on};
ghost use Rattle.lu_judge_locks.specs.Queues.{passed_in, Came, Gone, ShowsWaiting};

use super::lists::{LockLists, Placed};
use lu_base::{Cookie, Memory, Resource, Who};
use std::alloc::Global;
use std::collections::HashMap;

/// The locks that wait: by resource, and by cookie. A cookie's queue has all that came; of these the first ones, so many as
/// are passed, wait no longer, and of the others those that were ended.
#[derive(Debug, Drop)]
pub(crate) struct Waiting<'a> {
    alloc: Global,
    lists: LockLists<'a>,
    queues: HashMap<(u16, u64), Vec<Placed<'a>>>,
    passed: HashMap<(u16, u64), usize>,
}

impl<'a> Waiting<'a> {
    /// No lock. It takes no memory yet.
    pub(crate) fn new(alloc: Global) -> Waiting<'a>
        ensures shows { ShowsWaiting result 0 (λ _. []) }
    {
        Waiting {
            alloc,
            lists: LockLists::new(alloc),
            queues: HashMap::new(alloc),
            passed: HashMap::new(alloc),
        }
    }

    /// The locks that wait at the target for the resource, in the order of their arrival.
    pub(crate) fn on(&self, target: u16, resource: Resource) -> Result<Vec<Placed<'a>>, Memory>
        ensures { IfOk result (λ waiting. map arrival_of waiting.items ≡ lasting_on self.now.lists target resource) }
    {
        self.lists.lasting(target, resource)
    }

    /// The first lock of the cookie that waits at the target; none where none does.
    pub(crate) fn first(&self, target: u16, cookie: Cookie) -> Option<Placed<'a>>
        ensures first { (place : ℕ) (all : ℕ → List Arrival) → ShowsWaiting self.now place all
            → option_map arrival_of result ≡ first_of cookie.0 (all target) }
    {
        match self.queues.get(&(target, cookie.0)) {
            Some(list) => {
                let queue = list.as_slice();
                let at = self.next(target, queue, self.passed(target, cookie));
                get_at(queue, at)
            }
            None => None,
        }
    }

    /// How many of the cookie's queue wait no longer, being the first ones.
    fn passed(&self, target: u16, cookie: Cookie) -> usize
        ensures { result ≡ passed_in self.now target cookie.0 }
    {
        self.passed.get(&(target, cookie.0)).copied().unwrap_or(0)
    }

    /// The place in the queue, from that one on, of the first lock that waits; past all where none does.
    fn next(&self, target: u16, queue: &[Placed<'a>], from: usize) -> usize
        ensures over { filter (λ p. lasts self.now.lists target (arrival_of p)) (drop result queue.now)
            ≡ filter (λ p. lasts self.now.lists target (arrival_of p)) (drop from queue.now) }
        ensures waits { IfSome (slice_get queue.now result) (λ p. lasts self.now.lists target (arrival_of p) ≡ true) }
    {
        let mut at = from;
        while at < queue.len() && !self.lists.lasts(target, &queue[at]) {
            at += 1;
        }
        at
    }

    /// A lock comes to wait at the target. After want of memory nothing is known of the table.
    pub(crate) fn wait(&mut self, target: u16, placed: Placed<'a>) -> Result<(), Memory>
        ensures came { OnOk result (Came self.old self.new target (arrival_of placed.entry)) }
    {
        self.lists.add(target, placed)?;
        let name = (target, placed.lock.cookie.0);
        let mut queue = self.queues.remove(&name).unwrap_or(Vec::new(self.alloc));
        queue.push(placed)?;
        self.queues.insert(name, queue)?;
        Ok(())
    }

    /// The first lock of the cookie waits no longer, where one does; and what waits no longer for the resource is let go.
    /// After want of memory nothing is known of the table.
    pub(crate) fn grant(
        &mut self,
        target: u16,
        cookie: Cookie,
        resource: Resource,
    ) -> Result<(), Memory>
        ensures granted { OnOk result ((place : ℕ) (all more : ℕ → List Arrival) → ShowsWaiting self.old place all
            → ((t : ℕ) → more t ≡ (if target == t then without_that (first_of cookie.0 (all t)) (all t) else all t))
            → ShowsWaiting self.new (place + 1) more) }
    {
        self.pass(target, cookie)?;
        self.lists.sweep(target, resource)
    }

    /// The first lock of the cookie waits no longer, where one does; else the cookie's queue is let go. After want of memory
    /// nothing is known of the table.
    fn pass(&mut self, target: u16, cookie: Cookie) -> Result<(), Memory>
        ensures granted { OnOk result ((place : ℕ) (all more : ℕ → List Arrival) → ShowsWaiting self.old place all
            → ((t : ℕ) → more t ≡ (if target == t then without_that (first_of cookie.0 (all t)) (all t) else all t))
            → ShowsWaiting self.new (place + 1) more) }
    {
        let name = (target, cookie.0);
        let Some(list) = self.queues.get(&name) else {
            return Ok(());
        };
        let queue = list.as_slice();
        let at = self.next(target, queue, self.passed(target, cookie));
        let Some(first) = get_at(queue, at) else {
            self.queues.remove(&name);
            self.passed.remove(&name);
            return Ok(());
        };
        self.lists.end_one(target, first.place)?;
        self.passed.insert(name, at + 1)?;
        Ok(())
    }

    /// No lock of the life that came to the target before this line waits. After want of memory nothing is known of the
    /// table.
    pub(crate) fn evict(&mut self, target: u16, who: Who, place: usize) -> Result<(), Memory>
        ensures gone { OnOk result (Gone self.old self.new place (λ t a. target == t && same_life who a.lock.ask.who)) }
    {
        self.lists.end_life(target, who, place)
    }

    /// No lock that came to the target before this line waits. After want of memory nothing is known of the table.
    pub(crate) fn crash(&mut self, target: u16, place: usize) -> Result<(), Memory>
        ensures gone { OnOk result (Gone self.old self.new place (λ t _. target == t)) }
    {
        self.lists.end_target(target, place)
    }
}

/// The lock at the place, from 0; none past the last.
fn get_at<'a>(queue: &[Placed<'a>], at: usize) -> Option<Placed<'a>>
    ensures { result ≡ slice_get queue.now at }
{
    queue.get(at).copied()
}
