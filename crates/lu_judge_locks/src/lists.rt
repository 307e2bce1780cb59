//! The locks of targets in the order of their lines, by resource, and which of them were ended.

ghost use Rattle.std.specs.Prelude.{◌≡◌, ℕ, ◌<◌, ◌==◌, ◌&&◌, map, filter, IfOk, OnOk};
ghost use Rattle.lu_spec_machine.specs.Tree.{same_life};
ghost use Rattle.lu_judge_locks.specs.Lists.{arrival_of, ended_at_cookie, ended_at_life, lasts, lasting_on, Swept, Adds, Ends, IsEmpty};

use lu_base::{Cookie, Lock, Memory, Resource, Who};
use std::alloc::Global;
use std::collections::{HashMap, HashSet};

/// A lock in a line of a target.
#[derive(Clone, Copy, Debug)]
pub(crate) struct Placed<'a> {
    /// How many lines stand before its line.
    pub(crate) place: usize,
    pub(crate) lock: &'a Lock,
}

/// The locks that came to each target, by resource and in the order of their lines. Some were ended: all that came to a
/// target before some line, all of a cookie or of a life, or one of them. What was ended may still stand in its list.
#[derive(Debug, Drop)]
pub(crate) struct LockLists<'a> {
    alloc: Global,
    /// The line before which all locks of a target were ended.
    targets: HashMap<u16, usize>,
    /// The same for those of a cookie.
    cookies: HashMap<(u16, u64), usize>,
    /// The same for those of a life.
    lives: HashMap<(u16, (u16, u32)), usize>,
    /// The lines whose locks were ended one by one.
    single: HashSet<(u16, usize)>,
    lists: HashMap<(u16, (u64, u16)), Vec<Placed<'a>>>,
}

impl<'a> LockLists<'a> {
    /// No lock. It takes no memory yet.
    pub(crate) fn new(alloc: Global) -> LockLists<'a>
        ensures { IsEmpty result }
    {
        LockLists {
            alloc,
            targets: HashMap::new(alloc),
            cookies: HashMap::new(alloc),
            lives: HashMap::new(alloc),
            single: HashSet::new(alloc),
            lists: HashMap::new(alloc),
        }
    }

    /// Whether a lock that came to the target wasn't ended.
    pub(crate) fn lasts(&self, target: u16, placed: &Placed<'a>) -> bool
        ensures { result ≡ lasts self.now target (arrival_of placed.now) }
    {
        let place = placed.place;
        let who = placed.lock.ask.who;
        self.targets.get(&target).copied().unwrap_or(0) <= place
            && self.after_cookie(target, placed.lock.cookie) <= place
            && self.after_life(target, who) <= place
            && !self.single.contains(&(target, place))
    }

    /// The line before which all locks of this cookie were ended.
    fn after_cookie(&self, target: u16, cookie: Cookie) -> usize
        ensures { result ≡ ended_at_cookie self.now target cookie.0 }
    {
        self.cookies.get(&(target, cookie.0)).copied().unwrap_or(0)
    }

    /// The line before which all locks of this life were ended.
    fn after_life(&self, target: u16, who: Who) -> usize
        ensures { result ≡ ended_at_life self.now target who }
    {
        self.lives
            .get(&(target, (who.client, who.life)))
            .copied()
            .unwrap_or(0)
    }

    /// The locks of the target on the resource that weren't ended, in the order of their lines.
    pub(crate) fn lasting(&self, target: u16, resource: Resource) -> Result<Vec<Placed<'a>>, Memory>
        ensures { IfOk result (λ lasting. map arrival_of lasting.items ≡ lasting_on self.now target resource) }
    {
        let key = (target, (resource.fid.0, resource.stripe));
        match self.lists.get(&key) {
            Some(list) => self.lasting_of(target, list),
            None => Ok(Vec::new(self.alloc)),
        }
    }

    /// Those of a list that weren't ended.
    fn lasting_of(&self, target: u16, list: &[Placed<'a>]) -> Result<Vec<Placed<'a>>, Memory>
        ensures { IfOk result (λ lasting. lasting.items
            ≡ filter (λ placed. lasts self.now target (arrival_of placed)) list.now) }
    {
        let mut lasting = Vec::new(self.alloc);
        for placed in list {
            if self.lasts(target, placed) {
                lasting.push(*placed)?;
            }
        }
        Ok(lasting)
    }

    /// Lets go of the locks of the target on the resource that were ended. After want of memory nothing is known of the
    /// lists.
    pub(crate) fn sweep(&mut self, target: u16, resource: Resource) -> Result<(), Memory>
        ensures swept { OnOk result (Swept self.old self.new target resource) }
    {
        let lasting = self.lasting(target, resource)?;
        let key = (target, (resource.fid.0, resource.stripe));
        self.lists.insert(key, lasting)?;
        Ok(())
    }

    /// A lock comes to the target in this line. After want of memory nothing is known of the lists.
    pub(crate) fn add(&mut self, target: u16, placed: Placed<'a>) -> Result<(), Memory>
        ensures added { OnOk result (Adds self.old self.new target (arrival_of placed.entry)) }
    {
        let resource = placed.lock.resource;
        let mut list = self.lasting(target, resource)?;
        list.push(placed)?;
        let key = (target, (resource.fid.0, resource.stripe));
        self.lists.insert(key, list)?;
        Ok(())
    }

    /// All locks of the target that came before this line are ended. After want of memory nothing is known of the lists.
    pub(crate) fn end_target(&mut self, target: u16, place: usize) -> Result<(), Memory>
        ensures ends { OnOk result (Ends self.old self.new place (λ t _. target == t)) }
    {
        self.targets.insert(target, place)?;
        Ok(())
    }

    /// The same for those of the cookie.
    pub(crate) fn end_cookie(
        &mut self,
        target: u16,
        cookie: Cookie,
        place: usize,
    ) -> Result<(), Memory>
        ensures ends { OnOk result (Ends self.old self.new place (λ t a. target == t && cookie.0 == a.lock.cookie.0)) }
    {
        self.cookies.insert((target, cookie.0), place)?;
        Ok(())
    }

    /// The same for those of the life.
    pub(crate) fn end_life(&mut self, target: u16, who: Who, place: usize) -> Result<(), Memory>
        ensures ends { OnOk result (Ends self.old self.new place (λ t a. target == t && same_life who a.lock.ask.who)) }
    {
        self.lives.insert((target, (who.client, who.life)), place)?;
        Ok(())
    }

    /// The lock that came to the target in one line before this one is ended. After want of memory nothing is known of the
    /// lists.
    pub(crate) fn end_one(&mut self, target: u16, one: usize) -> Result<(), Memory>
        ensures ends { OnOk result ((place : ℕ) → one < place
            → Ends self.old self.new place (λ t a. target == t && one == a.place)) }
    {
        self.single.insert((target, one))?;
        Ok(())
    }
}
