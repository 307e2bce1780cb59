//! The objects that locks are on.

ghost use Rattle.std.specs.Prelude.{◌≡◌, ℕ, [], ◌∷◌, OnOk};
ghost use Rattle.lu_trace.specs.declared.entries.Line.{Line};
ghost use Rattle.lu_spec_laws.specs.Words.Pasts.{Past};
ghost use Rattle.lu_judge_glimpse.specs.Locks.{resource_in, put_step, ShowsLocks};

use lu_base::{Cookie, Lock, Memory, Node, Resource};
use lu_trace::{Entry, Line};
use std::alloc::Global;
use std::collections::HashMap;

/// What each target's lock of a cookie is on, by its last `grant` or `restore` line.
#[derive(Debug, Drop)]
pub struct Locks {
    by_cookie: HashMap<(u16, u64), Resource>,
}

impl Locks {
    /// Of no line. It takes no memory yet.
    pub fn new(alloc: Global) -> Locks
        ensures shows { ShowsLocks result [] }
    {
        Locks {
            by_cookie: HashMap::new(alloc),
        }
    }

    /// What the target's lock is on; none where it gave none with that cookie.
    pub fn get(&self, target: u16, cookie: Cookie) -> Option<Resource>
        ensures resource { result ≡ resource_in self.now target cookie.0 }
    {
        self.by_cookie.get(&(target, cookie.0)).copied()
    }

    /// A node gave a lock.
    fn put(&mut self, node: Node, lock: &Lock) -> Result<(), Memory>
        ensures shows { OnOk result ((target cookie : ℕ) → resource_in self.new target cookie
            ≡ put_step target cookie node lock.now (resource_in self.old target cookie)) }
    {
        match node {
            Node::Target(target) => {
                self.by_cookie
                    .insert((target, lock.cookie.0), lock.resource)?;
                Ok(())
            }
            Node::Client(_) => Ok(()),
        }
    }

    /// Takes in the next line. After want of memory nothing is known of the table.
    pub fn step(&mut self, line: &Line) -> Result<(), Memory>
        ensures shows { OnOk result ((past : Past) → ShowsLocks self.old past
            → ShowsLocks self.new (line.now ∷ past)) }
    {
        match &line.entry {
            Entry::Grant(lock) => self.put(line.at.node, lock),
            Entry::Restore(lock) => self.put(line.at.node, lock),
            _ => Ok(()),
        }
    }
}
