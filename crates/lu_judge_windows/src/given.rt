//! The locks that targets gave.

ghost use Rattle.std.specs.Prelude.{◌≡◌, ℕ, if◌then◌else◌, Some, [], ◌∷◌, OnOk};
ghost use Rattle.std.specs.Option.{option_map};
ghost use Rattle.lu_trace.specs.declared.entries.Line.{Line};
ghost use Rattle.lu_base.specs.declared.ids.Who.{Who as SpecWho};
ghost use Rattle.lu_spec_laws.specs.Words.Pasts.{Past};
ghost use Rattle.lu_spec_laws.specs.Words.Held.{is_given};
ghost use Rattle.lu_judge_windows.specs.Shown.{given_in, ShowsGiven};

use lu_base::{Cookie, Lock, Memory, Node, Who};
use lu_trace::{Entry, Line};
use std::alloc::Global;
use std::collections::HashMap;

/// The locks that targets granted or restored so far: of each target, cookie and life the last one.
#[derive(Debug, Drop)]
pub(crate) struct Given<'a> {
    by_name: HashMap<((u16, u64), (u16, u32)), &'a Lock>,
}

impl<'a> Given<'a> {
    /// Of no line. It takes no memory yet.
    pub(crate) fn new(alloc: Global) -> Given<'a>
        ensures shows { ShowsGiven result [] }
    {
        Given {
            by_name: HashMap::new(alloc),
        }
    }

    /// The lock that the target gave last to the life under the cookie; none where it gave none.
    pub(crate) fn get(&self, target: u16, who: Who, cookie: Cookie) -> Option<&'a Lock>
        ensures given { option_map (λ lock. lock.now) result ≡ given_in self.now target who cookie.0 }
    {
        self.by_name
            .get(&((target, cookie.0), (who.client, who.life)))
            .copied()
    }

    /// Takes in the next line. After want of memory nothing is known of the table.
    pub(crate) fn step(&mut self, line: &'a Line) -> Result<(), Memory>
        ensures shows { OnOk result ((past : Past) → ShowsGiven self.old past
            → ShowsGiven self.new (line.now ∷ past)) }
    {
        match &line.entry {
            Entry::Grant(lock) => self.give(line.at.node, lock),
            Entry::Restore(lock) => self.give(line.at.node, lock),
            _ => Ok(()),
        }
    }

    /// The node, where it is a target, gives the lock.
    fn give(&mut self, node: Node, lock: &'a Lock) -> Result<(), Memory>
        ensures gives { OnOk result ((target : ℕ) (who : SpecWho) (cookie : ℕ) →
            given_in self.new target who cookie
            ≡ (if is_given target who cookie node lock.now then Some lock.now
            else given_in self.old target who cookie)) }
    {
        match node {
            Node::Target(target) => {
                let name = (
                    (target, lock.cookie.0),
                    (lock.ask.who.client, lock.ask.who.life),
                );
                self.by_name.insert(name, lock)?;
                Ok(())
            }
            Node::Client(_) => Ok(()),
        }
    }
}
