//! The locks that `grant` and `restore` lines name, and what the grant of a lock lets its holder see.

ghost use Rattle.std.specs.Prelude.{◌≡◌, [], ◌∷◌, IfOk, OnOk};
ghost use Rattle.std.specs.Option.{option_map};
ghost use Rattle.lu_trace.specs.declared.entries.Line.{Line};
ghost use Rattle.lu_spec_laws.specs.Words.Pasts.{Past};
ghost use Rattle.lu_spec_laws.specs.Words.Seen.{policy_touches, notice_touches};
ghost use Rattle.lu_judge_recovery.specs.Noted.{granted_in, restored_in, ShowsNoted};

use lu_base::{Cookie, Lock, Memory, Node, Policy, Resource};
use lu_judge_names::range;
use lu_msg::GrantNotice;
use lu_part::Parts;
use lu_trace::{Entry, Line};
use std::alloc::Global;
use std::collections::HashMap;

/// Of each target and cookie the locks of the last `grant` line and of the last `restore` line.
#[derive(Drop)]
pub struct Noted<'a> {
    granted: HashMap<(u16, u64), &'a Lock>,
    restored: HashMap<(u16, u64), &'a Lock>,
}

/// What a lock on the resource with this policy lets its holder see.
fn policy_touches(alloc: Global, resource: Resource, policy: Policy) -> Result<Parts, Memory>
    ensures touches { IfOk result (λ parts. parts ≡ policy_touches resource policy) }
{
    match policy {
        Policy::Range(extent) => range(alloc, resource, extent.first, extent.last),
        Policy::Bits(_) => Ok(Parts::new(alloc)),
    }
}

impl<'a> Noted<'a> {
    /// Of no line. It takes no memory yet.
    pub fn new(alloc: Global) -> Noted<'a>
        ensures shows { ShowsNoted result [] }
    {
        Noted {
            granted: HashMap::new(alloc),
            restored: HashMap::new(alloc),
        }
    }

    /// The lock of the target's last `grant` line with this cookie; none where there is none.
    fn granted(&self, target: u16, cookie: Cookie) -> Option<&'a Lock>
        ensures granted { option_map (λ lock. lock.now) result ≡ granted_in self.now target cookie.0 }
    {
        self.granted.get(&(target, cookie.0)).copied()
    }

    /// The lock of the target's last `restore` line with this cookie; none where there is none.
    fn restored(&self, target: u16, cookie: Cookie) -> Option<&'a Lock>
        ensures restored { option_map (λ lock. lock.now) result ≡ restored_in self.now target cookie.0 }
    {
        self.restored.get(&(target, cookie.0)).copied()
    }

    /// What a message of the target that grants a lock lets its holder see.
    pub fn touches(&self, alloc: Global, target: u16, notice: &GrantNotice) -> Result<Parts, Memory>
        ensures touches { IfOk result (λ parts. (past : Past) → ShowsNoted self.now past
            → parts ≡ notice_touches target past notice.now) }
    {
        if let Some(lock) = self.granted(target, notice.cookie) {
            return policy_touches(alloc, lock.resource, lock.ask.policy);
        }
        match self.restored(target, notice.cookie) {
            Some(lock) => range(
                alloc,
                lock.resource,
                notice.extent.first,
                notice.extent.last,
            ),
            None => Ok(Parts::new(alloc)),
        }
    }

    /// Takes in the next line. After want of memory nothing is known of the table.
    pub fn step(&mut self, line: &'a Line) -> Result<(), Memory>
        ensures shows { OnOk result ((past : Past) → ShowsNoted self.old past
            → ShowsNoted self.new (line.now ∷ past)) }
    {
        match line.at.node {
            Node::Client(_) => Ok(()),
            Node::Target(target) => match &line.entry {
                Entry::Grant(lock) => {
                    self.granted.insert((target, lock.cookie.0), lock)?;
                    Ok(())
                }
                Entry::Restore(lock) => {
                    self.restored.insert((target, lock.cookie.0), lock)?;
                    Ok(())
                }
                _ => Ok(()),
            },
        }
    }
}
