//! A held lock, and what is asked of it (this project's profile).

ghost use Rattle.std.specs.Prelude.{◌≡◌};
ghost use Rattle.lu_held.specs.Locks.{name_of, after, same_resource, reaches_end, holds_offset, is_for, serves_use, matches, is_free};
ghost use Rattle.lu_held.specs.Kept.{of_marked, target_of};
ghost use Rattle.lu_base.specs.declared.locks.Policy.TheVariants as policy;
ghost use Rattle.lu_lock.specs.Overlap.{covers};

use super::names::LockName;
use lu_base::{Extent, Lock, Mode, Policy, Resource, TargetId};
use lu_lock::serves;

/// A lock that the client holds.
#[derive(Clone, Copy, Debug, PartialEq, Eq)]
pub struct HeldLock {
    /// The target that granted it.
    pub target: TargetId,
    pub lock: Lock,
    /// How often it was pinned and not unpinned since; at most 2^64 - 1.
    pub pins: u64,
    /// Whether it is to be given back: called back, or unused for long.
    pub marked: bool,
}

/// What a call does to one held lock.
#[derive(Clone, Copy, Debug, PartialEq, Eq)]
pub enum Change {
    Mark,
    Unmark,
    Pin,
    Unpin,
}

/// A use that wants a lock.
#[derive(Clone, Copy, Debug, PartialEq, Eq)]
pub struct Use {
    pub target: TargetId,
    pub resource: Resource,
    pub mode: Mode,
    pub policy: Policy,
}

/// Which held locks are looked for.
#[derive(Clone, Copy, Debug, PartialEq, Eq)]
pub enum Wanted {
    /// Those of a target.
    Of(TargetId),
    /// The marked ones of a target.
    Marked(TargetId),
    /// The marked ones that aren't pinned.
    Ready,
    /// Those that serve a use and aren't marked.
    Serving(Use),
    /// The same, where the lock reaches the end.
    ServingToTheEnd(Use),
    /// Those that hold this offset of an object and aren't marked.
    Holding(TargetId, Resource, u64),
}

/// Whether both are one resource.
fn same_resource(one: Resource, other: Resource) -> bool
    ensures { result ≡ same_resource one other }
{
    one == other
}

/// Whether it is a range to the end.
fn reaches_end(policy: Policy) -> bool
    ensures { result ≡ reaches_end policy }
{
    match policy {
        Policy::Range(extent) => extent.last == u64::MAX,
        Policy::Bits(_) => false,
    }
}

/// Whether it is a range that holds this offset.
fn holds_offset(policy: Policy, offset: u64) -> bool
    ensures { result ≡ holds_offset offset policy }
{
    match policy {
        Policy::Range(extent) => extent.first <= offset && offset <= extent.last,
        Policy::Bits(_) => false,
    }
}

/// Whether the first covers all that the second does.
fn covers(outer: Policy, inner: Policy) -> bool
    ensures { result ≡ covers outer inner }
{
    match (outer, inner) {
        (Policy::Bits(outer), Policy::Bits(inner)) => outer & inner == inner,
        (Policy::Range(outer), Policy::Range(inner)) => holds_extent(outer, inner),
        _ => false,
    }
}

/// Whether the first extent holds the second.
fn holds_extent(outer: Extent, inner: Extent) -> bool
    ensures { result ≡ covers (policy.Range outer) (policy.Range inner) }
{
    outer.first <= inner.first && inner.last <= outer.last
}

impl HeldLock {
    /// The name under which it is held.
    pub(crate) fn name(&self) -> LockName
        ensures { result ≡ name_of self.now }
    {
        LockName {
            target: self.target,
            cookie: self.lock.cookie,
        }
    }

    /// The lock once this was done to it.
    pub(crate) fn after(&self, change: Change) -> HeldLock
        ensures { result ≡ after change self.now }
    {
        let mut held = *self;
        match change {
            Change::Mark => held.marked = true,
            Change::Unmark => held.marked = false,
            Change::Pin => held.pins = held.pins.saturating_add(1),
            Change::Unpin => held.pins = held.pins.saturating_sub(1),
        }
        held
    }

    /// Whether it is of that target, on that resource, and not marked.
    fn is_for(&self, target: TargetId, resource: Resource) -> bool
        ensures { result ≡ is_for target resource self.now }
    {
        self.target == target && same_resource(self.lock.resource, resource) && !self.marked
    }

    /// Whether it serves this use and isn't marked.
    fn serves_use(&self, wanted: Use) -> bool
        ensures { result ≡ serves_use wanted self.now }
    {
        self.is_for(wanted.target, wanted.resource)
            && serves(self.lock.ask.mode, wanted.mode)
            && covers(self.lock.ask.policy, wanted.policy)
    }

    /// Whether it is one of those that are looked for.
    pub(crate) fn matches(&self, wanted: Wanted) -> bool
        ensures { result ≡ matches wanted self.now }
    {
        match wanted {
            Wanted::Of(target) => self.target == target,
            Wanted::Marked(target) => self.target == target && self.marked,
            Wanted::Ready => self.marked && self.pins == 0,
            Wanted::Serving(wanted) => self.serves_use(wanted),
            Wanted::ServingToTheEnd(wanted) => {
                self.serves_use(wanted) && reaches_end(self.lock.ask.policy)
            }
            Wanted::Holding(target, resource, offset) => {
                self.is_for(target, resource) && holds_offset(self.lock.ask.policy, offset)
            }
        }
    }

    /// Whether it is neither pinned nor marked.
    pub(crate) fn is_free(&self) -> bool
        ensures { result ≡ is_free self.now }
    {
        self.pins == 0 && !self.marked
    }
}

impl Wanted {
    /// Whether only marked locks are looked for.
    pub(crate) fn is_of_marked(&self) -> bool
        ensures { result ≡ of_marked self.now }
    {
        match self {
            Wanted::Marked(_) | Wanted::Ready => true,
            _ => false,
        }
    }

    /// The target of which locks are looked for, if it is one.
    pub(crate) fn target(&self) -> Option<TargetId>
        ensures { result ≡ target_of self.now }
    {
        match *self {
            Wanted::Of(target) | Wanted::Marked(target) => Some(target),
            Wanted::Ready => None,
            Wanted::Serving(wanted) | Wanted::ServingToTheEnd(wanted) => Some(wanted.target),
            Wanted::Holding(target, _, _) => Some(target),
        }
    }
}
