//! The locks that a client holds, in order of their last use (this project's profile; the bound on unused locks is
//! that of Lustre Operations Manual, the size of the lock lists).

ghost use Rattle.std.specs.Prelude.{◌≡◌, ◌≤◌, ◌+◌, ◌-◌, ◌^◌, true, AllPairs, vec_capacity, ◌<◌, false, if◌then◌else◌, [], ◌∷◌, length, map, filter, find, fold, count_by, slice_get, option_map, Option, Some, None, IfOk, OnOk, OnErr, IfSome, IfNone};
ghost use Rattle.std.specs.Option.{option_copied};
ghost use Rattle.std.specs.Map.{lookup, set_value};
ghost use Rattle.std.specs.List.{filter_map, insert};
ghost use Rattle.lu_held.specs.declared.locks.Change.TheVariants as change;
ghost use Rattle.lu_held.specs.declared.locks.Wanted.TheVariants as wanted;
ghost use Rattle.lu_held.specs.Names.{same_name, with_name, IsEarlier};
ghost use Rattle.lu_held.specs.Locks.{named, name_of, use_of, lock_of, cookie_of, pair_of, after, is_named, is_free};
ghost use Rattle.lu_held.specs.Held.{HeldState, granted, is_held, with_change, with_last, without, unmarked, in_order, those, serving, last_of, to_trim, trimmed, IsSound};
ghost use Rattle.lu_held.specs.Kept.{unbounded, remarked, recounted, names_at, names_for, is_asked, asked};

use super::locks::{Change, HeldLock, Use, Wanted};
use super::names::LockName;
use lru::LruCache;
use lu_base::{Cookie, Cookies, Lock, Memory, Mode, Policy, Resource, TargetId};
use std::alloc::{AllocError, Global};
use std::collections::BTreeSet;
use std::collections::btree_set::Range;
use std::marker::Model;

/// All locks that a client holds, of all targets, each with a count of pins and a mark. A lock is last used
/// where it was granted or last unpinned.
#[derive(Debug, Drop)]
pub struct Held {
    /// How many locks that are neither pinned nor marked may be kept.
    unused: u32,
    /// The locks, the most recently used first; none falls out.
    uses: LruCache<LockName, HeldLock>,
    /// Their names, by target and then by cookie.
    names: BTreeSet<LockName>,
    /// The names of the marked ones in the same order, with room for the names of all.
    marked: Vec<LockName>,
    /// How many are neither pinned nor marked.
    free: usize,
}

impl Model for Held {
    ghost use Rattle.std.specs.Map.{values_of};
    ghost use Rattle.std.specs.Prelude.{vec_capacity};
    ghost use Rattle.lu_held.specs.Held.{HeldState};
    ghost use Rattle.lu_held.specs.Kept.{IsStored};

    ghost Value = { HeldState };

    ghost view = { λ h. record { unused = h.unused; locks = values_of h.uses.entries } };

    ghost invariant = { λ h. IsStored h.names.keys h.uses h.marked.items (vec_capacity h.marked) h.free };
}

impl Held {
    /// No lock is held. At most `unused` locks that are neither pinned nor marked are kept by `trim`.
    pub fn new(alloc: Global, unused: u32) -> Result<Held, Memory>
        ensures empty { IfOk result (λ held. held ≡ record { unused = unused; locks = [] }) }
        ensures sound { IfOk result IsSound }
    {
        Ok(Held {
            unused,
            uses: LruCache::unbounded(alloc)?,
            names: BTreeSet::new(alloc),
            marked: Vec::new(alloc),
            free: 0,
        })
    }

    /// Holds a lock that this target granted, as the last used; none falls out. After want of memory nothing
    /// has changed.
    pub fn granted(&mut self, target: TargetId, lock: Lock) -> Result<(), Memory>
        requires absent { is_held (named target lock.cookie) self.old.locks ≡ false }
        ensures added { OnOk result (self.new ≡ record self.old { locks = granted target lock ∷ self.old.locks }) }
        ensures kept { OnErr result (self.new ≡ self.old) }
        ensures sound { IsSound self.new }
    {
        let held = HeldLock {
            target,
            lock,
            pins: 0,
            marked: false,
        };
        let name = held.name();
        make_room(&mut self.marked, self.uses.len())?;
        put_first(&mut self.uses, name, held)?;
        if self.names.insert(name).is_err() {
            self.uses.pop(&name);
            return Err(Memory);
        }
        self.free += 1;
        Ok(())
    }

    /// The cookie of a held lock that does for a use: it isn't marked, its mode serves the wanted one, and
    /// it covers what is wanted. A lock that reaches the end comes before one that doesn't, and then the one
    /// of least cookie; none where no lock does.
    pub fn match_lock(
        &self,
        target: TargetId,
        resource: Resource,
        mode: Mode,
        policy: Policy,
    ) -> Option<Cookie>
        ensures serving { result
            ≡ option_map cookie_of (serving (use_of target resource mode policy) self.now.locks) }
        ensures sound { IsSound self.now }
    {
        let wanted = Use {
            target,
            resource,
            mode,
            policy,
        };
        Some(self.serving(wanted)?.cookie)
    }

    /// The held lock that `match_lock` names.
    pub fn serving(&self, wanted: Use) -> Option<&Lock>
        ensures serving { option_copied result ≡ option_map lock_of (serving wanted self.now.locks) }
        ensures sound { IsSound self.now }
    {
        let held = match self.held_at(Wanted::ServingToTheEnd(wanted), 0) {
            Some(held) => held,
            None => self.held_at(Wanted::Serving(wanted), 0)?,
        };
        Some(&held.lock)
    }

    /// The held locks of this target and resource that aren't marked and hold this offset, in rising cookie, from
    /// place 0 on; none past the last.
    pub fn covering(
        &self,
        target: TargetId,
        resource: Resource,
        offset: u64,
        at: usize,
    ) -> Option<&Lock>
        ensures lock { option_copied result
            ≡ option_map lock_of (slice_get (those (wanted.Holding target resource offset) self.now.locks) at) }
        ensures sound { IsSound self.now }
    {
        let held = self.held_at(Wanted::Holding(target, resource, offset), at)?;
        Some(&held.lock)
    }

    /// Marks a lock: it is called back. False where it isn't held; then nothing has changed.
    pub fn block(&mut self, target: TargetId, cookie: Cookie) -> bool
        ensures held { result ≡ is_held (named target cookie) self.old.locks }
        ensures marked { self.new ≡ with_change (named target cookie) change.Mark self.old }
        ensures sound { IsSound self.new }
    {
        self.change(LockName { target, cookie }, Change::Mark)
    }

    /// Pins a lock: it is in use. False where it isn't held; then nothing has changed.
    pub fn pin(&mut self, target: TargetId, cookie: Cookie) -> bool
        ensures held { result ≡ is_held (named target cookie) self.old.locks }
        ensures pinned { self.new ≡ with_change (named target cookie) change.Pin self.old }
        ensures sound { IsSound self.new }
    {
        self.change(LockName { target, cookie }, Change::Pin)
    }

    /// Takes one pin from a lock, which is the last used then. False where it isn't held; then nothing has
    /// changed.
    pub fn unpin(&mut self, target: TargetId, cookie: Cookie) -> bool
        ensures held { result ≡ is_held (named target cookie) self.old.locks }
        ensures unpinned { self.new
            ≡ with_last (named target cookie) (with_change (named target cookie) change.Unpin self.old) }
        ensures sound { IsSound self.new }
    {
        let name = LockName { target, cookie };
        let held = self.change(name, Change::Unpin);
        self.use_now(name);
        held
    }

    /// The marked locks that aren't pinned, by target and then by cookie, from place 0 on; none past the last.
    pub fn ready_to_cancel(&self, at: usize) -> Option<(TargetId, Cookie)>
        ensures ready { result ≡ option_map pair_of (slice_get (those wanted.Ready self.now.locks) at) }
        ensures sound { IsSound self.now }
    {
        let name = self.name_at(Wanted::Ready, at)?;
        Some((name.target, name.cookie))
    }

    /// Gives a lock up. False where it isn't held; then nothing has changed.
    pub fn remove(&mut self, target: TargetId, cookie: Cookie) -> bool
        ensures held { result ≡ is_held (named target cookie) self.old.locks }
        ensures without { self.new ≡ record self.old { locks = without (named target cookie) self.old.locks } }
        ensures sound { IsSound self.new }
    {
        let name = LockName { target, cookie };
        let Some(held) = self.uses.pop(&name) else {
            return false;
        };
        self.names.remove(&name);
        remark(&mut self.marked, name, held.marked, false);
        self.free = recounted(self.free, held.is_free(), false);
        true
    }

    /// The held locks of this target in rising cookie, from place 0 on; none past the last.
    pub fn lock(&self, target: TargetId, at: usize) -> Option<&Lock>
        ensures lock { option_copied result
            ≡ option_map lock_of (slice_get (those (wanted.Of target) self.now.locks) at) }
        ensures sound { IsSound self.now }
    {
        let held = self.held_at(Wanted::Of(target), at)?;
        Some(&held.lock)
    }

    /// All held locks, by target and then by cookie.
    pub fn in_order(&self, alloc: Global) -> Result<Vec<HeldLock>, Memory>
        ensures order { IfOk result (λ locks. locks.items ≡ in_order self.now.locks) }
        ensures sound { IsSound self.now }
    {
        Ok(locks_in_order(alloc, &self.names, &self.uses)?)
    }

    /// The marked locks that aren't pinned, by target and then by cookie.
    pub fn ready(&self, alloc: Global) -> Result<Vec<HeldLock>, Memory>
        ensures ready { IfOk result (λ locks. locks.items ≡ those wanted.Ready self.now.locks) }
        ensures sound { IsSound self.now }
    {
        let marked = self.marked.as_slice();
        Ok(locks_among(alloc, marked, &self.uses, Wanted::Ready)?)
    }

    /// The locks of this target in rising cookie.
    pub fn of_target(&self, alloc: Global, target: TargetId) -> Result<Vec<Lock>, Memory>
        ensures locks { IfOk result (λ locks.
            locks.items ≡ map lock_of (those (wanted.Of target) self.now.locks)) }
        ensures sound { IsSound self.now }
    {
        let locks = granted_among(alloc, &self.names, &self.uses, Wanted::Of(target))?;
        Ok(locks)
    }

    /// The cookies of the marked locks of this target, rising.
    pub fn marked(&self, alloc: Global, target: TargetId) -> Result<Cookies, Memory>
        ensures marked { IfOk result (λ cookies.
            cookies ≡ map cookie_of (those (wanted.Marked target) self.now.locks)) }
        ensures sound { IsSound self.now }
    {
        let wanted = Wanted::Marked(target);
        let cookies = cookies_among(alloc, self.marked.as_slice(), &self.uses, wanted)?;
        Ok(Cookies::from(cookies))
    }

    /// Takes the marks of this target's locks away.
    pub fn unmark(&mut self, target: TargetId)
        ensures unmarked { self.new ≡ record self.old { locks = unmarked target self.old.locks } }
        ensures sound { IsSound self.new }
    {
        while let Some(name) = self.name_at(Wanted::Marked(target), 0) {
            self.change(name, Change::Unmark);
        }
    }

    /// Where more locks than may be kept are neither pinned nor marked, marks the least recently used of them,
    /// and answers it; none where at most as many are.
    pub fn trim(&mut self) -> Option<(TargetId, Cookie)>
        ensures trimmed { result ≡ option_map pair_of (to_trim self.old) }
        ensures marked { self.new ≡ trimmed self.old }
        ensures none { IfNone result (length (filter is_free self.old.locks) ≤ self.old.unused) }
        ensures some { IfSome result (λ _. self.old.unused < length (filter is_free self.old.locks)) }
        ensures sound { IsSound self.new }
    {
        if self.free() <= self.unused as usize {
            return None;
        }
        let name = self.oldest_free()?;
        self.change(name, Change::Mark);
        Some((name.target, name.cookie))
    }

    /// The held lock of this name.
    pub fn held(&self, name: LockName) -> Option<&HeldLock>
        ensures held { option_copied result ≡ find (is_named name) self.now.locks }
        ensures sound { IsSound self.now }
    {
        self.uses.peek(&name)
    }

    /// The names of those that are looked for, by target and then by cookie, from place 0 on; none past the last.
    fn name_at(&self, wanted: Wanted, at: usize) -> Option<LockName>
        ensures name { result ≡ option_map name_of (slice_get (those wanted self.now.locks) at) }
        ensures sound { IsSound self.now }
    {
        if wanted.is_of_marked() {
            return marked_among(self.marked.as_slice(), &self.uses, wanted, at);
        }
        name_among(&self.names, &self.uses, wanted, at)
    }

    /// The same as locks.
    fn held_at(&self, wanted: Wanted, at: usize) -> Option<&HeldLock>
        ensures held { option_copied result ≡ slice_get (those wanted self.now.locks) at }
        ensures sound { IsSound self.now }
    {
        let name = self.name_at(wanted, at)?;
        self.held(name)
    }

    /// Does this to the lock of this name. False where it isn't held; then nothing has changed.
    fn change(&mut self, name: LockName, change: Change) -> bool
        ensures held { result ≡ is_held name self.old.locks }
        ensures changed { self.new ≡ with_change name change self.old }
        ensures sound { IsSound self.new }
    {
        prove!(self.uses.len() < usize::MAX);
        let Some(was) = write(&mut self.uses, name, change) else {
            return false;
        };
        let now = was.after(change);
        remark(&mut self.marked, name, was.marked, now.marked);
        self.free = recounted(self.free, was.is_free(), now.is_free());
        true
    }

    /// Makes the lock of this name the last used.
    fn use_now(&mut self, name: LockName)
        ensures used { self.new ≡ with_last name self.old }
        ensures sound { IsSound self.new }
    {
        self.uses.promote(&name);
    }

    /// How many locks are neither pinned nor marked.
    fn free(&self) -> usize
        ensures { result ≡ length (filter is_free self.now.locks) }
    {
        self.free
    }

    /// The name of the least recently used lock that is neither pinned nor marked.
    fn oldest_free(&self) -> Option<LockName>
        ensures { result ≡ option_map name_of (last_of (filter is_free self.now.locks)) }
    {
        last_free(&self.uses)
    }
}

/// Puts a lock that isn't there in front; none falls out, since there is always room for one more.
fn put_first(
    uses: &mut LruCache<LockName, HeldLock>,
    name: LockName,
    held: HeldLock,
) -> Result<(), Memory>
    requires absent { lookup (same_name name) uses.old.entries ≡ None }
    requires room { uses.old.cap ≡ unbounded }
    ensures first { OnOk result (uses.new.entries ≡ (name, held) ∷ uses.old.entries) }
    ensures room { uses.new.cap ≡ unbounded }
    ensures kept { OnErr result (uses.new.entries ≡ uses.old.entries) }
{
    prove!(uses.len() < usize::MAX);
    uses.put(name, held)?;
    Ok(())
}

/// Makes room for the names of as many locks as are held and one more.
fn make_room(marked: &mut Vec<LockName>, held: usize) -> Result<(), Memory>
    requires few { held < 2 ^ 63 }
    ensures same { marked.new.items ≡ marked.old.items }
    ensures room { OnOk result (held + 1 ≤ vec_capacity marked.new) }
    ensures larger { vec_capacity marked.old ≤ vec_capacity marked.new }
{
    marked.reserve(held + 1)?;
    Ok(())
}

/// Does this to the lock of this name, and answers what it was before; none where none is there.
fn write(
    uses: &mut LruCache<LockName, HeldLock>,
    name: LockName,
    change: Change,
) -> Option<HeldLock>
    ensures found { result ≡ lookup (same_name name) uses.old.entries }
    ensures written { IfSome result (λ was.
        uses.new.entries ≡ set_value (same_name name) uses.old.entries (after change was)) }
    ensures kept { IfNone result (uses.new.entries ≡ uses.old.entries) }
    ensures room { uses.new.cap ≡ uses.old.cap }
{
    let held = uses.peek_mut(&name)?;
    let was = *held;
    *held = was.after(change);
    Some(was)
}

/// How many are free, once one of them is free or not, as it was or wasn't.
fn recounted(free: usize, was: bool, now: bool) -> usize
    requires room { was ≡ false → now ≡ true → free < 2 ^ 64 - 1 }
    ensures { result ≡ recounted was now free }
{
    match (was, now) {
        (true, false) => free.saturating_sub(1),
        (false, true) => free + 1,
        _ => free,
    }
}

/// Puts this name in among those of the marked locks, or takes it away, where its lock is marked or not and wasn't or
/// was.
fn remark(marked: &mut Vec<LockName>, name: LockName, was: bool, now: bool)
    requires order { AllPairs IsEarlier marked.old.items }
    requires room { was ≡ false → now ≡ true → length marked.old.items < vec_capacity marked.old }
    ensures names { marked.new.items ≡ remarked name was now marked.old.items }
    ensures larger { vec_capacity marked.old ≤ vec_capacity marked.new }
{
    match (was, now) {
        (true, false) => marked.retain(|other| *other != name),
        (false, true) => put_name(marked, name),
        _ => {}
    }
}

/// Puts a name in among others that are in order.
fn put_name(names: &mut Vec<LockName>, name: LockName)
    requires order { AllPairs IsEarlier names.old.items }
    requires room { length names.old.items < vec_capacity names.old }
    ensures names { names.new.items ≡ with_name name names.old.items }
    ensures larger { vec_capacity names.old ≤ vec_capacity names.new }
{
    let at = place_of(names.as_slice(), name);
    match names.insert(at, name) {
        Ok(()) => {}
        Err(_) => unreachable!(),
    }
}

/// Where a name goes among others that are in order.
fn place_of(names: &[LockName], name: LockName) -> usize
    requires order { AllPairs IsEarlier names.now }
    ensures within { result ≤ length names.now }
    ensures place { insert names.now result name ≡ with_name name names.now }
{
    names.partition_point(|other| other.is_before(name))
}

/// Whether the lock of this name is one of those that are looked for.
fn is_wanted(uses: &LruCache<LockName, HeldLock>, name: &LockName, wanted: Wanted) -> bool
    ensures { result ≡ is_asked wanted uses.now.entries name.now }
{
    match uses.peek(name) {
        Some(held) => held.matches(wanted),
        None => false,
    }
}

/// The first name that a lock of this target may have.
fn first_name(target: TargetId) -> LockName
    ensures { result ≡ named target (record { 0 = 0 }) }
{
    LockName {
        target,
        cookie: Cookie(0),
    }
}

/// All names.
fn all_names(names: &BTreeSet<LockName>) -> Range<'_, LockName>
    ensures { result ≡ names.now.keys }
{
    names.range(..)
}

/// The names of this target's locks; of the last target that there is, all names.
fn names_at(names: &BTreeSet<LockName>, target: TargetId) -> Range<'_, LockName>
    ensures { result ≡ names_at target names.now.keys }
{
    if target.0 < u16::MAX {
        names.range(first_name(target)..first_name(TargetId(target.0 + 1)))
    } else {
        all_names(names)
    }
}

/// The names among which these locks are looked for.
fn names_for(names: &BTreeSet<LockName>, wanted: Wanted) -> Range<'_, LockName>
    ensures { result ≡ names_for wanted names.now.keys }
{
    match wanted.target() {
        Some(target) => names_at(names, target),
        None => all_names(names),
    }
}

/// The name at this place of those whose locks are looked for; none past the last.
fn name_among(
    names: &BTreeSet<LockName>,
    uses: &LruCache<LockName, HeldLock>,
    wanted: Wanted,
    at: usize,
) -> Option<LockName>
    ensures { result ≡ slice_get (filter (is_asked wanted uses.now.entries) (names_for wanted names.now.keys)) at }
{
    names_for(names, wanted)
        .filter(|name| is_wanted(uses, *name, wanted))
        .nth(at)
        .copied()
}

/// The same among these names.
fn marked_among(
    names: &[LockName],
    uses: &LruCache<LockName, HeldLock>,
    wanted: Wanted,
    at: usize,
) -> Option<LockName>
    ensures { result ≡ slice_get (filter (is_asked wanted uses.now.entries) names.now) at }
{
    names
        .iter()
        .filter(|name| is_wanted(uses, *name, wanted))
        .nth(at)
        .copied()
}

/// The lock of this name, where it is one of those that are looked for.
fn asked(uses: &LruCache<LockName, HeldLock>, name: &LockName, wanted: Wanted) -> Option<HeldLock>
    ensures { result ≡ asked wanted uses.now.entries name.now }
{
    uses.peek(name).copied().filter(|held| held.matches(wanted))
}

/// The locks of these names, in the order of the names.
fn locks_in_order(
    alloc: Global,
    names: &BTreeSet<LockName>,
    uses: &LruCache<LockName, HeldLock>,
) -> Result<Vec<HeldLock>, AllocError>
    ensures { IfOk result (λ locks. locks.items
        ≡ filter_map (λ name. lookup (same_name name) uses.now.entries) names.now.keys) }
{
    names
        .iter()
        .filter_map(|name| uses.peek(name).copied())
        .collect(alloc)
}

/// The locks that are looked for, in the order of their names.
fn locks_among(
    alloc: Global,
    names: &[LockName],
    uses: &LruCache<LockName, HeldLock>,
    wanted: Wanted,
) -> Result<Vec<HeldLock>, AllocError>
    ensures { IfOk result (λ locks. locks.items ≡ filter_map (asked wanted uses.now.entries) names.now) }
{
    names
        .iter()
        .filter_map(|name| asked(uses, name, wanted))
        .collect(alloc)
}

/// The same, as they were granted.
fn granted_among(
    alloc: Global,
    names: &BTreeSet<LockName>,
    uses: &LruCache<LockName, HeldLock>,
    wanted: Wanted,
) -> Result<Vec<Lock>, AllocError>
    ensures { IfOk result (λ locks. locks.items
        ≡ filter_map (λ name. option_map lock_of (asked wanted uses.now.entries name))
        (names_for wanted names.now.keys)) }
{
    names_for(names, wanted)
        .filter_map(|name| Some(asked(uses, name, wanted)?.lock))
        .collect(alloc)
}

/// The cookies of the locks that are looked for, in the order of their names.
fn cookies_among(
    alloc: Global,
    names: &[LockName],
    uses: &LruCache<LockName, HeldLock>,
    wanted: Wanted,
) -> Result<Vec<Cookie>, AllocError>
    ensures { IfOk result (λ cookies. cookies.items
        ≡ map (λ name. name.cookie) (filter (is_asked wanted uses.now.entries) names.now)) }
{
    names
        .iter()
        .filter(|name| is_wanted(uses, *name, wanted))
        .map(|name| name.cookie)
        .collect(alloc)
}

/// The name of the last lock that is neither pinned nor marked.
fn last_free(uses: &LruCache<LockName, HeldLock>) -> Option<LockName>
    ensures { result ≡ fold (λ found entry. if is_free entry.1 then Some entry.0 else found) None uses.now.entries }
{
    uses.iter().fold(None, |found, entry| {
        if entry.1.is_free() {
            Some(*entry.0)
        } else {
            found
        }
    })
}
