//! Whether a read has reached its end.

ghost use Rattle.std.specs.Prelude.{◌≡◌, ◌&&◌, not, IfOk};
ghost use Rattle.lu_held.specs.declared.locks.Wanted.TheVariants.{Holding};
ghost use Rattle.lu_held.specs.Locks.{reaches_end};
ghost use Rattle.lu_held.specs.Held.{those};
ghost use Rattle.lu_spec_client.specs.Looks.{shown_under, shown_elsewhere, reached_under, has_reached};

use super::pages::reaches_end;
use super::store::Store;
use lu_base::{Lock, Memory, Resource, TargetId};
use lu_layout::Layout;
use lu_spec_entries::Using;
use std::alloc::Global;

impl Store {
    /// Whether a byte at or past an offset was shown under a lock.
    fn is_shown_under(&self, offset: u64, lock: &Lock) -> bool
        ensures shown { result ≡ shown_under offset self.now.store lock.now }
    {
        match self.shown(lock) {
            Some(last) => offset <= last,
            None => false,
        }
    }

    /// Whether one was shown under a lock that doesn't reach the end.
    fn is_shown_before_end(&self, offset: u64, lock: &Lock) -> bool
        ensures shown { result ≡ not (reaches_end lock.now.ask.policy) && shown_under offset self.now.store lock.now }
    {
        if reaches_end(lock) {
            return false;
        }
        self.is_shown_under(offset, lock)
    }

    /// Whether one was shown under some held lock that covers the offset, isn't called back and doesn't reach the end.
    fn is_shown_elsewhere(
        &self,
        alloc: Global,
        target: TargetId,
        resource: Resource,
        offset: u64,
    ) -> Result<bool, Memory>
        ensures shown { IfOk result (λ shown. shown
            ≡ shown_elsewhere offset self.now.store (those (Holding target resource offset) self.now.store.held)) }
    {
        let mut passed = Vec::new(alloc);
        while let Some(lock) = self.covering(target, resource, offset, passed.len()) {
            if self.is_shown_before_end(offset, lock) {
                return Ok(true);
            }
            passed.push(*lock)?;
        }
        Ok(false)
    }

    /// Whether a read has reached an offset of the object of a lock in use: the object's size lies past it, where the lock
    /// reaches the end; else a byte at or past it was shown.
    fn has_reached_under(&self, alloc: Global, offset: u64, one: Using) -> Result<bool, Memory>
        ensures reached { IfOk result (λ reached. reached ≡ reached_under offset one self.now.store) }
    {
        if reaches_end(&one.lock) {
            return Ok(offset < self.size_under(&one.lock));
        }
        if self.is_shown_under(offset, &one.lock) {
            return Ok(true);
        }
        self.is_shown_elsewhere(alloc, one.want.target, one.want.resource, offset)
    }

    /// Whether a read of the bytes up to this position has reached it, by the lock in use on its stripe: there is a byte at
    /// the position or past it, as far as the client knows. False where no lock is in use on that stripe. It takes memory
    /// only where it has to go through other held locks.
    pub fn has_reached(
        &self,
        alloc: Global,
        layout: &Layout,
        position: u64,
        used: &[Using],
    ) -> Result<bool, Memory>
        ensures reached { IfOk result (λ reached.
            reached ≡ has_reached layout.now position used.now self.now.store) }
    {
        let (stripe, offset) = layout.place(position);
        for one in used {
            if one.want.resource.stripe == stripe {
                return self.has_reached_under(alloc, offset, *one);
            }
        }
        Ok(false)
    }
}
