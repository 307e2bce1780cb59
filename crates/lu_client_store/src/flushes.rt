//! The next change of an object that is written back, and the held lock under which it is.

ghost use Rattle.std.specs.Prelude.{◌≡◌, List, ◌∷◌, false, option_map, IfOk, IfSome, OnErr};
ghost use Rattle.lu_held.specs.declared.locks.HeldLock.{HeldLock as HeldOf};
ghost use Rattle.lu_spec_client.specs.Patches.{Patch, in_flight};
ghost use Rattle.lu_spec_client.specs.Caches.{patch_at};
ghost use Rattle.lu_spec_client.specs.WriteBack.{operation, flush_under, flushes};
ghost use Rattle.lu_client_store.specs.Stored.{stored_turn, IsInFile};
ghost use Rattle.lu_client_store.specs.WriteBacks.{back_under, backs, backs_or, next_in};

use super::store::Store;
use lu_base::{Ask, Extent, Lock, Memory, Mode, Policy, Resource, TargetId};
use lu_held::HeldLock;
use lu_msg::Op;
use lu_spec_entries::Flush;

/// A change of an object that is written back, under a held lock of a target.
#[derive(Debug, Drop)]
pub struct WriteBack {
    pub target: TargetId,
    pub lock: Lock,
    pub flush: Flush,
}

impl WriteBack {
    /// What is asked of the target.
    pub fn operation(self) -> Op
        ensures asks { result ≡ operation self.lock.resource self.lock.cookie self.flush }
    {
        let (resource, cookie) = (self.lock.resource, self.lock.cookie);
        match self.flush {
            Flush::Cut(size) => Op::Cut {
                resource,
                cookie,
                size,
            },
            Flush::Put(offset, bytes) => Op::Put {
                resource,
                cookie,
                offset,
                bytes,
            },
        }
    }
}

/// The range of an object that a lock lets its client change: that of a PW lock.
fn range_to_write(lock: &Lock) -> Option<Extent>
    ensures flush { (p : Patch) → flush_under p lock.now.ask.mode lock.now.ask.policy ≡ next_in result p }
{
    match lock.ask {
        Ask {
            mode: Mode::PW,
            policy: Policy::Range(extent),
            ..
        } => Some(extent),
        _ => None,
    }
}

impl Store {
    /// The next write-back under a held lock, which ends with the lock; none where it is no PW lock, or its object has no
    /// change there. It is under way then; none of the object is before. After want of memory nothing has changed.
    pub fn take_flush_under(&mut self, held: &HeldLock) -> Result<Option<WriteBack>, Memory>
        requires rests { in_flight (patch_at held.now.lock.resource self.old.store.patches) ≡ false }
        ensures back { IfOk result (λ back. back ≡ option_map (back_under held.now)
            (flush_under (patch_at held.now.lock.resource self.old.store.patches) held.now.lock.ask.mode
            held.now.lock.ask.policy)) }
        ensures in_file { IfOk result (λ back. IfSome back (λ back. IsInFile back.flush)) }
        ensures sent { IfOk result (λ back. self.new ≡ stored_turn self.old (backs back)) }
        ensures kept { OnErr result (self.new ≡ self.old) }
    {
        let lock = held.lock;
        let Some(extent) = range_to_write(&lock) else {
            return Ok(None);
        };
        match self.take_flush(lock.resource, extent)? {
            Some(flush) => Ok(Some(WriteBack {
                target: held.target,
                lock,
                flush,
            })),
            None => Ok(None),
        }
    }

    /// The same of an object: none where the lock is on another.
    fn take_flush_of(
        &mut self,
        resource: Resource,
        held: &HeldLock,
    ) -> Result<Option<WriteBack>, Memory>
        requires rests { in_flight (patch_at resource self.old.store.patches) ≡ false }
        ensures back { IfOk result (λ back. (others : List HeldOf)
            → flushes resource (patch_at resource self.old.store.patches) (held.now ∷ others)
            ≡ backs_or (flushes resource (patch_at resource self.old.store.patches) others) back) }
        ensures in_file { IfOk result (λ back. IfSome back (λ back. IsInFile back.flush)) }
        ensures sent { IfOk result (λ back. self.new ≡ stored_turn self.old (backs back)) }
        ensures kept { OnErr result (self.new ≡ self.old) }
    {
        if held.lock.resource != resource {
            return Ok(None);
        }
        self.take_flush_under(held)
    }

    /// The next write-back of an object, under the first of these held locks that has a change of it; none where no lock
    /// has. It is under way then; none of the object is before. After want of memory nothing has changed.
    pub fn take_first_flush(
        &mut self,
        resource: Resource,
        locks: &[HeldLock],
    ) -> Result<Option<WriteBack>, Memory>
        requires rests { in_flight (patch_at resource self.old.store.patches) ≡ false }
        ensures back { IfOk result (λ back. backs back
            ≡ flushes resource (patch_at resource self.old.store.patches) locks.now) }
        ensures in_file { IfOk result (λ back. IfSome back (λ back. IsInFile back.flush)) }
        ensures sent { IfOk result (λ back. self.new ≡ stored_turn self.old (backs back)) }
        ensures kept { OnErr result (self.new ≡ self.old) }
    {
        for held in locks {
            if let Some(back) = self.take_flush_of(resource, held)? {
                return Ok(Some(back));
            }
        }
        Ok(None)
    }
}
