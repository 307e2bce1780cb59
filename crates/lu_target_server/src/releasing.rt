//! Locks that their holders give back.

ghost use Rattle.std.specs.Prelude.{◌≡◌, ◌≢◌, [], ◌∷◌, Err, IfOk, OnOk};
ghost use Rattle.lu_target_locks.specs.Servers.{AreCalledBack};
ghost use Rattle.lu_service.specs.declared.services.Kind.TheVariants as kind;
ghost use Rattle.lu_target_store.specs.Stores.{KeepsDisk};
ghost use Rattle.lu_target_refines.specs.Locks.{grants_told};
ghost use Rattle.lu_spec_target.specs.Queues.{queue_goes};
ghost use Rattle.lu_spec_target.specs.Requests.{row_cancel, releases};
ghost use Rattle.lu_spec_target.specs.States.{Target};
ghost use Rattle.lu_target_server.specs.Answering.{TellsSizes};
ghost use Rattle.lu_spec_entries.specs.Given.{giving};
ghost use Rattle.lu_target_server.specs.Middles.{MakesPart, MakesRest};
ghost use Rattle.lu_target_server.specs.Numbers.{Overruns, HasRoom};
ghost use Rattle.lu_target_server.specs.Releases.{MayRelease, IsReturn, QueueGoesOn};
ghost use Rattle.lu_target_server.specs.Servers.{Stands, Makes};
ghost use Rattle.lu_target_server.specs.declared.faults.TurnFault.TheVariants as fault;

use super::faults::TurnFault;
use super::server::Server;
use lu_base::{Cookie, Locks, Memory, Resource, Who};
use lu_disk::Disk;
use lu_queue::{Grant, Grants};
use lu_service::Service;
use lu_target_locks::EndedLock;
use lu_trace::{Entry, Turn};

/// A lock that its holder gave back, and what was granted then.
pub(crate) type Returned = (EndedLock, Grants);

impl<S: Service, D: Disk> Server<S, D> {
    /// A life gives back a lock that it was granted: its release, the answers to those for whom it was asked, and then what
    /// waited goes on. Nothing is done where no lock of this cookie is granted to it.
    pub fn cancel(&mut self, turn: &mut Turn, who: Who, cookie: Cookie) -> Result<(), TurnFault>
        requires stands { Stands self.old }
        ensures makes { OnOk result (Makes (λ v. row_cancel v turn.old.at who cookie)
            self.old self.new turn.old turn.new) }
        ensures numbers { result ≡ Err fault.NumbersSpent
            → Overruns (λ v. row_cancel v turn.old.at who cookie) self.old }
        ensures room { OnOk result (HasRoom (λ v. row_cancel v turn.old.at who cookie) self.old) }
        ensures fault { result ≢ Err fault.Disk }
        ensures disk { KeepsDisk self.old.store self.new.store }
    {
        let Some((ended, granted)) = self.take_back(who, cookie)? else {
            return Ok(());
        };
        self.release(turn, &ended)?;
        if self.service.requests_wait() {
            return self.names_go(turn);
        }
        self.queue_goes(turn, ended.lock.resource, &granted)
    }

    /// The lock is away, and what could be granted then is. None where it isn't granted to that life.
    fn take_back(&mut self, who: Who, cookie: Cookie) -> Result<Option<Returned>, Memory>
        ensures back { IfOk result (λ back. IsReturn who cookie back self.old.locks self.new.locks) }
        ensures same { self.new ≡ record self.old { locks = self.new.locks } }
    {
        let askers = self.locks.askers(self.alloc, cookie)?;
        let Some(released) = self.locks.cancel(self.alloc, who, cookie)? else {
            return Ok(None);
        };
        let lock = released.lock;
        Ok(Some((EndedLock { lock, askers }, released.granted)))
    }

    /// A lock is released: those for whom its holder was asked are told to take a lock.
    pub(crate) fn release(&mut self, turn: &mut Turn, ended: &EndedLock) -> Result<(), TurnFault>
        requires may { (v : Target) × MayRelease ended.now self.old v }
        ensures released { OnOk result ((v : Target) → MayRelease ended.now self.old v
            → MakesPart (releases turn.old.at ended.now.lock v) v self.old self.new turn.old turn.new) }
        ensures numbers { result ≢ Err fault.NumbersSpent }
        ensures fault { result ≢ Err fault.Disk }
        ensures disk { KeepsDisk self.old.store self.new.store }
    {
        turn.note(Entry::Release(ended.lock.cookie))?;
        for asker in ended.askers.as_slice() {
            self.say_lock(turn, asker.who, asker.xid)?;
        }
        Ok(())
    }

    /// These locks of one resource were granted, which had waited; the others that wait call back what is in their way.
    fn queue_goes(
        &mut self,
        turn: &mut Turn,
        resource: Resource,
        granted: &Grants,
    ) -> Result<(), TurnFault>
        requires objects { self.old.kind ≡ kind.Ost }
        requires goes { (w : Target) × QueueGoesOn resource granted.now self.old w }
        ensures went { OnOk result ((w : Target) → QueueGoesOn resource granted.now self.old w
            → MakesRest (queue_goes resource w) w self.new turn.old turn.new) }
        ensures numbers { result ≢ Err fault.NumbersSpent }
        ensures fault { result ≢ Err fault.Disk }
        ensures disk { KeepsDisk self.old.store self.new.store }
    {
        self.tell_grants(turn, resource, granted)?;
        let called = self.call_back(resource)?;
        Ok(self.say_blocks(turn, called)?)
    }

    /// What is in the way of the locks that wait on a resource is called back.
    fn call_back(&mut self, resource: Resource) -> Result<Locks, Memory>
        ensures called { IfOk result (λ locks. AreCalledBack resource locks self.old.locks self.new.locks) }
        ensures same { self.new ≡ record self.old { locks = self.new.locks } }
    {
        self.locks.call_back(self.alloc, resource)
    }

    /// Locks that had waited are granted.
    fn tell_grants(
        &mut self,
        turn: &mut Turn,
        resource: Resource,
        granted: &Grants,
    ) -> Result<(), Memory>
        requires objects { self.old.kind ≡ kind.Ost }
        ensures told { OnOk result ((v : Target) → TellsSizes self.old v
            → turn.new ≡ giving turn.old (grants_told resource v granted.now)) }
        ensures same { OnOk result (self.new ≡ self.old) }
        ensures disk { KeepsDisk self.old.store self.new.store }
    {
        for grant in granted.as_slice() {
            self.tell_grant(turn, resource, grant)?;
        }
        Ok(())
    }

    /// A lock that had waited is granted.
    fn tell_grant(
        &mut self,
        turn: &mut Turn,
        resource: Resource,
        grant: &Grant,
    ) -> Result<(), Memory>
        requires objects { self.old.kind ≡ kind.Ost }
        ensures told { OnOk result ((v : Target) → TellsSizes self.old v
            → turn.new ≡ giving turn.old (grants_told resource v (grant.now ∷ []))) }
        ensures same { OnOk result (self.new ≡ self.old) }
        ensures disk { KeepsDisk self.old.store self.new.store }
    {
        let lock = lu_base::Lock {
            cookie: grant.cookie,
            resource,
            ask: grant.ask,
        };
        turn.note(Entry::Grant(lock))?;
        self.say_grant(turn, &lock)
    }
}
