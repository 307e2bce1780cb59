//! Requests, cancels, and what became of a lock, while the target serves.

ghost use Rattle.std.specs.Prelude.{◌≡◌, ◌≢◌, ◌<◌, Err, OnOk};
ghost use Rattle.lu_spec_target.specs.Lives.{slot_in};
ghost use Rattle.lu_spec_target.specs.Requests.{row_enters, row_request, row_where};
ghost use Rattle.lu_spec_target.specs.States.{Target};
ghost use Rattle.lu_target_store.specs.Stores.{KeepsDisk};
ghost use Rattle.lu_target_server.specs.Numbers.{Overruns, HasRoom};
ghost use Rattle.lu_target_server.specs.Servers.{Shows, Stands, MayTake, Makes};
ghost use Rattle.lu_target_server.specs.declared.faults.TurnFault.TheVariants as fault;

use super::faults::TurnFault;
use super::server::Server;
use lu_base::{Cookie, Duplicate, Memory, Who, Xid};
use lu_disk::Disk;
use lu_msg::Request;
use lu_service::Service;
use lu_target_store::Look;
use lu_trace::Turn;

impl<S: Service, D: Disk> Server<S, D> {
    /// A request of a life that has a slot: one with a number above that of the newest one taken of its life and tag is
    /// taken, one with the same is answered again once it acted, and one below does nothing. A request of number 0 asks
    /// nothing.
    pub fn request(&mut self, turn: &mut Turn, request: &Request) -> Result<(), TurnFault>
        requires stands { Stands self.old }
        requires may { MayTake request.now self.old }
        ensures makes { OnOk result (Makes (λ v. row_request v turn.old.at request.now)
            self.old self.new turn.old turn.new) }
        ensures numbers { result ≡ Err fault.NumbersSpent
            → Overruns (λ v. row_request v turn.old.at request.now) self.old }
        ensures room { OnOk result (HasRoom (λ v. row_request v turn.old.at request.now) self.old) }
        ensures fault { result ≢ Err fault.Disk }
        ensures disk { KeepsDisk self.old.store self.new.store }
    {
        match self.store.look(request.who, request.tag, request.xid) {
            Look::New if request.xid == Xid(0) => Ok(()),
            Look::New => self.enter(turn, request),
            Look::Again(reply) => Ok(self.answer_again(turn, reply)?),
            Look::Waits | Look::Old => Ok(()),
        }
    }

    /// A request is taken, and goes on.
    fn enter(&mut self, turn: &mut Turn, request: &Request) -> Result<(), TurnFault>
        requires stands { Stands self.old }
        requires may { MayTake request.now self.old }
        requires new { (v : Target) → Shows self.old v
            → (slot_in v.slots request.now.who request.now.tag).taken < request.now.xid.0 }
        ensures makes { OnOk result (Makes (λ v. row_enters v turn.old.at request.now)
            self.old self.new turn.old turn.new) }
        ensures numbers { result ≡ Err fault.NumbersSpent
            → Overruns (λ v. row_enters v turn.old.at request.now) self.old }
        ensures fault { result ≢ Err fault.Disk }
        ensures disk { KeepsDisk self.old.store self.new.store }
    {
        self.store.enter(request)?;
        self.requests.push(request.copy(self.alloc)?)?;
        if self.service.requests_wait() {
            return self.names_go(turn);
        }
        self.objects_go(turn, request)
    }

    /// What became of a lock on an object: where it is granted to this life, its holder is told so again.
    pub fn find(&mut self, turn: &mut Turn, who: Who, cookie: Cookie) -> Result<(), Memory>
        requires stands { Stands self.old }
        ensures makes { OnOk result (Makes (λ v. row_where v who cookie) self.old self.new turn.old turn.new) }
        ensures disk { KeepsDisk self.old.store self.new.store }
    {
        if self.service.requests_wait() {
            return Ok(());
        }
        match self.locks.find(who, cookie) {
            Some(lock) => self.say_grant(turn, &lock),
            None => Ok(()),
        }
    }
}
