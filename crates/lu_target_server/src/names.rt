//! Requests at the metadata target: those that wait are gone through from the oldest, and again from the oldest after
//! each that acted, until none acts.

ghost use Rattle.std.specs.Prelude.{◌≡◌, ◌≢◌, ◌<◌, [], ◌∷◌, true, false, length, Err, IfOk, OnOk};
ghost use Rattle.lu_service.specs.declared.services.Kind.TheVariants as kind;
ghost use Rattle.lu_spec_target.specs.Names.{is_read, does_change, locks_for, names_deed, row_executes, row_acts, row_transacts, names_go, grant_lines};
ghost use Rattle.lu_spec_target.specs.Replies.{none, next_number};
ghost use Rattle.lu_spec_target.specs.States.{Target};
ghost use Rattle.lu_spec_entries.specs.Carried.{Deed};
ghost use Rattle.lu_spec_entries.specs.Words.{Act as ActEntry};
ghost use Rattle.lu_target_locks.specs.Servers.{blocks_told};
ghost use Rattle.lu_target_store.specs.Stores.{KeepsDisk};
ghost use Rattle.lu_spec_entries.specs.Given.{giving};
ghost use Rattle.lu_target_server.specs.Servers.{Shows, Stands, Makes};
ghost use Rattle.lu_target_server.specs.Acting.{HasTold, HasToldAs};
ghost use Rattle.lu_target_server.specs.Numbers.{Overruns, LacksCookies};
ghost use Rattle.lu_target_server.specs.Passes.{IsWaiting, IsPass, IsWay, AreCalled, names_pass};
ghost use Rattle.lu_target_server.specs.declared.faults.TurnFault.TheVariants as fault;

use super::faults::TurnFault;
use super::saying::{say, say_block};
use super::server::Server;
use lu_base::{At, Cookies, Duplicate, Locks, Memory, Txn};
use lu_disk::Disk;
use lu_msg::{Message, Op, Reply, Request};
use lu_service::Service;
use lu_trace::{Entry, Turn};
use std::alloc::Global;

/// What a request that waits may do now.
#[derive(Debug, Drop)]
pub(crate) enum Way {
    /// It acts.
    Free(Request),
    /// It reads, and stands behind what changes names.
    Behind,
    /// It changes names that these locks guard.
    Barred(Cookies),
}

/// Whether an operation only reads names.
pub(crate) fn is_read(op: &Op) -> bool
    ensures test { result ≡ is_read op.now }
{
    matches!(
        op,
        Op::Lookup(_) | Op::Stat(_) | Op::List(_) | Op::Layout(_)
    )
}

impl<S: Service, D: Disk> Server<S, D> {
    /// The requests go on until none acts.
    pub(crate) fn names_go(&mut self, turn: &mut Turn) -> Result<(), TurnFault>
        requires names { self.old.kind ≡ kind.Mdt }
        requires stands { Stands self.old }
        ensures makes { OnOk result (Makes (names_go turn.old.at) self.old self.new turn.old turn.new) }
        ensures numbers { result ≡ Err fault.NumbersSpent → Overruns (names_go turn.old.at) self.old }
        ensures fault { result ≢ Err fault.Disk }
        ensures disk { KeepsDisk self.old.store self.new.store }
    {
        for _pass in 0..self.requests.len() {
            let acted = self.pass(turn)?;
            if !acted {
                return Ok(());
            }
        }
        self.pass(turn)?;
        Ok(())
    }

    /// The requests are gone through from the oldest to the first that acts. Whether one did.
    fn pass(&mut self, turn: &mut Turn) -> Result<bool, TurnFault>
        requires names { self.old.kind ≡ kind.Mdt }
        requires stands { Stands self.old }
        ensures pass { IfOk result (λ acted. IsPass acted self.old self.new turn.old turn.new) }
        ensures numbers { result ≡ Err fault.NumbersSpent → Overruns (names_pass turn.old.at) self.old }
        ensures fault { result ≢ Err fault.Disk }
        ensures disk { KeepsDisk self.old.store self.new.store }
    {
        let mut stood = false;
        for place in 0..self.requests.len() {
            match self.way(place, stood)? {
                Way::Free(request) => {
                    self.execute(turn, request)?;
                    return Ok(true);
                }
                Way::Behind => {}
                Way::Barred(cookies) => {
                    self.call_back_all(turn, &cookies)?;
                    stood = true;
                }
            }
        }
        Ok(false)
    }

    /// What the request at this place may do; `stood`: whether what changes names stands before it.
    fn way(&self, place: usize, stood: bool) -> Result<Way, Memory>
        requires names { self.now.kind ≡ kind.Mdt }
        requires stands { Stands self.now }
        requires place { place < length self.now.requests }
        ensures way { IfOk result (λ way. IsWay self.now place stood way) }
    {
        let Some(request) = self.requests.at(place) else {
            unreachable!()
        };
        if is_read(&request.op) {
            if stood {
                return Ok(Way::Behind);
            }
            return Ok(Way::Free(request.copy(self.alloc)?));
        }
        if !self.service.changes(request.who, &request.op) {
            return Ok(Way::Free(request.copy(self.alloc)?));
        }
        let written = self.service.writes(self.alloc, request.who, &request.op)?;
        let cookies = self.locks.in_way(self.alloc, &written)?;
        if cookies.is_empty() {
            Ok(Way::Free(request.copy(self.alloc)?))
        } else {
            Ok(Way::Barred(cookies))
        }
    }

    /// Calls back the granted locks of these cookies.
    fn call_back_all(&mut self, turn: &mut Turn, cookies: &Cookies) -> Result<(), Memory>
        ensures called { OnOk result (AreCalled cookies.now self.old self.new turn.old turn.new) }
        ensures same { self.new ≡ record self.old { locks = self.new.locks } }
    {
        let called = self.locks.call_back_all(self.alloc, cookies)?;
        self.say_blocks(turn, called)
    }

    /// Tells the holders of these locks that they are called back.
    pub(crate) fn say_blocks(&self, turn: &mut Turn, called: Locks) -> Result<(), Memory>
        ensures told { OnOk result ((v : Target) → v.boot ≡ self.now.boot
            → turn.new ≡ giving turn.old (blocks_told v called)) }
    {
        for lock in called.as_slice() {
            turn.note(Entry::Block(lock.cookie))?;
            say_block(turn, lock, self.boot)?;
        }
        Ok(())
    }

    /// Executes a request: as a transaction where it would change something, else as an act.
    fn execute(&mut self, turn: &mut Turn, request: Request) -> Result<(), TurnFault>
        requires names { self.old.kind ≡ kind.Mdt }
        requires stands { Stands self.old }
        requires waits { IsWaiting request self.old.requests }
        ensures makes { OnOk result (Makes (λ v. row_executes v turn.old.at request
            (does_change v request)) self.old self.new turn.old turn.new) }
        ensures numbers { result ≡ Err fault.NumbersSpent
            → Overruns (λ v. row_executes v turn.old.at request (does_change v request)) self.old }
        ensures fault { result ≢ Err fault.Disk }
        ensures disk { KeepsDisk self.old.store self.new.store }
    {
        if self.service.changes(request.who, &request.op) {
            return self.transact(turn, request);
        }
        self.act(turn, request)
    }

    /// Executes a request that changes nothing: its act, the locks that come with it, and its reply.
    fn act(&mut self, turn: &mut Turn, request: Request) -> Result<(), TurnFault>
        requires names { self.old.kind ≡ kind.Mdt }
        requires stands { Stands self.old }
        requires waits { IsWaiting request self.old.requests }
        requires still { (v : Target) → Shows self.old v → does_change v request ≡ false }
        ensures makes { OnOk result (Makes (λ v. row_acts (names_deed v turn.old.at request none
            (locks_for v request))) self.old self.new turn.old turn.new) }
        ensures numbers { result ≡ Err fault.NumbersSpent
            → Overruns (λ v. row_acts (names_deed v turn.old.at request none (locks_for v request))) self.old }
        ensures fault { result ≢ Err fault.Disk }
        ensures disk { KeepsDisk self.old.store self.new.store }
    {
        let reply = self.told(turn.at(), &request)?;
        note_act(turn, self.alloc, &reply)?;
        self.answer(turn, request.tag, reply)
    }

    /// What a request that changes nothing is told; the locks that come with it are admitted.
    fn told(&mut self, at: At, request: &Request) -> Result<Reply, TurnFault>
        requires names { self.old.kind ≡ kind.Mdt }
        requires stands { Stands self.old }
        requires waits { IsWaiting request.now self.old.requests }
        requires still { (v : Target) → Shows self.old v → does_change v request.now ≡ false }
        ensures told { IfOk result (λ reply. HasTold S.acts at request.now reply self.old self.new) }
        ensures own { IfOk result (λ reply. reply.who ≡ request.now.who) }
        ensures numbers { result ≡ Err fault.NumbersSpent → LacksCookies request.now self.old }
        ensures fault { result ≢ Err fault.Disk }
        ensures disk { KeepsDisk self.old.store self.new.store }
    {
        let touched = self.service.touches(self.alloc, request.who, &request.op)?;
        let seen = self.store.seen(&touched)?;
        let wants = self.service.grants(self.alloc, request.who, &request.op)?;
        let answer = self
            .service
            .apply(self.alloc, Txn(0), request.who, &request.op)?;
        let locks = self.locks.admit(self.alloc, request.who, &wants)?;
        Ok(self.reply(at, Txn(0), request, seen, locks, answer))
    }

    /// Executes a request that changes something, as the next transaction: its line, and its reply.
    fn transact(&mut self, turn: &mut Turn, request: Request) -> Result<(), TurnFault>
        requires names { self.old.kind ≡ kind.Mdt }
        requires stands { Stands self.old }
        requires waits { IsWaiting request self.old.requests }
        requires changes { (v : Target) → Shows self.old v → does_change v request ≡ true }
        ensures makes { OnOk result (Makes (λ v. row_transacts
            (names_deed v turn.old.at request (next_number v) [])) self.old self.new turn.old turn.new) }
        ensures numbers { result ≡ Err fault.NumbersSpent
            → Overruns (λ v. row_transacts (names_deed v turn.old.at request (next_number v) [])) self.old }
        ensures fault { result ≢ Err fault.Disk }
        ensures disk { KeepsDisk self.old.store self.new.store }
    {
        let number = self.next()?;
        let written = self.service.writes(self.alloc, request.who, &request.op)?;
        let reply = self.told_as(turn.at(), number, &request)?;
        self.append(turn, request, written, reply)
    }

    /// What a request is told as the transaction of this number, above all that the service used.
    fn told_as(&mut self, at: At, number: Txn, request: &Request) -> Result<Reply, Memory>
        requires names { self.old.kind ≡ kind.Mdt }
        requires stands { Stands self.old }
        requires waits { IsWaiting request.now self.old.requests }
        requires above { self.old.contents.last < number.0 }
        ensures told { IfOk result (λ reply. HasToldAs S.acts at number request.now reply self.old self.new) }
        ensures own { IfOk result (λ reply. reply.who ≡ request.now.who) }
        ensures disk { KeepsDisk self.old.store self.new.store }
    {
        let touched = self.service.touches(self.alloc, request.who, &request.op)?;
        let seen = self.store.seen(&touched)?;
        let answer = self
            .service
            .apply(self.alloc, number, request.who, &request.op)?;
        let locks = Locks::new(self.alloc);
        Ok(self.reply(at, number, request, seen, locks, answer))
    }
}

/// Adds the line of an act, and the lines of the locks that come with it.
fn note_act(turn: &mut Turn, alloc: Global, reply: &Reply) -> Result<(), Memory>
    ensures noted { OnOk result ((d : Deed) → d.reply ≡ reply.now
        → turn.new ≡ giving turn.old (ActEntry d ∷ grant_lines d d.reply.locks)) }
{
    turn.note(Entry::Act {
        who: reply.who,
        xid: reply.xid,
        answer: reply.answer.copy(alloc)?,
    })?;
    note_grants(turn, &reply.locks)
}

/// Adds the lines of locks that are granted.
fn note_grants(turn: &mut Turn, locks: &Locks) -> Result<(), Memory>
    ensures noted { OnOk result ((d : Deed) → turn.new ≡ giving turn.old (grant_lines d locks.now)) }
{
    for lock in locks.as_slice() {
        turn.note(Entry::Grant(*lock))?;
    }
    Ok(())
}
