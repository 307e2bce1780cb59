//! How long an object is, as its target or the holder of a lock on it says.

ghost use Rattle.std.specs.Prelude.{◌≡◌, ◌≢◌, true, [], ◌∷◌, Some, Err, OnOk};
ghost use Rattle.std.specs.List.{list_any};
ghost use Rattle.lu_base.specs.declared.ids.Who.{Who as SpecWho};
ghost use Rattle.lu_msg.specs.declared.answers.Answer.TheVariants as told;
ghost use Rattle.lu_msg.specs.declared.messages.Request.{Request as SpecRequest};
ghost use Rattle.lu_msg.specs.declared.operations.Op.TheVariants as op;
ghost use Rattle.lu_service.specs.declared.services.Kind.TheVariants as kind;
ghost use Rattle.lu_spec_target.specs.Glimpses.{answered, asked_for, by_holder, row_report, row_size, row_sizes, row_asks, row_locked, highest};
ghost use Rattle.lu_spec_target.specs.Replies.{locks_on, replies};
ghost use Rattle.lu_spec_target.specs.States.{Target};
ghost use Rattle.lu_target_refines.specs.Callbacks.{is_of_lock};
ghost use Rattle.lu_target_store.specs.Stores.{KeepsDisk};
ghost use Rattle.lu_spec_entries.specs.Given.{giving};
ghost use Rattle.lu_target_server.specs.Objects.{AsksSize};
ghost use Rattle.lu_target_server.specs.Requests.{request_of};
ghost use Rattle.lu_target_server.specs.Answering.{Tells, TellsSizes, MayRefuse, IsAnswered};
ghost use Rattle.lu_target_server.specs.Servers.{Shows, Stands, Makes, IsUnasked};
ghost use Rattle.lu_target_server.specs.declared.faults.TurnFault.TheVariants as fault;

use super::faults::TurnFault;
use super::replies::{extent_of, range};
use super::saying::say_ask;
use super::server::Server;
use lu_base::{At, Duplicate, Extent, Lock, Node, Resource, Who, Xid};
use lu_disk::Disk;
use lu_msg::{Answer, Request, SizeReport};
use lu_service::Service;
use lu_trace::{Entry, Turn};

impl<S: Service, D: Disk> Server<S, D> {
    /// The target says it where no write lock is granted, or where the one of greatest start ends before the object
    /// does; the holder of one to the end is asked; in each other case the asker is told to take a lock.
    pub(crate) fn size(
        &mut self,
        turn: &mut Turn,
        request: &Request,
        resource: Resource,
    ) -> Result<(), TurnFault>
        requires objects { self.old.kind ≡ kind.Ost }
        requires stands { Stands self.old }
        requires op { request.now.op ≡ op.Size resource }
        requires waits { request_of request.now.who request.now.xid self.old.requests ≡ Some request.now }
        requires unasked { IsUnasked request.now self.old }
        ensures makes { OnOk result (Makes
            (λ v. row_size v turn.old.at request.now resource (highest (locks_on resource v.granted)))
            self.old self.new turn.old turn.new) }
        ensures numbers { result ≢ Err fault.NumbersSpent }
        ensures fault { result ≢ Err fault.Disk }
        ensures disk { KeepsDisk self.old.store self.new.store }
    {
        let size = self.size_of(request.who, resource)?;
        match self.locks.highest(resource) {
            None => self.say_size(turn, request, resource, size),
            Some(lock) if extent_of(&lock).last == u64::MAX => {
                self.ask(turn, request, resource, &lock)
            }
            Some(lock) if extent_of(&lock).last < size => {
                self.say_size(turn, request, resource, size)
            }
            Some(_) => self.answer_unseen(turn, request, Answer::Lock),
        }
    }

    /// The target itself says that an object is so long.
    fn say_size(
        &mut self,
        turn: &mut Turn,
        request: &Request,
        resource: Resource,
        size: u64,
    ) -> Result<(), TurnFault>
        requires may { MayRefuse request.now self.old }
        requires op { request.now.op ≡ op.Size resource }
        ensures sent { OnOk result ((v : Target) → Tells self.old v
            → turn.new ≡ giving turn.old (row_sizes (answered v turn.old.at request.now (told.Size size)))) }
        ensures answered { OnOk result ((v : Target) → Tells self.old v
            → IsAnswered request.now.tag (answered v turn.old.at request.now
            (told.Size size)).reply self.old self.new) }
        ensures numbers { result ≢ Err fault.NumbersSpent }
        ensures fault { result ≢ Err fault.Disk }
        ensures disk { KeepsDisk self.old.store self.new.store }
    {
        let whole = Extent {
            first: 0,
            last: u64::MAX,
        };
        let touched = range(self.alloc, resource, whole)?;
        let seen = self.store.seen(&touched)?;
        turn.note(Entry::Act {
            who: request.who,
            xid: request.xid,
            answer: Answer::Size(size),
        })?;
        let reply = self.plain_reply(turn.at(), request, seen, Answer::Size(size));
        self.answer(turn, request.tag, reply)
    }

    /// The holder of a lock is asked.
    fn ask(
        &mut self,
        turn: &mut Turn,
        request: &Request,
        resource: Resource,
        lock: &Lock,
    ) -> Result<(), TurnFault>
        requires objects { self.old.kind ≡ kind.Ost }
        requires op { request.now.op ≡ op.Size resource }
        requires held { (v : Target) → Shows self.old v → list_any (is_of_lock lock.now.cookie) v.granted ≡ true }
        requires waits { request_of request.now.who request.now.xid self.old.requests ≡ Some request.now }
        requires unasked { IsUnasked request.now self.old }
        ensures makes { OnOk result (Makes (λ v. row_asks v request.now resource lock.now)
            self.old self.new turn.old turn.new) }
        ensures numbers { result ≢ Err fault.NumbersSpent }
        ensures fault { result ≢ Err fault.Disk }
        ensures disk { KeepsDisk self.old.store self.new.store }
    {
        self.locks.ask_size(lock.cookie, request.who, request.xid)?;
        say_ask(turn, lock, self.boot, request.who, request.xid)?;
        Ok(())
    }

    /// What the holder of a lock says, which counts while it is asked.
    pub fn report(&mut self, turn: &mut Turn, report: &SizeReport) -> Result<(), TurnFault>
        requires stands { Stands self.old }
        ensures makes { OnOk result (Makes (λ v. row_report v turn.old.at report.now (asked_for report.now v.glimpses))
            self.old self.new turn.old turn.new) }
        ensures numbers { result ≢ Err fault.NumbersSpent }
        ensures fault { result ≢ Err fault.Disk }
        ensures disk { KeepsDisk self.old.store self.new.store }
    {
        if !self.locks.report(report) {
            return Ok(());
        }
        match report.size {
            Some(size) => self.say_holders(turn, report, size),
            None => self.say_lock(turn, report.for_who, report.xid),
        }
    }

    /// A request that waits is told what the holder said, in the holder's turn.
    fn say_holders(
        &mut self,
        turn: &mut Turn,
        report: &SizeReport,
        size: u64,
    ) -> Result<(), TurnFault>
        requires objects { self.old.kind ≡ kind.Ost }
        requires may { (r : SpecRequest) → request_of report.now.for_who report.now.xid self.old.requests ≡ Some r
            → MayRefuse r self.old }
        requires sizes { (r : SpecRequest) → request_of report.now.for_who report.now.xid self.old.requests ≡ Some r
            → AsksSize r.op }
        ensures sent { OnOk result ((v : Target) (r : SpecRequest) → Tells self.old v
            → request_of report.now.for_who report.now.xid self.old.requests ≡ Some r
            → turn.new ≡ giving turn.old (replies (answered v (by_holder report.now) r (told.Size size)) ∷ [])) }
        ensures answered { OnOk result ((v : Target) (r : SpecRequest) → Tells self.old v
            → request_of report.now.for_who report.now.xid self.old.requests ≡ Some r
            → IsAnswered r.tag (answered v (by_holder report.now) r (told.Size size)).reply self.old self.new) }
        ensures numbers { result ≢ Err fault.NumbersSpent }
        ensures fault { result ≢ Err fault.Disk }
        ensures disk { KeepsDisk self.old.store self.new.store }
    {
        let Some(request) = self.requests.find(report.for_who, report.xid) else {
            return Ok(());
        };
        let request = request.copy(self.alloc)?;
        self.say_reported(turn, &request, report, size)
    }

    /// The same of this request.
    fn say_reported(
        &mut self,
        turn: &mut Turn,
        request: &Request,
        report: &SizeReport,
        size: u64,
    ) -> Result<(), TurnFault>
        requires objects { self.old.kind ≡ kind.Ost }
        requires may { MayRefuse request.now self.old }
        requires sizes { AsksSize request.now.op }
        ensures sent { OnOk result ((v : Target) → Tells self.old v
            → turn.new ≡ giving turn.old (replies (answered v (by_holder report.now) request.now (told.Size size))
            ∷ [])) }
        ensures answered { OnOk result ((v : Target) → Tells self.old v
            → IsAnswered request.now.tag (answered v (by_holder report.now) request.now (told.Size size)).reply
            self.old self.new) }
        ensures numbers { result ≢ Err fault.NumbersSpent }
        ensures fault { result ≢ Err fault.Disk }
        ensures disk { KeepsDisk self.old.store self.new.store }
    {
        let touched = self.service.touches(self.alloc, request.who, &request.op)?;
        let seen = self.store.seen(&touched)?;
        let at = At {
            stamp: report.stamp,
            node: Node::Client(report.who.client),
        };
        let reply = self.plain_reply(at, request, seen, Answer::Size(size));
        self.answer(turn, request.tag, reply)
    }

    /// A request that waits for a holder's word is told to take a lock.
    pub(crate) fn say_lock(&mut self, turn: &mut Turn, who: Who, xid: Xid) -> Result<(), TurnFault>
        requires may { (r : SpecRequest) → request_of who xid self.old.requests ≡ Some r → MayRefuse r self.old }
        ensures sent { OnOk result ((v : Target) (r : SpecRequest) → Tells self.old v
            → request_of who xid self.old.requests ≡ Some r → turn.new ≡ giving turn.old (row_locked v turn.old.at r)) }
        ensures answered { OnOk result ((v : Target) (r : SpecRequest) → Tells self.old v
            → request_of who xid self.old.requests ≡ Some r
            → IsAnswered r.tag (answered v turn.old.at r told.Lock).reply self.old self.new) }
        ensures numbers { result ≢ Err fault.NumbersSpent }
        ensures fault { result ≢ Err fault.Disk }
        ensures disk { KeepsDisk self.old.store self.new.store }
    {
        let Some(request) = self.requests.find(who, xid) else {
            return Ok(());
        };
        let request = request.copy(self.alloc)?;
        self.answer_unseen(turn, &request, Answer::Lock)
    }
}
