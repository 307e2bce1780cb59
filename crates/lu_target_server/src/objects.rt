//! Requests at an object storage target.

ghost use Rattle.std.specs.Prelude.{◌≡◌, ◌≢◌, ◌+◌, ◌*◌, ◌≤◌, true, [], ◌∷◌, Some, Err, OnOk};
ghost use Rattle.lu_lock.specs.Overlap.{extents_meet};
ghost use Rattle.lu_spec_machine.specs.Objects.{object_touches, page_size, page_extent, content};
ghost use Rattle.lu_msg.specs.declared.answers.Answer.TheVariants as told;
ghost use Rattle.lu_msg.specs.declared.operations.Op.TheVariants as op;
ghost use Rattle.lu_service.specs.Acts.{common};
ghost use Rattle.lu_service.specs.Contents.{most_bytes};
ghost use Rattle.lu_service.specs.declared.services.Kind.TheVariants as kind;
ghost use Rattle.lu_service.specs.Objects.{alters};
ghost use Rattle.lu_service.specs.Takes.{Takes};
ghost use Rattle.lu_spec_entries.specs.Words.{Wait};
ghost use Rattle.lu_spec_target.specs.Glimpses.{answered};
ghost use Rattle.lu_spec_target.specs.Objects.{objects_go, lock_for, lock_of, row_enqueue, row_granted, row_get, row_written, written};
ghost use Rattle.lu_spec_target.specs.Queues.{extent_of, object, size_of};
ghost use Rattle.lu_spec_target.specs.Replies.{locks_on, replies};
ghost use Rattle.lu_spec_target.specs.States.{Target};
ghost use Rattle.lu_target_store.specs.Stores.{KeepsDisk};
ghost use Rattle.lu_spec_entries.specs.Given.{giving};
ghost use Rattle.lu_target_server.specs.Numbers.{Overruns};
ghost use Rattle.lu_target_server.specs.Objects.{AsksFor, Reads, IsWrite};
ghost use Rattle.lu_target_server.specs.Requests.{request_of};
ghost use Rattle.lu_target_server.specs.Answering.{Tells, TellsSizes, MayRefuse, IsAnswered};
ghost use Rattle.lu_target_server.specs.Servers.{Stands, Makes, IsUnasked};
ghost use Rattle.lu_target_server.specs.declared.faults.TurnFault.TheVariants as fault;

use super::faults::TurnFault;
use super::replies::{extent_of, range};
use super::server::Server;
use lu_base::{Ask, Cookie, Duplicate, Extent, Lock, Locks, Mode, Numbers, Policy, Resource};
use lu_disk::Disk;
use lu_msg::{Answer, Op, Request};
use lu_service::{Service, covered};
use lu_target_locks::Enqueued;
use lu_trace::{Entry, Turn};

/// The bytes of a page.
const PAGE: u64 = 4096;

/// The offsets of a page that lie in this range, which meets it.
fn part_of(page: u64, extent: Extent) -> Extent
    requires end { (page + 1) * page_size ≤ most_bytes }
    ensures part { result ≡ common (page_extent page) extent }
{
    let first = page * PAGE;
    let last = first + (PAGE - 1);
    Extent {
        first: first.max(extent.first),
        last: last.min(extent.last),
    }
}

impl<S: Service, D: Disk> Server<S, D> {
    /// A request on an object goes on.
    pub(crate) fn objects_go(&mut self, turn: &mut Turn, request: &Request) -> Result<(), TurnFault>
        requires objects { self.old.kind ≡ kind.Ost }
        requires stands { Stands self.old }
        requires takes { Takes kind.Ost request.now.op }
        requires waits { request_of request.now.who request.now.xid self.old.requests ≡ Some request.now }
        requires unasked { IsUnasked request.now self.old }
        ensures makes { OnOk result (Makes (λ v. objects_go v turn.old.at request.now request.now.op)
            self.old self.new turn.old turn.new) }
        ensures numbers { result ≡ Err fault.NumbersSpent
            → Overruns (λ v. objects_go v turn.old.at request.now request.now.op) self.old }
        ensures fault { result ≢ Err fault.Disk }
        ensures disk { KeepsDisk self.old.store self.new.store }
    {
        match &request.op {
            Op::Enqueue {
                resource,
                mode,
                extent,
            } => self.enqueue(turn, request, *resource, *mode, *extent),
            Op::Get {
                resource,
                cookie,
                page,
            } => self.get(turn, request, *resource, *cookie, *page),
            Op::Put { cookie, .. } | Op::Cut { cookie, .. } => self.write(turn, request, *cookie),
            Op::Size(resource) => self.size(turn, request, *resource),
            _ => Ok(()),
        }
    }

    /// A lock is asked for: it is granted or waits, is answered so, and then calls back what is in its way.
    fn enqueue(
        &mut self,
        turn: &mut Turn,
        request: &Request,
        resource: Resource,
        mode: Mode,
        extent: Extent,
    ) -> Result<(), TurnFault>
        requires objects { self.old.kind ≡ kind.Ost }
        requires stands { Stands self.old }
        requires op { request.now.op ≡ op.Enqueue resource mode extent }
        requires ordered { extent.first ≤ extent.last }
        requires waits { request_of request.now.who request.now.xid self.old.requests ≡ Some request.now }
        requires unasked { IsUnasked request.now self.old }
        ensures makes { OnOk result (Makes
            (λ v. row_enqueue v turn.old.at request.now (lock_for v request.now resource mode extent))
            self.old self.new turn.old turn.new) }
        ensures numbers { result ≡ Err fault.NumbersSpent
            → Overruns (λ v. row_enqueue v turn.old.at request.now
            (lock_for v request.now resource mode extent)) self.old }
        ensures fault { result ≢ Err fault.Disk }
        ensures disk { KeepsDisk self.old.store self.new.store }
    {
        let ask = Ask {
            who: request.who,
            mode,
            policy: Policy::Range(extent),
        };
        match self.locks.enqueue(self.alloc, resource, ask)? {
            Enqueued::Granted(lock) => self.granted(turn, request, lock),
            Enqueued::Waiting(lock) => {
                self.waiting(turn, request, lock)?;
                let called = self.locks.call_back(self.alloc, resource)?;
                Ok(self.say_blocks(turn, called)?)
            }
        }
    }

    /// The asked lock was granted so.
    fn granted(&mut self, turn: &mut Turn, request: &Request, lock: Lock) -> Result<(), TurnFault>
        requires objects { self.old.kind ≡ kind.Ost }
        requires may { MayRefuse request.now self.old }
        requires op { AsksFor lock.resource request.now.op }
        ensures sent { OnOk result ((v : Target) → TellsSizes self.old v
            → turn.new ≡ giving turn.old (row_granted v turn.old.at request.now lock)) }
        ensures answered { OnOk result ((v : Target) → TellsSizes self.old v
            → IsAnswered request.now.tag (answered v turn.old.at request.now
            (told.Granted lock.cookie (extent_of lock) (size_of v lock.resource))).reply self.old self.new) }
        ensures numbers { result ≢ Err fault.NumbersSpent }
        ensures fault { result ≢ Err fault.Disk }
        ensures disk { KeepsDisk self.old.store self.new.store }
    {
        let extent = extent_of(&lock);
        let size = self.size_of(request.who, lock.resource)?;
        let touched = range(self.alloc, lock.resource, extent)?;
        let seen = self.store.seen(&touched)?;
        turn.note(Entry::Grant(lock))?;
        let answer = Answer::Granted {
            cookie: lock.cookie,
            extent,
            size,
        };
        let reply = self.plain_reply(turn.at(), request, seen, answer);
        self.answer(turn, request.tag, reply)
    }

    /// The asked lock waits.
    fn waiting(&mut self, turn: &mut Turn, request: &Request, lock: Lock) -> Result<(), TurnFault>
        requires may { MayRefuse request.now self.old }
        requires op { AsksFor lock.resource request.now.op }
        ensures sent { OnOk result ((v : Target) → Tells self.old v
            → turn.new ≡ (let d = answered v turn.old.at request.now (told.Waiting lock.cookie) in
            giving turn.old (Wait lock d ∷ replies d ∷ []))) }
        ensures answered { OnOk result ((v : Target) → Tells self.old v
            → IsAnswered request.now.tag (answered v turn.old.at request.now (told.Waiting lock.cookie)).reply
            self.old self.new) }
        ensures numbers { result ≢ Err fault.NumbersSpent }
        ensures fault { result ≢ Err fault.Disk }
        ensures disk { KeepsDisk self.old.store self.new.store }
    {
        turn.note(Entry::Wait(lock))?;
        self.answer_unseen(turn, request, Answer::Waiting(lock.cookie))
    }

    /// Answers a request that has seen nothing.
    pub(crate) fn answer_unseen(
        &mut self,
        turn: &mut Turn,
        request: &Request,
        answer: Answer,
    ) -> Result<(), TurnFault>
        requires may { MayRefuse request.now self.old }
        requires unseen { object_touches request.now.op answer ≡ [] }
        ensures sent { OnOk result ((v : Target) → Tells self.old v
            → turn.new ≡ giving turn.old (replies (answered v turn.old.at request.now answer) ∷ [])) }
        ensures answered { OnOk result ((v : Target) → Tells self.old v
            → IsAnswered request.now.tag (answered v turn.old.at request.now answer).reply self.old self.new) }
        ensures numbers { result ≢ Err fault.NumbersSpent }
        ensures fault { result ≢ Err fault.Disk }
        ensures disk { KeepsDisk self.old.store self.new.store }
    {
        let seen = Numbers::new(self.alloc);
        let reply = self.plain_reply(turn.at(), request, seen, answer);
        self.answer(turn, request.tag, reply)
    }

    /// A page is read, as far as the lock goes.
    fn get(
        &mut self,
        turn: &mut Turn,
        request: &Request,
        resource: Resource,
        cookie: Cookie,
        page: u64,
    ) -> Result<(), TurnFault>
        requires objects { self.old.kind ≡ kind.Ost }
        requires stands { Stands self.old }
        requires op { request.now.op ≡ op.Get resource cookie page }
        requires end { (page + 1) * page_size ≤ most_bytes }
        requires waits { request_of request.now.who request.now.xid self.old.requests ≡ Some request.now }
        requires unasked { IsUnasked request.now self.old }
        ensures makes { OnOk result (Makes (λ v. row_get v turn.old.at request.now resource page
            (lock_of request.now.who cookie (locks_on resource v.granted))) self.old self.new turn.old turn.new) }
        ensures numbers { result ≢ Err fault.NumbersSpent }
        ensures fault { result ≢ Err fault.Disk }
        ensures disk { KeepsDisk self.old.store self.new.store }
    {
        match self.locks.find(request.who, cookie) {
            Some(lock) if covered(&request.op, Some(&lock), request.who) => {
                self.read(turn, request, resource, page, extent_of(&lock))
            }
            _ => self.answer_unseen(turn, request, Answer::Uncovered),
        }
    }

    /// A page is read, under a lock on this range, which meets it.
    fn read(
        &mut self,
        turn: &mut Turn,
        request: &Request,
        resource: Resource,
        page: u64,
        extent: Extent,
    ) -> Result<(), TurnFault>
        requires objects { self.old.kind ≡ kind.Ost }
        requires may { MayRefuse request.now self.old }
        requires op { Reads resource page request.now.op }
        requires end { (page + 1) * page_size ≤ most_bytes }
        requires meets { extents_meet extent (page_extent page) ≡ true }
        ensures sent { OnOk result ((v : Target) → TellsSizes self.old v
            → turn.new ≡ giving turn.old (replies (answered v turn.old.at request.now
            (told.Content (content page extent (object v resource)))) ∷ [])) }
        ensures answered { OnOk result ((v : Target) → TellsSizes self.old v
            → IsAnswered request.now.tag (answered v turn.old.at request.now
            (told.Content (content page extent (object v resource)))).reply self.old self.new) }
        ensures numbers { result ≢ Err fault.NumbersSpent }
        ensures fault { result ≢ Err fault.Disk }
        ensures disk { KeepsDisk self.old.store self.new.store }
    {
        let bytes = self
            .service
            .read(self.alloc, resource, part_of(page, extent))?;
        let touched = self.service.touches(self.alloc, request.who, &request.op)?;
        let seen = self.store.seen(&touched)?;
        let reply = self.plain_reply(turn.at(), request, seen, Answer::Content(bytes));
        self.answer(turn, request.tag, reply)
    }

    /// A put or a cut.
    fn write(&mut self, turn: &mut Turn, request: &Request, cookie: Cookie) -> Result<(), TurnFault>
        requires objects { self.old.kind ≡ kind.Ost }
        requires stands { Stands self.old }
        requires takes { Takes kind.Ost request.now.op }
        requires op { IsWrite cookie request.now.op }
        requires waits { request_of request.now.who request.now.xid self.old.requests ≡ Some request.now }
        requires unasked { IsUnasked request.now self.old }
        ensures makes { OnOk result (Makes (λ v. objects_go v turn.old.at request.now request.now.op)
            self.old self.new turn.old turn.new) }
        ensures numbers { result ≡ Err fault.NumbersSpent
            → Overruns (λ v. objects_go v turn.old.at request.now request.now.op) self.old }
        ensures fault { result ≢ Err fault.Disk }
        ensures disk { KeepsDisk self.old.store self.new.store }
    {
        let lock = self.locks.find(request.who, cookie);
        if !covered(&request.op, lock.as_ref(), request.who) {
            return self.answer_unseen(turn, request, Answer::Uncovered);
        }
        self.perform_write(turn, request)
    }

    /// A put or a cut that a lock covers, as the next transaction.
    fn perform_write(&mut self, turn: &mut Turn, request: &Request) -> Result<(), TurnFault>
        requires objects { self.old.kind ≡ kind.Ost }
        requires stands { Stands self.old }
        requires takes { Takes kind.Ost request.now.op }
        requires alters { alters request.now.op ≡ true }
        requires waits { request_of request.now.who request.now.xid self.old.requests ≡ Some request.now }
        requires unasked { IsUnasked request.now self.old }
        ensures makes { OnOk result (Makes (λ v. row_written (written v turn.old.at request.now))
            self.old self.new turn.old turn.new) }
        ensures numbers { result ≡ Err fault.NumbersSpent
            → Overruns (λ v. row_written (written v turn.old.at request.now)) self.old }
        ensures fault { result ≢ Err fault.Disk }
        ensures disk { KeepsDisk self.old.store self.new.store }
    {
        let number = self.next()?;
        let written = self.service.writes(self.alloc, request.who, &request.op)?;
        let answer = self
            .service
            .apply(self.alloc, number, request.who, &request.op)?;
        let seen = Numbers::new(self.alloc);
        let locks = Locks::new(self.alloc);
        let reply = self.reply(turn.at(), number, request, seen, locks, answer);
        let request = request.copy(self.alloc)?;
        self.append(turn, request, written, reply)
    }
}
