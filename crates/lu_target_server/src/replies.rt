//! Replies, and the grants of locks that had waited.

ghost use Rattle.std.specs.Prelude.{◌≡◌, ◌≢◌, ◌+◌, ◌*◌, ◌^◌, ◌<◌, [], ◌∷◌, Some, Err, IfOk, IfErr, OnOk};
ghost use Rattle.lu_msg.specs.Limits.{tag_count};
ghost use Rattle.lu_msg.specs.declared.messages.Message.TheVariants as message;
ghost use Rattle.lu_spec_machine.specs.Objects.{object_size, range};
ghost use Rattle.lu_service.specs.declared.services.Kind.TheVariants as kind;
ghost use Rattle.lu_service.specs.Contents.{object_in};
ghost use Rattle.lu_trace.specs.declared.entries.Entry.TheVariants as line;
ghost use Rattle.lu_trace.specs.Turns.{with_line};
ghost use Rattle.lu_spec_entries.specs.Carried.{Deed};
ghost use Rattle.lu_spec_entries.specs.Words.{Txn as TxnEntry};
ghost use Rattle.lu_spec_target.specs.Queues.{extent_of, grant_message};
ghost use Rattle.lu_spec_target.specs.Replies.{next_number, none, reply_to, row_kept, to_life, replies};
ghost use Rattle.lu_spec_target.specs.States.{Target};
ghost use Rattle.lu_txn.specs.Journals.{count, most_numbers};
ghost use Rattle.lu_target_store.specs.Stores.{Serves, KeepsDisk};
ghost use Rattle.lu_spec_entries.specs.Given.{giving};
ghost use Rattle.lu_target_server.specs.Answering.{Tells, TellsSizes, MayAnswer, IsAnswered, IsAppended};
ghost use Rattle.lu_target_server.specs.declared.faults.TurnFault.TheVariants as fault;

use super::faults::TurnFault;
use super::saying::say;
use super::server::Server;
use lu_base::{At, Duplicate, Extent, Lock, Locks, Memory, Numbers, Policy, Resource, Txn, Who};
use lu_disk::Disk;
use lu_msg::{Answer, GrantNotice, Message, Op, Reply, Request};
use lu_part::{Part, Parts};
use lu_service::Service;
use lu_trace::{Entry, Turn};
use std::alloc::Global;

/// The range of a lock on an object.
pub(crate) fn extent_of(lock: &Lock) -> Extent
    ensures extent { result ≡ extent_of lock.now }
{
    match lock.ask.policy {
        Policy::Range(extent) => extent,
        Policy::Bits(_) => Extent { first: 0, last: 0 },
    }
}

/// The bytes of a range of an object, as a part.
pub(crate) fn range(alloc: Global, resource: Resource, extent: Extent) -> Result<Parts, Memory>
    ensures range { IfOk result (λ parts. parts ≡ range resource extent.first extent.last) }
{
    let mut parts = Parts::new(alloc);
    parts.push(Part::Bytes(resource.fid, resource.stripe, extent))?;
    Ok(parts)
}

impl<S: Service, D: Disk> Server<S, D> {
    /// The number of the next transaction. `NumbersSpent` exactly where this boot's count stands at 2^32 - 1.
    pub(crate) fn next(&self) -> Result<Txn, TurnFault>
        ensures number { IfOk result (λ number. (v : Target) → Serves self.now.store v → number ≡ next_number v) }
        ensures value { IfOk result (λ number. number.0
            ≡ self.now.store.journal.boot * 2 ^ 32 + count self.now.store.journal + 1) }
        ensures above { IfOk result (λ number. self.now.store.journal.newest < number.0) }
        ensures boot { IfOk result (λ number. number.0 < (self.now.store.journal.boot + 1) * 2 ^ 32) }
        ensures room { IfOk result (λ number. count self.now.store.journal < most_numbers) }
        ensures spent { IfErr result (λ f. (f ≡ fault.NumbersSpent) × (count self.now.store.journal ≡ most_numbers)) }
    {
        match self.store.next() {
            Ok(number) => Ok(number),
            Err(_) => Err(TurnFault::NumbersSpent),
        }
    }

    /// The reply to a request, which is executed in this turn.
    pub(crate) fn reply(
        &self,
        at: At,
        number: Txn,
        request: &Request,
        seen: Numbers,
        locks: Locks,
        answer: Answer,
    ) -> Reply
        ensures reply { (v : Target) → Tells self.now v → result ≡ reply_to v request.now number seen at locks answer }
        ensures own { result.who ≡ request.now.who }
        ensures xid { result.xid ≡ request.now.xid }
    {
        Reply {
            who: request.who,
            boot: self.boot,
            xid: request.xid,
            txn: number,
            committed: self.store.last_committed(),
            seen,
            at,
            locks,
            answer,
        }
    }

    /// The reply to a request that makes no transaction and gets no locks.
    pub(crate) fn plain_reply(
        &self,
        at: At,
        request: &Request,
        seen: Numbers,
        answer: Answer,
    ) -> Reply
        ensures reply { (v : Target) → Tells self.now v → result ≡ reply_to v request.now none seen at [] answer }
        ensures own { result.who ≡ request.now.who }
        ensures xid { result.xid ≡ request.now.xid }
    {
        let locks = Locks::new(self.alloc);
        self.reply(at, Txn(0), request, seen, locks, answer)
    }

    /// Answers a request that made no transaction: it waits no longer, and its reply is kept and sent.
    pub(crate) fn answer(&mut self, turn: &mut Turn, tag: u8, reply: Reply) -> Result<(), TurnFault>
        requires may { MayAnswer tag reply self.old }
        requires tag { tag < tag_count }
        ensures sent { OnOk result (turn.new ≡ giving turn.old (to_life reply.who (message.Reply reply) ∷ [])) }
        ensures answered { OnOk result (IsAnswered tag reply self.old self.new) }
        ensures numbers { result ≢ Err fault.NumbersSpent }
        ensures fault { result ≢ Err fault.Disk }
        ensures disk { KeepsDisk self.old.store self.new.store }
    {
        let sent = reply.copy(self.alloc)?;
        self.requests.remove(reply.who, reply.xid);
        self.store.keep(tag, reply)?;
        say(turn, sent.who, Message::Reply(sent))?;
        Ok(())
    }

    /// Sends a kept reply again, with the present boot and committed number.
    pub(crate) fn answer_again(&self, turn: &mut Turn, kept: &Reply) -> Result<(), Memory>
        ensures sent { OnOk result ((v : Target) → Tells self.now v
            → turn.new ≡ giving turn.old (row_kept v (Some kept.now))) }
    {
        let mut again = kept.copy(self.alloc)?;
        again.boot = self.boot;
        again.committed = self.store.last_committed();
        say(turn, again.who, Message::Reply(again))
    }

    /// How long an object is, in bytes.
    pub(crate) fn size_of(&mut self, who: Who, resource: Resource) -> Result<u64, Memory>
        requires objects { self.old.kind ≡ kind.Ost }
        ensures size { IfOk result (λ size. size ≡ object_size (object_in self.old.contents.objects resource)) }
        ensures same { OnOk result (self.new ≡ self.old) }
        ensures disk { KeepsDisk self.old.store self.new.store }
    {
        match self
            .service
            .apply(self.alloc, Txn(0), who, &Op::Size(resource))?
        {
            Answer::Size(size) => Ok(size),
            _ => unreachable!(),
        }
    }

    /// Tells a lock's holder that it is granted.
    pub(crate) fn say_grant(&mut self, turn: &mut Turn, lock: &Lock) -> Result<(), Memory>
        requires objects { self.old.kind ≡ kind.Ost }
        ensures sent { OnOk result ((v : Target) → TellsSizes self.old v
            → turn.new ≡ giving turn.old (grant_message v lock.now ∷ [])) }
        ensures same { OnOk result (self.new ≡ self.old) }
        ensures disk { KeepsDisk self.old.store self.new.store }
    {
        let extent = extent_of(lock);
        let size = self.size_of(lock.ask.who, lock.resource)?;
        let touched = range(self.alloc, lock.resource, extent)?;
        let seen = self.store.seen(&touched)?;
        let notice = GrantNotice {
            who: lock.ask.who,
            boot: self.boot,
            cookie: lock.cookie,
            extent,
            size,
            committed: self.store.last_committed(),
            seen,
        };
        say(turn, lock.ask.who, Message::Grant(notice))
    }
}

impl<S: Service, D: Disk> Server<S, D> {
    /// A request made a transaction: its line, and its reply. It waits no longer.
    pub(crate) fn append(
        &mut self,
        turn: &mut Turn,
        request: Request,
        written: Parts,
        reply: Reply,
    ) -> Result<(), TurnFault>
        requires may { MayAnswer request.tag reply self.old }
        requires tag { request.tag < tag_count }
        requires above { self.old.store.journal.newest < reply.txn.0 }
        requires boot { reply.txn.0 < (self.old.store.journal.boot + 1) * 2 ^ 32 }
        ensures sent { OnOk result (let d : Deed = record {
          tag = request.tag;
          op = request.op;
          writes = written;
          reply = reply;
        } in
            turn.new ≡ giving turn.old (TxnEntry d ∷ replies d ∷ [])) }
        ensures appended { OnOk result (IsAppended
            (record { tag = request.tag; op = request.op; writes = written; reply = reply }) self.old self.new) }
        ensures numbers { result ≢ Err fault.NumbersSpent }
        ensures fault { result ≢ Err fault.Disk }
        ensures disk { KeepsDisk self.old.store self.new.store }
    {
        turn.note(Entry::Txn {
            txn: reply.txn,
            who: reply.who,
            xid: reply.xid,
            seen: reply.seen.copy(self.alloc)?,
            answer: reply.answer.copy(self.alloc)?,
        })?;
        let sent = reply.copy(self.alloc)?;
        self.requests.remove(reply.who, reply.xid);
        self.store.append(request.tag, request.op, written, reply)?;
        say(turn, sent.who, Message::Reply(sent))?;
        Ok(())
    }
}
