//! What requests at objects may carry.

ghost use Rattle.std.specs.Prelude.{◌≡◌, ◌<◌, Some, [], ◌∷◌, map, reverse, length, true, IsTrue, ◌↔◌, OnOk};
ghost use Rattle.std.specs.Option.{option_map};
ghost use Rattle.lu_judge_history.specs.Limited.{Limited};
ghost use Rattle.lu_spec_laws.specs.Words.Pasts.{Past, or_else};
ghost use Rattle.lu_spec_laws.specs.Words.Sends.{first_fit, as_reply};
ghost use Rattle.lu_spec_laws.specs.Words.Requests.{asked};
ghost use Rattle.lu_spec_laws.specs.Words.Pieces.{is_done};
ghost use Rattle.lu_spec_laws.specs.Laws.Messages.{Follows};
ghost use Rattle.lu_spec_laws.specs.Laws.History.{PieceAt, PieceOn, changed};
ghost use Rattle.lu_judge_pass.specs.Places.{Ordered};
ghost use Rattle.lu_judge_pass.specs.Tables.{sending_of};
ghost use Rattle.lu_judge_pass.specs.Ledgers.{ShowsLedger};
ghost use Rattle.lu_judge_calls.specs.Tables.{ShowsOpenCalls};
ghost use Rattle.lu_posix.specs.Limits.{KeepsPiece};
ghost use Rattle.lu_judge_history.specs.Carried.{ShowsCarried, HasNumber, carried_in};

use super::plays::is_piece_within;
use lu_base::{At, Memory, Node, Resource, TargetId, Who, Xid};
use lu_judge_calls::{Carrier, Done, Layouts, OpenCalls, Sent, file, is_within};
use lu_judge_pass::{Ledger, Sending};
use lu_msg::{Answer, Message, Op, Reply};
use lu_trace::{Entry, Line};
use std::alloc::Global;

/// The object that the operation changes: a put of no bytes changes none.
fn changed(op: &Op) -> Option<Resource>
    ensures { result ≡ changed op.now }
{
    match op {
        Op::Put {
            resource,
            bytes,
            ..
        } => {
            if bytes.is_empty() {
                None
            } else {
                Some(*resource)
            }
        }
        Op::Cut { resource, .. } => Some(*resource),
        _ => None,
    }
}

/// Whether this is the answer to a call that changes bytes, where it is done.
fn is_done(answer: &Answer) -> bool
    ensures { result ≡ is_done answer.now }
{
    match answer {
        Answer::Done => true,
        _ => false,
    }
}

/// The reply that the message is, where it is the target's to that request of the life.
fn as_reply<'a>(sending: &Sending<'a>, target: TargetId, who: Who, xid: Xid) -> Option<&'a Reply>
    ensures { option_map (λ r. r.now) result ≡ as_reply target.0 who xid.0 sending.now.from sending.now.message.now }
{
    match sending.message {
        Message::Reply(reply) => match sending.from {
            Node::Target(from) => {
                if from == target.0
                    && (reply.who.client == who.client
                        && reply.who.life == who.life
                        && reply.xid.0 == xid.0)
                {
                    Some(reply)
                } else {
                    None
                }
            }
            Node::Client(_) => None,
        },
        _ => None,
    }
}

/// The newer reply, where there is one, and else the one before.
fn or_before<'a>(newer: Option<&'a Reply>, before: Option<&'a Reply>) -> Option<&'a Reply>
    ensures { option_map (λ r. r.now) result
        ≡ or_else (option_map (λ r. r.now) newer.entry) (option_map (λ r. r.now) before.entry) }
{
    match newer {
        Some(reply) => Some(reply),
        None => before,
    }
}

/// The target's reply to that request of the life among the messages that a turn took: of several the last.
#[tactic(auto, using(crate::proofs::Replies::newest_first))]
fn reply_in<'a>(taken: &[Sending<'a>], target: TargetId, who: Who, xid: Xid) -> Option<&'a Reply>
    ensures { option_map (λ r. r.now) result
        ≡ first_fit (λ s. as_reply target.0 who xid.0 s.from s.message) (reverse (map sending_of taken.now)) }
{
    let mut found = None;
    for sending in taken {
        found = or_before(as_reply(sending, target, who, xid), found);
    }
    found
}

/// What each life heard and did, and when each request was first sent: by these it is known what a request may carry.
#[derive(Debug, Drop)]
pub(crate) struct Carried<'a> {
    /// The number of the newest message; 0 where none was sent.
    last: u64,
    done: Done<'a>,
    sent: Sent,
    layouts: Layouts<'a>,
}

impl<'a> Carried<'a> {
    /// Of no line. It takes no memory yet.
    pub(crate) fn new(alloc: Global) -> Carried<'a>
        ensures shows { ShowsCarried result [] }
    {
        Carried {
            last: 0,
            done: Done::new(alloc),
            sent: Sent::new(alloc),
            layouts: Layouts::new(alloc),
        }
    }

    /// A client hears a reply.
    fn hear(
        &mut self,
        ledger: &Ledger<'a>,
        client: u16,
        at: At,
        target: TargetId,
        xid: Xid,
    ) -> Result<(), Memory>
        requires own { at.node ≡ Node.Client client }
        ensures shows { OnOk result ((past : Past) → Ordered past → Follows past at → ShowsLedger ledger.now past
            → ShowsCarried self.old past
            → ShowsCarried self.new (record { at = at; entry = Entry.Heard target xid } ∷ past)) }
    {
        let who = ledger.lives.who(client);
        let Some(reply) = reply_in(ledger.present.taken(at), target, who, xid) else {
            return Ok(());
        };
        match &reply.answer {
            Answer::OpenFile { fid, layout, .. } => self.layouts.hear(who, *fid, layout),
            _ => Ok(()),
        }
    }

    /// A client is told that a call is done.
    fn tell(
        &mut self,
        ledger: &Ledger<'a>,
        calls: &OpenCalls<'a>,
        client: u16,
        at: At,
        slot: u8,
        turn: At,
        answer: &Answer,
    ) -> Result<(), Memory>
        requires own { at.node ≡ Node.Client client }
        requires done { is_done answer.now ≡ true }
        ensures shows { OnOk result ((past : Past) → Limited past → ShowsLedger ledger.now past
            → ShowsOpenCalls calls.now past → ShowsCarried self.old past
            → ShowsCarried self.new (record { at = at; entry = Entry.Told slot turn answer.now } ∷ past)) }
    {
        let Some(begun) = calls.call(client, slot) else {
            return Ok(());
        };
        let Some(fid) = file(&begun) else {
            return Ok(());
        };
        if !is_within(begun.call) {
            return Ok(());
        }
        self.done
            .add(ledger.lives.who(client), fid, self.last, begun.call)
    }

    /// Takes in the next line. The ledger and the calls show the lines before it. After want of memory nothing is known of
    /// the tables.
    pub(crate) fn step(
        &mut self,
        ledger: &Ledger<'a>,
        calls: &OpenCalls<'a>,
        line: &'a Line,
    ) -> Result<(), Memory>
        ensures shows { OnOk result ((past : Past) → Ordered past → Follows past line.now.at → HasNumber past line.now
            → Limited past → ShowsLedger ledger.now past → ShowsOpenCalls calls.now past
            → ShowsCarried self.old past → ShowsCarried self.new (line.now ∷ past)) }
    {
        match &line.entry {
            Entry::Send { number, .. } => {
                self.last = *number;
                self.sent.step(line)
            }
            Entry::Heard { target, xid } => match line.at.node {
                Node::Client(client) => self.hear(ledger, client, line.at, *target, *xid),
                Node::Target(_) => Ok(()),
            },
            Entry::Told { slot, at, answer } => match line.at.node {
                Node::Client(client) => {
                    if is_done(answer) {
                        self.tell(ledger, calls, client, line.at, *slot, *at, answer)
                    } else {
                        Ok(())
                    }
                }
                Node::Target(_) => Ok(()),
            },
            _ => Ok(()),
        }
    }

    /// Whether the request of the life at the object storage target, which asks for this operation, carries nothing but what
    /// its life wrote or cut before it was first sent.
    pub(crate) fn carries(&self, target: u16, who: Who, xid: Xid, op: Option<&Op>) -> bool
        ensures { (past : Past) → Limited past → ShowsCarried self.now past
            → option_map (λ o. o.now) op.entry ≡ asked past target who xid.0
            → IsTrue result ↔ PieceAt past target who xid.0 (option_map (λ o. o.now) op.entry) }
    {
        let Some(op) = op else {
            return true;
        };
        match changed(op) {
            Some(resource) => self.carries_piece(target, who, xid, op, resource),
            None => true,
        }
    }

    /// Whether the request carries to the object that it changes nothing but what its life wrote or cut to it before.
    fn carries_piece(&self, target: u16, who: Who, xid: Xid, op: &Op, resource: Resource) -> bool
        requires changed { changed op.now ≡ Some resource }
        ensures { (past : Past) → Limited past → ShowsCarried self.now past
            → Some op.now ≡ asked past target who xid.0
            → IsTrue result ↔ PieceOn past target who xid.0 op.now (Some resource) }
    {
        if !is_piece_within(op) {
            return false;
        }
        let Some(layout) = self.layouts.get(who, resource.fid) else {
            return false;
        };
        let Some(limit) = self.sent.first(target, who, xid) else {
            return false;
        };
        if resource.stripe >= layout.count() {
            return false;
        }
        let carrier = Carrier {
            who,
            fid: resource.fid,
            layout,
            stripe: resource.stripe,
            limit,
        };
        self.comes_from(&carrier, op)
    }

    /// Whether what the operation carries was written or cut before.
    fn comes_from(&self, carrier: &Carrier<'_>, op: &Op) -> bool
        requires stripe { carrier.now.stripe < length carrier.now.layout.now.targets }
        requires within { KeepsPiece op.now }
        ensures { result ≡ carried_in self.now.done carrier.now op.now }
    {
        match op {
            Op::Put { offset, bytes, .. } => {
                self.done.have_sources(carrier, *offset, bytes.as_slice())
            }
            Op::Cut { size, .. } => self.done.has_cut(carrier, *size),
            _ => true,
        }
    }
}
