//! The law of acts, decided from tables.

ghost use Rattle.std.specs.Prelude.{◌≡◌, ℕ, true, false, ◌||◌, [], ◌∷◌, map, reverse, Some, None, IfOk, IsTrue, ◌↔◌};
ghost use Rattle.std.specs.List.{list_any};
ghost use Rattle.std.specs.Option.{option_map};
ghost use Rattle.lu_base.specs.declared.ids.At.{At as AtOf};
ghost use Rattle.lu_trace.specs.WellFormed.{IsWellFormed};
ghost use Rattle.lu_spec_laws.specs.Words.Pasts.{Past, same_turn};
ghost use Rattle.lu_spec_laws.specs.Words.Lives.{is_gone};
ghost use Rattle.lu_spec_laws.specs.Words.Lost.{is_lost};
ghost use Rattle.lu_spec_laws.specs.Words.Requests.{first_request, asked};
ghost use Rattle.lu_spec_laws.specs.Words.Calls.{heard_in, operation};
ghost use Rattle.lu_spec_laws.specs.Holds.{Holds};
ghost use Rattle.lu_spec_laws.specs.Laws.Messages.{Messages, Follows};
ghost use Rattle.lu_spec_laws.specs.Laws.Acts.{Acts as ActsLaw, acted, made, standing_count, is_bad_handle, is_end_of_life, names_own, took_notice, is_notice, tells_bad, ActsFor, ActsInTime, ToldAt, ToldBy, BegunAt, SameTag, SendsAt, OnceAt, ActsAt};
ghost use Rattle.lu_judge_pass.specs.Firsts.{IsFirst};
ghost use Rattle.lu_judge_pass.specs.Places.{Placed, Ordered, InOrder};
ghost use Rattle.lu_judge_pass.specs.Tables.{sending_of};
ghost use Rattle.lu_judge_calls.specs.Tables.{begun_of};
ghost use Rattle.lu_judge_acts.specs.Shown.{whole_of, ShowsActs};

use super::answers::{is_bad_handle, is_end_of_life, names_own, told_later};
use super::elsewhere::Elsewhere;
use super::executed::Executed;
use super::flights::Flights;
use super::standing::{Standing, standing_in};
use lu_base::{At, Memory, Node, Txn, Who, Xid};
use lu_judge_calls::{Begun, OpenCalls, asks_for};
use lu_judge_pass::{Gone, Judge, Ledger, Sending, first_broken, gone_in, is_up_to, same_turn};
use lu_judge_windows::{Lost, lost_in};
use lu_msg::{Answer, Call, Message, Op, Request};
use lu_trace::{Entry, Line, Trace};
use std::alloc::Global;

/// What the law of acts asks of the whole trace and of the lines so far.
#[derive(Debug, Drop)]
struct Acts<'a> {
    /// The whole trace.
    lines: &'a [Line],
    /// The lives that are gone in it.
    gone: Gone,
    /// The transactions that don't stand at its end.
    lost: Lost,
    /// How many transactions of each request stand there.
    standing: Standing,
    ledger: Ledger<'a>,
    calls: OpenCalls<'a>,
    executed: Executed,
    elsewhere: Elsewhere,
    flights: Flights<'a>,
}

impl<'a> Acts<'a> {
    /// Of no line, with what is known of the whole trace.
    fn new(alloc: Global, lines: &'a [Line]) -> Result<Acts<'a>, Memory>
        requires messages { Holds Messages (reverse lines.now) }
        ensures shows { IfOk result (λ acts. ShowsActs acts []) }
        ensures lines { IfOk result (λ acts. acts.lines.now ≡ lines.now) }
    {
        let lost = lost_in(alloc, lines)?;
        let standing = standing_in(alloc, &lost, lines)?;
        let gone = gone_in(alloc, lines)?;
        Ok(Acts {
            lines,
            gone,
            lost,
            standing,
            ledger: Ledger::new(alloc),
            calls: OpenCalls::new(alloc),
            executed: Executed::new(alloc),
            elsewhere: Elsewhere::new(alloc),
            flights: Flights::new(alloc),
        })
    }

    /// Whether a call may begin: a bad one is told so in this turn.
    fn may_begin(&self, at: At, slot: u8, call: &Call, later: &'a [Line]) -> bool
        ensures may { (past : Past) → ShowsActs self.now past → InOrder at later.now
            → IsTrue result ↔ BegunAt past at at.node slot call.now later.now }
    {
        match at.node {
            Node::Client(client) => {
                !self.calls.is_bad(&self.ledger, client, call)
                    || tells_bad(told_later(slot, at, later))
            }
            Node::Target(_) => true,
        }
    }

    /// Whether the message is the notice that the life was evicted, from a target that had evicted it.
    fn is_notice(&self, who: Who, sending: &Sending<'a>) -> bool
        ensures notice { (past : Past) → ShowsActs self.now past
            → result ≡ is_notice past who sending.now.from sending.now.message.now }
    {
        match sending.from {
            Node::Client(_) => false,
            Node::Target(target) => match sending.message {
                Message::Evicted { who: other, .. } => {
                    other.client == who.client
                        && other.life == who.life
                        && self.ledger.evictions.has(target, who)
                }
                _ => false,
            },
        }
    }

    /// Whether one of the messages is that notice.
    fn has_notice(&self, who: Who, sendings: &[Sending<'a>]) -> bool
        ensures notice { (past : Past) → ShowsActs self.now past
            → result ≡ list_any (λ s. is_notice past who s.from s.message) (map sending_of sendings.now) }
    {
        let mut place = 0;
        while place < sendings.len() {
            if self.is_notice(who, &sendings[place]) {
                return true;
            }
            place += 1;
        }
        false
    }

    /// Whether this turn took that notice.
    fn took_notice(&self, at: At, who: Who) -> bool
        ensures took { (past : Past) → ShowsActs self.now past → Ordered past → Follows past at
            → result ≡ took_notice past at who }
    {
        self.has_notice(who, self.ledger.present.taken(at))
    }

    /// Whether the metadata target executed this request of the life in the turn, with no transaction or with one that
    /// stands at the end.
    fn was_executed(&self, turn: At, who: Who, xid: Xid) -> bool
        ensures executed { (past : Past) → ShowsActs self.now past
            → result ≡ (acted past turn who xid.0 || made (is_lost (whole_of self.now)) past turn who xid.0) }
    {
        self.executed.has_acted(turn, who, xid) || self.executed.has_made(turn, who, xid)
    }

    /// Whether, where it did so with none, no transaction of the request stands at the end.
    fn acted_alone(&self, turn: At, who: Who, xid: Xid) -> bool
        ensures alone { (past : Past) → ShowsActs self.now past
            → IsTrue result ↔ (acted past turn who xid.0 ≡ true
            → standing_count (is_lost (whole_of self.now)) 0 who xid.0 (whole_of self.now) ≡ 0) }
    {
        !self.executed.has_acted(turn, who, xid) || !self.standing.has_one(0, who, xid)
    }

    /// Whether the metadata target executed the call's operation in the turn that is named, for this request of the life,
    /// which asks for that operation.
    fn acted_as(&self, who: Who, begun: &Begun<'a>, turn: At, xid: Xid, op: &Op) -> bool
        ensures acted { (past : Past) → ShowsActs self.now past → asked past 0 who xid.0 ≡ Some op.now
            → IsTrue result ↔ ActsFor (is_lost (whole_of self.now)) (whole_of self.now) past who (begun_of begun.now)
            turn (Some xid.0) (operation (begun_of begun.now)) }
    {
        if !asks_for(begun, op) {
            return false;
        }
        if !self.was_executed(turn, who, xid) {
            return false;
        }
        if self.elsewhere.has(who, xid) {
            return false;
        }
        self.acted_alone(turn, who, xid)
    }

    /// The same for a request of which the number is known.
    fn acted_there(&self, who: Who, begun: &Begun<'a>, turn: At, xid: Xid) -> bool
        ensures acted { (past : Past) → ShowsActs self.now past
            → IsTrue result ↔ ActsFor (is_lost (whole_of self.now)) (whole_of self.now) past who (begun_of begun.now)
            turn (Some xid.0) (operation (begun_of begun.now)) }
    {
        match self.ledger.requests.asked(0, who, xid) {
            Some(op) => self.acted_as(who, begun, turn, xid, op),
            None => false,
        }
    }

    /// The same for the request that this turn heard.
    fn acted_for(&self, at: At, who: Who, begun: &Begun<'a>, turn: At) -> bool
        ensures acted { (past : Past) → ShowsActs self.now past → Ordered past → Follows past at
            → IsTrue result ↔ ActsFor (is_lost (whole_of self.now)) (whole_of self.now) past who (begun_of begun.now)
            turn (heard_in past at) (operation (begun_of begun.now)) }
    {
        match self.ledger.present.heard(at) {
            Some(xid) => self.acted_there(who, begun, turn, xid),
            None => false,
        }
    }

    /// Whether the call acted in the turn that is named, where that is another one than this.
    fn acted_elsewhere(&self, at: At, who: Who, begun: &Begun<'a>, turn: At) -> bool
        ensures acted { (past : Past) → ShowsActs self.now past → Ordered past → Follows past at
            → IsTrue result ↔ (same_turn turn at ≡ false
            → ActsFor (is_lost (whole_of self.now)) (whole_of self.now) past
            who (begun_of begun.now) turn (heard_in past at) (operation (begun_of begun.now))) }
    {
        same_turn(turn, at) || self.acted_for(at, who, begun, turn)
    }

    /// Whether the turn that is named lies between the call's begin and this one, and the call acted there.
    fn acted_in_time(&self, at: At, who: Who, begun: &Begun<'a>, turn: At) -> bool
        ensures acted { (past : Past) → ShowsActs self.now past → Ordered past → Follows past at
            → IsTrue result ↔ ActsInTime (is_lost (whole_of self.now)) (whole_of self.now) past at who
            (begun_of begun.now) turn }
    {
        let after = is_up_to(begun.at, turn);
        if !after {
            return false;
        }
        let before = is_up_to(turn, at);
        if !before {
            return false;
        }
        self.acted_elsewhere(at, who, begun, turn)
    }

    /// The same of a life that isn't gone.
    fn has_acted(&self, at: At, who: Who, begun: &Begun<'a>, turn: At) -> bool
        ensures acted { (past : Past) → ShowsActs self.now past → Ordered past → Follows past at
            → IsTrue result ↔ (is_gone (whole_of self.now) who ≡ false → ActsInTime (is_lost (whole_of self.now))
            (whole_of self.now) past at who (begun_of begun.now) turn) }
    {
        self.gone.has(who) || self.acted_in_time(at, who, begun, turn)
    }

    /// Whether the end of the life is told only where this turn took the notice of it.
    fn ends_well(&self, at: At, who: Who, answer: &Answer) -> bool
        ensures ends { (past : Past) → ShowsActs self.now past → Ordered past → Follows past at
            → IsTrue result ↔ (is_end_of_life answer.now ≡ true → took_notice past at who ≡ true) }
    {
        !is_end_of_life(answer) || self.took_notice(at, who)
    }

    /// Whether the call may be told this answer in this turn, where that turn is named.
    fn may_tell(&self, at: At, who: Who, begun: &Begun<'a>, turn: At, answer: &Answer) -> bool
        ensures may { (past : Past) → ShowsActs self.now past → Ordered past → Follows past at
            → IsTrue result ↔ ToldAt (is_gone (whole_of self.now)) (is_lost (whole_of self.now))
            (whole_of self.now) past
            at who (begun_of begun.now) turn answer.now }
    {
        if !is_bad_rightly(begun.bad, answer) {
            return false;
        }
        if !self.ends_well(at, who, answer) {
            return false;
        }
        if !names_rightly(begun.call, answer, turn, at) {
            return false;
        }
        self.has_acted(at, who, begun, turn)
    }

    /// Whether the call that stands in the slot may be told so.
    fn may_be_told(&self, at: At, slot: u8, turn: At, answer: &Answer) -> bool
        ensures may { (past : Past) → ShowsActs self.now past → Ordered past → Follows past at
            → IsTrue result ↔ ToldBy (is_gone (whole_of self.now)) (is_lost (whole_of self.now))
            (whole_of self.now) past
            at at.node slot turn answer.now }
    {
        let Node::Client(client) = at.node else {
            return true;
        };
        match self.calls.call(client, slot) {
            Some(begun) => {
                let who = self.ledger.lives.who(client);
                self.may_tell(at, who, &begun, turn, answer)
            }
            None => true,
        }
    }

    /// Whether the transaction is lost or is the only one of its request that stands at the end.
    fn is_alone(&self, node: Node, txn: Txn, who: Who, xid: Xid) -> bool
        ensures alone { (past : Past) → ShowsActs self.now past
            → IsTrue result ↔ OnceAt (is_lost (whole_of self.now)) (whole_of self.now) node txn.0 who xid.0 }
    {
        match node {
            Node::Client(_) => true,
            Node::Target(target) => {
                self.lost.has(target, txn.0) || !self.standing.has_more(target, who, xid)
            }
        }
    }

    /// Whether the request has the tag of its number.
    fn has_its_tag(&self, target: u16, request: &Request) -> bool
        ensures tag { (past : Past) → ShowsActs self.now past
            → IsTrue result ↔ SameTag (first_request past target request.now.who request.now.xid.0) request.now.tag }
    {
        match self.ledger.requests.first(target, request.who, request.xid) {
            Some(first) => first.tag == request.tag,
            None => true,
        }
    }

    /// Whether the message may be sent.
    fn may_send(&self, to: Node, message: &Message) -> bool
        ensures may { (past : Past) → ShowsActs self.now past → (at : AtOf) (number : ℕ)
            → IsTrue result ↔ SendsAt past (record { at = at; entry = Entry.Send number to message.now }) to
            message.now }
    {
        match to {
            Node::Client(_) => true,
            Node::Target(target) => match message {
                Message::Request(request) => {
                    self.flights.fly(target, request) && self.has_its_tag(target, request)
                }
                _ => true,
            },
        }
    }

    /// Whether the entry may stand in this turn, before these later lines.
    fn passes(&self, at: At, entry: &Entry, later: &'a [Line]) -> bool
        ensures passes { (past : Past) → ShowsActs self.now past → Ordered past → Follows past at → InOrder at later.now
            → IsTrue result ↔ ActsAt (is_gone (whole_of self.now)) (is_lost (whole_of self.now))
            (whole_of self.now) past
            (record { at = at; entry = entry.now }) later.now entry.now }
    {
        match entry {
            Entry::Begin { slot, call } => self.may_begin(at, *slot, call, later),
            Entry::Told {
                slot,
                at: turn,
                answer,
            } => self.may_be_told(at, *slot, *turn, answer),
            Entry::Txn { txn, who, xid, .. } => self.is_alone(at.node, *txn, *who, *xid),
            Entry::Send { to, message, .. } => self.may_send(*to, message),
            _ => true,
        }
    }
}

/// Whether the handle is said to be bad only where it was bad when the call began.
fn is_bad_rightly(bad: bool, answer: &Answer) -> bool
    ensures bad { IsTrue result ↔ (is_bad_handle answer.now ≡ true → bad ≡ true) }
{
    !is_bad_handle(answer) || bad
}

/// Whether what names the turn in which it is told does so.
fn names_rightly(call: &Call, answer: &Answer, turn: At, at: At) -> bool
    ensures own { IsTrue result ↔ (names_own call.now answer.now ≡ true → same_turn turn at ≡ true) }
{
    !names_own(call, answer) || same_turn(turn, at)
}

/// Whether the answer says that the handle is bad.
fn tells_bad(answer: Option<&Answer>) -> bool
    ensures bad { result ≡ tells_bad (option_map (λ a. a.now) answer.entry) }
{
    match answer {
        Some(answer) => is_bad_handle(answer),
        None => false,
    }
}

impl<'a> Judge<'a> for Acts<'a> {
    ghost about = { λ acts. record { osts = 0; whole = whole_of acts } };

    ghost given = { Placed };

    ghost shows = { ShowsActs };

    ghost law = { λ about. ActsLaw about.whole };

    fn allows(&self, line: &'a Line, later: &'a [Line]) -> Result<bool, Memory> {
        Ok(self.passes(line.at, &line.entry, later))
    }

    fn step(&mut self, line: &'a Line) -> Result<(), Memory> {
        self.calls.step(&self.ledger, line)?;
        self.executed.step(&self.lost, line)?;
        self.elsewhere.step(&self.ledger, line)?;
        self.flights.step(&self.ledger, line)?;
        self.ledger.step(line)
    }
}

/// The place, from 0, of the first line that breaks the law of acts; none exactly where the law holds of the trace. The law
/// of messages holds of it. It answers want of memory alone.
pub fn first_in_acts(alloc: Global, trace: &Trace) -> Result<Option<usize>, Memory>
    requires formed { IsWellFormed trace.now }
    requires messages { Holds Messages (reverse trace.now.entries) }
    ensures first { IfOk result (IsFirst (ActsLaw (reverse trace.now.entries)) trace.now.entries) }
    ensures none { IfOk result (λ place. (place ≡ None)
        ↔ Holds (ActsLaw (reverse trace.now.entries)) (reverse trace.now.entries)) }
{
    let lines = trace.entries.as_slice();
    first_broken(Acts::new(alloc, lines)?, lines)
}
