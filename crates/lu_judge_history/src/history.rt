//! The law of history, decided from tables.

ghost use Rattle.std.specs.Prelude.{◌≡◌, Some, [], reverse, None, IfOk, IsTrue, ◌↔◌};
ghost use Rattle.std.specs.Option.{option_map};
ghost use Rattle.lu_trace.specs.WellFormed.{IsWellFormed};
ghost use Rattle.lu_spec_laws.specs.Words.Pasts.{Past};
ghost use Rattle.lu_spec_laws.specs.Words.Lives.{is_gone};
ghost use Rattle.lu_spec_laws.specs.Words.Lost.{is_lost};
ghost use Rattle.lu_spec_laws.specs.Words.Calls.{heard_in};
ghost use Rattle.lu_spec_laws.specs.Words.Histories.{is_counted};
ghost use Rattle.lu_spec_laws.specs.Holds.{Holds};
ghost use Rattle.lu_spec_laws.specs.Laws.Messages.{Messages as MessagesLaw, Follows};
ghost use Rattle.lu_spec_laws.specs.Laws.History.{History as HistoryLaw, ToldAt, TxnAt, heard_answer, is_accepted};
ghost use Rattle.lu_judge_pass.specs.Firsts.{About, IsFirst};
ghost use Rattle.lu_judge_pass.specs.Places.{Ordered};
ghost use Rattle.lu_judge_history.specs.Shown.{Shown, whole_of, GivenAt};

use super::carried::Carried;
use super::played::{Played, is_answer};
use lu_base::{At, Memory, Node, Txn, Who, Xid};
use lu_judge_calls::OpenCalls;
use lu_judge_pass::{Gone, Judge, Ledger, first_broken, gone_in, same_turn};
use lu_judge_windows::{Lost, lost_in};
use lu_msg::{Answer, Call};
use lu_trace::{Entry, Line, Trace};
use std::alloc::Global;

/// What the law of history asks of the lines so far, and of the whole trace.
#[derive(Drop)]
struct History<'a> {
    /// The number of object storage targets.
    osts: u16,
    /// All lines of the trace.
    lines: &'a [Line],
    /// The lives that are gone in the whole trace.
    gone: Gone,
    /// The transactions that are lost at the end of the trace.
    lost: Lost,
    ledger: Ledger<'a>,
    calls: OpenCalls<'a>,
    played: Played,
    carried: Carried<'a>,
}

/// Whether the call is one of the history: a `glimpse` is none.
fn is_counted(call: &Call) -> bool
    ensures { result ≡ is_counted call.now }
{
    match call {
        Call::Glimpse(_) => false,
        _ => true,
    }
}

/// Whether there is an answer, and it is no refusal.
fn is_accepted(answer: &Option<Answer>) -> bool
    ensures { result ≡ is_accepted answer.now }
{
    match answer {
        None => false,
        Some(Answer::Refused(_)) => false,
        Some(_) => true,
    }
}

impl<'a> History<'a> {
    /// Of no line of this trace.
    fn new(alloc: Global, trace: &'a Trace) -> Result<History<'a>, Memory>
        requires formed { IsWellFormed trace.now }
        requires messages { Holds MessagesLaw (reverse trace.now.entries) }
        ensures shows { IfOk result (λ judge. Shown judge []) }
        ensures osts { IfOk result (λ judge. judge.osts ≡ trace.now.osts) }
        ensures lines { IfOk result (λ judge. judge.lines.now ≡ trace.now.entries) }
    {
        let lines = trace.entries.as_slice();
        Ok(History {
            osts: trace.osts,
            lines,
            gone: gone_in(alloc, lines)?,
            lost: lost_in(alloc, lines)?,
            ledger: Ledger::new(alloc),
            calls: OpenCalls::new(alloc),
            played: Played::new(alloc, trace.osts)?,
            carried: Carried::new(alloc),
        })
    }

    /// Whether what is told in another turn than that of its act is what the machine answered to the request that was heard,
    /// where the metadata target executed it in the turn that is named.
    fn is_told_there(&self, at: At, who: Who, turn: At, answer: &Answer) -> bool
        ensures { (past : Past) → Shown self.now past → Ordered past → Follows past at
            → IsTrue result ↔ (heard_answer (is_gone (whole_of self.now))
            (is_lost (whole_of self.now)) self.now.osts past turn who (heard_in past at)
            ≡ Some answer.now) }
    {
        match self.ledger.present.heard(at) {
            Some(xid) => self.played.told_there(turn, who, xid, answer),
            None => false,
        }
    }

    /// Whether a client may be told so.
    fn allows_told(
        &self,
        at: At,
        client: u16,
        slot: u8,
        turn: At,
        answer: &Answer,
    ) -> Result<bool, Memory>
        ensures { IfOk result (λ allows. (past : Past) → Shown self.now past → Ordered past → Follows past at
            → IsTrue allows ↔ ToldAt (is_gone (whole_of self.now)) (is_lost (whole_of self.now)) self.now.osts past at
            (Node.Client client) slot turn answer.now) }
    {
        let who = self.ledger.lives.who(client);
        if self.gone.has(who) {
            return Ok(true);
        }
        if !is_answer(answer) {
            return Ok(true);
        }
        let Some(begun) = self.calls.call(client, slot) else {
            return Ok(true);
        };
        if !is_counted(begun.call) {
            return Ok(true);
        }
        if same_turn(turn, at) {
            self.played.tells(who, &begun, answer)
        } else {
            Ok(self.is_told_there(at, who, turn, answer))
        }
    }

    /// Whether the machine doesn't refuse what a transaction of the metadata target does, where it stands.
    fn allows_names(&self, txn: Txn, who: Who, xid: Xid) -> Result<bool, Memory>
        ensures { IfOk result (λ allows. (past : Past) → Shown self.now past
            → IsTrue allows ↔ TxnAt (is_gone (whole_of self.now)) (is_lost (whole_of self.now)) self.now.osts past
            0 txn who xid.0) }
    {
        if self.lost.has(0, txn.0) {
            return Ok(true);
        }
        let op = self.ledger.requests.asked(0, who, xid);
        let answer = self.played.answered(who, txn, op)?;
        Ok(is_accepted(&answer))
    }

    /// Whether a target may make this transaction.
    fn allows_txn(&self, target: u16, txn: Txn, who: Who, xid: Xid) -> Result<bool, Memory>
        ensures { IfOk result (λ allows. (past : Past) → Shown self.now past
            → IsTrue allows ↔ TxnAt (is_gone (whole_of self.now)) (is_lost (whole_of self.now)) self.now.osts past
            target txn who xid.0) }
    {
        if target == 0 {
            return self.allows_names(txn, who, xid);
        }
        let op = self.ledger.requests.asked(target, who, xid);
        Ok(self.carried.carries(target, who, xid, op))
    }
}

impl<'a> Judge<'a> for History<'a> {
    ghost about = { λ t. record { osts = t.osts; whole = whole_of t } };

    ghost given = { GivenAt };

    ghost shows = { Shown };

    ghost law = { λ about. HistoryLaw about.osts about.whole };

    fn allows(&self, line: &'a Line, _later: &'a [Line]) -> Result<bool, Memory> {
        match &line.entry {
            Entry::Told { slot, at, answer } => match line.at.node {
                Node::Client(client) => self.allows_told(line.at, client, *slot, *at, answer),
                Node::Target(_) => Ok(true),
            },
            Entry::Txn { txn, who, xid, .. } => match line.at.node {
                Node::Target(target) => self.allows_txn(target, *txn, *who, *xid),
                Node::Client(_) => Ok(true),
            },
            _ => Ok(true),
        }
    }

    fn step(&mut self, line: &'a Line) -> Result<(), Memory> {
        self.played
            .step(&self.gone, &self.lost, &self.ledger, &self.calls, line)?;
        self.carried.step(&self.ledger, &self.calls, line)?;
        self.calls.step(&self.ledger, line)?;
        self.ledger.step(line)
    }
}

/// The place, from 0, of the first line of a well formed trace, which keeps the law of messages, that breaks the law of
/// history; none exactly where the law holds of the trace. It answers want of memory alone.
pub fn first_in_history(alloc: Global, trace: &Trace) -> Result<Option<usize>, Memory>
    requires formed { IsWellFormed trace.now }
    requires messages { Holds MessagesLaw (reverse trace.now.entries) }
    ensures first { IfOk result (IsFirst (HistoryLaw trace.now.osts (reverse trace.now.entries)) trace.now.entries) }
    ensures none { IfOk result (λ place. (place ≡ None)
        ↔ Holds (HistoryLaw trace.now.osts (reverse trace.now.entries)) (reverse trace.now.entries)) }
{
    let judge = History::new(alloc, trace)?;
    first_broken(judge, trace.entries.as_slice())
}
