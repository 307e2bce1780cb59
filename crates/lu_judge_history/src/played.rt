//! The plain machine over the items of the lines so far, and what it answered where requests were executed.

ghost use Rattle.std.specs.Prelude.{◌≡◌, ℕ, ◌<◌, ◌≤◌, Bool, false, not, Some, None, List, [], ◌∷◌, if◌then◌else◌, IsTrue, ◌↔◌, IfOk, OnOk};
ghost use Rattle.std.specs.Option.{option_map};
ghost use Rattle.lu_base.specs.declared.ids.At.{At as SpecAt};
ghost use Rattle.lu_base.specs.declared.ids.Txn.{Txn as SpecTxn};
ghost use Rattle.lu_base.specs.declared.ids.Who.{Who as SpecWho};
ghost use Rattle.lu_msg.specs.declared.answers.Answer.{Answer as SpecAnswer};
ghost use Rattle.lu_trace.specs.declared.entries.Line.{Line};
ghost use Rattle.lu_judge_history.specs.Limited.{Limited};
ghost use Rattle.lu_spec_laws.specs.Words.Pasts.{Past};
ghost use Rattle.lu_spec_laws.specs.Words.Lives.{who_is, is_gone};
ghost use Rattle.lu_spec_laws.specs.Words.Lost.{is_lost};
ghost use Rattle.lu_spec_laws.specs.Words.Histories.{none, is_answer, call_act, act_of, deed_of, after_item, answer_to, request_answer, machine_of};
ghost use Rattle.lu_posix.specs.Shown.{Shows};
ghost use Rattle.lu_judge_pass.specs.Ledgers.{ShowsGone, ShowsLedger};
ghost use Rattle.lu_judge_calls.specs.Tables.{begun_of, ShowsOpenCalls};
ghost use Rattle.lu_judge_windows.specs.Lost.{ShowsLost};
ghost use Rattle.lu_judge_calls.specs.Marks.{IsWithin};
ghost use Rattle.lu_judge_history.specs.Shown.{ShowsPlayed};
ghost use Rattle.lu_judge_history.specs.Tables.{answer_in};

use super::answers::Answers;
use super::asked::{Asked, asked_by};
use super::plays::{answered, perform, perform_names, perform_piece, told};
use super::same::same_answer;
use lu_base::{At, Memory, Node, Txn, Who, Xid};
use lu_judge_calls::{Begun, OpenCalls};
use lu_judge_pass::{Gone, Ledger, same_turn};
use lu_judge_windows::Lost;
use lu_msg::{Answer, Errno, Op};
use lu_posix::Machine;
use lu_trace::{Entry, Line};
use std::alloc::Global;

/// Whether the answer is one of the history: EBADF and EIO are none.
pub(crate) fn is_answer(answer: &Answer) -> bool
    ensures { result ≡ is_answer answer.now }
{
    match answer {
        Answer::Refused(Errno::EBADF) => false,
        Answer::Refused(Errno::EIO) => false,
        _ => true,
    }
}

/// The machine after the items of the lines so far, with what it answered.
#[derive(Drop)]
pub(crate) struct Played {
    alloc: Global,
    machine: Machine,
    answers: Answers,
}

impl Played {
    /// Of no line, over this many object storage targets, 1 to 8.
    pub(crate) fn new(alloc: Global, osts: u16) -> Result<Played, Memory>
        requires some { 1 ≤ osts }
        requires most { osts ≤ 8 }
        ensures shows { IfOk result (λ played. (out : SpecWho → Bool) (lost : ℕ → ℕ → Bool)
            → ShowsPlayed osts out lost played []) }
    {
        Ok(Played {
            alloc,
            machine: Machine::new(alloc, osts)?,
            answers: Answers::new(alloc),
        })
    }

    /// A request is executed without a transaction.
    fn act(&mut self, ledger: &Ledger<'_>, at: At, who: Who, xid: Xid) -> Result<(), Memory>
        requires own { at.node ≡ Node.Target 0 }
        ensures shows { OnOk result ((osts : ℕ) (out : SpecWho → Bool) (lost : ℕ → ℕ → Bool) (past : Past)
            (answer : SpecAnswer)
            → ShowsLedger ledger.now past → ShowsPlayed osts out lost self.old past
            → ShowsPlayed osts out lost self.new (record { at = at; entry = Entry.Act who xid answer } ∷ past)) }
    {
        let op = ledger.requests.asked(0, who, xid);
        let answer = answered(self.alloc, &self.machine, who, Txn(0), op)?;
        self.answers.put(at.stamp, who, xid, answer)
    }

    /// A transaction of the metadata target that stands is performed.
    fn execute(
        &mut self,
        ledger: &Ledger<'_>,
        at: At,
        txn: Txn,
        who: Who,
        xid: Xid,
    ) -> Result<(), Memory>
        requires own { at.node ≡ Node.Target 0 }
        ensures shows { OnOk result ((osts : ℕ) (out : SpecWho → Bool) (lost : ℕ → ℕ → Bool) (past : Past)
            (seen : List ℕ) (answer : SpecAnswer)
            → lost 0 txn.0 ≡ false → ShowsLedger ledger.now past → ShowsPlayed osts out lost self.old past
            → ShowsPlayed osts out lost self.new (record { at = at; entry = Entry.Txn txn who xid seen answer }
            ∷ past)) }
    {
        let op = ledger.requests.asked(0, who, xid);
        let answer = perform_names(self.alloc, &mut self.machine, who, txn, op)?;
        self.answers.put(at.stamp, who, xid, answer)
    }

    /// A transaction of an object storage target that stands is performed where its life is gone.
    fn reach(
        &mut self,
        gone: &Gone,
        ledger: &Ledger<'_>,
        target: u16,
        who: Who,
        xid: Xid,
    ) -> Result<(), Memory>
        requires other { 0 < target }
        ensures shows { OnOk result ((osts : ℕ) (whole past : Past) (lost : ℕ → ℕ → Bool) (at : SpecAt) (txn : SpecTxn)
            (seen : List ℕ) (answer : SpecAnswer)
            → at.node ≡ Node.Target target → lost target txn.0 ≡ false → ShowsGone gone.now whole → Limited past
            → ShowsLedger ledger.now past → ShowsPlayed osts (is_gone whole) lost self.old past
            → ShowsPlayed osts (is_gone whole) lost self.new (record {
              at = at;
              entry = Entry.Txn txn who xid seen answer;
            } ∷ past)) }
    {
        if !gone.has(who) {
            return Ok(());
        }
        let op = ledger.requests.asked(target, who, xid);
        perform_piece(self.alloc, &mut self.machine, op)
    }

    /// A call that acts in the turn in which it is told is performed.
    fn tell(
        &mut self,
        gone: &Gone,
        ledger: &Ledger<'_>,
        calls: &OpenCalls<'_>,
        client: u16,
        slot: u8,
    ) -> Result<(), Memory>
        ensures shows { OnOk result ((osts : ℕ) (whole past : Past) (lost : ℕ → ℕ → Bool)
            → ShowsGone gone.now whole → Limited past → ShowsLedger ledger.now past → ShowsOpenCalls calls.now past
            → Shows osts self.old.machine (machine_of (is_gone whole) lost osts past)
            → Shows osts self.new.machine (after_item osts (machine_of (is_gone whole) lost osts past)
            (if not (is_gone whole (who_is client past)) then call_act past client slot else None))) }
        ensures answers { OnOk result (self.new.answers ≡ self.old.answers) }
    {
        let who = ledger.lives.who(client);
        if gone.has(who) {
            return Ok(());
        }
        let Some(begun) = calls.call(client, slot) else {
            return Ok(());
        };
        let asked = asked_by(self.alloc, &begun)?;
        match asked {
            Some(asked) => perform(self.alloc, &mut self.machine, &asked),
            None => Ok(()),
        }
    }

    /// A transaction of a target.
    fn txn(
        &mut self,
        gone: &Gone,
        lost: &Lost,
        ledger: &Ledger<'_>,
        at: At,
        target: u16,
        txn: Txn,
        who: Who,
        xid: Xid,
    ) -> Result<(), Memory>
        requires own { at.node ≡ Node.Target target }
        ensures shows { OnOk result ((osts : ℕ) (whole past : Past) (seen : List ℕ) (answer : SpecAnswer)
            → ShowsGone gone.now whole → ShowsLost lost.now whole → Limited past → ShowsLedger ledger.now past
            → ShowsPlayed osts (is_gone whole) (is_lost whole) self.old past
            → ShowsPlayed osts (is_gone whole) (is_lost whole) self.new
            (record { at = at; entry = Entry.Txn txn who xid seen answer } ∷ past)) }
    {
        if lost.has(target, txn.0) {
            return Ok(());
        }
        if target == 0 {
            self.execute(ledger, at, txn, who, xid)
        } else {
            self.reach(gone, ledger, target, who, xid)
        }
    }

    /// Takes in the next line. The ledger and the calls show the lines before it; which lives are gone and which
    /// transactions are lost is said of the whole trace. After want of memory nothing is known.
    pub(crate) fn step(
        &mut self,
        gone: &Gone,
        lost: &Lost,
        ledger: &Ledger<'_>,
        calls: &OpenCalls<'_>,
        line: &Line,
    ) -> Result<(), Memory>
        ensures shows { OnOk result ((osts : ℕ) (whole past : Past)
            → ShowsGone gone.now whole → ShowsLost lost.now whole → Limited past → ShowsLedger ledger.now past
            → ShowsOpenCalls calls.now past
            → ShowsPlayed osts (is_gone whole) (is_lost whole) self.old past
            → ShowsPlayed osts (is_gone whole) (is_lost whole) self.new (line.now ∷ past)) }
    {
        match &line.entry {
            Entry::Act { who, xid, .. } => match line.at.node {
                Node::Target(target) => {
                    if target == 0 {
                        self.act(ledger, line.at, *who, *xid)
                    } else {
                        Ok(())
                    }
                }
                Node::Client(_) => Ok(()),
            },
            Entry::Txn { txn, who, xid, .. } => match line.at.node {
                Node::Target(target) => {
                    self.txn(gone, lost, ledger, line.at, target, *txn, *who, *xid)
                }
                Node::Client(_) => Ok(()),
            },
            Entry::Told { slot, at, answer } => match line.at.node {
                Node::Client(client) => {
                    if same_turn(*at, line.at) && is_answer(answer) {
                        self.tell(gone, ledger, calls, client, *slot)
                    } else {
                        Ok(())
                    }
                }
                Node::Target(_) => Ok(()),
            },
            _ => Ok(()),
        }
    }

    /// What the machine answers to an operation on names of a life under a number; none where none is asked. Nothing
    /// changes.
    pub(crate) fn answered(
        &self,
        who: Who,
        number: Txn,
        op: Option<&Op>,
    ) -> Result<Option<Answer>, Memory>
        ensures answer { IfOk result (λ told. (osts : ℕ) (out : SpecWho → Bool) (lost : ℕ → ℕ → Bool) (past : Past)
            → ShowsPlayed osts out lost self.now past
            → told ≡ request_answer osts (machine_of out lost osts past) who number
            (option_map (λ o. o.now) op.entry)) }
    {
        answered(self.alloc, &self.machine, who, number, op)
    }

    /// Whether the machine answers so to the call that was begun. Nothing changes.
    pub(crate) fn tells(&self, who: Who, begun: &Begun<'_>, answer: &Answer) -> Result<bool, Memory>
        ensures tells { IfOk result (λ tells. (osts : ℕ) (out : SpecWho → Bool) (lost : ℕ → ℕ → Bool) (past : Past)
            → IsWithin begun.now.call.now → ShowsPlayed osts out lost self.now past
            → IsTrue tells ↔ (answer_to osts (machine_of out lost osts past)
            (act_of who none (deed_of (Some (begun_of begun.now))))
            ≡ Some answer.now)) }
    {
        let asked = asked_by(self.alloc, begun)?;
        match asked {
            Some(asked) => {
                let told = told(self.alloc, &self.machine, who, &asked)?;
                Ok(same_answer(&told, answer))
            }
            None => Ok(false),
        }
    }

    /// Whether the machine answered so where the metadata target executed the life's request in that turn.
    pub(crate) fn told_there(&self, turn: At, who: Who, xid: Xid, answer: &Answer) -> bool
        ensures { IsTrue result ↔ (answer_in self.now.answers turn who xid.0 ≡ Some answer.now) }
    {
        match self.answers.get(turn, who, xid) {
            Some(there) => same_answer(there, answer),
            None => false,
        }
    }
}
