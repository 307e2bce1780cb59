//! What may count in the history of a past.

ghost use Rattle.std.specs.Prelude.{◌≡◌, ℕ, Bool, List, [], ◌∷◌, IfSome, not, if◌then◌else◌};
ghost use Rattle.std.specs.Option.{option_map};
ghost use Rattle.lu_base.specs.declared.ids.Who.{Who};
ghost use Rattle.lu_trace.specs.declared.entries.Line.{Line};
ghost use Rattle.lu_trace.specs.WellFormed.{IsCall, IsOp, IsLine};
ghost use Rattle.lu_spec_machine.specs.Machine.{Machine};
ghost use Rattle.lu_spec_machine.specs.Footprint.{Every};
ghost use Rattle.lu_spec_laws.specs.Words.Pasts.{Past};
ghost use Rattle.lu_spec_laws.specs.Words.Histories.{act_of, deed_of, after_item, item_at, told_item, txn_item, none, is_answer};
ghost use Rattle.lu_judge_pass.specs.Ledgers.{ShowsLedger};
ghost use Rattle.lu_judge_calls.specs.Tables.{begun_of, ShowsOpenCalls};
ghost use Rattle.lu_judge_glimpse.specs.Items.{Keeps, act_if_any};

use lu_base::{At, Fid, Node, Txn, Who, Xid};
use lu_judge_calls::{Begun, OpenCalls};
use lu_judge_pass::{Ledger, same_turn};
use lu_msg::{Answer, Call, Errno, Op};
use lu_trace::{Entry, Line};

/// What may count in a history.
#[derive(Clone, Copy, Debug)]
pub enum Item<'a> {
    /// A transaction: at the metadata target it counts unless it is lost, at another one if its life is gone besides.
    Txn {
        target: u16,
        number: Txn,
        who: Who,
        op: &'a Op,
    },
    /// A call on the bytes of a file that was told: it counts unless its life is gone.
    Told {
        who: Who,
        fid: Fid,
        call: &'a Call,
    },
}

/// What a call counts as that a life is told in the turn in which it acted. What is no call on bytes changes nothing of
/// the machine there.
fn told_call<'a>(who: Who, begun: &Begun<'a>) -> Option<Item<'a>>
    ensures acts { (out : Who → Bool) (lost : ℕ → ℕ → Bool) (osts : ℕ) (m : Machine)
        → after_item osts m (act_if_any out lost result)
        ≡ after_item osts m (if not (out who) then act_of who none (deed_of (Some (begun_of begun.now))) else None) }
    ensures kept { IsCall begun.now.call.now → IfSome result Keeps }
{
    match begun.call {
        Call::Read { .. } | Call::Write { .. } | Call::Cut { .. } | Call::Flush(_) => {
            match begun.bound {
                Some(binding) => Some(Item::Told {
                    who,
                    fid: binding.fid,
                    call: begun.call,
                }),
                None => None,
            }
        }
        _ => None,
    }
}

/// Whether the answer is one of the history's: EBADF and EIO aren't.
fn is_answer(answer: &Answer) -> bool
    ensures { result ≡ is_answer answer.now }
{
    !matches!(
        answer,
        Answer::Refused(Errno::EBADF) | Answer::Refused(Errno::EIO)
    )
}

/// What a transaction of a node counts as.
fn txn_at<'a>(ledger: &Ledger<'a>, node: Node, number: Txn, who: Who, xid: Xid) -> Option<Item<'a>>
    ensures acts { (past : Past) → ShowsLedger ledger.now past
        → (out : Who → Bool) (lost : ℕ → ℕ → Bool) (osts : ℕ) (m : Machine)
        → after_item osts m (act_if_any out lost result)
        ≡ after_item osts m (txn_item out lost past node number who xid.0) }
    ensures kept { (past : Past) → ShowsLedger ledger.now past → Every IsLine past → IfSome result Keeps }
{
    match node {
        Node::Target(target) => match ledger.requests.asked(target, who, xid) {
            Some(op) => Some(Item::Txn {
                target,
                number,
                who,
                op,
            }),
            None => None,
        },
        Node::Client(_) => None,
    }
}

/// What the call in a slot counts as that is told in this turn.
fn told_at<'a>(
    ledger: &Ledger<'a>,
    calls: &OpenCalls<'a>,
    at: At,
    slot: u8,
    turn: At,
    answer: &Answer,
) -> Option<Item<'a>>
    ensures acts { (past : Past) → ShowsLedger ledger.now past → ShowsOpenCalls calls.now past
        → (out : Who → Bool) (lost : ℕ → ℕ → Bool) (osts : ℕ) (m : Machine)
        → after_item osts m (act_if_any out lost result)
        ≡ after_item osts m (told_item out past at at.node slot turn answer.now) }
    ensures kept { (past : Past) → ShowsOpenCalls calls.now past → Every IsLine past → IfSome result Keeps }
{
    let Node::Client(client) = at.node else {
        return None;
    };
    if !same_turn(turn, at) {
        return None;
    }
    if !is_answer(answer) {
        return None;
    }
    match calls.call(client, slot) {
        Some(begun) => told_call(ledger.lives.who(client), &begun),
        None => None,
    }
}

/// What a line counts as, next. The item makes of each machine what the law's own item makes of it.
pub(crate) fn item_at<'a>(
    ledger: &Ledger<'a>,
    calls: &OpenCalls<'a>,
    line: &'a Line,
) -> Option<Item<'a>>
    ensures acts { (past : Past) → ShowsLedger ledger.now past → ShowsOpenCalls calls.now past
        → (out : Who → Bool) (lost : ℕ → ℕ → Bool) (osts : ℕ) (m : Machine)
        → after_item osts m (act_if_any out lost result)
        ≡ after_item osts m (item_at out lost past line.now.at line.now.entry) }
    ensures kept { (past : Past) → ShowsLedger ledger.now past → ShowsOpenCalls calls.now past
        → Every IsLine past → IfSome result Keeps }
{
    match &line.entry {
        Entry::Txn { txn, who, xid, .. } => txn_at(ledger, line.at.node, *txn, *who, *xid),
        Entry::Told { slot, at, answer } => told_at(ledger, calls, line.at, *slot, *at, answer),
        _ => None,
    }
}
