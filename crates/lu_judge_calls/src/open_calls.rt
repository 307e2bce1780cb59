//! The calls that stand, with what their handles stood for.

ghost use Rattle.std.specs.Prelude.{◌≡◌, [], ◌∷◌, OnOk, is_some};
ghost use Rattle.std.specs.Option.{option_map};
ghost use Rattle.lu_trace.specs.declared.entries.Line.{Line};
ghost use Rattle.lu_spec_laws.specs.Words.Pasts.{Past};
ghost use Rattle.lu_spec_laws.specs.Words.Calls.{open_call, call_in, heard_in, number_heard, opens, is_opening, bound_to, bound_by, handle_of, is_bad};
ghost use Rattle.lu_spec_laws.specs.Laws.Messages.{Follows};
ghost use Rattle.lu_judge_pass.specs.Places.{Ordered};
ghost use Rattle.lu_judge_pass.specs.Ledgers.{ShowsLedger};
ghost use Rattle.lu_judge_calls.specs.Tables.{begun_of, binding_of, ShowsOpenCalls};

use super::begun::{Begun, Binding};
use super::handles::Handles;
use super::transactions::Transactions;
use lu_base::{At, Memory, Node, Txn, Who};
use lu_judge_pass::Ledger;
use lu_msg::{Answer, Call};
use lu_trace::{Entry, Line};
use std::alloc::Global;
use std::collections::HashMap;

/// The calls that were begun and aren't told, by client and slot, and what the handles are bound to.
#[derive(Debug, Drop)]
pub struct OpenCalls<'a> {
    standing: HashMap<(u16, u8), Begun<'a>>,
    handles: Handles,
    transactions: Transactions,
}

impl<'a> OpenCalls<'a> {
    /// Of no line. It takes no memory yet.
    pub fn new(alloc: Global) -> OpenCalls<'a>
        ensures shows { ShowsOpenCalls result [] }
    {
        OpenCalls {
            standing: HashMap::new(alloc),
            handles: Handles::new(alloc),
            transactions: Transactions::new(alloc),
        }
    }

    /// The call that stands in the client's slot; none where none does.
    pub fn call(&self, client: u16, slot: u8) -> Option<Begun<'a>>
        ensures call { (past : Past) → ShowsOpenCalls self.now past
            → option_map begun_of result ≡ open_call client slot past }
    {
        self.standing.get(&(client, slot)).copied()
    }

    /// The call that stands in the client's slot, by itself.
    fn call_in(&self, client: u16, slot: u8) -> Option<&'a Call>
        ensures call { (past : Past) → ShowsOpenCalls self.now past
            → option_map (λ call. call.now) result ≡ call_in client slot past }
    {
        match self.call(client, slot) {
            Some(begun) => Some(begun.call),
            None => None,
        }
    }

    /// Whether the call that stands in the client's slot opens the handle.
    fn opens(&self, client: u16, slot: u8, handle: u8) -> bool
        ensures opens { (past : Past) → ShowsOpenCalls self.now past
            → result ≡ opens handle (call_in client slot past) }
    {
        match self.call_in(client, slot) {
            Some(Call::Open { handle: other, .. }) => *other == handle,
            _ => false,
        }
    }

    /// Whether a call that stands opens the handle of the client.
    fn is_opening(&self, client: u16, handle: u8) -> bool
        ensures opening { (past : Past) → ShowsOpenCalls self.now past
            → result ≡ is_opening client handle past }
    {
        self.opens(client, 0, handle)
            || self.opens(client, 1, handle)
            || self.opens(client, 2, handle)
            || self.opens(client, 3, handle)
    }

    /// What the handle of the client's present life is bound to.
    fn bound_to(&self, ledger: &Ledger<'a>, client: u16, handle: u8) -> Option<Binding>
        ensures bound { (past : Past) → ShowsLedger ledger.now past → ShowsOpenCalls self.now past
            → option_map binding_of result ≡ bound_to client past handle }
    {
        self.handles.get(ledger.lives.who(client), handle)
    }

    /// Whether the handle of the client's present life is bound.
    fn is_bound(&self, ledger: &Ledger<'a>, client: u16, handle: u8) -> bool
        ensures bound { (past : Past) → ShowsLedger ledger.now past → ShowsOpenCalls self.now past
            → result ≡ is_some (bound_to client past handle) }
    {
        self.bound_to(ledger, client, handle).is_some()
    }

    /// What the handle that the call names is bound to; none for a call that names none.
    fn bound_by(&self, ledger: &Ledger<'a>, client: u16, call: &Call) -> Option<Binding>
        ensures bound { (past : Past) → ShowsLedger ledger.now past → ShowsOpenCalls self.now past
            → option_map binding_of result ≡ bound_by client past (handle_of call.now) }
    {
        match call {
            Call::Open { handle, .. }
            | Call::Close(handle)
            | Call::Read { handle, .. }
            | Call::Write { handle, .. }
            | Call::Cut { handle, .. }
            | Call::Flush(handle)
            | Call::Glimpse(handle) => self.bound_to(ledger, client, *handle),
            _ => None,
        }
    }

    /// Whether the call is bad for the client, at the next line: on a handle that isn't bound, or an `open` of one that is
    /// bound or being opened.
    pub fn is_bad(&self, ledger: &Ledger<'a>, client: u16, call: &Call) -> bool
        ensures bad { (past : Past) → ShowsLedger ledger.now past → ShowsOpenCalls self.now past
            → result ≡ is_bad client past call.now }
    {
        match call {
            Call::Open { handle, .. } => {
                self.is_bound(ledger, client, *handle) || self.is_opening(client, *handle)
            }
            Call::Close(handle)
            | Call::Read { handle, .. }
            | Call::Write { handle, .. }
            | Call::Cut { handle, .. }
            | Call::Flush(handle)
            | Call::Glimpse(handle) => !self.is_bound(ledger, client, *handle),
            _ => false,
        }
    }

    /// The transaction that the named turn of the metadata target has for the request that this turn, of the next line,
    /// heard there.
    fn number_heard(&self, ledger: &Ledger<'a>, at: At, turn: At, who: Who) -> Option<Txn>
        ensures number { (past : Past) → Ordered past → Follows past at → ShowsLedger ledger.now past
            → ShowsOpenCalls self.now past → result ≡ number_heard past turn who (heard_in past at) }
    {
        match ledger.present.heard(at) {
            Some(xid) => self.transactions.get(turn, who, xid),
            None => None,
        }
    }

    /// A call begins.
    fn begin(
        &mut self,
        ledger: &Ledger<'a>,
        client: u16,
        at: At,
        slot: u8,
        call: &'a Call,
    ) -> Result<(), Memory>
        requires own { at.node ≡ Node.Client client }
        ensures shows { OnOk result ((past : Past) → ShowsLedger ledger.now past
            → ShowsOpenCalls self.old past
            → ShowsOpenCalls self.new (record { at = at; entry = Entry.Begin slot call.now } ∷ past)) }
    {
        let begun = Begun {
            at,
            call,
            bad: self.is_bad(ledger, client, call),
            bound: self.bound_by(ledger, client, call),
        };
        self.handles.begin(ledger.lives.who(client), call);
        self.standing.insert((client, slot), begun)?;
        Ok(())
    }

    /// A call is told.
    fn tell(
        &mut self,
        ledger: &Ledger<'a>,
        client: u16,
        at: At,
        slot: u8,
        turn: At,
        answer: &Answer,
    ) -> Result<(), Memory>
        requires own { at.node ≡ Node.Client client }
        ensures shows { OnOk result ((past : Past) → Ordered past → Follows past at
            → ShowsLedger ledger.now past → ShowsOpenCalls self.old past
            → ShowsOpenCalls self.new (record { at = at; entry = Entry.Told slot turn answer.now } ∷ past)) }
    {
        let who = ledger.lives.who(client);
        let number = self.number_heard(ledger, at, turn, who);
        let call = self.call_in(client, slot);
        self.handles.tell(who, call, answer, number)?;
        self.standing.remove(&(client, slot));
        Ok(())
    }

    /// Takes in the next line. The ledger shows the lines before it. After want of memory nothing is known of the table.
    pub fn step(&mut self, ledger: &Ledger<'a>, line: &'a Line) -> Result<(), Memory>
        ensures shows { OnOk result ((past : Past) → Ordered past → Follows past line.now.at
            → ShowsLedger ledger.now past → ShowsOpenCalls self.old past
            → ShowsOpenCalls self.new (line.now ∷ past)) }
    {
        match &line.entry {
            Entry::Begin { slot, call } => match line.at.node {
                Node::Client(client) => self.begin(ledger, client, line.at, *slot, call),
                Node::Target(_) => Ok(()),
            },
            Entry::Told { slot, at, answer } => match line.at.node {
                Node::Client(client) => { self.tell(ledger, client, line.at, *slot, *at, answer) }
                Node::Target(_) => Ok(()),
            },
            _ => self.transactions.step(line),
        }
    }
}
