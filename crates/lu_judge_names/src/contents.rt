//! The names of the metadata target.

ghost use Rattle.std.specs.Prelude.{◌≡◌, ℕ, ◌≤◌, true, [], ◌∷◌, map, IfOk, OnOk};
ghost use Rattle.std.specs.Option.{option_map};
ghost use Rattle.lu_trace.specs.declared.entries.Line.{Line};
ghost use Rattle.lu_spec_laws.specs.Words.Pasts.{Past, is_target};
ghost use Rattle.lu_spec_laws.specs.Words.Asked.{wanted};
ghost use Rattle.lu_spec_laws.specs.Words.Lost.{is_lost};
ghost use Rattle.lu_spec_laws.specs.Words.Seen.{writes_of, touches_of};
ghost use Rattle.lu_judge_pass.specs.Ledgers.{ShowsLedger};
ghost use Rattle.lu_judge_windows.specs.Windows.{ShowsWindows};
ghost use Rattle.lu_judge_names.specs.Contents.{held, ShowsContents, grown, executed, remarked, settled};
ghost use Rattle.lu_judge_names.specs.Events.{marked, marked_of};
ghost use Rattle.lu_judge_names.specs.Names.{names_of};

use super::events::Event;
use super::names::Names;
use lu_base::{Memory, Node, Txn, Who};
use lu_judge_pass::Ledger;
use lu_judge_windows::Windows;
use lu_msg::{Answer, Op};
use lu_part::{Parts, Wants};
use lu_trace::{Entry, Line};
use std::alloc::Global;

/// The names as the standing transactions leave them, and all that may change them again when a recovery window closes.
#[derive(Drop)]
pub struct Contents<'a> {
    alloc: Global,
    /// The greatest number of a transaction, or 0.
    greatest: u64,
    /// The transactions that could change the names, and the evictions, in the order of the lines.
    events: Vec<Event<'a>>,
    names: Names,
}

impl<'a> Contents<'a> {
    /// Of no line, over this many object storage targets, 1 to 8.
    pub fn new(alloc: Global, osts: u16) -> Result<Contents<'a>, Memory>
        requires some { 1 ≤ osts }
        requires most { osts ≤ 8 }
        ensures shows { IfOk result (λ contents. ShowsContents osts contents []) }
    {
        Ok(Contents {
            alloc,
            greatest: 0,
            events: Vec::new(alloc),
            names: Names::new(alloc, osts)?,
        })
    }

    /// What an operation of a life writes, as transaction `number`; without one nothing.
    pub fn writes(
        &self,
        alloc: Global,
        number: Txn,
        who: Who,
        op: Option<&Op>,
    ) -> Result<Parts, Memory>
        ensures writes { IfOk result (λ parts. (osts : ℕ) (past : Past) → ShowsContents osts self.now past
            → parts ≡ writes_of osts 0 past number who (option_map (λ o. o.now) op.entry)) }
    {
        self.names.writes(alloc, number, who, op)
    }

    /// What an operation of a life touches; without one nothing. Of names the answer tells no more.
    pub fn touches(
        &self,
        alloc: Global,
        number: Txn,
        who: Who,
        op: Option<&Op>,
        _answer: &Answer,
    ) -> Result<Parts, Memory>
        ensures touches { IfOk result (λ parts. (osts : ℕ) (past : Past) → ShowsContents osts self.now past
            → parts ≡ touches_of osts 0 past number who (option_map (λ o. o.now) op.entry) _answer.now) }
    {
        self.names.touches(alloc, number, who, op)
    }

    /// The locks that an operation of a life asks for; without one none.
    pub fn wants(&self, alloc: Global, who: Who, op: Option<&Op>) -> Result<Wants, Memory>
        ensures wants { IfOk result (λ wants. (osts : ℕ) (past : Past) → ShowsContents osts self.now past
            → wants ≡ wanted osts past who (option_map (λ o. o.now) op.entry)) }
    {
        self.names.wants(alloc, who, op)
    }

    /// Adds an event. After want of memory nothing is known of the table.
    fn add(&mut self, event: Event<'a>) -> Result<(), Memory>
        ensures { OnOk result (held self.new ≡ grown (held self.old) (marked_of event.entry)) }
    {
        self.names.step(self.alloc, event)?;
        self.events.push(event)?;
        Ok(())
    }

    /// Takes in a transaction. After want of memory nothing is known of the table.
    fn execute(
        &mut self,
        windows: &Windows<'a>,
        number: Txn,
        who: Who,
        op: Option<&'a Op>,
    ) -> Result<(), Memory>
        ensures { OnOk result ((past : Past) → ShowsWindows windows.now past → held self.new
            ≡ executed (is_lost past 0) (held self.old) number who (option_map (λ o. o.now) op.entry)) }
    {
        let before = self.greatest;
        self.greatest = before.max(number.0);
        match op {
            Some(op) => {
                if before.max(1) < number.0 {
                    return self.add(Event::Transaction {
                        number,
                        who,
                        op,
                        lost: windows.is_lost(0, number.0),
                    });
                }
                Ok(())
            }
            None => Ok(()),
        }
    }

    /// Whether each event is lost or not as it was.
    fn is_current(&self, windows: &Windows<'a>) -> bool
        ensures { result ≡ true → (past : Past) → ShowsWindows windows.now past
            → map (remarked (is_lost past 0)) (held self.now).marks ≡ (held self.now).marks }
    {
        for event in &self.events {
            if !event.is_current(windows) {
                return false;
            }
        }
        true
    }

    /// Builds the names anew, without the events that are lost now. After want of memory nothing is known of the table.
    fn rebuild(&mut self, windows: &Windows<'a>) -> Result<(), Memory>
        ensures { OnOk result ((past : Past) → ShowsWindows windows.now past
            → held self.new ≡ settled (is_lost past 0) (held self.old)) }
    {
        let mut names = self.names.anew(self.alloc)?;
        let mut events = Vec::new(self.alloc);
        for event in &self.events {
            let event = event.marked(windows);
            names.step(self.alloc, event)?;
            events.push(event)?;
        }
        self.names = names;
        self.events = events;
        Ok(())
    }

    /// Takes in that other numbers may be lost. After want of memory nothing is known of the table.
    fn settle(&mut self, windows: &Windows<'a>) -> Result<(), Memory>
        ensures { OnOk result ((past : Past) → ShowsWindows windows.now past
            → (held self.old).names ≡ names_of (held self.old).names.tree.osts (held self.old).marks
            → held self.new ≡ settled (is_lost past 0) (held self.old)) }
    {
        if self.is_current(windows) {
            return Ok(());
        }
        self.rebuild(windows)
    }

    /// Takes in the next line. The windows show the lines up to it, the ledger those before it. After want of memory
    /// nothing is known of the table.
    pub fn step(
        &mut self,
        ledger: &Ledger<'a>,
        windows: &Windows<'a>,
        line: &'a Line,
    ) -> Result<(), Memory>
        ensures shows { OnOk result ((osts : ℕ) (past : Past) → ShowsLedger ledger.now past
            → ShowsWindows windows.now (line.now ∷ past) → ShowsContents osts self.old past
            → ShowsContents osts self.new (line.now ∷ past)) }
    {
        if !is_names(line.at.node) {
            return Ok(());
        }
        match &line.entry {
            Entry::Txn { txn, who, xid, .. } => {
                self.execute(windows, *txn, *who, ledger.requests.asked(0, *who, *xid))
            }
            Entry::Evict { who, .. } => self.add(Event::Eviction(*who)),
            Entry::Close | Entry::Fail => self.settle(windows),
            _ => Ok(()),
        }
    }
}

/// Whether the node is the metadata target.
fn is_names(node: Node) -> bool
    ensures { result ≡ is_target 0 node }
{
    match node {
        Node::Client(_) => false,
        Node::Target(target) => target == 0,
    }
}
