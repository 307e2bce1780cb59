//! The calls whose answers lives know.

ghost use Rattle.std.specs.Prelude.{◌≡◌, ◌<◌, ◌^◌, ℕ, if◌then◌else◌, [], ◌∷◌, Some, length, OnOk};
ghost use Rattle.std.specs.List.{list_any};
ghost use Rattle.std.specs.Option.{option_map};
ghost use Rattle.lu_base.specs.declared.ids.Who.{Who as SpecWho};
ghost use Rattle.lu_base.specs.declared.ids.At.{At as SpecAt};
ghost use Rattle.lu_trace.specs.declared.entries.Line.{Line};
ghost use Rattle.lu_spec_machine.specs.Tree.{same_life};
ghost use Rattle.lu_spec_laws.specs.Words.Pasts.{Past};
ghost use Rattle.lu_spec_laws.specs.Words.Sends.{sending};
ghost use Rattle.lu_judge_pass.specs.Tables.{sending_of};
ghost use Rattle.lu_spec_laws.specs.Words.Repeats.{known, same_reading};
ghost use Rattle.lu_judge_pass.specs.Ledgers.{ShowsLedger};
ghost use Rattle.lu_judge_silent.specs.Tables.{marks_of, calm_at, is_fresh};
ghost use Rattle.lu_judge_silent.specs.Steps as after;
ghost use Rattle.lu_judge_silent.specs.Steps.{Alike};
ghost use Rattle.lu_judge_silent.specs.Shown.{Followed, IsOwn, ShowsKnown};

use super::readings::{Reading, handle_read, handle_rebound, is_disturbing, is_error, question};
use super::stamps::Stamps;
use super::ups::Ups;
use lu_base::{Memory, Node, Who};
use lu_judge_pass::{Ledger, Sending};
use lu_msg::{Answer, Call};
use lu_trace::{Entry, Line};
use std::alloc::Global;
use std::collections::HashMap;

/// A call that stands in a slot.
#[derive(Clone, Copy, Debug)]
struct Standing<'a> {
    call: &'a Call,
    /// The number of the line at which it began; 0 where an `up` waited for its `ready` then.
    since: u64,
}

/// What lives know: of each reading call the line at which its answer was last told, and the lines that make it worthless.
/// What a life knows is worth something where it was told after all of these.
#[derive(Debug, Drop)]
pub struct Known<'a> {
    /// The number of the next line, from 1.
    clock: u64,
    /// When a life was last told that what it knows may change, or dropped a lock.
    disturbed: Stamps<Who>,
    /// When a life last began to open or close a handle.
    rebound: Stamps<(Who, u8)>,
    /// The calls that stand, by life and slot.
    standing: HashMap<(Who, u8), Standing<'a>>,
    /// When a life was last told an answer that counts.
    told: Stamps<(Who, Reading<'a>)>,
    ups: Ups,
}

impl<'a> Known<'a> {
    /// Of no line. It takes no memory yet.
    pub fn new(alloc: Global) -> Known<'a>
        ensures shows { ShowsKnown result [] }
    {
        Known {
            clock: 1,
            disturbed: Stamps::new(alloc),
            rebound: Stamps::new(alloc),
            standing: HashMap::new(alloc),
            told: Stamps::new(alloc),
            ups: Ups::new(alloc),
        }
    }

    /// Whether nothing has changed since this line what the life knows of the call's answer.
    fn is_fresh(&self, who: Who, call: &Call, time: u64) -> bool
        ensures { result ≡ is_fresh (marks_of self.now who) call.now time }
    {
        let rebound = match handle_read(call) {
            Some(handle) => self.rebound.get(&(who, handle)),
            None => 0,
        };
        self.disturbed.get(&who) < time && rebound < time
    }

    /// The call that stands in the slot, where nothing has changed since its begin.
    fn calm(&self, who: Who, slot: u8) -> Option<&'a Call>
        ensures { option_map (λ call. call.now) result ≡ calm_at (marks_of self.now who) slot }
    {
        let standing = self.standing.get(&(who, slot)).copied()?;
        if self.is_fresh(who, standing.call, standing.since) {
            Some(standing.call)
        } else {
            None
        }
    }

    /// Whether the life knows the call's answer.
    pub fn has(&self, who: Who, call: &'a Call) -> bool
        ensures known { (past : Past) → ShowsKnown self.now past
            → result ≡ list_any (same_reading call.now) (known who past) }
    {
        match question(call) {
            Some(asked) => self.is_fresh(who, call, self.told.get(&(who, asked))),
            None => false,
        }
    }

    /// What the life knows may change.
    fn disturb(&mut self, who: Who) -> Result<(), Memory>
        ensures moves { OnOk result ((w : SpecWho) → Alike
            (after.disturbed self.old.clock (same_life who w) (marks_of self.old w)) (marks_of self.new w)) }
        ensures clock { OnOk result (self.new.clock ≡ self.old.clock) }
        ensures ups { OnOk result (self.new.ups ≡ self.old.ups) }
    {
        self.disturbed.set(who, self.clock)?;
        Ok(())
    }

    /// This line, or 0 where an `up` waits for its `ready`.
    fn since(&self, is_ready: bool) -> u64
        ensures { result ≡ (if is_ready then self.now.clock else 0) }
    {
        if is_ready { self.clock } else { 0 }
    }

    /// The life begins a call.
    fn begin(&mut self, who: Who, slot: u8, call: &'a Call, is_ready: bool) -> Result<(), Memory>
        ensures moves { OnOk result ((w : SpecWho) → Alike
            (after.begun self.old.clock (same_life who w) slot call.now is_ready (marks_of self.old w))
            (marks_of self.new w)) }
        ensures clock { OnOk result (self.new.clock ≡ self.old.clock) }
        ensures ups { OnOk result (self.new.ups ≡ self.old.ups) }
    {
        let since = self.since(is_ready);
        let standing = Standing { call, since };
        self.standing.insert((who, slot), standing)?;
        match handle_rebound(call) {
            Some(handle) => {
                self.rebound.set((who, handle), self.clock)?;
                Ok(())
            }
            None => Ok(()),
        }
    }

    /// The life is told the answer of a call.
    fn learn(&mut self, who: Who, slot: u8, answer: &Answer) -> Result<(), Memory>
        ensures moves { OnOk result ((w : SpecWho) → Alike
            (after.learned self.old.clock (same_life who w) answer.now (calm_at (marks_of self.old who) slot)
            (marks_of self.old w))
            (marks_of self.new w)) }
        ensures clock { OnOk result (self.new.clock ≡ self.old.clock) }
        ensures ups { OnOk result (self.new.ups ≡ self.old.ups) }
    {
        if is_error(answer) {
            return Ok(());
        }
        match self.calm(who, slot) {
            Some(call) => match question(call) {
                Some(asked) => {
                    self.told.set((who, asked), self.clock)?;
                    Ok(())
                }
                None => Ok(()),
            },
            None => Ok(()),
        }
    }

    /// The call in the slot stands no longer.
    fn end(&mut self, who: Who, slot: u8)
        ensures moves { (w : SpecWho) → Alike (after.ended (same_life who w) slot (marks_of self.old w))
            (marks_of self.new w) }
        ensures clock { self.new.clock ≡ self.old.clock }
        ensures ups { self.new.ups ≡ self.old.ups }
    {
        self.standing.remove(&(who, slot));
    }

    /// The life takes a message.
    fn take(&mut self, who: Who, sent: Sending<'a>) -> Result<(), Memory>
        ensures takes { OnOk result ((past : Past) (at : SpecAt) (number : ℕ) → IsOwn who past at.node
            → sending past number ≡ Some (sending_of sent.entry) → ShowsKnown self.old past
            → Followed self.new past (record { at = at; entry = Entry.Take number })) }
    {
        self.ups.take(who, sent.from, sent.message)?;
        if is_disturbing(sent.message) {
            self.disturb(who)?;
            return Ok(());
        }
        Ok(())
    }

    /// Takes in a line of the life's own.
    fn follow(&mut self, ledger: &Ledger<'a>, who: Who, line: &'a Line) -> Result<(), Memory>
        ensures follows { OnOk result ((past : Past) → IsOwn who past line.now.at.node → ShowsLedger ledger.now past
            → ShowsKnown self.old past → Followed self.new past line.now) }
    {
        match &line.entry {
            Entry::Begin { slot, call } => {
                let is_ready = self.ups.is_ready(who);
                self.begin(who, *slot, call, is_ready)?;
                Ok(())
            }
            Entry::Told { slot, answer, .. } => {
                self.learn(who, *slot, answer)?;
                self.end(who, *slot);
                Ok(())
            }
            Entry::Take(number) => match ledger.sendings.get(*number) {
                Some(sending) => {
                    self.take(who, sending)?;
                    Ok(())
                }
                None => Ok(()),
            },
            Entry::Drop { .. } => {
                self.disturb(who)?;
                Ok(())
            }
            _ => Ok(()),
        }
    }

    /// Takes in a line, but for its number.
    fn hear(&mut self, ledger: &Ledger<'a>, line: &'a Line) -> Result<(), Memory>
        ensures follows { OnOk result ((past : Past) → ShowsLedger ledger.now past → ShowsKnown self.old past
            → Followed self.new past line.now) }
    {
        match line.at.node {
            Node::Client(client) => {
                self.follow(ledger, ledger.lives.who(client), line)?;
                Ok(())
            }
            Node::Target(_) => Ok(()),
        }
    }

    /// Takes in the next line, over the lines before it. After want of memory nothing is known of the table.
    pub fn step(&mut self, ledger: &Ledger<'a>, line: &'a Line) -> Result<(), Memory>
        ensures shows { OnOk result ((past : Past) → length past < 2 ^ 63 → ShowsLedger ledger.now past
            → ShowsKnown self.old past → ShowsKnown self.new (line.now ∷ past)) }
    {
        self.hear(ledger, line)?;
        // There are fewer lines than 2^63.
        self.clock = self.clock.saturating_add(1);
        Ok(())
    }
}
