//! What the turn of the newest line took and heard.

ghost use Rattle.std.specs.Prelude.{◌≡◌, ◌==◌, if◌then◌else◌, [], ◌∷◌, reverse, map, OnOk};
ghost use Rattle.std.specs.Option.{option_map};
ghost use Rattle.lu_trace.specs.declared.entries.Line.{Line};
ghost use Rattle.lu_spec_laws.specs.Words.Pasts.{Past, or_else};
ghost use Rattle.lu_spec_laws.specs.Words.Sends.{taken, with_taken};
ghost use Rattle.lu_spec_laws.specs.Words.Calls.{heard_in};
ghost use Rattle.lu_spec_laws.specs.Laws.Messages.{Follows};
ghost use Rattle.lu_judge_pass.specs.Places.{Ordered};
ghost use Rattle.lu_judge_pass.specs.Tables.{sending_of, ShowsSendings};
ghost use Rattle.lu_judge_pass.specs.Ledgers.{is_present, HasTurn, ShowsPresent};

use super::sendings::{Sending, Sendings};
use super::turns::same_turn;
use lu_base::{At, Memory, TargetId, Xid};
use lu_trace::{Entry, Line};
use std::alloc::Global;

/// What the turn of the newest line took and heard so far.
#[derive(Debug, Drop)]
pub struct Present<'a> {
    alloc: Global,
    /// The turn of the newest line.
    newest: Option<At>,
    /// The messages that the turn took, the first one first.
    taken: Vec<Sending<'a>>,
    /// The request number that it heard first at the metadata target.
    heard: Option<Xid>,
}

impl<'a> Present<'a> {
    /// Of no line. It takes no memory yet.
    pub fn new(alloc: Global) -> Present<'a>
        ensures shows { ShowsPresent result [] }
    {
        Present {
            alloc,
            newest: None,
            taken: Vec::new(alloc),
            heard: None,
        }
    }

    /// Whether the newest line is of this turn.
    pub fn is(&self, at: At) -> bool
        ensures present { result ≡ is_present self.now.newest at }
    {
        match self.newest {
            Some(newest) => same_turn(newest, at),
            None => false,
        }
    }

    /// The messages that this turn, of the next line, took so far, the first one first.
    pub fn taken(&self, at: At) -> &[Sending<'a>]
        ensures taken { (past : Past) → ShowsPresent self.now past → Ordered past → Follows past at
            → reverse (map sending_of result.now) ≡ taken past at }
    {
        if self.is(at) {
            self.taken.as_slice()
        } else {
            &[]
        }
    }

    /// The request number that this turn, of the next line, heard so far at the metadata target; of several the first.
    pub fn heard(&self, at: At) -> Option<Xid>
        ensures heard { (past : Past) → ShowsPresent self.now past → Ordered past → Follows past at
            → option_map (λ x. x.0) result ≡ heard_in past at }
    {
        if self.is(at) { self.heard } else { None }
    }

    /// Comes to the turn of the next line: what another turn took and heard is forgotten.
    fn enter(&mut self, at: At)
        ensures enters { (past : Past) → Ordered past → Follows past at → ShowsPresent self.old past
            → HasTurn self.new past at }
    {
        if !self.is(at) {
            self.newest = Some(at);
            self.taken = Vec::new(self.alloc);
            self.heard = None;
        }
    }

    /// Adds a message that the turn takes, where there is one.
    fn take(&mut self, sending: Option<Sending<'a>>) -> Result<(), Memory>
        ensures taken { OnOk result (reverse (map sending_of self.new.taken.items)
            ≡ with_taken (option_map sending_of sending.entry) (reverse (map sending_of self.old.taken.items))) }
        ensures newest { OnOk result (self.new.newest ≡ self.old.newest) }
        ensures heard { OnOk result (self.new.heard ≡ self.old.heard) }
    {
        match sending {
            Some(sending) => {
                self.taken.push(sending)?;
                Ok(())
            }
            None => Ok(()),
        }
    }

    /// Adds a request number that the turn hears, where it is the first one at the metadata target.
    fn hear(&mut self, target: TargetId, xid: Xid)
        ensures heard { option_map (λ x. x.0) self.new.heard
            ≡ or_else (option_map (λ x. x.0) self.old.heard) (if target.0 == 0 then Some xid.0 else None) }
        ensures newest { self.new.newest ≡ self.old.newest }
        ensures taken { self.new.taken ≡ self.old.taken }
    {
        if target.0 == 0 && self.heard.is_none() {
            self.heard = Some(xid);
        }
    }

    /// Takes in the next line. After want of memory nothing is known of the table.
    pub fn step(&mut self, sendings: &Sendings<'a>, line: &'a Line) -> Result<(), Memory>
        ensures shows { OnOk result ((past : Past) → Ordered past → Follows past line.now.at
            → ShowsSendings sendings.now past → ShowsPresent self.old past
            → ShowsPresent self.new (line.now ∷ past)) }
    {
        self.enter(line.at);
        match &line.entry {
            Entry::Take(number) => self.take(sendings.get(*number)),
            Entry::Heard { target, xid } => {
                self.hear(*target, *xid);
                Ok(())
            }
            _ => Ok(()),
        }
    }
}
