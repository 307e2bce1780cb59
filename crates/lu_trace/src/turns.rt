//! A turn in the making.

ghost use Rattle.std.specs.Prelude.{◌≡◌, OnOk, OnErr};
ghost use Rattle.lu_trace.specs.Turns.{no_step, with_line, with_post};

use super::entries::{Entries, Entry, Line};
use super::traces::Step;
use lu_base::{At, Duplicate, Memory};
use lu_msg::{Post, Sends};
use std::alloc::Global;
use std::marker::Model;

/// A turn that a node makes: what the node gives in it, as it comes. The numbers of its messages
/// aren't known yet: they are 0.
#[derive(Drop)]
pub struct Turn {
    alloc: Global,
    turn: At,
    sends: Sends,
    entries: Entries,
}

impl Model for Turn {
    ghost use Rattle.lu_trace.specs.Turns.{Making};

    ghost Value = { Making };

    ghost view = { λ t. record { at = t.turn; step = record { sends = t.sends; entries = t.entries } } };
}

impl Turn {
    /// A turn in which nothing is given yet.
    pub fn new(alloc: Global, at: At) -> Turn
        ensures empty { result ≡ record { at = at; step = no_step } }
    {
        Turn {
            alloc,
            turn: at,
            sends: Sends::new(alloc),
            entries: Entries::new(alloc),
        }
    }

    /// Which turn it is.
    pub fn at(&self) -> At
        ensures at { result ≡ self.now.at }
    {
        self.turn
    }

    /// Adds a line.
    pub fn note(&mut self, entry: Entry) -> Result<(), Memory>
        ensures added { OnOk result (self.new.step ≡ with_line self.old.at self.old.step entry) }
        ensures kept { OnErr result (self.new ≡ self.old) }
        ensures turn { self.new.at ≡ self.old.at }
    {
        self.entries.push(Line {
            at: self.turn,
            entry,
        })
    }

    /// Adds a message, and its line. After want of memory the line may stand alone.
    pub fn send(&mut self, post: Post) -> Result<(), Memory>
        ensures added { OnOk result (self.new.step ≡ with_post self.old.at self.old.step post) }
        ensures turn { self.new.at ≡ self.old.at }
    {
        let message = post.message.copy(self.alloc)?;
        self.note(Entry::Send {
            number: 0,
            to: post.to,
            message,
        })?;
        self.sends.push(post)
    }

    /// What the node gave in the turn.
    pub fn into_step(self) -> Step
        ensures step { result ≡ self.step }
    {
        Step {
            sends: self.sends,
            entries: self.entries,
        }
    }
}
