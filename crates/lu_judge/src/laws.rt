//! The laws by name, and their order.

ghost use Rattle.std.specs.Prelude.{◌≡◌};
ghost use Rattle.lu_judge.specs.Laws.{law_text, next_law};

use std::fmt;

/// A law of traces, in the order in which they are judged.
#[derive(Clone, Copy, Debug, PartialEq, Eq)]
pub enum Law {
    /// Numbers of messages, order of turns, slots, the dead.
    Messages,
    /// What is granted and held.
    Locks,
    /// A call whose answer its life knows is told at once, and nothing is sent.
    Silent,
    /// Each call acts once, between its begin and its answer.
    Acts,
    /// What transactions have seen, what is committed, and what a close keeps, evicts and restores.
    Recovery,
    /// One order of acts explains all that is told.
    History,
    /// The sizes that glimpses are told.
    Glimpse,
}

impl Law {
    /// The name of the law.
    pub fn text(self) -> &'static str
        ensures name { result.now ≡ law_text self }
    {
        match self {
            Law::Messages => "Messages",
            Law::Locks => "Locks",
            Law::Silent => "Silent",
            Law::Acts => "Acts",
            Law::Recovery => "Recovery",
            Law::History => "History",
            Law::Glimpse => "Glimpse",
        }
    }

    /// The law after this one; none after the last.
    pub fn next(self) -> Option<Law>
        ensures next { result ≡ next_law self }
    {
        match self {
            Law::Messages => Some(Law::Locks),
            Law::Locks => Some(Law::Silent),
            Law::Silent => Some(Law::Acts),
            Law::Acts => Some(Law::Recovery),
            Law::Recovery => Some(Law::History),
            Law::History => Some(Law::Glimpse),
            Law::Glimpse => None,
        }
    }
}

impl fmt::Display for Law {
    ghost use Rattle.std.specs.Prelude.{Some};
    ghost use Rattle.lu_judge.specs.Laws.{law_text};

    ghost output = { λ law. Some (law_text law) };

    fn fmt<W: fmt::Write>(&self, f: &mut fmt::Formatter<W>) -> fmt::Result {
        f.write_str(self.text())
    }
}
