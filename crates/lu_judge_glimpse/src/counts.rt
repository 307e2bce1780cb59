//! How many sizes calls are told.

ghost use Rattle.std.specs.Prelude.{◌≡◌, ℕ, ◌<◌, ◌≤◌, [], ◌∷◌, length, slice_index_or, IfOk, OnOk};
ghost use Rattle.lu_trace.specs.declared.entries.Line.{Line};
ghost use Rattle.lu_spec_laws.specs.Words.Pasts.{Past};
ghost use Rattle.lu_judge_pass.specs.Firsts.{before};
ghost use Rattle.lu_judge_glimpse.specs.Begins.{count_in, Counted, ShowsBegins};

use super::begins::Begins;
use lu_base::{Memory, Node};
use lu_msg::Answer;
use lu_trace::{Entry, Line};
use std::alloc::Global;
use std::collections::HashMap;

/// By the place of the line, from 0, at which a call began: at least how many sizes it is told.
#[derive(Debug, Drop)]
pub struct Counts {
    by_place: HashMap<usize, usize>,
}

impl Counts {
    /// Of no line. It takes no memory yet.
    fn new(alloc: Global) -> Counts {
        Counts {
            by_place: HashMap::new(alloc),
        }
    }

    /// At least how many sizes the call is told that began there.
    pub fn get(&self, place: usize) -> usize
        ensures count { result ≡ count_in self.now place }
    {
        self.by_place.get(&place).copied().unwrap_or(0)
    }

    /// The call that began there is told so many.
    fn raise(&mut self, place: usize, count: usize) -> Result<(), Memory>
        ensures counted { OnOk result (count ≤ count_in self.new place) }
        ensures still { OnOk result ((other : ℕ) → count_in self.old other ≤ count_in self.new other) }
    {
        if self.get(place) < count {
            self.by_place.insert(place, count)?;
        }
        Ok(())
    }

    /// Takes in the next line, where these are the begins so far.
    fn step(&mut self, begins: &Begins, line: &Line) -> Result<(), Memory>
        ensures counted { OnOk result ((past : Past) → ShowsBegins begins.now past
            → Counted self.new past line.now) }
        ensures still { OnOk result ((other : ℕ) → count_in self.old other ≤ count_in self.new other) }
    {
        match &line.entry {
            Entry::Told {
                slot,
                answer: Answer::Sizes(sizes),
                ..
            } => match line.at.node {
                Node::Client(client) => self.raise(begins.get(client, *slot), sizes.len()),
                Node::Target(_) => Ok(()),
            },
            _ => Ok(()),
        }
    }
}

/// How many sizes calls are told in a whole trace.
pub fn counts_in(alloc: Global, lines: &[Line]) -> Result<Counts, Memory>
    ensures counted { IfOk result (λ counts. (k : ℕ) → k < length lines.now → (d : Line)
        → Counted counts (before lines.now k) (slice_index_or lines.now k d)) }
{
    let mut begins = Begins::new(alloc);
    let mut counts = Counts::new(alloc);
    let mut place = 0;
    while place < lines.len() {
        let line = &lines[place];
        counts.step(&begins, line)?;
        begins.step(line, place)?;
        place += 1;
    }
    Ok(counts)
}
