//! What turns of targets had so far: ticks, commits, messages taken, and `back` lines.

ghost use Rattle.std.specs.Prelude.{◌≡◌, [], ◌∷◌, OnOk};
ghost use Rattle.lu_trace.specs.declared.entries.Line.{Line};
ghost use Rattle.lu_spec_laws.specs.Words.Pasts.{Past};
ghost use Rattle.lu_judge_recovery.specs.Marks.{has_ticked, has_committed, has_taken, has_back, Marked, ShowsMarks};

use super::turns::Turn;
use lu_base::{Memory, Node, Who};
use lu_trace::{Entry, Line};
use std::alloc::Global;
use std::collections::HashSet;

/// The turns with a tick, those with a commit, those that took a message, and the lives with a `back` line of each turn.
#[derive(Drop)]
pub struct Marks {
    ticked: HashSet<(u64, u16)>,
    committed: HashSet<(u64, u16)>,
    took: HashSet<(u64, u16)>,
    back: HashSet<((u64, u16), (u16, u32))>,
}

impl Marks {
    /// Of no line. It takes no memory yet.
    pub fn new(alloc: Global) -> Marks
        ensures shows { ShowsMarks result [] }
    {
        Marks {
            ticked: HashSet::new(alloc),
            committed: HashSet::new(alloc),
            took: HashSet::new(alloc),
            back: HashSet::new(alloc),
        }
    }

    /// Whether the turn had a tick.
    pub fn has_ticked(&self, turn: Turn) -> bool
        ensures ticked { result ≡ has_ticked self.now turn.stamp turn.target }
    {
        self.ticked.contains(&(turn.stamp, turn.target))
    }

    /// Whether the turn had a commit.
    pub fn has_committed(&self, turn: Turn) -> bool
        ensures committed { result ≡ has_committed self.now turn.stamp turn.target }
    {
        self.committed.contains(&(turn.stamp, turn.target))
    }

    /// Whether the turn took a message.
    pub fn has_taken(&self, turn: Turn) -> bool
        ensures taken { result ≡ has_taken self.now turn.stamp turn.target }
    {
        self.took.contains(&(turn.stamp, turn.target))
    }

    /// Whether the life had a `back` line in the turn.
    pub fn has_back(&self, turn: Turn, who: Who) -> bool
        ensures back { result ≡ has_back self.now turn.stamp turn.target who }
    {
        self.back
            .contains(&((turn.stamp, turn.target), (who.client, who.life)))
    }

    /// Takes in an entry of this turn.
    fn mark(&mut self, turn: Turn, entry: &Entry) -> Result<(), Memory>
        ensures marked { OnOk result (Marked self.old self.new turn.stamp turn.target entry.now) }
    {
        match entry {
            Entry::Tick => {
                self.ticked.insert((turn.stamp, turn.target))?;
                Ok(())
            }
            Entry::Commit(_) => {
                self.committed.insert((turn.stamp, turn.target))?;
                Ok(())
            }
            Entry::Take(_) => {
                self.took.insert((turn.stamp, turn.target))?;
                Ok(())
            }
            Entry::Back(who) => {
                self.back
                    .insert(((turn.stamp, turn.target), (who.client, who.life)))?;
                Ok(())
            }
            _ => Ok(()),
        }
    }

    /// Takes in the next line. After want of memory nothing is known of the table.
    pub fn step(&mut self, line: &Line) -> Result<(), Memory>
        ensures shows { OnOk result ((past : Past) → ShowsMarks self.old past
            → ShowsMarks self.new (line.now ∷ past)) }
    {
        match line.at.node {
            Node::Client(_) => Ok(()),
            Node::Target(target) => {
                let turn = Turn {
                    stamp: line.at.stamp.0,
                    target,
                };
                self.mark(turn, &line.entry)
            }
        }
    }
}
