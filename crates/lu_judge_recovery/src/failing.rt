//! The turns of targets in which the disk fails.

ghost use Rattle.std.specs.Prelude.{◌≡◌, [], ◌∷◌, reverse, IfOk, OnOk};
ghost use Rattle.lu_trace.specs.declared.entries.Line.{Line};
ghost use Rattle.lu_spec_laws.specs.Words.Pasts.{Past};
ghost use Rattle.lu_judge_recovery.specs.Failing.{is_failing, ShowsFailing};

use super::turns::Turn;
use lu_base::{Memory, Node};
use lu_trace::{Entry, Line};
use std::alloc::Global;
use std::collections::HashSet;

/// The turns of targets with a `fail` line.
#[derive(Drop)]
pub struct Failing {
    turns: HashSet<(u64, u16)>,
}

impl Failing {
    /// Of no line. It takes no memory yet.
    pub fn new(alloc: Global) -> Failing
        ensures shows { ShowsFailing result [] }
    {
        Failing {
            turns: HashSet::new(alloc),
        }
    }

    /// Whether the disk fails in the turn.
    pub fn has(&self, turn: Turn) -> bool
        ensures failing { result ≡ is_failing self.now turn.stamp turn.target }
    {
        self.turns.contains(&(turn.stamp, turn.target))
    }

    /// Takes in the next line. After want of memory nothing is known of the table.
    pub fn step(&mut self, line: &Line) -> Result<(), Memory>
        ensures shows { OnOk result ((past : Past) → ShowsFailing self.old past
            → ShowsFailing self.new (line.now ∷ past)) }
    {
        match &line.entry {
            Entry::Fail => match line.at.node {
                Node::Target(target) => {
                    self.turns.insert((line.at.stamp.0, target))?;
                    Ok(())
                }
                Node::Client(_) => Ok(()),
            },
            _ => Ok(()),
        }
    }
}

/// The turns in which the disk fails in a whole trace.
pub fn failing_in(alloc: Global, lines: &[Line]) -> Result<Failing, Memory>
    ensures failing { IfOk result (λ failing. ShowsFailing failing (reverse lines.now)) }
{
    let mut failing = Failing::new(alloc);
    let mut place = 0;
    while place < lines.len() {
        failing.step(&lines[place])?;
        place += 1;
    }
    Ok(failing)
}
