//! The lives that targets evicted.

ghost use Rattle.std.specs.Prelude.{◌≡◌, [], ◌∷◌, reverse, IfOk, OnOk};
ghost use Rattle.lu_trace.specs.declared.entries.Line.{Line};
ghost use Rattle.lu_spec_laws.specs.Words.Pasts.{Past};
ghost use Rattle.lu_judge_pass.specs.Ledgers.{is_evicted_in, ShowsEvictions, is_gone_in, ShowsGone};

use lu_base::{Memory, Node, Who};
use lu_trace::{Entry, Line};
use std::alloc::Global;
use std::collections::HashSet;

/// The lives that each target evicted so far.
#[derive(Debug, Drop)]
pub struct Evictions {
    by_target: HashSet<(u16, (u16, u32))>,
}

impl Evictions {
    /// Of no line. It takes no memory yet.
    pub fn new(alloc: Global) -> Evictions
        ensures shows { ShowsEvictions result [] }
    {
        Evictions {
            by_target: HashSet::new(alloc),
        }
    }

    /// Whether the target evicted the life.
    pub fn has(&self, target: u16, who: Who) -> bool
        ensures evicted { result ≡ is_evicted_in self.now target who }
    {
        self.by_target.contains(&(target, (who.client, who.life)))
    }

    /// Takes in the next line. After want of memory nothing is known of the table.
    pub fn step(&mut self, line: &Line) -> Result<(), Memory>
        ensures shows { OnOk result ((past : Past) → ShowsEvictions self.old past
            → ShowsEvictions self.new (line.now ∷ past)) }
    {
        match &line.entry {
            Entry::Evict { who, .. } => match line.at.node {
                Node::Target(target) => {
                    self.by_target.insert((target, (who.client, who.life)))?;
                    Ok(())
                }
                Node::Client(_) => Ok(()),
            },
            _ => Ok(()),
        }
    }
}

/// The lives that are gone: those that some target evicted so far.
#[derive(Debug, Drop)]
pub struct Gone {
    lives: HashSet<(u16, u32)>,
}

impl Gone {
    /// Of no line. It takes no memory yet.
    pub fn new(alloc: Global) -> Gone
        ensures shows { ShowsGone result [] }
    {
        Gone {
            lives: HashSet::new(alloc),
        }
    }

    /// Whether the life is gone.
    pub fn has(&self, who: Who) -> bool
        ensures gone { result ≡ is_gone_in self.now who }
    {
        self.lives.contains(&(who.client, who.life))
    }

    /// Takes in the next line. After want of memory nothing is known of the table.
    pub fn step(&mut self, line: &Line) -> Result<(), Memory>
        ensures shows { OnOk result ((past : Past) → ShowsGone self.old past
            → ShowsGone self.new (line.now ∷ past)) }
    {
        match &line.entry {
            Entry::Evict { who, .. } => match line.at.node {
                Node::Target(_) => {
                    self.lives.insert((who.client, who.life))?;
                    Ok(())
                }
                Node::Client(_) => Ok(()),
            },
            _ => Ok(()),
        }
    }
}

/// The lives that are gone in a whole trace.
pub fn gone_in(alloc: Global, lines: &[Line]) -> Result<Gone, Memory>
    ensures gone { IfOk result (λ gone. ShowsGone gone (reverse lines.now)) }
{
    let mut gone = Gone::new(alloc);
    let mut place = 0;
    while place < lines.len() {
        gone.step(&lines[place])?;
        place += 1;
    }
    Ok(gone)
}
