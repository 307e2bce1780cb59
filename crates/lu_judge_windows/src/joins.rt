//! The lives that joined at targets.

ghost use Rattle.std.specs.Prelude.{◌≡◌, ℕ, ◌==◌, if◌then◌else◌, [], ◌∷◌, ◌++◌, OnOk};
ghost use Rattle.lu_trace.specs.declared.entries.Line.{Line};
ghost use Rattle.lu_spec_laws.specs.Words.Pasts.{Past};
ghost use Rattle.lu_judge_windows.specs.Joins.{has_joined_in, lives_in, ShowsJoins};

use lu_base::{Lives, Memory, Node, Who};
use lu_trace::{Entry, Line};
use std::alloc::Global;
use std::collections::{HashMap, HashSet};

/// The lives that have a `joined` line of a target.
#[derive(Debug, Drop)]
pub(crate) struct Joins {
    alloc: Global,
    by_life: HashSet<(u16, (u16, u32))>,
    /// Of each target in the order of their lines.
    in_order: HashMap<u16, Lives>,
}

impl Joins {
    /// Of no line. It takes no memory yet.
    pub(crate) fn new(alloc: Global) -> Joins
        ensures shows { ShowsJoins result [] }
    {
        Joins {
            alloc,
            by_life: HashSet::new(alloc),
            in_order: HashMap::new(alloc),
        }
    }

    /// Whether the life joined at the target.
    pub(crate) fn has(&self, target: u16, who: Who) -> bool
        ensures joined { result ≡ has_joined_in self.now target who }
    {
        self.by_life.contains(&(target, (who.client, who.life)))
    }

    /// The lives that joined at the target, the first one first, once for each line.
    pub(crate) fn lives(&self, target: u16) -> &[Who]
        ensures lives { result.now ≡ lives_in self.now target }
    {
        match self.in_order.get(&target) {
            Some(lives) => lives.as_slice(),
            None => &[],
        }
    }

    /// Puts a life at the end of those of the target.
    fn push(&mut self, target: u16, who: Who) -> Result<(), Memory>
        ensures pushed { OnOk result ((t : ℕ) → lives_in self.new t
            ≡ (if target == t then lives_in self.old target ++ who ∷ [] else lives_in self.old t)) }
        ensures same { OnOk result (self.new.by_life ≡ self.old.by_life) }
    {
        match self.in_order.get_mut(&target) {
            Some(lives) => {
                lives.push(who)?;
                Ok(())
            }
            None => {
                let mut lives = Lives::new(self.alloc);
                lives.push(who)?;
                self.in_order.insert(target, lives)?;
                Ok(())
            }
        }
    }

    /// Takes in the next line. After want of memory nothing is known of the table.
    pub(crate) fn step(&mut self, line: &Line) -> Result<(), Memory>
        ensures shows { OnOk result ((past : Past) → ShowsJoins self.old past
            → ShowsJoins self.new (line.now ∷ past)) }
    {
        match &line.entry {
            Entry::Joined(who) => match line.at.node {
                Node::Target(target) => {
                    self.push(target, *who)?;
                    self.by_life.insert((target, (who.client, who.life)))?;
                    Ok(())
                }
                Node::Client(_) => Ok(()),
            },
            _ => Ok(()),
        }
    }
}
