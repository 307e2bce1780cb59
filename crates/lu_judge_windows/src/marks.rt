//! What the last lines of each target say of it.

ghost use Rattle.std.specs.Prelude.{◌≡◌, false, [], ◌∷◌, OnOk};
ghost use Rattle.lu_trace.specs.declared.entries.Line.{Line};
ghost use Rattle.lu_spec_laws.specs.Words.Pasts.{Past};
ghost use Rattle.lu_judge_windows.specs.Marks.{mark_in, after_entry, ShowsMarks};

use lu_base::{Memory, Node};
use lu_trace::{Entry, Line};
use std::alloc::Global;
use std::collections::HashMap;

/// What a target's last lines say of it.
#[derive(Clone, Copy, Debug)]
pub(crate) struct Mark {
    /// Its present boot: 1 before its first `boot` line.
    pub(crate) boot: u32,
    /// The number of its last `commit` line, or 0.
    pub(crate) committed: u64,
    /// The greatest number of its transactions, or 0.
    pub(crate) greatest: u64,
    /// Whether its recovery window is open.
    pub(crate) recovering: bool,
}

impl Mark {
    /// Of a target without lines.
    fn first() -> Mark
        ensures first { result ≡ record { boot = 1; committed = 0; greatest = 0; recovering = false } }
    {
        Mark {
            boot: 1,
            committed: 0,
            greatest: 0,
            recovering: false,
        }
    }

    /// After one more line of the target.
    fn after(self, entry: &Entry) -> Mark
        ensures after { result ≡ after_entry self entry.now }
    {
        match entry {
            Entry::Boot(boot) => Mark {
                boot: *boot,
                recovering: true,
                ..self
            },
            Entry::Commit(number) => Mark {
                committed: number.0,
                ..self
            },
            Entry::Txn { txn, .. } => Mark {
                greatest: self.greatest.max(txn.0),
                ..self
            },
            Entry::Crash => Mark {
                recovering: false,
                ..self
            },
            Entry::Close => Mark {
                recovering: false,
                ..self
            },
            _ => self,
        }
    }
}

/// The boot, the committed number, the greatest number and the recovery window of each target.
#[derive(Debug, Drop)]
pub(crate) struct Marks {
    by_target: HashMap<u16, Mark>,
}

impl Marks {
    /// Of no line. It takes no memory yet.
    pub(crate) fn new(alloc: Global) -> Marks
        ensures shows { ShowsMarks result [] }
    {
        Marks {
            by_target: HashMap::new(alloc),
        }
    }

    /// What the target's last lines say.
    pub(crate) fn get(&self, target: u16) -> Mark
        ensures mark { result ≡ mark_in self.now target }
    {
        match self.by_target.get(&target) {
            Some(mark) => *mark,
            None => Mark::first(),
        }
    }

    /// Takes in the next line. After want of memory nothing is known of the table.
    pub(crate) fn step(&mut self, line: &Line) -> Result<(), Memory>
        ensures shows { OnOk result ((past : Past) → ShowsMarks self.old past
            → ShowsMarks self.new (line.now ∷ past)) }
    {
        match line.at.node {
            Node::Target(target) => {
                let mark = self.get(target).after(&line.entry);
                self.by_target.insert(target, mark)?;
                Ok(())
            }
            Node::Client(_) => Ok(()),
        }
    }
}
