//! The committed numbers of targets at their last closes.

ghost use Rattle.std.specs.Prelude.{◌≡◌, [], ◌∷◌, OnOk};
ghost use Rattle.lu_trace.specs.declared.entries.Line.{Line};
ghost use Rattle.lu_spec_laws.specs.Words.Pasts.{Past};
ghost use Rattle.lu_judge_windows.specs.Windows.{ShowsWindows};
ghost use Rattle.lu_judge_recovery.specs.Noted.{settled_at, ShowsSettled};

use lu_base::{Memory, Node};
use lu_judge_windows::Windows;
use lu_trace::{Entry, Line};
use std::alloc::Global;
use std::collections::HashMap;

/// Of each target the committed number at its last close.
#[derive(Drop)]
pub struct Settled {
    by_target: HashMap<u16, u64>,
}

impl Settled {
    /// Of no line. It takes no memory yet.
    pub fn new(alloc: Global) -> Settled
        ensures shows { ShowsSettled result [] }
    {
        Settled {
            by_target: HashMap::new(alloc),
        }
    }

    /// The committed number at the target's last close; 0 before the first.
    pub fn at(&self, target: u16) -> u64
        ensures settled { result ≡ settled_at self.now target }
    {
        self.by_target.get(&target).copied().unwrap_or(0)
    }

    /// Takes in the next line. The windows show the lines before it. After want of memory nothing is known of the table.
    pub fn step(&mut self, windows: &Windows<'_>, line: &Line) -> Result<(), Memory>
        ensures shows { OnOk result ((past : Past) → ShowsWindows windows.now past
            → ShowsSettled self.old past → ShowsSettled self.new (line.now ∷ past)) }
    {
        match &line.entry {
            Entry::Close => match line.at.node {
                Node::Target(target) => {
                    self.by_target.insert(target, windows.committed(target))?;
                    Ok(())
                }
                Node::Client(_) => Ok(()),
            },
            _ => Ok(()),
        }
    }
}
