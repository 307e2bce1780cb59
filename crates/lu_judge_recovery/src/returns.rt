//! The lives that came back in turns of targets.

ghost use Rattle.std.specs.Prelude.{◌≡◌, [], ◌∷◌, OnOk};
ghost use Rattle.lu_base.specs.declared.ids.Node.TheVariants.{Target};
ghost use Rattle.lu_trace.specs.declared.entries.Line.{Line};
ghost use Rattle.lu_spec_laws.specs.Words.Pasts.{Past};
ghost use Rattle.lu_spec_laws.specs.Words.Handed.{comes_back};
ghost use Rattle.lu_judge_pass.specs.Ledgers.{ShowsLedger};
ghost use Rattle.lu_judge_windows.specs.Windows.{ShowsWindows};
ghost use Rattle.lu_judge_recovery.specs.Returns.{has_returned, ShowsReturns};

use super::handing::named;
use super::turns::Turn;
use lu_base::{Memory, Node, Who};
use lu_judge_pass::Ledger;
use lu_judge_windows::Windows;
use lu_trace::Line;
use std::alloc::Global;
use std::collections::HashSet;

/// Whether the life comes back with this line of the target, next.
pub fn comes_back(
    windows: &Windows<'_>,
    ledger: &Ledger<'_>,
    target: u16,
    line: &Line,
    who: Who,
) -> bool
    ensures { (past : Past) → ShowsLedger ledger.now past → ShowsWindows windows.now past
        → result ≡ comes_back target who past line.now }
{
    if !windows.is_recovering(target) {
        return false;
    }
    if windows.is_back(ledger, target, who) {
        return false;
    }
    windows.is_back_after(ledger, target, line, who)
}

/// The lives that came back, by turn.
#[derive(Drop)]
pub struct Returns {
    lives: HashSet<((u64, u16), (u16, u32))>,
}

impl Returns {
    /// Of no line. It takes no memory yet.
    pub fn new(alloc: Global) -> Returns
        ensures shows { ShowsReturns result [] }
    {
        Returns {
            lives: HashSet::new(alloc),
        }
    }

    /// Whether a line of the turn brought the life back.
    pub fn has(&self, turn: Turn, who: Who) -> bool
        ensures returned { result ≡ has_returned self.now turn.stamp turn.target who }
    {
        self.lives
            .contains(&((turn.stamp, turn.target), (who.client, who.life)))
    }

    /// Takes in the next line, of this target.
    fn note(
        &mut self,
        windows: &Windows<'_>,
        ledger: &Ledger<'_>,
        target: u16,
        line: &Line,
    ) -> Result<(), Memory>
        requires here { line.now.at.node ≡ Target target }
        ensures shows { OnOk result ((past : Past) → ShowsLedger ledger.now past → ShowsWindows windows.now past
            → ShowsReturns self.old past → ShowsReturns self.new (line.now ∷ past)) }
    {
        match named(ledger, &line.entry) {
            Some(who) => {
                if !comes_back(windows, ledger, target, line, who) {
                    return Ok(());
                }
                let turn = (line.at.stamp.0, target);
                self.lives.insert((turn, (who.client, who.life)))?;
                Ok(())
            }
            None => Ok(()),
        }
    }

    /// Takes in the next line. The windows and the ledger show the lines before it. After want of memory nothing is known
    /// of the table.
    pub fn step(
        &mut self,
        windows: &Windows<'_>,
        ledger: &Ledger<'_>,
        line: &Line,
    ) -> Result<(), Memory>
        ensures shows { OnOk result ((past : Past) → ShowsLedger ledger.now past → ShowsWindows windows.now past
            → ShowsReturns self.old past → ShowsReturns self.new (line.now ∷ past)) }
    {
        match line.at.node {
            Node::Client(_) => Ok(()),
            Node::Target(target) => self.note(windows, ledger, target, line),
        }
    }
}
