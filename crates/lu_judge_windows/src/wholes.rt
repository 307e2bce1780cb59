//! What closes lost in a whole trace.

ghost use Rattle.std.specs.Prelude.{◌≡◌, reverse, IfOk};
ghost use Rattle.lu_spec_laws.specs.Words.Pasts.{Past};
ghost use Rattle.lu_spec_laws.specs.Words.Lost.{is_lost};
ghost use Rattle.lu_spec_laws.specs.Laws.Messages.{Messages};
ghost use Rattle.lu_spec_laws.specs.Holds.{Holds};
ghost use Rattle.lu_judge_windows.specs.Lost.{ShowsLost};

use super::losses::Losses;
use super::windows::Windows;
use lu_base::Memory;
use lu_judge_pass::Ledger;
use lu_trace::Line;
use std::alloc::Global;

/// The transactions that finished closes of their targets lost.
#[derive(Debug, Drop)]
pub struct Lost {
    losses: Losses,
}

impl Lost {
    /// Whether a finished close of the target lost this transaction.
    pub fn has(&self, target: u16, number: u64) -> bool
        ensures lost { (whole : Past) → ShowsLost self.now whole → result ≡ is_lost whole target number }
    {
        self.losses.has(target, number)
    }
}

/// What is lost in a whole trace.
pub fn lost_in(alloc: Global, lines: &[Line]) -> Result<Lost, Memory>
    requires messages { Holds Messages (reverse lines.now) }
    ensures lost { IfOk result (λ lost. ShowsLost lost (reverse lines.now)) }
{
    let mut ledger = Ledger::new(alloc);
    let mut windows = Windows::new(alloc);
    let mut place = 0;
    while place < lines.len() {
        let line = &lines[place];
        windows.step(&ledger, line)?;
        ledger.step(line)?;
        place += 1;
    }
    Ok(Lost {
        losses: windows.losses,
    })
}
