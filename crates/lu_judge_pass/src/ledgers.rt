//! What most laws look into, together.

ghost use Rattle.std.specs.Prelude.{[], ◌∷◌, OnOk};
ghost use Rattle.lu_trace.specs.declared.entries.Line.{Line};
ghost use Rattle.lu_spec_laws.specs.Words.Pasts.{Past};
ghost use Rattle.lu_spec_laws.specs.Laws.Messages.{Follows};
ghost use Rattle.lu_judge_pass.specs.Places.{Ordered};
ghost use Rattle.lu_judge_pass.specs.Ledgers.{ShowsLedger};

use super::evictions::Evictions;
use super::lives::Lives;
use super::present::Present;
use super::requests::Requests;
use super::sendings::Sendings;
use lu_base::Memory;
use lu_trace::Line;
use std::alloc::Global;

/// The lives, evictions, messages and requests so far, and what the turn of the newest line took and heard.
#[derive(Debug, Drop)]
pub struct Ledger<'a> {
    pub lives: Lives,
    pub evictions: Evictions,
    pub sendings: Sendings<'a>,
    pub requests: Requests<'a>,
    pub present: Present<'a>,
}

impl<'a> Ledger<'a> {
    /// Of no line. It takes no memory yet.
    pub fn new(alloc: Global) -> Ledger<'a>
        ensures shows { ShowsLedger result [] }
    {
        Ledger {
            lives: Lives::new(alloc),
            evictions: Evictions::new(alloc),
            sendings: Sendings::new(alloc),
            requests: Requests::new(alloc),
            present: Present::new(alloc),
        }
    }

    /// Takes in the next line. After want of memory nothing is known of the tables.
    pub fn step(&mut self, line: &'a Line) -> Result<(), Memory>
        ensures shows { OnOk result ((past : Past) → Ordered past → Follows past line.now.at
            → ShowsLedger self.old past → ShowsLedger self.new (line.now ∷ past)) }
    {
        self.present.step(&self.sendings, line)?;
        self.lives.step(line)?;
        self.evictions.step(line)?;
        self.sendings.step(line)?;
        self.requests.step(line)
    }
}
