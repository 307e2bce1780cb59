//! What lives were told of requests that were executed in another turn.

ghost use Rattle.std.specs.Prelude.{◌≡◌, ℕ, [], ◌∷◌, OnOk};
ghost use Rattle.lu_msg.specs.declared.answers.Answer.{Answer};
ghost use Rattle.lu_trace.specs.declared.entries.Line.{Line};
ghost use Rattle.lu_spec_laws.specs.Words.Pasts.{Past};
ghost use Rattle.lu_spec_laws.specs.Laws.Messages.{Follows};
ghost use Rattle.lu_judge_pass.specs.Places.{Ordered};
ghost use Rattle.lu_judge_pass.specs.Ledgers.{ShowsLedger};
ghost use Rattle.lu_judge_acts.specs.Tables.{told_in, ShowsTold};

use lu_base::{At, Memory, Node, Who, Xid};
use lu_judge_pass::{Ledger, same_turn};
use lu_trace::{Entry, Line};
use std::alloc::Global;
use std::collections::HashSet;

/// The requests whose answers lives were told so far, where the turn that was named is another one.
#[derive(Debug, Drop)]
pub struct Elsewhere {
    /// By life and request number.
    told: HashSet<((u16, u32), u64)>,
}

impl Elsewhere {
    /// Of no line. It takes no memory yet.
    pub fn new(alloc: Global) -> Elsewhere
        ensures shows { ShowsTold result [] }
    {
        Elsewhere {
            told: HashSet::new(alloc),
        }
    }

    /// Whether the life was told, in a turn that heard this request at the metadata target, and another turn was named.
    pub fn has(&self, who: Who, xid: Xid) -> bool
        ensures told { result ≡ told_in self.now who xid.0 }
    {
        self.told.contains(&((who.client, who.life), xid.0))
    }

    /// The client's life is told of this named turn.
    fn tell(&mut self, ledger: &Ledger<'_>, client: u16, at: At, turn: At) -> Result<(), Memory>
        requires own { at.node ≡ Node.Client client }
        ensures shows { OnOk result ((past : Past) → Ordered past → Follows past at → ShowsLedger ledger.now past
            → ShowsTold self.old past → (slot : ℕ) (answer : Answer)
            → ShowsTold self.new (record { at = at; entry = Entry.Told slot turn answer } ∷ past)) }
    {
        if same_turn(turn, at) {
            return Ok(());
        }
        match ledger.present.heard(at) {
            Some(xid) => {
                let who = ledger.lives.who(client);
                self.told.insert(((who.client, who.life), xid.0))?;
                Ok(())
            }
            None => Ok(()),
        }
    }

    /// Takes in the next line. The ledger shows the lines before it. After want of memory nothing is known of the table.
    pub fn step(&mut self, ledger: &Ledger<'_>, line: &Line) -> Result<(), Memory>
        ensures shows { OnOk result ((past : Past) → Ordered past → Follows past line.now.at
            → ShowsLedger ledger.now past → ShowsTold self.old past → ShowsTold self.new (line.now ∷ past)) }
    {
        match &line.entry {
            Entry::Told { at: turn, .. } => match line.at.node {
                Node::Client(client) => self.tell(ledger, client, line.at, *turn),
                Node::Target(_) => Ok(()),
            },
            _ => Ok(()),
        }
    }
}
