//! How many transactions of a request stand at the end of a trace.

ghost use Rattle.std.specs.Prelude.{◌≡◌, ℕ, suc, if◌then◌else◌, [], ◌∷◌, reverse, IfOk, OnOk};
ghost use Rattle.lu_base.specs.declared.ids.Who.{Who as SpecWho};
ghost use Rattle.lu_trace.specs.declared.entries.Line.{Line};
ghost use Rattle.lu_spec_laws.specs.Words.Pasts.{Past};
ghost use Rattle.lu_spec_laws.specs.Words.Lost.{is_lost};
ghost use Rattle.lu_spec_laws.specs.Laws.Acts.{standing_count};
ghost use Rattle.lu_judge_windows.specs.Lost.{ShowsLost};
ghost use Rattle.lu_judge_acts.specs.Tables.{one_in, more_in, is_key, Counts, ShowsStanding};

use lu_base::{Memory, Node, Who, Xid};
use lu_judge_windows::Lost;
use lu_trace::{Entry, Line};
use std::alloc::Global;
use std::collections::HashSet;

/// A target, a life and a request number.
type Key = ((u16, (u16, u32)), u64);

/// The requests of which transactions stand.
#[derive(Debug, Drop)]
pub struct Standing {
    /// Those with one or more.
    one: HashSet<Key>,
    /// Those with two or more.
    more: HashSet<Key>,
}

impl Standing {
    /// Of no line. It takes no memory yet.
    fn new(alloc: Global) -> Standing
        ensures shows { (whole : Past) → ShowsStanding result whole [] }
    {
        Standing {
            one: HashSet::new(alloc),
            more: HashSet::new(alloc),
        }
    }

    /// Whether one or more transactions of that life's request at the target stand.
    pub fn has_one(&self, target: u16, who: Who, xid: Xid) -> bool
        ensures one { result ≡ one_in self.now target who xid.0 }
    {
        self.one
            .contains(&((target, (who.client, who.life)), xid.0))
    }

    /// Whether two or more do.
    pub fn has_more(&self, target: u16, who: Who, xid: Xid) -> bool
        ensures more { result ≡ more_in self.now target who xid.0 }
    {
        self.more
            .contains(&((target, (who.client, who.life)), xid.0))
    }

    /// One more transaction of that life's request at the target stands.
    fn add(&mut self, target: u16, who: Who, xid: Xid) -> Result<(), Memory>
        ensures added { OnOk result ((whole past : Past) → ShowsStanding self.old whole past
            → (t : ℕ) (w : SpecWho) (x : ℕ) → Counts self.new t w x
            (if is_key target who xid.0 t w x then suc (standing_count (is_lost whole) t w x past)
            else standing_count (is_lost whole) t w x past)) }
    {
        let key = ((target, (who.client, who.life)), xid.0);
        if self.one.contains(&key) {
            self.more.insert(key)?;
            return Ok(());
        }
        self.one.insert(key)?;
        Ok(())
    }

    /// Takes in the next line. After want of memory nothing is known of the table.
    fn step(&mut self, lost: &Lost, line: &Line) -> Result<(), Memory>
        ensures shows { OnOk result ((whole past : Past) → ShowsLost lost.now whole
            → ShowsStanding self.old whole past → ShowsStanding self.new whole (line.now ∷ past)) }
    {
        match &line.entry {
            Entry::Txn { txn, who, xid, .. } => match line.at.node {
                Node::Client(_) => Ok(()),
                Node::Target(target) => {
                    if lost.has(target, txn.0) {
                        Ok(())
                    } else {
                        self.add(target, *who, *xid)
                    }
                }
            },
            _ => Ok(()),
        }
    }
}

/// The requests of a whole trace of which transactions stand at its end, where these are lost.
pub fn standing_in(alloc: Global, lost: &Lost, lines: &[Line]) -> Result<Standing, Memory>
    ensures shows { IfOk result (λ standing. (whole : Past) → ShowsLost lost.now whole
        → ShowsStanding standing whole (reverse lines.now)) }
{
    let mut standing = Standing::new(alloc);
    let mut place = 0;
    while place < lines.len() {
        standing.step(lost, &lines[place])?;
        place += 1;
    }
    Ok(standing)
}
