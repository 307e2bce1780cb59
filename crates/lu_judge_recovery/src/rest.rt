//! What the later lines of a turn keep, evict and restore.

ghost use Rattle.std.specs.Prelude.{◌≡◌, true, List, [], ◌∷◌, IfOk, OnOk};
ghost use Rattle.std.specs.Option.{option_map};
ghost use Rattle.lu_base.specs.declared.ids.At.{At as AtOf};
ghost use Rattle.lu_trace.specs.declared.entries.Line.{Line};
ghost use Rattle.lu_spec_laws.specs.Words.Pasts.{same_turn};
ghost use Rattle.lu_judge_pass.specs.Places.{InOrder};
ghost use Rattle.lu_judge_recovery.specs.Rest.{will_keep_in, will_evict_in, will_restore_in, ShowsRest};

use lu_base::{At, Cause, Cookie, Lock, Memory, Who};
use lu_judge_pass::rest_of_turn;
use lu_trace::{Entry, Line};
use std::alloc::Global;
use std::collections::{HashMap, HashSet};

/// The numbers of the `kept` lines, of each life the cause of the next `evict` line, and of each life and cookie the lock of
/// the next `restore` line.
#[derive(Drop)]
pub struct Rest<'a> {
    kept: HashSet<u64>,
    evicted: HashMap<(u16, u32), Cause>,
    restored: HashMap<((u16, u32), u64), &'a Lock>,
}

impl<'a> Rest<'a> {
    /// Of no line.
    fn new(alloc: Global) -> Rest<'a>
        ensures shows { (at : AtOf) → ShowsRest result at [] }
    {
        Rest {
            kept: HashSet::new(alloc),
            evicted: HashMap::new(alloc),
            restored: HashMap::new(alloc),
        }
    }

    /// Whether a `kept` line has this number.
    pub fn keeps(&self, number: u64) -> bool
        ensures kept { result ≡ will_keep_in self.now number }
    {
        self.kept.contains(&number)
    }

    /// The cause in the life's next `evict` line; none where there is none.
    pub fn evicts(&self, who: Who) -> Option<Cause>
        ensures evicted { result ≡ will_evict_in self.now who }
    {
        self.evicted.get(&(who.client, who.life)).copied()
    }

    /// The lock in the next `restore` line of that life and cookie; none where there is none.
    pub fn restores(&self, who: Who, cookie: Cookie) -> Option<&'a Lock>
        ensures restored { option_map (λ lock. lock.now) result ≡ will_restore_in self.now who cookie.0 }
    {
        self.restored
            .get(&((who.client, who.life), cookie.0))
            .copied()
    }

    /// Puts a line before the others.
    fn add(&mut self, line: &'a Line) -> Result<(), Memory>
        ensures shows { OnOk result ((at : AtOf) (later : List Line) → same_turn line.now.at at ≡ true
            → ShowsRest self.old at later → ShowsRest self.new at (line.now ∷ later)) }
    {
        match &line.entry {
            Entry::Kept(number) => {
                self.kept.insert(number.0)?;
                Ok(())
            }
            Entry::Evict { who, cause } => {
                self.evicted.insert((who.client, who.life), *cause)?;
                Ok(())
            }
            Entry::Restore(lock) => {
                let who = lock.ask.who;
                self.restored
                    .insert(((who.client, who.life), lock.cookie.0), lock)?;
                Ok(())
            }
            _ => Ok(()),
        }
    }
}

/// What the rest of this turn keeps, evicts and restores.
pub fn rest_in<'a>(alloc: Global, at: At, later: &'a [Line]) -> Result<Rest<'a>, Memory>
    ensures shows { IfOk result (λ rest. InOrder at later.now → ShowsRest rest at later.now) }
{
    let lines = rest_of_turn(at, later);
    let mut rest = Rest::new(alloc);
    let mut place = lines.len();
    while place > 0 {
        place -= 1;
        rest.add(&lines[place])?;
    }
    Ok(rest)
}
