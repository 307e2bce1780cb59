//! What the closes of turns decided, and how far the lines after them have come.

ghost use Rattle.std.specs.Prelude.{◌≡◌, ℕ, false, IsTrue, [], ◌∷◌, IfOk, OnOk};
ghost use Rattle.std.specs.Option.{option_copied};
ghost use Rattle.lu_base.specs.declared.ids.Who.{Who as WhoOf};
ghost use Rattle.lu_trace.specs.declared.entries.Entry.TheVariants as entries;
ghost use Rattle.lu_trace.specs.declared.entries.Line.{Line};
ghost use Rattle.lu_spec_laws.specs.Words.Pasts.{Past};
ghost use Rattle.lu_judge_pass.specs.Ledgers.{ShowsLedger};
ghost use Rattle.lu_judge_windows.specs.Windows.{ShowsWindows};
ghost use Rattle.lu_judge_recovery.specs.Clients.{count_of};
ghost use Rattle.lu_judge_recovery.specs.declared.failing.Failing.{Failing as FailingOf};
ghost use Rattle.lu_judge_recovery.specs.Turns.{line_at};
ghost use Rattle.lu_judge_recovery.specs.Closings.{Decides, Noted, follows, keeps_in, cause_in, lock_in, has_restored_in, closing_of, ShowsClosings};

use super::closing::{Causes, Close, Restored, set_of};
use super::failing::Failing;
use super::slots::slots;
use super::turns::Turn;
use lu_base::{Cause, Cookie, Lock, Memory, Node, Who};
use lu_judge_pass::Ledger;
use lu_judge_windows::Windows;
use lu_trace::{Entry, Line};
use std::alloc::Global;
use std::collections::{HashMap, HashSet};

/// What a close decided, and the last of the lines after it.
#[derive(Drop)]
pub struct Closing {
    kept: HashSet<u64>,
    causes: Causes,
    locks: Restored,
    /// The number of the last `kept` line since; 0 before the first.
    last_kept: u64,
    /// The life of the last `evict` line since.
    last_evicted: Option<Who>,
    /// The lives and cookies of the `restore` lines since.
    restored: HashSet<((u16, u32), u64)>,
}

impl Closing {
    /// A close of the target, next, where this is the trace's greatest client.
    fn new(
        alloc: Global,
        windows: &Windows<'_>,
        ledger: &Ledger<'_>,
        target: u16,
        greatest: Option<u16>,
    ) -> Result<Closing, Memory>
        ensures decides { IfOk result (λ closing. (past : Past) → ShowsLedger ledger.now past
            → ShowsWindows windows.now past → Decides closing (count_of greatest) target past) }
        ensures fresh { IfOk result (λ closing. (closing.last_kept ≡ 0) × (closing.last_evicted ≡ None)
            × ((who : WhoOf) (cookie : ℕ) → has_restored_in closing who cookie ≡ false)) }
    {
        let lives = slots(alloc, windows, ledger, target, greatest)?;
        let close = Close::new(windows, ledger, target)?;
        let numbers = windows.kept_at(ledger, target)?;
        let kept = set_of(alloc, numbers.as_slice())?;
        let causes = Causes::of(alloc, &close, lives.as_slice())?;
        let locks = Restored::of(alloc, &close, &causes)?;
        Ok(Closing {
            kept,
            causes,
            locks,
            last_kept: 0,
            last_evicted: None,
            restored: HashSet::new(alloc),
        })
    }

    /// Whether the close keeps the number.
    pub fn keeps(&self, number: u64) -> bool
        ensures keeps { result ≡ keeps_in self.now number }
    {
        self.kept.contains(&number)
    }

    /// Why the close evicts the life; none where it stays.
    pub fn cause(&self, who: Who) -> Option<Cause>
        ensures cause { result ≡ cause_in self.now who }
    {
        self.causes.among(who)
    }

    /// The lock of the life with the cookie that the close restores; none where there is none.
    pub fn lock(&self, who: Who, cookie: Cookie) -> Option<Lock>
        ensures lock { result ≡ lock_in self.now who cookie.0 }
    {
        self.locks.get(who, cookie)
    }

    /// The number of the last `kept` line since; 0 before the first.
    pub fn last_kept(&self) -> u64
        ensures kept { result ≡ self.now.last_kept }
    {
        self.last_kept
    }

    /// The life of the last `evict` line since.
    pub fn last_evicted(&self) -> Option<Who>
        ensures evicted { result ≡ self.now.last_evicted }
    {
        self.last_evicted
    }

    /// Whether a `restore` line since has that life and cookie.
    pub fn has_restored(&self, who: Who, cookie: Cookie) -> bool
        ensures restored { result ≡ has_restored_in self.now who cookie.0 }
    {
        self.restored.contains(&((who.client, who.life), cookie.0))
    }

    /// Takes in a later entry of its turn.
    fn note(&mut self, entry: &Entry) -> Result<(), Memory>
        ensures noted { OnOk result (Noted self.old self.new entry.now) }
    {
        match entry {
            Entry::Kept(number) => {
                self.last_kept = number.0;
                Ok(())
            }
            Entry::Evict { who, .. } => {
                self.last_evicted = Some(*who);
                Ok(())
            }
            Entry::Restore(lock) => {
                let who = lock.ask.who;
                self.restored
                    .insert(((who.client, who.life), lock.cookie.0))?;
                Ok(())
            }
            _ => Ok(()),
        }
    }
}

/// Of each turn in which the disk doesn't fail the last close.
#[derive(Drop)]
pub struct Closings {
    alloc: Global,
    by_turn: HashMap<(u64, u16), Closing>,
}

impl Closings {
    /// Of no line. It takes no memory yet.
    pub fn new(alloc: Global) -> Closings
        ensures shows { (failing : FailingOf) (clients : ℕ) → ShowsClosings result failing clients [] }
    {
        Closings {
            alloc,
            by_turn: HashMap::new(alloc),
        }
    }

    /// The last close of the turn; none where it had none, or where the disk fails in it.
    pub fn get(&self, turn: Turn) -> Option<&Closing>
        ensures closing { option_copied result ≡ closing_of self.now turn.stamp turn.target }
    {
        self.by_turn.get(&(turn.stamp, turn.target))
    }

    /// Takes in a close, next.
    fn close(
        &mut self,
        windows: &Windows<'_>,
        ledger: &Ledger<'_>,
        greatest: Option<u16>,
        turn: Turn,
    ) -> Result<(), Memory>
        ensures shows { OnOk result ((failing : FailingOf) (past : Past) → ShowsLedger ledger.now past
            → ShowsWindows windows.now past → ShowsClosings self.old failing (count_of greatest) past
            → ShowsClosings self.new failing (count_of greatest)
            (line_at turn.stamp turn.target entries.Close ∷ past)) }
    {
        let closing = Closing::new(self.alloc, windows, ledger, turn.target, greatest)?;
        self.by_turn.insert((turn.stamp, turn.target), closing)?;
        Ok(())
    }

    /// Takes in an entry that follows the close of its turn, if there is one.
    fn note(&mut self, turn: Turn, entry: &Entry) -> Result<(), Memory>
        ensures shows { OnOk result ((failing : FailingOf) (clients : ℕ) (past : Past) → IsTrue (follows entry.now)
            → ShowsClosings self.old failing clients past
            → ShowsClosings self.new failing clients (line_at turn.stamp turn.target entry.now ∷ past)) }
    {
        let key = (turn.stamp, turn.target);
        match self.by_turn.remove(&key) {
            Some(closing) => {
                let mut closing = closing;
                closing.note(entry)?;
                self.by_turn.insert(key, closing)?;
                Ok(())
            }
            None => Ok(()),
        }
    }

    /// Takes in an entry of this turn.
    fn add(
        &mut self,
        windows: &Windows<'_>,
        ledger: &Ledger<'_>,
        failing: &Failing,
        greatest: Option<u16>,
        turn: Turn,
        entry: &Entry,
    ) -> Result<(), Memory>
        ensures shows { OnOk result ((past : Past) → ShowsLedger ledger.now past
            → ShowsWindows windows.now past → ShowsClosings self.old failing.now (count_of greatest) past
            → ShowsClosings self.new failing.now (count_of greatest)
            (line_at turn.stamp turn.target entry.now ∷ past)) }
    {
        match entry {
            Entry::Close => {
                if failing.has(turn) {
                    return Ok(());
                }
                self.close(windows, ledger, greatest, turn)
            }
            Entry::Kept(_) => self.note(turn, entry),
            Entry::Evict { .. } => self.note(turn, entry),
            Entry::Restore(_) => self.note(turn, entry),
            _ => Ok(()),
        }
    }

    /// Takes in the next line. The windows and the ledger show the lines before it. After want of memory nothing is known
    /// of the table.
    pub fn step(
        &mut self,
        windows: &Windows<'_>,
        ledger: &Ledger<'_>,
        failing: &Failing,
        greatest: Option<u16>,
        line: &Line,
    ) -> Result<(), Memory>
        ensures shows { OnOk result ((past : Past) → ShowsLedger ledger.now past
            → ShowsWindows windows.now past → ShowsClosings self.old failing.now (count_of greatest) past
            → ShowsClosings self.new failing.now (count_of greatest) (line.now ∷ past)) }
    {
        match line.at.node {
            Node::Client(_) => Ok(()),
            Node::Target(target) => {
                let turn = Turn {
                    stamp: line.at.stamp.0,
                    target,
                };
                self.add(windows, ledger, failing, greatest, turn, &line.entry)
            }
        }
    }
}
