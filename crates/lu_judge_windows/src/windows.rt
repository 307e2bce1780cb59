//! Boots, commits and recovery windows of the targets, and what closes lose.

ghost use Rattle.std.specs.Prelude.{◌≡◌, ℕ, ◌&&◌, ◌||◌, not, true, if◌then◌else◌, List, [], ◌∷◌, ◌++◌, reverse, map, IfOk, OnOk};
ghost use Rattle.std.specs.List.{list_any};
ghost use Rattle.lu_base.specs.declared.ids.At.{At};
ghost use Rattle.lu_base.specs.declared.ids.Node.TheVariants.{Target};
ghost use Rattle.lu_trace.specs.declared.entries.Entry.TheVariants.{Close};
ghost use Rattle.lu_trace.specs.declared.entries.Line.{Line};
ghost use Rattle.lu_spec_laws.specs.Words.Pasts.{Past, is_target};
ghost use Rattle.lu_spec_laws.specs.Words.Boots as boots;
ghost use Rattle.lu_spec_laws.specs.Words.Slots as slots;
ghost use Rattle.lu_spec_laws.specs.Words.Handed as handed;
ghost use Rattle.lu_spec_laws.specs.Words.Learned as learned;
ghost use Rattle.lu_spec_laws.specs.Words.Lost as lost;
ghost use Rattle.lu_spec_laws.specs.Words.Closes as closes;
ghost use Rattle.lu_spec_laws.specs.Laws.Messages.{Follows};
ghost use Rattle.lu_spec_laws.specs.Laws.Recovery as recovery;
ghost use Rattle.lu_judge_pass.specs.Places.{Ordered};
ghost use Rattle.lu_judge_pass.specs.Ledgers.{ShowsLedger};
ghost use Rattle.lu_judge_windows.specs.Fates.{IsFate, is_undecided};
ghost use Rattle.lu_judge_windows.specs.Losses.{ShowsLosses};
ghost use Rattle.lu_judge_windows.specs.Transactions.{transaction_of};
ghost use Rattle.lu_judge_windows.specs.Windows.{ShowsWindows};

use super::fates::Fate;
use super::handed::is_same;
use super::joins::Joins;
use super::learned::Learned;
use super::losses::Losses;
use super::marks::Marks;
use super::offers::Offers;
use super::transactions::{Done, Transactions};
use lu_base::{Memory, Node, Numbers, Stamp, Who};
use lu_judge_pass::Ledger;
use lu_msg::LockReplay;
use lu_trace::{Entry, Line};
use std::alloc::Global;

/// Whether the node is this target.
fn is_at(node: Node, target: u16) -> bool
    ensures { result ≡ is_target target node }
{
    match node {
        Node::Target(here) => here == target,
        Node::Client(_) => false,
    }
}

/// What the lines so far say of boots, commits and recovery windows, by target.
#[derive(Debug, Drop)]
pub struct Windows<'a> {
    alloc: Global,
    marks: Marks,
    joins: Joins,
    offers: Offers<'a>,
    learned: Learned,
    transactions: Transactions<'a>,
    pub(crate) losses: Losses,
}

impl<'a> Windows<'a> {
    /// Of no line. It takes no memory yet.
    pub fn new(alloc: Global) -> Windows<'a>
        ensures shows { ShowsWindows result [] }
    {
        Windows {
            alloc,
            marks: Marks::new(alloc),
            joins: Joins::new(alloc),
            offers: Offers::new(alloc),
            learned: Learned::new(alloc),
            transactions: Transactions::new(alloc),
            losses: Losses::new(alloc),
        }
    }

    /// The target's present boot: 1 before its first `boot` line.
    pub fn boot(&self, target: u16) -> u32
        ensures boot { (past : Past) → ShowsWindows self.now past → result ≡ boots.boot target past }
    {
        self.marks.get(target).boot
    }

    /// The number of the target's last `commit` line, or 0.
    pub fn committed(&self, target: u16) -> u64
        ensures committed { (past : Past) → ShowsWindows self.now past → result ≡ boots.committed target past }
    {
        self.marks.get(target).committed
    }

    /// The greatest number of the target's transactions, or 0.
    pub fn greatest(&self, target: u16) -> u64
        ensures greatest { (past : Past) → ShowsWindows self.now past → result ≡ boots.greatest target past }
    {
        self.marks.get(target).greatest
    }

    /// Whether the target's recovery window is open.
    pub fn is_recovering(&self, target: u16) -> bool
        ensures recovering { (past : Past) → ShowsWindows self.now past → result ≡ boots.is_recovering target past }
    {
        self.marks.get(target).recovering
    }

    /// Whether a finished close of the target lost this transaction.
    pub fn is_lost(&self, target: u16, number: u64) -> bool
        ensures lost { (past : Past) → ShowsWindows self.now past → result ≡ lost.is_lost past target number }
    {
        self.losses.has(target, number)
    }

    /// Whether the life has a `joined` line of the target.
    pub fn has_joined(&self, target: u16, who: Who) -> bool
        ensures joined { (past : Past) → ShowsWindows self.now past → result ≡ slots.has_joined target past who }
    {
        self.joins.has(target, who)
    }

    /// The lives that joined at the target, the first one first, once for each `joined` line.
    pub fn joined_lives(&self, target: u16) -> &[Who]
        ensures lives { (past : Past) → ShowsWindows self.now past
            → reverse result.now ≡ slots.joined_lives target past }
    {
        self.joins.lives(target)
    }

    /// Whether the life has a slot at the target.
    pub fn has_slot(&self, ledger: &Ledger, target: u16, who: Who) -> bool
        ensures slot { (past : Past) → ShowsLedger ledger.now past → ShowsWindows self.now past
            → result ≡ slots.has_slot target past who }
    {
        (who.life == 1 || self.has_joined(target, who)) && !ledger.evictions.has(target, who)
    }

    /// Whether the life has a slot at the target and is back since its last boot.
    pub fn is_back(&self, ledger: &Ledger, target: u16, who: Who) -> bool
        ensures back { (past : Past) → ShowsLedger ledger.now past → ShowsWindows self.now past
            → result ≡ handed.is_back target past who }
    {
        self.has_slot(ledger, target, who) && self.offers.has_all(target, who)
    }

    /// Whether the life has a slot at the target after one more line of the target.
    fn has_slot_after(&self, ledger: &Ledger, target: u16, entry: &Entry, who: Who) -> bool
        ensures slot { (past : Past) (at : At) → is_target target at.node ≡ true → ShowsLedger ledger.now past
            → ShowsWindows self.now past
            → result ≡ slots.has_slot target (record { at = at; entry = entry.now } ∷ past) who }
    {
        match entry {
            Entry::Joined(joined) => {
                let is_joined = is_same(*joined, who);
                if is_joined {
                    return !ledger.evictions.has(target, who);
                }
                self.has_slot(ledger, target, who)
            }
            Entry::Evict { who: gone, .. } => {
                let is_gone = is_same(*gone, who);
                if is_gone {
                    return false;
                }
                self.has_slot(ledger, target, who)
            }
            _ => self.has_slot(ledger, target, who),
        }
    }

    /// Whether the life asked to join since the target's last boot, or handed in as much as a word of it says, after
    /// one more line of the target.
    fn has_all_after(&self, ledger: &Ledger, target: u16, entry: &Entry, who: Who) -> bool
        ensures all { (past : Past) (at : At) → is_target target at.node ≡ true → ShowsLedger ledger.now past
            → ShowsWindows self.now past
            → result ≡ handed.has_all (boots.boot target (record { at = at; entry = entry.now } ∷ past)) who
            (handed.handed target (record { at = at; entry = entry.now } ∷ past)) }
    {
        match entry {
            Entry::Take(number) => match ledger.sendings.get(*number) {
                Some(sending) => {
                    self.offers
                        .has_all_after(target, self.boot(target), sending.message, who)
                }
                None => self.offers.has_all(target, who),
            },
            Entry::Boot(_) => false,
            _ => self.offers.has_all(target, who),
        }
    }

    /// Whether the life has a slot at the target and is back after this line, which comes next.
    pub fn is_back_after(&self, ledger: &Ledger, target: u16, line: &Line, who: Who) -> bool
        ensures back { (past : Past) → ShowsLedger ledger.now past → ShowsWindows self.now past
            → result ≡ handed.is_back target (line.now ∷ past) who }
    {
        if !is_at(line.at.node, target) {
            return self.is_back(ledger, target, who);
        }
        if !self.has_slot_after(ledger, target, &line.entry, who) {
            return false;
        }
        self.has_all_after(ledger, target, &line.entry, who)
    }

    /// Whether a newer life of the client asked to join since the target's last boot.
    pub fn has_newer(&self, target: u16, who: Who) -> bool
        ensures newer { (past : Past) → ShowsWindows self.now past → result ≡ handed.has_newer target past who }
    {
        self.offers.has_newer(target, who)
    }

    /// The different locks that were handed in since the target's last boot, the first one first.
    pub fn locks_handed(&self, target: u16) -> &[&'a LockReplay]
        ensures locks { (past : Past) → ShowsWindows self.now past
            → reverse (map (λ r. r.now) result.now)
            ≡ handed.locks (boots.boot target past) (handed.handed target past) }
    {
        self.offers.locks(target)
    }

    /// Whether the life heard a reply of the target that carries this number.
    pub fn heard_number(&self, target: u16, who: Who, number: u64) -> bool
        ensures heard { (past : Past) → ShowsWindows self.now past
            → result ≡ learned.heard_number target who number past }
    {
        self.learned.heard(target, who, number)
    }

    /// Whether a reply of the target that the life heard names this number, or a grant by which it came to hold a lock.
    pub fn saw(&self, target: u16, who: Who, number: u64) -> bool
        ensures saw { (past : Past) → ShowsWindows self.now past → result ≡ learned.saw target who number past }
    {
        self.learned.saw(target, who, number)
    }

    /// Whether a transaction of the target has this number and isn't lost.
    pub fn stands(&self, target: u16, number: u64) -> bool
        ensures stands { (past : Past) → ShowsWindows self.now past → result ≡ recovery.stands target past number }
    {
        self.transactions.has(target, number) && !self.is_lost(target, number)
    }

    /// Whether the life can replay its transaction.
    fn is_replayable(&self, ledger: &Ledger, target: u16, done: &Done) -> bool
        ensures replayable { (past : Past) → ShowsLedger ledger.now past → ShowsWindows self.now past
            → result ≡ lost.is_replayable target past (transaction_of done.now) }
    {
        self.is_back(ledger, target, done.who) && self.heard_number(target, done.who, done.number)
    }

    /// Whether the transaction is neither committed nor lost.
    fn is_undecided(&self, target: u16, done: &Done) -> bool
        ensures undecided { (past : Past) → ShowsWindows self.now past
            → result ≡ is_undecided target past (transaction_of done.now) }
    {
        self.committed(target) < done.number && !self.is_lost(target, done.number)
    }

    /// Whether a close loses the transaction after what it lost of older ones.
    fn falls(&self, ledger: &Ledger, target: u16, done: &Done, fate: &Fate) -> bool
        ensures falls { (past : Past) (ns : List ℕ) → ShowsLedger ledger.now past → ShowsWindows self.now past
            → IsFate fate.now ns
            → result ≡ (not (lost.is_replayable target past (transaction_of done.now))
            || list_any (lost.is_among ns) done.now.seen.now) }
    {
        !self.is_replayable(ledger, target, done) || fate.has_any(done.seen)
    }

    /// Notes whether a close loses the transaction after what it lost of older ones.
    fn decide(
        &self,
        ledger: &Ledger,
        target: u16,
        done: &Done,
        fate: &mut Fate,
    ) -> Result<(), Memory>
        ensures decided { OnOk result ((past : Past) (ns : List ℕ) → ShowsLedger ledger.now past
            → ShowsWindows self.now past → IsFate fate.old ns
            → IsFate fate.new (if is_undecided target past (transaction_of done.now)
            then lost.with_lost (lost.is_replayable target past) (transaction_of done.now) ns else ns)) }
    {
        if !self.is_undecided(target, done) {
            return Ok(());
        }
        if !self.falls(ledger, target, done, fate) {
            return Ok(());
        }
        fate.add(done.number)?;
        Ok(())
    }

    /// What a close of the target loses now.
    fn fate(&self, ledger: &Ledger, target: u16) -> Result<Fate, Memory>
        ensures fate { IfOk result (λ fate. (past : Past) → ShowsLedger ledger.now past → ShowsWindows self.now past
            → IsFate fate (closes.lost_at target past)) }
    {
        let mut fate = Fate::new(self.alloc);
        for done in self.transactions.all(target) {
            self.decide(ledger, target, done, &mut fate)?;
        }
        Ok(fate)
    }

    /// The numbers that a close of the target loses now, of the newest transaction first.
    pub fn lost_at(&self, ledger: &Ledger, target: u16) -> Result<Numbers, Memory>
        ensures lost { IfOk result (λ numbers. (past : Past) → ShowsLedger ledger.now past → ShowsWindows self.now past
            → numbers ≡ closes.lost_at target past) }
    {
        Ok(self.fate(ledger, target)?.newest_first())
    }

    /// Whether a close that loses these keeps the transaction.
    fn stays(&self, target: u16, done: &Done, fate: &Fate) -> bool
        ensures stays { (past : Past) (ns : List ℕ) → ShowsWindows self.now past → IsFate fate.now ns
            → result ≡ (is_undecided target past (transaction_of done.now) && not (lost.is_among ns done.now.number)) }
    {
        self.is_undecided(target, done) && !fate.has(done.number)
    }

    /// Adds the transaction's number to what a close keeps that loses these, where it keeps it.
    fn keep(&self, target: u16, done: &Done, fate: &Fate, kept: &mut Numbers) -> Result<(), Memory>
        ensures kept { OnOk result ((past : Past) (ns : List ℕ) → ShowsWindows self.now past → IsFate fate.now ns
            → kept.new ≡ kept.old ++ (if is_undecided target past (transaction_of done.now)
            && not (lost.is_among ns done.now.number) then done.now.number ∷ [] else [])) }
    {
        if !self.stays(target, done, fate) {
            return Ok(());
        }
        kept.push(done.number)?;
        Ok(())
    }

    /// The numbers that a close of the target keeps now, of the oldest transaction first.
    pub fn kept_at(&self, ledger: &Ledger, target: u16) -> Result<Numbers, Memory>
        ensures kept { IfOk result (λ numbers. (past : Past) → ShowsLedger ledger.now past → ShowsWindows self.now past
            → numbers ≡ closes.kept_at target past) }
    {
        let fate = self.fate(ledger, target)?;
        let mut kept = Numbers::new(self.alloc);
        for done in self.transactions.all(target) {
            self.keep(target, done, &fate, &mut kept)?;
        }
        Ok(kept)
    }

    /// The target's recovery window closes in its turn of this stamp.
    fn close(&mut self, ledger: &Ledger, target: u16, stamp: Stamp) -> Result<(), Memory>
        ensures losses { OnOk result ((past : Past) → ShowsLedger ledger.now past → ShowsWindows self.old past
            → ShowsLosses self.new.losses (record {
              at = record { stamp = stamp; node = Target target };
              entry = Close;
            } ∷ past)) }
        ensures others { OnOk result (self.new ≡ record self.old { losses = self.new.losses }) }
    {
        if self.losses.has_failed(target, stamp.0) {
            return Ok(());
        }
        let numbers = self.lost_at(ledger, target)?;
        self.losses.lose(target, stamp, &numbers)?;
        Ok(())
    }

    /// Takes in what the next line loses.
    fn step_losses(&mut self, ledger: &Ledger, line: &Line) -> Result<(), Memory>
        ensures losses { OnOk result ((past : Past) → ShowsLedger ledger.now past → ShowsWindows self.old past
            → ShowsLosses self.new.losses (line.now ∷ past)) }
        ensures others { OnOk result (self.new ≡ record self.old { losses = self.new.losses }) }
    {
        match &line.entry {
            Entry::Close => match line.at.node {
                Node::Target(target) => {
                    self.close(ledger, target, line.at.stamp)?;
                    Ok(())
                }
                Node::Client(_) => Ok(()),
            },
            Entry::Fail => match line.at.node {
                Node::Target(target) => {
                    self.losses.fail(target, line.at.stamp)?;
                    Ok(())
                }
                Node::Client(_) => Ok(()),
            },
            _ => Ok(()),
        }
    }

    /// Takes in the next line; the ledger is of the lines before it. After want of memory nothing is known of the
    /// tables.
    pub fn step(&mut self, ledger: &Ledger<'a>, line: &'a Line) -> Result<(), Memory>
        ensures shows { OnOk result ((past : Past) → Ordered past → Follows past line.now.at
            → ShowsLedger ledger.now past → ShowsWindows self.old past → ShowsWindows self.new (line.now ∷ past)) }
    {
        self.step_losses(ledger, line)?;
        self.offers.step(&self.marks, &ledger.sendings, line)?;
        self.marks.step(line)?;
        self.joins.step(line)?;
        self.learned.step(ledger, line)?;
        self.transactions.step(line)?;
        Ok(())
    }
}
