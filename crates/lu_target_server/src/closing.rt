//! The close of a recovery window: what was replayed stands again, the locks that were brought are granted, and each life is
//! told.

ghost use Rattle.std.specs.Prelude.{◌≡◌, ◌≢◌, List, [], ◌∷◌, ◌++◌, max, map, Err, IfOk, OnOk};
ghost use Rattle.lu_base.specs.declared.ids.Who.{Who as SpecWho};
ghost use Rattle.lu_spec_entries.specs.Words.{Close as CloseLine, Fail};
ghost use Rattle.lu_target_locks.specs.Servers as locking;
ghost use Rattle.lu_target_locks.specs.Servers.{ShowsCounts};
ghost use Rattle.lu_target_locks.specs.Standing.{AreOrdered, StandAgain};
ghost use Rattle.lu_target_redo.specs.Shown as redo;
ghost use Rattle.lu_target_redo.specs.Shown.{deed_of};
ghost use Rattle.lu_target_store.specs.Stores.{KeepsDisk, Redoes, IsRedone, Serves};
ghost use Rattle.lu_spec_target.specs.Outcomes.{outcome_of};
ghost use Rattle.lu_spec_target.specs.Phase.{first_of};
ghost use Rattle.lu_spec_target.specs.Recovery.{row_close};
ghost use Rattle.lu_spec_target.specs.States.{Target};
ghost use Rattle.lu_spec_target.specs.Stored.{batch_of, last_number};
ghost use Rattle.lu_target_refines.specs.Contents.{transaction_again};
ghost use Rattle.lu_window.specs.Shown.{kept_replay};
ghost use Rattle.lu_target_server.specs.Closing.{lines, kept_line, restore_line, evict_line, stays_line, joined_line, close_lines, gone_in, numbers_of, Settles, Decides, MayPerform, MayBeNext, CanRedo, IsKept, HasSome};
ghost use Rattle.lu_spec_entries.specs.Given.{giving};
ghost use Rattle.lu_target_server.specs.Passing.{IsClosed, HasBatches, StopsAt};
ghost use Rattle.lu_target_server.specs.Recovering.{Gathers, GathersSome};
ghost use Rattle.lu_target_server.specs.Servers.{DiskFailed};
ghost use Rattle.lu_target_server.specs.declared.faults.TurnFault.TheVariants as fault;

use super::faults::TurnFault;
use super::recovery::Recovery;
use super::saying::{say_evicted, say_ready};
use super::server::Server;
use lu_base::{At, Lives, Lock, Locks, Memory, Sequence, Txn, Who};
use lu_disk::Disk;
use lu_service::Service;
use lu_target_redo::{Close, Deed, Deeds, close_window};
use lu_trace::{Entry, Turn};
use lu_window::{Eviction, Evictions, KeptReplays, Outcome};
use std::alloc::Global;

/// Numbers of transactions.
pub(crate) type Txns = Sequence<Txn>;

/// The lives that lose their slots.
fn gone_of(alloc: Global, evicted: &Evictions) -> Result<Lives, Memory>
    ensures gone { IfOk result (λ gone. gone ≡ gone_in evicted.now) }
{
    let mut gone = Lives::new(alloc);
    for eviction in evicted.as_slice() {
        gone.push(eviction.who)?;
    }
    Ok(gone)
}

/// The numbers of these deeds.
fn numbers_of(alloc: Global, deeds: &Deeds) -> Result<Txns, Memory>
    ensures numbers { IfOk result (λ numbers. numbers ≡ numbers_of (map deed_of deeds.now)) }
{
    let mut numbers = Txns::new(alloc);
    for deed in deeds.as_slice() {
        numbers.push(deed.reply.txn)?;
    }
    Ok(numbers)
}

// ---- what is told

/// The lines of the transactions that stand again.
fn note_kept(turn: &mut Turn, numbers: &Txns) -> Result<(), Memory>
    ensures told { OnOk result (turn.new ≡ giving turn.old (lines kept_line numbers.now)) }
{
    for number in numbers.as_slice() {
        turn.note(Entry::Kept(*number))?;
    }
    Ok(())
}

/// The lines of the locks that stand again.
fn note_restored(turn: &mut Turn, locks: &Locks) -> Result<(), Memory>
    ensures told { OnOk result (turn.new ≡ giving turn.old (lines restore_line locks.now)) }
{
    for lock in locks.as_slice() {
        turn.note(Entry::Restore(*lock))?;
    }
    Ok(())
}

/// A life loses its slot, and is told so.
fn tell_gone(turn: &mut Turn, eviction: &Eviction, boot: u32) -> Result<(), Memory>
    ensures told { OnOk result (turn.new ≡ giving turn.old (evict_line boot eviction.now)) }
{
    turn.note(Entry::Evict {
        who: eviction.who,
        cause: eviction.cause,
    })?;
    say_evicted(turn, eviction.who, boot)
}

/// Lives lose their slots, one after another.
fn tell_all_gone(turn: &mut Turn, evicted: &Evictions, boot: u32) -> Result<(), Memory>
    ensures told { OnOk result (turn.new ≡ giving turn.old (lines (evict_line boot) evicted.now)) }
{
    for eviction in evicted.as_slice() {
        tell_gone(turn, eviction, boot)?;
    }
    Ok(())
}

/// A life that stays is told that it is served.
fn tell_stays(
    turn: &mut Turn,
    who: Who,
    gone: &Lives,
    boot: u32,
    committed: Txn,
) -> Result<(), Memory>
    ensures told { OnOk result (turn.new ≡ giving turn.old (stays_line gone.now boot committed.0 who)) }
{
    if gone.as_slice().contains(&who) {
        return Ok(());
    }
    say_ready(turn, who, boot, committed)
}

/// Of these lives those that stay are told so, one after another.
fn tell_all_stay(
    turn: &mut Turn,
    lives: &Lives,
    gone: &Lives,
    boot: u32,
    committed: Txn,
) -> Result<(), Memory>
    ensures told { OnOk result (turn.new ≡ giving turn.old (lines (stays_line gone.now boot committed.0) lives.now)) }
{
    for who in lives.as_slice() {
        tell_stays(turn, *who, gone, boot, committed)?;
    }
    Ok(())
}

/// A life joins, and is told that it is served.
fn tell_joined(turn: &mut Turn, who: Who, boot: u32, committed: Txn) -> Result<(), Memory>
    ensures told { OnOk result (turn.new ≡ giving turn.old (joined_line boot committed.0 who)) }
{
    turn.note(Entry::Joined(who))?;
    say_ready(turn, who, boot, committed)
}

/// Lives join, one after another.
fn tell_all_joined(turn: &mut Turn, joins: &Lives, boot: u32, committed: Txn) -> Result<(), Memory>
    ensures told { OnOk result (turn.new ≡ giving turn.old (lines (joined_line boot committed.0) joins.now)) }
{
    for who in joins.as_slice() {
        tell_joined(turn, *who, boot, committed)?;
    }
    Ok(())
}

// ---- the kept replays

impl<S: Service, D: Disk> Server<S, D> {
    /// Performs the kept replays again over what stands on the disk; the opens of the lives that leave go.
    fn perform_again(&mut self, at: At, kept: KeptReplays, gone: &Lives) -> Result<Deeds, Memory>
        requires may { (v : Target) × MayPerform (map kept_replay kept) gone.now self.old v }
        ensures deeds { IfOk result (λ deeds. (v : Target) → MayPerform (map kept_replay kept) gone.now self.old v
            → map deed_of deeds ≡ (outcome_of v at).kept) }
        ensures contents { OnOk result ((v : Target) → MayPerform (map kept_replay kept) gone.now self.old v
            → redo.Shows self.new.kind v.setting.osts
            (last_number (map transaction_again (map kept_replay kept)) (max 1 v.disk.committed))
            self.new.contents (outcome_of v at).disk.contents) }
        ensures same { self.new ≡ record self.old { contents = self.new.contents } }
    {
        let close = Close {
            at,
            boot: self.boot,
            committed: self.store.last_committed(),
        };
        close_window(self.alloc, &mut self.service, close, kept, gone.as_slice())
    }

    /// This deed is the journal's again.
    fn redo_one(&mut self, deed: Deed) -> Result<(), Memory>
        requires next { MayBeNext (deed_of deed) self.old.store }
        ensures redone { OnOk result (IsRedone (deed_of deed) self.old.store self.new.store) }
        ensures newest { OnOk result (self.new.store.journal.newest ≡ deed.reply.txn.0) }
        ensures same { self.new ≡ record self.old { store = self.new.store } }
        ensures disk { KeepsDisk self.old.store self.new.store }
    {
        let Deed {
            tag,
            op,
            writes,
            reply,
        } = deed;
        self.store.redo(tag, op, writes, reply)
    }

    /// These deeds are the journal's again, in their order.
    fn redo(&mut self, deeds: Deeds) -> Result<(), Memory>
        requires can { (v : Target) × CanRedo (map deed_of deeds) self.old v }
        ensures redone { OnOk result ((v : Target) → CanRedo (map deed_of deeds) self.old v
            → Redoes (map deed_of deeds) self.new.store v) }
        ensures same { self.new ≡ record self.old { store = self.new.store } }
        ensures disk { KeepsDisk self.old.store self.new.store }
    {
        for deed in deeds.into_vec() {
            self.redo_one(deed)?;
        }
        Ok(())
    }

    /// The kept replays are performed again and are the journal's: their numbers.
    fn stand_again(&mut self, at: At, kept: KeptReplays, gone: &Lives) -> Result<Txns, Memory>
        requires may { (v : Target) × (joins : List SpecWho)
            × Decides (map kept_replay kept) gone.now joins self.old v }
        ensures numbers { IfOk result (λ numbers. (v : Target) (joins : List SpecWho)
            → Decides (map kept_replay kept) gone.now joins self.old v → numbers ≡ numbers_of (outcome_of v at).kept) }
        ensures redone { OnOk result ((v : Target) (joins : List SpecWho)
            → Decides (map kept_replay kept) gone.now joins self.old v
            → Redoes (outcome_of v at).kept self.new.store v) }
        ensures contents { OnOk result ((v : Target) (joins : List SpecWho)
            → Decides (map kept_replay kept) gone.now joins self.old v
            → redo.Shows self.new.kind v.setting.osts (first_of v.boot) self.new.contents
            (outcome_of v at).disk.contents) }
        ensures same { self.new ≡ record self.old { store = self.new.store; contents = self.new.contents } }
        ensures disk { KeepsDisk self.old.store self.new.store }
    {
        let deeds = self.perform_again(at, kept, gone)?;
        let numbers = numbers_of(self.alloc, &deeds)?;
        self.redo(deeds)?;
        Ok(numbers)
    }

    /// The kept replays stand again, and go to the disk with the lives that leave and those that join.
    fn stand(
        &mut self,
        turn: &mut Turn,
        kept: KeptReplays,
        gone: &Lives,
        joins: &Lives,
    ) -> Result<(), TurnFault>
        requires may { (v : Target) × Decides (map kept_replay kept) gone.now joins.now self.old v }
        ensures kept { OnOk result (IsKept (Decides (map kept_replay kept) gone.now joins.now self.old) gone.now
            joins.now
            self.old self.new turn.old turn.new) }
        ensures numbers { result ≢ Err fault.NumbersSpent }
        ensures failed { result ≡ Err fault.Disk → DiskFailed self.old self.new
            × ((v : Target) → turn.new ≡ giving turn.old (CloseLine (outcome_of v turn.old.at) ∷ Fail ∷ [])) }
        ensures batches { HasSome (Decides (map kept_replay kept) gone.now joins.now self.old)
            (λ v. batch_of (outcome_of v turn.old.at).kept gone.now joins.now) self.old self.new }
    {
        turn.note(Entry::Close)?;
        let numbers = self.stand_again(turn.at(), kept, gone)?;
        self.commit_moving(turn, gone.as_slice(), joins.as_slice())?;
        Ok(note_kept(turn, &numbers)?)
    }
}

// ---- the whole

impl<S: Service, D: Disk> Server<S, D> {
    /// Tells what a close decided, once it is on the disk: the locks that stand, who leaves, who stays, and who joins.
    fn tell_close(
        &self,
        turn: &mut Turn,
        lives: &Lives,
        gone: &Lives,
        evicted: &Evictions,
        standing: &Locks,
        joins: &Lives,
    ) -> Result<(), Memory>
        ensures told { OnOk result ((v : Target) → Serves self.now.store v → turn.new ≡ giving turn.old
            (lines restore_line standing.now ++ (lines (evict_line self.now.boot) evicted.now
            ++ (lines (stays_line gone.now self.now.boot v.committed) lives.now
            ++ lines (joined_line self.now.boot v.committed) joins.now)))) }
    {
        let committed = self.store.last_committed();
        note_restored(turn, standing)?;
        tell_all_gone(turn, evicted, self.boot)?;
        tell_all_stay(turn, lives, gone, self.boot, committed)?;
        tell_all_joined(turn, joins, self.boot, committed)
    }

    /// The locks that were brought stand again, and all that a close decided is told.
    fn restore_and_tell(
        &mut self,
        turn: &mut Turn,
        lives: &Lives,
        gone: &Lives,
        evicted: &Evictions,
        locks: &Locks,
        joins: &Lives,
    ) -> Result<(), Memory>
        requires ordered { AreOrdered locks.now }
        ensures told { OnOk result ((v : Target) → Serves self.old.store v → turn.new ≡ giving turn.old
            (close_lines self.old.boot v.committed lives.now gone.now evicted.now locks.now joins.now)) }
        ensures stand { OnOk result ((v w : Target) → ShowsCounts self.old.locks v → StandAgain locks.now v w
            → locking.Shows self.new.locks w) }
        ensures same { self.new ≡ record self.old { locks = self.new.locks } }
        ensures disk { KeepsDisk self.old.store self.new.store }
    {
        let standing = self.locks.restore(self.alloc, locks)?;
        self.tell_close(turn, lives, gone, evicted, &standing, joins)
    }

    /// Does what the close of a window decided.
    fn carry_out(&mut self, turn: &mut Turn, outcome: Outcome) -> Result<(), TurnFault>
        requires settles { (v : Target) × Settles self.old outcome v }
        ensures closed { OnOk result (IsClosed (Settles self.old outcome)
            (row_close turn.old.at) self.new turn.old turn.new) }
        ensures numbers { result ≢ Err fault.NumbersSpent }
        ensures failed { result ≡ Err fault.Disk → DiskFailed self.old self.new
            × StopsAt 0 (Settles self.old outcome) (row_close turn.old.at) turn.old turn.new }
        ensures batches { HasBatches (Settles self.old outcome) (row_close turn.old.at)
            self.old.store.batches self.new.store.batches }
    {
        let Outcome {
            kept,
            evicted,
            locks,
            joins,
            lost: _,
        } = outcome;
        let lives = self.store.lives(self.alloc)?;
        let gone = gone_of(self.alloc, &evicted)?;
        self.stand(turn, kept, &gone, &joins)?;
        Ok(self.restore_and_tell(turn, &lives, &gone, &evicted, &locks, &joins)?)
    }

    /// The window closes, whoever is back, and the target serves: replays are kept where their lives are back and all that
    /// they saw stands, and the others are lost; lives that aren't back, or met a gap, lose their slots; newer lives join.
    pub fn close(&mut self, turn: &mut Turn, recovery: Recovery) -> Result<(), TurnFault>
        requires gathers { GathersSome self.old recovery }
        ensures closed { OnOk result (IsClosed (Gathers self.old recovery)
            (row_close turn.old.at) self.new turn.old turn.new) }
        ensures numbers { result ≢ Err fault.NumbersSpent }
        ensures failed { result ≡ Err fault.Disk → DiskFailed self.old self.new
            × StopsAt 0 (Gathers self.old recovery) (row_close turn.old.at) turn.old turn.new }
        ensures batches { HasBatches (Gathers self.old recovery) (row_close turn.old.at)
            self.old.store.batches self.new.store.batches }
    {
        let outcome = recovery.close()?;
        self.carry_out(turn, outcome)
    }
}
