//! What goes to the disk while the target serves.

ghost use Rattle.std.specs.Prelude.{◌≡◌, ◌≢◌, ◌⊎◌, ℕ, [], ◌∷◌, ◌++◌, Option, Err, OnOk, OnErr};
ghost use Rattle.lu_base.specs.Faults.{Rose};
ghost use Rattle.lu_trace.specs.declared.entries.Entry.TheVariants as line;
ghost use Rattle.lu_spec_entries.specs.Words.{Fail};
ghost use Rattle.lu_spec_target.specs.Leaving.{commits};
ghost use Rattle.lu_spec_target.specs.Rows.{first_deeds, row_commits};
ghost use Rattle.lu_spec_target.specs.States.{Target};
ghost use Rattle.lu_target_store.specs.Stores.{Serves, MayMove, IsMove, IsClose, KeepsTakenBut};
ghost use Rattle.lu_target_store.specs.declared.faults.StoreFault.TheVariants as store_fault;
ghost use Rattle.lu_spec_entries.specs.Given.{giving};
ghost use Rattle.lu_target_server.specs.Servers.{Stands, Makes, Fails, KeepsBatches, DiskFailed};
ghost use Rattle.lu_trace.specs.Turns.{with_line};
ghost use Rattle.lu_target_server.specs.Commits.{commit_line, IsMoved, KeepsMoved};
ghost use Rattle.lu_target_server.specs.declared.faults.TurnFault.TheVariants as fault;

use super::faults::TurnFault;
use super::server::Server;
use lu_base::{Memory, Txn, Who};
use lu_disk::Disk;
use lu_service::Service;
use lu_target_store::StoreFault;
use lu_trace::{Entry, Turn};

/// A commit failed: where the disk did, the turn ends with that line.
pub(crate) fn fails(turn: &mut Turn, cause: StoreFault) -> TurnFault
    ensures numbers { result ≡ fault.NumbersSpent → (cause ≡ store_fault.NumbersSpent)
        ⊎ (cause ≡ store_fault.BootsSpent) }
    ensures failed { result ≡ fault.Disk → (cause ≡ store_fault.Disk) × (turn.new ≡ giving turn.old (Fail ∷ [])) }
{
    match cause {
        StoreFault::Disk => match turn.note(Entry::Fail) {
            Ok(()) => TurnFault::Disk,
            Err(_) => TurnFault::Memory,
        },
        StoreFault::NumbersSpent | StoreFault::BootsSpent => TurnFault::NumbersSpent,
        StoreFault::Memory => TurnFault::Memory,
    }
}

/// The line of a commit up to this number; where nothing was to be committed, the command is passed over.
fn note_commit(turn: &mut Turn, to: Option<Txn>) -> Result<(), Memory>
    ensures line { OnOk result (turn.new.step ≡ with_line turn.old.at turn.old.step (commit_line to)) }
    ensures turn { turn.new.at ≡ turn.old.at }
{
    match to {
        Some(to) => turn.note(Entry::Commit(to)),
        None => turn.note(Entry::Skip),
    }
}

impl<S: Service, D: Disk> Server<S, D> {
    /// Commits the first `count` of the transactions that aren't on the disk, or all where there is no count.
    pub fn commit(&mut self, turn: &mut Turn, count: Option<u32>) -> Result<(), TurnFault>
        requires stands { Stands self.old }
        ensures makes { OnOk result (Makes (λ v. row_commits v
            (first_deeds count v.log)) self.old self.new turn.old turn.new) }
        ensures numbers { result ≢ Err fault.NumbersSpent }
        ensures failed { result ≡ Err fault.Disk → DiskFailed self.old self.new
            × Fails (λ v. row_commits v (first_deeds count v.log)) self.old turn.old turn.new }
        ensures batches { KeepsBatches (λ v. row_commits v (first_deeds count v.log)) self.old self.new }
    {
        let to = match self.store.commit(count) {
            Ok(to) => to,
            Err(fault) => return Err(fails(turn, fault)),
        };
        note_commit(turn, to)?;
        Ok(())
    }

    /// Commits all, while these lives lose their slots and those get one.
    pub(crate) fn commit_moving(
        &mut self,
        turn: &mut Turn,
        gone: &[Who],
        come: &[Who],
    ) -> Result<(), TurnFault>
        requires may { MayMove gone.now come.now self.old.store }
        ensures moved { OnOk result (IsMoved gone.now come.now self.old self.new turn.old turn.new) }
        ensures numbers { result ≢ Err fault.NumbersSpent }
        ensures failed { result ≡ Err fault.Disk
            → DiskFailed self.old self.new × (turn.new ≡ giving turn.old (Fail ∷ [])) }
        ensures batches { OnErr result (KeepsMoved gone.now come.now self.old.store self.new.store) }
    {
        let to = match self.store.move_lives(gone, come) {
            Ok(to) => to,
            Err(fault) => return Err(fails(turn, fault)),
        };
        note_commit(turn, Some(to))?;
        Ok(())
    }
}
