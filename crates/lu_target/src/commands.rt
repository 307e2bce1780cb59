//! Ticks and commands.

ghost use Rattle.std.specs.Prelude.{◌≡◌, ◌≢◌, ◌⊎◌, Err, OnOk};
ghost use Rattle.lu_spec_target.specs.Leaving.{row_tick};
ghost use Rattle.lu_spec_target.specs.Rows.{row_closes, row_commit};
ghost use Rattle.lu_target_server.specs.declared.faults.TurnFault.TheVariants as fault;
ghost use Rattle.lu_target.specs.Running.{IsUp, Turns, OverrunsIn, HasNoTickIn, StopsIn, KeepsIn};

use super::running::Running;
use lu_disk::Disk;
use lu_service::Service;
use lu_target_server::TurnFault;
use lu_trace::{Entry, Turn};

impl<S: Service, D: Disk> Running<S, D> {
    /// A tick; while the target recovers it is its line alone.
    pub(crate) fn tick(&mut self, turn: &mut Turn) -> Result<(), TurnFault>
        requires up { IsUp self.old }
        ensures turns { OnOk result (Turns (λ v. row_tick v turn.old.at) self.old self.new turn.old turn.new) }
        ensures numbers { result ≡ Err fault.NumbersSpent
            → HasNoTickIn self.old ⊎ OverrunsIn (λ v. row_tick v turn.old.at) self.old }
        ensures failed { result ≡ Err fault.Disk
            → StopsIn (λ v. row_tick v turn.old.at) self.old self.new turn.old turn.new }
        ensures batches { KeepsIn (λ v. row_tick v turn.old.at) self.old self.new }
    {
        if self.recovery.is_some() {
            return self.server.count_tick(turn);
        }
        self.server.tick(turn)
    }

    /// Commits the first `count` of the transactions that aren't on the disk, or all where there is no count; passed over while
    /// the target recovers.
    pub(crate) fn commit(&mut self, turn: &mut Turn, count: Option<u32>) -> Result<(), TurnFault>
        requires up { IsUp self.old }
        ensures turns { OnOk result (Turns (λ v. row_commit v count) self.old self.new turn.old turn.new) }
        ensures numbers { result ≢ Err fault.NumbersSpent }
        ensures failed { result ≡ Err fault.Disk
            → StopsIn (λ v. row_commit v count) self.old self.new turn.old turn.new }
        ensures batches { KeepsIn (λ v. row_commit v count) self.old self.new }
    {
        if self.recovery.is_some() {
            return Ok(turn.note(Entry::Skip)?);
        }
        self.server.commit(turn, count)
    }

    /// The recovery window closes, whoever is back; passed over while the target serves.
    pub(crate) fn close(&mut self, turn: &mut Turn) -> Result<(), TurnFault>
        requires up { IsUp self.old }
        ensures turns { OnOk result (Turns (λ v. row_closes v turn.old.at) self.old self.new turn.old turn.new) }
        ensures numbers { result ≢ Err fault.NumbersSpent }
        ensures failed { result ≡ Err fault.Disk
            → StopsIn (λ v. row_closes v turn.old.at) self.old self.new turn.old turn.new }
        ensures batches { KeepsIn (λ v. row_closes v turn.old.at) self.old self.new }
    {
        match self.recovery.take() {
            Some(recovery) => self.server.close(turn, recovery),
            None => Ok(turn.note(Entry::Skip)?),
        }
    }
}
