//! A target's parts while it is up.

ghost use Rattle.std.specs.Prelude.{◌≡◌, ◌≢◌, ◌<◌, ℕ, false, [], ◌∷◌, IfOk, IfErr};
ghost use Rattle.lu_base.specs.Faults.{Rose};
ghost use Rattle.lu_target_server.specs.Shown.{AllRepeatable};
ghost use Rattle.lu_target_server.specs.StoreCommits.{last_boot, most_boots};
ghost use Rattle.lu_spec_target.specs.Disks.{row_start};
ghost use Rattle.lu_spec_target.specs.Recovery.{row_boot};
ghost use Rattle.lu_spec_target.specs.States.{Setting, Target as SpecTarget, first_batch, lives_from, started, turn as turned};
ghost use Rattle.lu_target_server.specs.Booting.{IsStart, StandsOn};
ghost use Rattle.lu_spec_entries.specs.Given.{giving};
ghost use Rattle.lu_target_server.specs.Passing.{HasBatches};
ghost use Rattle.lu_target_server.specs.declared.booting.BeginFault.TheVariants as begin;
ghost use Rattle.lu_target_server.specs.declared.faults.TurnFault.TheVariants as fault;
ghost use Rattle.lu_target.specs.Running.{IsIn, HasHeeded, HasStopped};

use lu_base::{Memory, Who};
use lu_disk::Disk;
use lu_service::Service;
use lu_target_server::{BeginFault, Place, Recovery, Server, load_disk};
use lu_trace::Turn;
use std::alloc::Global;
use std::marker::Model;

/// A target's parts, and while it recovers what it has of the lives that come back.
#[derive(Drop)]
pub(crate) struct Running<S: Service, D: Disk> {
    pub(crate) alloc: Global,
    pub(crate) server: Server<S, D>,
    /// None while the target serves.
    pub(crate) recovery: Option<Recovery>,
}

impl<S: Service, D: Disk> Model for Running<S, D> {
    ghost use Rattle.lu_target.specs.Running.{RunningState};

    ghost Value = { RunningState };

    ghost view = { λ r. record { server = r.server; window = r.recovery } };
}

impl<S: Service, D: Disk> Running<S, D> {
    /// A target begins: over a disk without batches it begins a run, in which these lives have slots, and serves; else it boots.
    /// The service is new. After a boot and after an error the disk has what it had, and the first of the turn's batches.
    pub(crate) fn begin(
        alloc: Global,
        place: Place,
        disk: D,
        service: S,
        first: &[Who],
        turn: &mut Turn,
    ) -> Result<Running<S, D>, (D, BeginFault)>
    where
        S: Drop,
        requires stands { D.batches disk ≢ []
            → (v : SpecTarget) × StandsOn place S.kind (S.contents service) (D.batches disk) v }
        requires repeatable { AllRepeatable S.kind (D.batches disk) }
        ensures started { IfOk result (λ running. D.batches disk ≡ [] → (setting : Setting) (clients : ℕ)
            → IsStart place S.kind (S.contents service) setting → first.now ≡ lives_from 0 clients
            → IsIn running (started setting clients)) }
        ensures begun { IfOk result (λ running. D.batches disk ≡ [] → (clients : ℕ)
            → first.now ≡ lives_from 0 clients → running.server.store.batches ≡ first_batch clients ∷ []) }
        ensures quiet { IfOk result (λ _. D.batches disk ≡ [] → turn.new ≡ giving turn.old (row_start false)) }
        ensures booted { IfOk result (λ running. D.batches disk ≢ [] → (v : SpecTarget)
            → StandsOn place S.kind (S.contents service) (D.batches disk) v
            → (turn.new ≡ giving turn.old (row_boot v turn.old.at))
            × IsIn running (turned v (row_boot v turn.old.at))) }
        ensures stored { IfOk result (λ running. D.batches disk ≢ []
            → HasBatches (StandsOn place S.kind (S.contents service) (D.batches disk)) (λ v. row_boot v turn.old.at)
            (D.batches disk) running.server.store.batches) }
        ensures room { IfOk result (λ _. D.batches disk ≢ [] → last_boot (D.batches disk) < most_boots) }
        ensures failed { IfErr result (λ failed. failed.1 ≡ begin.Turn fault.Disk
            → Rose (D.faults disk) (D.faults failed.0)
            × HasStopped place S.kind (S.contents service) (D.batches disk) turn.old turn.new) }
        ensures spent { IfErr result (λ failed. failed.1 ≡ begin.BootsSpent → last_boot (D.batches disk) ≡ most_boots) }
        ensures numbers { IfErr result (λ failed. failed.1 ≢ begin.Turn fault.NumbersSpent) }
        ensures kept { IfErr result (λ failed. D.batches disk ≡ [] → D.batches failed.0 ≡ []) }
        ensures batches { IfErr result (λ failed. HasBatches
            (StandsOn place S.kind (S.contents service) (D.batches disk))
            (λ v. row_boot v turn.old.at) (D.batches disk) (D.batches failed.0)) }
    {
        let mut disk = disk;
        let batches = match load_disk(&mut disk, turn) {
            Ok(batches) => batches,
            Err(fault) => return Err((disk, fault)),
        };
        if batches.is_empty() {
            let server = Server::start(alloc, place, disk, service, first, turn)?;
            return Ok(Running {
                alloc,
                server,
                recovery: None,
            });
        }
        let (server, recovery) = match Server::boot(alloc, place, disk, &batches, service, turn) {
            Ok(made) => made,
            Err(failed) => return Err(failed),
        };
        Ok(Running {
            alloc,
            server,
            recovery,
        })
    }

    /// Whether a message of this life and boot is heeded. One of an older boot is told the boot, and else a life without a
    /// slot that it has none.
    pub(crate) fn heeds(&self, turn: &mut Turn, who: Who, boot: u32) -> Result<bool, Memory>
        ensures heeds { IfOk result (λ heeded. HasHeeded heeded who boot self.now turn.old turn.new) }
    {
        if boot < self.server.boot_number() {
            self.server.up(turn, who)?;
            return Ok(false);
        }
        if !self.server.serves(who) {
            self.server.evicted(turn, who)?;
            return Ok(false);
        }
        Ok(true)
    }
}
