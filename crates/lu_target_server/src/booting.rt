//! How a target begins over a disk without batches, and how it boots over one with batches.

ghost use Rattle.std.specs.Prelude.{◌≡◌, ◌≢◌, ◌<◌, ◌+◌, ℕ, false, true, [], ◌∷◌, ◌++◌, Err, IfOk, IfErr, OnOk};
ghost use Rattle.lu_base.specs.Faults.{Rose};
ghost use Rattle.lu_spec_entries.specs.Words.{Fail};
ghost use Rattle.lu_disk.specs.declared.disks.DiskError.TheVariants as disk_error;
ghost use Rattle.lu_target_redo.specs.Shown.{AllRepeatable};
ghost use Rattle.lu_target_store.specs.Commits.{last_boot, most_boots};
ghost use Rattle.lu_spec_target.specs.Disks.{boot_batch, row_start};
ghost use Rattle.lu_spec_target.specs.Recovery.{row_boot, settles};
ghost use Rattle.lu_spec_target.specs.States.{Setting, Target, first_batch, lives_from, started};
ghost use Rattle.lu_target_store.specs.declared.faults.StoreFault.TheVariants as store_fault;
ghost use Rattle.lu_spec_entries.specs.Given.{giving};
ghost use Rattle.lu_target_server.specs.Servers.{Shows, DiskFailed};
ghost use Rattle.lu_target_server.specs.Booting.{IsStart, IsOver, IsFresh, IsBooting, StandsOn};
ghost use Rattle.lu_target_server.specs.Closing.{lines, up_line};
ghost use Rattle.lu_target_server.specs.Passing.{Passes, HasBatches, StopsAt};
ghost use Rattle.lu_target_server.specs.declared.booting.BeginFault.TheVariants as begin;
ghost use Rattle.lu_target_server.specs.declared.faults.TurnFault.TheVariants as fault;

use super::commits::fails;
use super::faults::TurnFault;
use super::recovery::Recovery;
use super::requests::Requests;
use super::saying::say_up;
use super::server::Server;
use lu_base::{Lives, Memory, TargetId, Who};
use lu_disk::{Disk, DiskError};
use lu_msg::Batches;
use lu_service::Service;
use lu_target_locks::LockServer;
use lu_target_redo::load;
use lu_target_store::{Store, StoreFault};
use lu_trace::{Entry, Turn};
use std::alloc::Global;

/// Why a target didn't begin.
#[derive(Clone, Copy, Debug, PartialEq, Eq)]
pub enum BeginFault {
    /// There is no boot left: the last one on the disk is 2^32 - 1.
    BootsSpent,
    /// Its turn wasn't made.
    Turn(TurnFault),
}

/// The numbers of a run that a target knows.
#[derive(Clone, Copy, Debug, PartialEq, Eq)]
pub struct Place {
    /// Its own number, 0 for the metadata target.
    pub id: TargetId,
    /// The ticks after which the holder of a lock that was called back loses its slot.
    pub expire: u64,
}

impl<S: Service, D: Disk> Server<S, D> {
    /// A server of this boot over its store, without locks and requests.
    fn over(alloc: Global, place: Place, boot: u32, store: Store<D>, service: S) -> Server<S, D>
        ensures over { IsOver place boot S.kind (S.contents service) store result }
    {
        Server {
            alloc,
            id: place.id,
            boot,
            expire: place.expire,
            store,
            locks: LockServer::new(alloc, boot),
            service,
            requests: Requests::new(alloc),
        }
    }

    /// The disk.
    pub fn into_disk(self) -> D
    where
        S: Drop,
        ensures batches { D.batches result ≡ self.store.batches }
        ensures faults { D.faults result ≡ self.store.faults }
    {
        self.store.into_disk()
    }

    /// A target begins a run over a disk without batches: it serves boot 1, and these lives have slots. The service is
    /// new. After an error the disk has no batches still.
    pub fn start(
        alloc: Global,
        place: Place,
        disk: D,
        service: S,
        first: &[Who],
        turn: &mut Turn,
    ) -> Result<Server<S, D>, (D, BeginFault)>
    where
        S: Drop,
        requires empty { D.batches disk ≡ [] }
        ensures started { IfOk result (λ server. (setting : Setting) (clients : ℕ)
            → IsStart place S.kind (S.contents service) setting → first.now ≡ lives_from 0 clients
            → Shows server (started setting clients)) }
        ensures stored { IfOk result (λ server. (clients : ℕ)
            → first.now ≡ lives_from 0 clients → server.store.batches ≡ first_batch clients ∷ []) }
        ensures quiet { OnOk result (turn.new ≡ giving turn.old (row_start false)) }
        ensures numbers { IfErr result (λ failed. failed.1 ≢ begin.Turn fault.NumbersSpent) }
        ensures boots { IfErr result (λ failed. failed.1 ≢ begin.BootsSpent) }
        ensures failed { IfErr result (λ failed. failed.1 ≡ begin.Turn fault.Disk
            → Rose (D.faults disk) (D.faults failed.0) × (turn.new ≡ giving turn.old (row_start true))) }
        ensures kept { IfErr result (λ failed. D.batches failed.0 ≡ []) }
    {
        match Store::start(alloc, disk, first) {
            Ok(store) => Ok(Server::over(alloc, place, 1, store, service)),
            Err((disk, fault)) => Err((disk, begin_fails(turn, fault))),
        }
    }
}

/// A begin failed: where the disk did, its turn ends with that line.
fn begin_fails(turn: &mut Turn, cause: StoreFault) -> BeginFault
    ensures numbers { result ≡ begin.Turn fault.NumbersSpent → cause ≡ store_fault.NumbersSpent }
    ensures failed { result ≡ begin.Turn fault.Disk
        → (cause ≡ store_fault.Disk) × (turn.new ≡ giving turn.old (Fail ∷ [])) }
    ensures spent { result ≡ begin.BootsSpent → cause ≡ store_fault.BootsSpent }
{
    match cause {
        StoreFault::BootsSpent => BeginFault::BootsSpent,
        other => BeginFault::Turn(fails(turn, other)),
    }
}

// ---- boots

/// The disk gave no batches: where it failed, the turn ends with that line.
fn load_fails(turn: &mut Turn, error: DiskError) -> BeginFault
    ensures numbers { result ≢ begin.Turn fault.NumbersSpent }
    ensures failed { result ≡ begin.Turn fault.Disk
        → (error ≡ disk_error.Failed) × (turn.new ≡ giving turn.old (Fail ∷ [])) }
    ensures boots { result ≢ begin.BootsSpent }
{
    BeginFault::Turn(fails(turn, StoreFault::from(error)))
}

/// Loads the disk: the batches that stand there. After an error the disk has what it had.
pub fn load_disk<D: Disk>(disk: &mut D, turn: &mut Turn) -> Result<Batches, BeginFault>
    ensures loaded { IfOk result (λ batches. batches ≡ D.batches disk.old) }
    ensures same { D.batches disk.new ≡ D.batches disk.old }
    ensures steady { OnOk result (D.faults disk.new ≡ D.faults disk.old) }
    ensures quiet { OnOk result (turn.new ≡ turn.old) }
    ensures numbers { IfErr result (λ failed. failed ≢ begin.Turn fault.NumbersSpent) }
    ensures failed { IfErr result (λ failed. failed ≡ begin.Turn fault.Disk
        → Rose (D.faults disk.old) (D.faults disk.new) × (turn.new ≡ giving turn.old (Fail ∷ []))) }
    ensures boots { IfErr result (λ failed. failed ≢ begin.BootsSpent) }
{
    match disk.load() {
        Ok(batches) => Ok(batches),
        Err(error) => Err(load_fails(turn, error)),
    }
}

/// Lives are told the target's boot, one after another.
fn say_all_up(turn: &mut Turn, lives: &Lives, boot: u32) -> Result<(), Memory>
    ensures told { OnOk result (turn.new ≡ giving turn.old (lines (up_line boot) lives.now)) }
{
    for who in lives.as_slice() {
        say_up(turn, *who, boot)?;
    }
    Ok(())
}

impl<S: Service, D: Disk> Server<S, D> {
    /// A target boots over its disk, of which these batches were loaded, and on which it made all its earlier turns; the service
    /// is new. It has the boot after the last one there. What is left of its recovery: none where no life has a slot, and the
    /// target serves. Whatever the answer, the disk has what it had, and the first of the turn's batches.
    pub fn boot(
        alloc: Global,
        place: Place,
        disk: D,
        batches: &Batches,
        service: S,
        turn: &mut Turn,
    ) -> Result<(Server<S, D>, Option<Recovery>), (D, BeginFault)>
    where
        S: Drop,
        requires loaded { batches.now ≡ D.batches disk }
        requires stands { (v : Target) × StandsOn place S.kind (S.contents service) (D.batches disk) v }
        requires repeatable { AllRepeatable S.kind (D.batches disk) }
        ensures booted { IfOk result (λ made. Passes (StandsOn place S.kind (S.contents service) (D.batches disk))
            (λ v. row_boot v turn.old.at) made.0 made.1 turn.old turn.new) }
        ensures stored { IfOk result (λ made. HasBatches (StandsOn place S.kind (S.contents service) (D.batches disk))
            (λ v. row_boot v turn.old.at) (D.batches disk) made.0.store.batches) }
        ensures room { OnOk result (last_boot (D.batches disk) < most_boots) }
        ensures numbers { IfErr result (λ failed. failed.1 ≢ begin.Turn fault.NumbersSpent) }
        ensures failed { IfErr result (λ failed. failed.1 ≡ begin.Turn fault.Disk
            → Rose (D.faults disk) (D.faults failed.0) × ((n : ℕ)
            × StopsAt n (StandsOn place S.kind (S.contents service) (D.batches disk)) (λ v. row_boot v turn.old.at)
            turn.old turn.new)) }
        ensures spent { IfErr result (λ failed. failed.1 ≡ begin.BootsSpent → last_boot (D.batches disk) ≡ most_boots) }
        ensures batches { IfErr result (λ failed. HasBatches
            (StandsOn place S.kind (S.contents service) (D.batches disk))
            (λ v. row_boot v turn.old.at) (D.batches disk) (D.batches failed.0)) }
    {
        let mut server = Server::boot_over(alloc, place, disk, batches, service, turn)?;
        match server.wake(turn) {
            Ok(left) => Ok((server, left)),
            Err(fault) => Err((server.into_disk(), BeginFault::Turn(fault))),
        }
    }

    /// A server of the next boot, which the disk has then; the service has what stands there.
    fn boot_over(
        alloc: Global,
        place: Place,
        disk: D,
        batches: &Batches,
        service: S,
        turn: &mut Turn,
    ) -> Result<Server<S, D>, (D, BeginFault)>
    where
        S: Drop,
        requires loaded { batches.now ≡ D.batches disk }
        requires stands { (v : Target) × StandsOn place S.kind (S.contents service) (D.batches disk) v }
        requires repeatable { AllRepeatable S.kind (D.batches disk) }
        ensures booting { IfOk result (λ server. (v : Target)
            → StandsOn place S.kind (S.contents service) (D.batches disk) v → IsBooting server v) }
        ensures stored { IfOk result (λ server. server.store.batches
            ≡ D.batches disk ++ boot_batch (last_boot (D.batches disk) + 1) ∷ []) }
        ensures steady { IfOk result (λ server. server.store.faults ≡ D.faults disk) }
        ensures room { OnOk result (last_boot (D.batches disk) < most_boots) }
        ensures quiet { OnOk result (turn.new ≡ turn.old) }
        ensures numbers { IfErr result (λ failed. failed.1 ≢ begin.Turn fault.NumbersSpent) }
        ensures failed { IfErr result (λ failed. failed.1 ≡ begin.Turn fault.Disk
            → Rose (D.faults disk) (D.faults failed.0) × (turn.new ≡ giving turn.old (Fail ∷ []))) }
        ensures spent { IfErr result (λ failed. failed.1 ≡ begin.BootsSpent → last_boot (D.batches disk) ≡ most_boots) }
        ensures kept { IfErr result (λ failed. D.batches failed.0 ≡ D.batches disk) }
    {
        let mut service = service;
        if load(alloc, &mut service, batches.as_slice()).is_err() {
            return Err((disk, BeginFault::Turn(TurnFault::Memory)));
        }
        match Store::boot(alloc, disk, batches) {
            Ok(store) => {
                let boot = store.boot_number();
                Ok(Server::over(alloc, place, boot, store, service))
            }
            Err((disk, fault)) => Err((disk, begin_fails(turn, fault))),
        }
    }

    /// The target is up in its boot, and tells it each life that has a slot. Where no life has, the window closes at once.
    fn wake(&mut self, turn: &mut Turn) -> Result<Option<Recovery>, TurnFault>
        requires booting { (v : Target) × IsBooting self.old v }
        ensures passes { IfOk result (λ left. Passes (IsBooting self.old) (λ v. row_boot v turn.old.at)
            self.new left turn.old turn.new) }
        ensures numbers { result ≢ Err fault.NumbersSpent }
        ensures failed { result ≡ Err fault.Disk → DiskFailed self.old self.new
            × StopsAt 2 (IsBooting self.old) (λ v. row_boot v turn.old.at) turn.old turn.new }
        ensures batches { HasBatches (IsFresh self.old) (settles turn.old.at)
            self.old.store.batches self.new.store.batches }
    {
        turn.note(Entry::Boot(self.boot))?;
        let lives = self.store.lives(self.alloc)?;
        say_all_up(turn, &lives, self.boot)?;
        let committed = self.store.last_committed();
        let recovery = Recovery::new(self.alloc, lives.as_slice(), committed)?;
        self.settle(turn, recovery)
    }
}
