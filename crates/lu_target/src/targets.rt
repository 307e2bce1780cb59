//! A target.

ghost use Rattle.std.specs.Prelude.{◌≡◌, ◌≢◌, ◌<◌, ◌↔◌, ℕ, IsTrue, [], ◌∷◌, IfOk, IfErr, OnOk, None, Some, Err};
ghost use Rattle.lu_base.specs.Faults.{Rose};
ghost use Rattle.lu_base.specs.declared.ids.Node.{Node as SpecNode};
ghost use Rattle.lu_target_server.specs.Shown.{AllRepeatable};
ghost use Rattle.lu_target_server.specs.StoreCommits.{last_boot, most_boots};
ghost use Rattle.lu_spec_target.specs.Recovery.{row_boot};
ghost use Rattle.lu_spec_target.specs.Rows.{Closes, Comes, Commits, Ticks};
ghost use Rattle.lu_spec_target.specs.States.{Setting, Target as SpecTarget, first_batch, lives_from, started, turn};
ghost use Rattle.lu_spec_entries.specs.Given.{step_of};
ghost use Rattle.lu_target_server.specs.Booting.{IsStart, StandsOn};
ghost use Rattle.lu_target_server.specs.Passing.{HasBatches};
ghost use Rattle.lu_target_server.specs.declared.faults.TurnFault.TheVariants as turn_fault;
ghost use Rattle.lu_target.specs.Running.{IsIn, MayHeed};
ghost use Rattle.lu_target.specs.Targets.{place_of, turn_of, IsReady, IsEnd, Steps, StopsBoot};
ghost use Rattle.lu_target.specs.declared.faults.BootFault.TheVariants as boot_fault;
ghost use Rattle.lu_trace.specs.Turns.{no_step};
ghost use Rattle.lu_trace.specs.declared.traces.Step.{Step as SpecStep};
ghost use Rattle.lu_target_server.specs.declared.faults.TurnFault.{TurnFault as Cause};
ghost use Rattle.lu_target.specs.Faults.{step_fault_of};

use super::faults::{BootFault, StepFault, boot_fault, spent_fault, step_fault};
use super::running::Running;
use lu_base::{At, Node, Stamp, TargetId, Who};
use lu_disk::Disk;
use lu_msg::Message;
use lu_service::Service;
use lu_target_server::{Place, TurnFault};
use lu_trace::{Step, Turn};
use std::alloc::Global;
use std::marker::Model;

/// A target that is up: the metadata target, or an object target.
#[derive(Drop)]
pub struct Target<S: Service, D: Disk> {
    alloc: Global,
    id: TargetId,
    pub(crate) running: Running<S, D>,
    /// Why the last step wasn't made.
    spent: Option<TurnFault>,
}

impl<S: Service, D: Disk> Model for Target<S, D> {
    ghost use Rattle.lu_target.specs.Targets.{TargetState};

    ghost Value = { TargetState };

    ghost view = { λ t. record { id = t.id.0; running = t.running; spent = t.spent } };
}

impl<S: Service, D: Disk> Target<S, D> {
    /// A target begins with its disk and a new service: over a disk without batches it begins a run, in which the lives `first`
    /// have slots, and serves boot 1; over one with batches it boots, and recovers unless no life has a slot. `expire` is the
    /// ticks after which the holder of a lock that was called back loses its slot. The step is what it gives in the turn of this
    /// stamp. After a boot and after an error the disk has what it had, and the first of the turn's batches.
    pub fn boot(
        alloc: Global,
        disk: D,
        service: S,
        id: TargetId,
        first: &[Who],
        expire: u64,
        stamp: Stamp,
    ) -> Result<(Target<S, D>, Step), (D, BootFault)>
    where
        S: Drop,
        requires stands { D.batches disk ≢ []
            → (v : SpecTarget) × StandsOn (place_of id expire) S.kind (S.contents service) (D.batches disk) v }
        requires repeatable { AllRepeatable S.kind (D.batches disk) }
        ensures started { IfOk result (λ made. D.batches disk ≡ [] → (setting : Setting) (clients : ℕ)
            → IsStart (place_of id expire) S.kind (S.contents service) setting → first.now ≡ lives_from 0 clients
            → (made.1 ≡ step_of (turn_of id.0 stamp) []) × IsIn made.0.running (started setting clients)) }
        ensures begun { IfOk result (λ made. D.batches disk ≡ [] → (clients : ℕ)
            → first.now ≡ lives_from 0 clients → made.0.running.server.store.batches ≡ first_batch clients ∷ []) }
        ensures booted { IfOk result (λ made. D.batches disk ≢ [] → (v : SpecTarget)
            → StandsOn (place_of id expire) S.kind (S.contents service) (D.batches disk) v
            → (made.1 ≡ step_of (turn_of id.0 stamp) (row_boot v (turn_of id.0 stamp)))
            × IsIn made.0.running (turn v (row_boot v (turn_of id.0 stamp)))) }
        ensures stored { IfOk result (λ made. D.batches disk ≢ []
            → HasBatches (StandsOn (place_of id expire) S.kind (S.contents service) (D.batches disk))
            (λ v. row_boot v (turn_of id.0 stamp)) (D.batches disk) made.0.running.server.store.batches) }
        ensures ready { IfOk result (λ made. (made.0.id ≡ id.0) × (made.0.spent ≡ None)) }
        ensures room { OnOk result (D.batches disk ≢ [] → last_boot (D.batches disk) < most_boots) }
        ensures failed { IfErr result (λ failed. (step : SpecStep) → failed.1 ≡ boot_fault.Disk step
            → Rose (D.faults disk) (D.faults failed.0)
            × StopsBoot (place_of id expire) S.kind (S.contents service) (D.batches disk) (turn_of id.0 stamp) step) }
        ensures spent { IfErr result (λ failed. failed.1 ≡ boot_fault.BootsSpent
            → last_boot (D.batches disk) ≡ most_boots) }
        ensures kept { IfErr result (λ failed. D.batches disk ≡ [] → D.batches failed.0 ≡ []) }
        ensures batches { IfErr result (λ failed.
            HasBatches (StandsOn (place_of id expire) S.kind (S.contents service) (D.batches disk))
            (λ v. row_boot v (turn_of id.0 stamp)) (D.batches disk) (D.batches failed.0)) }
    {
        let node = Node::Target(id.0);
        let mut turn = Turn::new(alloc, At { stamp, node });
        let place = Place { id, expire };
        match Running::begin(alloc, place, disk, service, first, &mut turn) {
            Ok(running) => {
                let target = Target {
                    alloc,
                    id,
                    running,
                    spent: None,
                };
                Ok((target, turn.into_step()))
            }
            Err((disk, fault)) => Err((disk, boot_fault(fault, turn.into_step()))),
        }
    }

    /// A turn of this stamp begins, unless the target is spent.
    fn begin(&self, stamp: Stamp) -> Result<Turn, StepFault>
        requires ready { IsReady self.now }
        ensures begun { IfOk result (λ making. (self.now.spent ≡ None)
            × (making ≡ record { at = turn_of self.now.id stamp; step = no_step })) }
        ensures again { IfErr result (λ f. (cause : Cause) × (step : SpecStep)
            × (self.now.spent ≡ Some cause) × (cause ≢ turn_fault.Disk) × (f ≡ step_fault_of cause step)) }
    {
        match self.spent {
            None => {
                let node = Node::Target(self.id.0);
                Ok(Turn::new(self.alloc, At { stamp, node }))
            }
            Some(cause) => Err(spent_fault(cause)),
        }
    }

    /// A turn ends. Where it wasn't made the target is spent.
    fn end(&mut self, turn: Turn, made: Result<(), TurnFault>) -> Result<Step, StepFault>
        ensures ended { IsEnd made turn.step self.old self.new result }
    {
        match made {
            Ok(()) => Ok(turn.into_step()),
            Err(fault) => {
                self.spent = Some(fault);
                Err(step_fault(fault, turn.into_step()))
            }
        }
    }

    /// A message comes.
    pub fn deliver(&mut self, stamp: Stamp, message: &Message) -> Result<Step, StepFault>
        requires ready { IsReady self.old }
        requires may { MayHeed message.now self.old.running }
        ensures steps { (from : SpecNode) → Steps (Comes 0 from message.now) stamp self.old self.new result }
    {
        let mut turn = match self.begin(stamp) {
            Ok(turn) => turn,
            Err(fault) => return Err(fault),
        };
        let made = self.running.take(&mut turn, message);
        self.end(turn, made)
    }

    /// A tick.
    pub fn tick(&mut self, stamp: Stamp) -> Result<Step, StepFault>
        requires ready { IsReady self.old }
        ensures steps { Steps Ticks stamp self.old self.new result }
    {
        let mut turn = match self.begin(stamp) {
            Ok(turn) => turn,
            Err(fault) => return Err(fault),
        };
        let made = self.running.tick(&mut turn);
        self.end(turn, made)
    }

    /// The command to commit the first `count` of the transactions that aren't on the disk, or all where there is no count.
    pub fn commit_now(&mut self, stamp: Stamp, count: Option<u32>) -> Result<Step, StepFault>
        requires ready { IsReady self.old }
        ensures steps { Steps (Commits count) stamp self.old self.new result }
    {
        let mut turn = match self.begin(stamp) {
            Ok(turn) => turn,
            Err(fault) => return Err(fault),
        };
        let made = self.running.commit(&mut turn, count);
        self.end(turn, made)
    }

    /// The command to close the recovery window.
    pub fn close_window(&mut self, stamp: Stamp) -> Result<Step, StepFault>
        requires ready { IsReady self.old }
        ensures steps { Steps Closes stamp self.old self.new result }
    {
        let mut turn = match self.begin(stamp) {
            Ok(turn) => turn,
            Err(fault) => return Err(fault),
        };
        let made = self.running.close(&mut turn);
        self.end(turn, made)
    }

    /// The target goes down. Its disk stays.
    pub fn crash(self) -> D
    where
        S: Drop,
        ensures batches { D.batches result ≡ self.running.server.store.batches }
        ensures faults { D.faults result ≡ self.running.server.store.faults }
    {
        self.running.server.into_disk()
    }
}
