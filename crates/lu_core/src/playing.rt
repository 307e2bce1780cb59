//! The run of a scenario, from the start of its targets to its end.

ghost use Rattle.std.specs.Prelude.{◌≡◌, ◌⊎◌, ◌≤◌, ℕ, List, [], length, map, All, Err, None, IfOk, OnOk};
ghost use Rattle.lu_spec_laws.specs.Lawful.{IsLawful};
ghost use Rattle.lu_core.specs.Scenes.{AllForeseen};
ghost use Rattle.lu_run_wire.specs.Wires.{empty_wire};
ghost use Rattle.lu_scene.specs.declared.scene.Scene.{Scene as SceneOf};
ghost use Rattle.lu_spec_run.specs.Limits.{KeepsLimits};
ghost use Rattle.lu_spec_run.specs.Scenarios.{head_of};
ghost use Rattle.lu_base.specs.declared.ids.TargetId.{TargetId as TargetIdOf};
ghost use Rattle.lu_trace.specs.declared.traces.Step.{Step as StepOf};
ghost use Rattle.lu_run_nodes.specs.declared.faults.TurnFault.TheVariants as turn_fault;
ghost use Rattle.lu_core.specs.declared.faults.PlayFault.TheVariants as play_fault;
ghost use Rattle.lu_core.specs.declared.players.Progress.TheVariants as came_to;
ghost use Rattle.lu_core.specs.Progress.{Comes, HasFailedStart};
ghost use Rattle.lu_core.specs.Played.{IsPlayed, AreFresh, AreBack, SomeRose, IsStarting, EndsWith};

use super::faults::PlayFault;
use super::players::{Player, Progress};
use lu_base::{Memory, Node, TargetId};
use lu_disk::Disk;
use lu_run_nodes::{Nodes, StartFault, TurnFault};
use lu_run_wire::Wire;
use lu_scene::{Scene, SceneLine};
use lu_trace::{End, Entries, Trace};
use std::alloc::Global;

/// What a run left: its trace, how it ended, and the target whose disk failed, if one did.
#[derive(Debug, PartialEq, Eq, Drop)]
pub struct Played {
    pub trace: Trace,
    pub end: End,
    pub failed: Option<TargetId>,
}

/// Performs a scenario over nine disks, those of the targets in their order, each of which is empty: to its end, to the limit of
/// turns and messages, or until a disk fails. The disks come back in their order, unless memory was wanting or a node met
/// what it can't take.
pub fn play<D: Disk + Drop>(
    alloc: Global,
    scene: &Scene,
    disks: &mut Vec<D>,
) -> Result<Played, PlayFault>
    requires limits { KeepsLimits scene.now }
    requires fresh { AreFresh (map (λ d. record { batches = D.batches d; faults = D.faults d }) disks.old.items) }
    // The trace is that of the run of the scenario over some disks, whole or up to a failure of one.
    ensures played { IfOk result (λ played. IsPlayed scene.now played
        (map (λ d. record { batches = D.batches d; faults = D.faults d }) disks.new.items)) }
    ensures back { OnOk result (AreBack scene.now
        (map (λ d. record { batches = D.batches d; faults = D.faults d }) disks.old.items)
        (map (λ d. record { batches = D.batches d; faults = D.faults d }) disks.new.items)) }
    // It is lawful, also where the failure of a disk ended the run.
    ensures lawful { IfOk result (λ played. IsLawful played.trace) }
    // Where all turns are foreseen, a disk failed.
    ensures unforeseen { result ≡ Err play_fault.Unforeseen → AllForeseen scene.now
        → SomeRose scene.now (map (λ d. record { batches = D.batches d; faults = D.faults d }) disks.new.items) }
{
    disks.reverse();
    let mut player = Player {
        nodes: Nodes::new(alloc, &scene.head, disks)?,
        wire: Wire::new(alloc),
    };
    let progress = player.play(scene.lines.as_slice())?;
    let Player { nodes, wire } = player;
    nodes.give_back(disks)?;
    disks.reverse();
    finish(scene.head.osts, wire.into_entries(), progress)
}

impl<D: Disk + Drop> Player<D> {
    /// The targets start, and the lines are performed.
    fn play(&mut self, lines: &[SceneLine]) -> Result<Progress, PlayFault>
        requires starting { (scene : SceneOf) × IsStarting scene lines.now self.old }
        ensures played { IfOk result (λ came. (scene : SceneOf) → IsStarting scene lines.now self.old
            → Comes scene [] self.new came) }
        ensures unforeseen { result ≡ Err play_fault.Unforeseen → (scene : SceneOf)
            → IsStarting scene lines.now self.old
            → ¬ AllForeseen scene }
    {
        match self.nodes.start() {
            Ok(()) => self.perform_all(lines),
            Err(StartFault { target, fault }) => self.fail_at_start(target, fault),
        }
    }

    /// The turn of a target that didn't start.
    fn fail_at_start(&mut self, target: TargetId, fault: TurnFault) -> Result<Progress, PlayFault>
        requires empty { self.old.wire ≡ empty_wire }
        ensures failed { IfOk result (λ came. (step : StepOf) × (fault ≡ turn_fault.Disk step)
            × ((scene : SceneOf) → HasFailedStart scene target.0 step self.old → Comes scene [] self.new came)) }
        ensures unforeseen { result ≡ Err play_fault.Unforeseen → fault ≡ turn_fault.Unforeseen }
    {
        match fault {
            TurnFault::Disk(step) => {
                let at = self.next_turn(Node::Target(target.0));
                self.wire.add(at, step)?;
                Ok(Progress::Failed(target))
            }
            TurnFault::Unforeseen => Err(PlayFault::Unforeseen),
            TurnFault::Memory => Err(PlayFault::Memory),
        }
    }
}

/// What a run left that came to this.
fn finish(osts: u16, entries: Entries, progress: Progress) -> Result<Played, PlayFault>
    ensures trace { IfOk result (λ played. played.trace ≡ record { osts = osts; entries = entries }) }
    ensures ended { IfOk result (λ played. EndsWith progress played.end played.failed) }
    ensures broken { result ≡ Err play_fault.Unforeseen → (t : TargetIdOf) × (progress ≡ came_to.Broken t) }
{
    let (end, failed) = match progress {
        Progress::Made => (End::Done, None),
        Progress::Full => (End::Limit, None),
        Progress::Failed(target) => (End::Fault, Some(target)),
        Progress::Broken(_) => return Err(PlayFault::Unforeseen),
    };
    Ok(Played {
        trace: Trace { osts, entries },
        end,
        failed,
    })
}
