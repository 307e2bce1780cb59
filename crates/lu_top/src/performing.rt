//! A scenario that is performed, and what is written of its run.

ghost use Rattle.std.specs.Prelude.{◌≡◌, ◌≢◌, ℕ, List, Some, None, IfOk};
ghost use Rattle.std.specs.Io.KnownBytes.{Appends};
ghost use Rattle.lu_base.specs.Faults.{Rose, CameMore, WrotePrefix};
ghost use Rattle.lu_base.specs.declared.ids.TargetId.{TargetId};
ghost use Rattle.lu_scene.specs.Lines.{lines_of};
ghost use Rattle.lu_scene.specs.Grammar.{IsScene, IsFirstFault};
ghost use Rattle.lu_scene.specs.declared.scene.Scene.{Scene as SceneOf};
ghost use Rattle.lu_scene.specs.declared.faults.Fault.{Fault as FaultOf};
ghost use Rattle.lu_core.specs.Limits.{KeepsLimits};
ghost use Rattle.lu_core.specs.Quiet.{IsBareScene, AsksNoDisk};
ghost use Rattle.lu_core.specs.Played.{AreFresh, AreBack, SomeRose};
ghost use Rattle.lu_top.specs.Asked.{most_scene_bytes, WasRead, IsGiven};
ghost use Rattle.lu_top.specs.Outcomes.{held_by, text_by, WasTold, Tells, WroteOf, OfScene, HasFailed, WroteRun, WroteStorm, IsWritten, IsOutcome, HasRun, HasRefused, IsDone, IsRefused, IsPerformedStatus, IsOfPerformance};

use super::forms::Performance;
use super::refusals::{tell, tell_bad};
use super::scenes::{Refusal, scene_of};
use super::status::Status;
use lu_base::{Bytes, Memory, Sink, Source, write_all};
use lu_core::{PlayFault, Played, play};
use lu_disk::Disk;
use lu_run_summary::summary;
use lu_scene::Scene;
use lu_trace::render;
use std::alloc::Global;

/// Performs the scenario of a performance over nine disks, and writes of its run what the performance wants. What the clauses
/// say is what `run` of the crate says of these words.
pub(crate) fn perform_asked<S: Source, K: Sink, D: Disk + Drop>(
    alloc: Global,
    performance: Performance,
    source: &mut S,
    sink: &mut K,
    disks: &mut Vec<D>,
) -> Status
    requires fresh { AreFresh (held_by D.batches D.faults disks.old.items) }
    ensures run { result ≡ Status.Done → performance ≡ Performance.Play
        → WasRead most_scene_bytes (S.left source.old) (S.left source.new)
        (WroteRun (K.holds sink.old) (K.holds sink.new) (held_by D.batches D.faults disks.new.items)) }
    ensures storm { (seed : ℕ) → result ≡ Status.Done → performance ≡ Performance.Storm seed
        → WroteStorm (K.holds sink.old) (K.holds sink.new) (held_by D.batches D.faults disks.new.items) seed }

    ensures some_answer { IsOfPerformance result }
    ensures storm_unread { (seed : ℕ) → performance ≡ Performance.Storm seed → source.new ≡ source.old }
    ensures read_fault { result ≡ Status.ReadFault → Rose (S.faults source.old) (S.faults source.new) }
    ensures too_long { result ≡ Status.TooLong → CameMore (S.left source.old) (S.left source.new) most_scene_bytes }
    ensures scene { (line : ℕ) (fault : FaultOf) → result ≡ Status.Scene line fault
        → WasRead most_scene_bytes (S.left source.old) (S.left source.new)
        (λ text. IsFirstFault (lines_of text) line fault) }
    ensures disk_fault { (t : TargetId) → result ≡ Status.DiskFault t
        → OfScene performance (S.left source.old) (S.left source.new)
        (HasFailed (held_by D.batches D.faults disks.new.items) t) }
    ensures write_fault { result ≡ Status.WriteFault → Rose (K.faults sink.old) (K.faults sink.new) }
    ensures source_steady { result ≢ Status.ReadFault → S.faults source.new ≡ S.faults source.old }
    ensures sink_steady { result ≡ Status.Done → K.faults sink.new ≡ K.faults sink.old }
    ensures back { HasRun result → OfScene performance (S.left source.old) (S.left source.new)
        (λ scene. AreBack scene (held_by D.batches D.faults disks.old.items)
        (held_by D.batches D.faults disks.new.items)) }
    ensures untouched { HasRefused result → disks.new ≡ disks.old }

    ensures refused { (text : List ℕ) → performance ≡ Performance.Play
        → IsGiven most_scene_bytes (S.left source.old) (S.faults source.old) (S.faults source.new) text
        → ((scene : SceneOf) → ¬ IsScene text scene) → IsRefused result }
    ensures performed { (text : List ℕ) (scene : SceneOf) → performance ≡ Performance.Play
        → IsGiven most_scene_bytes (S.left source.old) (S.faults source.old) (S.faults source.new) text
        → IsScene text scene → IsPerformedStatus result }
    ensures done { (text : List ℕ) (scene : SceneOf) → performance ≡ Performance.Play
        → IsGiven most_scene_bytes (S.left source.old) (S.faults source.old) (S.faults source.new) text
        → IsScene text scene → IsBareScene scene → AsksNoDisk scene → ¬ Rose (K.faults sink.old) (K.faults sink.new)
        → ¬ SomeRose scene (held_by D.batches D.faults disks.new.items) → IsDone result }
    ensures storm_performed { (seed : ℕ) → performance ≡ Performance.Storm seed → IsPerformedStatus result }

    ensures told { Tells (K.holds sink.old) (K.holds sink.new) (K.faults sink.old) (K.faults sink.new) result }
    ensures written { result ≡ Status.Done
        → WroteOf performance (S.left source.old) (S.left source.new)
        (held_by D.batches D.faults disks.new.items) None (Appends (K.holds sink.old) (K.holds sink.new)) }
    ensures write_fault_written { result ≡ Status.WriteFault
        → WroteOf performance (S.left source.old) (S.left source.new)
        (held_by D.batches D.faults disks.new.items) None (WrotePrefix (K.holds sink.old) (K.holds sink.new)) }
    ensures disk_fault_written { (t : TargetId) → result ≡ Status.DiskFault t
        → WroteOf performance (S.left source.old) (S.left source.new)
        (held_by D.batches D.faults disks.new.items) (Some t)
        (WasTold (K.holds sink.old) (K.holds sink.new) (K.faults sink.old) (K.faults sink.new)) }
    ensures memory_written { result ≡ Status.Memory → sink.new ≡ sink.old }
{
    match scene_of(alloc, performance, source) {
        Ok(scene) => perform(alloc, performance, &scene, sink, disks),
        Err(Refusal::ReadFault) => tell(sink, b"read fault\n", Status::ReadFault),
        Err(Refusal::TooLong) => tell(sink, b"too long\n", Status::TooLong),
        Err(Refusal::Bad { line, fault }) => tell_bad(alloc, line, fault, sink),
        Err(Refusal::Memory) => Status::Memory,
    }
}

/// Performs a scenario and writes of its run what the performance wants.
fn perform<K: Sink, D: Disk + Drop>(
    alloc: Global,
    performance: Performance,
    scene: &Scene,
    sink: &mut K,
    disks: &mut Vec<D>,
) -> Status
    requires limits { KeepsLimits scene.now }
    requires fresh { AreFresh (held_by D.batches D.faults disks.old.items) }
    ensures outcome { IsOutcome performance scene.now (held_by D.batches D.faults disks.new.items)
        (K.holds sink.old) (K.holds sink.new) (K.faults sink.old) (K.faults sink.new) result }
    ensures back { HasRun result
        → AreBack scene.now (held_by D.batches D.faults disks.old.items) (held_by D.batches D.faults disks.new.items) }
    ensures done { IsBareScene scene.now → AsksNoDisk scene.now → ¬ Rose (K.faults sink.old) (K.faults sink.new)
        → ¬ SomeRose scene.now (held_by D.batches D.faults disks.new.items) → IsDone result }
    ensures memory { result ≡ Status.Memory → sink.new ≡ sink.old }
{
    match play(alloc, scene, disks) {
        Ok(played) => write(alloc, performance, &played, sink),
        Err(PlayFault::Unforeseen) => tell(sink, b"unforeseen\n", Status::Unforeseen),
        Err(PlayFault::Memory) => Status::Memory,
    }
}

/// Writes of a run what the performance wants. Where a disk failed, that is the answer whatever the sink does.
fn write<K: Sink>(alloc: Global, performance: Performance, played: &Played, sink: &mut K) -> Status
    ensures written { IsWritten performance played.now
        (K.holds sink.old) (K.holds sink.new) (K.faults sink.old) (K.faults sink.new) result }
    ensures memory { result ≡ Status.Memory → sink.new ≡ sink.old }
{
    let text = match text_of(alloc, performance, played) {
        Ok(text) => text,
        Err(Memory) => return Status::Memory,
    };
    let is_whole = write_all(sink, text.as_slice()).is_ok();
    match played.failed {
        Some(target) => Status::DiskFault { target },
        None if is_whole => Status::Done,
        None => Status::WriteFault,
    }
}

/// What a performance wants of a run: the text of its trace and how it ended, or the summary of the trace.
fn text_of(alloc: Global, performance: Performance, played: &Played) -> Result<Bytes, Memory>
    ensures text { IfOk result (λ text. text ≡ text_by performance played.now) }
{
    match performance {
        Performance::Play => render(alloc, &played.trace, played.end),
        Performance::Storm(seed) => summary(alloc, seed, &played.trace),
    }
}
