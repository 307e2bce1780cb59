//! The top call.

ghost use Rattle.std.specs.Prelude.{◌≡◌, ◌≢◌, ◌↔◌, ◌⊎◌, ℕ, List, map, string_bytes, Some, None};
ghost use Rattle.std.specs.Io.KnownBytes.{Appends};
ghost use Rattle.lu_base.specs.Faults.{Rose, CameMore, WrotePrefix};
ghost use Rattle.lu_base.specs.declared.ids.TargetId.{TargetId};
ghost use Rattle.lu_scene.specs.Lines.{lines_of};
ghost use Rattle.lu_scene.specs.Grammar.{IsScene, IsFirstFault};
ghost use Rattle.lu_scene.specs.declared.scene.Scene.{Scene};
ghost use Rattle.lu_scene.specs.declared.faults.Fault.{Fault};
ghost use Rattle.lu_trace.specs.declared.traces.Trace.{Trace};
ghost use Rattle.lu_judge_reader.specs.Reads.{IsFirstBad};
ghost use Rattle.lu_judge.specs.declared.laws.Law.{Law};
ghost use Rattle.lu_judge.specs.declared.verdicts.Verdict.{Verdict};
ghost use Rattle.lu_judge.specs.declared.verdicts.Verdict.TheVariants.{Lawful, Broken};
ghost use Rattle.lu_core.specs.Quiet.{IsBareScene, AsksNoDisk};
ghost use Rattle.lu_core.specs.Played.{AreFresh, AreBack, SomeRose};
ghost use Rattle.lu_top.specs.declared.forms.Form.{Form as FormOf};
ghost use Rattle.lu_top.specs.declared.forms.Performance.TheVariants.{Play, Storm};
ghost use Rattle.lu_top.specs.Forms.{Says, SaysNothing};
ghost use Rattle.lu_top.specs.Asked.{most_scene_bytes, most_trace_bytes, most_bytes, WasRead, IsGiven};
ghost use Rattle.lu_top.specs.Outcomes.{held_by, WasTold, Tells, WroteBy, OfAsked, HasFailed, WroteRun, WroteStorm, HasRun, HasRefused, IsDone, IsRefused, IsPerformedStatus};
ghost use Rattle.lu_top.specs.Judged.{IsTextOf, WroteVerdictOf, WroteVerdict, IsJudgedStatus, IsVerdictStatus, IsRefusedTrace, IsOfJudging};

use super::forms::{Form, read_form};
use super::judging::judge_source;
use super::performing::perform_asked;
use super::refusals::tell_usage;
use super::status::Status;
use lu_base::{Memory, Sink, Source};
use lu_disk::Disk;
use std::alloc::Global;

/// Performs the command line over nine disks, those of the targets in their order, each of which is empty: under `play`
/// reads a scenario, performs it and writes its trace; under `storm N` performs the storm of the number N and writes the
/// summary of its trace; under `judge` reads a trace and writes the verdict on it.
pub fn run<S: Source, K: Sink, D: Disk + Drop>(
    alloc: Global,
    words: &[String],
    source: &mut S,
    sink: &mut K,
    disks: &mut Vec<D>,
) -> Status
    requires fresh { AreFresh (held_by D.batches D.faults disks.old.items) }
    // What was written is the trace of a run of the scenario that was read, or the summary of one of the storm; and that trace
    // is lawful.
    ensures run { result ≡ Status.Done → Says (map string_bytes words.now) (Form.Perform Play)
        → WasRead most_scene_bytes (S.left source.old) (S.left source.new)
        (WroteRun (K.holds sink.old) (K.holds sink.new) (held_by D.batches D.faults disks.new.items)) }
    ensures storm { (seed : ℕ) → result ≡ Status.Done → Says (map string_bytes words.now) (Form.Perform (Storm seed))
        → WroteStorm (K.holds sink.old) (K.holds sink.new) (held_by D.batches D.faults disks.new.items) seed }
    // Or it is the verdict on the trace that was read: that it breaks no law, or the first broken law and the first line that breaks it.
    ensures lawful { result ≡ Status.Done → Says (map string_bytes words.now) Form.Judge
        → WroteVerdictOf (S.left source.old) (S.left source.new) Lawful
        (Appends (K.holds sink.old) (K.holds sink.new)) }
    ensures unlawful { (law : Law) (line : ℕ) → result ≡ Status.Unlawful law line
        → WroteVerdict (map string_bytes words.now) (S.left source.old) (S.left source.new) (Broken law line)
        (Appends (K.holds sink.old) (K.holds sink.new)) }

    // When each answer comes.
    ensures usage { (result ≡ Status.Usage) ↔ SaysNothing (map string_bytes words.now) }
    ensures unread { result ≡ Status.Usage → source.new ≡ source.old }
    ensures storm_unread { (seed : ℕ) → Says (map string_bytes words.now) (Form.Perform (Storm seed))
        → source.new ≡ source.old }
    ensures read_fault { result ≡ Status.ReadFault → Rose (S.faults source.old) (S.faults source.new) }
    ensures too_long { result ≡ Status.TooLong → (form : FormOf) × Says (map string_bytes words.now) form
        × CameMore (S.left source.old) (S.left source.new) (most_bytes form) }
    ensures scene { (line : ℕ) (fault : Fault) → result ≡ Status.Scene line fault
        → WasRead most_scene_bytes (S.left source.old) (S.left source.new)
        (λ text. IsFirstFault (lines_of text) line fault) }
    ensures trace { (line : ℕ) → result ≡ Status.Trace line → Says (map string_bytes words.now) Form.Judge
        × WasRead most_trace_bytes (S.left source.old) (S.left source.new) (λ text. IsFirstBad text line) }
    ensures disk_fault { (t : TargetId) → result ≡ Status.DiskFault t
        → OfAsked (map string_bytes words.now) (S.left source.old) (S.left source.new)
        (HasFailed (held_by D.batches D.faults disks.new.items) t) }
    ensures write_fault { result ≡ Status.WriteFault → Rose (K.faults sink.old) (K.faults sink.new) }
    // Unless the source failed, its count of faults stays; so does the count of a sink that took all of a trace, a summary or a verdict.
    ensures source_steady { result ≢ Status.ReadFault → S.faults source.new ≡ S.faults source.old }
    ensures sink_steady { result ≡ Status.Done → K.faults sink.new ≡ K.faults sink.old }
    ensures unlawful_steady { (law : Law) (line : ℕ) → result ≡ Status.Unlawful law line
        → K.faults sink.new ≡ K.faults sink.old }
    // After a run the disks stand again in their order; where nothing was performed they are as they were.
    ensures back { HasRun result → OfAsked (map string_bytes words.now) (S.left source.old) (S.left source.new)
        (λ scene. AreBack scene (held_by D.batches D.faults disks.old.items)
        (held_by D.batches D.faults disks.new.items))
        ⊎ (Says (map string_bytes words.now) Form.Judge × (disks.new ≡ disks.old)) }
    ensures untouched { HasRefused result → disks.new ≡ disks.old }
    ensures judge_untouched { Says (map string_bytes words.now) Form.Judge → disks.new ≡ disks.old }

    // Where no fault comes and memory suffices, the answer is that of the bytes. Whatever comes, under `judge` it is one of its own.
    ensures refused { (text : List ℕ) → Says (map string_bytes words.now) (Form.Perform Play)
        → IsGiven most_scene_bytes (S.left source.old) (S.faults source.old) (S.faults source.new) text
        → ((scene : Scene) → ¬ IsScene text scene) → IsRefused result }
    ensures performed { (text : List ℕ) (scene : Scene) → Says (map string_bytes words.now) (Form.Perform Play)
        → IsGiven most_scene_bytes (S.left source.old) (S.faults source.old) (S.faults source.new) text
        → IsScene text scene → IsPerformedStatus result }
    ensures done { (text : List ℕ) (scene : Scene) → Says (map string_bytes words.now) (Form.Perform Play)
        → IsGiven most_scene_bytes (S.left source.old) (S.faults source.old) (S.faults source.new) text
        → IsScene text scene → IsBareScene scene → AsksNoDisk scene → ¬ Rose (K.faults sink.old) (K.faults sink.new)
        → ¬ SomeRose scene (held_by D.batches D.faults disks.new.items) → IsDone result }
    ensures storm_performed { (seed : ℕ) → Says (map string_bytes words.now) (Form.Perform (Storm seed))
        → IsPerformedStatus result }
    ensures judge_answers { Says (map string_bytes words.now) Form.Judge → IsOfJudging result }
    ensures refused_trace { (text : List ℕ) → Says (map string_bytes words.now) Form.Judge
        → IsGiven most_trace_bytes (S.left source.old) (S.faults source.old) (S.faults source.new) text
        → ((trace : Trace) → ¬ IsTextOf text trace) → IsRefusedTrace result }
    ensures judged { (text : List ℕ) (trace : Trace) → Says (map string_bytes words.now) Form.Judge
        → IsGiven most_trace_bytes (S.left source.old) (S.faults source.old) (S.faults source.new) text
        → IsTextOf text trace → IsJudgedStatus trace result }
    ensures verdict { (text : List ℕ) (trace : Trace) → Says (map string_bytes words.now) Form.Judge
        → IsGiven most_trace_bytes (S.left source.old) (S.faults source.old) (S.faults source.new) text
        → IsTextOf text trace → ¬ Rose (K.faults sink.old) (K.faults sink.new) → IsVerdictStatus trace result }

    // What stands in the sink then. A line of a refusal may be cut off by a fault; its status stays.
    ensures told { Tells (K.holds sink.old) (K.holds sink.new) (K.faults sink.old) (K.faults sink.new) result }
    ensures written { result ≡ Status.Done
        → WroteBy (map string_bytes words.now) (S.left source.old) (S.left source.new)
        (held_by D.batches D.faults disks.new.items) None
        (Appends (K.holds sink.old) (K.holds sink.new))
        ⊎ WroteVerdict (map string_bytes words.now) (S.left source.old) (S.left source.new) Lawful
        (Appends (K.holds sink.old) (K.holds sink.new)) }
    ensures write_fault_written { result ≡ Status.WriteFault
        → WroteBy (map string_bytes words.now) (S.left source.old) (S.left source.new)
        (held_by D.batches D.faults disks.new.items) None
        (WrotePrefix (K.holds sink.old) (K.holds sink.new))
        ⊎ ((verdict : Verdict) × WroteVerdict (map string_bytes words.now) (S.left source.old)
        (S.left source.new) verdict
        (WrotePrefix (K.holds sink.old) (K.holds sink.new))) }
    ensures disk_fault_written { (t : TargetId) → result ≡ Status.DiskFault t
        → WroteBy (map string_bytes words.now) (S.left source.old) (S.left source.new)
        (held_by D.batches D.faults disks.new.items) (Some t)
        (WasTold (K.holds sink.old) (K.holds sink.new) (K.faults sink.old) (K.faults sink.new)) }
    ensures memory_written { result ≡ Status.Memory → sink.new ≡ sink.old }
{
    match read_form(alloc, words) {
        Ok(Some(Form::Perform(performance))) => {
            perform_asked(alloc, performance, source, sink, disks)
        }
        Ok(Some(Form::Judge)) => judge_source(alloc, source, sink),
        Ok(None) => tell_usage(sink),
        Err(Memory) => Status::Memory,
    }
}
