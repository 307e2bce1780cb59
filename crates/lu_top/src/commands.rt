//! The command line of the process.

ghost use Rattle.std.specs.Prelude.{◌≡◌, ◌⊎◌, ℕ, List, Some, None};
ghost use Rattle.std.specs.Io.KnownBytes.{Appends};
ghost use Rattle.lu_base.specs.Faults.{WrotePrefix};
ghost use Rattle.lu_base.specs.declared.ids.TargetId.{TargetId};
ghost use Rattle.lu_core.specs.Played.{AreFresh, AreBack};
ghost use Rattle.lu_judge.specs.declared.laws.Law.{Law};
ghost use Rattle.lu_judge.specs.declared.verdicts.Verdict.{Verdict};
ghost use Rattle.lu_judge.specs.declared.verdicts.Verdict.TheVariants.{Lawful, Broken};
ghost use Rattle.lu_top.specs.Outcomes.{held_by, WasTold, Tells, WroteBy, OfAsked, HasRun, HasRefused};
ghost use Rattle.lu_top.specs.Judged.{WroteVerdict};
ghost use Rattle.lu_top.specs.Forms.{Says};
ghost use Rattle.lu_top.specs.declared.forms.Form.TheVariants.{Judge};

use super::refusals::tell_usage;
use super::status::Status;
use super::top::run;
use lu_base::{Sink, Source};
use lu_disk::Disk;
use std::env;
use std::io::{self, ErrorKind};
use std::rt::Env;

/// Why the words of the command line aren't known.
#[derive(Clone, Copy)]
enum WordsFault {
    /// One of them isn't UTF-8.
    NotText,
    /// Want of memory.
    Memory,
}

/// Performs the command line of the process, the words after the program's name, by `run`. A word that
/// isn't UTF-8 is none of a form: the answer is `Usage`, and nothing was read.
pub fn run_command<R: Env + AllocGlobal, S: Source, K: Sink, D: Disk + Drop>(
    rt: &R,
    source: &mut S,
    sink: &mut K,
    disks: &mut Vec<D>,
) -> Status
    requires fresh { AreFresh (held_by D.batches D.faults disks.old.items) }
    // What was written is the trace of a run of the scenario that was read, or the summary of one of the storm; and that trace
    // is lawful. Or it is that the trace which was read breaks no law.
    ensures written { result ≡ Status.Done
        → (words : List (List ℕ)) × (WroteBy words (S.left source.old) (S.left source.new)
        (held_by D.batches D.faults disks.new.items) None (Appends (K.holds sink.old) (K.holds sink.new))
        ⊎ WroteVerdict words (S.left source.old) (S.left source.new) Lawful
        (Appends (K.holds sink.old) (K.holds sink.new))) }
    // Or it is the first law that the trace which was read breaks, and the first line that breaks it.
    ensures unlawful { (law : Law) (line : ℕ) → result ≡ Status.Unlawful law line → (words : List (List ℕ))
        × WroteVerdict words (S.left source.old) (S.left source.new) (Broken law line)
        (Appends (K.holds sink.old) (K.holds sink.new)) }
    ensures unread { result ≡ Status.Usage → source.new ≡ source.old }
    ensures back { HasRun result → (words : List (List ℕ)) × (OfAsked words (S.left source.old) (S.left source.new)
        (λ scene. AreBack scene (held_by D.batches D.faults disks.old.items)
        (held_by D.batches D.faults disks.new.items))
        ⊎ (Says words Judge × (disks.new ≡ disks.old))) }
    ensures untouched { HasRefused result → disks.new ≡ disks.old }
    ensures told { Tells (K.holds sink.old) (K.holds sink.new) (K.faults sink.old) (K.faults sink.new) result }
    ensures write_fault_written { result ≡ Status.WriteFault → (words : List (List ℕ))
        × (WroteBy words (S.left source.old) (S.left source.new) (held_by D.batches D.faults disks.new.items) None
        (WrotePrefix (K.holds sink.old) (K.holds sink.new))
        ⊎ ((verdict : Verdict) × WroteVerdict words (S.left source.old) (S.left source.new) verdict
        (WrotePrefix (K.holds sink.old) (K.holds sink.new)))) }
    ensures disk_fault_written { (t : TargetId) → result ≡ Status.DiskFault t → (words : List (List ℕ))
        × WroteBy words (S.left source.old) (S.left source.new)
        (held_by D.batches D.faults disks.new.items) (Some t)
        (WasTold (K.holds sink.old) (K.holds sink.new) (K.faults sink.old) (K.faults sink.new)) }
    ensures memory_written { result ≡ Status.Memory → sink.new ≡ sink.old }
{
    match words_of(rt) {
        Ok(words) => run(rt.alloc(), words.as_slice(), source, sink, disks),
        Err(WordsFault::NotText) => tell_usage(sink),
        Err(WordsFault::Memory) => Status::Memory,
    }
}

/// The words of the command line, without the program's name.
fn words_of<R: Env + AllocGlobal>(rt: &R) -> Result<Vec<String>, WordsFault> {
    let all = match env::args(rt) {
        Ok(all) => all,
        Err(error) => return Err(fault_of(&error)),
    };
    let mut words = Vec::new(rt.alloc());
    for word in all.skip(1) {
        if words.push(word).is_err() {
            return Err(WordsFault::Memory);
        }
    }
    Ok(words)
}

/// Why the words weren't read.
fn fault_of(error: &io::Error) -> WordsFault {
    match error.kind() {
        ErrorKind::InvalidData => WordsFault::NotText,
        _ => WordsFault::Memory,
    }
}
