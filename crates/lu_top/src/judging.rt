//! A trace that is read and judged, and the verdict that is written.

ghost use Rattle.std.specs.Prelude.{◌≡◌, ◌≢◌, ◌⊎◌, ℕ, List, Ok, Err, IfOk};
ghost use Rattle.std.specs.Io.KnownBytes.{Appends};
ghost use Rattle.lu_base.specs.Faults.{Rose, CameMore, WrotePrefix};
ghost use Rattle.lu_trace.specs.declared.traces.Trace.{Trace as TraceOf};
ghost use Rattle.lu_trace.specs.WellFormed.{IsWellFormed};
ghost use Rattle.lu_judge_reader.specs.Reads.{IsFirstBad};
ghost use Rattle.lu_judge.specs.declared.laws.Law.{Law as LawOf};
ghost use Rattle.lu_judge.specs.declared.verdicts.Verdict.{Verdict as VerdictOf};
ghost use Rattle.lu_judge.specs.Verdicts.{IsVerdict};
ghost use Rattle.lu_top.specs.Asked.{most_trace_bytes, WasRead, IsGiven};
ghost use Rattle.lu_top.specs.Outcomes.{Tells};
ghost use Rattle.lu_top.specs.Judged.{IsTextOf, IsNoTrace, verdict_line, WroteVerdictOf, IsTold, IsJudgedStatus, IsVerdictStatus, IsRefusedTrace, IsOfJudging};

use super::refusals::{tell, tell_bad_trace};
use super::status::Status;
use lu_base::{Bytes, Memory, ReadError, Sink, Source, put_number, read_all, write_all};
use lu_judge::{Law, Verdict, judge};
use lu_judge_reader::{ReadFault, read_trace};
use lu_trace::Trace;
use std::alloc::Global;

/// The most bytes that the text of a trace has.
const MOST_TRACE_BYTES: usize = 67108864;

/// Why there is no trace.
#[derive(Clone, Copy, Debug)]
pub(crate) enum NoTrace {
    /// The source failed.
    ReadFault,
    /// The source gave more bytes than the text of a trace has.
    TooLong,
    /// The bytes are no text of a trace: the first line, counted from 1, that no such text has there.
    Bad { line: u64 },
    /// Want of memory.
    Memory,
}

/// Reads the text of a trace from the source, judges the trace and writes the verdict. What the clauses say is what `run` of the
/// crate says of the word.
pub(crate) fn judge_source<S: Source, K: Sink>(
    alloc: Global,
    source: &mut S,
    sink: &mut K,
) -> Status
    ensures lawful { result ≡ Status.Done → WroteVerdictOf (S.left source.old) (S.left source.new) Verdict.Lawful
        (Appends (K.holds sink.old) (K.holds sink.new)) }
    ensures unlawful { (law : LawOf) (line : ℕ) → result ≡ Status.Unlawful law line
        → WroteVerdictOf (S.left source.old) (S.left source.new) (Verdict.Broken law line)
        (Appends (K.holds sink.old) (K.holds sink.new)) }

    ensures some_answer { IsOfJudging result }
    ensures trace { (line : ℕ) → result ≡ Status.Trace line
        → WasRead most_trace_bytes (S.left source.old) (S.left source.new) (λ text. IsFirstBad text line) }
    ensures read_fault { result ≡ Status.ReadFault → Rose (S.faults source.old) (S.faults source.new) }
    ensures too_long { result ≡ Status.TooLong → CameMore (S.left source.old) (S.left source.new) most_trace_bytes }
    ensures write_fault { result ≡ Status.WriteFault → Rose (K.faults sink.old) (K.faults sink.new) }
    ensures source_steady { result ≢ Status.ReadFault → S.faults source.new ≡ S.faults source.old }
    ensures sink_steady { result ≡ Status.Done → K.faults sink.new ≡ K.faults sink.old }
    ensures unlawful_steady { (law : LawOf) (line : ℕ) → result ≡ Status.Unlawful law line
        → K.faults sink.new ≡ K.faults sink.old }

    ensures judged { (text : List ℕ) (trace : TraceOf)
        → IsGiven most_trace_bytes (S.left source.old) (S.faults source.old) (S.faults source.new) text
        → IsTextOf text trace → IsJudgedStatus trace result }
    ensures verdict { (text : List ℕ) (trace : TraceOf)
        → IsGiven most_trace_bytes (S.left source.old) (S.faults source.old) (S.faults source.new) text
        → IsTextOf text trace → ¬ Rose (K.faults sink.old) (K.faults sink.new) → IsVerdictStatus trace result }
    ensures refused_trace { (text : List ℕ)
        → IsGiven most_trace_bytes (S.left source.old) (S.faults source.old) (S.faults source.new) text
        → ((trace : TraceOf) → ¬ IsTextOf text trace) → IsRefusedTrace result }

    ensures told { Tells (K.holds sink.old) (K.holds sink.new) (K.faults sink.old) (K.faults sink.new) result }
    ensures write_fault_written { result ≡ Status.WriteFault → (verdict : VerdictOf)
        × WroteVerdictOf (S.left source.old) (S.left source.new) verdict
        (WrotePrefix (K.holds sink.old) (K.holds sink.new)) }
    ensures memory_written { result ≡ Status.Memory → sink.new ≡ sink.old }
{
    match trace_of(alloc, source) {
        Ok(trace) => tell_verdict(alloc, &trace, sink),
        Err(NoTrace::ReadFault) => tell(sink, b"read fault\n", Status::ReadFault),
        Err(NoTrace::TooLong) => tell(sink, b"too long\n", Status::TooLong),
        Err(NoTrace::Bad { line }) => tell_bad_trace(alloc, line, sink),
        Err(NoTrace::Memory) => Status::Memory,
    }
}

/// The trace whose text the source has.
fn trace_of<S: Source>(alloc: Global, source: &mut S) -> Result<Trace, NoTrace>
    ensures trace { IfOk result (λ trace. WasRead most_trace_bytes (S.left source.old) (S.left source.new)
        (λ text. IsTextOf text trace)) }
    ensures formed { IfOk result IsWellFormed }
    ensures bad { (line : ℕ) → result ≡ Err (NoTrace.Bad line)
        → WasRead most_trace_bytes (S.left source.old) (S.left source.new) (λ text. IsFirstBad text line) }
    ensures too_long { result ≡ Err NoTrace.TooLong
        → CameMore (S.left source.old) (S.left source.new) most_trace_bytes }
    ensures read_fault { result ≡ Err NoTrace.ReadFault → Rose (S.faults source.old) (S.faults source.new) }
    ensures steady { result ≢ Err NoTrace.ReadFault → S.faults source.new ≡ S.faults source.old }
    // Where the source meets no fault, the answer is that of its bytes, unless memory runs out.
    ensures only { (text : List ℕ) (trace : TraceOf)
        → IsGiven most_trace_bytes (S.left source.old) (S.faults source.old) (S.faults source.new) text
        → IsTextOf text trace → (result ≡ Ok trace) ⊎ (result ≡ Err NoTrace.Memory) }
    ensures refused { (text : List ℕ)
        → IsGiven most_trace_bytes (S.left source.old) (S.faults source.old) (S.faults source.new) text
        → ((trace : TraceOf) → ¬ IsTextOf text trace) → IsNoTrace result }
{
    let text = match read_all(alloc, source, MOST_TRACE_BYTES) {
        Ok(text) => text,
        Err(ReadError::ReadFault) => return Err(NoTrace::ReadFault),
        Err(ReadError::TooLong) => return Err(NoTrace::TooLong),
        Err(ReadError::Memory) => return Err(NoTrace::Memory),
    };
    match read_trace(alloc, text.as_slice()) {
        Ok((trace, _)) => Ok(trace),
        Err(ReadFault::Line(line)) => Err(NoTrace::Bad { line }),
        Err(ReadFault::Memory) => Err(NoTrace::Memory),
    }
}

/// Judges a trace and writes the verdict on it.
fn tell_verdict<K: Sink>(alloc: Global, trace: &Trace, sink: &mut K) -> Status
    requires formed { IsWellFormed trace.now }
    ensures told { IsTold trace.now (K.holds sink.old) (K.holds sink.new) (K.faults sink.old)
        (K.faults sink.new) result }
    ensures memory { result ≡ Status.Memory → sink.new ≡ sink.old }
{
    match verdict_on(alloc, trace) {
        Ok(verdict) => write_verdict(alloc, verdict, sink),
        Err(Memory) => Status::Memory,
    }
}

/// The verdict on a trace.
fn verdict_on(alloc: Global, trace: &Trace) -> Result<Verdict, Memory>
    requires formed { IsWellFormed trace.now }
    ensures is { IfOk result (IsVerdict trace.now) }
{
    judge(alloc, trace)
}

/// Writes a verdict.
fn write_verdict<K: Sink>(alloc: Global, verdict: Verdict, sink: &mut K) -> Status
    ensures told { (trace : TraceOf) → IsVerdict trace verdict
        → IsTold trace (K.holds sink.old) (K.holds sink.new) (K.faults sink.old) (K.faults sink.new) result }
    ensures memory { result ≡ Status.Memory → sink.new ≡ sink.old }
{
    let text = match verdict_line(alloc, verdict) {
        Ok(text) => text,
        Err(Memory) => return Status::Memory,
    };
    if write_all(sink, text.as_slice()).is_err() {
        return Status::WriteFault;
    }
    match verdict {
        Verdict::Lawful => Status::Done,
        Verdict::Broken { law, line } => Status::Unlawful { law, line },
    }
}

/// The line of a verdict.
fn verdict_line(alloc: Global, verdict: Verdict) -> Result<Bytes, Memory>
    ensures text { IfOk result (λ text. text ≡ verdict_line verdict) }
{
    match verdict {
        Verdict::Lawful => Bytes::from_slice(alloc, b"lawful\n"),
        Verdict::Broken { law, line } => broken_line(alloc, law, line),
    }
}

/// The line that names the first broken law and the first line that breaks it.
#[tactic(auto, using(std::proofs::Common::append_assoc))]
fn broken_line(alloc: Global, law: Law, line: u64) -> Result<Bytes, Memory>
    ensures text { IfOk result (λ text. text ≡ verdict_line (Verdict.Broken law line)) }
{
    let mut text = Bytes::from_slice(alloc, b"broken ")?;
    text.extend(law.text().as_bytes())?;
    text.push(b' ')?;
    put_number(&mut text, line)?;
    text.push(b'\n')?;
    Ok(text)
}
