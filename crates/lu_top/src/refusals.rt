//! The lines that say why nothing is performed or judged.

ghost use Rattle.std.specs.Prelude.{◌≡◌, ◌⊎◌, IfOk};
ghost use Rattle.lu_top.specs.Refusals.{usage_text, bad_text, bad_trace_text};
ghost use Rattle.lu_top.specs.Outcomes.{WasTold};

use super::status::Status;
use lu_base::{Bytes, Memory, Sink, put_number, write_all};
use lu_scene::Fault;
use std::alloc::Global;

/// The forms of a command line.
const USAGE: &[u8] = b"usage: play, threads, storm N or judge\n";

/// Writes the line that names the forms of a command line.
pub(crate) fn tell_usage<K: Sink>(sink: &mut K) -> Status
    ensures status { result ≡ Status.Usage }
    ensures told { WasTold (K.holds sink.old) (K.holds sink.new) (K.faults sink.old) (K.faults sink.new) usage_text }
{
    tell(sink, USAGE, Status::Usage)
}

/// Writes a line, and answers the status whatever comes of it.
pub(crate) fn tell<K: Sink>(sink: &mut K, line: &[u8], status: Status) -> Status
    ensures status { result ≡ status }
    ensures told { WasTold (K.holds sink.old) (K.holds sink.new) (K.faults sink.old) (K.faults sink.new) line.now }
{
    let _ = write_all(sink, line);
    status
}

/// Writes that a text is no scenario.
pub(crate) fn tell_bad<K: Sink>(alloc: Global, line: u64, fault: Fault, sink: &mut K) -> Status
    ensures status { (result ≡ Status.Scene line fault) ⊎ (result ≡ Status.Memory) }
    ensures told { result ≡ Status.Scene line fault
        → WasTold (K.holds sink.old) (K.holds sink.new) (K.faults sink.old) (K.faults sink.new)
        (bad_text line fault) }
    ensures memory { result ≡ Status.Memory → sink.new ≡ sink.old }
{
    match bad_text(alloc, line, fault) {
        Ok(text) => tell(sink, text.as_slice(), Status::Scene { line, fault }),
        Err(Memory) => Status::Memory,
    }
}

/// Writes that a text is none of a trace.
pub(crate) fn tell_bad_trace<K: Sink>(alloc: Global, line: u64, sink: &mut K) -> Status
    ensures status { (result ≡ Status.Trace line) ⊎ (result ≡ Status.Memory) }
    ensures told { result ≡ Status.Trace line
        → WasTold (K.holds sink.old) (K.holds sink.new) (K.faults sink.old) (K.faults sink.new)
        (bad_trace_text line) }
    ensures memory { result ≡ Status.Memory → sink.new ≡ sink.old }
{
    match bad_trace_text(alloc, line) {
        Ok(text) => tell(sink, text.as_slice(), Status::Trace { line }),
        Err(Memory) => Status::Memory,
    }
}

/// The line that says that a text is no scenario.
#[tactic(auto, using(std::proofs::Common::append_assoc))]
fn bad_text(alloc: Global, line: u64, fault: Fault) -> Result<Bytes, Memory>
    ensures text { IfOk result (λ text. text ≡ bad_text line fault) }
{
    let mut text = Bytes::from_slice(alloc, b"scene ")?;
    put_number(&mut text, line)?;
    text.push(b' ')?;
    text.extend(fault.text().as_bytes())?;
    text.push(b'\n')?;
    Ok(text)
}

/// The line that says that a text is none of a trace.
#[tactic(auto, using(std::proofs::Common::append_assoc))]
fn bad_trace_text(alloc: Global, line: u64) -> Result<Bytes, Memory>
    ensures text { IfOk result (λ text. text ≡ bad_trace_text line) }
{
    let mut text = Bytes::from_slice(alloc, b"trace ")?;
    put_number(&mut text, line)?;
    text.push(b'\n')?;
    Ok(text)
}
