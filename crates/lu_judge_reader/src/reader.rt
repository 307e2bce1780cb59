//! The text of a trace, read line by line.

ghost use Rattle.std.specs.Prelude.{◌≡◌, ◌⊎◌, ◌+◌, ◌<◌, ◌^◌, ◌++◌, ◌↔◌, [], ℕ, All, map, IfOk, IsTrue, Ok, Err};
ghost use Rattle.lu_trace.specs.declared.traces.Trace.{Trace};
ghost use Rattle.lu_trace.specs.declared.traces.End.{End};
ghost use Rattle.lu_trace.specs.Traces.{trace_text};
ghost use Rattle.lu_trace.specs.WellFormed.{IsWellFormed};
ghost use Rattle.lu_judge_reader.specs.Reads.{IsFirstBad, HasNoFeed, unlines, IsOutcome, closed};

use super::faults::{LineFault, ReadFault};
use super::lines::{read_end, read_line};
use lu_base::split_at_byte;
use lu_trace::{End, Entries, Trace};
use std::alloc::Global;

/// The well formed trace whose text this is, and how its run ended. `Line` names the first line, from 1,
/// that no text of a well formed trace has there; a line that is missing counts as the one after the
/// last, and so does what follows the last line feed.
pub fn read_trace(alloc: Global, text: &[u8]) -> Result<(Trace, End), ReadFault>
    // What is read is a well formed trace of this text.
    ensures read { IfOk result (λ r. IsWellFormed r.0 × (trace_text r.0 r.1 ≡ text.now)) }
    // A well formed trace is read, unless memory runs out.
    ensures only { (trace : Trace) (end : End) → IsWellFormed trace → trace_text trace end ≡ text.now
        → (result ≡ Ok (trace, end)) ⊎ (result ≡ Err ReadFault.Memory) }
    // What is wrong is the first bad line.
    ensures bad { (n : ℕ) → result ≡ Err (ReadFault.Line n) → IsFirstBad text.now n }
{
    read_text(alloc, text)
}

/// The same, in one clause.
fn read_text(alloc: Global, text: &[u8]) -> Result<(Trace, End), ReadFault>
    ensures outcome { IsOutcome text.now result }
{
    let pieces = match split_at_byte(alloc, text, b'\n') {
        Ok(pieces) => pieces,
        Err(_) => return Err(ReadFault::Memory),
    };
    match pieces.as_slice().split_last() {
        Some((last, lines)) => read_lines(alloc, lines, last),
        None => Err(ReadFault::Line(1)),
    }
}

/// The same, of the lines that are ended by a line feed, and of what follows the last line feed.
fn read_lines(alloc: Global, lines: &[&[u8]], last: &[u8]) -> Result<(Trace, End), ReadFault>
    requires lines { All HasNoFeed (map (λ line. line.now) lines.now) }
    requires last { HasNoFeed last.now }
    ensures outcome { IsOutcome (unlines (map (λ line. line.now) lines.now) ++ last.now) result }
{
    let mut entries = Entries::new(alloc);
    for (place, text) in lines.iter().enumerate() {
        match read_line(alloc, text) {
            Ok(line) => match entries.push(line) {
                Ok(()) => {}
                Err(_) => return Err(ReadFault::Memory),
            },
            Err(LineFault::Memory) => return Err(ReadFault::Memory),
            Err(LineFault::Unread) => {
                let is_last = is_last(lines.len(), place, last);
                return close(entries, is_last, place, read_end(alloc, text));
            }
        }
    }
    Err(ReadFault::Line(lines.len() as u64 + 1))
}

/// Whether the line at this place is the last of so many, and nothing follows it.
fn is_last(count: usize, place: usize, last: &[u8]) -> bool
    requires place { place < 2 ^ 63 }
    ensures last { IsTrue result ↔ ((place + 1 ≡ count) × (last.now ≡ [])) }
{
    place + 1 == count && last.is_empty()
}

/// The answer, where all lines before this place are read, and the line there is no entry's.
fn close(
    entries: Entries,
    is_last: bool,
    place: usize,
    end: Result<(End, u16), LineFault>,
) -> Result<(Trace, End), ReadFault>
    requires place { place < 2 ^ 63 }
    ensures closed { result ≡ closed entries is_last place end }
{
    match end {
        Ok((end, osts)) => {
            if is_last {
                Ok((Trace { osts, entries }, end))
            } else {
                Err(ReadFault::Line(place as u64 + 2))
            }
        }
        Err(LineFault::Memory) => Err(ReadFault::Memory),
        Err(LineFault::Unread) => Err(ReadFault::Line(place as u64 + 1)),
    }
}
