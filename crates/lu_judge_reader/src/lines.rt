//! Lines, and the last line.

ghost use Rattle.std.specs.Prelude.{◌≡◌, ◌≢◌, ◌≤◌, ◌++◌, ℕ, map, IfOk, IsTrue, ◌↔◌, Ok, Err, Some};
ghost use Rattle.lu_trace.specs.Words.{words};
ghost use Rattle.lu_trace.specs.Entries.{line_text};
ghost use Rattle.lu_trace.specs.Traces.{end_words, osts_words};
ghost use Rattle.lu_trace.specs.WellFormed.{IsLine};
ghost use Rattle.lu_trace.specs.declared.entries.Line.{Line};
ghost use Rattle.lu_trace.specs.declared.traces.End.{End};
ghost use Rattle.lu_judge_reader.specs.Reading.{Gives, Reads};
ghost use Rattle.lu_judge_reader.specs.Entries.{line_reader, said, osts_of, ended_as, end_rest, end_of, behind, only};

use super::entries::entry;
use super::faults::LineFault;
use super::values::number_of;
use super::words::Words;
use lu_base::{At, Bytes, Memory, Stamp, split_at_byte};
use lu_trace::{End, Entries, Line, Trace, render};
use std::alloc::Global;

/// A line of these words.
#[tactic(auto, unfolding(crate::specs::Entries::line_reader))]
fn line(words: &mut Words) -> Result<Line, LineFault>
    ensures read { Reads result words.new (line_reader words.old) }
    ensures fits { IfOk result IsLine }
{
    let stamp = Stamp(words.number()?);
    let node = words.node()?;
    let entry = entry(stamp, words)?;
    Ok(Line {
        at: At { stamp, node },
        entry,
    })
}

/// What a text says where it is that of a line.
#[tactic(auto, unfolding(crate::specs::Entries::said))]
fn said(alloc: Global, text: &[u8]) -> Result<Line, LineFault>
    ensures read { Gives result (said text.now) }
    ensures fits { IfOk result IsLine }
{
    let parts = split_at_byte(alloc, text, b' ')?;
    let mut words = Words::new(alloc, parts.as_slice());
    let line = line(&mut words)?;
    if words.are_read() {
        Ok(line)
    } else {
        Err(LineFault::Unread)
    }
}

/// Whether two texts are the same.
fn are_same(one: &[u8], other: &[u8]) -> bool
    ensures same { IsTrue result ↔ (one.now ≡ other.now) }
{
    one == other
}

/// A line, a line feed, and the last line of a run that is done.
fn framed(alloc: Global, text: &[u8]) -> Result<Bytes, Memory>
    ensures framed { IfOk result (λ all. all ≡ text.now ++ behind) }
{
    let mut all = Bytes::from_slice(alloc, text)?;
    all.extend(b"\nend\n")?;
    Ok(all)
}

/// A trace of this line alone.
fn alone(alloc: Global, line: Line) -> Result<Trace, Memory>
    ensures alone { IfOk result (λ trace. trace ≡ only line) }
{
    let mut entries = Entries::new(alloc);
    entries.push(line)?;
    Ok(Trace { osts: 1, entries })
}

/// The line of a trace of one line.
fn taken(trace: Trace) -> Option<Line>
    ensures line { (line : Line) → trace ≡ only line → result ≡ Some line }
{
    let mut lines = trace.entries.into_vec();
    lines.pop()
}

/// The line, where this is its text.
fn checked(alloc: Global, text: &[u8], line: Line) -> Result<Line, LineFault>
    ensures same { IfOk result (λ checked. (checked ≡ line) × (line_text line ≡ text.now)) }
    ensures other { result ≡ Err LineFault.Unread → line_text line ≢ text.now }
{
    let trace = alone(alloc, line)?;
    let shown = render(alloc, &trace, End::Done)?;
    let wanted = framed(alloc, text)?;
    if !are_same(shown.as_slice(), wanted.as_slice()) {
        return Err(LineFault::Unread);
    }
    match taken(trace) {
        Some(line) => Ok(line),
        None => Err(LineFault::Unread),
    }
}

/// The line whose text this is; `Unread` where it is that of none.
pub fn read_line(alloc: Global, text: &[u8]) -> Result<Line, LineFault>
    ensures read { IfOk result (λ line. IsLine line × (line_text line ≡ text.now)) }
    ensures none { result ≡ Err LineFault.Unread → (line : Line) → IsLine line → line_text line ≢ text.now }
{
    match said(alloc, text) {
        Ok(line) => checked(alloc, text, line),
        Err(fault) => Err(fault),
    }
}

/// The number of object storage targets, which isn't there where it is 1.
fn osts_of(words: &[&[u8]]) -> Result<u16, LineFault>
    ensures read { Gives result (osts_of (map (λ word. word.now) words.now)) }
    ensures some { IfOk result (λ osts. 1 ≤ osts) }
    ensures few { IfOk result (λ osts. osts ≤ 8) }
{
    match words {
        [] => Ok(1),
        [word] => {
            let osts = number_of(word)?;
            if 2 <= osts && osts <= 8 {
                Ok(osts as u16)
            } else {
                Err(LineFault::Unread)
            }
        }
        _ => Err(LineFault::Unread),
    }
}

/// How a run ended, and the number of object storage targets.
fn ended_as(end: End, words: &[&[u8]]) -> Result<(End, u16), LineFault>
    ensures read { Gives result (ended_as end (map (λ word. word.now) words.now)) }
    ensures some { IfOk result (λ last. 1 ≤ last.1) }
    ensures few { IfOk result (λ last. last.1 ≤ 8) }
{
    let osts = osts_of(words)?;
    Ok((end, osts))
}

/// What follows `end`.
fn end_rest(words: &[&[u8]]) -> Result<(End, u16), LineFault>
    ensures read { Gives result (end_rest (map (λ word. word.now) words.now)) }
    ensures some { IfOk result (λ last. 1 ≤ last.1) }
    ensures few { IfOk result (λ last. last.1 ≤ 8) }
{
    let Some((word, rest)) = words.split_first() else {
        return ended_as(End::Done, words);
    };
    if *word == b"limit".as_slice() {
        return ended_as(End::Limit, rest);
    }
    if *word == b"fault".as_slice() {
        return ended_as(End::Fault, rest);
    }
    ended_as(End::Done, words)
}

/// The words of a last line.
fn end_of(words: &[&[u8]]) -> Result<(End, u16), LineFault>
    ensures read { Gives result (end_of (map (λ word. word.now) words.now)) }
    ensures some { IfOk result (λ last. 1 ≤ last.1) }
    ensures few { IfOk result (λ last. last.1 ≤ 8) }
{
    let Some((word, rest)) = words.split_first() else {
        return Err(LineFault::Unread);
    };
    if *word == b"end".as_slice() {
        end_rest(rest)
    } else {
        Err(LineFault::Unread)
    }
}

/// How a run ended of which this is the last line, and the number of object storage targets; `Unread`
/// where it is that of none.
pub fn read_end(alloc: Global, text: &[u8]) -> Result<(End, u16), LineFault>
    ensures read { IfOk result (λ last. words (end_words last.0 ++ osts_words last.1) ≡ text.now) }
    ensures some { IfOk result (λ last. 1 ≤ last.1) }
    ensures few { IfOk result (λ last. last.1 ≤ 8) }
    ensures none { result ≡ Err LineFault.Unread → (end : End) (osts : ℕ) → 1 ≤ osts → osts ≤ 8
        → words (end_words end ++ osts_words osts) ≢ text.now }
{
    let parts = split_at_byte(alloc, text, b' ')?;
    end_of(parts.as_slice())
}
