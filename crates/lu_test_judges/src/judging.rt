//! The verdict on a text, and on one with a line changed.

use lu_base::{Bytes, Memory, split_at_byte};
use lu_judge::{Law, Verdict, judge};
use lu_judge_reader::{ReadFault, read_trace};
use std::alloc::Global;

/// What becomes of a line.
#[derive(Clone, Copy)]
pub enum Change<'a> {
    /// Another stands in its place.
    Replaced(&'a [u8]),
    /// It is left out.
    Removed,
    /// Another is put in before it.
    Inserted(&'a [u8]),
}

/// That this law is broken, at this line.
pub fn broken(law: Law, line: u64) -> Verdict {
    Verdict::Broken { law, line }
}

/// The verdict on the trace of a text.
pub fn judged(alloc: Global, text: &[u8]) -> Result<Verdict, ReadFault> {
    let (trace, _end) = read_trace(alloc, text)?;
    Ok(judge(alloc, &trace)?)
}

/// The verdict on the trace of a text whose line of this number, from 1, is changed.
pub fn judged_with(
    alloc: Global,
    text: &[u8],
    number: usize,
    change: Change<'_>,
) -> Result<Verdict, ReadFault> {
    let made = with_change(alloc, text, number, change)?;
    judged(alloc, made.as_slice())
}

/// A text without empty lines, whose line of this number, from 1, is changed.
fn with_change(
    alloc: Global,
    text: &[u8],
    number: usize,
    change: Change<'_>,
) -> Result<Bytes, Memory> {
    let pieces = split_at_byte(alloc, text, b'\n')?;
    let mut made = Bytes::new(alloc);
    for (place, line) in pieces.as_slice().iter().enumerate() {
        if place + 1 == number {
            put_changed(&mut made, line, change)?;
        } else if !line.is_empty() {
            put_line(&mut made, line)?;
        }
    }
    Ok(made)
}

/// What becomes of a line, put behind a text.
fn put_changed(made: &mut Bytes, line: &[u8], change: Change<'_>) -> Result<(), Memory> {
    match change {
        Change::Replaced(other) => put_line(made, other),
        Change::Removed => Ok(()),
        Change::Inserted(other) => {
            put_line(made, other)?;
            put_line(made, line)
        }
    }
}

/// A line and its line feed, put behind a text.
fn put_line(made: &mut Bytes, line: &[u8]) -> Result<(), Memory> {
    made.extend(line)?;
    made.push(b'\n')
}
