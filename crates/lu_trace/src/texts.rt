//! The text of a trace. Each function below here appends one text; after want of memory a part of it
//! may stand.

ghost use Rattle.std.specs.Prelude.{◌≡◌, ◌++◌, ◌∷◌, [], List, map, IfOk, OnOk, decimal};
ghost use Rattle.lu_trace.specs.Words.{words};
ghost use Rattle.lu_trace.specs.Entries.{line_text};
ghost use Rattle.lu_trace.specs.Traces.{end_words, osts_words, ended, lines_text, trace_text};

mod answers;
mod calls;
mod entries;
mod lists;
mod messages;
mod operations;
mod values;
mod words;

use super::entries::Line;
use super::traces::{End, Trace};
pub use calls::put_call;
use entries::put_line;
use lu_base::{Bytes, Memory};
use std::alloc::Global;
pub use words::{put_with_number, then_number};

/// The text of a trace and of how its run ended: a line for each entry, in order, and a last one.
pub fn render(alloc: Global, trace: &Trace, end: End) -> Result<Bytes, Memory>
    ensures text { IfOk result (λ text. text ≡ trace_text trace.now end) }
{
    let mut out = Bytes::new(alloc);
    put_lines(&mut out, trace.entries.as_slice())?;
    put_end(&mut out, end, trace.osts)?;
    Ok(out)
}

/// Lines.
fn put_lines(out: &mut Bytes, lines: &[Line]) -> Result<(), Memory>
    ensures put { OnOk result (out.new ≡ out.old ++ lines_text lines.now) }
{
    for line in lines {
        put_ended(out, line)?;
    }
    Ok(())
}

/// A line and its line feed.
fn put_ended(out: &mut Bytes, line: &Line) -> Result<(), Memory>
    ensures put { OnOk result (out.new ≡ out.old ++ ended (line_text line.now)) }
{
    put_line(out, line)?;
    out.push(b'\n')
}

/// The last line and its line feed.
fn put_end(out: &mut Bytes, end: End, osts: u16) -> Result<(), Memory>
    ensures put { OnOk result (out.new ≡ out.old ++ ended (words (end_words end ++ osts_words osts))) }
{
    match end {
        End::Done => out.extend(b"end")?,
        End::Limit => out.extend(b"end limit")?,
        End::Fault => out.extend(b"end fault")?,
    }
    if osts != 1 {
        then_number(out, u64::from(osts))?;
    }
    out.push(b'\n')
}
