//! The summary of a run (this project's profile).

ghost use Rattle.std.specs.Prelude.{◌≡◌, ◌++◌, OnOk, IfOk};
ghost use Rattle.lu_run_summary.specs.Summaries.{begins, count_line, count_of, is_counted, is_failed, same_node, same_turn, summary_text, turns_in};

use lu_base::{At, Bytes, Memory, Node, put_number};
use lu_msg::{Answer, Errno};
use lu_trace::{Entry, Line, Trace};
use std::alloc::Global;

/// What a summary counts.
#[derive(Clone, Copy, Debug)]
enum Counted {
    /// A message was sent.
    Sent,
    /// A call was told.
    Told,
    /// A call was told that its client was evicted.
    Failed,
    /// A transaction was made.
    Made,
    /// A transaction was kept by a recovery.
    Kept,
    /// A life was evicted.
    Evicted,
}

/// The summary of the trace of the storm of this number: a line each for the number, the turns, the messages sent, the
/// calls told, those of them told that the client was evicted, the transactions, those kept by a recovery, and the lives
/// evicted.
pub fn summary(alloc: Global, seed: u64, trace: &Trace) -> Result<Bytes, Memory>
    ensures text { IfOk result (λ text. text ≡ summary_text seed trace.now.entries) }
{
    let lines = trace.entries.as_slice();
    let mut out = Bytes::new(alloc);
    put_count(&mut out, b"seed ", seed)?;
    put_count(&mut out, b"turns ", turns_in(lines))?;
    put_count(&mut out, b"messages ", count(lines, Counted::Sent))?;
    put_count(&mut out, b"told ", count(lines, Counted::Told))?;
    put_count(&mut out, b"eio ", count(lines, Counted::Failed))?;
    put_count(&mut out, b"transactions ", count(lines, Counted::Made))?;
    put_count(&mut out, b"kept ", count(lines, Counted::Kept))?;
    put_count(&mut out, b"evictions ", count(lines, Counted::Evicted))?;
    Ok(out)
}

/// Adds a line: a word with the space after it, and a number.
fn put_count(out: &mut Bytes, word: &[u8], count: u64) -> Result<(), Memory>
    ensures added { OnOk result (out.new ≡ out.old ++ count_line word.now count) }
{
    out.extend(word)?;
    put_number(out, count)?;
    out.push(b'\n')
}

// ---- what is counted

/// How many turns the lines are of: those of a turn stand together.
fn turns_in(lines: &[Line]) -> u64
    ensures count { result ≡ turns_in lines.now }
{
    let mut turns = 0;
    let mut last = None;
    for line in lines {
        if begins(last, line.at) {
            turns += 1;
        }
        last = Some(line.at);
    }
    turns
}

/// Whether a line of this turn begins a turn, where the line before it is of that.
fn begins(last: Option<At>, at: At) -> bool
    ensures begins { result ≡ begins last at }
{
    match last {
        Some(before) => !same_turn(before, at),
        None => true,
    }
}

/// Whether two turns are one.
fn same_turn(a: At, b: At) -> bool
    ensures same { result ≡ same_turn a b }
{
    a.stamp.0 == b.stamp.0 && same_node(a.node, b.node)
}

/// Whether two nodes are one.
fn same_node(a: Node, b: Node) -> bool
    ensures same { result ≡ same_node a b }
{
    match (a, b) {
        (Node::Client(a), Node::Client(b)) => a == b,
        (Node::Target(a), Node::Target(b)) => a == b,
        _ => false,
    }
}

/// How many lines say this.
fn count(lines: &[Line], counted: Counted) -> u64
    ensures count { result ≡ count_of counted lines.now }
{
    let mut count = 0;
    for line in lines {
        if counted.is(&line.entry) {
            count += 1;
        }
    }
    count
}

impl Counted {
    /// Whether an entry says this.
    fn is(self, entry: &Entry) -> bool
        ensures is { result ≡ is_counted self entry.now }
    {
        match self {
            Counted::Sent => matches!(entry, Entry::Send { .. }),
            Counted::Told => matches!(entry, Entry::Told { .. }),
            Counted::Failed => is_failed(entry),
            Counted::Made => matches!(entry, Entry::Txn { .. }),
            Counted::Kept => matches!(entry, Entry::Kept(_)),
            Counted::Evicted => matches!(entry, Entry::Evict { .. }),
        }
    }
}

/// Whether a call is told that its client was evicted.
fn is_failed(entry: &Entry) -> bool
    ensures is { result ≡ is_failed entry.now }
{
    match entry {
        Entry::Told { answer, .. } => matches!(answer, Answer::Refused(Errno::EIO)),
        _ => false,
    }
}
