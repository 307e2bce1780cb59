//! Whole runs of the program, from the words and the bytes to the exit code and what is written.

ghost use Rattle.std.specs.Prelude.{◌≡◌, [], IfOk};
ghost use Rattle.lu_top.specs.Played.{AreFresh};
ghost use Rattle.lu_top.specs.Outcomes.{held_by};

use lu_base::{Bytes, Memory, MemorySink, MemorySource, Numbers};
use lu_disk::MemoryDisk;
use lu_top::{code, run};
use std::alloc::Global;

/// What a run came to: the exit code, and what the sink has.
#[derive(Drop)]
pub struct Outcome {
    pub code: u8,
    pub written: Bytes,
}

/// Performs words on a text, with these calls of the source and of the sink failing; the sink takes
/// one byte a call.
pub fn performed(
    alloc: Global,
    words: &[&str],
    text: &[u8],
    reads: &[u64],
    writes: &[u64],
) -> Result<Outcome, Memory> {
    let sink = MemorySink::new(alloc, 1, numbers(alloc, writes)?);
    performed_by(alloc, words, text, reads, sink, new_disks(alloc, 0, &[])?)
}

/// Performs words on a text where these calls of the disk of a target fail, and these calls of the sink, which
/// takes one byte a call.
pub fn performed_over(
    alloc: Global,
    words: &[&str],
    text: &[u8],
    target: usize,
    failing: &[u64],
    writes: &[u64],
) -> Result<Outcome, Memory> {
    let sink = MemorySink::new(alloc, 1, numbers(alloc, writes)?);
    let disks = new_disks(alloc, target, failing)?;
    performed_by(alloc, words, text, &[], sink, disks)
}

/// Performs a scenario with a sink that takes pieces of 100 bytes, of which these calls fail.
pub fn performed_in_pieces(alloc: Global, text: &[u8], writes: &[u64]) -> Result<Outcome, Memory> {
    let sink = MemorySink::new(alloc, 100, numbers(alloc, writes)?);
    let disks = new_disks(alloc, 0, &[])?;
    performed_by(alloc, &["play"], text, &[], sink, disks)
}

/// Performs words on a text, with these calls of the source failing.
fn performed_by(
    alloc: Global,
    words: &[&str],
    text: &[u8],
    reads: &[u64],
    sink: MemorySink,
    disks: Vec<MemoryDisk>,
) -> Result<Outcome, Memory>
    requires fresh { AreFresh (held_by (λ d. d.batches) (λ d. d.faults) disks.items) }
{
    let mut sink = sink;
    let mut disks = disks;
    let mut line = Vec::new(alloc);
    for word in words {
        line.push(String::from_str(alloc, word)?)?;
    }
    let mut source = MemorySource::new(Bytes::from_slice(alloc, text)?, numbers(alloc, reads)?);
    let status = run(alloc, line.as_slice(), &mut source, &mut sink, &mut disks);
    Ok(Outcome {
        code: code(&status),
        written: Bytes::from_slice(alloc, sink.written())?,
    })
}

/// Nine disks in memory; of that of this target these calls fail.
fn new_disks(alloc: Global, target: usize, failing: &[u64]) -> Result<Vec<MemoryDisk>, Memory>
    ensures fresh { IfOk result (λ disks. AreFresh (held_by (λ d. d.batches) (λ d. d.faults) disks.items)) }
{
    let mut disks = Vec::new(alloc);
    for number in 0..9usize {
        let calls = if number == target { failing } else { &[] };
        disks.push(new_disk(alloc, calls)?)?;
    }
    Ok(disks)
}

/// A disk in memory of which these calls fail.
fn new_disk(alloc: Global, failing: &[u64]) -> Result<MemoryDisk, Memory>
    ensures empty { IfOk result (λ disk. disk.batches ≡ []) }
    ensures calm { IfOk result (λ disk. disk.faults ≡ 0) }
{
    Ok(MemoryDisk::new(alloc, numbers(alloc, failing)?))
}

/// Numbers of calls.
fn numbers(alloc: Global, calls: &[u64]) -> Result<Numbers, Memory> {
    Ok(Numbers::from(Vec::from_slice(alloc, calls)?))
}

/// A text of this many times the same line.
pub fn repeated(alloc: Global, line: &[u8], count: usize) -> Result<Bytes, Memory> {
    let mut text = Bytes::new(alloc);
    for _ in 0..count {
        text.extend(line)?;
    }
    Ok(text)
}
