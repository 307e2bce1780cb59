//! `lustre_run`: performs a scenario from standard input and writes its trace to standard output, or performs a storm and
//! writes the summary of it, or judges a trace from standard input and writes the verdict.
#![tactic(auto)]

ghost use Rattle.std.specs.Prelude.{◌≡◌, [], IfOk};
ghost use Rattle.lu_top.specs.Played.{AreFresh};
ghost use Rattle.lu_top.specs.Outcomes.{held_by};

use lu_base::{Memory, Numbers, StdSink, StdSource};
use lu_disk::MemoryDisk;
use lu_top::{Status, code, run_command};
use std::alloc::Global;
use std::io;
use std::process::ExitCode;

fn main(rt: HostRuntime) -> ExitCode {
    let mut source = StdSource::new(rt.reader());
    let mut sink = StdSink::new(io::writer(&rt));
    let status = match new_disks(rt.alloc()) {
        Ok(mut disks) => run_command(&rt, &mut source, &mut sink, &mut disks),
        Err(Memory) => Status::Memory,
    };
    ExitCode::from(code(&status))
}

/// Nine disks in memory, of which no call fails.
fn new_disks(alloc: Global) -> Result<Vec<MemoryDisk>, Memory>
    ensures fresh { IfOk result (λ disks. AreFresh (held_by (λ d. d.batches) (λ d. d.faults) disks.items)) }
{
    let mut disks = Vec::new(alloc);
    for _ in 0..9usize {
        disks.push(new_disk(alloc))?;
    }
    Ok(disks)
}

/// A disk in memory, of which no call fails.
fn new_disk(alloc: Global) -> MemoryDisk
    ensures empty { result.batches ≡ [] }
    ensures calm { result.faults ≡ 0 }
{
    MemoryDisk::new(alloc, Numbers::new(alloc))
}
