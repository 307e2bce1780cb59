//! What is read and written through sources and sinks, in memory and of std.

use lu_base::{
    Bytes, Memory, MemorySink, MemorySource, Numbers, ReadError, StdSink, StdSource, read_all,
    write_all,
};
use std::alloc::Global;
use std::test::Fail;

/// How much of two bytes may be read, which call of the source fails, and what comes of it.
const READS: [(usize, u64, Result<(), ReadError>); 3] = [
    (2, 9, Ok(())),
    (1, 9, Err(ReadError::TooLong)),
    (2, 0, Err(ReadError::ReadFault)),
];

/// Reads two bytes of which the call of this number fails.
fn read_two(alloc: Global, limit: usize, failing: u64) -> Result<Bytes, ReadError> {
    let mut source = match source_of(alloc, failing) {
        Ok(source) => source,
        Err(_) => return Err(ReadError::Memory),
    };
    read_all(alloc, &mut source, limit)
}

/// A source of two bytes of which the call of this number fails.
fn source_of(alloc: Global, failing: u64) -> Result<MemorySource, Memory> {
    let failing = Numbers::from(vec![in alloc; failing]?);
    Ok(MemorySource::new(Bytes::from_slice(alloc, b"ab")?, failing))
}

#[test]
fn reads_within_the_limit_and_before_a_fault(rt: HostRuntime) {
    for (limit, failing, outcome) in READS {
        let read = read_two(rt.alloc(), limit, failing);
        assert!(rt; read.map(|_| ()) == outcome, "{limit} {failing}");
    }
}

#[test]
fn writes_a_prefix_before_the_call_that_fails(rt: HostRuntime) -> Result<(), Fail> {
    let alloc = rt.alloc();
    for failing in 0..4u64 {
        let mut sink = MemorySink::new(alloc, 1, Numbers::from(vec![in alloc; failing]?));
        let written = write_all(&mut sink, b"abc");
        assert!(rt; written.is_ok() == (failing == 3));
        assert!(rt; sink.written().len() as u64 == failing);
    }
    Ok(())
}

#[test]
fn reads_from_a_reader_of_std(rt: HostRuntime) -> Result<(), Fail> {
    let mut source = StdSource::new(b"hello".as_slice());
    let whole = read_all(rt.alloc(), &mut source, 5)?;
    assert!(rt; whole.as_slice() == b"hello".as_slice());
    Ok(())
}

#[test]
fn writes_to_a_writer_of_std(rt: HostRuntime) -> Result<(), Fail> {
    let mut written = Vec::new(rt.alloc());
    write_all(&mut StdSink::new(&mut written), b"hello")?;
    assert!(rt; written.as_slice() == b"hello".as_slice());
    Ok(())
}
