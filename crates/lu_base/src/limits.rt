//! Limits that several crates test.

/// The greatest position in a file, and the greatest offset in an object: files and objects end there or below, a tebibyte.
pub const MOST_POSITION: u64 = 1 << 40;

/// The most bytes that one call reads or writes.
pub const MOST_CALL_BYTES: u64 = 65_536;
