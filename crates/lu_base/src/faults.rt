//! Why calls fail.

ghost use Rattle.std.specs.Prelude.{◌≡◌};

use std::alloc::{AllocError, AllocFailed};

/// Want of memory. A call that answers it leaves its object as it was, unless the call says otherwise.
#[derive(Clone, Copy, Debug, PartialEq, Eq)]
pub struct Memory;

impl From<AllocError> for Memory {
    fn from(_error: AllocError) -> Memory {
        Memory
    }
}

impl<T: Drop> From<AllocFailed<T>> for Memory {
    fn from(_error: AllocFailed<T>) -> Memory {
        Memory
    }
}

/// A source or a sink failed, and its count of faults rose in that call.
#[derive(Clone, Copy, Debug, PartialEq, Eq)]
pub struct Failed;

/// Why not all of a source was read.
#[derive(Clone, Copy, Debug, PartialEq, Eq)]
pub enum ReadError {
    /// The source failed; its count of faults rose.
    ReadFault,
    /// More bytes came than the limit.
    TooLong,
    /// Want of memory.
    Memory,
}

impl ReadError {
    ghost use Rattle.lu_base.specs.Errors.{read_error_text};

    /// The same in words.
    pub fn text(self) -> &'static str
        ensures text { result.now ≡ read_error_text self }
    {
        match self {
            ReadError::ReadFault => "read fault",
            ReadError::TooLong => "too long",
            ReadError::Memory => "out of memory",
        }
    }
}
