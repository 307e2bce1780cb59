//! Why a text isn't read.

ghost use Rattle.std.specs.Prelude.{◌≡◌};

use lu_base::Memory;
use std::alloc::AllocError;

/// Why the text of a trace isn't read.
#[derive(Clone, Copy, Debug, PartialEq, Eq)]
pub enum ReadFault {
    /// The first line, counted from 1, that no text of a well formed trace has there.
    Line(u64),
    /// Want of memory.
    Memory,
}

/// Why a line or a part of it isn't read.
#[derive(Clone, Copy, Debug, PartialEq, Eq)]
pub enum LineFault {
    /// It has another form.
    Unread,
    /// Want of memory.
    Memory,
}

impl From<Memory> for LineFault {
    ghost use Rattle.lu_judge_reader.specs.declared.faults.LineFault.TheVariants.{Memory as NoMemory};

    ghost from_gives = { λ _ e. e ≡ NoMemory };

    fn from(_error: Memory) -> LineFault {
        LineFault::Memory
    }
}

impl From<AllocError> for LineFault {
    ghost use Rattle.lu_judge_reader.specs.declared.faults.LineFault.TheVariants.{Memory as NoMemory};

    ghost from_gives = { λ _ e. e ≡ NoMemory };

    fn from(_error: AllocError) -> LineFault {
        LineFault::Memory
    }
}

impl From<Memory> for ReadFault {
    ghost use Rattle.lu_judge_reader.specs.declared.faults.ReadFault.TheVariants.{Memory as NoMemory};

    ghost from_gives = { λ _ e. e ≡ NoMemory };

    fn from(_error: Memory) -> ReadFault {
        ReadFault::Memory
    }
}
