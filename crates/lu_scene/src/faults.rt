//! What is wrong with a scenario.

ghost use Rattle.std.specs.Prelude.{◌≡◌};

use lu_base::Memory;
use std::alloc::AllocError;
use std::error::Error;
use std::fmt;

/// What is wrong with a line. A line is looked at in this order: its bytes, its first word (`UnknownLine`),
/// whether a line of the head may stand there, the number of words, then word by word.
#[derive(Clone, Copy, Debug, PartialEq, Eq)]
pub enum Fault {
    /// The line has a byte outside 32 to 126, or more than 2,000 bytes.
    Line,
    /// No line begins with this word.
    UnknownLine,
    /// There is no call of this name.
    UnknownCall,
    /// A line of the head stands twice, or after a line of another kind.
    Header,
    /// The line has too few or too many words.
    Fields,
    /// A word is no number, or none in its range, or a file position is past 2^40.
    Number,
    /// A word names no node, no slot, or none that this scenario has.
    Node,
    /// A word is no path.
    Path,
    /// A word is no data.
    Data,
}

impl Fault {
    ghost use Rattle.lu_scene.specs.Faults.{fault_text};

    /// The name of the fault.
    pub fn text(self) -> &'static str
        ensures name { result.now ≡ fault_text self }
    {
        match self {
            Fault::Line => "Line",
            Fault::UnknownLine => "UnknownLine",
            Fault::UnknownCall => "UnknownCall",
            Fault::Header => "Header",
            Fault::Fields => "Fields",
            Fault::Number => "Number",
            Fault::Node => "Node",
            Fault::Path => "Path",
            Fault::Data => "Data",
        }
    }
}

impl fmt::Display for Fault {
    ghost use Rattle.std.specs.Prelude.{Some};
    ghost use Rattle.lu_scene.specs.Faults.{fault_text};

    ghost output = { λ fault. Some (fault_text fault) };

    fn fmt<W: fmt::Write>(&self, f: &mut fmt::Formatter<W>) -> fmt::Result {
        f.write_str(self.text())
    }
}

impl Error for Fault {}

/// Why a text was not read as a scenario.
#[derive(Clone, Copy, Debug, PartialEq, Eq)]
pub enum SceneFault {
    /// The first line that is wrong, counted from 1, and what is wrong with it.
    Bad { line: u64, fault: Fault },
    /// Want of memory.
    Memory,
}

impl fmt::Display for SceneFault {
    ghost use Rattle.std.specs.Prelude.{Some};
    ghost use Rattle.lu_scene.specs.Faults.{scene_fault_text};

    ghost output = { λ fault. Some (scene_fault_text fault) };

    fn fmt<W: fmt::Write>(&self, f: &mut fmt::Formatter<W>) -> fmt::Result {
        match self {
            SceneFault::Bad { line, fault } => write!(f, "scene {line} {fault}"),
            SceneFault::Memory => write!(f, "out of memory"),
        }
    }
}

impl Error for SceneFault {}

/// Why a line was not read.
#[derive(Clone, Copy, Debug, PartialEq, Eq)]
pub enum LineError {
    /// Want of memory.
    Memory,
    /// What is wrong with the line.
    Bad(Fault),
}

impl LineError {
    ghost use Rattle.lu_scene.specs.Ends.{on_line};

    /// The same, at the line of this number.
    pub fn on_line(self, line: u64) -> SceneFault
        ensures fault { result ≡ on_line line self }
    {
        match self {
            LineError::Memory => SceneFault::Memory,
            LineError::Bad(fault) => SceneFault::Bad { line, fault },
        }
    }
}

impl From<AllocError> for SceneFault {
    ghost use Rattle.lu_scene.specs.declared.faults.SceneFault.TheVariants.{Memory as NoMemory};

    ghost from_gives = { λ _ e. e ≡ NoMemory };

    fn from(_error: AllocError) -> SceneFault {
        SceneFault::Memory
    }
}

impl From<Memory> for LineError {
    ghost use Rattle.lu_scene.specs.declared.faults.LineError.TheVariants.{Memory as NoMemory};

    ghost from_gives = { λ _ e. e ≡ NoMemory };

    fn from(_error: Memory) -> LineError {
        LineError::Memory
    }
}

impl From<AllocError> for LineError {
    ghost use Rattle.lu_scene.specs.declared.faults.LineError.TheVariants.{Memory as NoMemory};

    ghost from_gives = { λ _ e. e ≡ NoMemory };

    fn from(_error: AllocError) -> LineError {
        LineError::Memory
    }
}
