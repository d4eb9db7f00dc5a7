//! Faults of texts and of their lines.
ghost use Rattle.std.specs.Prelude.{◌≡◌};

use sv_prim::NoMemory;
use thiserror::Error;

/// Why a text was not read as a workload.
#[derive(Clone, Copy, Debug, PartialEq, Eq, Error)]
pub enum WorkFault {
    /// This line, counted from 1, is the first with a fault, and the reason says which (1 to 10).
    #[error("workload line {line} reason {reason}")]
    Line { line: u32, reason: u8 },
    /// There was too little memory for the workload.
    #[error("no memory")]
    NoMemory,
}

/// What is wrong with a line.
#[derive(Clone, Copy, Debug, PartialEq, Eq)]
pub enum LineFault {
    /// No keyword stands where it should.
    UnknownWord,
    /// A word is missing, empty or too many.
    Shape,
    /// A word that should be a number is none, or is out of its range.
    Number,
    /// A setting, or a task's identifier, stands a second time.
    Repeated,
    /// It is one more than there may be.
    TooMany,
    /// An identifier would lose low bits as it is shrunk.
    Unaligned,
    /// It stands in another part of the text than its own.
    Misplaced,
    /// A text is too long, or has a byte that can't be printed.
    BadText,
    /// It names a writer that there isn't.
    NoSuchWriter,
    /// No identifiers are left for the events of a module.
    ModuleFull,
}

impl LineFault {
    ghost use Rattle.sv_workload.specs.Reason.{reason_of};

    /// The fault's number, from 1 to 10, as it is printed.
    pub fn reason(self) -> u8
        ensures { result ≡ reason_of self }
    {
        match self {
            LineFault::UnknownWord => 1,
            LineFault::Shape => 2,
            LineFault::Number => 3,
            LineFault::Repeated => 4,
            LineFault::TooMany => 5,
            LineFault::Unaligned => 6,
            LineFault::Misplaced => 7,
            LineFault::BadText => 8,
            LineFault::NoSuchWriter => 9,
            LineFault::ModuleFull => 10,
        }
    }
}

impl From<NoMemory> for WorkFault {
    ghost use Rattle.sv_workload.specs.declared.fault.WorkFault.{WorkFault};

    ghost from_gives = { λ e w. w ≡ WorkFault.NoMemory };

    fn from(_e: NoMemory) -> WorkFault {
        WorkFault::NoMemory
    }
}
