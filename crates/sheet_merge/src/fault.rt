// Why a sheet is refused, or a merge.
ghost use Rattle.sheet_merge.specs.declared.fault.SheetFault.TheVariants.{Memory};
ghost use Rattle.sheet_merge.specs.declared.fault.MergeFault.TheVariants.{Memory as MergeMemory};
ghost use Rattle.std.specs.Prelude.{◌≡◌, ◌⊎◌, ◌+◌};

use desk_model::Memory as OutOfMemory;
use std::alloc::AllocError;
use thiserror::Error;

/// The first fault of a line of a sheet, in the order in which they are looked for.
#[derive(Clone, Copy, Debug, PartialEq, Eq, Error)]
pub enum SheetLineFault {
    /// It has more than 4,096 bytes.
    #[error("the line has more than 4,096 bytes")]
    LineTooLong,
    /// A byte stands in it that may stand in no line.
    #[error("the line holds a byte that may not stand there")]
    BadByte,
    /// It has not five fields.
    #[error("the line has not five fields")]
    BadFieldCount,
    /// The stamp is no number in digits, without a leading zero, from 1 to 1,000,000,000,000,000,000.
    #[error("the stamp is no number from 1 to 1000000000000000000")]
    BadStamp,
    /// The assessor, the topic or the document has more than 255 bytes.
    #[error("a name has more than 255 bytes")]
    NameTooLong,
    /// The grade is no whole number from -1,000 to 1,000.
    #[error("the grade is no whole number from -1000 to 1000")]
    BadGrade,
    /// 1,000,000 other documents stood before.
    #[error("the document is one too many")]
    TooManyEntries,
}

/// Why a sheet is refused.
#[derive(Clone, Copy, Debug, PartialEq, Eq, Error)]
pub enum SheetFault {
    /// A line has a fault, and no earlier line has one. Lines are numbered from 1, blank ones too.
    #[error("line {line}: {fault}")]
    Line {
        /// The number of the line.
        line: u64,
        /// Its first fault.
        fault: SheetLineFault,
    },
    /// Memory runs out.
    #[error("out of memory")]
    Memory,
}

impl SheetFault {
    /// The fault of a line that is too long, after a number of lines. Where these are too many to be counted, memory is said to
    /// run out.
    pub fn too_long(lines: u64) -> SheetFault
        ensures { (result ≡ Memory) ⊎
            (result ≡ SheetFault.Line (lines + 1) SheetLineFault.LineTooLong) }
    {
        if lines == u64::MAX {
            return SheetFault::Memory;
        }
        SheetFault::Line {
            line: lines + 1,
            fault: SheetLineFault::LineTooLong,
        }
    }
}

impl From<AllocError> for SheetFault {
    ghost from_gives = { λ _ e. e ≡ Memory };

    fn from(_: AllocError) -> SheetFault {
        SheetFault::Memory
    }
}

impl From<OutOfMemory> for SheetFault {
    ghost from_gives = { λ _ e. e ≡ Memory };

    fn from(_: OutOfMemory) -> SheetFault {
        SheetFault::Memory
    }
}

/// Why two sheets are not merged.
#[derive(Clone, Copy, Debug, PartialEq, Eq, Error)]
pub enum MergeFault {
    /// Together they have entries of more than 1,000,000 documents.
    #[error("the sheets have too many entries together")]
    TooManyEntries,
    /// Memory runs out.
    #[error("out of memory")]
    Memory,
}

impl From<AllocError> for MergeFault {
    ghost from_gives = { λ _ e. e ≡ MergeMemory };

    fn from(_: AllocError) -> MergeFault {
        MergeFault::Memory
    }
}
