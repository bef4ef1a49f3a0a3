// Why a file of rows is refused.
ghost use Rattle.file_rows.specs.declared.fault.FileFault.TheVariants.{Memory};
ghost use Rattle.std.specs.Prelude.{◌≡◌, ◌⊎◌, ◌+◌};

use desk_model::Memory as OutOfMemory;
use std::alloc::AllocError;
use thiserror::Error;

/// The first fault of a line, in the order in which they are looked for.
#[derive(Clone, Copy, Debug, PartialEq, Eq, Error)]
pub enum LineFault {
    /// It has more than 4,096 bytes.
    #[error("the line has more than 4,096 bytes")]
    LineTooLong,
    /// A byte stands in it that may stand in no line.
    #[error("the line holds a byte that may not stand there")]
    BadByte,
    /// It has not the number of fields of its format.
    #[error("the line has not the right number of fields")]
    BadFieldCount,
    /// A topic, a document or a tag has more than 255 bytes.
    #[error("a name has more than 255 bytes")]
    NameTooLong,
    /// The grade is no whole number from -1,000 to 1,000.
    #[error("the grade is no whole number from -1000 to 1000")]
    BadGrade,
    /// The score is no decimal number.
    #[error("the score is no decimal number")]
    BadScore,
    /// The score has more than 30 digits that count.
    #[error("the score has more than 30 digits")]
    ScoreTooLong,
    /// The score's last digit stands too far from the point.
    #[error("the score is too large or too small")]
    ScoreExponent,
    /// The document stood in this topic before.
    #[error("the document stood in this topic before")]
    RepeatedDocument,
    /// 10,000 other topics stood before.
    #[error("the topic is one too many")]
    TooManyTopics,
    /// 10,000 rows of the topic stood before in this run.
    #[error("the run has too many rows on this topic")]
    TooDeep,
    /// As many rows as may be kept stood before.
    #[error("the row is one too many")]
    TooManyRows,
    /// The document names are longer together than they may be.
    #[error("the document names are too long together")]
    TooManyNameBytes,
}

/// Why a file of rows is refused.
#[derive(Clone, Copy, Debug, PartialEq, Eq, Error)]
pub enum FileFault {
    /// A line has a fault, and no earlier line has one. Lines are numbered from 1, blank ones too.
    #[error("line {line}: {fault}")]
    Line {
        /// The number of the line.
        line: u64,
        /// Its first fault.
        fault: LineFault,
    },
    /// A qrels file has no row.
    #[error("the file has no row")]
    NoTopics,
    /// A run has no name, since none was given and no line gives one.
    #[error("the run has no name")]
    NoTag,
    /// Memory runs out.
    #[error("out of memory")]
    Memory,
}

impl FileFault {
    /// The fault of a line that is too long, after a number of lines. Where these are too many to be counted, memory is said to
    /// run out.
    pub fn too_long(lines: u64) -> FileFault
        ensures { (result ≡ Memory) ⊎ (result ≡ FileFault.Line (lines + 1) LineFault.LineTooLong) }
    {
        if lines == u64::MAX {
            return FileFault::Memory;
        }
        FileFault::Line {
            line: lines + 1,
            fault: LineFault::LineTooLong,
        }
    }
}

impl From<AllocError> for FileFault {
    ghost from_gives = { λ _ e. e ≡ Memory };

    fn from(_: AllocError) -> FileFault {
        FileFault::Memory
    }
}

impl From<OutOfMemory> for FileFault {
    ghost from_gives = { λ _ e. e ≡ Memory };

    fn from(_: OutOfMemory) -> FileFault {
        FileFault::Memory
    }
}
