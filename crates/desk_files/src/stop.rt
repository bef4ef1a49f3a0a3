// Why a command stops before it prints.
ghost use Rattle.std.specs.Prelude.{◌≡◌};
ghost use Rattle.desk_files.specs.declared.stop.Stop.TheVariants.{Memory};

use desk_model::Memory as NoMemory;
use file_rows::LineFault;
use sheet_merge::SheetLineFault;
use std::alloc::AllocError;

/// Why files are refused.
#[derive(Drop)]
pub enum Refusal<'a> {
    /// The file of this path has more bytes than it may.
    FileTooLong(&'a str),
    /// This line of the file of this path, from 1, has a fault.
    Line(&'a str, u64, LineFault),
    /// The file of this path has no topic.
    NoTopics(&'a str),
    /// The file of this path has no name for its run.
    NoTag(&'a str),
    /// This line of the file of this path, from 1, is none of a certificate at its place.
    BadLine(&'a str, u64),
    /// A run has this name, and an earlier one too.
    SameName(Vec<u8>),
    /// Pairs times topics times tables are this many, and too many.
    TooManyCells(u64),
    /// This line of the sheet of this path, from 1, has a fault.
    SheetLine(&'a str, u64, SheetLineFault),
    /// The sheet of this path and those before it have entries of too many documents together.
    TooManyEntries(&'a str),
    /// An entry of the sheet of this path is of this topic, which is not in the desk.
    UnknownTopic(&'a str, Vec<u8>),
    /// An entry of the sheet of this path is of this topic of the desk, and of this document, which is not in its universe.
    UnknownDocument(&'a str, Vec<u8>, Vec<u8>),
}

/// Why a command stops before it prints.
#[derive(Drop)]
pub enum Stop<'a> {
    /// Files are refused.
    Refused(Refusal<'a>),
    /// A file is missing, or the outside failed.
    Outside,
    /// Memory ran out.
    Memory,
}

impl From<AllocError> for Stop<'_> {
    ghost from_gives = { λ _ e. e ≡ Memory };

    fn from(_: AllocError) -> Self {
        Stop::Memory
    }
}

impl From<NoMemory> for Stop<'_> {
    ghost from_gives = { λ _ e. e ≡ Memory };

    fn from(_: NoMemory) -> Self {
        Stop::Memory
    }
}
