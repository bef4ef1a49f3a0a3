// Why words are refused.
ghost use Rattle.command_line.specs.declared.fault.WordsFault.TheVariants.{Memory};
ghost use Rattle.std.specs.Prelude.{◌≡◌};

use desk_memory::Memory as OutOfMemory;
use std::alloc::{AllocError, AllocFailed};

/// Why words are refused.
#[derive(Clone, Copy, PartialEq, Eq)]
pub enum WordsFault {
    /// They are not what the command takes.
    Usage,
    /// Memory ran out.
    Memory,
}

impl From<AllocError> for WordsFault {
    ghost from_gives = { λ _ e. e ≡ Memory };

    fn from(_: AllocError) -> WordsFault {
        WordsFault::Memory
    }
}

impl From<OutOfMemory> for WordsFault {
    ghost from_gives = { λ _ e. e ≡ Memory };

    fn from(_: OutOfMemory) -> WordsFault {
        WordsFault::Memory
    }
}

impl<T: Drop> From<AllocFailed<T>> for WordsFault {
    ghost from_gives = { λ _ e. e ≡ Memory };

    fn from(_: AllocFailed<T>) -> WordsFault {
        WordsFault::Memory
    }
}
