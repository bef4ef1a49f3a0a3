// Why rows make no desk.
ghost use Rattle.std.specs.Prelude.{◌≡◌};
ghost use Rattle.topics_pool.specs.declared.fault.DeskFault.TheVariants.{Memory as NoMemory};

use desk_model::Memory;
use thiserror::Error;

/// Why rows make no desk.
#[derive(Clone, Copy, Debug, PartialEq, Eq, Error)]
pub enum DeskFault {
    /// A run has the name of an earlier one.
    #[error("run {run} has the name of an earlier run")]
    SameName {
        /// The number of the first such run, from 0.
        run: u32,
    },
    /// There are too many pairs of runs and topics.
    #[error("pairs times topics are {cells}, which is too many")]
    TooManyCells {
        /// The number of pairs times the number of topics.
        cells: u64,
    },
    /// Memory runs out.
    #[error("out of memory")]
    Memory,
}

impl From<Memory> for DeskFault {
    ghost from_gives = { λ _ e. e ≡ NoMemory };

    fn from(_: Memory) -> DeskFault {
        DeskFault::Memory
    }
}
