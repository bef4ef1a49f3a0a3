// Names in blocks.
ghost use Rattle.std.specs.Prelude.{◌≡◌, ◌<◌, length, slice_get, Some};
ghost use Rattle.name_table.specs.Blocks.{all_names};

use crate::numbered_names::NumberedNames;
use std::marker::Model;

/// So many names each block but the last has.
pub const BLOCK_NAMES: usize = 512;

/// A list of names, kept in blocks of `BLOCK_NAMES` names and what is left in one more. A block is small enough to stand in the room
/// that another list gave back. Names are numbered from 0.
#[derive(Drop)]
pub struct BlockedNames {
    whole: Vec<NumberedNames>,
    last: NumberedNames,
}

impl Model for BlockedNames {
    ghost use Rattle.std.specs.Prelude.{List, ℕ};
    ghost use Rattle.name_table.specs.Blocks.{all_names, AreBlocks};

    ghost Value = { List (List ℕ) };

    ghost view = { λ n. all_names n.whole.items n.last };

    ghost invariant = { λ n. AreBlocks n.whole.items n.last };
}

impl BlockedNames {
    ghost use Rattle.name_table.specs.Blocks.{AreBlocks};

    /// The names of whole blocks, and behind them those of the last.
    pub fn of(whole: Vec<NumberedNames>, last: NumberedNames) -> BlockedNames
        requires { AreBlocks whole.items last }
        ensures { result ≡ all_names whole.items last }
    {
        BlockedNames { whole, last }
    }

    /// How many names there are.
    pub fn len(&self) -> usize
        ensures { result ≡ length self.now }
    {
        BLOCK_NAMES * self.whole.len() + self.last.len()
    }

    /// Name `i`.
    pub fn get(&self, i: usize) -> &[u8]
        requires { i < length self.now }
        ensures { slice_get self.now i ≡ Some result.now }
    {
        let block = i / BLOCK_NAMES;
        if block < self.whole.len() {
            self.whole[block].get(i % BLOCK_NAMES)
        } else {
            self.last.get(i - BLOCK_NAMES * self.whole.len())
        }
    }
}
