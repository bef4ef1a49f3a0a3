// Names that are numbered.
ghost use Rattle.std.specs.Prelude.{◌≡◌, ◌<◌, length, map};
ghost use Rattle.name_table.specs.Table.{name_at};

use crate::named::Named;
use crate::numbered_names::NumberedNames;

/// Names that are numbered from 0, however they are kept.
pub trait Names {
    ghost use Rattle.std.specs.Prelude.{ℕ, List};

    ghost names: { Self → List (List ℕ) };

    /// How many names there are.
    fn count(&self) -> usize
        ensures { result ≡ length (names self.now) };

    /// Name `i`.
    fn name(&self, i: usize) -> &[u8]
        requires { i < length (names self.now) }
        ensures { name_at (names self.now) i ≡ result.now };
}

impl<K: Named> Names for Vec<K> {
    ghost names = { λ keys. map K.name keys.items };

    fn count(&self) -> usize {
        self.len()
    }

    fn name(&self, i: usize) -> &[u8] {
        self[i].bytes()
    }
}

impl Names for NumberedNames {
    ghost names = { λ names. names };

    fn count(&self) -> usize {
        self.len()
    }

    fn name(&self, i: usize) -> &[u8] {
        self.get(i)
    }
}
