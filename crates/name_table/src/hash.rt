// The hash of a name.
ghost use Rattle.std.specs.Prelude.{◌≡◌};
ghost use Rattle.name_table.specs.Table.{hash_of};

use std::hash::{FoldHasher, Hasher};

// The hash of a name: the lower half of the number that std's hasher makes of it in one go.
pub(crate) fn hash(name: &[u8]) -> u32
    ensures { result ≡ hash_of name.now }
{
    let mut hasher = FoldHasher::default();
    hasher.write(name);
    (hasher.finish() & 0xFFFF_FFFF) as u32
}
