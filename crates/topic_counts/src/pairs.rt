ghost use Rattle.std.specs.Prelude.{◌≡◌, if◌then◌else◌, nat_le};

use desk_model::Placed;

/// How many places a walk over two lists that ascend by document goes on from the first of two: none
/// where its document comes later.
pub fn passed(x: Placed, y: Placed) -> usize
    ensures { result ≡ (if nat_le x.doc y.doc then 1 else 0) }
{
    usize::from(x.doc <= y.doc)
}
