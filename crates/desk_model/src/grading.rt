ghost use Rattle.std.specs.Prelude.{◌≡◌};
ghost use Rattle.desk_model.specs.Graded.{mark_within};

use crate::types::Mark;

/// The mark of a document with this grade in force: relevant from the level on, and other with a smaller grade from 0.
/// Without a grade, or with one below 0, a document of the pool is unjudged, and any other is closed: it counts as
/// other. Where there is no depth each document counts as one of the pool.
pub fn mark(grade: Option<i32>, level: u32, pooled: bool) -> Mark
    ensures { result ≡ mark_within grade level pooled }
{
    match grade {
        Some(grade) if grade >= 0 && grade as u32 >= level => Mark::Relevant,
        Some(grade) if grade >= 0 => Mark::Other,
        _ if pooled => Mark::Unjudged,
        _ => Mark::Other,
    }
}
