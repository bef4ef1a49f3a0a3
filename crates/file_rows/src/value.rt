// The value of a row.
use desk_text::Score;

/// The value of a row, a whole number to clauses: a grade or a score.
pub trait RowValue: Copy {
    ghost use Rattle.std.specs.Prelude.{ℤ};

    ghost number: { Self → ℤ };
}

impl RowValue for i16 {
    ghost number = { λ grade. grade };
}

impl RowValue for Score {
    ghost number = { λ score. score };
}
