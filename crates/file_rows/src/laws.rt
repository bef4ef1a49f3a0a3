//! Laws of files that arrive in pieces, each the contract of a function that does nothing.
ghost use Rattle.std.specs.Prelude.{◌≡◌, ◌+◌, ◌++◌, [], ℕ, List, Option, Result, length};
ghost use Rattle.desk_text.specs.Lines.{lines, whole_lines, unended};
ghost use Rattle.file_rows.specs.Reading.{rows_of, rows_from, and_then};
ghost use Rattle.file_rows.specs.Rows.{Row};
ghost use Rattle.file_rows.specs.declared.fault.LineFault.{LineFault};

/// A cut anywhere changes no line: the lines of a text are the whole lines before the cut, and then the lines of what stands
/// after the last of them, with all that follows the cut.
pub fn a_cut_changes_no_line()
    ensures { (before after : List ℕ) →
        lines (before ++ after) ≡ whole_lines before ++ lines (unended before ++ after) }
{}

/// A cut anywhere changes no row: the rows of a text are those of the whole lines before the cut, continued with the lines after
/// them; or the first fault of either.
pub fn a_cut_changes_no_row()
    ensures { (read : List Row → List ℕ → Result (Option Row) LineFault) (before after : List ℕ) →
        rows_of read (before ++ after)
        ≡ and_then (rows_from read 1 [] (whole_lines before)) (λ rows.
        rows_from read (1 + length (whole_lines before)) rows (lines (unended before ++ after))) }
{}
