//! Laws of sheets that are applied, each the contract of a function that does nothing.
ghost use Rattle.desk_laws.specs.Applied.{AppliedFilesComeAgain, ApplyingTwiceChangesNothing};

use sheet_report::{applying_again_changes_nothing, grades_under_are_grades};

/// The files of a desk, with what `apply` printed of them in the place of the judgements file, come to rows whose desk has the
/// same topics, universes, runs and rankings, and whose judgements are those in force under the sheet. Else a limit is passed:
/// the bytes of a file, the rows of a judgements file, or the bytes of document names.
pub fn applied_files_come_again()
    ensures { AppliedFilesComeAgain }
{
    grades_under_are_grades();
}

/// Over the desk of these files the same sheet changes nothing: each entry has its place again, the judgements in force under
/// the sheet are the same, and so is the text that `apply` prints of them.
pub fn applying_twice_changes_nothing()
    ensures { ApplyingTwiceChangesNothing }
{
    grades_under_are_grades();
    applying_again_changes_nothing();
}
