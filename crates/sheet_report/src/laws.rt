// Laws, each the contract of a function that does nothing.
ghost use Rattle.sheet_report.specs.Applied.{GradesUnderAreGrades, ApplyingAgainChangesNothing};
ghost use Rattle.sheet_report.specs.Claims.{SheetTextsAreTrue, JudgementsClaimNothing};

use desk_report::claims::qrels_texts_are_true;
use order_bundle::scoped_certificates_have_texts;

/// Whatever was received of the text of a sheet claims nothing false: its lines have five fields, of which the first is in
/// digits, as no line has that claims something of runs, and no certificate.
pub fn sheet_texts_are_true()
    ensures { SheetTextsAreTrue }
{
    scoped_certificates_have_texts();
}

/// Whatever was received of the judgements of a desk, as the text of a judgements file, claims nothing false of any other
/// desk either.
pub fn judgements_claim_nothing()
    ensures { JudgementsClaimNothing }
{
    qrels_texts_are_true();
}

/// The grades in force under a sheet, over the desk of a judgements file and of runs, are grades of a judgements file: one,
/// from 0 to 1,000, or none for each document.
pub fn grades_under_are_grades()
    ensures { GradesUnderAreGrades }
{}

/// Over a desk whose judgements are those in force under a sheet, the judgements in force under the same sheet are these
/// again.
pub fn applying_again_changes_nothing()
    ensures { ApplyingAgainChangesNothing }
{}
