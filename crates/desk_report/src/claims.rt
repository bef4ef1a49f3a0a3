//! The laws of what is printed, each the contract of a function that does nothing.
//!
//! What was received of a text claims nothing false, under a measure's name and marks of a desk, where
//! two things hold. Each whole line received claims nothing false of the runs: a line claims something
//! only where it is `pair FIRST WORD SECOND LOW HIGH`, or `run NAME LOW HIGH` with LOW and HIGH printed
//! with a point and six digits. And where what was received is a certificate of either version, with a
//! depth or without, it is one of that measure, and its claim holds, or all its claims.
ghost use Rattle.desk_report.specs.ByGrades.{GradedTextsAreTrue};
ghost use Rattle.desk_report.specs.Claims.{TablesAreTrue, CertificatesAreTrue, PairLinesAreTrue, CloseLinesAreTrue, AnswerLinesAreTrue, OtherLinesAreTrue, NextLinesAreTrue, QrelsTextsAreTrue, NoTextIsTrue};
ghost use Rattle.desk_report.specs.Tiers.{TiersTextsAreTrue};

use graded_rbp::laws::numbers_hold_by_grades;
use order_bundle::{
    any_evidence_implies_claims, no_scoped_text_begins_another, scoped_certificates_have_texts,
};
use order_tiers::laws::covers_hold;
use pair_table::laws::{
    numbers_hold_in_every_completion, numbers_of_two_runs_hold, precision_is_exact,
};

/// Whatever was received of a printed table claims nothing false. A line `pair A above B LOW HIGH` means
/// that A's mean is greater than B's in every completion of the judgements, `below` that B's is, and
/// `equal` that the two are equal. Under precision the word says exactly which of these holds, and is
/// `open` where none does. From LOW to HIGH lies the difference of the means, on a line
/// `run A LOW HIGH` the mean of A, in every completion.
pub fn printed_tables_are_true()
    ensures { TablesAreTrue }
{
    numbers_hold_in_every_completion();
    precision_is_exact();
    scoped_certificates_have_texts();
}

/// Whatever was received of a printed table by grades claims nothing false. Its lines mean what those of a table do, of
/// means by grades in every completion by grades.
pub fn printed_graded_texts_are_true()
    ensures { GradedTextsAreTrue }
{
    numbers_hold_by_grades();
    scoped_certificates_have_texts();
}

/// Whatever was received of the line of two different runs, in either order, claims nothing false, where
/// its sums are the numbers of the measure's name.
pub fn printed_pair_lines_are_true()
    ensures { PairLinesAreTrue }
{
    numbers_of_two_runs_hold();
    scoped_certificates_have_texts();
}

/// Whatever was received of the text of a certificate of either version, with a depth or without, that is evidence claims
/// nothing false.
pub fn printed_certificates_are_true()
    ensures { CertificatesAreTrue }
{
    scoped_certificates_have_texts();
    any_evidence_implies_claims();
    no_scoped_text_begins_another();
}

/// Whatever was received of a close line claims nothing false.
pub fn close_lines_are_true()
    ensures { CloseLinesAreTrue }
{
    scoped_certificates_have_texts();
}

/// Whatever was received of the line that tells what checking a certificate answered claims nothing
/// false.
pub fn answer_lines_are_true()
    ensures { AnswerLinesAreTrue }
{
    scoped_certificates_have_texts();
}

/// Whatever was received of a line whose first word is not `pair`, `run` or `desk-certificate` claims
/// nothing false, as each reply of a session to a change, to `next` and to `pool`, and what it refuses.
pub fn other_lines_are_true()
    ensures { OtherLinesAreTrue }
{
    scoped_certificates_have_texts();
}

/// Whatever was received of the line of what is to be judged next claims nothing false of the runs, and what
/// it says of the next document is true: `next TOPIC DOC WEIGHT` names the proposal and its total, and
/// `next none` comes only where there is no proposal.
pub fn next_lines_are_true()
    ensures { NextLinesAreTrue }
{
    scoped_certificates_have_texts();
}

/// Whatever was received of the judgements in force, as the text of a judgements file, claims nothing
/// false. The line of a topic named `run` has four fields, as a line `run NAME LOW HIGH` has, but it ends
/// with a grade, which has no point.
pub fn qrels_texts_are_true()
    ensures { QrelsTextsAreTrue }
{
    scoped_certificates_have_texts();
}

/// A text without bytes claims nothing false.
pub fn no_text_is_true()
    ensures { NoTextIsTrue }
{
    scoped_certificates_have_texts();
}

/// Whatever was received of the tiers of runs claims nothing false, and each whole line `cover FIRST SECOND WINS LOSSES` is
/// true: the first run's mean is greater in every completion, on WINS topics its score is, and on LOSSES topics the second's.
pub fn printed_tiers_are_true()
    ensures { TiersTextsAreTrue }
{
    covers_hold();
    scoped_certificates_have_texts();
}
