// What is true of printed texts.
ghost use Rattle.desk_top.specs.Truths.{PrintsTruth};

use desk_report::claims::{
    answer_lines_are_true, close_lines_are_true, next_lines_are_true, no_text_is_true,
    other_lines_are_true, printed_certificates_are_true, printed_graded_texts_are_true,
    printed_pair_lines_are_true, printed_tables_are_true, printed_tiers_are_true,
    qrels_texts_are_true,
};
use order_bundle::any_evidence_implies_claims;
use pair_table::evidence_laws::certificates_are_evidence;
use sheet_report::{judgements_claim_nothing, sheet_texts_are_true};
use table_bundle::laws::bundles_are_evidence;

/// Whatever was received of a printed text claims nothing false.
pub fn printed_texts_are_true()
    ensures { PrintsTruth }
{
    printed_tables_are_true();
    printed_graded_texts_are_true();
    printed_tiers_are_true();
    printed_certificates_are_true();
    close_lines_are_true();
    answer_lines_are_true();
    printed_pair_lines_are_true();
    other_lines_are_true();
    next_lines_are_true();
    qrels_texts_are_true();
    no_text_is_true();
    certificates_are_evidence();
    bundles_are_evidence();
    any_evidence_implies_claims();
    sheet_texts_are_true();
    judgements_claim_nothing();
}
