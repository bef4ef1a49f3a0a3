//! Laws of what `certify --all` prints, each the contract of a function that does nothing.
ghost use Rattle.desk_laws.specs.AllPairs.{AllPairsAreAccepted, AllPairsPass};

use order_bundle::{
    scoped_certificates_have_texts, scoped_first_bad_line_is_unique,
    scoped_text_and_certificate_are_one,
};
use table_bundle::laws::bundles_are_evidence;
use topics_pool::desk_is_one;

/// The certificate of all pairs of runs that `certify --all` prints is accepted over the same desk with the same judgements.
pub fn all_pairs_are_accepted()
    ensures { AllPairsAreAccepted }
{
    scoped_certificates_have_texts();
    scoped_text_and_certificate_are_one();
    bundles_are_evidence();
}

/// The command `verify` over the files of a job, with what `certify --all` prints of them as the certificate: where nothing
/// failed, the output received the line `accepted` and the status is `Done`, or it is `Memory`, where memory ran out.
pub fn all_pairs_pass()
    ensures { AllPairsPass }
{
    all_pairs_are_accepted();
    scoped_certificates_have_texts();
    scoped_text_and_certificate_are_one();
    scoped_first_bad_line_is_unique();
    desk_is_one();
}
