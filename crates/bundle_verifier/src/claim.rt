//! One claim of a bundle, checked as the certificate of one pair for which it stands.
ghost use Rattle.std.specs.Prelude.{◌≡◌, length, MatchResult};
ghost use Rattle.desk_model.specs.Desk.{AreMarksOf, IsDesk};
ghost use Rattle.order_certificate.specs.Certificate.{IsWritable};
ghost use Rattle.order_certificate.specs.Claim.{topics_of};
ghost use Rattle.order_certificate.specs.Evidence.{IsEvidence};
ghost use Rattle.order_bundle.specs.Evidence.{named_evidence, written_out};
ghost use Rattle.order_verifier.specs.Refusal.{ShowsOf, topics_in};
ghost use Rattle.topic_ends.specs.RunBounds.{AreBoundsOf};
ghost use Rattle.order_verifier.specs.Verified.{FailsBy};
ghost use Rattle.bundle_verifier.specs.Refusal.{FailsOn, HasRows, IsClaimOf, NamesDesk};
ghost use Rattle.bundle_verifier.specs.Rows.{AreNumbersOf};

use crate::names::run_number;
use crate::numbers::DocumentNumbers;
use crate::rows::{ClaimLists, ClaimNumbers};
use desk_model::Desk;
use order_bundle::{Bundle, PairClaim, PairEvidence, TopicNames};
use order_verifier::{BoundsOnTopic, Comparison, DeskMarks, Failure, RunNumbers, TopicEnds};

/// Whether the evidence of a claim shows what it claims of two runs.
fn check(
    comparison: &Comparison<'_>,
    topics: &[TopicNames],
    numbers: &[DocumentNumbers],
    evidence: &PairEvidence,
) -> Result<(), Failure>
    requires rows { HasRows topics.now evidence.now }
    requires numbers { AreNumbersOf comparison.now.desk topics.now numbers.now }
    requires form { IsWritable (named_evidence topics.now evidence.now) }
    requires topics { length (topics_of (named_evidence topics.now evidence.now)) ≡
        length (topics_in comparison.now) }
    ensures { MatchResult result (λ _.
        ShowsOf comparison.now (named_evidence topics.now evidence.now))
        (FailsBy comparison.now (named_evidence topics.now evidence.now)) }
{
    match evidence {
        PairEvidence::Above(bounds) => {
            comparison.check_above(&ClaimNumbers::new(topics, bounds.as_slice()))
        }
        PairEvidence::Equal(bounds) => {
            comparison.check_equal(&ClaimNumbers::new(topics, bounds.as_slice()))
        }
        PairEvidence::Open(picks) => {
            comparison.check_open(&ClaimLists::new(topics, picks.as_slice(), numbers))
        }
    }
}

/// Whether a claim of a bundle is evidence for what it claims of a desk under its marks, written out as a
/// certificate of one pair, or why it is none.
pub fn check_claim(
    ends: &TopicEnds,
    desk: &Desk,
    marks: &DeskMarks<'_>,
    bundle: &Bundle,
    numbers: &[DocumentNumbers],
    bounds: &[BoundsOnTopic],
    claim: &PairClaim,
) -> Result<(), Failure>
    requires made { ends.now ≡ bundle.now.measure }
    requires whole { IsDesk desk.now }
    requires marks { AreMarksOf desk.now marks.now }
    requires names { NamesDesk bundle.now desk.now }
    requires numbers { AreNumbersOf desk.now bundle.now.topics numbers.now }
    requires bounds { AreBoundsOf desk.now marks.now bounds.now }
    requires claim { IsClaimOf bundle.now claim.now }
    ensures { MatchResult result (λ _.
        IsEvidence (written_out bundle.now claim.now) desk.now marks.now)
        (FailsOn bundle.now desk.now marks.now claim.now) }
{
    bundle.valid();
    let names = bundle.runs.as_slice();
    let first = run_number(desk, names, claim.first);
    let second = run_number(desk, names, claim.second);
    let comparison = Comparison::new(ends, desk, marks, RunNumbers { first, second }, bounds);
    match check(
        &comparison,
        bundle.topics.as_slice(),
        numbers,
        &claim.evidence,
    ) {
        Ok(()) => Ok(()),
        Err(failure) => Err(failure),
    }
}
