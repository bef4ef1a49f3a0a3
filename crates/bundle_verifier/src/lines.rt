//! How many lines of a bundle's text are on its topics and its claims.
ghost use Rattle.std.specs.Prelude.{◌≡◌, ◌≤◌, ◌+◌, ◌^◌, All, length, flat_map};
ghost use Rattle.desk_model.specs.Limits.{TOPIC_LIMIT};
ghost use Rattle.order_certificate.specs.Certificate.{AreDocuments};
ghost use Rattle.order_bundle.specs.Bundle.{CLAIM_LIMIT, claim_lines, picks_lines, topic_lines};
ghost use Rattle.order_bundle.specs.declared.bundle.PairClaim.{PairClaim as Claim};
ghost use Rattle.order_bundle.specs.declared.bundle.TopicNames.{TopicNames as Names};
ghost use Rattle.bundle_verifier.specs.Sizes.{HasFewPicks, HasFewRows};

use order_bundle::{PairClaim, PairEvidence, Picks, TopicNames};

/// How many lines are on some topics.
pub fn topic_line_count(topics: &[TopicNames]) -> u64
    requires few { length topics.now ≤ TOPIC_LIMIT }
    requires docs { All (λ (t : Names). AreDocuments t.docs) topics.now }
    ensures count { result ≡ length (flat_map topic_lines topics.now) }
    ensures small { result ≤ 10 ^ 12 }
{
    let mut lines = 0;
    for topic in topics {
        lines += topic.docs.as_slice().len() as u64 + 1;
    }
    lines
}

/// How many lines are on the lists of some topics.
pub fn list_line_count(lists: &[Picks]) -> u64
    requires few { length lists.now ≤ TOPIC_LIMIT }
    requires picks { All HasFewPicks lists.now }
    ensures count { result ≡ length (flat_map picks_lines lists.now) }
    ensures small { result ≤ 10 ^ 12 }
{
    let mut lines = 0;
    for list in lists {
        lines += (list.low.as_slice().len() + list.high.as_slice().len() + 2) as u64;
    }
    lines
}

/// How many lines are on a claim.
fn line_count(claim: &PairClaim) -> u64
    requires { HasFewRows claim.now.evidence }
    ensures count { result ≡ length (claim_lines claim.now) }
    ensures small { result ≤ 10 ^ 12 + 1 }
{
    match &claim.evidence {
        PairEvidence::Above(bounds) | PairEvidence::Equal(bounds) => {
            bounds.as_slice().len() as u64 + 1
        }
        PairEvidence::Open(picks) => list_line_count(picks.as_slice()) + 1,
    }
}

/// How many lines are on some claims.
pub fn claim_line_count(claims: &[PairClaim]) -> u64
    requires few { length claims.now ≤ CLAIM_LIMIT }
    requires rows { All (λ (c : Claim). HasFewRows c.evidence) claims.now }
    ensures count { result ≡ length (flat_map claim_lines claims.now) }
    ensures small { result ≤ 10 ^ 17 }
{
    let mut lines = 0;
    for claim in claims {
        lines += line_count(claim);
    }
    lines
}
