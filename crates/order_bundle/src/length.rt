//! How long the text of a bundle is, counted without making it: the bytes of its parts, each line with its line feed.
ghost use Rattle.std.specs.Prelude.{◌≡◌, ◌≤◌, ◌+◌, ◌*◌, ◌^◌, ◌++◌, All, length, decimal, map, flat_map, Option};
ghost use Rattle.std.specs.Fmt.{signed_decimal};
ghost use Rattle.desk_model.specs.Limits.{DOCUMENT_LIMIT, RUN_LIMIT, TOPIC_LIMIT};
ghost use Rattle.desk_model.specs.MeasureText.{measure_text, IsMeasure};
ghost use Rattle.order_bundle.specs.Bundle.{AreTopicNames, CLAIM_LIMIT, both_bounds_line, bound_line, bundle_text, claim_lines, claims_lines, list_lines, opening_lines, pick_line, picks_lines, runs_lines, runs_text, topic_lines, topics_lines};
ghost use Rattle.order_bundle.specs.Depths.{depth_lines};
ghost use Rattle.order_bundle.specs.Lengths.{AreFewLists, HasFewDocuments, HasFewRows, text_length};
ghost use Rattle.order_bundle.specs.Scoped.{scoped_text};
ghost use Rattle.order_bundle.specs.declared.any_certificate.AnyCertificate.TheVariants.{Many};

use crate::bundle::{Bound, Bundle, PairClaim, PairEvidence, Picks, TopicNames};
use desk_model::{MeasureName, Name};
use itoa::Buffer;

/// How many digits a number has.
pub fn digits(number: u64) -> u64
    ensures count { result ≡ length (decimal number) }
    ensures few { result ≤ 40 }
{
    Buffer::new().format(number).len() as u64
}

// How many digits a number has, and the sign of a negative one.
fn signed_digits(number: i128) -> u64
    ensures count { result ≡ length (signed_decimal number) }
    ensures few { result ≤ 40 }
{
    Buffer::new().format(number).len() as u64
}

// The lines of picks.
fn picks_length(picks: &[u32]) -> u64
    requires { length picks.now ≤ DOCUMENT_LIMIT }
    ensures count { result ≡ text_length (map pick_line picks.now) }
    ensures few { result ≤ 46 * length picks.now }
{
    let mut bytes = 0;
    for pick in picks {
        bytes += digits(u64::from(*pick)) + 6;
    }
    bytes
}

// A list after its count.
fn list_length(word: &[u8], picks: &[u32]) -> u64
    requires word { length word.now ≤ 10 }
    requires few { length picks.now ≤ DOCUMENT_LIMIT }
    ensures count { result ≡ text_length (list_lines word.now picks.now) }
    ensures few { result ≤ 1150000100 }
{
    word.len() as u64 + digits(picks.len() as u64) + 1 + picks_length(picks)
}

// The two lists of a topic.
fn lists_length(picks: &Picks) -> u64
    requires { AreFewLists picks.now }
    ensures count { result ≡ text_length (picks_lines picks.now) }
    ensures few { result ≤ 2300000200 }
{
    list_length(b"low ", picks.low.as_slice()) + list_length(b"high ", picks.high.as_slice())
}

// The two lists of each topic.
fn topic_picks_length(picks: &[Picks]) -> u64
    requires count { length picks.now ≤ TOPIC_LIMIT }
    requires few { All AreFewLists picks.now }
    ensures count { result ≡ text_length (flat_map picks_lines picks.now) }
    ensures few { result ≤ 2300000200 * length picks.now }
{
    let mut bytes = 0;
    for lists in picks {
        bytes += lists_length(lists);
    }
    bytes
}

// The lines of lower numbers.
fn bounds_length(bounds: &[Bound]) -> u64
    requires { length bounds.now ≤ TOPIC_LIMIT }
    ensures count { result ≡ text_length (map bound_line bounds.now) }
    ensures few { result ≤ 100 * length bounds.now }
{
    let mut bytes = 0;
    for bound in bounds {
        bytes += signed_digits(bound.low) + 7;
    }
    bytes
}

// The line of both numbers.
fn both_bounds_line_length(bound: Bound) -> u64
    ensures count { result ≡ length (both_bounds_line bound) + 1 }
    ensures few { result ≤ 100 }
{
    signed_digits(bound.low) + signed_digits(bound.high) + 8
}

// The lines of both numbers.
fn both_bounds_length(bounds: &[Bound]) -> u64
    requires { length bounds.now ≤ TOPIC_LIMIT }
    ensures count { result ≡ text_length (map both_bounds_line bounds.now) }
    ensures few { result ≤ 100 * length bounds.now }
{
    let mut bytes = 0;
    for bound in bounds {
        bytes += both_bounds_line_length(*bound);
    }
    bytes
}

/// The numbers of two runs: `first second`.
pub fn runs_text_length(first: u32, second: u32) -> u64
    ensures count { result ≡ length (runs_text first second) }
    ensures few { result ≤ 81 }
{
    digits(u64::from(first)) + digits(u64::from(second)) + 1
}

/// The lines of a claim with its evidence.
pub fn claim_length(claim: &PairClaim) -> u64
    requires { HasFewRows claim.now }
    ensures count { result ≡ text_length (claim_lines claim.now) }
    ensures few { result ≤ 23000002000200 }
{
    let runs = runs_text_length(claim.first, claim.second);
    match &claim.evidence {
        PairEvidence::Above(bounds) => runs + 13 + bounds_length(bounds.as_slice()),
        PairEvidence::Equal(bounds) => runs + 13 + both_bounds_length(bounds.as_slice()),
        PairEvidence::Open(picks) => runs + 12 + topic_picks_length(picks.as_slice()),
    }
}

// Claims with their evidence.
fn each_claim_length(claims: &[PairClaim]) -> u64
    requires count { length claims.now ≤ CLAIM_LIMIT }
    requires few { All HasFewRows claims.now }
    ensures count { result ≡ text_length (flat_map claim_lines claims.now) }
    ensures few { result ≤ 23000002000200 * length claims.now }
{
    let mut bytes = 0;
    for claim in claims {
        bytes += claim_length(claim);
    }
    bytes
}

/// The lines of names, each after a word.
pub fn names_length(word: &[u8], names: &[Name]) -> u64
    requires word { length word.now ≤ 10 }
    requires few { length names.now ≤ DOCUMENT_LIMIT }
    ensures count { result ≡ text_length (map (λ name. word.now ++ name) names.now) }
    ensures few { result ≤ 266 * length names.now }
{
    let mut bytes = 0;
    for name in names {
        bytes += (word.len() + name.as_bytes().len() + 1) as u64;
    }
    bytes
}

// A topic with its documents.
fn topic_length(topic: &TopicNames) -> u64
    requires { HasFewDocuments topic.now }
    ensures count { result ≡ text_length (topic_lines topic.now) }
    ensures few { result ≤ 6650000400 }
{
    let docs = topic.docs.as_slice();
    let name = topic.topic.as_bytes().len() as u64;
    name + digits(docs.len() as u64) + 8 + names_length(b"doc ", docs)
}

// Topics with their documents.
fn each_topic_length(topics: &[TopicNames]) -> u64
    requires count { length topics.now ≤ TOPIC_LIMIT }
    requires few { All HasFewDocuments topics.now }
    ensures count { result ≡ text_length (flat_map topic_lines topics.now) }
    ensures few { result ≤ 6650000400 * length topics.now }
{
    let mut bytes = 0;
    for topic in topics {
        bytes += topic_length(topic);
    }
    bytes
}

// The name of a measure.
fn measure_length(measure: &MeasureName) -> u64
    requires { IsMeasure measure.now }
    ensures count { result ≡ length (measure_text measure.now) }
    ensures few { result ≤ 60 }
{
    match measure {
        MeasureName::Precision(k) => digits(u64::from(*k)) + 2,
        MeasureName::Recall(k) => digits(u64::from(*k)) + 7,
        MeasureName::RPrecision => 5,
        MeasureName::Reciprocal => 10,
        MeasureName::AveragePrecision => 3,
        MeasureName::Biased { top, bottom } => digits(u64::from(*bottom) + u64::from(*top)) + 5,
    }
}

/// The first lines: which form it is, and what the runs are compared by.
pub fn opening_length(measure: &MeasureName, level: u32) -> u64
    requires { IsMeasure measure.now }
    ensures count { result ≡ text_length (opening_lines measure.now level) }
    ensures few { result ≤ 200 }
{
    19 + (9 + measure_length(measure)) + (7 + digits(u64::from(level)))
}

// The number of claims, these, and the end.
fn from_claims_length(claims: &[PairClaim]) -> u64
    requires count { length claims.now ≤ CLAIM_LIMIT }
    requires few { All HasFewRows claims.now }
    ensures count { result ≡ text_length (claims_lines claims.now) }
    ensures few { result ≤ 10 ^ 18 }
{
    digits(claims.len() as u64) + each_claim_length(claims) + 12
}

// The number of topics, these, and the claims.
fn from_topics_length(topics: &[TopicNames], claims: &[PairClaim]) -> u64
    requires topics { AreTopicNames topics.now }
    requires count { length claims.now ≤ CLAIM_LIMIT }
    requires few { All HasFewRows claims.now }
    ensures count { result ≡ text_length (topics_lines topics.now claims.now) }
    ensures few { result ≤ 10 ^ 18 + 10 ^ 15 }
{
    digits(topics.len() as u64) + each_topic_length(topics) + 8 + from_claims_length(claims)
}

// The number of runs, these, the topics and the claims.
fn from_runs_length(runs: &[Name], topics: &[TopicNames], claims: &[PairClaim]) -> u64
    requires runs { length runs.now ≤ RUN_LIMIT }
    requires topics { AreTopicNames topics.now }
    requires count { length claims.now ≤ CLAIM_LIMIT }
    requires few { All HasFewRows claims.now }
    ensures count { result ≡ text_length (runs_lines runs.now topics.now claims.now) }
    ensures few { result ≤ 10 ^ 18 + 10 ^ 16 }
{
    let names = digits(runs.len() as u64) + names_length(b"run ", runs) + 6;
    names + from_topics_length(topics, claims)
}

/// How many bytes the text of a bundle has. The text is not made, and no memory is taken.
pub fn bundle_length(bundle: &Bundle) -> u64
    ensures count { result ≡ length (bundle_text bundle.now) }
    ensures few { result ≤ 10 ^ 18 + 10 ^ 17 }
{
    let from_runs = from_runs_length(
        bundle.runs.as_slice(),
        bundle.topics.as_slice(),
        bundle.claims.as_slice(),
    );
    opening_length(&bundle.measure, bundle.level) + from_runs
}

/// How many bytes the line of a depth has, with its line feed: none where there is no depth.
pub fn depth_length(depth: Option<u32>) -> u64
    ensures count { result ≡ text_length (depth_lines depth) }
    ensures few { result ≤ 50 }
{
    match depth {
        Some(depth) => digits(u64::from(depth)) + 7,
        None => 0,
    }
}

/// How many bytes the text of a bundle has that was made under a depth or under none.
pub fn bundle_length_under(depth: Option<u32>, bundle: &Bundle) -> u64
    ensures { result ≡ length (scoped_text (record { depth = depth; body = Many bundle.now })) }
{
    bundle_length(bundle) + depth_length(depth)
}
