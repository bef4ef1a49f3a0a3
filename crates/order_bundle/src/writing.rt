// The texts of bundles and of certificates with a depth.
ghost use Rattle.std.specs.Prelude.{◌≡◌, ◌++◌, ◌≤◌, length, map, flat_map, IfErr, IfOk, OnOk, Option};
ghost use Rattle.line_forms.specs.Form.{ended, text_of};
ghost use Rattle.order_bundle.specs.Bundle.{both_bounds_line, bound_line, bundle_text, claim_lines, claims_lines, list_lines, opening_lines, pick_line, picks_lines, run_line, runs_lines, runs_text, topic_lines, topics_lines};
ghost use Rattle.order_bundle.specs.Depths.{depth_lines};
ghost use Rattle.order_bundle.specs.Places.{IsBundleText};
ghost use Rattle.order_bundle.specs.Scoped.{IsScoped, IsScopedFault, IsScopedText, IsShortFor, scoped_text};
ghost use Rattle.order_bundle.specs.Writing.{IsWritingFault, TEXT_LIMIT};
ghost use Rattle.order_bundle.specs.declared.any_certificate.AnyCertificate.TheVariants.{One, Many};
ghost use Rattle.order_bundle.specs.declared.writing.BundleFault.TheVariants.{Memory as MemoryFault};

use crate::any_certificate::AnyCertificate;
use crate::bundle::{Bound, Bundle, PairClaim, PairEvidence, Picks, TopicNames};
use crate::length::bundle_length_under;
use crate::scoped::Scoped;
use desk_model::{MeasureName, Name, push_number, push_signed};
use order_certificate::Certificate;
use order_certificate::writing::{
    push_after_space, push_count_line, push_documents, push_from_first, push_line,
    push_measure_line, push_number_line, push_opening as push_opening_of_one,
};
use std::alloc::{AllocError, Global};

/// The most bytes of the text of a bundle.
pub const LONGEST_TEXT: u64 = 1_073_741_824;

/// Why a bundle was not written.
#[derive(Clone, Copy, PartialEq, Eq, Debug)]
pub enum BundleFault {
    /// The text has more than 1,073,741,824 bytes: how many.
    TooLong { bytes: u64 },
    /// Out of memory.
    Memory,
}

impl From<AllocError> for BundleFault {
    ghost from_gives = { λ _ e. e ≡ MemoryFault };

    fn from(_: AllocError) -> BundleFault {
        BundleFault::Memory
    }
}

fn push_pick_line(out: &mut Vec<u8>, pick: u32) -> Result<(), AllocError>
    ensures { OnOk result (out.new.items ≡ out.old.items ++ ended (pick_line pick)) }
{
    out.extend_from_slice(b"pick ")?;
    push_number(out, pick)?;
    out.extend_from_slice(b"\n")
}

fn push_picks(out: &mut Vec<u8>, picks: &[u32]) -> Result<(), AllocError>
    ensures { OnOk result (out.new.items ≡ out.old.items ++ text_of (map pick_line picks.now)) }
{
    for pick in picks {
        push_pick_line(out, *pick)?;
    }
    Ok(())
}

fn push_list(out: &mut Vec<u8>, word: &[u8], picks: &[u32]) -> Result<(), AllocError>
    ensures { OnOk result (out.new.items ≡ out.old.items ++
        text_of (list_lines word.now picks.now)) }
{
    push_number_line(out, word, picks.len())?;
    push_picks(out, picks)
}

fn push_lists(out: &mut Vec<u8>, picks: &Picks) -> Result<(), AllocError>
    ensures { OnOk result (out.new.items ≡ out.old.items ++ text_of (picks_lines picks.now)) }
{
    push_list(out, b"low ", picks.low.as_slice())?;
    push_list(out, b"high ", picks.high.as_slice())
}

fn push_topic_picks(out: &mut Vec<u8>, picks: &[Picks]) -> Result<(), AllocError>
    ensures { OnOk result (out.new.items ≡ out.old.items ++
        text_of (flat_map picks_lines picks.now)) }
{
    for lists in picks {
        push_lists(out, lists)?;
    }
    Ok(())
}

fn push_low(out: &mut Vec<u8>, bound: Bound) -> Result<(), AllocError>
    ensures { OnOk result (out.new.items ≡ out.old.items ++ bound_line bound) }
{
    out.extend_from_slice(b"bound ")?;
    push_signed(out, bound.low)
}

fn push_bound_line(out: &mut Vec<u8>, bound: Bound) -> Result<(), AllocError>
    ensures { OnOk result (out.new.items ≡ out.old.items ++ ended (bound_line bound)) }
{
    push_low(out, bound)?;
    out.extend_from_slice(b"\n")
}

fn push_both_bounds_line(out: &mut Vec<u8>, bound: Bound) -> Result<(), AllocError>
    ensures { OnOk result (out.new.items ≡ out.old.items ++ ended (both_bounds_line bound)) }
{
    push_low(out, bound)?;
    push_after_space(out, bound.high)?;
    out.extend_from_slice(b"\n")
}

fn push_bounds(out: &mut Vec<u8>, bounds: &[Bound]) -> Result<(), AllocError>
    ensures { OnOk result (out.new.items ≡ out.old.items ++ text_of (map bound_line bounds.now)) }
{
    for bound in bounds {
        push_bound_line(out, *bound)?;
    }
    Ok(())
}

fn push_both_bounds(out: &mut Vec<u8>, bounds: &[Bound]) -> Result<(), AllocError>
    ensures { OnOk result (out.new.items ≡ out.old.items ++
        text_of (map both_bounds_line bounds.now)) }
{
    for bound in bounds {
        push_both_bounds_line(out, *bound)?;
    }
    Ok(())
}

fn push_runs_of_claim(
    out: &mut Vec<u8>,
    claim: &[u8],
    first: u32,
    second: u32,
) -> Result<(), AllocError>
    ensures { OnOk result (out.new.items ≡ out.old.items ++
        ended (claim.now ++ runs_text first second)) }
{
    out.extend_from_slice(claim)?;
    push_number(out, first)?;
    push_number_line(out, b" ", second as usize)
}

fn push_claim(out: &mut Vec<u8>, claim: &PairClaim) -> Result<(), AllocError>
    ensures { OnOk result (out.new.items ≡ out.old.items ++ text_of (claim_lines claim.now)) }
{
    match &claim.evidence {
        PairEvidence::Above(bounds) => {
            push_runs_of_claim(out, b"claim above ", claim.first, claim.second)?;
            push_bounds(out, bounds.as_slice())
        }
        PairEvidence::Equal(bounds) => {
            push_runs_of_claim(out, b"claim equal ", claim.first, claim.second)?;
            push_both_bounds(out, bounds.as_slice())
        }
        PairEvidence::Open(picks) => {
            push_runs_of_claim(out, b"claim open ", claim.first, claim.second)?;
            push_topic_picks(out, picks.as_slice())
        }
    }
}

fn push_claims(out: &mut Vec<u8>, claims: &[PairClaim]) -> Result<(), AllocError>
    ensures { OnOk result (out.new.items ≡ out.old.items ++
        text_of (flat_map claim_lines claims.now)) }
{
    for claim in claims {
        push_claim(out, claim)?;
    }
    Ok(())
}

fn push_topic(out: &mut Vec<u8>, topic: &TopicNames) -> Result<(), AllocError>
    ensures { OnOk result (out.new.items ≡ out.old.items ++ text_of (topic_lines topic.now)) }
{
    let docs = topic.docs.as_slice();
    push_count_line(out, b"topic ", topic.topic.as_bytes(), docs.len())?;
    push_documents(out, docs)
}

fn push_topics(out: &mut Vec<u8>, topics: &[TopicNames]) -> Result<(), AllocError>
    ensures { OnOk result (out.new.items ≡ out.old.items ++
        text_of (flat_map topic_lines topics.now)) }
{
    for topic in topics {
        push_topic(out, topic)?;
    }
    Ok(())
}

fn push_runs(out: &mut Vec<u8>, runs: &[Name]) -> Result<(), AllocError>
    ensures { OnOk result (out.new.items ≡ out.old.items ++ text_of (map run_line runs.now)) }
{
    for run in runs {
        push_line(out, b"run ", run.as_bytes())?;
    }
    Ok(())
}

// The first lines: which form it is, and what the runs are compared by.
fn push_opening(out: &mut Vec<u8>, measure: &MeasureName, level: u32) -> Result<(), AllocError>
    ensures { OnOk result (out.new.items ≡ out.old.items ++
        text_of (opening_lines measure.now level)) }
{
    push_line(out, b"desk-certificate 2", b"")?;
    push_measure_line(out, measure)?;
    push_number_line(out, b"level ", level as usize)
}

// The number of claims, these, and the end.
fn push_from_claims(out: &mut Vec<u8>, claims: &[PairClaim]) -> Result<(), AllocError>
    ensures { OnOk result (out.new.items ≡ out.old.items ++ text_of (claims_lines claims.now)) }
{
    push_number_line(out, b"claims ", claims.len())?;
    push_claims(out, claims)?;
    push_line(out, b"end", b"")
}

// The number of topics, these, and the claims.
fn push_from_topics(
    out: &mut Vec<u8>,
    topics: &[TopicNames],
    claims: &[PairClaim],
) -> Result<(), AllocError>
    ensures { OnOk result (out.new.items ≡ out.old.items ++
        text_of (topics_lines topics.now claims.now)) }
{
    push_number_line(out, b"topics ", topics.len())?;
    push_topics(out, topics)?;
    push_from_claims(out, claims)
}

// The number of runs, these, the topics and the claims.
fn push_from_runs(
    out: &mut Vec<u8>,
    runs: &[Name],
    topics: &[TopicNames],
    claims: &[PairClaim],
) -> Result<(), AllocError>
    ensures { OnOk result (out.new.items ≡ out.old.items ++
        text_of (runs_lines runs.now topics.now claims.now)) }
{
    push_number_line(out, b"runs ", runs.len())?;
    push_runs(out, runs)?;
    push_from_topics(out, topics, claims)
}

// The line of a depth, where there is one.
fn push_depth(out: &mut Vec<u8>, depth: Option<u32>) -> Result<(), AllocError>
    ensures { OnOk result (out.new.items ≡ out.old.items ++ text_of (depth_lines depth)) }
{
    match depth {
        Some(depth) => push_number_line(out, b"depth ", depth as usize),
        None => Ok(()),
    }
}

fn push_bundle(out: &mut Vec<u8>, depth: Option<u32>, bundle: &Bundle) -> Result<(), AllocError>
    ensures { OnOk result (out.new.items ≡ out.old.items ++
        scoped_text (record { depth = depth; body = Many bundle.now })) }
{
    push_opening(out, &bundle.measure, bundle.level)?;
    push_depth(out, depth)?;
    push_from_runs(
        out,
        bundle.runs.as_slice(),
        bundle.topics.as_slice(),
        bundle.claims.as_slice(),
    )
}

// The text of a bundle that was made under a depth or under none, if it is not too long.
fn bundle_under(alloc: Global, depth: Option<u32>, bundle: &Bundle) -> Result<Vec<u8>, BundleFault>
    ensures text { IfOk result (λ text. text.items ≡
        scoped_text (record { depth = depth; body = Many bundle.now })) }
    ensures short { IfOk result (λ text. length text.items ≤ TEXT_LIMIT) }
    ensures fault { IfErr result (λ fault.
        IsScopedFault (record { depth = depth; body = Many bundle.now }) fault) }
{
    let bytes = bundle_length_under(depth, bundle);
    if bytes > LONGEST_TEXT {
        return Err(BundleFault::TooLong { bytes });
    }
    let mut out = Vec::new(alloc);
    push_bundle(&mut out, depth, bundle)?;
    Ok(out)
}

// The text of a certificate of one pair that was made under a depth or under none.
fn certificate_under(
    alloc: Global,
    depth: Option<u32>,
    certificate: &Certificate,
) -> Result<Vec<u8>, AllocError>
    ensures { IfOk result (λ text. text.items ≡
        scoped_text (record { depth = depth; body = One certificate.now })) }
{
    let mut out = Vec::new(alloc);
    push_opening_of_one(&mut out, &certificate.measure, certificate.level)?;
    push_depth(&mut out, depth)?;
    push_from_first(&mut out, certificate)?;
    Ok(out)
}

/// The text of a bundle. `TooLong` comes exactly where it has more than 1,073,741,824 bytes, and then nothing is
/// written; the only other error is out of memory.
pub fn write_bundle(alloc: Global, bundle: &Bundle) -> Result<Vec<u8>, BundleFault>
    ensures text { IfOk result (λ text. IsBundleText text.items bundle.now) }
    ensures short { IfOk result (λ text. length text.items ≤ TEXT_LIMIT) }
    ensures fault { IfErr result (λ fault. IsWritingFault bundle.now fault) }
{
    bundle.valid();
    bundle_under(alloc, None, bundle)
}

/// The text of a certificate, with the line `depth D` after that of the level where it was made under a depth. It has to be
/// within the limits of its form. `TooLong` comes exactly where it is of many pairs and the text has more than 1,073,741,824
/// bytes, and then nothing is written; the only other error is out of memory.
pub fn write_scoped(alloc: Global, scoped: &Scoped) -> Result<Vec<u8>, BundleFault>
    requires { IsScoped scoped.now }
    ensures text { IfOk result (λ text. IsScopedText text.items scoped.now) }
    ensures short { IfOk result (λ text. IsShortFor scoped.now.body (length text.items)) }
    ensures fault { IfErr result (λ fault. IsScopedFault scoped.now fault) }
{
    match &scoped.body {
        AnyCertificate::One(certificate) => {
            let text = certificate_under(alloc, scoped.depth, certificate)?;
            Ok(text)
        }
        AnyCertificate::Many(bundle) => bundle_under(alloc, scoped.depth, bundle),
    }
}
