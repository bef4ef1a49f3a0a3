//! The lines of a bundle's text that say what stands at a place, and what is told of a reason.
ghost use Rattle.std.specs.Prelude.{◌≡◌, ◌≤◌, ◌<◌, ◌^◌, All, length, slice_get};
ghost use Rattle.desk_model.specs.Limits.{TOPIC_LIMIT};
ghost use Rattle.order_bundle.specs.declared.bundle.PairClaim.{PairClaim as Claim};
ghost use Rattle.bundle_verifier.specs.Lines.{line_of_claim, line_of_name, line_on_lists, lists_of, told, why_told};
ghost use Rattle.bundle_verifier.specs.Sizes.{HasFewPicks, HasFewRows, HasName, HasPlaceOn, HasPlaces, IsPlacedOn};

use crate::lines::{claim_line_count, list_line_count, topic_line_count};
use crate::reason::{BundleName, BundleReason};
use crate::rejected::BundleRejected;
use order_bundle::{Bundle, PairEvidence, Picks};
use order_certificate::{CertificatePlace, WitnessList};
use order_verifier::{Failure, Rejected};

/// The line, from 1, that says a name of a bundle or the number of its topics.
pub fn line_of_name(bundle: &Bundle, name: BundleName) -> u64
    requires { HasName bundle.now name }
    ensures { result ≡ line_of_name bundle.now name }
{
    bundle.valid();
    let runs = bundle.runs.as_slice().len() as u64;
    match name {
        BundleName::Run { run } => 5 + u64::from(run),
        BundleName::TopicCount => 5 + runs,
        BundleName::Topic { topic } => {
            6 + runs + topic_line_count(&bundle.topics.as_slice()[..topic as usize])
        }
    }
}

/// That each claim of a bundle has few rows. It costs nothing.
fn claims_are_small(bundle: &Bundle)
    ensures { All (λ (c : Claim). HasFewRows c.evidence) bundle.now.claims }
{
    bundle.valid();
}

/// The line that begins a claim.
fn line_of_claim(bundle: &Bundle, claim: u32) -> u64
    requires { claim < length bundle.now.claims }
    ensures line { result ≡ line_of_claim bundle.now claim }
    ensures small { result ≤ 10 ^ 18 }
{
    bundle.valid();
    claims_are_small(bundle);
    let runs = bundle.runs.as_slice().len() as u64;
    let topics = topic_line_count(bundle.topics.as_slice());
    7 + runs + topics + claim_line_count(&bundle.claims.as_slice()[..claim as usize])
}

/// The lists of a claim, none where it has numbers.
fn lists_of(bundle: &Bundle, claim: u32) -> &[Picks]
    requires { claim < length bundle.now.claims }
    ensures { result.now ≡ lists_of (slice_get bundle.now.claims claim) }
{
    match &bundle.claims.as_slice()[claim as usize].evidence {
        PairEvidence::Above(_) | PairEvidence::Equal(_) => &[],
        PairEvidence::Open(picks) => picks.as_slice(),
    }
}

/// The line of a document on the lists of a claim, after the line that begins the claim.
fn line_on_lists(lists: &[Picks], place: CertificatePlace) -> u64
    requires few { length lists.now ≤ TOPIC_LIMIT }
    requires picks { All HasFewPicks lists.now }
    requires place { HasPlaceOn lists.now place }
    ensures line { result ≡ line_on_lists lists.now place }
    ensures small { result ≤ 10 ^ 13 }
{
    let CertificatePlace::Document {
        topic,
        list,
        document,
    } = place
    else {
        return 0;
    };
    let before = list_line_count(&lists[..topic as usize]) + 2 + u64::from(document);
    match list {
        WitnessList::Low => before,
        WitnessList::High => before + 1 + lists[topic as usize].low.as_slice().len() as u64,
    }
}

/// Why a claim fails, with the line of a wrong document.
fn why_told(bundle: &Bundle, claim: u32, failure: Failure) -> Rejected
    requires claim { claim < length bundle.now.claims }
    requires place { IsPlacedOn (lists_of (slice_get bundle.now.claims claim)) failure }
    ensures { result ≡ why_told bundle.now claim failure }
{
    bundle.valid();
    match failure {
        Failure::BoundTooGreat { topic } => Rejected::BoundTooGreat { topic },
        Failure::NoSum => Rejected::NoSum,
        Failure::NotCompletion { place } => {
            claims_are_small(bundle);
            let start = line_of_claim(bundle, claim);
            let lists = lists_of(bundle, claim);
            let after = line_on_lists(lists, place);
            Rejected::NotCompletion {
                line: start + after,
            }
        }
        Failure::NoDifference => Rejected::NoDifference,
    }
}

/// What is told of a reason against a bundle.
pub fn told(bundle: &Bundle, reason: BundleReason) -> BundleRejected
    requires { HasPlaces bundle.now reason }
    ensures { result ≡ told bundle.now reason }
{
    bundle.valid();
    match reason {
        BundleReason::WrongName { name } => {
            let line = line_of_name(bundle, name);
            BundleRejected {
                claim: 0,
                why: Rejected::WrongNames { line },
            }
        }
        BundleReason::ClaimFails { claim, failure } => {
            let why = why_told(bundle, claim, failure);
            BundleRejected {
                claim: claim + 1,
                why,
            }
        }
    }
}
