//! The lines of a bundle, each taken at its place.
ghost use Rattle.std.specs.Prelude.{◌≡◌, ◌≢◌, ◌++◌, ◌∷◌, ◌<◌, ◌≤◌, List, ℕ, codes, decimal, IfSome, IfNone, IfOk, IsTrue, ◌↔◌, min, max, Option};
ghost use Rattle.desk_model.specs.Limits.{DOCUMENT_LIMIT, RUN_LIMIT};
ghost use Rattle.line_forms.specs.Places.{number_place};
ghost use Rattle.line_forms.specs.Reading.{IsReading, IsPartOf, IsFreeOf};
ghost use Rattle.order_certificate.specs.Certificate.{IsDocumentCount};
ghost use Rattle.order_certificate.specs.Places.{claim_line};
ghost use Rattle.order_certificate.specs.declared.places.Claim.{Claim as OfClaim};
ghost use Rattle.order_bundle.specs.Bundle.{AreRunsOfClaim, IsClaimCount, IsLowerBound, AreBothBounds, MayFollow, both_bounds_line, bound_line, pair_of, pick_line, runs_text};
ghost use Rattle.order_bundle.specs.Depths.{IsDepthTaken};
ghost use Rattle.order_bundle.specs.Places.{IsPick};
ghost use Rattle.order_bundle.specs.Places.{bound_place, both_bounds_place, head_line, head_place, pick_place, topic_place, version_line, version_place};
ghost use Rattle.order_bundle.specs.declared.places.ClaimHead.{ClaimHead as OfHead};

use crate::any_certificate::Version;
use crate::bundle::Bound;
use desk_model::Name;
use line_forms::lines::{after, cut};
use line_forms::parts::{count, number, number_of};
use line_forms::places::{name_and_count_line, number_below_line, number_line_if_next};
use line_forms::{FormFault, TextLines};
use order_certificate::places::Claim;
use std::alloc::Global;

const MOST_DOCUMENTS: u64 = 25_000_000;

const MOST_CLAIMS: u64 = 32_640;

/// Two runs by their numbers, in whichever order a claim names them.
#[derive(Clone, Copy)]
pub struct UnorderedPair {
    pub smaller: u32,
    pub greater: u32,
}

impl UnorderedPair {
    /// The pair of two runs.
    pub fn of(first: u32, second: u32) -> UnorderedPair
        ensures { result ≡ pair_of first second }
    {
        UnorderedPair {
            smaller: first.min(second),
            greater: first.max(second),
        }
    }

    // Whether the pair may come after the last one.
    fn may_follow(self, last: Option<UnorderedPair>) -> bool
        ensures { IsTrue result ↔ MayFollow last self }
    {
        match last {
            Some(last) => {
                last.smaller < self.smaller
                    || (last.smaller == self.smaller && last.greater < self.greater)
            }
            None => true,
        }
    }
}

/// What is claimed, and of which runs by their numbers.
#[derive(Clone, Copy)]
pub struct ClaimHead {
    pub claim: Claim,
    pub first: u32,
    pub second: u32,
}

fn version_of(line: &[u8]) -> Result<Version, FormFault>
    ensures { IsPartOf version_line (λ _. Unit {0}) line.now result }
{
    if line == b"desk-certificate 1".as_slice() {
        Ok(Version::One)
    } else if line == b"desk-certificate 2".as_slice() {
        Ok(Version::Many)
    } else {
        Err(FormFault::Bad)
    }
}

fn bound_of(line: &[u8]) -> Result<Bound, FormFault>
    ensures { IsPartOf bound_line IsLowerBound line.now result }
{
    let Some(text) = after(line, b"bound ") else {
        return Err(FormFault::Bad);
    };
    match number(text) {
        Some(low) => Ok(Bound { low, high: 0 }),
        None => Err(FormFault::Bad),
    }
}

fn both_bounds_of(line: &[u8]) -> Result<Bound, FormFault>
    ensures { IsPartOf both_bounds_line AreBothBounds line.now result }
{
    let Some(text) = after(line, b"bound ") else {
        return Err(FormFault::Bad);
    };
    let Some((low, high)) = cut(text, b' ') else {
        return Err(FormFault::Bad);
    };
    let Some(low) = number(low) else {
        return Err(FormFault::Bad);
    };
    match number(high) {
        Some(high) => Ok(Bound { low, high }),
        None => Err(FormFault::Bad),
    }
}

// The claim that a line begins with, and the text after it and a space.
fn claim_and_text(line: &[u8]) -> Option<(Claim, &[u8])>
    ensures some { IfSome result (λ p. line.now ≡ claim_line p.0 ++ 32 ∷ p.1.now) }
    ensures none { IfNone result ((claim : OfClaim) (rest : List ℕ) →
        line.now ≢ claim_line claim ++ 32 ∷ rest) }
{
    if let Some(text) = after(line, b"claim above ") {
        return Some((Claim::Above, text));
    }
    if let Some(text) = after(line, b"claim equal ") {
        return Some((Claim::Equal, text));
    }
    match after(line, b"claim open ") {
        Some(text) => Some((Claim::Open, text)),
        None => None,
    }
}

// Two numbers up to 255.
fn two_runs(text: &[u8]) -> Option<(u32, u32)>
    ensures some { IfSome result (λ p. text.now ≡ runs_text p.0 p.1) }
    ensures first { IfSome result (λ p. p.0 ≤ 255) }
    ensures second { IfSome result (λ p. p.1 ≤ 255) }
    ensures none { IfNone result ((a b : ℕ) → a ≤ 255 → b ≤ 255 → text.now ≢ runs_text a b) }
{
    let Some((first, second)) = cut(text, b' ') else {
        return None;
    };
    let Some(first) = count(first, 0, 255) else {
        return None;
    };
    match count(second, 0, 255) {
        Some(second) => Some((first, second)),
        None => None,
    }
}

// Whether a claim may name these two of so many runs.
fn are_runs_of_claim(runs: u32, last: Option<UnorderedPair>, first: u32, second: u32) -> bool
    ensures { IsTrue result ↔ AreRunsOfClaim runs last first second }
{
    let pair = UnorderedPair::of(first, second);
    first < runs && second < runs && first != second && pair.may_follow(last)
}

// The claim of a line on two of so many runs, whose pair comes after the last one.
fn head_of(line: &[u8], runs: u32, last: Option<UnorderedPair>) -> Result<ClaimHead, FormFault>
    requires { runs ≤ RUN_LIMIT }
    ensures { IsPartOf head_line (λ (h : OfHead). AreRunsOfClaim runs last h.first h.second)
        line.now result }
{
    let Some((claim, text)) = claim_and_text(line) else {
        return Err(FormFault::Bad);
    };
    let Some((first, second)) = two_runs(text) else {
        return Err(FormFault::Bad);
    };
    if !are_runs_of_claim(runs, last, first, second) {
        return Err(FormFault::Bad);
    }
    Ok(ClaimHead {
        claim,
        first,
        second,
    })
}

/// Takes the line of the version.
pub fn version_line(lines: &mut TextLines<'_>) -> Result<Version, FormFault>
    ensures { IsReading version_place lines.old.rest result lines.new }
{
    match lines.next_line() {
        Some(line) => version_of(line),
        None => Err(FormFault::Bad),
    }
}

/// Takes the line of a depth, if depths are allowed and it is the next line; else nothing is taken.
pub fn depth_line(lines: &mut TextLines<'_>, depths: bool) -> Option<u32>
    ensures { IsDepthTaken depths lines.old result lines.new }
{
    if !depths {
        return None;
    }
    number_line_if_next(lines, b"depth ", 1, 10_000)
}

/// Takes a topic that comes after another, and how many documents follow.
pub fn topic_line(
    alloc: Global,
    lines: &mut TextLines<'_>,
    before: &[u8],
) -> Result<(Name, u32), FormFault>
    ensures { IsReading (topic_place before.now) lines.old.rest result lines.new }
{
    name_and_count_line(alloc, lines, b"topic ", before, MOST_DOCUMENTS)
}

/// Takes the lower number of a topic.
pub fn bound_line(lines: &mut TextLines<'_>) -> Result<Bound, FormFault>
    ensures { IsReading (bound_place tt) lines.old.rest result lines.new }
{
    match lines.next_line() {
        Some(line) => bound_of(line),
        None => Err(FormFault::Bad),
    }
}

/// Takes both numbers of a topic.
pub fn both_bounds_line(lines: &mut TextLines<'_>) -> Result<Bound, FormFault>
    ensures { IsReading (both_bounds_place tt) lines.old.rest result lines.new }
{
    match lines.next_line() {
        Some(line) => both_bounds_of(line),
        None => Err(FormFault::Bad),
    }
}

/// Takes the number of one of so many documents, from `least` on.
#[inline(always)]
pub fn pick_line(lines: &mut TextLines<'_>, least: u64, docs: u64) -> Result<u32, FormFault>
    requires { docs ≤ DOCUMENT_LIMIT }
    ensures { IsReading (pick_place docs least) lines.old.rest result lines.new }
{
    number_below_line(lines, b"pick ", least, docs)
}

// A number of documents after a word.
fn list_count_of(line: &[u8], word: &[u8]) -> Result<u32, FormFault>
    ensures { IsPartOf (λ n. word.now ++ decimal n) IsDocumentCount line.now result }
{
    number_of(line, word, 0, MOST_DOCUMENTS)
}

/// Takes a word and how many documents a list picks.
pub fn list_count_line(lines: &mut TextLines<'_>, word: &[u8]) -> Result<u32, FormFault>
    requires { IsFreeOf 10 word.now }
    ensures { IsReading (number_place word.now IsDocumentCount) lines.old.rest result lines.new }
{
    match lines.next_line() {
        Some(line) => list_count_of(line, word),
        None => Err(FormFault::Bad),
    }
}

// A number of claims.
fn claim_count_of(line: &[u8]) -> Result<u32, FormFault>
    ensures { IsPartOf (λ n. codes "claims " ++ decimal n) IsClaimCount line.now result }
{
    number_of(line, b"claims ", 0, MOST_CLAIMS)
}

/// Takes the number of claims.
pub fn claim_count_line(lines: &mut TextLines<'_>) -> Result<u32, FormFault>
    ensures { IsReading (number_place (codes "claims ") IsClaimCount) lines.old.rest result lines.new }
{
    match lines.next_line() {
        Some(line) => claim_count_of(line),
        None => Err(FormFault::Bad),
    }
}

/// Takes the line of a claim on two of so many runs, whose pair comes after the last one.
pub fn head_line(
    lines: &mut TextLines<'_>,
    runs: u32,
    last: Option<UnorderedPair>,
) -> Result<ClaimHead, FormFault>
    requires { runs ≤ RUN_LIMIT }
    ensures { IsReading (head_place runs last) lines.old.rest result lines.new }
{
    match lines.next_line() {
        Some(line) => head_of(line, runs, last),
        None => Err(FormFault::Bad),
    }
}
