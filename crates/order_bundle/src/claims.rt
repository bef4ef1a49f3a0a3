//! Reads the claims of a bundle.
ghost use Rattle.std.specs.Prelude.{◌≡◌, ◌≤◌, ◌<◌, ◌+◌, List, ℕ, length, codes, None};
ghost use Rattle.desk_model.specs.Limits.{DOCUMENT_LIMIT, RUN_LIMIT};
ghost use Rattle.line_forms.specs.Reading.{IsReading};
ghost use Rattle.line_forms.specs.Rows.{rows};
ghost use Rattle.order_certificate.specs.Places.{IsWord};
ghost use Rattle.order_bundle.specs.Bundle.{AreTopicNames, last_pair, pair_of};
ghost use Rattle.order_bundle.specs.Places.{doc_count};
ghost use Rattle.order_bundle.specs.Places.{after_head, both_bounds_places, bound_places, claim_places, claims_places, evidence_places, high_places, list_places, pick_places, picks_places, topic_picks_places};

use crate::bundle::{
    PairBounds, PairClaim, PairClaims, PairEvidence, PairPicks, PickList, Picks, TopicNames,
};
use crate::places::{
    ClaimHead, UnorderedPair, both_bounds_line, bound_line, claim_count_line, head_line,
    list_count_line, pick_line,
};
use line_forms::{FormFault, TextLines};
use order_certificate::places::Claim;
use std::alloc::Global;

// So many numbers of so many documents. Room is taken for no more numbers than there are documents.
fn picks(
    alloc: Global,
    lines: &mut TextLines<'_>,
    docs: u64,
    count: u32,
) -> Result<PickList, FormFault>
    requires { docs ≤ DOCUMENT_LIMIT }
    ensures { IsReading (pick_places docs count) lines.old.rest result lines.new }
{
    let mut picks = Vec::with_capacity(alloc, docs.min(u64::from(count)) as usize)?;
    let mut least = 0;
    while picks.len() < count as usize {
        let pick = pick_line(lines, least, docs)?;
        picks.push(pick)?;
        least = u64::from(pick) + 1;
    }
    Ok(PickList::new(picks))
}

// A list after its count.
fn list(
    alloc: Global,
    lines: &mut TextLines<'_>,
    word: &[u8],
    docs: u64,
) -> Result<PickList, FormFault>
    requires word { IsWord word.now }
    requires docs { docs ≤ DOCUMENT_LIMIT }
    ensures { IsReading (list_places word.now docs) lines.old.rest result lines.new }
{
    let count = list_count_line(lines, word)?;
    picks(alloc, lines, docs, count)
}

// The second list of a topic with so many documents.
fn high_list(
    alloc: Global,
    lines: &mut TextLines<'_>,
    docs: u64,
    low: PickList,
) -> Result<Picks, FormFault>
    requires { docs ≤ DOCUMENT_LIMIT }
    ensures { IsReading (high_places docs low) lines.old.rest result lines.new }
{
    let high = list(alloc, lines, b"high ", docs)?;
    Ok(Picks { low, high })
}

// The two lists of a topic with so many documents.
fn both_lists(alloc: Global, lines: &mut TextLines<'_>, docs: u64) -> Result<Picks, FormFault>
    requires { docs ≤ DOCUMENT_LIMIT }
    ensures { IsReading (picks_places docs) lines.old.rest result lines.new }
{
    let low = list(alloc, lines, b"low ", docs)?;
    high_list(alloc, lines, docs, low)
}

// The two lists of each topic.
fn topic_picks(
    alloc: Global,
    lines: &mut TextLines<'_>,
    topics: &[TopicNames],
) -> Result<PairPicks, FormFault>
    requires { AreTopicNames topics.now }
    ensures { IsReading (topic_picks_places topics.now) lines.old.rest result lines.new }
{
    let mut picks = Vec::new(alloc);
    for topic in topics {
        let next = both_lists(alloc, lines, topic.docs.as_slice().len() as u64)?;
        picks.push(next)?;
    }
    Ok(PairPicks::new(picks))
}

// A lower number for each of so many topics.
fn bounds(alloc: Global, lines: &mut TextLines<'_>, topics: usize) -> Result<PairBounds, FormFault>
    ensures { IsReading (bound_places topics) lines.old.rest result lines.new }
{
    let mut bounds = Vec::new(alloc);
    while bounds.len() < topics {
        let bound = bound_line(lines)?;
        bounds.push(bound)?;
    }
    Ok(PairBounds::new(bounds))
}

// Both numbers for each of so many topics.
fn both_bounds(
    alloc: Global,
    lines: &mut TextLines<'_>,
    topics: usize,
) -> Result<PairBounds, FormFault>
    ensures { IsReading (both_bounds_places topics) lines.old.rest result lines.new }
{
    let mut bounds = Vec::new(alloc);
    while bounds.len() < topics {
        let bound = both_bounds_line(lines)?;
        bounds.push(bound)?;
    }
    Ok(PairBounds::new(bounds))
}

// The evidence of a claim, one row for each topic.
fn evidence(
    alloc: Global,
    lines: &mut TextLines<'_>,
    topics: &[TopicNames],
    claim: Claim,
) -> Result<PairEvidence, FormFault>
    requires { AreTopicNames topics.now }
    ensures { IsReading (evidence_places topics.now claim) lines.old.rest result lines.new }
{
    match claim {
        Claim::Above => {
            let lower = bounds(alloc, lines, topics.len())?;
            Ok(PairEvidence::Above(lower))
        }
        Claim::Equal => {
            let both = both_bounds(alloc, lines, topics.len())?;
            Ok(PairEvidence::Equal(both))
        }
        Claim::Open => {
            let lists = topic_picks(alloc, lines, topics)?;
            Ok(PairEvidence::Open(lists))
        }
    }
}

// A claim after its line.
fn claimed(
    alloc: Global,
    lines: &mut TextLines<'_>,
    topics: &[TopicNames],
    head: ClaimHead,
) -> Result<PairClaim, FormFault>
    requires { AreTopicNames topics.now }
    ensures { IsReading (after_head topics.now head) lines.old.rest result lines.new }
{
    let evidence = evidence(alloc, lines, topics, head.claim)?;
    Ok(PairClaim {
        first: head.first,
        second: head.second,
        evidence,
    })
}

// A claim on two of so many runs, whose pair comes after the last one.
fn claim(
    alloc: Global,
    lines: &mut TextLines<'_>,
    runs: u32,
    topics: &[TopicNames],
    last: Option<UnorderedPair>,
) -> Result<PairClaim, FormFault>
    requires runs { runs ≤ RUN_LIMIT }
    requires topics { AreTopicNames topics.now }
    ensures { IsReading (claim_places runs topics.now last) lines.old.rest result lines.new }
{
    let head = head_line(lines, runs, last)?;
    claimed(alloc, lines, topics, head)
}

// So many claims.
fn each_claim(
    alloc: Global,
    lines: &mut TextLines<'_>,
    runs: u32,
    topics: &[TopicNames],
    count: u32,
) -> Result<PairClaims, FormFault>
    requires runs { runs ≤ RUN_LIMIT }
    requires topics { AreTopicNames topics.now }
    ensures { IsReading (rows (claim_places runs topics.now) last_pair count None) lines.old.rest
        result lines.new }
{
    let mut claims = Vec::new(alloc);
    let mut last = None;
    while claims.len() < count as usize {
        let next = claim(alloc, lines, runs, topics, last)?;
        last = Some(UnorderedPair::of(next.first, next.second));
        claims.push(next)?;
    }
    Ok(PairClaims::new(claims))
}

/// Takes the number of claims, and each with its evidence, on pairs of so many runs.
pub fn claims(
    alloc: Global,
    lines: &mut TextLines<'_>,
    runs: u32,
    topics: &[TopicNames],
) -> Result<PairClaims, FormFault>
    requires runs { runs ≤ RUN_LIMIT }
    requires topics { AreTopicNames topics.now }
    ensures { IsReading (claims_places runs topics.now) lines.old.rest result lines.new }
{
    let count = claim_count_line(lines)?;
    each_claim(alloc, lines, runs, topics, count)
}
