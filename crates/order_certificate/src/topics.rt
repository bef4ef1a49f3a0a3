//! Reads the evidence of a certificate, topic by topic.
ghost use Rattle.std.specs.Prelude.{◌≡◌, ◌≤◌};
ghost use Rattle.line_forms.specs.Reading.{IsReading};
ghost use Rattle.line_forms.specs.Rows.{last_name, named_rows};
ghost use Rattle.order_certificate.specs.Places.{IsWord, document_places, name_places, low_place, low_high_place, witness_places, high_places, claim_places, claim_rows, evidence_places, listed_places};
ghost use Rattle.order_certificate.specs.declared.certificate.TopicBound.{TopicBound as OfBound};
ghost use Rattle.order_certificate.specs.declared.certificate.TopicWitness.{TopicWitness as OfWitness};

use crate::certificate::{Evidence, NameList, TopicBound, TopicBounds, TopicWitness, Witnesses};
use crate::places::{Claim, claim_line, high_count_line, low_count_line, low_high_line, low_line};
use desk_model::Name;
use line_forms::places::{later_name_line, number_line};
use line_forms::{FormFault, TextLines};
use std::alloc::Global;

// The last of names, or nothing.
fn last_of(names: &[Name]) -> &[u8]
    ensures { result.now ≡ last_name (λ name. name) names.now }
{
    match names.last() {
        Some(name) => name.as_bytes(),
        None => b"",
    }
}

// The topic of the last of bounds, or nothing.
fn last_bound(bounds: &[TopicBound]) -> &[u8]
    ensures { result.now ≡ last_name (λ (b : OfBound). b.topic) bounds.now }
{
    match bounds.last() {
        Some(bound) => bound.topic.as_bytes(),
        None => b"",
    }
}

// The topic of the last of witnesses, or nothing.
fn last_witness(witnesses: &[TopicWitness]) -> &[u8]
    ensures { result.now ≡ last_name (λ (w : OfWitness). w.topic) witnesses.now }
{
    match witnesses.last() {
        Some(witness) => witness.topic.as_bytes(),
        None => b"",
    }
}

/// Takes so many names, each after a word and greater than the one before it. No room is taken for more than were read.
pub fn names(
    alloc: Global,
    lines: &mut TextLines<'_>,
    word: &[u8],
    count: u32,
) -> Result<NameList, FormFault>
    requires { IsWord word.now }
    ensures { IsReading (name_places word.now count) lines.old.rest result lines.new }
{
    let mut names = Vec::new(alloc);
    while names.len() < count as usize {
        let name = later_name_line(alloc, lines, word, last_of(names.as_slice()))?;
        names.push(name)?;
    }
    Ok(NameList::new(names))
}

// So many documents.
fn documents(alloc: Global, lines: &mut TextLines<'_>, count: u32) -> Result<NameList, FormFault>
    ensures { IsReading (document_places count) lines.old.rest result lines.new }
{
    names(alloc, lines, b"doc ", count)
}

// So many topics with a lower number.
fn lows(alloc: Global, lines: &mut TextLines<'_>, count: u32) -> Result<TopicBounds, FormFault>
    ensures { IsReading (named_rows low_place (λ b. b.topic) count) lines.old.rest result
        lines.new }
{
    let mut bounds = Vec::new(alloc);
    while bounds.len() < count as usize {
        let bound = low_line(alloc, lines, last_bound(bounds.as_slice()))?;
        bounds.push(bound)?;
    }
    Ok(TopicBounds::new(bounds))
}

// So many topics with both numbers.
fn lows_and_highs(
    alloc: Global,
    lines: &mut TextLines<'_>,
    count: u32,
) -> Result<TopicBounds, FormFault>
    ensures { IsReading (named_rows low_high_place (λ b. b.topic) count) lines.old.rest result
        lines.new }
{
    let mut bounds = Vec::new(alloc);
    while bounds.len() < count as usize {
        let bound = low_high_line(alloc, lines, last_bound(bounds.as_slice()))?;
        bounds.push(bound)?;
    }
    Ok(TopicBounds::new(bounds))
}

// The second list of a topic.
fn high_list(
    alloc: Global,
    lines: &mut TextLines<'_>,
    topic: Name,
    low: NameList,
) -> Result<TopicWitness, FormFault>
    ensures { IsReading (high_places topic low) lines.old.rest result lines.new }
{
    let count = high_count_line(lines, topic.as_bytes())?;
    let high = documents(alloc, lines, count)?;
    Ok(TopicWitness { topic, low, high })
}

// So many documents of a topic's first list, and its second list.
fn low_list(
    alloc: Global,
    lines: &mut TextLines<'_>,
    topic: Name,
    count: u32,
) -> Result<TopicWitness, FormFault>
    ensures { IsReading (listed_places topic count) lines.old.rest result lines.new }
{
    let low = documents(alloc, lines, count)?;
    high_list(alloc, lines, topic, low)
}

// The two lists of a topic that comes after another.
fn witness(
    alloc: Global,
    lines: &mut TextLines<'_>,
    before: &[u8],
) -> Result<TopicWitness, FormFault>
    ensures { IsReading (witness_places before.now) lines.old.rest result lines.new }
{
    let (topic, count) = low_count_line(alloc, lines, before)?;
    low_list(alloc, lines, topic, count)
}

// The lists of so many topics.
fn witnesses(alloc: Global, lines: &mut TextLines<'_>, count: u32) -> Result<Witnesses, FormFault>
    ensures { IsReading (named_rows witness_places (λ w. w.topic) count) lines.old.rest result
        lines.new }
{
    let mut witnesses = Vec::new(alloc);
    while witnesses.len() < count as usize {
        let next = witness(alloc, lines, last_witness(witnesses.as_slice()))?;
        witnesses.push(next)?;
    }
    Ok(Witnesses::new(witnesses))
}

// The evidence of a claim on so many topics.
fn rows_of(
    alloc: Global,
    lines: &mut TextLines<'_>,
    claim: Claim,
    count: u32,
) -> Result<Evidence, FormFault>
    ensures { IsReading (claim_rows claim count) lines.old.rest result lines.new }
{
    match claim {
        Claim::Above => {
            let lower = lows(alloc, lines, count)?;
            Ok(Evidence::Above(lower))
        }
        Claim::Equal => {
            let bounds = lows_and_highs(alloc, lines, count)?;
            Ok(Evidence::Equal(bounds))
        }
        Claim::Open => {
            let lists = witnesses(alloc, lines, count)?;
            Ok(Evidence::Open(lists))
        }
    }
}

// The number of topics, and the evidence of a claim on them.
fn claimed(alloc: Global, lines: &mut TextLines<'_>, claim: Claim) -> Result<Evidence, FormFault>
    ensures { IsReading (claim_places claim) lines.old.rest result lines.new }
{
    let count = number_line(lines, b"topics ", 1, 10_000)?;
    rows_of(alloc, lines, claim, count)
}

/// Takes the claim, and its evidence topic by topic.
pub fn evidence(alloc: Global, lines: &mut TextLines<'_>) -> Result<Evidence, FormFault>
    ensures { IsReading evidence_places lines.old.rest result lines.new }
{
    let claim = claim_line(lines)?;
    claimed(alloc, lines, claim)
}
