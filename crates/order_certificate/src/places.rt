//! The lines of a certificate, each taken at its place.
ghost use Rattle.std.specs.Prelude.{true, ◌≡◌, ◌≢◌, ◌++◌, ◌∷◌, ◌≤◌, List, ℕ, codes, IfSome, IfNone, IfOk};
ghost use Rattle.desk_model.specs.MeasureText.{IsMeasure, measure_text};
ghost use Rattle.desk_model.specs.Name.{is_name};
ghost use Rattle.line_forms.specs.Places.{IsLaterName, count_line};
ghost use Rattle.line_forms.specs.Reading.{IsReading, IsPartOf};
ghost use Rattle.order_certificate.specs.Certificate.{IsDocumentCount, IsLowBound, IsLowHighBound, low_line, low_high_line};
ghost use Rattle.order_certificate.specs.Places.{measure_place, low_place, low_high_place, low_count_place, high_count_place, claim_place, claim_line};
ghost use Rattle.order_certificate.specs.declared.certificate.TopicBound.{TopicBound as OfBound};

use crate::certificate::TopicBound;
use desk_model::{MeasureName, Name, measure_of_text_is_unique, push_measure, read_measure};
use line_forms::lines::{after, cut};
use line_forms::parts::{count, later_name_and_text, number};
use line_forms::places::name_and_count_line;
use line_forms::{FormFault, TextLines};
use std::alloc::{AllocError, Global};

/// What a certificate claims.
#[derive(Clone, Copy)]
pub enum Claim {
    Above,
    Equal,
    Open,
}

const MOST_DOCUMENTS: u64 = 25_000_000;

// A measure as it is printed.
fn printed(alloc: Global, measure: &MeasureName) -> Result<Vec<u8>, AllocError>
    ensures { IfOk result (λ text. text.items ≡ measure_text measure.now) }
{
    let mut text = Vec::new(alloc);
    push_measure(&mut text, measure)?;
    Ok(text)
}

fn measure_of(alloc: Global, line: &[u8]) -> Result<MeasureName, FormFault>
    ensures { IsPartOf (λ measure. codes "measure " ++ measure_text measure) IsMeasure line.now result }
{
    measure_of_text_is_unique();
    let Some(text) = after(line, b"measure ") else {
        return Err(FormFault::Bad);
    };
    let Ok(measure) = read_measure(text) else {
        return Err(FormFault::Bad);
    };
    let printed = printed(alloc, &measure)?;
    if printed.as_slice() != text {
        return Err(FormFault::Bad);
    }
    Ok(measure)
}

fn claim_of(line: &[u8]) -> Result<Claim, FormFault>
    ensures { IsPartOf claim_line (λ _. Unit {0}) line.now result }
{
    if line == b"claim above".as_slice() {
        Ok(Claim::Above)
    } else if line == b"claim equal".as_slice() {
        Ok(Claim::Equal)
    } else if line == b"claim open".as_slice() {
        Ok(Claim::Open)
    } else {
        Err(FormFault::Bad)
    }
}

fn low_of(alloc: Global, before: &[u8], line: &[u8]) -> Result<TopicBound, FormFault>
    ensures { IsPartOf low_line (λ (b : OfBound). IsLaterName before.now b.topic ×
        IsLowBound b) line.now result }
{
    let (topic, low) = later_name_and_text(alloc, b"topic ", before, line)?;
    match number(low) {
        Some(low) => Ok(TopicBound {
            topic,
            low,
            high: 0,
        }),
        None => Err(FormFault::Bad),
    }
}

fn low_high_of(alloc: Global, before: &[u8], line: &[u8]) -> Result<TopicBound, FormFault>
    ensures { IsPartOf low_high_line (λ (b : OfBound). IsLaterName before.now b.topic ×
        IsLowHighBound b) line.now result }
{
    let (topic, numbers) = later_name_and_text(alloc, b"topic ", before, line)?;
    let Some((low, high)) = cut(numbers, b' ') else {
        return Err(FormFault::Bad);
    };
    let Some(low) = number(low) else {
        return Err(FormFault::Bad);
    };
    match number(high) {
        Some(high) => Ok(TopicBound { topic, low, high }),
        None => Err(FormFault::Bad),
    }
}

// The text after a word, a topic and a space.
fn after_topic<'a>(line: &'a [u8], word: &[u8], topic: &[u8]) -> Option<&'a [u8]>
    ensures some { IfSome result (λ rest. line.now ≡ word.now ++ (topic.now ++ 32 ∷ rest.now)) }
    ensures none { IfNone result ((rest : List ℕ) →
        line.now ≢ word.now ++ (topic.now ++ 32 ∷ rest)) }
{
    let text = after(line, word)?;
    let text = after(text, topic)?;
    after(text, b" ")
}

fn high_count_of(topic: &[u8], line: &[u8]) -> Result<u32, FormFault>
    ensures { IsPartOf (λ n. count_line (codes "high ") topic.now n) IsDocumentCount line.now result }
{
    let Some(text) = after_topic(line, b"high ", topic) else {
        return Err(FormFault::Bad);
    };
    match count(text, 0, MOST_DOCUMENTS) {
        Some(documents) => Ok(documents),
        None => Err(FormFault::Bad),
    }
}

/// Takes the line of the measure.
pub fn measure_line(alloc: Global, lines: &mut TextLines<'_>) -> Result<MeasureName, FormFault>
    ensures { IsReading measure_place lines.old.rest result lines.new }
{
    match lines.next_line() {
        Some(line) => measure_of(alloc, line),
        None => Err(FormFault::Bad),
    }
}

/// Takes the line of the claim.
pub fn claim_line(lines: &mut TextLines<'_>) -> Result<Claim, FormFault>
    ensures { IsReading claim_place lines.old.rest result lines.new }
{
    match lines.next_line() {
        Some(line) => claim_of(line),
        None => Err(FormFault::Bad),
    }
}

/// Takes a topic that comes after another, and its lower number.
pub fn low_line(
    alloc: Global,
    lines: &mut TextLines<'_>,
    before: &[u8],
) -> Result<TopicBound, FormFault>
    ensures { IsReading (low_place before.now) lines.old.rest result lines.new }
{
    match lines.next_line() {
        Some(line) => low_of(alloc, before, line),
        None => Err(FormFault::Bad),
    }
}

/// Takes a topic that comes after another, and both its numbers.
pub fn low_high_line(
    alloc: Global,
    lines: &mut TextLines<'_>,
    before: &[u8],
) -> Result<TopicBound, FormFault>
    ensures { IsReading (low_high_place before.now) lines.old.rest result lines.new }
{
    match lines.next_line() {
        Some(line) => low_high_of(alloc, before, line),
        None => Err(FormFault::Bad),
    }
}

/// Takes a topic that comes after another, and how many documents its first list has.
pub fn low_count_line(
    alloc: Global,
    lines: &mut TextLines<'_>,
    before: &[u8],
) -> Result<(Name, u32), FormFault>
    ensures { IsReading (low_count_place before.now) lines.old.rest result lines.new }
{
    name_and_count_line(alloc, lines, b"low ", before, MOST_DOCUMENTS)
}

/// Takes how many documents the second list of a topic has.
pub fn high_count_line(lines: &mut TextLines<'_>, topic: &[u8]) -> Result<u32, FormFault>
    requires { is_name topic.now ≡ true }
    ensures { IsReading (high_count_place topic.now) lines.old.rest result lines.new }
{
    match lines.next_line() {
        Some(line) => high_count_of(topic, line),
        None => Err(FormFault::Bad),
    }
}
