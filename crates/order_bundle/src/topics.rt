//! Reads the runs and the topics of a bundle.
ghost use Rattle.std.specs.Prelude.{◌≡◌, ◌≤◌};
ghost use Rattle.line_forms.specs.Reading.{IsReading};
ghost use Rattle.line_forms.specs.Rows.{last_name, named_rows};
ghost use Rattle.order_bundle.specs.Places.{listed_topic, run_places, topic_places, topics_places};
ghost use Rattle.order_bundle.specs.declared.bundle.TopicNames.{TopicNames as OfTopic};

use crate::bundle::{BundleTopics, TopicNames};
use crate::places::topic_line;
use desk_model::{MOST_RUNS, Name};
use line_forms::places::number_line;
use line_forms::{FormFault, TextLines};
use order_certificate::NameList;
use order_certificate::topics::names;
use std::alloc::Global;

// The name of the last of topics, or nothing.
fn last_topic(topics: &[TopicNames]) -> &[u8]
    ensures { result.now ≡ last_name (λ (t : OfTopic). t.topic) topics.now }
{
    match topics.last() {
        Some(topic) => topic.topic.as_bytes(),
        None => b"",
    }
}

/// Takes the number of runs, and their names.
pub fn runs(alloc: Global, lines: &mut TextLines<'_>) -> Result<NameList, FormFault>
    ensures { IsReading run_places lines.old.rest result lines.new }
{
    let count = number_line(lines, b"runs ", 2, MOST_RUNS as u64)?;
    names(alloc, lines, b"run ", count)
}

// So many documents of a topic.
fn listed(
    alloc: Global,
    lines: &mut TextLines<'_>,
    topic: Name,
    count: u32,
) -> Result<TopicNames, FormFault>
    ensures { IsReading (listed_topic topic count) lines.old.rest result lines.new }
{
    let docs = names(alloc, lines, b"doc ", count)?;
    Ok(TopicNames { topic, docs })
}

// A topic that comes after another, with its documents.
fn topic(alloc: Global, lines: &mut TextLines<'_>, before: &[u8]) -> Result<TopicNames, FormFault>
    ensures { IsReading (topic_places before.now) lines.old.rest result lines.new }
{
    let (topic, count) = topic_line(alloc, lines, before)?;
    listed(alloc, lines, topic, count)
}

// So many topics with their documents.
fn listed_topics(
    alloc: Global,
    lines: &mut TextLines<'_>,
    count: u32,
) -> Result<BundleTopics, FormFault>
    ensures { IsReading (named_rows topic_places (λ t. t.topic) count) lines.old.rest result
        lines.new }
{
    let mut topics = Vec::new(alloc);
    while topics.len() < count as usize {
        let next = topic(alloc, lines, last_topic(topics.as_slice()))?;
        topics.push(next)?;
    }
    Ok(BundleTopics::new(topics))
}

/// Takes the number of topics, and each with its documents.
pub fn topics(alloc: Global, lines: &mut TextLines<'_>) -> Result<BundleTopics, FormFault>
    ensures { IsReading topics_places lines.old.rest result lines.new }
{
    let count = number_line(lines, b"topics ", 1, 10_000)?;
    listed_topics(alloc, lines, count)
}
