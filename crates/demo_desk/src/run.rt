// A run.
ghost use Rattle.std.specs.Prelude.{◌≡◌, ◌+◌, ◌*◌, ◌++◌, ◌∷◌, ◌<◌, ◌≤◌, codes, decimal, flat_map, IfOk, OnOk};
ghost use Rattle.desk_report.specs.Table.{ended};
ghost use Rattle.demo_desk.specs.Draws.{state_after};
ghost use Rattle.demo_desk.specs.declared.sizes.TheConstants.{TOPICS, DOCUMENTS, RUNS, PLACES};
ghost use Rattle.demo_desk.specs.Texts.{topic_text, document_text, score_text, tag_text, place_line, topic_places, places_on, run_after};

use crate::draws::Generator;
use crate::numbers::{DocumentNumber, RunNumber, TopicNumber};
use crate::sizes::{DOCUMENTS, PLACES, TOPICS};
use crate::words::{push_document, push_score, push_tag, push_topic};
use desk_model::{Memory, push_number};
use std::alloc::{AllocError, Global};

// The topic and the document of a place.
fn push_names(out: &mut Vec<u8>, topic: TopicNumber, doc: DocumentNumber) -> Result<(), AllocError>
    ensures { OnOk result (out.new.items ≡ out.old.items ++ (topic_text topic.number ++ codes " Q0 " ++ document_text doc.number)) }
{
    push_topic(out, topic)?;
    out.extend_from_slice(b" Q0 ")?;
    push_document(out, doc)
}

// Its place, its score and the name of the run, each after a space.
fn push_numbers(out: &mut Vec<u8>, run: RunNumber, place: u32, score: u32) -> Result<(), AllocError>
    ensures { OnOk result (out.new.items ≡ out.old.items ++
        (32 ∷ decimal place ++ 32 ∷ score_text score ++ 32 ∷ tag_text run.number)) }
{
    out.push(b' ')?;
    push_number(out, place)?;
    out.push(b' ')?;
    push_score(out, score)?;
    out.push(b' ')?;
    push_tag(out, run)
}

fn push_place(
    out: &mut Vec<u8>,
    run: RunNumber,
    topic: TopicNumber,
    doc: DocumentNumber,
    place: u32,
    score: u32,
) -> Result<(), AllocError>
    ensures { OnOk result (out.new.items ≡ out.old.items ++
        ended (place_line run.number topic.number doc.number place score)) }
{
    push_names(out, topic, doc)?;
    push_numbers(out, run, place, score)?;
    out.extend_from_slice(b"\n")
}

// The lines of a topic for the first so many places.
fn push_topic_places(
    out: &mut Vec<u8>,
    generator: &mut Generator,
    run: RunNumber,
    topic: TopicNumber,
    places: u32,
) -> Result<(), AllocError>
    requires { places ≤ PLACES }
    ensures text { OnOk result (out.new.items ≡ out.old.items ++
        flat_map ended (topic_places generator.old run.number topic.number places)) }
    ensures state { OnOk result (generator.new ≡ state_after generator.old (1 + places)) }
{
    let first = generator.draw() % DOCUMENTS;
    for place in 0..places {
        let doc = DocumentNumber {
            number: (first + 7 * place) % DOCUMENTS,
        };
        let score = generator.draw() % 100_000;
        push_place(out, run, topic, doc, place, score)?;
    }
    Ok(())
}

// The lines of the first so many topics.
fn push_places(
    out: &mut Vec<u8>,
    generator: &mut Generator,
    run: RunNumber,
    places: u32,
    topics: u32,
) -> Result<(), AllocError>
    requires places { places ≤ PLACES }
    requires topics { topics ≤ TOPICS }
    ensures text { OnOk result (out.new.items ≡ out.old.items ++
        flat_map ended (places_on generator.old run.number places topics)) }
    ensures state { OnOk result (generator.new ≡
        state_after generator.old ((1 + places) * topics)) }
{
    for topic in 0..topics {
        push_topic_places(out, generator, run, TopicNumber { number: topic }, places)?;
    }
    Ok(())
}

/// A run of the demo, by its number from 0, as the text of a run file: 50 topics with 500 documents each. It takes 25,050
/// draws.
///
/// # Errors
/// `Memory`: out of memory. Some draws were made.
pub fn run_text(alloc: Global, generator: &mut Generator, run: u32) -> Result<Vec<u8>, Memory>
    requires { run < RUNS }
    ensures text { IfOk result (λ text. text.items ≡ run_after generator.old run) }
    ensures state { OnOk result (generator.new ≡
        state_after generator.old ((1 + PLACES) * TOPICS)) }
{
    let mut out = Vec::new(alloc);
    push_places(
        &mut out,
        generator,
        RunNumber { number: run },
        PLACES,
        TOPICS,
    )?;
    Ok(out)
}
