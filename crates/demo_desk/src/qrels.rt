// The judgements.
ghost use Rattle.std.specs.Prelude.{◌≡◌, ◌++◌, ◌*◌, ◌≤◌, flat_map, pos, IfOk, OnOk};
ghost use Rattle.desk_report.specs.Judging.{qrels_line};
ghost use Rattle.desk_report.specs.Table.{ended};
ghost use Rattle.demo_desk.specs.Draws.{state_after};
ghost use Rattle.demo_desk.specs.declared.sizes.TheConstants.{TOPICS, DOCUMENTS};
ghost use Rattle.demo_desk.specs.Texts.{topic_text, document_text, judgement_lines, topic_judgements, judgements_on, qrels_after};

use crate::draws::Generator;
use crate::numbers::{DocumentNumber, TopicNumber};
use crate::sizes::{DOCUMENTS, TOPICS};
use crate::words::{push_document, push_topic};
use desk_model::{Memory, push_number};
use std::alloc::{AllocError, Global};

fn push_line(
    out: &mut Vec<u8>,
    topic: TopicNumber,
    doc: DocumentNumber,
    grade: u32,
) -> Result<(), AllocError>
    ensures { OnOk result (out.new.items ≡ out.old.items ++
        ended (qrels_line (topic_text topic.number) (document_text doc.number) (pos grade))) }
{
    push_topic(out, topic)?;
    out.extend_from_slice(b" 0 ")?;
    push_document(out, doc)?;
    out.push(b' ')?;
    push_number(out, grade)?;
    out.extend_from_slice(b"\n")
}

// The line of a document, if it is listed.
fn push_judgement(
    out: &mut Vec<u8>,
    topic: TopicNumber,
    doc: DocumentNumber,
    value: u32,
) -> Result<(), AllocError>
    ensures { OnOk result (out.new.items ≡ out.old.items ++
        flat_map ended (judgement_lines topic.number doc.number value)) }
{
    if value % 10 == 0 || doc.number == 0 {
        push_line(out, topic, doc, (value / 10) % 3)
    } else {
        Ok(())
    }
}

// The lines of a topic for the first so many documents.
fn push_topic_judgements(
    out: &mut Vec<u8>,
    generator: &mut Generator,
    topic: TopicNumber,
    documents: u32,
) -> Result<(), AllocError>
    requires { documents ≤ DOCUMENTS }
    ensures text { OnOk result (out.new.items ≡ out.old.items ++
        flat_map ended (topic_judgements generator.old topic.number documents)) }
    ensures state { OnOk result (generator.new ≡ state_after generator.old documents) }
{
    for doc in 0..documents {
        let value = generator.draw();
        push_judgement(out, topic, DocumentNumber { number: doc }, value)?;
    }
    Ok(())
}

// The lines of the first so many topics.
fn push_judgements(
    out: &mut Vec<u8>,
    generator: &mut Generator,
    documents: u32,
    topics: u32,
) -> Result<(), AllocError>
    requires documents { documents ≤ DOCUMENTS }
    requires topics { topics ≤ TOPICS }
    ensures text { OnOk result (out.new.items ≡ out.old.items ++
        flat_map ended (judgements_on generator.old documents topics)) }
    ensures state { OnOk result (generator.new ≡ state_after generator.old (documents * topics)) }
{
    for topic in 0..topics {
        push_topic_judgements(out, generator, TopicNumber { number: topic }, documents)?;
    }
    Ok(())
}

/// The judgements of the demo, as the text of a judgements file: 50 topics, 2,000 documents each, of which about a tenth
/// is listed. It takes 100,000 draws.
///
/// # Errors
/// `Memory`: out of memory. Some draws were made.
pub fn qrels_text(alloc: Global, generator: &mut Generator) -> Result<Vec<u8>, Memory>
    ensures text { IfOk result (λ text. text.items ≡ qrels_after generator.old) }
    ensures state { OnOk result (generator.new ≡ state_after generator.old (DOCUMENTS * TOPICS)) }
{
    let mut out = Vec::new(alloc);
    push_judgements(&mut out, generator, DOCUMENTS, TOPICS)?;
    Ok(out)
}
