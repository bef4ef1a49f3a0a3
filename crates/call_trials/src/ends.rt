// The ends of each measure for two runs of one document each, by hand.
ghost use Rattle.std.specs.Prelude.{ℕ, ◌<◌, ◌≤◌, length, IfOk};
ghost use Rattle.desk_model.specs.MeasureText.{IsMeasure};
ghost use Rattle.desk_model.specs.Ranking.{IsRanking};

use desk_model::{Mark, MeasureName, Ranking};
use order_verifier::{Relevance, TopicEnds, TopicMarks};
use std::alloc::Global;
use std::test::Fail;

const R: Mark = Mark::Relevant;

const O: Mark = Mark::Other;

const U: Mark = Mark::Unjudged;

const HALF: i128 = 500_000_000_000_000_000;

const WHOLE: i128 = 1_000_000_000_000_000_000;

/// The completion of a topic with one relevant document.
#[derive(Drop)]
struct OneRelevant {
    documents: u32,
    doc: u32,
    ghost within: { doc < documents },
}

impl Relevance for OneRelevant {
    ghost use Rattle.std.specs.Prelude.{nat_eq};

    ghost universe = { λ t. t.documents };

    ghost truth = { λ t doc. nat_eq t.doc doc };

    fn relevant_count(&self) -> u32 {
        1
    }

    fn is_relevant(&self, doc: u32) -> bool {
        self.doc == doc
    }
}

fn run_of(alloc: Global, doc: u32, universe: u32) -> Result<Ranking, Fail>
    requires { doc < universe }
    ensures { IfOk result (λ ranking. IsRanking universe ranking) }
{
    Ok(Ranking::new(alloc, [doc].to_vec(alloc)?, universe)?)
}

/// What a measure says of a run of document 0 and a run of document 1: the lower end of the least
/// difference, that of the swapped runs, and the upper end where document 0 alone is relevant.
#[derive(Clone, Copy)]
struct Row<'r> {
    measure: MeasureName,
    marks: &'r [Mark],
    low: i128,
    swapped: i128,
    upper: i128,
}

// Whether a row holds.
fn is_met(alloc: Global, row: &Row<'_>) -> Result<bool, Fail>
    requires measure { IsMeasure row.now.measure }
    requires some { 1 < length row.now.marks.now }
    requires few { length row.now.marks.now ≤ 100 }
{
    let documents = row.marks.len() as u32;
    let a = run_of(alloc, 0, documents)?;
    let b = run_of(alloc, 1, documents)?;
    let ends = TopicEnds::new(alloc, &row.measure)?;
    let relevant = OneRelevant { documents, doc: 0 };
    let marks = TopicMarks::anew(row.marks);
    Ok(
        ends.least_low(&a, &b, &marks) == row.low
            && ends.least_low(&b, &a, &marks) == row.swapped
            && ends.upper_end(&a, &b, &relevant) == row.upper,
    )
}

#[test]
fn ends_by_hand(rt: HostRuntime) -> Result<(), Fail> {
    let alloc = rt.alloc();
    let precision = Row {
        measure: MeasureName::Precision(2),
        marks: &[R, O, U],
        low: 1,
        swapped: -1,
        upper: 1,
    };
    assert!(rt; is_met(alloc, &precision)?);
    let recall = Row {
        measure: MeasureName::Recall(1),
        marks: &[R, O, U],
        low: HALF,
        swapped: -WHOLE,
        upper: WHOLE,
    };
    assert!(rt; is_met(alloc, &recall)?);
    let r_precision = Row {
        measure: MeasureName::RPrecision,
        marks: &[U, U, O],
        low: -WHOLE,
        swapped: -WHOLE,
        upper: WHOLE,
    };
    assert!(rt; is_met(alloc, &r_precision)?);
    let reciprocal = Row {
        measure: MeasureName::Reciprocal,
        marks: &[R, U],
        low: 0,
        swapped: -WHOLE,
        upper: WHOLE,
    };
    assert!(rt; is_met(alloc, &reciprocal)?);
    let biased = Row {
        measure: MeasureName::Biased { top: 5, bottom: 10 },
        marks: &[R, U],
        low: -HALF,
        swapped: -WHOLE,
        upper: 1,
    };
    assert!(rt; is_met(alloc, &biased)?);
    Ok(())
}
