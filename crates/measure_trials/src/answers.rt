//! What a measure answers, asked once of each.
ghost use Rattle.std.specs.Prelude.{◌≡◌, ◌<◌, ◌≤◌, length, IfOk};
ghost use Rattle.desk_model.specs.Ranking.{IsRanking};
ghost use Rattle.desk_model.specs.MeasureText.{IsMeasure};
ghost use Rattle.measure_core.specs.Laws.{AreMet};

use any_measure::{AnyMeasure, Common};
use desk_model::{Mark, MeasureName, Memory, Ranking};
use every_completion::is_ranking;
use measure_core::{Cell, ListRoom, ListSizes, Maker, Measure, Steps};
use std::alloc::Global;
use std::marker::Brand;
use std::process::Abort;
use std::sync::ledger::{Blank, Ledger};
use std::test::Fail;
use topic_counts::Span;

/// The cell and both cases of two runs, the documents of the least one, how often both cases list each document and how
/// many they list, the bounds of the first, and the weight of a document.
#[derive(Drop)]
pub struct Answers {
    pub unit: i128,
    pub cell: Cell,
    pub bounds: Span,
    pub weight: u128,
    pub least_case: Vec<bool>,
    pub most_case: Vec<bool>,
    pub least_docs: Vec<u32>,
    pub counts: Vec<u32>,
    pub sizes: ListSizes,
}

pub fn ranking(rt: &impl Abort, alloc: Global, docs: &[u32], universe: u32) -> Result<Ranking, Fail>
    ensures { IfOk result (λ ranking. IsRanking universe ranking) }
{
    assert!(rt; docs.len() <= 10000);
    assert!(rt; is_ranking(docs, universe));
    Ok(Ranking::new(alloc, docs.to_vec(alloc)?, universe)?)
}

fn cell_once<L: Ledger>(
    measure: &AnyMeasure,
    first: &Ranking,
    second: &Ranking,
    marks: &[Mark],
    blank: Blank,
) -> Cell
    requires met { AreMet marks.now first.now second.now }
    requires name { blank.name ≡ L.name }
    requires parts { blank.parts ≡ L.parts }
    requires some { 0 < blank.parts }
{
    let mut steps: Steps<L> = Steps::new(blank);
    measure.cell(first, second, marks, &mut steps)
}

fn answers_of(
    alloc: Global,
    measure: &AnyMeasure,
    first: &Ranking,
    second: &Ranking,
    marks: &[Mark],
    doc: u32,
) -> Result<Answers, Memory>
    requires first { IsRanking (length marks.now) first.now }
    requires second { IsRanking (length marks.now) second.now }
    requires universe { length marks.now ≤ 100 }
    requires doc { doc < length marks.now }
{
    let mut least_docs = Vec::new(alloc);
    measure.push_least_docs(alloc, first, second, marks, &mut least_docs)?;
    let mut room = ListRoom::new(alloc, marks)?;
    room.set_first(first);
    let mut counts = vec![in alloc; 0; marks.len()]?;
    let sizes = measure.count_lists(alloc, first, second, marks, &mut room, &mut counts)?;
    Ok(Answers {
        unit: measure.unit(),
        cell: cell_once::<Brand>(measure, first, second, marks, Blank::new(1)),
        bounds: measure.bounds(first, marks),
        weight: measure.weight(first, second, marks, doc),
        least_case: measure.least_case(alloc, first, second, marks)?,
        most_case: measure.most_case(alloc, first, second, marks)?,
        least_docs,
        counts,
        sizes,
    })
}

/// What the measure of a name answers about two runs and a document.
pub fn ask(
    rt: &impl Abort,
    alloc: Global,
    name: MeasureName,
    runs: (&[u32], &[u32]),
    marks: &[Mark],
    doc: u32,
) -> Result<Answers, Fail>
    requires { IsMeasure name }
{
    assert!(rt; marks.len() <= 100);
    let universe = marks.len() as u32;
    assert!(rt; doc < universe);
    let first = ranking(rt, alloc, runs.0, universe)?;
    let second = ranking(rt, alloc, runs.1, universe)?;
    let measure = Common.make(alloc, name)?;
    Ok(answers_of(alloc, &measure, &first, &second, marks, doc)?)
}
