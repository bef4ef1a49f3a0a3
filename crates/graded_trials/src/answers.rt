// What a table by grades says of its two runs, asked once of each.
ghost use Rattle.std.specs.Prelude.{◌≡◌, ◌≢◌, ◌<◌, ◌≤◌, length};

use desk_model::{Desk, MeasureName, Totals, Verdict};
use desk_report::graded_text;
use graded_rbp::GradedTable;
use measure_core::{Maker, Measure, Steps};
use std::alloc::Global;
use std::marker::Brand;
use std::process::Abort;
use std::sync::ledger::{Blank, Ledger};
use std::test::Fail;
use topic_counts::Span;

/// Rank-biased precision with a persistence of a half.
pub const HALF: MeasureName = MeasureName::Biased { top: 5, bottom: 10 };

/// The sums and the verdict of two runs, and the bounds of the first.
#[derive(Clone, Copy)]
pub struct Said {
    pub totals: Totals,
    pub verdict: Verdict,
    pub bounds: Span,
}

impl Said {
    pub fn is(self, other: Said) -> bool {
        self.totals == other.totals && self.verdict == other.verdict && self.bounds == other.bounds
    }
}

/// What is said of the two runs, of the swapped runs, and the text.
#[derive(Drop)]
pub struct Answers {
    pub straight: Said,
    pub swapped: Said,
    pub text: Vec<u8>,
}

fn said_of<M: Measure>(table: &GradedTable<M>, i: u32, j: u32) -> Said
    requires different { i ≢ j }
    requires first { i < table.now.runs }
    requires second { j < table.now.runs }
{
    Said {
        totals: table.totals(i, j),
        verdict: table.verdict(i, j),
        bounds: table.run_bounds(i),
    }
}

fn ask_once<P: Maker, L: Ledger>(
    alloc: Global,
    desk: &Desk,
    greatest: u32,
    maker: &P,
    blank: Blank,
) -> Result<Answers, Fail>
    requires two { length desk.now.runs ≡ 2 }
    requires one { length desk.now.topics ≡ 1 }
    requires some { 1 ≤ greatest }
    requires few { greatest ≤ 10 }
    requires name { blank.name ≡ L.name }
    requires parts { blank.parts ≡ L.parts }
    requires some_parts { 0 < blank.parts }
{
    let mut steps: Steps<L> = Steps::new(blank);
    let table = GradedTable::new(alloc, desk, greatest, HALF, maker, &mut steps)?;
    if table.all_bounds().len() != 2 {
        return Err("other runs".into());
    }
    let text = graded_text(
        alloc,
        desk,
        &HALF,
        greatest,
        table.all_bounds(),
        table.all_totals(),
    )?;
    Ok(Answers {
        straight: said_of(&table, 0, 1),
        swapped: said_of(&table, 1, 0),
        text,
    })
}

/// The answers of the table of a desk of one topic and two runs.
pub fn ask<P: Maker>(
    rt: &impl Abort,
    alloc: Global,
    desk: &Desk,
    greatest: u32,
    maker: &P,
) -> Result<Answers, Fail>
    requires two { length desk.now.runs ≡ 2 }
    requires some { 1 ≤ greatest }
    requires few { greatest ≤ 10 }
{
    let one = desk.topic_count() == 1;
    assert!(rt; one);
    ask_once::<P, Brand>(alloc, desk, greatest, maker, Blank::new(1))
}
