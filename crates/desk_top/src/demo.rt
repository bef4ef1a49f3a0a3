// The command that shows a demo.
ghost use Rattle.std.specs.Prelude.{◌≡◌, IfOk, IfErr};
ghost use Rattle.desk_files.specs.declared.stop.Stop.TheVariants.{Memory as NoMemory};
ghost use Rattle.desk_model.specs.Desk.{IsDesk};
ghost use Rattle.desk_outside.specs.Seen.{Shelf as SeenShelf};
ghost use Rattle.desk_report.specs.Reports.{IsSumsOn};
ghost use Rattle.desk_top.specs.Meaning.{demo_meaning};
ghost use Rattle.desk_top.specs.Showing.{demo_subject, IsShown, IsDemoText, CountsDemo};
ghost use Rattle.desk_top.specs.Works.{Works};

use crate::outcome::Outcome;
use crate::status::Status;
use crate::tools::Tools;
use demo_desk::{DemoDesk, demo_desk, summary_text};
use desk_files::Stop;
use desk_model::{Marks, MeasureName, Memory};
use desk_report::next_report;
use measure_core::{Maker, Measure, Steps};
use pair_table::{TableSums, sums_on};
use std::alloc::Global;
use std::sync::ledger::Ledger;

const LEVEL: u32 = 1;

const DEPTH: u32 = 10;

// The summary of a demo by the sums of its table, and after it what is to be judged next.
fn texts_of<M: Measure>(
    alloc: Global,
    seed: u32,
    demo: &DemoDesk,
    marks: &Marks,
    sums: &TableSums<M>,
) -> Result<Vec<u8>, Memory>
    requires valid { IsDesk demo.now.desk }
    requires marks { marks.now.rows ≡ (demo_subject demo.now.desk).marks }
    requires sums { IsSumsOn (M.measured sums.now.measure) (M.cell_of sums.now.measure)
        (M.bounds_of sums.now.measure) (demo_subject demo.now.desk) sums.now }
    ensures { IfOk result (λ text. IsShown seed demo.now.desk demo.now.rows text.items) }
{
    let mut text = summary_text(
        alloc,
        seed,
        demo.rows,
        &demo.desk,
        marks.rows(),
        sums.verdicts(),
    )?;
    let next = next_report(alloc, &demo.desk, marks, sums)?;
    text.extend_from_slice(&next)?;
    Ok(text)
}

// What the demo of a seed prints: the summary of its desk under precision at 10, and what is to be judged next.
fn demo_text<P: Maker, L: Ledger>(
    tools: &Tools<'_, P>,
    seed: u32,
    steps: &mut Steps<L>,
) -> Result<Vec<u8>, Memory>
    ensures text { IfOk result (λ text. IsDemoText seed text.items) }
    ensures steps { CountsDemo seed steps.old steps.new }
{
    let demo = demo_desk(tools.alloc, seed)?;
    demo.desk.valid();
    let marks = Marks::of_file(tools.alloc, &demo.desk, LEVEL, None)?;
    let sums = sums_on(
        tools.alloc,
        &demo.desk,
        &marks,
        MeasureName::Precision(DEPTH),
        tools.maker,
        steps,
    )?;
    texts_of(tools.alloc, seed, &demo, &marks, &sums)
}

/// The demo of a seed, for which no file is at hand.
pub fn demo_outcome<'a, P: Maker, L: Ledger>(
    tools: &Tools<'_, P>,
    seed: u32,
    steps: &mut Steps<L>,
) -> Result<Outcome, Stop<'a>>
    ensures works { (files : SeenShelf) →
        Works (demo_meaning seed) files steps.old steps.new result }
    ensures memory { IfErr result (λ stop. stop ≡ NoMemory) }
{
    let text = demo_text(tools, seed, steps)?;
    Ok(Outcome::Prints {
        text,
        status: Status::Done,
    })
}
