// The command that prints a table by grades.
ghost use Rattle.std.specs.Prelude.{◌≡◌, ◌+◌, ◌*◌, ◌≤◌, length, IfOk};
ghost use Rattle.desk_files.specs.Reads.{ReadsFiles, extent_of};
ghost use Rattle.desk_files.specs.Views.{answer_of};
ghost use Rattle.desk_model.specs.Desk.{pair_count};
ghost use Rattle.desk_model.specs.Limits.{CELL_LIMIT};
ghost use Rattle.desk_model.specs.MeasureText.{IsMeasure};
ghost use Rattle.desk_outside.specs.Seen.{shelf};
ghost use Rattle.desk_report.specs.Reports.{cells_of};
ghost use Rattle.desk_words.specs.Words.{HasPersistence};
ghost use Rattle.graded_rbp.specs.Score.{GradedMeasure, GREATEST_LIMIT};
ghost use Rattle.desk_top.specs.Loading.{graded_loading, OpensWithin};
ghost use Rattle.desk_top.specs.Meaning.{graded_meaning};
ghost use Rattle.desk_top.specs.Report.{IsAskedByGrades, IsMeasureByGrades, IsGradedText};
ghost use Rattle.desk_top.specs.Works.{Works};

use crate::outcome::Outcome;
use crate::status::Status;
use crate::tools::Tools;
use desk_files::{Stop, load_desk};
use desk_model::{Desk, MeasureName, Memory};
use desk_outside::Shelf;
use desk_report::graded_text;
use desk_words::Job;
use graded_rbp::GradedTable;
use measure_core::{Maker, Steps};
use std::sync::ledger::Ledger;

// The table of a desk by grades, as a text.
fn graded_report<P: Maker, L: Ledger>(
    tools: &Tools<'_, P>,
    desk: &Desk,
    measure: MeasureName,
    greatest: u32,
    steps: &mut Steps<L>,
) -> Result<Vec<u8>, Memory>
    requires measure { IsMeasure measure }
    requires biased { HasPersistence measure }
    requires some { 1 ≤ greatest }
    requires few { greatest ≤ GREATEST_LIMIT }
    requires cells { pair_count (length desk.now.runs) * length desk.now.topics * greatest ≤
        CELL_LIMIT }
    ensures text { IfOk result (λ text. (m : GradedMeasure) → IsMeasureByGrades measure greatest m →
        IsGradedText m desk.now text.items) }
    ensures steps { steps.new ≤ steps.old + cells_of desk.now * greatest }
{
    let table = GradedTable::new(tools.alloc, desk, greatest, measure, tools.maker, steps)?;
    graded_text(
        tools.alloc,
        desk,
        &measure,
        greatest,
        table.all_bounds(),
        table.all_totals(),
    )
}

/// The table of all pairs by grades, up to a greatest one.
pub fn graded_outcome<'a, F: Shelf, P: Maker, L: Ledger>(
    tools: &Tools<'_, P>,
    job: &'a Job,
    greatest: u32,
    files: &mut F,
    steps: &mut Steps<L>,
) -> Result<Outcome, Stop<'a>>
    requires { IsAskedByGrades job.now greatest }
    ensures works { Works (graded_meaning job.now greatest)
        (shelf (F.state files.old) (F.state files.new)) steps.old steps.new result }
    ensures opened { OpensWithin (graded_loading job.now greatest)
        (shelf (F.state files.old) (F.state files.new)) }
    ensures reads { ReadsFiles (extent_of (answer_of result)) (F.state files.old).calls
        (F.state files.new).calls }
    ensures files { (F.state files.new).files ≡ (F.state files.old).files }
{
    let desk = load_desk(tools.alloc, files, &job.qrels, &job.runs, greatest)?;
    let text = graded_report(tools, &desk, job.measure, greatest, steps)?;
    Ok(Outcome::Prints {
        text,
        status: Status::Done,
    })
}
