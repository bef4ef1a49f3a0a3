// What each command makes of its files. Those that make one text of a desk and its table stand here whole.
ghost use Rattle.std.specs.Prelude.{◌≡◌, ◌+◌, IfOk, IfErr, OnErr};
ghost use Rattle.desk_files.specs.Reads.{ReadsFiles, extent_of};
ghost use Rattle.desk_files.specs.Views.{answer_of};
ghost use Rattle.desk_model.specs.MeasureText.{IsMeasure};
ghost use Rattle.desk_outside.specs.Seen.{shelf};
ghost use Rattle.desk_report.specs.Reports.{cells_of};
ghost use Rattle.desk_words.specs.declared.command.Command.TheVariants as commands;
ghost use Rattle.desk_top.specs.Loading.{desk_loading, OpensWithin};
ghost use Rattle.desk_top.specs.Meaning.{meaning_of};
ghost use Rattle.desk_top.specs.Report.{IsAsked, IsDeskFor, IsShownAs, IsTabled, shown_as};
ghost use Rattle.desk_top.specs.Works.{StopsLoading, Works};

use crate::demo::demo_outcome;
use crate::graded::graded_outcome;
use crate::outcome::Outcome;
use crate::session::session_outcome;
use crate::sheets::{apply_outcome, merge_outcome};
use crate::status::Status;
use crate::tell::too_long_line;
use crate::tools::Tools;
use crate::verify::check_outcome;
use bundle_report::{Bundled, bundle_report};
use desk_files::{Stop, load_desk};
use desk_model::{Desk, Marks};
use desk_outside::Shelf;
use desk_report::{Certified, Grading, certified_report, table_report, tiers_report};
use desk_words::{Command, Job};
use measure_core::{Maker, Measure, Steps};
use pair_table::{Table, sums_on, table_on};
use std::alloc::{AllocError, Global};
use std::sync::ledger::Ledger;

/// The desk of some files, and the marks that they give its documents.
#[derive(Drop)]
pub struct JobDesk {
    pub desk: Desk,
    pub marks: Marks,
}

/// The same, and a table of these marks.
#[derive(Drop)]
pub struct DeskTable<M: Measure> {
    pub desk: Desk,
    pub marks: Marks,
    pub table: Table<M>,
}

// The desk of a job with its marks.
fn marked<'a, F: Shelf>(alloc: Global, job: &'a Job, files: &mut F) -> Result<JobDesk, Stop<'a>>
    ensures on { IfOk result (λ on.
        IsDeskFor job.now (F.state files.old).files on.desk on.marks.rows) }
    ensures stops { IfErr result
        (StopsLoading (desk_loading job.now) (shelf (F.state files.old) (F.state files.new))) }
    ensures opened { OpensWithin (desk_loading job.now)
        (shelf (F.state files.old) (F.state files.new)) }
    ensures reads { ReadsFiles (extent_of (answer_of result)) (F.state files.old).calls
        (F.state files.new).calls }
    ensures files { (F.state files.new).files ≡ (F.state files.old).files }
{
    let desk = load_desk(alloc, files, &job.qrels, &job.runs, 1)?;
    desk.valid();
    let marks = Marks::of_file(alloc, &desk, job.level, job.depth)?;
    Ok(JobDesk { desk, marks })
}

// The desk of a job with its table.
fn tabled<'a, F: Shelf, P: Maker, L: Ledger>(
    tools: &Tools<'_, P>,
    job: &'a Job,
    files: &mut F,
    steps: &mut Steps<L>,
) -> Result<DeskTable<P::Made>, Stop<'a>>
    requires { IsMeasure job.now.measure }
    ensures on { IfOk result (λ on.
        IsTabled (P.Made.measured on.table.measure) (P.Made.cell_of on.table.measure)
        (P.Made.bounds_of on.table.measure)
        job.now (F.state files.old).files on) }
    ensures stops { IfErr result
        (StopsLoading (desk_loading job.now) (shelf (F.state files.old) (F.state files.new))) }
    ensures steps { IfOk result (λ on. steps.new ≡ steps.old + cells_of on.desk) }
    ensures no_steps { OnErr result (steps.new ≡ steps.old) }
    ensures opened { OpensWithin (desk_loading job.now)
        (shelf (F.state files.old) (F.state files.new)) }
    ensures reads { ReadsFiles (extent_of (answer_of result)) (F.state files.old).calls
        (F.state files.new).calls }
    ensures files { (F.state files.new).files ≡ (F.state files.old).files }
{
    let JobDesk { desk, marks } = marked(tools.alloc, job, files)?;
    let table = table_on(tools.alloc, &desk, &marks, job.measure, tools.maker, steps)?;
    Ok(DeskTable { desk, marks, table })
}

/// The table of all pairs.
pub fn table_outcome<'a, F: Shelf, P: Maker, L: Ledger>(
    tools: &Tools<'_, P>,
    job: &'a Job,
    files: &mut F,
    steps: &mut Steps<L>,
) -> Result<Outcome, Stop<'a>>
    requires { IsAsked 1 job.now }
    ensures works { Works (meaning_of (commands.Table job.now))
        (shelf (F.state files.old) (F.state files.new)) steps.old steps.new result }
    ensures opened { OpensWithin (desk_loading job.now)
        (shelf (F.state files.old) (F.state files.new)) }
    ensures reads { ReadsFiles (extent_of (answer_of result)) (F.state files.old).calls
        (F.state files.new).calls }
    ensures files { (F.state files.new).files ≡ (F.state files.old).files }
{
    let on = marked(tools.alloc, job, files)?;
    let sums = sums_on(
        tools.alloc,
        &on.desk,
        &on.marks,
        job.measure,
        tools.maker,
        steps,
    )?;
    let grading = Grading::new(job.level, job.depth);
    let text = table_report(tools.alloc, &on.desk, grading, &sums)?;
    Ok(Outcome::Prints {
        text,
        status: Status::Done,
    })
}

/// The tiers of the runs.
pub fn tiers_outcome<'a, F: Shelf, P: Maker, L: Ledger>(
    tools: &Tools<'_, P>,
    job: &'a Job,
    files: &mut F,
    steps: &mut Steps<L>,
) -> Result<Outcome, Stop<'a>>
    requires { IsAsked 1 job.now }
    ensures works { Works (meaning_of (commands.Tiers job.now))
        (shelf (F.state files.old) (F.state files.new)) steps.old steps.new result }
    ensures opened { OpensWithin (desk_loading job.now)
        (shelf (F.state files.old) (F.state files.new)) }
    ensures reads { ReadsFiles (extent_of (answer_of result)) (F.state files.old).calls
        (F.state files.new).calls }
    ensures files { (F.state files.new).files ≡ (F.state files.old).files }
{
    let on = tabled(tools, job, files, steps)?;
    let grading = Grading::new(job.level, job.depth);
    let text = tiers_report(tools.alloc, &on.desk, &on.marks, grading, &on.table)?;
    Ok(Outcome::Prints {
        text,
        status: Status::Done,
    })
}

// What shows the order of two runs, with its status.
fn shown(answer: Certified) -> Outcome
    ensures { result ≡ shown_as answer }
{
    match answer {
        Certified::Certificate(text) => Outcome::Prints {
            text,
            status: Status::Done,
        },
        Certified::Close(text) => Outcome::Prints {
            text,
            status: Status::Close,
        },
    }
}

/// The certificate of the first two runs, or their close line.
pub fn certificate_outcome<'a, F: Shelf, P: Maker, L: Ledger>(
    tools: &Tools<'_, P>,
    job: &'a Job,
    files: &mut F,
    steps: &mut Steps<L>,
) -> Result<Outcome, Stop<'a>>
    requires { IsAsked 2 job.now }
    ensures works { Works (meaning_of (commands.Certify job.now))
        (shelf (F.state files.old) (F.state files.new)) steps.old steps.new result }
    ensures opened { OpensWithin (desk_loading job.now)
        (shelf (F.state files.old) (F.state files.new)) }
    ensures reads { ReadsFiles (extent_of (answer_of result)) (F.state files.old).calls
        (F.state files.new).calls }
    ensures files { (F.state files.new).files ≡ (F.state files.old).files }
{
    let on = tabled(tools, job, files, steps)?;
    let grading = Grading::new(job.level, job.depth);
    let answer = certified_report(tools.alloc, &on.desk, &on.marks, grading, &on.table, 0, 1)?;
    Ok(shown(answer))
}

// What shows the orders of all pairs, or that their text would be too long.
fn all_shown(alloc: Global, answer: Bundled) -> Result<Outcome, AllocError>
    ensures { IfOk result (IsShownAs answer) }
{
    match answer {
        Bundled::Bundle(text) => Ok(Outcome::Prints {
            text,
            status: Status::Done,
        }),
        Bundled::TooLong { bytes } => {
            let line = too_long_line(alloc, bytes)?;
            Ok(Outcome::Refuses { line })
        }
    }
}

/// The certificate of all pairs of runs, or the line that tells how long it would be.
pub fn all_pairs_outcome<'a, F: Shelf, P: Maker, L: Ledger>(
    tools: &Tools<'_, P>,
    job: &'a Job,
    files: &mut F,
    steps: &mut Steps<L>,
) -> Result<Outcome, Stop<'a>>
    requires { IsAsked 2 job.now }
    ensures works { Works (meaning_of (commands.CertifyAll job.now))
        (shelf (F.state files.old) (F.state files.new)) steps.old steps.new result }
    ensures opened { OpensWithin (desk_loading job.now)
        (shelf (F.state files.old) (F.state files.new)) }
    ensures reads { ReadsFiles (extent_of (answer_of result)) (F.state files.old).calls
        (F.state files.new).calls }
    ensures files { (F.state files.new).files ≡ (F.state files.old).files }
{
    let on = tabled(tools, job, files, steps)?;
    let grading = Grading::new(job.level, job.depth);
    let answer = bundle_report(tools.alloc, &on.desk, &on.marks, grading, &on.table)?;
    let outcome = all_shown(tools.alloc, answer)?;
    Ok(outcome)
}

/// What a command makes of what its files come to. A new command is one more case.
pub fn outcome_of<'a, F: Shelf, P: Maker, L: Ledger>(
    tools: &Tools<'_, P>,
    command: &'a Command,
    files: &mut F,
    steps: &mut Steps<L>,
) -> Result<Outcome, Stop<'a>>
    requires { (meaning_of command.now).asked }
    ensures works { Works (meaning_of command.now) (shelf (F.state files.old) (F.state files.new))
        steps.old steps.new result }
    ensures opened { OpensWithin (meaning_of command.now).loading
        (shelf (F.state files.old) (F.state files.new)) }
    ensures reads { ReadsFiles (extent_of (answer_of result)) (F.state files.old).calls
        (F.state files.new).calls }
    ensures files { (F.state files.new).files ≡ (F.state files.old).files }
{
    match command {
        Command::Table(job) => table_outcome(tools, job, files, steps),
        Command::Certify(job) => certificate_outcome(tools, job, files, steps),
        Command::CertifyAll(job) => all_pairs_outcome(tools, job, files, steps),
        Command::Session(job) => session_outcome(tools.alloc, files, job),
        Command::Verify(check) => check_outcome(tools.alloc, files, check),
        Command::Demo { seed } => demo_outcome(tools, *seed, steps),
        Command::Graded { job, greatest } => graded_outcome(tools, job, *greatest, files, steps),
        Command::Tiers(job) => tiers_outcome(tools, job, files, steps),
        Command::Merge(sheets) => merge_outcome(tools.alloc, files, sheets),
        Command::Apply(placing) => apply_outcome(tools.alloc, files, placing),
    }
}
