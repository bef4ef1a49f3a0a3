// The desk of rows.
ghost use Rattle.std.specs.Prelude.{◌≡◌, ◌<◌, ◌≤◌, IfOk, IfErr, OnOk, vec_len, length};
ghost use Rattle.desk_model.specs.Limits.{RUN_LIMIT};
ghost use Rattle.run_reader.specs.declared.limits.TheConstants.{MOST_RUN_ROWS};
ghost use Rattle.topics_pool.specs.Rows.{IsDeskOf, IsNoFault, IsFaultOf, total_rows};

use crate::book::topic_books;
use crate::fault::DeskFault;
use crate::limits::MOST_CELLS;
use crate::rankings::no_rankings;
use crate::runs::{cell_count, names_of_runs, ranked_runs, repeated_run};
use desk_model::{Desk, Memory};
use qrels_reader::Qrels;
use run_reader::RunRows;
use std::alloc::Global;
use topic_universe::RankedRun;

// The desk of rows that have no fault. The runs give back their documents.
fn desk_of(alloc: Global, qrels: &Qrels, runs: &mut [RankedRun]) -> Result<Desk, Memory>
    requires some { 0 < length runs.old }
    requires few { length runs.old ≤ RUN_LIMIT }
    requires rows { total_rows runs.old ≤ MOST_RUN_ROWS }
    requires right { IsNoFault qrels.now runs.old }
    ensures { IfOk result (λ desk. IsDeskOf qrels.now runs.old desk) }
{
    // There is a topic, and there are not too many.
    let topics = qrels.topics();
    let names = names_of_runs(alloc, runs)?;
    let mut rankings = no_rankings(alloc, runs, topics)?;
    let books = topic_books(alloc, qrels, runs, &mut rankings)?;
    Ok(Desk::new(books, names, rankings))
}

// Looks for the first fault of rows.
fn check_rows(qrels: &Qrels, runs: &[RankedRun]) -> Result<(), DeskFault>
    requires some { 0 < length runs.now }
    requires few { length runs.now ≤ RUN_LIMIT }
    ensures right { OnOk result (IsNoFault qrels.now runs.now) }
    ensures fault { IfErr result (IsFaultOf qrels.now runs.now) }
{
    if let Some(run) = repeated_run(runs) {
        return Err(DeskFault::SameName { run: run as u32 });
    }
    let cells = cell_count(qrels, runs);
    if cells > MOST_CELLS {
        return Err(DeskFault::TooManyCells { cells });
    }
    Ok(())
}

/// The desk of these rows: its topics are those of the qrels, its runs stand in the order in which they are given.
///
/// `SameName` comes exactly where a run has the name of an earlier one, and tells the first; else `TooManyCells` exactly
/// where pairs times topics exceed the limit.
pub fn desk_of_ranked(
    alloc: Global,
    qrels: Qrels,
    mut runs: Vec<RankedRun>,
) -> Result<Desk, DeskFault>
    requires some { 0 < vec_len runs }
    requires few { vec_len runs ≤ RUN_LIMIT }
    requires rows { total_rows runs.items ≤ MOST_RUN_ROWS }
    ensures desk { IfOk result (IsDeskOf qrels runs.items) }
    ensures right { IfOk result (λ _. IsNoFault qrels runs.items) }
    ensures fault { IfErr result (IsFaultOf qrels runs.items) }
{
    check_rows(&qrels, &runs)?;
    Ok(desk_of(alloc, &qrels, &mut runs)?)
}

/// The desk of these rows, as `desk_of_ranked` makes it once the runs are ranked.
pub fn build_desk(alloc: Global, qrels: Qrels, runs: Vec<RunRows>) -> Result<Desk, DeskFault>
    requires some { 0 < vec_len runs }
    requires few { vec_len runs ≤ RUN_LIMIT }
    requires rows { total_rows runs.items ≤ MOST_RUN_ROWS }
    ensures desk { IfOk result (IsDeskOf qrels runs.items) }
    ensures right { IfOk result (λ _. IsNoFault qrels runs.items) }
    ensures fault { IfErr result (IsFaultOf qrels runs.items) }
{
    let ranked = ranked_runs(alloc, runs)?;
    desk_of_ranked(alloc, qrels, ranked)
}
