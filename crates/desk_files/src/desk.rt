//! The desk of some files.
ghost use Rattle.std.specs.Prelude.{◌≡◌, ◌⊎◌, ◌*◌, ◌<◌, ◌≤◌, ◌++◌, ◌∷◌, map, length, vec_len, IfOk, OnOk};
ghost use Rattle.std.specs.List.{IsDistinct};
ghost use Rattle.std.specs.Str.{bytes_eq};
ghost use Rattle.desk_model.specs.Desk.{pair_count};
ghost use Rattle.desk_model.specs.Limits.{CELL_LIMIT, RUN_LIMIT};
ghost use Rattle.file_rows.specs.Grouped.{names_of};
ghost use Rattle.run_reader.specs.declared.limits.TheConstants.{MOST_RUN_ROWS};
ghost use Rattle.topics_pool.specs.Rows.{total_rows, run_names};
ghost use Rattle.desk_outside.specs.Calls.{opened_in};
ghost use Rattle.desk_files.specs.Joined.{Joins, Makes};
ghost use Rattle.desk_files.specs.Load.{DeskMayOpen, Opens, cells_in_all, paths_of, sources_for};
ghost use Rattle.desk_files.specs.Reads.{ReadsFiles, ToEnd, Somewhere, extent_of};
ghost use Rattle.desk_files.specs.Views.{answer_of};

use crate::load::{load_qrels, load_runs};
use crate::stop::{Refusal, Stop};
use desk_model::Desk;
use desk_outside::Shelf;
use desk_words::{Path, RunWords};
use qrels_reader::Qrels;
use std::alloc::{AllocError, Global};
use topic_universe::RankedRun;
use topics_pool::{DeskFault, MOST_CELLS, desk_of_ranked};

fn copy_names(alloc: Global, runs: &[RankedRun]) -> Result<Vec<Vec<u8>>, AllocError>
    ensures { IfOk result (λ names. map (λ each. each.items) names.items ≡ run_names runs.now) }
{
    let mut names = Vec::with_capacity(alloc, runs.len())?;
    for run in runs {
        names.push(Vec::from_slice(alloc, run.name())?)?;
    }
    Ok(names)
}

// Pairs of runs times topics times tables.
fn cell_count(qrels: &Qrels, runs: &[RankedRun], tables: u32) -> u64
    requires some { 0 < length runs.now }
    requires few { length runs.now ≤ RUN_LIMIT }
    ensures count { result ≡ cells_in_all tables qrels.now runs.now }
    ensures distinct { IsDistinct bytes_eq (names_of qrels.now) }
{
    let count = runs.len() as u64;
    count * (count - 1) / 2 * qrels.topics() as u64 * u64::from(tables)
}

// The desk of the rows of files, for so many tables.
fn join<'a>(
    alloc: Global,
    qrels: Qrels,
    runs: Vec<RankedRun>,
    tables: u32,
) -> Result<Desk, Stop<'a>>
    requires some { 0 < vec_len runs }
    requires few { vec_len runs ≤ RUN_LIMIT }
    requires rows { total_rows runs.items ≤ MOST_RUN_ROWS }
    requires tables { 1 ≤ tables }
    ensures joins { Joins tables qrels runs.items result }
    ensures whole { (extent_of (answer_of result) ≡ ToEnd) ⊎
        (extent_of (answer_of result) ≡ Somewhere) }
    ensures runs { IfOk result (λ desk. length desk.runs ≡ vec_len runs) }
    ensures cells { IfOk result (λ desk. pair_count (length desk.runs) * length desk.topics *
        tables ≤ CELL_LIMIT) }
{
    let cells = cell_count(&qrels, &runs, tables);
    let mut names = copy_names(alloc, &runs)?;
    match desk_of_ranked(alloc, qrels, runs) {
        Ok(desk) => {
            if cells > MOST_CELLS {
                return Err(Stop::Refused(Refusal::TooManyCells(cells)));
            }
            Ok(desk)
        }
        Err(DeskFault::SameName { run }) => {
            let name = names.swap_remove(run as usize);
            Err(Stop::Refused(Refusal::SameName(name)))
        }
        Err(DeskFault::TooManyCells { .. }) => Err(Stop::Refused(Refusal::TooManyCells(cells))),
        Err(DeskFault::Memory) => Err(Stop::Memory),
    }
}

/// The desk of a file of judgements and of runs, with one run for each RUN word; or why there is none: the first refusal, a
/// file that is missing or a shelf that failed, or memory that ran out. The judgements are read first, then the runs in order.
/// The cells of the desk are counted for so many tables, one at least.
pub fn load_desk<'a, F: Shelf>(
    alloc: Global,
    files: &mut F,
    qrels: &'a Path,
    runs: &'a RunWords,
    tables: u32,
) -> Result<Desk, Stop<'a>>
    requires { 1 ≤ tables }
    ensures makes { Makes (F.state files.old).files (F.state files.old).faults
        (F.state files.new).faults (sources_for tables qrels.now runs.now) result }
    ensures runs { IfOk result (λ desk. length desk.runs ≡ length runs.now) }
    ensures cells { IfOk result (λ desk. pair_count (length desk.runs) * length desk.topics *
        tables ≤ CELL_LIMIT) }
    ensures files { (F.state files.new).files ≡ (F.state files.old).files }
    ensures opened { Opens (DeskMayOpen (F.state files.old).files
        (sources_for tables qrels.now runs.now)) (opened_in (F.state files.old).calls)
        (opened_in (F.state files.new).calls) }
    ensures all { OnOk result (opened_in (F.state files.new).calls ≡
        opened_in (F.state files.old).calls ++ qrels.now ∷ paths_of runs.now) }
    ensures reads { ReadsFiles (extent_of (answer_of result)) (F.state files.old).calls
        (F.state files.new).calls }
    ensures later { (F.state files.old).faults ≤ (F.state files.new).faults }
{
    let judged = load_qrels(alloc, files, qrels.as_str())?;
    let ranked = load_runs(alloc, files, runs.as_slice(), &judged)?;
    join(alloc, judged, ranked, tables)
}
