// The names, the number and the rows of runs.
ghost use Rattle.std.specs.Prelude.{◌≡◌, ◌<◌, ◌≤◌, true, All, IfOk, IfSome, length, vec_len};
ghost use Rattle.std.specs.List.{AllZip};
ghost use Rattle.desk_model.specs.Limits.{RUN_LIMIT};
ghost use Rattle.desk_model.specs.Name.{is_name};
ghost use Rattle.topics_pool.specs.Rows.{run_names, is_repeated, first_repeated, cells_of};
ghost use Rattle.topics_pool.specs.Made.{Forgets};

use desk_model::{Memory, Name};
use qrels_reader::Qrels;
use run_reader::RunRows;
use std::alloc::Global;
use topic_universe::RankedRun;

// Whether an earlier run has the name of run `r`.
fn has_earlier_name(runs: &[RankedRun], r: usize) -> bool
    requires { r < length runs.now }
    ensures { result ≡ is_repeated (run_names runs.now) r }
{
    let name = runs[r].name();
    for earlier in 0..r {
        if name == runs[earlier].name() {
            return true;
        }
    }
    false
}

/// The first run with the name of an earlier one.
pub fn repeated_run(runs: &[RankedRun]) -> Option<usize>
    ensures first { result ≡ first_repeated (run_names runs.now) }
    ensures within { IfSome result (λ r. r < length runs.now) }
{
    for r in 0..runs.len() {
        if has_earlier_name(runs, r) {
            return Some(r);
        }
    }
    None
}

/// Pairs of runs times topics.
pub fn cell_count(qrels: &Qrels, runs: &[RankedRun]) -> u64
    requires some { 0 < length runs.now }
    requires few { length runs.now ≤ RUN_LIMIT }
    ensures { result ≡ cells_of qrels.now runs.now }
{
    let count = runs.len() as u64;
    count * (count - 1) / 2 * qrels.topics() as u64
}

/// The names of runs, in their order.
pub fn names_of_runs(alloc: Global, runs: &[RankedRun]) -> Result<Vec<Name>, Memory>
    ensures names { IfOk result (λ names. names.items ≡ run_names runs.now) }
    ensures named { IfOk result (λ _. All (λ name. is_name name ≡ true) (run_names runs.now)) }
{
    let mut names = Vec::with_capacity(alloc, runs.len())?;
    for run in runs {
        names.push(Name::copy_of(alloc, run.name())?)?;
    }
    Ok(names)
}

/// Each run gives back its documents on a topic.
pub fn forget_topic(alloc: Global, runs: &mut [RankedRun], topic: &[u8])
    ensures { AllZip (Forgets topic.now) runs.old runs.new }
{
    for r in 0..runs.len() {
        runs[r].forget(alloc, topic);
    }
}

/// The runs, ranked. Each gives back its scores.
pub fn ranked_runs(alloc: Global, runs: Vec<RunRows>) -> Result<Vec<RankedRun>, Memory>
    ensures runs { IfOk result (λ ranked. ranked.items ≡ runs.items) }
    ensures count { IfOk result (λ ranked. vec_len ranked ≡ vec_len runs) }
{
    let mut ranked = Vec::with_capacity(alloc, runs.len())?;
    for run in runs {
        ranked.push(RankedRun::of(alloc, run)?)?;
    }
    Ok(ranked)
}
