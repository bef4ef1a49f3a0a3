// What the files of a job say.
ghost use Rattle.std.specs.Prelude.{◌≡◌, ◌≤◌, ◌++◌, ◌∷◌, [], ◌+◌, true, length, vec_len, IfSome, IfOk, OnOk};
ghost use Rattle.std.specs.Option.{option_copied};
ghost use Rattle.desk_model.specs.Name.{is_name};
ghost use Rattle.run_reader.specs.Run.{run_of, IsWithinLimits};
ghost use Rattle.file_rows.specs.Grouped.{row_count};
ghost use Rattle.qrels_reader.specs.Grouped.{qrels_of};
ghost use Rattle.run_reader.specs.declared.limits.TheConstants.{MOST_RUN_ROWS};
ghost use Rattle.topics_pool.specs.Rows.{total_rows};
ghost use Rattle.desk_outside.specs.Calls.{opened_in};
ghost use Rattle.desk_files.specs.Files.{file_as, stop_at};
ghost use Rattle.desk_files.specs.Load.{runs_of, used_by, runs_to_open, paths_of, MayOpen, Opens};
ghost use Rattle.desk_files.specs.Outcome.{Gives};
ghost use Rattle.desk_files.specs.Reads.{ReadsFile, ReadsFiles, extent_of};
ghost use Rattle.desk_files.specs.Stopped.{IsStopOf};
ghost use Rattle.desk_files.specs.Views.{answer_of};

use crate::files::{feed_file, open_file};
use crate::stop::{Refusal, Stop};
use desk_model::Memory;
use desk_outside::Shelf;
use desk_words::RunWord;
use qrels_reader::{FileFault, Qrels, QrelsReader};
use run_reader::{RunReader, RunRows, Used};
use std::alloc::Global;
use topic_universe::RankedRun;

// Why a command stops at a file whose reading ended so.
fn stop_of<'a>(path: &'a str, fault: FileFault) -> Stop<'a>
    ensures { IsStopOf (stop_at path.entry.now fault) result }
{
    match fault {
        FileFault::Line { line, fault } => Stop::Refused(Refusal::Line(path, line, fault)),
        FileFault::NoTopics => Stop::Refused(Refusal::NoTopics(path)),
        FileFault::NoTag => Stop::Refused(Refusal::NoTag(path)),
        FileFault::Memory => Stop::Memory,
    }
}

/// The rows of the qrels file.
pub fn load_qrels<'a, F: Shelf>(
    alloc: Global,
    files: &mut F,
    path: &'a str,
) -> Result<Qrels, Stop<'a>>
    ensures gives { Gives (F.state files.old).files (F.state files.old).faults
        (F.state files.new).faults (λ qrels. qrels) result (λ held.
        file_as qrels_of held path.now) }
    ensures files { (F.state files.new).files ≡ (F.state files.old).files }
    ensures reads { ReadsFile path.now (extent_of (answer_of result)) (F.state files.old).calls
        (F.state files.new).calls }
    ensures later { (F.state files.old).faults ≤ (F.state files.new).faults }
{
    open_file(files, path)?;
    let mut reader = QrelsReader::new(alloc)?;
    feed_file(files, path, &mut reader)?;
    match reader.finish() {
        Ok(qrels) => Ok(qrels),
        Err(fault) => Err(stop_of(path, fault)),
    }
}

// The name that a RUN word gives.
fn given_name(word: &RunWord) -> Option<&[u8]>
    ensures name { option_copied result ≡ word.now.name }
    ensures is_name { IfSome result (λ name. is_name name.now ≡ true) }
{
    match &word.name {
        Some(name) => Some(name.as_bytes()),
        None => None,
    }
}

/// The rows of a run file, beside the qrels and what the files before it used.
pub fn load_run<'a, F: Shelf>(
    alloc: Global,
    files: &mut F,
    word: &'a RunWord,
    qrels: &Qrels,
    used: Used,
) -> Result<RunRows, Stop<'a>>
    requires { IsWithinLimits used }
    ensures gives { Gives (F.state files.old).files (F.state files.old).faults
        (F.state files.new).faults (λ run. run) result (λ held.
        file_as (run_of word.now.name qrels.now used) held word.now.path) }
    ensures rows { IfOk result (λ run. run.used.rows ≡ used.rows + row_count run.topics) }
    ensures files { (F.state files.new).files ≡ (F.state files.old).files }
    ensures reads { ReadsFile word.now.path (extent_of (answer_of result)) (F.state files.old).calls
        (F.state files.new).calls }
    ensures later { (F.state files.old).faults ≤ (F.state files.new).faults }
{
    let path = word.path.as_str();
    open_file(files, path)?;
    let mut reader = RunReader::new(alloc, given_name(word), used, qrels)?;
    feed_file(files, path, &mut reader)?;
    match reader.finish() {
        Ok(run) => Ok(run),
        Err(fault) => Err(stop_of(path, fault)),
    }
}

/// The runs of all run files, in order. Each is ranked as soon as it is read, and gives back its scores.
pub fn load_runs<'a, F: Shelf>(
    alloc: Global,
    files: &mut F,
    words: &'a [RunWord],
    qrels: &Qrels,
) -> Result<Vec<RankedRun>, Stop<'a>>
    ensures gives { Gives (F.state files.old).files (F.state files.old).faults
        (F.state files.new).faults (λ runs. runs.items) result (λ held.
        runs_of held qrels.now (used_by qrels.now) words.now) }
    ensures count { IfOk result (λ runs. vec_len runs ≡ length words.now) }
    ensures rows { IfOk result (λ runs. total_rows runs.items ≤ MOST_RUN_ROWS) }
    ensures files { (F.state files.new).files ≡ (F.state files.old).files }
    ensures opened { Opens (MayOpen (F.state files.old).files (λ held.
        runs_to_open held qrels.now (used_by qrels.now) words.now) (paths_of words.now))
        (opened_in (F.state files.old).calls) (opened_in (F.state files.new).calls) }
    ensures all { OnOk result (opened_in (F.state files.new).calls ≡
        opened_in (F.state files.old).calls ++ paths_of words.now) }
    ensures reads { ReadsFiles (extent_of (answer_of result)) (F.state files.old).calls
        (F.state files.new).calls }
    ensures later { (F.state files.old).faults ≤ (F.state files.new).faults }
{
    let mut runs = Vec::new(alloc);
    let mut used = Used {
        rows: 0,
        name_bytes: qrels.name_bytes(),
    };
    for word in words {
        let run = load_run(alloc, files, word, qrels, used)?;
        used = run.used();
        push_run(alloc, &mut runs, run)?;
    }
    Ok(runs)
}

// Ranks a run, and puts it at the end.
fn push_run(alloc: Global, runs: &mut Vec<RankedRun>, run: RunRows) -> Result<(), Memory>
    ensures { OnOk result (runs.new.items ≡ runs.old.items ++ run ∷ []) }
{
    runs.push(RankedRun::of(alloc, run)?)?;
    Ok(())
}
