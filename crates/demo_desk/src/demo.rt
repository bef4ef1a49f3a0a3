// The desk of the demo.
ghost use Rattle.std.specs.Prelude.{◌≡◌, ◌+◌, ◌*◌, ◌<◌, ◌≤◌, ◌++◌, ◌∷◌, [], length, map, vec_len, IfOk, OnOk, IsOk, None, Ok};
ghost use Rattle.std.specs.List.{range_with_len};
ghost use Rattle.qrels_reader.specs.Grouped.{qrels_of};
ghost use Rattle.run_reader.specs.Run.{run_of, IsWithinLimits};
ghost use Rattle.run_reader.specs.declared.limits.TheConstants.{MOST_RUN_ROWS};
ghost use Rattle.topics_pool.specs.Rows.{IsDeskOf, total_rows, run_names};
ghost use Rattle.demo_desk.specs.Draws.{state_after};
ghost use Rattle.demo_desk.specs.Texts.{tag_text, qrels_after, run_after};
ghost use Rattle.demo_desk.specs.declared.sizes.TheConstants.{TOPICS, DOCUMENTS, PLACES, RUNS};
ghost use Rattle.demo_desk.specs.Demo.{IsDemoDesk, HaveTopics, SayRuns, runs_after, used_before_runs};

use crate::lines::{read_judgement_lines, read_run_lines};
use crate::{Generator, RUNS, qrels_text, run_text};
use desk_model::{Desk, Memory};
use qrels_reader::{FileFault, Qrels};
use run_reader::{RunRows, Used};
use std::alloc::Global;
use topics_pool::{DeskFault, build_desk};

/// A desk of texts that were made.
#[derive(Drop)]
pub struct DemoDesk {
    pub desk: Desk,
    /// How many rows of runs were kept.
    pub rows: u32,
}

// Runs that were read, and how many rows of them were kept.
#[derive(Drop)]
struct Rankings {
    runs: Vec<RunRows>,
    rows: u32,
}

// Why a text was not read, which is no fault of the text.
fn out_of_memory(fault: FileFault) -> Memory
    requires { fault ≡ FileFault.Memory }
{
    match fault {
        FileFault::Memory => Memory,
        FileFault::Line { .. } => unreachable!(),
        FileFault::NoTopics => unreachable!(),
        FileFault::NoTag => unreachable!(),
    }
}

// The judgements of the text that is made next.
fn read_judgements(alloc: Global, generator: &mut Generator) -> Result<Qrels, Memory>
    ensures said { IfOk result (λ qrels. qrels_of (qrels_after generator.old) ≡ Ok qrels) }
    ensures topics { IfOk result (λ qrels. HaveTopics TOPICS qrels) }
    ensures state { OnOk result (generator.new ≡ state_after generator.old (DOCUMENTS * TOPICS)) }
{
    let text = qrels_text(alloc, generator)?;
    match read_judgement_lines(alloc, &text) {
        Ok(qrels) => Ok(qrels),
        Err(fault) => Err(out_of_memory(fault)),
    }
}

// The run of the text that is made next.
fn read_ranking(
    alloc: Global,
    generator: &mut Generator,
    run: u32,
    qrels: &Qrels,
    used: Used,
) -> Result<RunRows, Memory>
    requires run { run < RUNS }
    requires within { IsWithinLimits used }
    requires read { IsOk (run_of None qrels.now used (run_after generator.old run)) }
    ensures said { IfOk result (λ rows. run_of None qrels.now used (run_after generator.old run) ≡
        Ok rows) }
    ensures state { OnOk result (generator.new ≡
        state_after generator.old ((1 + PLACES) * TOPICS)) }
{
    let text = run_text(alloc, generator, run)?;
    match read_run_lines(alloc, &text, qrels, used) {
        Ok(rows) => Ok(rows),
        Err(fault) => Err(out_of_memory(fault)),
    }
}

fn push_run(runs: &mut Vec<RunRows>, run: RunRows) -> Result<(), Memory>
    ensures { OnOk result (runs.new.items ≡ runs.old.items ++ run ∷ []) }
{
    runs.push(run)?;
    Ok(())
}

// The runs of the first so many texts that are made next, each beside the judgements and what the texts before it used.
fn read_rankings(
    alloc: Global,
    generator: &mut Generator,
    qrels: &Qrels,
    count: u32,
) -> Result<Rankings, Memory>
    requires count { count ≤ RUNS }
    requires topics { HaveTopics TOPICS qrels.now }
    ensures said { IfOk result (λ rankings.
        SayRuns qrels.now (used_before_runs qrels.now) (runs_after generator.old count)
        rankings.runs.items) }
    ensures rows { IfOk result (λ rankings. rankings.rows ≡ total_rows rankings.runs.items) }
    ensures total { IfOk result (λ rankings. total_rows rankings.runs.items ≡ PLACES * TOPICS *
        count) }
    ensures names { IfOk result (λ rankings. run_names rankings.runs.items ≡
        map tag_text (range_with_len 0 count)) }
    ensures many { IfOk result (λ rankings. vec_len rankings.runs ≡ count) }
{
    let mut runs = Vec::new(alloc);
    let mut used = Used {
        rows: 0,
        name_bytes: qrels.name_bytes(),
    };
    for run in 0..count {
        let ranking = read_ranking(alloc, generator, run, qrels, used)?;
        used = ranking.used();
        push_run(&mut runs, ranking)?;
    }
    Ok(Rankings {
        runs,
        rows: used.rows,
    })
}

// The desk of eight runs with the names of the demo's.
fn join(alloc: Global, qrels: Qrels, runs: Vec<RunRows>) -> Result<Desk, Memory>
    requires many { vec_len runs ≡ RUNS }
    requires rows { total_rows runs.items ≤ MOST_RUN_ROWS }
    requires names { run_names runs.items ≡ map tag_text (range_with_len 0 RUNS) }
    ensures { IfOk result (IsDeskOf qrels runs.items) }
{
    // There are not too many topics.
    let _ = qrels.topics();
    match build_desk(alloc, qrels, runs) {
        Ok(desk) => Ok(desk),
        Err(DeskFault::Memory) => Err(Memory),
        Err(DeskFault::SameName { .. }) => unreachable!(),
        Err(DeskFault::TooManyCells { .. }) => unreachable!(),
    }
}

/// The desk of the texts of a seed, made and read one after the other: no text is refused, and 200,000 rows are kept.
///
/// # Errors
/// `Memory`: out of memory.
pub fn demo_desk(alloc: Global, seed: u32) -> Result<DemoDesk, Memory>
    ensures demo { IfOk result (λ demo. IsDemoDesk seed demo.desk demo.rows) }
    ensures runs { IfOk result (λ demo. length demo.desk.runs ≡ 8) }
    ensures rows { IfOk result (λ demo. demo.rows ≡ RUNS * TOPICS * PLACES) }
{
    let mut generator = Generator::new(seed);
    let qrels = read_judgements(alloc, &mut generator)?;
    let rankings = read_rankings(alloc, &mut generator, &qrels, RUNS)?;
    let rows = rankings.rows;
    let desk = join(alloc, qrels, rankings.runs)?;
    Ok(DemoDesk { desk, rows })
}
