// The desk of three files.
ghost use Rattle.std.specs.Prelude.{◌≡◌, ◌≤◌, length, IfOk};
ghost use Rattle.run_reader.specs.declared.limits.TheConstants.{MOST_RUN_ROWS};
ghost use Rattle.topics_pool.specs.Rows.{total_rows};

use desk_model::Desk;
use qrels_reader::{Qrels, read_qrels};
use run_reader::{RunRows, Used, read_run};
use std::alloc::Global;
use std::test::Fail;
use topics_pool::build_desk;

fn read_runs(alloc: Global, qrels: &Qrels, one: &[u8], other: &[u8]) -> Result<Vec<RunRows>, Fail>
    ensures two { IfOk result (λ runs. length runs.items ≡ 2) }
    ensures rows { IfOk result (λ runs. total_rows runs.items ≤ MOST_RUN_ROWS) }
{
    let none = Used {
        rows: 0,
        name_bytes: 0,
    };
    let first = read_run(alloc, one, None, qrels, none)?;
    let second = read_run(alloc, other, None, qrels, first.used())?;
    let _ = second.used();
    let mut runs = Vec::new(alloc);
    runs.push(first)?;
    runs.push(second)?;
    Ok(runs)
}

/// The desk of a judgements file and of two runs.
pub fn desk_of(alloc: Global, files: [&[u8]; 3]) -> Result<Desk, Fail>
    ensures { IfOk result (λ desk. length desk.runs ≡ 2) }
{
    let qrels = read_qrels(alloc, files[0])?;
    let runs = read_runs(alloc, &qrels, files[1], files[2])?;
    let desk = build_desk(alloc, qrels, runs)?;
    Ok(desk)
}
