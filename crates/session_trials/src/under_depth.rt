// A session under a depth, worked out by hand. A ranks the relevant document d1 and then x, B the document d2 and then y.
// The pool of depth 1 is d1 and d2, so x and y count as not relevant where they have no grade.
ghost use Rattle.std.specs.Prelude.{◌≡◌, ◌≤◌, length, IfOk};
ghost use Rattle.run_reader.specs.declared.limits.TheConstants.{MOST_RUN_ROWS};
ghost use Rattle.topics_pool.specs.Rows.{total_rows};

use crate::held::hears;
use desk_model::{Desk, MeasureName, Memory};
use desk_report::Grading;
use measure_core::Maker;
use precision::Precision;
use qrels_reader::{Qrels, read_qrels};
use run_reader::{RunRows, Used, read_run};
use session_replies::Given;
use std::alloc::Global;
use std::marker::Brand;
use std::sync::ledger::Blank;
use std::test::Fail;
use topics_pool::build_desk;

const QRELS: &[u8] = b"401 0 d1 1\n401 0 d2 0\n";

const A: &[u8] = b"401 Q0 d1 1 2 A\n401 Q0 x 2 1 A\n";

const B: &[u8] = b"401 Q0 d2 1 2 B\n401 Q0 y 2 1 B\n";

const LINES: &[u8] = b"pool 401 2\njudge ann 401 y 1\npair A B\nundo ann\npair A B\n";

// Makes precision alone.
struct OfPrecision;

impl Maker for OfPrecision {
    type Made = Precision;

    fn make(&self, _alloc: Global, name: MeasureName) -> Result<Precision, Memory> {
        match name {
            MeasureName::Precision(k) => Ok(Precision::new(k)),
            _ => Err(Memory),
        }
    }
}

fn read_runs(alloc: Global, qrels: &Qrels, a: &[u8], b: &[u8]) -> Result<Vec<RunRows>, Fail>
    ensures two { IfOk result (λ runs. length runs.items ≡ 2) }
    ensures rows { IfOk result (λ runs. total_rows runs.items ≤ MOST_RUN_ROWS) }
{
    let none = Used {
        rows: 0,
        name_bytes: 0,
    };
    let first = read_run(alloc, a, None, qrels, none)?;
    let second = read_run(alloc, b, None, qrels, first.used())?;
    let _ = second.used();
    let mut runs = Vec::new(alloc);
    runs.push(first)?;
    runs.push(second)?;
    Ok(runs)
}

fn desk_of_two(alloc: Global) -> Result<Desk, Fail> {
    let qrels = read_qrels(alloc, QRELS)?;
    let runs = read_runs(alloc, &qrels, A, B)?;
    Ok(build_desk(alloc, qrels, runs)?)
}

// Whether a session by the measure P_2 replies so to the lines.
fn replies(alloc: Global, grading: Grading, told: &[u8]) -> Result<bool, Fail> {
    let desk = desk_of_two(alloc)?;
    let measure = MeasureName::Precision(2);
    let given = Given {
        desk: &desk,
        measure: &measure,
        grading,
    };
    hears::<_, Brand>(alloc, &given, &OfPrecision, LINES, told, Blank::new(1))
}

#[test]
fn a_closed_document_counts_by_its_grade(rt: HostRuntime) -> Result<(), Fail> {
    let told =
        b"pool 4 4 1 0\njudged 401 y 1\npair A equal B 0.000000 0.000000\nundone 401 y -\npair A above B 0.500000 0.500000\n";
    assert!(rt; replies(rt.alloc(), Grading::new(1, Some(1)), told)?);
    Ok(())
}

#[test]
fn nothing_is_closed_without_a_depth(rt: HostRuntime) -> Result<(), Fail> {
    let told =
        b"pool 4 2 1 2\njudged 401 y 1\npair A open B 0.000000 0.500000\nundone 401 y -\npair A open B 0.000000 1.000000\n";
    assert!(rt; replies(rt.alloc(), Grading::new(1, None), told)?);
    Ok(())
}
