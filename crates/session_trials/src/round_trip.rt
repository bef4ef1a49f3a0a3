// A desk whose judgements are printed and read again, by hand.
ghost use Rattle.std.specs.Prelude.{◌≡◌, ◌<◌, ◌≤◌, length, IfOk};
ghost use Rattle.run_reader.specs.declared.limits.TheConstants.{MOST_RUN_ROWS};
ghost use Rattle.topics_pool.specs.Rows.{total_rows};

use desk_model::Desk;
use desk_report::{changed_line, qrels_text};
use judge_session::Changed;
use qrels_reader::{Qrels, read_qrels};
use run_reader::{RunRows, Used, read_run};
use std::alloc::Global;
use std::test::Fail;
use topics_pool::build_desk;

fn read_runs(alloc: Global, qrels: &Qrels, run: &[u8]) -> Result<Vec<RunRows>, Fail>
    ensures one { IfOk result (λ runs. length runs.items ≡ 1) }
    ensures rows { IfOk result (λ runs. total_rows runs.items ≤ MOST_RUN_ROWS) }
{
    let none = Used {
        rows: 0,
        name_bytes: 0,
    };
    let first = read_run(alloc, run, None, qrels, none)?;
    let _ = first.used();
    let mut runs = Vec::new(alloc);
    runs.push(first)?;
    Ok(runs)
}

fn desk_of(alloc: Global, qrels: &[u8], run: &[u8]) -> Result<Desk, Fail> {
    let qrels = read_qrels(alloc, qrels)?;
    let runs = read_runs(alloc, &qrels, run)?;
    Ok(build_desk(alloc, qrels, runs)?)
}

// The judgements of the file on the first topic.
fn printed(alloc: Global, desk: &Desk) -> Result<Vec<u8>, Fail> {
    let _ = desk.topic_count();
    let book = desk.topic(0);
    let _ = book.doc_count();
    Ok(qrels_text(alloc, desk, 0, &book.grades(alloc)?)?)
}

// Whether the judgements of a desk are printed as this text, and of a desk of that text again.
fn is_printed_again(alloc: Global, qrels: &[u8], run: &[u8], text: &[u8]) -> Result<bool, Fail> {
    let first = printed(alloc, &desk_of(alloc, qrels, run)?)?;
    let second = printed(alloc, &desk_of(alloc, &first, run)?)?;
    Ok(first.as_slice() == text && second.as_slice() == text)
}

#[test]
fn a_printed_text_is_read_again(rt: HostRuntime) -> Result<(), Fail> {
    let qrels = b"401 0 d4 -1\n401 0 d1 +1\n401 0 d2 00\n";
    let run = b"401 Q0 d3 1 3.0 A\n401 Q0 d1 2 2.0 A\n402 Q0 x 1 1.0 A\n";
    let text = b"401 0 d1 1\n401 0 d2 0\n401 0 d4 -1\n";
    assert!(rt; is_printed_again(rt.alloc(), qrels, run, text)?);
    Ok(())
}

// Whether grade 2 of the third document of the first topic is told in this line.
fn is_told(alloc: Global, desk: &Desk, line: &[u8]) -> Result<bool, Fail> {
    let _ = desk.topic_count();
    if desk.topic(0).doc_count() < 3 {
        return Ok(false);
    }
    let changed = Changed {
        topic: 0,
        doc: 2,
        grade: Some(2),
    };
    Ok(changed_line(alloc, b"judged", desk, &changed)?.as_slice() == line)
}

#[test]
fn a_change_is_told_by_names(rt: HostRuntime) -> Result<(), Fail> {
    let alloc = rt.alloc();
    let desk = desk_of(alloc, b"401 0 d1 1\n401 0 d2 0\n", b"401 Q0 d3 1 3.0 A\n")?;
    assert!(rt; is_told(alloc, &desk, b"judged 401 d3 2\n")?);
    Ok(())
}
