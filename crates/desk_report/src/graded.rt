// The printed table by grades.
ghost use Rattle.std.specs.Prelude.{◌≡◌, ◌≤◌, ◌*◌, ◌^◌, ◌++◌, All, length, flat_map, pos, IfOk, OnOk};
ghost use Rattle.desk_model.specs.Pairs.{pairs_of};
ghost use Rattle.graded_rbp.specs.Score.{GREATEST_LIMIT};
ghost use Rattle.topic_counts.specs.Ends.{IsShort};
ghost use Rattle.desk_report.specs.ByGrades.{graded_head, graded_text};
ghost use Rattle.desk_report.specs.Table.{AreNearTotals, ended};

use crate::means::all_parts;
use crate::table::{TableNumbers, push_measure_line, push_number_line, push_pairs, push_runs};
use desk_model::{Desk, MeasureName, Memory, Totals};
use std::alloc::{AllocError, Global};
use topic_counts::Span;

const PARTS_OF_ONE: i128 = 1_000_000_000_000_000_000;

fn parts_of_one(greatest: u32) -> i128
    requires { greatest ≤ GREATEST_LIMIT }
    ensures { result ≡ pos (greatest * 10 ^ 18) }
{
    greatest as i128 * PARTS_OF_ONE
}

fn push_graded_head(
    out: &mut Vec<u8>,
    measure: &MeasureName,
    greatest: u32,
    topics: u32,
    runs: u32,
) -> Result<(), AllocError>
    ensures { OnOk result (out.new.items ≡ out.old.items ++
        flat_map ended (graded_head measure.now greatest topics runs)) }
{
    push_measure_line(out, measure)?;
    push_number_line(out, b"greatest ", greatest)?;
    push_number_line(out, b"topics ", topics)?;
    push_number_line(out, b"runs ", runs)
}

/// The table by grades: its head with the greatest number, a line for each run with its bounds, and a line for each pair
/// in order with its four sums. Bounds and sums are over all topics, in parts of which the greatest number times 10^18
/// make a score of 1.
///
/// # Errors
/// `Memory`: out of memory.
pub fn graded_text(
    alloc: Global,
    desk: &Desk,
    name: &MeasureName,
    greatest: u32,
    bounds: &[Span],
    totals: &[Totals],
) -> Result<Vec<u8>, Memory>
    requires some { 1 ≤ greatest }
    requires few { greatest ≤ GREATEST_LIMIT }
    requires bounds_count { length bounds.now ≡ length desk.now.runs }
    requires totals_count { length totals.now ≡ length (pairs_of desk.now.runs) }
    requires bounds { All IsShort bounds.now }
    requires totals { All AreNearTotals totals.now }
    ensures { IfOk result (λ text. text.items ≡
        graded_text desk.now name.now greatest bounds.now totals.now) }
{
    let mut out = Vec::new(alloc);
    let topics = desk.topic_count();
    let numbers = TableNumbers {
        desk,
        parts: all_parts(parts_of_one(greatest), topics),
        bounds,
        totals,
    };
    push_graded_head(&mut out, name, greatest, topics, desk.run_count())?;
    push_runs(&mut out, &numbers)?;
    push_pairs(&mut out, &numbers)?;
    Ok(out)
}
