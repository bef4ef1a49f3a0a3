// Tiers worked out by hand.
ghost use Rattle.std.specs.Prelude.{◌≡◌, ◌<◌, length, IfOk};
ghost use Rattle.desk_model.specs.MeasureText.{IsMeasure};

use crate::bundles::{A, B, C, QRELS};
use crate::desks::{desk_of, desk_of_three, marks_of};
use any_measure::AnyMeasure;
use desk_model::{Desk, MeasureName};
use desk_report::tiers_text;
use measure_core::Steps;
use order_tiers::Order;
use pair_table::Table;
use std::alloc::Global;
use std::marker::Brand;
use std::sync::ledger::{Blank, Ledger};
use std::test::Fail;

// The order of the runs of a desk at level 1, and its text.
fn order_by<L: Ledger>(
    alloc: Global,
    blank: Blank,
    name: MeasureName,
    desk: &Desk,
) -> Result<(Order, Vec<u8>), Fail>
    requires measure { IsMeasure name }
    requires name { blank.name ≡ L.name }
    requires parts { blank.parts ≡ L.parts }
    requires some { 0 < blank.parts }
    ensures { IfOk result (λ said. length said.0.tiers ≡ length desk.now.runs) }
{
    let mut steps: Steps<L> = Steps::new(blank);
    let marks = marks_of(alloc, desk, None)?;
    let measure = AnyMeasure::new(alloc, name)?;
    let table = Table::new(alloc, desk, &marks, measure, &mut steps)?;
    let order = Order::of_table(alloc, &table, desk, &marks)?;
    let text = tiers_text(alloc, desk, &name, 1, None, &order)?;
    Ok((order, text))
}

fn order_of(alloc: Global, name: MeasureName, desk: &Desk) -> Result<(Order, Vec<u8>), Fail>
    requires { IsMeasure name }
    ensures { IfOk result (λ said. length said.0.tiers ≡ length desk.now.runs) }
{
    order_by::<Brand>(alloc, Blank::new(1), name, desk)
}

const OF_BUNDLE: &[u8] =
    b"measure recall_1\nlevel 1\ntopics 1\nruns 3\ntiers 2\nsystem A 1\nsystem B 2\nsystem C 1\ncover A B 1 0\n";

#[test]
fn an_open_pair_is_no_cover(rt: HostRuntime) -> Result<(), Fail> {
    let desk = desk_of_three(rt.alloc(), QRELS, [A, B, C])?;
    let (_, text) = order_of(rt.alloc(), MeasureName::Recall(1), &desk)?;
    assert_eq!(rt; text.as_slice(), OF_BUNDLE);
    Ok(())
}

// A has both relevant documents, B one of them, and C none.
const CHAIN: &[u8] = b"401 0 x1 1\n401 0 x2 1\n401 0 n 0\n401 0 m 0\n";

const BOTH: &[u8] = b"401 Q0 x1 1 2 A\n401 Q0 x2 2 1 A\n";

const ONE: &[u8] = b"401 Q0 x1 1 2 B\n401 Q0 n 2 1 B\n";

const NONE: &[u8] = b"401 Q0 n 1 2 C\n401 Q0 m 2 1 C\n";

const OF_CHAIN: &[u8] =
    b"measure P_2\nlevel 1\ntopics 1\nruns 3\ntiers 3\nsystem A 1\nsystem B 2\nsystem C 3\ncover A B 1 0\ncover B C 1 0\n";

const OF_TURNED: &[u8] =
    b"measure P_2\nlevel 1\ntopics 1\nruns 3\ntiers 3\nsystem C 3\nsystem B 2\nsystem A 1\ncover B C 1 0\ncover A B 1 0\n";

#[test]
fn a_run_between_makes_three_tiers(rt: HostRuntime) -> Result<(), Fail> {
    let desk = desk_of_three(rt.alloc(), CHAIN, [BOTH, ONE, NONE])?;
    let (order, text) = order_of(rt.alloc(), MeasureName::Precision(2), &desk)?;
    assert_eq!(rt; text.as_slice(), OF_CHAIN);
    let over = order.above(0, 1) && order.above(1, 2) && order.above(0, 2);
    assert!(rt; over);
    let under = order.above(2, 0) || order.above(0, 0);
    assert!(rt; !under);
    Ok(())
}

// All pairs are below: they are read from the other side.
#[test]
fn the_order_of_the_runs_changes_no_tier(rt: HostRuntime) -> Result<(), Fail> {
    let desk = desk_of_three(rt.alloc(), CHAIN, [NONE, ONE, BOTH])?;
    let (_, text) = order_of(rt.alloc(), MeasureName::Precision(2), &desk)?;
    assert_eq!(rt; text.as_slice(), OF_TURNED);
    Ok(())
}

const OF_ONE_LIST: &[u8] =
    b"measure P_10\nlevel 1\ntopics 1\nruns 2\ntiers 1\nsystem X 1\nsystem Y 1\n";

#[test]
fn equal_runs_have_one_tier(rt: HostRuntime) -> Result<(), Fail> {
    let first: &[u8] = b"401 Q0 d1 1 9 X\n401 Q0 d3 2 8 X\n";
    let second: &[u8] = b"401 Q0 d1 1 9 Y\n401 Q0 d3 2 8 Y\n";
    let desk = desk_of(rt.alloc(), &[QRELS], &[first], &[second])?;
    let (_, text) = order_of(rt.alloc(), MeasureName::Precision(10), &desk)?;
    assert_eq!(rt; text.as_slice(), OF_ONE_LIST);
    Ok(())
}
