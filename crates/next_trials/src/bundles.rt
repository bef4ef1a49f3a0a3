// The bundle of three runs on one topic, worked out by hand. A ranks the relevant document, B a document that is not
// relevant, and C one that is not judged. One document is relevant, or two where z1 is: so A has 1 or 1/2 of them, B
// none, and C none or 1/2. Under average precision z1 and z2 count, so A scores 1/3 to 1 and C 0 to 2/3.
ghost use Rattle.std.specs.Prelude.{◌≡◌, ◌<◌};
ghost use Rattle.desk_model.specs.MeasureText.{IsMeasure};

use crate::desks::{desk_of_three, marks_of};
use any_measure::AnyMeasure;
use desk_model::MeasureName;
use measure_core::Steps;
use order_bundle::write_bundle;
use pair_table::Table;
use std::alloc::Global;
use std::marker::Brand;
use std::sync::ledger::{Blank, Ledger};
use std::test::Fail;
use table_bundle::{bundle_of, table_bundle_length};

pub const QRELS: &[u8] = b"401 0 d1 1\n401 0 d2 0\n";

pub const A: &[u8] = b"401 Q0 d1 1 1 A\n";

pub const B: &[u8] = b"401 Q0 d2 1 1 B\n";

pub const C: &[u8] = b"401 Q0 z1 1 2 C\n401 Q0 z2 2 1 C\n";

const TEXT: &[u8] =
    b"desk-certificate 2\nmeasure recall_1\nlevel 1\nruns 3\nrun A\nrun B\nrun C\ntopics 1\ntopic 401 1\ndoc z1\nclaims 3\nclaim above 0 1\nbound 333333333333333333\nclaim open 0 2\nlow 1\npick 0\nhigh 0\nclaim open 1 2\nlow 1\npick 0\nhigh 0\nend\n";

const AVERAGE_TEXT: &[u8] =
    b"desk-certificate 2\nmeasure map\nlevel 1\nruns 3\nrun A\nrun B\nrun C\ntopics 1\ntopic 401 2\ndoc z1\ndoc z2\nclaims 3\nclaim above 0 1\nbound 333333333333333333\nclaim open 0 2\nlow 2\npick 0\npick 1\nhigh 0\nclaim open 1 2\nlow 2\npick 0\npick 1\nhigh 0\nend\n";

// The text of the bundle of three runs in this order, and how long it is by the count that makes no bundle.
fn text_of<L: Ledger>(
    alloc: Global,
    blank: Blank,
    measure: MeasureName,
    files: [&[u8]; 3],
) -> Result<(Vec<u8>, u64), Fail>
    requires measure { IsMeasure measure }
    requires name { blank.name ≡ L.name }
    requires parts { blank.parts ≡ L.parts }
    requires some { 0 < blank.parts }
{
    let mut steps: Steps<L> = Steps::new(blank);
    let desk = desk_of_three(alloc, QRELS, files)?;
    let marks = marks_of(alloc, &desk, None)?;
    let measure = AnyMeasure::new(alloc, measure)?;
    let table = Table::new(alloc, &desk, &marks, measure, &mut steps)?;
    let bytes = table_bundle_length(alloc, &table, &desk, &marks, 1)?;
    let bundle = bundle_of(alloc, &table, &desk, &marks, 1)?;
    let text = write_bundle(alloc, &bundle)?;
    Ok((text, bytes))
}

fn bundle_text(
    alloc: Global,
    measure: MeasureName,
    files: [&[u8]; 3],
) -> Result<(Vec<u8>, u64), Fail>
    requires { IsMeasure measure }
{
    text_of::<Brand>(alloc, Blank::new(1), measure, files)
}

#[test]
fn all_pairs_in_one(rt: HostRuntime) -> Result<(), Fail> {
    let (text, _) = bundle_text(rt.alloc(), MeasureName::Recall(1), [A, B, C])?;
    assert_eq!(rt; text.as_slice(), TEXT);
    Ok(())
}

// Runs are numbered by their names, in whatever order they are given.
#[test]
fn runs_go_by_name(rt: HostRuntime) -> Result<(), Fail> {
    let (text, _) = bundle_text(rt.alloc(), MeasureName::Recall(1), [C, B, A])?;
    assert_eq!(rt; text.as_slice(), TEXT);
    Ok(())
}

#[test]
fn length_is_known_before(rt: HostRuntime) -> Result<(), Fail> {
    let (_, bytes) = bundle_text(rt.alloc(), MeasureName::Recall(1), [A, B, C])?;
    assert_eq!(rt; bytes, TEXT.len() as u64);
    Ok(())
}

#[test]
fn average_of_all_pairs(rt: HostRuntime) -> Result<(), Fail> {
    let measure = MeasureName::AveragePrecision;
    let (text, bytes) = bundle_text(rt.alloc(), measure, [A, B, C])?;
    assert_eq!(rt; text.as_slice(), AVERAGE_TEXT);
    assert_eq!(rt; bytes, AVERAGE_TEXT.len() as u64);
    Ok(())
}
