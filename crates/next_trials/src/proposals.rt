// Proposals worked out by hand. There are two runs, so there is one pair.
ghost use Rattle.desk_model.specs.MeasureText.{IsMeasure};

use crate::desks::{desk_of, marks_of};
use any_measure::AnyMeasure;
use desk_model::{MeasureName, Verdict};
use next_document::{Proposal, next};
use std::alloc::Global;
use std::test::Fail;

// The proposal for these files at level 1, where the pair has this verdict.
fn next_of(
    alloc: Global,
    name: MeasureName,
    files: [&[u8]; 3],
    verdict: Verdict,
) -> Result<Option<Proposal>, Fail>
    requires { IsMeasure name }
{
    let [qrels, first, second] = files;
    let desk = desk_of(alloc, &[qrels], &[first], &[second])?;
    let marks = marks_of(alloc, &desk, None)?;
    let measure = AnyMeasure::new(alloc, name)?;
    Ok(next(&measure, &desk, &marks, &[verdict]))
}

// Topic 401 has c and d, and topic 402 has d: each of the three is the first of one run. The first by name is c of 401.
const TIED: [&[u8]; 3] = [
    b"402 0 e 0\n401 0 b 0\n",
    b"401 Q0 d 1 2 A\n401 Q0 b 2 1 A\n402 Q0 d 1 1 A\n",
    b"401 Q0 c 1 1 B\n402 Q0 e 1 1 B\n",
];

#[test]
fn ties_go_to_the_smaller_names(rt: HostRuntime) -> Result<(), Fail> {
    let proposal = next_of(rt.alloc(), MeasureName::Precision(1), TIED, Verdict::Open)?;
    let first = Proposal {
        topic: 0,
        doc: 1,
        weight: 1,
    };
    assert!(rt; proposal == Some(first));
    Ok(())
}

#[test]
fn settled_pairs_propose_nothing(rt: HostRuntime) -> Result<(), Fail> {
    let measure = MeasureName::Precision(1);
    for verdict in &[Verdict::Above, Verdict::Below, Verdict::Equal] {
        assert!(rt; next_of(rt.alloc(), measure, TIED, *verdict)? == None);
    }
    Ok(())
}

// Both runs rank u alike: under rank-biased precision the pair is open by what may follow the ranked documents, and u
// moves nothing.
#[test]
fn an_open_pair_may_have_no_proposal(rt: HostRuntime) -> Result<(), Fail> {
    let files: [&[u8]; 3] = [
        b"401 0 d 1\n",
        b"401 Q0 u 1 2 A\n401 Q0 d 2 1 A\n",
        b"401 Q0 u 1 2 B\n401 Q0 d 2 1 B\n",
    ];
    let biased = MeasureName::Biased { top: 5, bottom: 10 };
    assert!(rt; next_of(rt.alloc(), biased, files, Verdict::Open)? == None);
    Ok(())
}

// With one relevant document only the first ranks count, where both runs have the same. With two, the second ranks do.
#[test]
fn under_r_precision_judgements_change_weights(rt: HostRuntime) -> Result<(), Fail> {
    let first: &[u8] = b"401 Q0 d1 1 2 A\n401 Q0 d3 2 1 A\n";
    let second: &[u8] = b"401 Q0 d1 1 2 B\n401 Q0 d2 2 1 B\n";
    let before = next_of(
        rt.alloc(),
        MeasureName::RPrecision,
        [b"401 0 x 1\n", first, second],
        Verdict::Open,
    )?;
    assert!(rt; before == None);
    let after = next_of(
        rt.alloc(),
        MeasureName::RPrecision,
        [b"401 0 x 1\n401 0 d1 1\n", first, second],
        Verdict::Close,
    )?;
    let d2 = Proposal {
        topic: 0,
        doc: 1,
        weight: 1,
    };
    assert!(rt; after == Some(d2));
    Ok(())
}
