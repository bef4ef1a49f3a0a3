// Tables by grades worked out by hand.
use crate::answers::{Said, ask};
use crate::desks::desk_of;
use any_measure::Common;
use desk_model::{Totals, Verdict};
use std::test::Fail;
use topic_counts::Span;

const TWO_GRADES: [&[u8]; 3] = [
    b"401 0 d1 2\n401 0 d2 1\n",
    b"401 Q0 d1 1 1 A\n",
    b"401 Q0 d2 1 1 B\n",
];

const ONE_LIST: [&[u8]; 3] = [b"401 0 d1 1\n", b"401 Q0 d1 1 1 X\n", b"401 Q0 d1 1 1 Y\n"];

const OF_TWO_GRADES: Said = Said {
    totals: Totals {
        least_lo: -500_000_000_000_000_000,
        least_hi: -499_999_999_999_999_998,
        most_lo: 1_499_999_999_999_999_998,
        most_hi: 1_500_000_000_000_000_000,
    },
    verdict: Verdict::Open,
    bounds: Span {
        lo: 1_000_000_000_000_000_000,
        hi: 2_000_000_000_000_000_000,
    },
};

const OF_ONE_LIST: Said = Said {
    totals: Totals {
        least_lo: -500_000_000_000_000_000,
        least_hi: -499_999_999_999_999_999,
        most_lo: 499_999_999_999_999_999,
        most_hi: 500_000_000_000_000_000,
    },
    verdict: Verdict::Open,
    bounds: Span {
        lo: 500_000_000_000_000_000,
        hi: 1_000_000_000_000_000_000,
    },
};

const TWO_GRADES_TEXT: &[u8] =
    b"measure rbp_0.5\ngreatest 2\ntopics 1\nruns 2\nrun A 0.500000 1.000000\nrun B 0.250000 0.750000\npair A open B -0.250000 0.750000\n";

const ONE_LIST_TEXT: &[u8] =
    b"measure rbp_0.5\ngreatest 1\ntopics 1\nruns 2\nrun X 0.500000 1.000000\nrun Y 0.500000 1.000000\npair X open Y -0.500000 0.500000\n";

#[test]
fn a_grade_of_one_level_more_is_half_a_gain_more(rt: HostRuntime) -> Result<(), Fail> {
    let desk = desk_of(rt.alloc(), TWO_GRADES)?;
    let answers = ask(&rt, rt.alloc(), &desk, 2, &Common)?;
    let said = answers.straight.is(OF_TWO_GRADES);
    assert!(rt; said);
    let text = answers.text.as_slice() == TWO_GRADES_TEXT;
    assert!(rt; text);
    Ok(())
}

#[test]
fn one_level_is_the_binary_measure(rt: HostRuntime) -> Result<(), Fail> {
    let desk = desk_of(rt.alloc(), ONE_LIST)?;
    let answers = ask(&rt, rt.alloc(), &desk, 1, &Common)?;
    let said = answers.straight.is(OF_ONE_LIST) && answers.swapped.is(OF_ONE_LIST);
    assert!(rt; said);
    let text = answers.text.as_slice() == ONE_LIST_TEXT;
    assert!(rt; text);
    Ok(())
}
