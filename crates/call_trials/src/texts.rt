// Texts of numbers, measures, pairs and pools, by hand.
use desk_model::{
    MeasureName, PoolCount, Totals, push_grade, push_measure, push_signed, push_whole,
};
use desk_report::{close_line, pair_line, pool_line};
use std::test::Fail;

fn is_text(text: Vec<u8>, shown: &[u8]) -> bool {
    text.as_slice() == shown
}

#[test]
fn numbers_and_measures_are_put(rt: HostRuntime) -> Result<(), Fail> {
    let mut out = Vec::new(rt.alloc());
    let measure = MeasureName::Biased { top: 8, bottom: 10 };
    push_measure(&mut out, &measure)?;
    push_signed(&mut out, -170)?;
    push_grade(&mut out, -1)?;
    push_whole(&mut out, 25)?;
    assert!(rt; is_text(out, b"rbp_0.8-170-125"));
    Ok(())
}

#[test]
fn numbers_of_a_pair_and_a_pool_are_shown(rt: HostRuntime) -> Result<(), Fail> {
    let alloc = rt.alloc();
    let totals = Totals {
        least_lo: -1,
        least_hi: 1,
        most_lo: 2,
        most_hi: 2,
    };
    // Means are rounded outward.
    let shown = b"pair A close B -0.166667 0.333334\n";
    assert!(rt; is_text(pair_line(alloc, b"A", b"B", 3, 2, &totals)?, shown));
    let shown = b"close A B -1 1 2 2\n";
    assert!(rt; is_text(close_line(alloc, b"A", b"B", &totals)?, shown));
    let count = PoolCount {
        size: 3,
        judged: 2,
        relevant: 1,
        unjudged: 1,
    };
    assert!(rt; is_text(pool_line(alloc, &count)?, b"pool 3 2 1 1\n"));
    Ok(())
}
