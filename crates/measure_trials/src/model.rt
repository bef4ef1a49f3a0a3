// Marks, verdicts, names and texts of measures, by examples.
use desk_model::{
    Mark, MeasureName, Name, Totals, UnknownMeasure, Verdict, mark, read_measure, verdict_of,
};
use std::test::Fail;

fn totals(least_lo: i128, least_hi: i128, most_lo: i128, most_hi: i128) -> Totals {
    Totals {
        least_lo,
        least_hi,
        most_lo,
        most_hi,
    }
}

#[test]
fn verdict_and_its_mirror(rt: HostRuntime) {
    let half: i128 = 500_000_000_000_000_000;
    for (sums, want) in [
        (totals(1, 1, 1, 1), Verdict::Above),
        (totals(-1, -1, -1, -1), Verdict::Below),
        (totals(1, 2, 7, 9), Verdict::Above),
        (totals(-9, -7, -2, -1), Verdict::Below),
        (totals(0, 0, 0, 0), Verdict::Equal),
        (totals(-half, -half, 0, 0), Verdict::Open),
        (totals(0, 0, half, half), Verdict::Open),
        (totals(-half, 1 - half, half - 1, half), Verdict::Open),
        (totals(-1, 0, 1, 2), Verdict::Open),
        (totals(-2, -1, 0, 1), Verdict::Open),
        (totals(0, 1, 0, 1), Verdict::Close),
        (totals(-1, 0, -1, 0), Verdict::Close),
        (totals(-1, 0, 0, 1), Verdict::Close),
        (totals(-1, 1, -1, 1), Verdict::Close),
    ] {
        assert!(rt; verdict_of(&sums) == want);
    }
}

#[test]
fn texts_of_measures(rt: HostRuntime) {
    for (text, want) in [
        (b"P_1".as_slice(), Ok(MeasureName::Precision(1))),
        (b"P_10000".as_slice(), Ok(MeasureName::Precision(10_000))),
        (b"P_10001".as_slice(), Err(UnknownMeasure)),
        (b"P_0".as_slice(), Err(UnknownMeasure)),
        (b"P_05".as_slice(), Err(UnknownMeasure)),
        (b"p_5".as_slice(), Err(UnknownMeasure)),
        (b"recall_30".as_slice(), Ok(MeasureName::Recall(30))),
        (b"recall_".as_slice(), Err(UnknownMeasure)),
        (b"Rprec".as_slice(), Ok(MeasureName::RPrecision)),
        (b"Rprec ".as_slice(), Err(UnknownMeasure)),
        (b"recip_rank".as_slice(), Ok(MeasureName::Reciprocal)),
        (b"map".as_slice(), Ok(MeasureName::AveragePrecision)),
        (b"map_5".as_slice(), Err(UnknownMeasure)),
        (
            b"rbp_0.8".as_slice(),
            Ok(MeasureName::Biased { top: 8, bottom: 10 }),
        ),
        (
            b"rbp_0.50".as_slice(),
            Ok(MeasureName::Biased { top: 5, bottom: 10 }),
        ),
        (
            b"rbp_0.050".as_slice(),
            Ok(MeasureName::Biased {
                top: 5,
                bottom: 100,
            }),
        ),
        (
            b"rbp_0.000001".as_slice(),
            Ok(MeasureName::Biased {
                top: 1,
                bottom: 1_000_000,
            }),
        ),
        (b"rbp_0.0000001".as_slice(), Err(UnknownMeasure)),
        (b"rbp_0.000".as_slice(), Err(UnknownMeasure)),
        (b"rbp_0.".as_slice(), Err(UnknownMeasure)),
        (b"rbp_0.+5".as_slice(), Err(UnknownMeasure)),
        (b"rbp_1.5".as_slice(), Err(UnknownMeasure)),
        (b"".as_slice(), Err(UnknownMeasure)),
    ] {
        assert!(rt; read_measure(text) == want, "of {text:?}");
    }
}

#[test]
fn marks_at_the_edges_of_the_level(rt: HostRuntime) {
    for (grade, level, want) in [
        (None, 1, Mark::Unjudged),
        (Some(-1000), 1, Mark::Unjudged),
        (Some(-1), 1, Mark::Unjudged),
        (Some(0), 1, Mark::Other),
        (Some(1), 1, Mark::Relevant),
        (Some(1), 2, Mark::Other),
        (Some(2), 2, Mark::Relevant),
        (Some(999), 1000, Mark::Other),
        (Some(1000), 1000, Mark::Relevant),
    ] {
        assert!(rt;
            mark(grade, level, true) == want,
            "{grade:?} at level {level}"
        );
    }
}

#[test]
fn marks_outside_the_pool(rt: HostRuntime) {
    for (grade, level, want) in [
        (None, 1, Mark::Other),
        (Some(-1), 1, Mark::Other),
        (Some(0), 1, Mark::Other),
        (Some(1), 1, Mark::Relevant),
        (Some(1), 2, Mark::Other),
        (Some(1000), 1000, Mark::Relevant),
    ] {
        assert!(rt;
            mark(grade, level, false) == want,
            "{grade:?} at level {level}"
        );
    }
}

#[test]
fn a_name_keeps_its_bytes(rt: HostRuntime) -> Result<(), Fail> {
    let name = Name::new(rt.alloc(), b"FBIS3-1")?;
    assert_eq!(rt; name.as_bytes(), b"FBIS3-1".as_slice());
    assert!(rt; Name::new(rt.alloc(), b"two words").is_err());
    Ok(())
}
