// Worked powers, and floors and ceilings on both sides of 0.
use topic_counts::{Powers, Span, span_of};

#[test]
fn powers_of_one_half(rt: HostRuntime) {
    let Ok(powers) = Powers::new(rt.alloc(), 5, 10, 1001) else {
        panic!(rt; "memory suffices");
    };
    for (i, low, high) in [
        (0, 1_000_000_000_000_000_000, 1_000_000_000_000_000_000),
        (1, 500_000_000_000_000_000, 500_000_000_000_000_000),
        (2, 250_000_000_000_000_000, 250_000_000_000_000_000),
        (1001, 0, 1),
    ] {
        assert_eq!(rt;
            (powers.low(i), powers.high(i)),
            (low, high),
            "the power {i}"
        );
    }
    let first = powers.weight(1);
    let second = powers.weight(2);
    let last = powers.weight(1001);
    assert_eq!(rt;
        (first.lo, first.hi),
        (500_000_000_000_000_000, 500_000_000_000_000_000)
    );
    assert_eq!(rt;
        (second.lo, second.hi),
        (250_000_000_000_000_000, 250_000_000_000_000_000)
    );
    assert_eq!(rt; (last.lo, last.hi), (0, 1));
}

#[test]
fn powers_of_four_fifths_end(rt: HostRuntime) {
    let Ok(powers) = Powers::new(rt.alloc(), 8, 10, 11_000) else {
        panic!(rt; "memory suffices");
    };
    assert_eq!(rt; (powers.low(11_000), powers.high(11_000)), (0, 4));
}

#[test]
fn spans_on_both_sides_of_zero(rt: HostRuntime) {
    for (num, den, unit, lo, hi) in [
        (
            1,
            3,
            1_000_000_000_000_000_000,
            333_333_333_333_333_333,
            333_333_333_333_333_334,
        ),
        (
            -1,
            3,
            1_000_000_000_000_000_000,
            -333_333_333_333_333_334,
            -333_333_333_333_333_333,
        ),
        (-4, 2, 1, -2, -2),
        (0, 7, 10, 0, 0),
    ] {
        assert!(rt;
            span_of(num, den, unit) == Span { lo, hi },
            "{unit} * {num} / {den}"
        );
    }
}
