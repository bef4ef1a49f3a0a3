// The order of scores and the faults of other texts, by hand.
use desk_text::{ScoreFault, read_score};
use std::cmp::Ordering;

// Two texts and the order of their scores between them.
const ORDERS: &str = "0.30000000000000000001 > 0.3
-0.30000000000000000001 < -0.3
9 < 10
-9 > -10
-1e999 < 1e-999
1e-999 > 0
999999999999999999999999999999e969 < 1e999
1.2e-05 > 0.0000119
1e1 = 10.0
-0 = 0e99999
+.5 = 5.E-1
1e00000000000000000001 = 0010
0.000e99999999999999999999 = 00
00.000 = -0
.5 = 0.5
-5. = -5
-.25 > -.3
999999999999999999 < 1000000000000000000
9999999999999999999 < 1e19
9999999999999999999 > 9999999999999999998
99999999999999999990 > 9999999999999999999
0.00000000000000001 = 1e-17
0.0000000000000000001 < 0.000000000000000001
+1234567890.12345678 = 12345678901234567.8e-7
1234567890.12345678 < 1234567890.123456789
-1234567890.12345678 > -1234567890.123456789
1. = 1.000000000000000000000
";

// A text after each fault.
const FAULTS: &str = "BadScore
BadScore .
BadScore +
BadScore -
BadScore -.
BadScore +.
BadScore 1.2.
BadScore ..1
BadScore ++1
BadScore 1-
BadScore 1,5
BadScore 123456789012345678a
BadScore 1234567890123456789a
BadScore 1e
BadScore 1.2.3
BadScore 1e1e1
BadScore inf
BadScore nan
ScoreTooLong 1000000000000000000000000000001e2000
ScoreExponent 1e1000
ScoreExponent 1e-1000
ScoreExponent 10e999
ScoreExponent 1e99999999999999999999
";

fn order_of(sign: &str) -> Ordering {
    match sign {
        "<" => Ordering::Less,
        "=" => Ordering::Equal,
        _ => Ordering::Greater,
    }
}

// Whether two texts are of scores in this order.
fn are_in_order(left: &str, right: &str, order: Ordering) -> bool {
    match (read_score(left.as_bytes()), read_score(right.as_bytes())) {
        (Ok(left), Ok(right)) => {
            left.cmp(&right) == order
                && left.partial_cmp(&right) == Some(order)
                && (left == right) == (order == Ordering::Equal)
        }
        _ => false,
    }
}

fn are_ordered() -> bool {
    for line in ORDERS.lines() {
        let (left, rest) = line.split_once(' ').unwrap_or((line, ""));
        let (sign, right) = rest.split_once(' ').unwrap_or((rest, ""));
        if !are_in_order(left, right, order_of(sign)) {
            return false;
        }
    }
    true
}

fn fault_of(text: &str) -> &'static str {
    match read_score(text.as_bytes()) {
        Ok(_) => "none",
        Err(ScoreFault::BadScore) => "BadScore",
        Err(ScoreFault::ScoreTooLong) => "ScoreTooLong",
        Err(ScoreFault::ScoreExponent) => "ScoreExponent",
    }
}

fn have_faults() -> bool {
    for line in FAULTS.lines() {
        let (fault, text) = line.split_once(' ').unwrap_or((line, ""));
        if fault_of(text) != fault {
            return false;
        }
    }
    true
}

#[test]
fn scores_are_compared_by_value_and_other_texts_have_their_faults(rt: HostRuntime) {
    assert!(rt; are_ordered());
    assert!(rt; have_faults());
}
