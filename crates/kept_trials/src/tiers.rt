// What tiers evaluate: the cells of the table, one for each pair and topic, and none for their wins and losses. The expected text is
// worked out by hand: A has the relevant document on both topics, B on the first and C on none.
use crate::session::counts;
use std::test::Fail;

const THREE_TIERS: [(&str, &[u8]); 4] = [
    ("q", b"401 0 d1 1\n401 0 n 0\n402 0 d1 1\n402 0 n 0\n"),
    ("a", b"401 Q0 d1 1 1 A\n402 Q0 d1 1 1 A\n"),
    ("b", b"401 Q0 d1 1 1 B\n402 Q0 n 1 1 B\n"),
    ("c", b"401 Q0 n 1 1 C\n402 Q0 n 1 1 C\n"),
];

const TIERS: &[u8] =
    b"measure P_1\nlevel 1\ntopics 2\nruns 3\ntiers 3\nsystem C 3\nsystem A 1\nsystem B 2\ncover A B 1 0\ncover B C 1 0\n";

#[test]
fn tiers_evaluate_the_cells_of_the_table(rt: HostRuntime) -> Result<(), Fail> {
    let line = "tiers --qrels q --measure P_1 c a b";
    let (cells, weights) = counts(&rt, rt.alloc(), line, &THREE_TIERS, b"", TIERS)?;
    assert!(rt; cells == 6, "{cells} cells");
    assert!(rt; weights == 0, "{weights} weights");
    Ok(())
}
