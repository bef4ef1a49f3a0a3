// What a table by grades evaluates: a cell for each pair, topic and level. The expected texts are worked out by hand.
use crate::session::counts;
use std::test::Fail;

const BY_TWO: &str = "graded --qrels q --measure rbp_0.5 --greatest 2 a b";

const TWO_GRADES: [(&str, &[u8]); 3] = [
    ("q", b"401 0 d1 2\n401 0 d2 1\n"),
    ("a", b"401 Q0 d1 1 1 A\n"),
    ("b", b"401 Q0 d2 1 1 B\n"),
];

const TWO_LEVELS: &[u8] =
    b"measure rbp_0.5\ngreatest 2\ntopics 1\nruns 2\nrun A 0.500000 1.000000\nrun B 0.250000 0.750000\npair A open B -0.250000 0.750000\n";

const BY_ONE: &str = "graded --qrels q --measure rbp_0.5 --greatest 1 X=a Y=a";

const ONE_LIST: [(&str, &[u8]); 2] = [("q", b"401 0 d1 1\n"), ("a", b"401 Q0 d1 1 1 A\n")];

const ONE_LEVEL: &[u8] =
    b"measure rbp_0.5\ngreatest 1\ntopics 1\nruns 2\nrun X 0.500000 1.000000\nrun Y 0.500000 1.000000\npair X open Y -0.500000 0.500000\n";

#[test]
fn each_level_evaluates_a_pair_once(rt: HostRuntime) -> Result<(), Fail> {
    let (two, _) = counts(&rt, rt.alloc(), BY_TWO, &TWO_GRADES, b"", TWO_LEVELS)?;
    assert!(rt; two == 2, "{two} cells");
    let (one, _) = counts(&rt, rt.alloc(), BY_ONE, &ONE_LIST, b"", ONE_LEVEL)?;
    assert!(rt; one == 1, "{one} cells");
    Ok(())
}
