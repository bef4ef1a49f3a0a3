// What a session keeps: the cells and weights that its measure is asked for. The expected texts are worked out by hand.
use crate::session::counts;
use std::alloc::{AllocError, Global};
use std::process::Abort;
use std::test::Fail;

const SESSION: &str = "session --qrels q --measure P_1 a b";

const BY_RELEVANT: &str = "session --qrels q --measure Rprec a b";

const TIED: [(&str, &[u8]); 3] = [
    ("q", b"401 0 z 0\n402 0 z 0\n"),
    ("a", b"401 Q0 n 1 1 A\n402 Q0 l 1 1 A\n"),
    ("b", b"401 Q0 m 1 1 B\n402 Q0 k 1 1 B\n"),
];

#[test]
fn a_change_evaluates_its_topic_alone(rt: HostRuntime) -> Result<(), Fail> {
    let alloc = rt.alloc();
    let first = b"next 401 m 1\n";
    let (cells, _) = counts(&rt, alloc, SESSION, &TIED, b"next\n", first)?;
    assert!(rt; cells == 2);
    let lines = b"next\njudge ann 401 n 1\njudge ann 401 m 0\njudge ann 402 l 1\npair A B\nnext\n";
    let all =
        b"next 401 m 1\njudged 401 n 1\njudged 401 m 0\njudged 402 l 1\npair A above B 0.500000 1.000000\nnext none\n";
    let (cells, _) = counts(&rt, alloc, SESSION, &TIED, lines, all)?;
    assert!(rt; cells <= 5);
    Ok(())
}

// For each topic from 401 to 500 a line of a file.
fn lines_of(alloc: Global, topics: u32, before: &str, after: &str) -> Result<String, AllocError> {
    let mut text = String::new(alloc);
    for topic in 0..topics {
        let line = format!(in alloc; "{before}{}{after}", topic.wrapping_add(401))?;
        text.push_str(&line)?;
    }
    Ok(text)
}

// Fifty judgements, each with a proposal after it, ask for at most so many weights.
fn expect_few_calls(
    rt: &impl Abort,
    alloc: Global,
    session: &str,
    files: &[(&str, &[u8])],
    most: u64,
) -> Result<(), AllocError> {
    let lines = lines_of(alloc, 50, "judge ann ", " a 1\nnext\n")?;
    let expected = lines_of(alloc, 50, "judged ", " a 1\nnext 401 b 1\n")?;
    let (lines, expected) = (lines.as_bytes(), expected.as_bytes());
    let (cells, weights) = counts(rt, alloc, session, files, lines, expected)?;
    assert!(rt; cells >= 100 && cells <= 150, "{cells} cells");
    assert!(rt; weights >= 1 && weights <= most, "{weights} weights");
    Ok(())
}

#[test]
fn totals_are_made_once(rt: HostRuntime) -> Result<(), Fail> {
    let alloc = rt.alloc();
    let q = lines_of(alloc, 100, "", " 0 z 0\n")?;
    let a = lines_of(alloc, 100, "", " Q0 a 1 1 A\n")?;
    let b = lines_of(alloc, 100, "", " Q0 b 1 1 B\n")?;
    let files: [(&str, &[u8]); 3] = [
        ("q", q.as_bytes()),
        ("a", a.as_bytes()),
        ("b", b.as_bytes()),
    ];
    // Three documents on each of 100 topics, and under R-precision again on the topic of each judgement.
    expect_few_calls(&rt, alloc, SESSION, &files, 300)?;
    expect_few_calls(&rt, alloc, BY_RELEVANT, &files, 450)?;
    Ok(())
}
