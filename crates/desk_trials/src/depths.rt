// A pool depth in tables, tiers, certificates of both versions and a session. The texts and answers are worked out by hand.
use crate::outside::{Answer, SOUND};
use crate::run::run_line;
use std::alloc::{AllocError, Global};
use std::test::Fail;

// A has d1, which is relevant, and then x; B has d2, which is not, and then y. Nobody judged x and y, and under depth 1
// both are closed.
fn answer_to(
    alloc: Global,
    line: &str,
    certificate: &str,
    input: &str,
) -> Result<Answer, AllocError> {
    let files: [(&str, &[u8]); 4] = [
        ("q", b"401 0 d1 1\n401 0 d2 0\n"),
        ("a", b"401 Q0 d1 1 2 A\n401 Q0 x 2 1 A\n"),
        ("b", b"401 Q0 d2 1 2 B\n401 Q0 y 2 1 B\n"),
        ("v", certificate.as_bytes()),
    ];
    run_line(alloc, line, &files, input.as_bytes(), SOUND)
}

const OF_ONE_PAIR: &str =
    "desk-certificate 1\nmeasure P_2\nlevel 1\ndepth 1\nfirst A\nsecond B\nclaim above\ntopics 1\ntopic 401 1\nend\n";

const OF_ALL_PAIRS: &str =
    "desk-certificate 2\nmeasure P_2\nlevel 1\ndepth 1\nruns 2\nrun A\nrun B\ntopics 1\ntopic 401 0\nclaims 1\nclaim above 0 1\nbound 1\nend\n";

const DEEPER: &str =
    "desk-certificate 1\nmeasure P_2\nlevel 1\ndepth 2\nfirst A\nsecond B\nclaim open\ntopics 1\nlow 401 1\ndoc y\nhigh 401 1\ndoc x\nend\n";

/// A command line, and what it prints.
struct Printed {
    line: &'static str,
    out: &'static str,
}

const PRINTED: [Printed; 7] = [
    Printed {
        line: "table --qrels q --measure P_2 --depth 1 a b",
        out: "measure P_2\nlevel 1\ndepth 1\ntopics 1\nruns 2\nrun A 0.500000 0.500000\nrun B 0.000000 0.000000\npair A above B 0.500000 0.500000\n",
    },
    Printed {
        line: "table --depth=2 a --qrels q b --measure P_2",
        out: "measure P_2\nlevel 1\ndepth 2\ntopics 1\nruns 2\nrun A 0.500000 1.000000\nrun B 0.000000 0.500000\npair A open B 0.000000 1.000000\n",
    },
    Printed {
        line: "tiers --qrels q --measure P_2 --depth 1 a b",
        out: "measure P_2\nlevel 1\ndepth 1\ntopics 1\nruns 2\ntiers 2\nsystem A 1\nsystem B 2\ncover A B 1 0\n",
    },
    Printed {
        line: "tiers --depth 2 --qrels q --measure P_2 a b",
        out: "measure P_2\nlevel 1\ndepth 2\ntopics 1\nruns 2\ntiers 1\nsystem A 1\nsystem B 1\n",
    },
    Printed {
        line: "certify --qrels q --measure P_2 --depth 1 a b",
        out: OF_ONE_PAIR,
    },
    Printed {
        line: "certify --all --qrels q --measure P_2 --depth 1 a b",
        out: OF_ALL_PAIRS,
    },
    Printed {
        line: "certify --qrels q --measure P_2 --depth 2 a b",
        out: DEEPER,
    },
];

/// A certificate, and the answer to it.
struct Checked {
    certificate: &'static str,
    status: u8,
    out: &'static str,
}

const CHECKED: [Checked; 7] = [
    Checked {
        certificate: OF_ONE_PAIR,
        status: 0,
        out: "accepted\n",
    },
    Checked {
        certificate: OF_ALL_PAIRS,
        status: 0,
        out: "accepted\n",
    },
    Checked {
        certificate: DEEPER,
        status: 0,
        out: "accepted\n",
    },
    Checked {
        certificate: "desk-certificate 1\nmeasure P_2\nlevel 1\nfirst A\nsecond B\nclaim above\ntopics 1\ntopic 401 1\nend\n",
        status: 5,
        out: "rejected BoundTooGreat topic 401\n",
    },
    Checked {
        certificate: "desk-certificate 1\nmeasure P_2\nlevel 1\ndepth 1\nfirst D\nsecond B\nclaim above\ntopics 1\ntopic 401 1\nend\n",
        status: 5,
        out: "rejected WrongNames line 5\n",
    },
    Checked {
        certificate: "desk-certificate 2\nmeasure P_2\nlevel 1\ndepth 1\nruns 2\nrun A\nrun D\ntopics 1\ntopic 401 0\nclaims 1\nclaim above 0 1\nbound 1\nend\n",
        status: 5,
        out: "rejected WrongNames line 7\n",
    },
    Checked {
        certificate: "desk-certificate 1\nmeasure P_2\nlevel 1\ndepth 1\nfirst A\nsecond B\nclaim open\ntopics 1\nlow 401 1\ndoc y\nhigh 401 1\ndoc x\nend\n",
        status: 5,
        out: "rejected NotCompletion line 10\n",
    },
];

// A depth is 1 to 10,000 without a leading zero and is given once at most, and neither a check nor a demo takes one.
const USAGE: [&str; 6] = [
    "table --qrels q --measure P_2 --depth 0 a b",
    "table --qrels q --measure P_2 --depth 01 a b",
    "table --qrels q --measure P_2 --depth 10001 a b",
    "table --qrels q --measure P_2 --depth 1 --depth 1 a b",
    "verify --qrels q --cert v --depth 1 a b",
    "demo --depth 1 7",
];

const CHECK: &str = "verify --qrels q --cert v a b";

#[test]
fn depths_are_printed(rt: HostRuntime) -> Result<(), Fail> {
    for case in &PRINTED {
        let answer = answer_to(rt.alloc(), case.line, "", "")?;
        assert!(rt; answer.is(0, case.out.as_bytes(), b""), "{}", case.line);
    }
    Ok(())
}

#[test]
fn certificates_under_a_depth_are_checked(rt: HostRuntime) -> Result<(), Fail> {
    for case in &CHECKED {
        let answer = answer_to(rt.alloc(), CHECK, case.certificate, "")?;
        assert!(rt;
            answer.is(case.status, case.out.as_bytes(), b""),
            "{}",
            case.certificate
        );
    }
    Ok(())
}

#[test]
fn other_depths_are_refused(rt: HostRuntime) -> Result<(), Fail> {
    for line in &USAGE {
        let answer = answer_to(rt.alloc(), line, "", "")?;
        assert!(rt; answer.status == 2, "{}", line);
    }
    let too_deep = "desk-certificate 1\nmeasure P_2\nlevel 1\ndepth 10001\nfirst A\n";
    let answer = answer_to(rt.alloc(), CHECK, too_deep, "")?;
    assert!(rt; answer.is(1, b"", b"refused: v line 4: BadLine\n"));
    Ok(())
}

#[test]
fn a_closed_document_is_judged(rt: HostRuntime) -> Result<(), Fail> {
    let line = "session --qrels q --measure P_2 --depth 1 a b";
    let input =
        "pool 401 2\njudge ann 401 y 1\npair A B\nundo ann\npair A B\njudge ann 401 y -1\npair A B\nnext\n";
    let replies =
        "pool 4 4 1 0\njudged 401 y 1\npair A equal B 0.000000 0.000000\nundone 401 y -\npair A above B 0.500000 0.500000\njudged 401 y -\npair A above B 0.500000 0.500000\nnext none\n";
    let answer = answer_to(rt.alloc(), line, "", input)?;
    assert!(rt; answer.is(0, replies.as_bytes(), b""));
    Ok(())
}
