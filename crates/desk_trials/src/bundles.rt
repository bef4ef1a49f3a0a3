// Certificates of many pairs, as `certify --all` prints them and `verify` answers them. The texts and answers are worked out by hand.
use crate::cuts::is_survived;
use crate::outside::{Answer, SOUND};
use crate::run::run_line;
use std::alloc::{AllocError, Global};
use std::test::Fail;

// A has the relevant d1, B has d2, which is not relevant, and C has the unjudged z1 and z2. Of three relevant documents A has one.
const THREE_CLAIMS: &str =
    "desk-certificate 2\nmeasure recall_1\nlevel 1\nruns 3\nrun A\nrun B\nrun C\ntopics 1\ntopic 401 1\ndoc z1\nclaims 3\nclaim above 0 1\nbound 333333333333333333\nclaim open 0 2\nlow 1\npick 0\nhigh 0\nclaim open 1 2\nlow 1\npick 0\nhigh 0\nend\n";

// D is A. The greater number stands first, and a run of the desk is not named.
const EQUAL: &str =
    "desk-certificate 2\nmeasure recall_1\nlevel 1\nruns 2\nrun A\nrun D\ntopics 1\ntopic 401 0\nclaims 1\nclaim equal 1 0\nbound 0 0\nend\n";

const OF_TWO_TOPICS: &[u8] =
    b"401 0 d1 1\n401 0 d2 1\n401 0 d3 1\n401 0 n1 0\n401 0 n2 0\n402 0 d1 1\n402 0 d2 1\n402 0 d3 1\n402 0 n1 0\n402 0 n2 0\n";

const NO_CLAIM: &str =
    "desk-certificate 2\nmeasure rbp_0.5\nlevel 1\nruns 2\nrun A\nrun C\ntopics 1\ntopic 401 0\nclaims 0\nend\n";

/// What `certify --all` prints with these words, and the words with which it is accepted.
struct Printed {
    asked: &'static str,
    out: &'static str,
    checked: &'static str,
}

// Numbers go by names: Z is above A, and the lists of C and Z are those of Z and C exchanged. D is A. Of A and B each topic's third
// is rounded apart, so the pair is close and has no claim.
const PRINTED: [Printed; 6] = [
    Printed {
        asked: "certify --all --qrels q --measure recall_1 a b c",
        out: THREE_CLAIMS,
        checked: OF_THREE,
    },
    Printed {
        asked: "certify --qrels q c --measure recall_1 b --all a",
        out: THREE_CLAIMS,
        checked: "verify --qrels q --cert v c b a",
    },
    Printed {
        asked: "certify --all --qrels q --measure recall_1 Z=a A=b",
        out: "desk-certificate 2\nmeasure recall_1\nlevel 1\nruns 2\nrun A\nrun Z\ntopics 1\ntopic 401 0\nclaims 1\nclaim above 1 0\nbound 1000000000000000000\nend\n",
        checked: "verify --qrels q --cert v Z=a A=b",
    },
    Printed {
        asked: "certify --all --qrels q --measure P_1 Z=a c",
        out: "desk-certificate 2\nmeasure P_1\nlevel 1\nruns 2\nrun C\nrun Z\ntopics 1\ntopic 401 1\ndoc z1\nclaims 1\nclaim open 0 1\nlow 0\nhigh 1\npick 0\nend\n",
        checked: "verify --qrels q --cert v Z=a c",
    },
    Printed {
        asked: "certify --all --qrels q --measure recip_rank --level 1 D=a -- a",
        out: "desk-certificate 2\nmeasure recip_rank\nlevel 1\nruns 2\nrun A\nrun D\ntopics 1\ntopic 401 0\nclaims 1\nclaim equal 0 1\nbound 0 0\nend\n",
        checked: "verify --qrels q --cert v a D=a",
    },
    Printed {
        asked: "certify --all --qrels qt --measure recall_3 k l",
        out: "desk-certificate 2\nmeasure recall_3\nlevel 1\nruns 2\nrun A\nrun B\ntopics 2\ntopic 401 0\ntopic 402 0\nclaims 0\nend\n",
        checked: "verify --qrels qt --cert v k l",
    },
];

// What a call answers, over these files and this certificate.
fn checked(alloc: Global, line: &str, certificate: &[u8]) -> Result<Answer, AllocError> {
    let files: [(&str, &[u8]); 8] = [
        ("q", b"401 0 d1 1\n401 0 d2 0\n"),
        ("a", b"401 Q0 d1 1 9 A\n"),
        ("b", b"401 Q0 d2 1 9 B\n"),
        ("c", b"401 Q0 z1 1 2 C\n401 Q0 z2 2 1 C\n"),
        ("qt", OF_TWO_TOPICS),
        (
            "k",
            b"401 Q0 n1 1 3 A\n401 Q0 n2 2 2 A\n401 Q0 d1 3 1 A\n402 Q0 n1 1 1 A\n",
        ),
        (
            "l",
            b"401 Q0 n1 1 1 B\n402 Q0 n1 1 3 B\n402 Q0 n2 2 2 B\n402 Q0 d1 3 1 B\n",
        ),
        ("v", certificate),
    ];
    run_line(alloc, line, &files, b"", SOUND)
}

const OF_THREE: &str = "verify --qrels q --cert v a b c";

fn is_accepted(alloc: Global, line: &str, certificate: &str) -> Result<bool, AllocError> {
    let answer = checked(alloc, line, certificate.as_bytes())?;
    Ok(answer.is(0, b"accepted\n", b""))
}

// Whether it is printed so, and accepted.
fn is_printed(alloc: Global, printed: &Printed) -> Result<bool, AllocError> {
    let answer = checked(alloc, printed.asked, b"")?;
    Ok(
        answer.is(0, printed.out.as_bytes(), b"")
            && is_accepted(alloc, printed.checked, printed.out)?,
    )
}

#[test]
fn bundles_are_printed(rt: HostRuntime) -> Result<(), Fail> {
    for printed in &PRINTED {
        assert!(rt; is_printed(rt.alloc(), printed)?, "{}", printed.asked);
    }
    Ok(())
}

#[test]
fn bundles_are_accepted(rt: HostRuntime) -> Result<(), Fail> {
    let alloc = rt.alloc();
    let swapped = "verify --qrels q --cert v c b a";
    assert!(rt; is_accepted(alloc, OF_THREE, THREE_CLAIMS)?);
    assert!(rt; is_accepted(alloc, swapped, THREE_CLAIMS)?);
    let with_a_copy = "verify --qrels q --cert v a b D=a";
    assert!(rt; is_accepted(alloc, with_a_copy, EQUAL)?);
    assert!(rt; is_accepted(alloc, OF_THREE, NO_CLAIM)?);
    Ok(())
}

/// Another line in the place of one, counted from 1, and what is answered then: on the output, or told.
struct Changed {
    number: usize,
    line: &'static str,
    status: u8,
    told: &'static str,
}

const CHANGED: [Changed; 8] = [
    Changed {
        number: 7,
        line: "run D",
        status: 5,
        told: "rejected WrongNames line 7\n",
    },
    Changed {
        number: 9,
        line: "topic 402 1",
        status: 5,
        told: "rejected WrongNames line 9\n",
    },
    Changed {
        number: 10,
        line: "doc d2",
        status: 5,
        told: "rejected claim 2 NotCompletion line 16\n",
    },
    Changed {
        number: 13,
        line: "bound 333333333333333334",
        status: 5,
        told: "rejected claim 1 BoundTooGreat topic 401\n",
    },
    Changed {
        number: 13,
        line: "bound 0",
        status: 5,
        told: "rejected claim 1 NoSum\n",
    },
    Changed {
        number: 14,
        line: "claim open 2 0",
        status: 5,
        told: "rejected claim 2 NoDifference\n",
    },
    Changed {
        number: 14,
        line: "claim open 1 0",
        status: 1,
        told: "refused: v line 14: BadLine\n",
    },
    Changed {
        number: 22,
        line: "end\nend",
        status: 1,
        told: "refused: v line 23: BadLine\n",
    },
];

// The bundle with that line.
fn changed_text(alloc: Global, changed: &Changed) -> Result<Vec<u8>, AllocError> {
    let mut text = Vec::new(alloc);
    for (place, own) in THREE_CLAIMS.split('\n').enumerate() {
        if place > 0 {
            text.push(b'\n')?;
        }
        let is_changed = place.saturating_add(1) == changed.number;
        let line = if is_changed { changed.line } else { own };
        text.extend_from_slice(line.as_bytes())?;
    }
    Ok(text)
}

fn is_answered(alloc: Global, changed: &Changed) -> Result<bool, AllocError> {
    let certificate = changed_text(alloc, changed)?;
    let answer = checked(alloc, OF_THREE, &certificate)?;
    let text = changed.told.as_bytes();
    Ok(if changed.status == 1 {
        answer.is(1, b"", text)
    } else {
        answer.is(changed.status, text, b"")
    })
}

#[test]
fn a_changed_bundle_is_rejected_or_refused(rt: HostRuntime) -> Result<(), Fail> {
    for changed in &CHANGED {
        assert!(rt; is_answered(rt.alloc(), changed)?, "{}", changed.told);
    }
    Ok(())
}

#[test]
fn cut_and_forged_bundles_are_survived(rt: HostRuntime) -> Result<(), Fail> {
    assert!(rt; is_survived(rt.alloc(), THREE_CLAIMS.as_bytes())?);
    assert!(rt; is_survived(rt.alloc(), EQUAL.as_bytes())?);
    Ok(())
}
