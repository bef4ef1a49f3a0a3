// What a check of bundles answers. The expected answers are worked out by hand.
ghost use Rattle.desk_model.specs.Desk.{AreMarksOf};

use crate::desks::{desk_of, marks_of};
use bundle_verifier::{BundleRejected, BundleVerifier};
use desk_model::{Desk, Marks};
use order_bundle::{AnyCertificate, Bundle, read_any};
use std::alloc::{AllocError, Global};
use std::test::Fail;

/// The text of a bundle after a line feed, and what is said of it: each case is its answer after `$ `, with the lines of the text, by
/// their numbers from 1, that are in other words.
struct Trial {
    text: &'static str,
    cases: &'static str,
}

// The documents d1 and d2 are judged, z1 and z2 are not, and x is in no file. With z1 and z2 relevant A has one of three. In the claim
// on C and A the difference is C's score less A's: 0 in the low completion and -1 in the high one. The number of a claim goes from 1.
const THREE_CLAIMS: Trial = Trial {
    text: "
desk-certificate 2
measure recall_1
level 1
runs 3
run A
run B
run C
topics 1
topic 401 1
doc z1
claims 3
claim above 0 1
bound 333333333333333333
claim open 0 2
low 1
pick 0
high 0
claim open 1 2
low 1
pick 0
high 0
end
",
    cases: "
$ accepted
$ 1 BoundTooGreat { topic: 0 }
13 bound 333333333333333334
$ 2 NotCompletion { line: 16 }
10 doc d2
$ 2 NotCompletion { line: 16 }
10 doc x
$ 2 NotCompletion { line: 17 }
10 doc d2
15 low 0
16 high 1
17 pick 0
$ 0 WrongNames { line: 7 }
7 run D
$ 2 NoDifference
14 claim open 2 0
$ 1 NoSum
10 doc d2
13 bound 0
$ 0 WrongNames { line: 9 }
9 topic 402 1
13 bound 333333333333333334
",
};

// Of two runs of the three, and a document that nothing picks.
const NO_CLAIMS: Trial = Trial {
    text: "
desk-certificate 2
measure recall_1
level 1
runs 2
run A
run C
topics 1
topic 401 1
doc z1
claims 0
end
",
    cases: "
$ accepted
$ accepted
9 doc x
$ 0 WrongNames { line: 6 }
6 run B1
$ 0 WrongNames { line: 8 }
8 topic 400 1
",
};

const TWO_TOPICS: Trial = Trial {
    text: "
desk-certificate 2
measure recall_1
level 1
runs 2
run A
run C
topics 2
topic 401 0
topic 402 0
claims 1
claim open 0 1
low 0
high 0
low 0
high 0
end
",
    cases: "
$ 0 WrongNames { line: 7 }
$ 0 WrongNames { line: 5 }
5 run 0
",
};

const ONE_OF_THREE_PAIRS: Trial = Trial {
    text: "
desk-certificate 2
measure recall_1
level 1
runs 2
run A
run C
topics 1
topic 401 1
doc z1
claims 1
claim open 0 1
low 1
pick 0
high 0
end
",
    cases: "
$ accepted
$ 1 NoDifference
12 low 0
13 high 1
14 pick 0
",
};

// The line with a number, or the one in its place.
fn line_after<'t>(changes: &'t str, number: usize, line: &'t str) -> &'t str {
    for change in changes.split_inclusive('\n') {
        let (at, words) = change.split_once(' ').unwrap_or(("", change));
        if at.parse() == Ok(number) {
            return words;
        }
    }
    line
}

fn changed(alloc: Global, text: &str, changes: &str) -> Result<String, AllocError> {
    let mut new = String::new(alloc);
    for (number, line) in text.split_inclusive('\n').enumerate().skip(1) {
        new.push_str(line_after(changes, number, line))?;
    }
    Ok(new)
}

// What a check of a bundle answers.
fn verdict(
    alloc: Global,
    desk: &Desk,
    marks: &Marks,
    bundle: &Bundle,
) -> Result<Result<(), BundleRejected>, Fail>
    requires { AreMarksOf desk.now marks.now.rows }
{
    bundle.valid();
    let verifier = BundleVerifier::new(alloc, &bundle.measure)?;
    Ok(verifier.verify_bundle(desk, marks, bundle))
}

fn shown(alloc: Global, verdict: Result<(), BundleRejected>) -> Result<String, AllocError> {
    match verdict {
        Ok(()) => String::from_str(alloc, "accepted"),
        Err(rejected) => format!(in alloc; "{} {:?}", rejected.claim, rejected.why),
    }
}

// What a check of a text answers.
fn answer(alloc: Global, desk: &Desk, marks: &Marks, text: &str) -> Result<String, Fail>
    requires { AreMarksOf desk.now marks.now.rows }
{
    let Ok(AnyCertificate::Many(bundle)) = read_any(alloc, text.as_bytes()) else {
        return Err("no bundle".into());
    };
    let verdict = verdict(alloc, desk, marks, &bundle)?;
    Ok(shown(alloc, verdict)?)
}

// Whether a case is answered so.
fn is_answered(
    alloc: Global,
    desk: &Desk,
    marks: &Marks,
    text: &str,
    case: &str,
) -> Result<bool, Fail>
    requires { AreMarksOf desk.now marks.now.rows }
{
    let (expected, changes) = case.split_once('\n').unwrap_or((case, ""));
    let text = changed(alloc, text, changes)?;
    let answer = answer(alloc, desk, marks, &text)?;
    Ok(answer.as_str() == expected)
}

// How many first cases are answered so over the runs of a line: all, or those before the first that is not.
fn right_cases(alloc: Global, line: &str, trial: &Trial) -> Result<usize, Fail> {
    let desk = desk_of(alloc, line)?;
    let marks = marks_of(alloc, &desk)?;
    let mut right = 0;
    for (number, case) in trial.cases.split("$ ").enumerate().skip(1) {
        if !is_answered(alloc, &desk, &marks, trial.text, case)? {
            break;
        }
        right = number;
    }
    Ok(right)
}

const LINES: [&str; 2] = [
    "table --qrels q --measure P_1 a b c",
    "table --qrels q --measure P_1 c b a",
];

// Whether so many cases are answered so, in each order of the runs.
fn are_answered(alloc: Global, trial: &Trial, count: usize) -> Result<bool, Fail> {
    for line in &LINES {
        if right_cases(alloc, line, trial)? != count {
            return Ok(false);
        }
    }
    Ok(true)
}

#[test]
fn bundles_are_accepted_or_rejected(rt: HostRuntime) -> Result<(), Fail> {
    assert!(rt; are_answered(rt.alloc(), &THREE_CLAIMS, 9)?);
    assert!(rt; are_answered(rt.alloc(), &NO_CLAIMS, 4)?);
    assert!(rt; are_answered(rt.alloc(), &TWO_TOPICS, 2)?);
    assert!(rt; are_answered(rt.alloc(), &ONE_OF_THREE_PAIRS, 2)?);
    Ok(())
}
