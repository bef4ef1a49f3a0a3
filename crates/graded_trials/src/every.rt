// Tables by grades against every completion by grades of small topics.
ghost use Rattle.std.specs.Prelude.{◌≡◌, length};

use crate::answers::{Answers, Said, ask};
use crate::desks::desk_of;
use crate::plain::{Case, Extremes, completes, encloses, extremes_of, score};
use any_measure::Common;
use desk_model::{Desk, Totals, Verdict};
use std::alloc::Global;
use std::process::Abort;
use std::test::Fail;
use topic_counts::Span;

/// 10^18 / 256: the scale of the table has so many parts for one of the plain scale.
const PARTS: i128 = 3_906_250_000_000_000;

const TAILS: [&[u32]; 6] = [&[], &[1], &[2], &[3], &[0, 3], &[1, 2]];

/// A judgements file and two runs each, over at most six documents of one topic.
const FILES: [[&[u8]; 3]; 9] = [
    [
        b"1 0 d1 2\n1 0 d2 1\n",
        b"1 Q0 d1 1 1 A\n",
        b"1 Q0 d2 1 1 B\n",
    ],
    [
        b"1 0 d1 0\n",
        b"1 Q0 u1 1 3 A\n1 Q0 u2 2 2 A\n1 Q0 d1 3 1 A\n",
        b"1 Q0 u3 1 3 B\n1 Q0 u2 2 2 B\n1 Q0 u4 3 1 B\n",
    ],
    [
        b"1 0 d1 -1\n1 0 d2 5\n1 0 d3 0\n",
        b"1 Q0 d1 1 2 A\n1 Q0 d2 2 1 A\n",
        b"1 Q0 d3 1 2 B\n1 Q0 d1 2 1 B\n",
    ],
    [
        b"1 0 d1 3\n1 0 d2 3\n1 0 n1 0\n",
        b"1 Q0 d1 1 2 A\n1 Q0 d2 2 1 A\n",
        b"1 Q0 n1 1 2 B\n1 Q0 u1 2 1 B\n",
    ],
    [
        b"1 0 d1 3\n1 0 d2 3\n1 0 n1 0\n",
        b"1 Q0 n1 1 2 A\n1 Q0 u1 2 1 A\n",
        b"1 Q0 d1 1 2 B\n1 Q0 d2 2 1 B\n",
    ],
    [
        b"1 0 d1 1\n",
        b"1 Q0 d1 1 2 A\n1 Q0 u1 2 1 A\n",
        b"1 Q0 d1 1 2 B\n1 Q0 u1 2 1 B\n",
    ],
    [
        b"1 0 d1 2\n1 0 n1 0\n",
        b"1 Q0 u1 1 4 A\n1 Q0 d1 2 3 A\n1 Q0 u2 3 2 A\n1 Q0 n1 4 1 A\n",
        b"1 Q0 u2 1 4 B\n1 Q0 u3 2 3 B\n1 Q0 d1 3 2 B\n1 Q0 u4 4 1 B\n",
    ],
    [
        b"1 0 d1 3\n1 0 d2 0\n1 0 d3 0\n",
        b"1 Q0 d1 1 3 A\n1 Q0 d2 2 2 A\n1 Q0 d3 3 1 A\n",
        b"1 Q0 d2 1 1 B\n",
    ],
    [
        b"1 0 d1 2\n1 0 d2 1\n1 0 d3 3\n1 0 d4 0\n",
        b"1 Q0 d1 1 4 A\n1 Q0 d2 2 3 A\n1 Q0 u1 3 2 A\n",
        b"1 Q0 d3 1 4 B\n1 Q0 d4 2 3 B\n1 Q0 u1 3 2 B\n1 Q0 u2 4 1 B\n",
    ],
];

/// What a table must say by the extremes: the tail of the least case is 10^24 places long and not without end, which is one part
/// on each level.
fn expected(found: Extremes, greatest: u32) -> Said {
    let least = (found.least as i128).wrapping_mul(PARTS);
    let most = (found.most as i128).wrapping_mul(PARTS);
    let totals = Totals {
        least_lo: least,
        least_hi: least.wrapping_add(greatest as i128),
        most_lo: most.wrapping_sub(greatest as i128),
        most_hi: most,
    };
    Said {
        totals,
        verdict: verdict(found),
        bounds: Span {
            lo: (found.low as i128).wrapping_mul(PARTS),
            hi: (found.high as i128).wrapping_mul(PARTS),
        },
    }
}

/// The order of the two means in every completion. It is close where an extreme is 0, which no tail with an end attains.
fn verdict(found: Extremes) -> Verdict {
    if found.least > 0 {
        Verdict::Above
    } else if found.most < 0 {
        Verdict::Below
    } else if found.least < 0 && found.most > 0 {
        Verdict::Open
    } else {
        Verdict::Close
    }
}

/// Whether the answers are those of the extremes, and these enclose each completion by grades with short tails.
fn agrees(
    answers: &Answers,
    greatest: u32,
    grades: &[Option<i32>],
    lists: (&[u32], &[u32]),
) -> bool {
    let straight = Case {
        greatest,
        grades,
        first: lists.0,
        second: lists.1,
    };
    let swapped = Case {
        greatest,
        grades,
        first: lists.1,
        second: lists.0,
    };
    let found = extremes_of(straight);
    answers.straight.is(expected(found, greatest))
        && answers.swapped.is(expected(extremes_of(swapped), greatest))
        && encloses(found, straight, &TAILS)
}

fn compare(
    rt: &impl Abort,
    alloc: Global,
    desk: &Desk,
    answers: &Answers,
    greatest: u32,
) -> Result<(), Fail>
    requires two { length desk.now.runs ≡ 2 }
{
    let _ = desk.topic_count();
    let lists = (desk.ranking(0, 0).docs(), desk.ranking(1, 0).docs());
    let grades = desk.topic(0).grades(alloc)?;
    let agree = agrees(answers, greatest, &grades, lists);
    assert!(rt; agree);
    Ok(())
}

#[test]
fn tables_have_the_extremes_of_every_completion(rt: HostRuntime) -> Result<(), Fail> {
    for files in &FILES {
        let desk = desk_of(rt.alloc(), *files)?;
        for greatest in 1..4 {
            let answers = ask(&rt, rt.alloc(), &desk, greatest, &Common)?;
            compare(&rt, rt.alloc(), &desk, &answers, greatest)?;
        }
    }
    Ok(())
}

#[test]
fn plain_scores_by_hand(rt: HostRuntime) {
    let alone = score(0b11_10, &[0, 1], &[]);
    let followed = score(0b11_10, &[1], &[1, 0, 2]);
    assert!(rt; alone == 2 * 128 + 3 * 64 && followed == 3 * 128 + 64 + 2 * 16);
    let grades = [Some(1), None, Some(-1), Some(9)];
    let is_one = completes(2, &grades, 0b10_01_10_01);
    let is_none = completes(2, &grades, 0b11_01_10_01) || completes(2, &grades, 0b10_01_10_00);
    assert!(rt; is_one && !is_none);
}
