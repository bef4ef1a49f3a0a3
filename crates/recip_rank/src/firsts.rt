ghost use Rattle.std.specs.Prelude.{◌≡◌, ◌^◌, ◌≤◌, ◌<◌, length, All, if◌then◌else◌};
ghost use Rattle.desk_model.specs.Limits.{PARTS_OF_ONE, RANK_LIMIT};
ghost use Rattle.desk_model.specs.Completion.{with_picked};
ghost use Rattle.measure_laws.specs.Ranks.{IsRankWithin, earlier};
ghost use Rattle.measure_laws.specs.Differences.{is_smaller};
ghost use Rattle.measure_laws.specs.ReciprocalCase.{reciprocal_choice};
ghost use Rattle.desk_model.specs.Score.{first_true, reciprocal};
ghost use Rattle.topic_counts.specs.Ends.{IsShort};
ghost use Rattle.topic_counts.specs.Numbers.{difference_span};
ghost use Rattle.measure_core.specs.Laws.{AreMet};
ghost use Rattle.recip_rank.specs.Firsts.{scores_at, AreFirsts};

use desk_model::{Mark, Ranking};
use topic_counts::ranks::rank_in;
use topic_counts::topic::is_true;
use topic_counts::{Span, span_of};

/// The ranks, from 1, at which two runs show their first relevant document.
#[derive(Clone, Copy, PartialEq, Eq)]
pub struct Firsts {
    pub first: Option<u32>,
    pub second: Option<u32>,
}

/// Which unjudged document is made relevant, and what that gives.
#[derive(Clone, Copy, PartialEq, Eq)]
pub struct Candidate {
    pub choice: Option<u32>,
    pub firsts: Firsts,
}

/// A reciprocal rank as a fraction.
#[derive(Clone, Copy)]
struct Part {
    num: u64,
    den: u64,
}

fn part_of(rank: Option<u32>) -> Part
    requires { IsRankWithin RANK_LIMIT rank }
    ensures num { result.num ≡ (reciprocal rank).num }
    ensures den { result.den ≡ (reciprocal rank).den }
    ensures num_small { result.num ≤ 1 }
    ensures positive { 1 ≤ result.den }
    ensures den_small { result.den ≤ RANK_LIMIT }
{
    match rank {
        None => Part { num: 0, den: 1 },
        Some(rank) => Part {
            num: 1,
            den: u64::from(rank),
        },
    }
}

/// The earlier of two ranks, where an absent one comes last.
fn earlier_of(x: Option<u32>, y: Option<u32>) -> Option<u32>
    ensures { result ≡ earlier x y }
{
    match (x, y) {
        (Some(x), Some(y)) => Some(x.min(y)),
        (Some(x), None) => Some(x),
        (None, y) => y,
    }
}

/// The rank of the first relevant document, where all the unjudged ones are relevant or none is.
pub fn first_rank(picked: bool, docs: &[u32], marks: &[Mark]) -> Option<u32>
    requires known { All (λ doc. doc < length marks.now) docs.now }
    requires few { length docs.now ≤ RANK_LIMIT }
    ensures first { result ≡ first_true (with_picked marks.now (λ _. picked)) docs.now }
    ensures within { IsRankWithin RANK_LIMIT result }
{
    for (place, doc) in docs.iter().enumerate() {
        if is_true(picked, marks[*doc as usize]) {
            return Some(place as u32 + 1);
        }
    }
    None
}

/// The ends of the difference of the scores, in parts of 10^18.
pub fn span(firsts: Firsts) -> Span
    requires first { IsRankWithin RANK_LIMIT firsts.first }
    requires second { IsRankWithin RANK_LIMIT firsts.second }
    ensures span { result ≡ difference_span PARTS_OF_ONE (reciprocal firsts.first)
        (reciprocal firsts.second) }
    ensures short { IsShort result }
{
    let x = part_of(firsts.first);
    let y = part_of(firsts.second);
    span_of(
        i128::from(x.num * y.den) - i128::from(y.num * x.den),
        i128::from(x.den * y.den),
        1_000_000_000_000_000_000,
    )
}

/// Whether the difference of some scores is smaller than that of others.
fn is_less(s: Firsts, t: Firsts) -> bool
    requires s_first { IsRankWithin RANK_LIMIT s.first }
    requires s_second { IsRankWithin RANK_LIMIT s.second }
    requires t_first { IsRankWithin RANK_LIMIT t.first }
    requires t_second { IsRankWithin RANK_LIMIT t.second }
    ensures { result ≡ is_smaller (scores_at s.first s.second) (scores_at t.first t.second) }
{
    let a = part_of(s.first);
    let b = part_of(s.second);
    let c = part_of(t.first);
    let d = part_of(t.second);
    a.num * b.den * (c.den * d.den) + d.num * c.den * (a.den * b.den)
        < c.num * d.den * (a.den * b.den) + b.num * a.den * (c.den * d.den)
}

/// The one of two candidates with the smaller difference, and of equal ones the second.
fn better(c: Candidate, best: Candidate) -> Candidate
    requires c_first { IsRankWithin RANK_LIMIT c.firsts.first }
    requires c_second { IsRankWithin RANK_LIMIT c.firsts.second }
    requires best_first { IsRankWithin RANK_LIMIT best.firsts.first }
    requires best_second { IsRankWithin RANK_LIMIT best.firsts.second }
    ensures { result ≡
        (if is_smaller (scores_at c.firsts.first c.firsts.second)
        (scores_at best.firsts.first best.firsts.second) then c else best) }
{
    if is_less(c.firsts, best.firsts) {
        c
    } else {
        best
    }
}

/// The choice with the least difference: none, or the first of b's unjudged documents with it. No
/// document after b's first judged relevant one can lower the difference, nor one after the first that leaves a's
/// first rank as it is.
pub fn least(a: &Ranking, b: &Ranking, marks: &[Mark]) -> Candidate
    requires { AreMet marks.now a.now b.now }
    ensures choice { result.choice ≡ reciprocal_choice marks.now a.now b.now }
    ensures firsts { AreFirsts marks.now a.now b.now result }
{
    let judged = first_rank(false, a.docs(), marks);
    let docs = b.docs();
    let mut best = Candidate {
        choice: None,
        firsts: Firsts {
            first: judged,
            second: first_rank(false, docs, marks),
        },
    };
    for (place, doc) in docs.iter().enumerate() {
        match marks[*doc as usize] {
            Mark::Other => {}
            Mark::Relevant => return best,
            Mark::Unjudged => {
                let firsts = Firsts {
                    first: earlier_of(judged, rank_in(a, *doc)),
                    second: Some(place as u32 + 1),
                };
                let choice = Some(*doc);
                best = better(Candidate { choice, firsts }, best);
                if firsts.first == judged {
                    return best;
                }
            }
        }
    }
    best
}
