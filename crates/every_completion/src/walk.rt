ghost use Rattle.std.proofs.Props.{props};
ghost use Rattle.std.specs.Prelude.{◌≡◌, ◌↔◌, ◌*◌, ◌^◌, ◌≤◌, ◌<◌, ℕ, length, count_by, false, true, not, Err, IfOk, IfSome, IfNone, pos, neg_ℤ, ◌*ℤ◌, ◌-ℤ◌, ◌≤ℤ◌};
ghost use Rattle.desk_model.specs.Limits.{DOCUMENT_LIMIT, PARTS_OF_ONE};
ghost use Rattle.desk_model.specs.Mark.{is_unjudged, mark_at};
ghost use Rattle.desk_model.specs.Ranking.{IsRanking};
ghost use Rattle.desk_model.specs.Fraction.{IsAtMost, IsAtLeast};
ghost use Rattle.desk_model.specs.Extremes.{IsGreatest, IsSmallest, AreExtremes};
ghost use Rattle.every_completion.specs.Walk.{LooksAtNoTail, value_of, ends_of};

use crate::ends::{EndsFault, ExtremeEnds};
use crate::fraction::ScoreFraction;
use crate::rounding::Quotient;
use crate::scale::Scale;
use crate::scores::{MarkedDocs, score_of};
use desk_model::{Mark, MeasureName, Ranking};
use std::alloc::Global;

/// The number of unjudged documents.
fn unjudged_count(marks: &[Mark]) -> usize
    ensures { result ≡ count_by is_unjudged marks.now }
{
    let mut n = 0;
    for mark in marks {
        if is_unjudged_mark(*mark) {
            n += 1;
        }
    }
    n
}

fn is_unjudged_mark(mark: Mark) -> bool
    ensures { result ≡ is_unjudged mark }
{
    match mark {
        Mark::Unjudged => true,
        Mark::Relevant | Mark::Other => false,
    }
}

/// The first unjudged document from a number on.
fn first_unjudged(marks: &[Mark], from: usize) -> Option<usize>
    ensures here { IfSome result (λ doc. (from ≤ doc) × (doc < length marks.now) ×
        (is_unjudged (mark_at marks.now doc) ≡ true)) }
    ensures before { IfSome result (λ doc. (d : ℕ) → from ≤ d → d < doc →
        is_unjudged (mark_at marks.now d) ≡ false) }
    ensures none { IfNone result ((d : ℕ) → from ≤ d → d < length marks.now →
        is_unjudged (mark_at marks.now d) ≡ false) }
{
    for doc in from..marks.len() {
        if is_unjudged_mark(marks[doc]) {
            return Some(doc);
        }
    }
    None
}

/// Unit times (x minus y), in parts of both denominators.
fn scaled(scale: &Scale, x: ScoreFraction, y: ScoreFraction) -> i128
    ensures value { result ≡
        pos scale.now.unit *ℤ (pos (x.num * y.den) -ℤ pos (y.num * x.den)) }
    ensures low { neg_ℤ (pos (10 ^ 30)) ≤ℤ result }
    ensures high { result ≤ℤ pos (10 ^ 30) }
{
    let more = x.num * y.den;
    let less = y.num * x.den;
    let difference = more as i128 - less as i128;
    scale.unit as i128 * difference
}

/// The floor and the ceiling of unit times (x minus y).
fn rounded(scale: &Scale, x: ScoreFraction, y: ScoreFraction) -> (i128, i128)
    ensures low { IsGreatest (λ z. IsAtMost z scale.now.unit (value_of x) (value_of y)) result.0 }
    ensures high { IsSmallest (λ z. IsAtLeast z scale.now.unit (value_of x) (value_of y)) result.1 }
{
    let difference = Quotient {
        n: scaled(scale, x, y),
        d: (x.den * y.den) as i128,
    };
    (difference.floor(), difference.ceiling())
}

/// Two rankings over a universe of so many documents, and what they are measured by. Its facts: they are rankings over
/// it, and it has at most 25,000,000 documents.
#[derive(Clone, Copy)]
pub struct TwoRankings<'r> {
    pub scale: Scale,
    pub first: &'r [u32],
    pub second: &'r [u32],
    pub universe: usize,
    pub ghost ranking: { IsRanking universe first.now } by { Prim.hlevel props },
    pub ghost other: { IsRanking universe second.now } by { Prim.hlevel props },
    pub ghost small: { universe ≤ DOCUMENT_LIMIT },
}

/// The ends where every document is judged, so that there is one difference.
fn judged_ends(of: &TwoRankings<'_>, marks: &[Mark]) -> ExtremeEnds
    requires size { length marks.now ≡ of.now.universe }
    requires judged { (doc : ℕ) → doc < length marks.now →
        is_unjudged (mark_at marks.now doc) ≡ false }
    ensures { AreExtremes of.now.scale.measure of.now.scale.unit marks.now of.now.first.now
        of.now.second.now (ends_of result) }
{
    let first = MarkedDocs {
        docs: of.first,
        marks,
    };
    let second = MarkedDocs {
        docs: of.second,
        marks,
    };
    let x = score_of(&of.scale, &first);
    let y = score_of(&of.scale, &second);
    let (lo, hi) = rounded(&of.scale, x, y);
    ExtremeEnds {
        least_lo: lo,
        least_hi: hi,
        most_lo: lo,
        most_hi: hi,
    }
}

/// The ends over every completion, where the documents before a number are judged.
fn walk(of: &TwoRankings<'_>, marks: &mut [Mark], from: usize) -> ExtremeEnds
    requires size { length marks.old ≡ of.now.universe }
    requires judged { (doc : ℕ) → doc < from → is_unjudged (mark_at marks.old doc) ≡ false }
    ensures same { marks.new ≡ marks.old }
    ensures ends { AreExtremes of.now.scale.measure of.now.scale.unit marks.old of.now.first.now
        of.now.second.now (ends_of result) }
{
    match first_unjudged(marks, from) {
        None => judged_ends(of, marks),
        Some(doc) => {
            marks[doc] = Mark::Relevant;
            let relevant = walk(of, marks, doc + 1);
            marks[doc] = Mark::Other;
            let other = walk(of, marks, doc + 1);
            marks[doc] = Mark::Unjudged;
            relevant.join(other)
        }
    }
}

/// The ends of two runs on a topic in units, over every completion of its marks: 2 to the power of
/// the number of unjudged documents. The unit is at most 10^18. `EndsFault::TooManyUnjudged` comes
/// exactly where more than 16 documents are unjudged, and `EndsFault::Memory` where memory runs out.
pub fn extremes(
    alloc: Global,
    measure: MeasureName,
    unit: u64,
    first: &Ranking,
    second: &Ranking,
    marks: &[Mark],
) -> Result<ExtremeEnds, EndsFault>
    requires measure { LooksAtNoTail measure }
    requires unit { unit ≤ PARTS_OF_ONE }
    requires first { IsRanking (length marks.now) first.now }
    requires second { IsRanking (length marks.now) second.now }
    requires universe { length marks.now ≤ DOCUMENT_LIMIT }
    ensures ends { IfOk result (λ ends.
        AreExtremes measure unit marks.now first.now second.now (ends_of ends)) }
    ensures many { (result ≡ Err EndsFault.TooManyUnjudged) ↔
        (16 < count_by is_unjudged marks.now) }
{
    if unjudged_count(marks) > 16 {
        return Err(EndsFault::TooManyUnjudged);
    }
    let of = TwoRankings {
        scale: Scale { measure, unit },
        first: first.docs(),
        second: second.docs(),
        universe: marks.len(),
    };
    match marks.to_vec(alloc) {
        Ok(mut walked) => Ok(walk(&of, &mut walked, 0)),
        Err(_) => Err(EndsFault::Memory),
    }
}
