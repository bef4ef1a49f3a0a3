ghost use Rattle.std.specs.Prelude.{◌≡◌, ℕ, List, ◌≤◌, ◌<◌, ◌≤ℤ◌, pos, neg_ℤ, length, if◌then◌else◌};
ghost use Rattle.desk_model.specs.Completion.{picked_value};
ghost use Rattle.desk_model.specs.Limits.{PARTS_OF_ONE, RANK_LIMIT};
ghost use Rattle.desk_model.specs.Ranking.{rank};
ghost use Rattle.desk_model.specs.declared.types.MeasureName.TheVariants.{Biased as B};
ghost use Rattle.measure_laws.specs.Ends.{IsUpperEnd};
ghost use Rattle.measure_laws.specs.Ranks.{IsRankWithin, comes_before};
ghost use Rattle.measure_laws.specs.Shares.{low_share, high_share};
ghost use Rattle.topic_ends.specs.Least.{AreRankings, IsLeastLow};
ghost use Rattle.topic_ends.specs.Walk.{AreFrom};

use crate::completion::UpperEnds;
use crate::pair::MarkedPair;
use crate::rank_powers::RankPowers;
use crate::ranks::is_before;
use crate::relevance::Relevance;
use crate::walk::{after, next_document, next_rank};
use desk_model::{Mark, Placed, Ranking};

/// What a relevant document at these two ranks adds at least to the difference.
fn least_share(powers: &RankPowers, x: Option<u32>, y: Option<u32>) -> i128
    requires first { IsRankWithin RANK_LIMIT x }
    requires second { IsRankWithin RANK_LIMIT y }
    ensures share { result ≡ low_share powers.now.top powers.now.bottom x y }
    ensures low { neg_ℤ (pos PARTS_OF_ONE) ≤ℤ result }
    ensures high { result ≤ℤ pos PARTS_OF_ONE }
{
    let lead = powers.weight(x).lo - powers.weight(y).hi;
    if is_before(x, y) {
        if lead > 0 { lead } else { 0 }
    } else if is_before(y, x) {
        lead
    } else {
        0
    }
}

/// What a document with this mark at these two ranks adds at least in the least case: an unjudged one
/// is relevant there where the second ranking has it first.
fn least_gain(powers: &RankPowers, x: Option<u32>, y: Option<u32>, mark: Mark) -> i128
    requires first { IsRankWithin RANK_LIMIT x }
    requires second { IsRankWithin RANK_LIMIT y }
    ensures gain { result ≡
        (if picked_value (comes_before y x) mark then low_share powers.now.top powers.now.bottom x y
        else pos 0) }
    ensures low { neg_ℤ (pos PARTS_OF_ONE) ≤ℤ result }
    ensures high { result ≤ℤ pos PARTS_OF_ONE }
{
    let is_relevant = match mark {
        Mark::Unjudged => is_before(y, x),
        Mark::Relevant => true,
        Mark::Other => false,
    };
    if is_relevant {
        least_share(powers, x, y)
    } else {
        0
    }
}

/// What a document adds at most in one completion, by the places of both rankings from it on.
fn greatest_gain(
    powers: &RankPowers,
    first: &[Placed],
    second: &[Placed],
    doc: u32,
    is_relevant: bool,
) -> i128
    requires { (a : List ℕ) × (b : List ℕ) × (length a ≤ RANK_LIMIT) ×
        (length b ≤ RANK_LIMIT) × AreFrom doc a first.now × AreFrom doc b second.now }
    ensures gain { (a : List ℕ) (b : List ℕ) → AreFrom doc a first.now → AreFrom doc b second.now →
        result ≡
        (if is_relevant then high_share powers.now.top powers.now.bottom (rank a doc) (rank b doc)
        else pos 0) }
    ensures low { neg_ℤ (pos PARTS_OF_ONE) ≤ℤ result }
    ensures high { result ≤ℤ pos PARTS_OF_ONE }
{
    if is_relevant {
        let x = next_rank(first, doc);
        let y = next_rank(second, doc);
        -least_share(powers, y, x)
    } else {
        0
    }
}

/// The lower end of the least difference under rank-biased precision: the lower shares of the
/// documents that are relevant, or unjudged and ranked by b before a or alone, less what b's tail may
/// hold.
pub fn least_low(powers: &RankPowers, pair: &MarkedPair<'_, '_, '_>) -> i128
    ensures { IsLeastLow (B powers.now.top powers.now.bottom) pair.now.marks.now pair.now.a.now
        pair.now.b.now result }
{
    let mut first = pair.a.by_doc();
    let mut second = pair.b.by_doc();
    let mut sum = 0;
    while let Some(doc) = next_document(first, second) {
        let x = next_rank(first, doc);
        let y = next_rank(second, doc);
        sum += least_gain(powers, x, y, pair.marks[doc as usize]);
        first = after(first, doc);
        second = after(second, doc);
    }
    sum - powers.tail_most(pair.b)
}

/// The upper ends of the differences under rank-biased precision in two completions: of a's score less b's in the low
/// one, where b has a tail of 10^24 relevant places, and of b's less a's in the high one, where a has it. Each is the
/// upper shares of the relevant documents, less what that tail adds at least. Both are summed in one walk.
pub fn upper_ends<T: Relevance>(
    powers: &RankPowers,
    a: &Ranking,
    b: &Ranking,
    low: &T,
    high: &T,
) -> UpperEnds
    requires low { AreRankings (T.universe low.now) a.now b.now }
    requires high { AreRankings (T.universe high.now) b.now a.now }
    ensures low { IsUpperEnd (B powers.now.top powers.now.bottom) (T.universe low.now)
        (T.truth low.now) a.now b.now result.low }
    ensures high { IsUpperEnd (B powers.now.top powers.now.bottom) (T.universe high.now)
        (T.truth high.now) b.now a.now result.high }
{
    let mut first = a.by_doc();
    let mut second = b.by_doc();
    let mut near_low = 0;
    let mut near_high = 0;
    let mut low_sum = 0;
    let mut high_sum = 0;
    while let Some(doc) = next_document(first, second) {
        let in_low = low.find_relevant(doc, near_low);
        let in_high = high.find_relevant(doc, near_high);
        near_low = in_low.near;
        near_high = in_high.near;
        low_sum += greatest_gain(powers, first, second, doc, in_low.is_found);
        high_sum += greatest_gain(powers, second, first, doc, in_high.is_found);
        first = after(first, doc);
        second = after(second, doc);
    }
    UpperEnds {
        low: low_sum - powers.tail_least(b),
        high: high_sum - powers.tail_least(a),
    }
}
