ghost use Rattle.std.specs.Prelude.{◌≡◌, ℕ, ◌≤◌, List, length, max, take};
ghost use Rattle.desk_model.specs.Limits.{RANK_LIMIT};
ghost use Rattle.desk_model.specs.Ranking.{rank, is_in};
ghost use Rattle.measure_laws.specs.Ranks.{IsRankWithin, comes_before, earlier};

use desk_model::Ranking;

/// The rank of a document, from 1.
pub fn rank_in(ranking: &Ranking, doc: u32) -> Option<u32>
    requires { length ranking.now ≤ RANK_LIMIT }
    ensures rank { result ≡ rank ranking.now doc }
    ensures within { IsRankWithin RANK_LIMIT result }
{
    ranking.rank_of(doc)
}

/// How many documents the longer of two rankings has.
pub fn longer(a: &Ranking, b: &Ranking) -> u32
    ensures longer { result ≡ max (length a.now) (length b.now) }
    ensures few { result ≤ RANK_LIMIT }
{
    a.docs().len().max(b.docs().len()) as u32
}

/// Whether a rank comes before another, where an absent one comes last.
pub fn is_before(x: Option<u32>, y: Option<u32>) -> bool
    ensures { result ≡ comes_before x y }
{
    match (x, y) {
        (Some(x), Some(y)) => x < y,
        (Some(_), None) => true,
        (None, _) => false,
    }
}

/// The earlier of two ranks, where an absent one comes last.
pub fn earlier_of(x: Option<u32>, y: Option<u32>) -> Option<u32>
    ensures { result ≡ earlier x y }
{
    match (x, y) {
        (Some(x), Some(y)) => Some(x.min(y)),
        (Some(x), None) => Some(x),
        (None, y) => y,
    }
}

/// Whether a rank is at most k; an absent one is not.
pub fn is_within(k: u32, found: Option<u32>) -> bool
    ensures { (docs : List ℕ) (doc : ℕ) → found ≡ rank docs doc → result ≡ is_in (take k docs) doc }
{
    match found {
        Some(rank) => rank <= k,
        None => false,
    }
}
