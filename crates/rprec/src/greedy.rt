ghost use Rattle.std.specs.Prelude.{◌≡◌, ◌≤◌};
ghost use Rattle.rprec.specs.Greedy.{AreFew, IsSmallCandidate, beats, best_beyond as beyond, better_of, candidate};

use crate::prefixes::Prefixes;
use topic_counts::counts::Counts;

/// A number of relevant documents, and how many of them each run has among as many first documents,
/// where the difference is the least. Documents that both have there may be left out of both counts.
#[derive(Clone, Copy, PartialEq, Eq)]
pub struct DepthCandidate {
    pub count: u32,
    pub first: u32,
    pub second: u32,
}

/// A candidate with no more documents than a run and a topic have.
#[derive(Clone, Copy)]
pub struct Small {
    pub candidate: DepthCandidate,
    pub ghost small: { IsSmallCandidate candidate },
}

/// The greedy choice of some of the unjudged documents: the second run's own ones come first, and
/// the first run's own ones last.
pub fn greedy_choice(prefixes: Prefixes, chosen: u32, all: Counts) -> Small
    requires few { AreFew prefixes all }
    requires chosen { chosen ≤ all.unjudged }
    ensures { result.candidate ≡ candidate prefixes all chosen }
{
    let others = all.unjudged - prefixes.first.unjudged;
    let candidate = DepthCandidate {
        count: all.relevant + chosen,
        first: prefixes.first.relevant + chosen.saturating_sub(others),
        second: prefixes.second.relevant + chosen.min(prefixes.second.unjudged),
    };
    Small { candidate }
}

/// Whether the difference of one candidate is smaller than that of another.
fn is_less(c: Small, best: Small) -> bool
    ensures { result ≡ beats c.candidate best.candidate }
{
    let c = c.candidate;
    let best = best.candidate;
    let here = u64::from(c.count.max(1));
    let there = u64::from(best.count.max(1));
    u64::from(c.first) * there + u64::from(best.second) * here
        < u64::from(best.first) * here + u64::from(c.second) * there
}

/// The one of two candidates with the smaller difference, and of equal ones the second.
fn better(c: Small, best: Small) -> Small
    ensures { result.candidate ≡ better_of c.candidate best.candidate }
{
    if is_less(c, best) { c } else { best }
}

/// The best of all, where the best up to some number is known and the prefixes stay as they are from
/// there on. The difference falls or rises evenly up to where the second run's own documents are
/// used up, and from there up to where only the first run's own ones are left; then it rises.
pub fn best_beyond(prefixes: Prefixes, chosen: u32, all: Counts, best: Small) -> Small
    requires few { AreFew prefixes all }
    requires chosen { chosen ≤ all.unjudged }
    ensures { result.candidate ≡ beyond prefixes all chosen best.candidate }
{
    let others = all.unjudged - prefixes.first.unjudged;
    let second_used = greedy_choice(prefixes, chosen.max(prefixes.second.unjudged), all);
    let others_used = greedy_choice(prefixes, chosen.max(others), all);
    better(others_used, better(second_used, best))
}
