ghost use Rattle.std.specs.Prelude.{◌≡◌};
ghost use Rattle.rprec.specs.Greedy.{beats};
ghost use Rattle.rprec.specs.Search.{IsShallow, precedes as before, preferred as better_of};

use crate::greedy::DepthCandidate;

/// A candidate of no more documents than a run has.
#[derive(Clone, Copy)]
pub struct Shallow {
    pub candidate: DepthCandidate,
    pub ghost near: { IsShallow candidate },
}

/// Whether a candidate has a smaller difference than another one.
pub fn is_less(c: Shallow, best: Shallow) -> bool
    ensures { result ≡ beats c.candidate best.candidate }
{
    let c = c.candidate;
    let best = best.candidate;
    let here = c.count.max(1);
    let there = best.count.max(1);
    c.first * there + best.second * here < best.first * here + c.second * there
}

/// Whether a candidate has a smaller difference than another one, or the same with a smaller number
/// of relevant documents.
fn precedes(c: Shallow, best: Shallow) -> bool
    ensures { result ≡ before c.candidate best.candidate }
{
    is_less(c, best) || (!is_less(best, c) && c.candidate.count < best.candidate.count)
}

/// The one of two candidates that precedes the other.
pub fn preferred(c: Shallow, best: Shallow) -> Shallow
    ensures { result.candidate ≡ better_of c.candidate best.candidate }
{
    if precedes(c, best) { c } else { best }
}
