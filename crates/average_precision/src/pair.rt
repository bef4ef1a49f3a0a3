//! The cell of two runs from what is known of each.
ghost use Rattle.std.specs.Prelude.{◌≡◌, ℕ, ◌*◌, ◌≤◌, List, length};
ghost use Rattle.desk_model.specs.Limits.{PARTS_OF_ONE, RANK_LIMIT};
ghost use Rattle.desk_model.specs.Ranking.{IsRanking};
ghost use Rattle.desk_model.specs.declared.types.Mark.{Mark as M};
ghost use Rattle.topic_counts.specs.Ends.{IsShort};
ghost use Rattle.average_precision.specs.Least.{AreNumbers, IsLeast};
ghost use Rattle.average_precision.specs.Crossed.{AreCrossed};
ghost use Rattle.average_precision.specs.Numbers.{average_cell};
ghost use Rattle.average_precision.specs.Pairs.{IsPairRun};

use crate::least::{are_same, least_of};
use crate::numbers::{Least, PairRun, RunNumbers};
use measure_core::{Cell, CrossScores};
use precision_candidates::crossing::{Classes, crossed};
use precision_candidates::table::Parts;
use topic_counts::Span;

/// The ends of the least difference of two runs, and of the same runs swapped.
#[derive(Clone, Copy)]
pub struct Leasts {
    pub least: Least,
    pub swapped: Least,
}

/// The ends of the least difference of two runs, and of the same runs swapped, from what is known of both.
pub fn leasts_between(a: &[u32], b: &[u32], first: PairRun, second: PairRun) -> Leasts
    ensures least { (marks : List M) → IsPairRun marks a.now b.now first →
        IsPairRun marks b.now a.now second → IsLeast marks a.now b.now result.least }
    ensures swapped { (marks : List M) → IsPairRun marks a.now b.now first →
        IsPairRun marks b.now a.now second → IsLeast marks b.now a.now result.swapped }
{
    Leasts {
        least: least_of(are_same(a, b), first, second),
        swapped: least_of(are_same(b, a), second, first),
    }
}

/// The numbers of a run, from its chosen candidates and the class of each document.
pub fn known_run<C: Classes>(classes: &C, parts: &Parts) -> RunNumbers
    ensures { AreNumbers (C.marks classes.now) (C.run classes.now) result }
{
    let run = classes.chosen();
    let own = crossed(false, run.on.docs, classes, parts);
    RunNumbers {
        lo: run.chosen.low.value,
        hi: run.chosen.high.value,
        low_in_high: own.in_high,
        high_in_low: own.in_low,
    }
}

/// The scores of a ranking in a run's two candidates, rounded outward. The loop has more registers where it stands alone.
#[inline(never)]
pub fn scores_in<C: Classes>(docs: &[u32], classes: &C, parts: &Parts) -> CrossScores
    requires { IsRanking (length (C.marks classes.now)) docs.now }
    ensures scores { AreCrossed (C.marks classes.now) (C.run classes.now) docs.now result }
    ensures high_small { result.in_high ≤ RANK_LIMIT * PARTS_OF_ONE }
    ensures low_small { result.in_low ≤ RANK_LIMIT * PARTS_OF_ONE }
{
    crossed(true, docs, classes, parts)
}

/// A run of a pair, by its classes and the other's documents.
fn pair_run<C: Classes>(classes: &C, rival: &[u32], parts: &Parts) -> PairRun
    requires { IsRanking (length (C.marks classes.now)) rival.now }
    ensures { IsPairRun (C.marks classes.now) (C.run classes.now) rival.now result }
{
    PairRun {
        numbers: known_run(classes, parts),
        other: scores_in(rival, classes, parts),
    }
}

/// The ends of the least difference of two runs, and of the same runs swapped, from the class of each document for each.
pub fn leasts_of<A: Classes, B: Classes>(first: &A, second: &B, parts: &Parts) -> Leasts
    requires { B.marks second.now ≡ A.marks first.now }
    ensures least { IsLeast (A.marks first.now) (A.run first.now) (B.run second.now)
        result.least }
    ensures swapped { IsLeast (A.marks first.now) (B.run second.now) (A.run first.now)
        result.swapped }
{
    let a = first.chosen().on.docs;
    let b = second.chosen().on.docs;
    leasts_between(a, b, pair_run(first, b, parts), pair_run(second, a, parts))
}

/// The ends of a least difference as a span.
fn span_of(least: Least) -> Span
    ensures lo { result.lo ≡ least.lo }
    ensures hi { result.hi ≡ least.hi }
    ensures short { IsShort result }
{
    Span {
        lo: least.lo,
        hi: least.hi,
    }
}

/// The cell of two runs, from the ends of their least difference and of that of the same runs swapped.
pub fn cell_of(both: Leasts) -> Cell
    ensures { (marks : List M) (a b : List ℕ) → IsLeast marks a b both.least →
        IsLeast marks b a both.swapped → result ≡ average_cell marks a b }
{
    Cell {
        least: span_of(both.least),
        most: span_of(both.swapped).negate(),
    }
}
