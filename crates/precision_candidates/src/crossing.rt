//! One pass over a ranking in the chosen candidates of a run.
ghost use Rattle.std.specs.Prelude.{◌≡◌, ℕ, ◌*◌, ◌<◌, ◌≤◌, List, length, map, not};
ghost use Rattle.desk_model.specs.Limits.{PARTS_OF_ONE, RANK_LIMIT};
ghost use Rattle.desk_model.specs.Precisions.{true_ranks};
ghost use Rattle.desk_model.specs.Ranking.{IsRanking};
ghost use Rattle.desk_model.specs.declared.types.Mark.{Mark as M};
ghost use Rattle.measure_laws.specs.AverageEnds.{high_case, low_case};
ghost use Rattle.measure_laws.specs.Parts.{ranked_sum};
ghost use Rattle.precision_candidates.specs.Classes.{AreDocuments, IsClassOf, has, rounded};
ghost use Rattle.precision_candidates.specs.Sums.{worth_of};

use crate::candidate::quotient;
use crate::runs::ChosenRun;
use crate::sums::Sum;
use crate::table::{FoundParts, KeptParts, Parts, Rank, RankParts, sum_with};
use measure_core::{Class, CrossScores};

/// Whether a document is true in the high candidate, or in the low one.
pub fn is_in(high: bool, class: Class) -> bool
    ensures { result ≡ has high class }
{
    match class {
        Class::Neither => false,
        Class::High => high,
        Class::Low => !high,
        Class::Both => true,
    }
}

/// What tells the class of each document of a topic for a run.
pub trait Classes {
    /// The marks of the topic.
    ghost marks: { Self → List M };

    /// The ranking of the run.
    ghost run: { Self → List ℕ };

    /// The run with its chosen candidates.
    fn chosen(&self) -> &ChosenRun<'_>
        ensures marks { result.now.on.marks.now ≡ marks self.now }
        ensures run { result.now.on.docs.now ≡ run self.now };

    /// The class of a document, by its number from 0.
    fn class_of(&self, doc: u32) -> Class
        requires { doc < length (marks self.now) }
        ensures { IsClassOf (marks self.now) (run self.now) doc result };
}

/// The sums of a ranking's precisions in a run's two candidates.
#[derive(Clone, Copy, PartialEq, Eq)]
pub struct Sums {
    pub in_high: u128,
    pub in_low: u128,
}

/// The sums of a ranking's precisions in a run's two candidates: outward, rounded up in the high one and down in the
/// low one, or inward, the other way round.
pub fn sums_in<C: Classes, P: RankParts>(
    outward: bool,
    docs: &[u32],
    classes: &C,
    parts: &P,
) -> Sums
    requires { IsRanking (length (C.marks classes.now)) docs.now }
    ensures in_high { result.in_high ≡
        ranked_sum (worth_of outward) 1
        (true_ranks 1 (map (high_case (C.marks classes.now) (C.run classes.now)) docs.now)) }
    ensures in_low { result.in_low ≡
        ranked_sum (worth_of (not outward)) 1
        (true_ranks 1 (map (low_case (C.marks classes.now) (C.run classes.now)) docs.now)) }
    ensures high_small { result.in_high ≤ RANK_LIMIT * PARTS_OF_ONE }
    ensures low_small { result.in_low ≤ RANK_LIMIT * PARTS_OF_ONE }
{
    let mut in_high = Sum::NONE;
    let mut in_low = Sum::NONE;
    let mut rank = 1;
    for doc in docs {
        let class = classes.class_of(*doc);
        let at = Rank { number: rank };
        let part = parts.part(at);
        in_high = sum_with(in_high, outward, is_in(true, class), at, part);
        in_low = sum_with(in_low, !outward, is_in(false, class), at, part);
        rank += 1;
    }
    Sums {
        in_high: in_high.parts,
        in_low: in_low.parts,
    }
}

/// How many documents are true in a run's two candidates.
#[derive(Clone, Copy, PartialEq, Eq)]
pub struct Documents {
    pub in_high: u32,
    pub in_low: u32,
}

/// How many documents are true in a run's two candidates.
fn documents_in<C: Classes>(classes: &C) -> Documents
    ensures { AreDocuments (C.marks classes.now) (C.run classes.now) result }
{
    classes.chosen().documents()
}

/// A ranking's average precision in a run's two candidates: outward, rounded up in the high one and down in the
/// low one, or inward, the other way round.
pub fn crossed<C: Classes>(outward: bool, docs: &[u32], classes: &C, parts: &Parts) -> CrossScores
    requires { IsRanking (length (C.marks classes.now)) docs.now }
    ensures in_high { result.in_high ≡
        rounded outward (length (C.marks classes.now))
        (high_case (C.marks classes.now) (C.run classes.now)) docs.now }
    ensures in_low { result.in_low ≡
        rounded (not outward) (length (C.marks classes.now))
        (low_case (C.marks classes.now) (C.run classes.now)) docs.now }
    ensures high_small { result.in_high ≤ RANK_LIMIT * PARTS_OF_ONE }
    ensures low_small { result.in_low ≤ RANK_LIMIT * PARTS_OF_ONE }
{
    let sums = match parts.all() {
        Some(parts) => sums_in(outward, docs, classes, &KeptParts { parts }),
        None => sums_in(outward, docs, classes, &FoundParts),
    };
    let documents = documents_in(classes);
    CrossScores {
        in_high: quotient(outward, sums.in_high, documents.in_high),
        in_low: quotient(!outward, sums.in_low, documents.in_low),
    }
}
