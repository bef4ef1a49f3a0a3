//! The least difference of two rankings on a topic, in counts of documents and ranks, for whoever
//! computes or checks an end: each law is the contract of a function that does nothing. The greatest
//! difference is the least one of the swapped runs, negated.
ghost use Rattle.std.specs.Prelude.{ℕ, ◌<◌, max, List, length};
ghost use Rattle.desk_model.specs.Classes.{precision_least};
ghost use Rattle.desk_model.specs.Ranking.{IsRanking};
ghost use Rattle.desk_model.specs.declared.types.Mark.{Mark};
ghost use Rattle.desk_model.specs.declared.types.MeasureName.TheVariants.{Precision, Recall, RPrecision, Reciprocal};
ghost use Rattle.measure_laws.specs.LeastDifference.{IsChoiceOf, IsLeastDifference, IsPossible, IsSmallestOf, choice_den, choice_num, recall_relevant, rprec_lead};
ghost use Rattle.measure_laws.specs.RprecStretches.{AreStretches, IsBeyond, IsCandidate};

/// Under `P_k` it is a's own relevant documents among the first k less b's own relevant and unjudged
/// ones, out of k. Under `recall_k` it is that out of the relevant documents of the least case: where a
/// leads, all that can be but a's own unjudged ones, else the judged ones and b's own unjudged ones.
pub fn least_difference_is_counted()
    ensures precision { (k : ℕ) (marks : List Mark) (a b : List ℕ) → 0 < k →
        IsRanking (length marks) a → IsRanking (length marks) b →
        IsLeastDifference (Precision k) marks a b (precision_least k marks a b) k }
    ensures recall { (k : ℕ) (marks : List Mark) (a b : List ℕ) →
        IsRanking (length marks) a → IsRanking (length marks) b →
        IsLeastDifference (Recall k) marks a b
        (precision_least k marks a b) (max 1 (recall_relevant k marks a b)) }
{}

/// Under R-precision it is the smallest of one fraction for each number r of relevant documents that
/// the topic can have: by how many of them the runs differ where b's own unjudged documents among the
/// first r are chosen first and a's own last, out of r.
pub fn least_difference_is_over_each_r()
    ensures { (marks : List Mark) (a b : List ℕ) → IsRanking (length marks) a →
        IsRanking (length marks) b →
        IsSmallestOf RPrecision marks a b (IsPossible marks) (rprec_lead marks a b) (max 1) }
{}

/// From a number r on that is at least as great as both rankings are long, two numbers more are enough:
/// the one at which b's own unjudged documents are used up, and the one at which only a's own are left.
/// Up to each of them the difference falls at each step or at none, and after the second it never falls.
pub fn two_numbers_beyond_both_rankings_are_enough()
    ensures stretches { (marks : List Mark) (a b : List ℕ) (r : ℕ) → IsRanking (length marks) a →
        IsRanking (length marks) b →
        IsBeyond marks a b r → AreStretches marks a b r }
    ensures candidates { (marks : List Mark) (a b : List ℕ) (r : ℕ) → IsRanking (length marks) a →
        IsRanking (length marks) b →
        IsBeyond marks a b r →
        IsSmallestOf RPrecision marks a b (IsCandidate marks a b r) (rprec_lead marks a b) (max 1) }
{}

/// Under reciprocal rank it is the smallest of one fraction for each choice of no document or of one
/// unjudged document of b: a's first relevant rank is the earlier of its first judged one and the
/// chosen document's, and so is b's.
pub fn least_difference_is_over_each_choice()
    ensures { (marks : List Mark) (a b : List ℕ) → IsRanking (length marks) a →
        IsRanking (length marks) b →
        IsSmallestOf Reciprocal marks a b (IsChoiceOf marks b) (choice_num marks a b)
        (choice_den marks a b) }
{}
