//! Laws of average precision, each the contract of a function that does nothing. Averages, candidates and ends are those
//! of `Parts`, `Candidates` and `AverageEnds`.
ghost use Rattle.std.specs.Prelude.{◌≡◌, ℕ, ◌+◌, ◌*◌, ◌<◌, ◌≤◌, ◌≤ℤ◌, Bool, List, length, ℤ, pos, neg_ℤ};
ghost use Rattle.desk_model.specs.Limits.{PARTS_OF_ONE};
ghost use Rattle.desk_model.specs.Completion.{Completes};
ghost use Rattle.desk_model.specs.Extremes.{IsAtMostScore, IsAtLeastScore};
ghost use Rattle.desk_model.specs.Fraction.{IsAtMost, IsAtLeast};
ghost use Rattle.desk_model.specs.Ranking.{IsRanking};
ghost use Rattle.desk_model.specs.declared.types.Mark.{Mark};
ghost use Rattle.measure_laws.specs.Refinement.{AreRefinedBy};
ghost use Rattle.measure_laws.specs.Shares.{IsModest};
ghost use Rattle.measure_laws.specs.Parts.{average_precision, low_average, high_average};
ghost use Rattle.measure_laws.specs.Candidates.{open_docs, high_truth, low_truth, average_bound_lo, average_bound_hi};
ghost use Rattle.measure_laws.specs.AverageLaws.{ForCompletion, ForRun, IsNoMore};
ghost use Rattle.measure_laws.specs.AverageEnds.{average_upper_end, average_truth, average_least_lo, average_least_hi, average_ends};

/// Every completion's score lies between those of a low and of a high candidate. So a run's least score is
/// that of a low candidate, and its greatest that of a high one.
pub fn candidates_reach_the_extremes()
    ensures low { ForCompletion (λ marks docs truth. (t : ℕ) × (t ≤ length (open_docs marks docs)) ×
        IsNoMore (average_precision (length marks) (low_truth marks docs t) docs)
        (average_precision (length marks) truth docs)) }
    ensures high { ForCompletion (λ marks docs truth. (t : ℕ) ×
        (t ≤ length (open_docs marks docs)) ×
        IsNoMore (average_precision (length marks) truth docs)
        (average_precision (length marks) (high_truth marks docs t) docs)) }
    ensures completes_low { (marks : List Mark) (docs : List ℕ) (t : ℕ) →
        Completes marks (low_truth marks docs t) }
    ensures completes_high { (marks : List Mark) (docs : List ℕ) (t : ℕ) →
        Completes marks (high_truth marks docs t) }
{}

/// The bounds of a run are the least of its averages rounded down, and the greatest of those rounded up, over
/// every completion; each is that of a completion. The greatest is at most 10^18.
pub fn bounds_are_extremes()
    ensures low { ForCompletion (λ marks docs truth. average_bound_lo marks docs ≤
        low_average (length marks) truth docs) }
    ensures high { ForCompletion (λ marks docs truth. high_average (length marks) truth docs ≤
        average_bound_hi marks docs) }
    ensures low_attained { ForRun (λ marks docs. (truth : ℕ → Bool) × Completes marks truth ×
        (average_bound_lo marks docs ≡ low_average (length marks) truth docs)) }
    ensures high_attained { ForRun (λ marks docs. (truth : ℕ → Bool) × Completes marks truth ×
        (average_bound_hi marks docs ≡ high_average (length marks) truth docs)) }
    ensures low_size { ForRun (λ marks docs. average_bound_lo marks docs ≤ PARTS_OF_ONE) }
    ensures high_size { ForRun (λ marks docs. average_bound_hi marks docs ≤ PARTS_OF_ONE) }
{}

/// In each completion the averages enclose 10^18 times the score, and are less than two parts away from it.
pub fn averages_enclose()
    ensures low { (universe : ℕ) (truth : ℕ → Bool) (docs : List ℕ) →
        IsAtMostScore (pos (low_average universe truth docs)) PARTS_OF_ONE
        (average_precision universe truth docs) }
    ensures high { (universe : ℕ) (truth : ℕ → Bool) (docs : List ℕ) →
        IsAtLeastScore (pos (high_average universe truth docs)) PARTS_OF_ONE
        (average_precision universe truth docs) }
    ensures low_near { (universe : ℕ) (truth : ℕ → Bool) (docs : List ℕ) → IsRanking universe docs →
        let x = average_precision universe truth docs in PARTS_OF_ONE * x.num <
        (low_average universe truth docs + 2) * x.den }
    ensures high_near { (universe : ℕ) (truth : ℕ → Bool) (docs : List ℕ) →
        IsRanking universe docs →
        let x = average_precision universe truth docs in high_average universe truth docs * x.den <
        PARTS_OF_ONE * x.num + 2 * x.den }
{}

/// The ends enclose 10^18 times the difference of two runs: the lower end of the least difference in every
/// completion, the upper end of a completion in that one. The least case is a completion, and all ends lie
/// from -2*10^18 to 2*10^18.
pub fn average_ends_enclose()
    ensures low { (marks : List Mark) (a b : List ℕ) (truth : ℕ → Bool) →
        IsRanking (length marks) a → IsRanking (length marks) b → Completes marks truth →
        IsAtMost (average_least_lo marks a b) PARTS_OF_ONE
        (average_precision (length marks) truth a) (average_precision (length marks) truth b) }
    ensures upper { (universe : ℕ) (truth : ℕ → Bool) (a b : List ℕ) →
        IsAtLeast (average_upper_end universe truth a b) PARTS_OF_ONE
        (average_precision universe truth a) (average_precision universe truth b) }
    ensures case { (marks : List Mark) (a b : List ℕ) → Completes marks (average_truth marks a b) }
    ensures low_size { (marks : List Mark) (a b : List ℕ) → IsRanking (length marks) a →
        IsRanking (length marks) b → IsModest (average_least_lo marks a b) }
    ensures high_size { (marks : List Mark) (a b : List ℕ) → IsRanking (length marks) a →
        IsRanking (length marks) b → IsModest (average_least_hi marks a b) }
    ensures mirror { (marks : List Mark) (a b : List ℕ) →
        let ends = average_ends marks a b in
        average_ends marks b a ≡ record {
          least_lo = neg_ℤ ends.most_hi;
          least_hi = neg_ℤ ends.most_lo;
          most_lo = neg_ℤ ends.least_hi;
          most_hi = neg_ℤ ends.least_lo;
        } }
{}

/// Under refined marks the bounds of a run and the outer ends of two runs close in.
pub fn average_ends_close_in()
    ensures low { (marks later : List Mark) (docs : List ℕ) → AreRefinedBy marks later →
        IsRanking (length marks) docs → average_bound_lo marks docs ≤ average_bound_lo later docs }
    ensures high { (marks later : List Mark) (docs : List ℕ) → AreRefinedBy marks later →
        IsRanking (length marks) docs → average_bound_hi later docs ≤ average_bound_hi marks docs }
    ensures least { (marks later : List Mark) (a b : List ℕ) → AreRefinedBy marks later →
        IsRanking (length marks) a → IsRanking (length marks) b →
        (average_ends marks a b).least_lo ≤ℤ (average_ends later a b).least_lo }
    ensures most { (marks later : List Mark) (a b : List ℕ) → AreRefinedBy marks later →
        IsRanking (length marks) a → IsRanking (length marks) b →
        (average_ends later a b).most_hi ≤ℤ (average_ends marks a b).most_hi }
{}
