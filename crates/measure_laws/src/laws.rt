//! Laws of the measures, each the contract of a function that does nothing.
ghost use Rattle.std.specs.Prelude.{◌≡◌, ℕ, ℤ, ◌+◌, ◌-◌, ◌*◌, ◌^◌, ◌<◌, ◌≤◌, ◌≤ℤ◌, Bool, List, [], ◌∷◌, length, Some, None, MatchOption, pos, neg_ℤ};
ghost use Rattle.std.specs.Int.{abs_diff};
ghost use Rattle.desk_model.specs.Limits.{PARTS_OF_ONE};
ghost use Rattle.desk_model.specs.Ranking.{IsRanking, rank};
ghost use Rattle.desk_model.specs.Completion.{Completes};
ghost use Rattle.desk_model.specs.Fraction.{IsAtMost, IsAtLeast};
ghost use Rattle.desk_model.specs.Score.{score};
ghost use Rattle.desk_model.specs.Extremes.{InEvery, InEveryScore, IsAtMostScore, IsAtLeastScore, Ends, AreExtremes};
ghost use Rattle.desk_model.specs.Classes.{precision_ends};
ghost use Rattle.desk_model.specs.declared.types.Mark.{Mark};
ghost use Rattle.desk_model.specs.declared.types.MeasureName.{MeasureName};
ghost use Rattle.desk_model.specs.declared.types.MeasureName.TheVariants.{Precision, Recall, RPrecision, Reciprocal, Biased};
ghost use Rattle.measure_laws.specs.Differences.{IsLeastCase, IsFirstLeast};
ghost use Rattle.desk_model.specs.MeasureText.{IsPersistence, IsMeasure};
ghost use Rattle.measure_laws.specs.Measures.{IsExactMeasure, unit_of};
ghost use Rattle.measure_laws.specs.Cases.{least_truth, HasLeastTails};
ghost use Rattle.measure_laws.specs.ReciprocalCase.{reciprocal_scores, unjudged_of, reciprocal_choice};
ghost use Rattle.measure_laws.specs.RprecCase.{IsSmallestAttained, greedy_scores, rprec_counts, rprec_count};
ghost use Rattle.measure_laws.specs.Powers.{low_power, high_power, low_weight, high_weight};
ghost use Rattle.measure_laws.specs.Shares.{ForPersistence, ForRun, AreNear, IsModest, biased_least_lo, biased_least_hi, biased_ends, biased_bound_lo, biased_bound_hi};
ghost use Rattle.measure_laws.specs.Weights.{weight_of};
ghost use Rattle.measure_laws.specs.Ends.{HasEnds, IsUpperEnd, IsLowerEnd};

/// The least case is a completion, and tails that go with it are there. Under precision, recall,
/// R-precision and reciprocal rank no completion has a smaller difference.
pub fn least_case_is_least()
    ensures completes { (measure : MeasureName) (marks : List Mark) (a b : List ℕ) →
        Completes marks (least_truth measure marks a b) }
    ensures tails { (measure : MeasureName) →
        (tail_a : List Bool) × (tail_b : List Bool) × HasLeastTails measure tail_a tail_b }
    ensures least { (measure : MeasureName) (marks : List Mark) (a b : List ℕ) →
        IsMeasure measure → IsExactMeasure measure →
        IsRanking (length marks) a → IsRanking (length marks) b →
        IsLeastCase measure marks a b (least_truth measure marks a b) }
{}

/// The least case of reciprocal rank makes the first document relevant that has the smallest
/// difference, of none and the unjudged ones of b in b's order. That of R-precision has the smallest
/// number of relevant documents that has it. Each candidate before it has a greater difference.
pub fn least_case_is_first()
    ensures reciprocal { (marks : List Mark) (a b : List ℕ) →
        IsFirstLeast (reciprocal_scores marks a b) (None ∷ unjudged_of marks b)
        (reciprocal_choice marks a b) }
    ensures rprec { (marks : List Mark) (a b : List ℕ) →
        IsFirstLeast (greedy_scores marks a b) (rprec_counts marks) (rprec_count marks a b) }
    ensures rprec_smallest { (marks : List Mark) (a b : List ℕ) →
        IsRanking (length marks) a → IsRanking (length marks) b →
        IsSmallestAttained marks a b (rprec_count marks a b) }
{}

/// The ends of a topic are determined, by completions and by the measure's name. Under precision they
/// are counts of documents: the two ends of the least difference are one number, and so are those of
/// the greatest.
pub fn ends_are_determined()
    ensures unique { (measure : MeasureName) (unit : ℕ) (marks : List Mark) (a b : List ℕ)
        (e f : Ends) →
        AreExtremes measure unit marks a b e → AreExtremes measure unit marks a b f → e ≡ f }
    ensures named { (measure : MeasureName) (marks : List Mark) (a b : List ℕ) (e f : Ends) →
        HasEnds measure marks a b e → HasEnds measure marks a b f → e ≡ f }
    ensures precision { (k : ℕ) (marks : List Mark) (a b : List ℕ) (e : Ends) → 0 < k →
        IsRanking (length marks) a → IsRanking (length marks) b →
        AreExtremes (Precision k) k marks a b e → e ≡ precision_ends k marks a b }
{}

/// The rounded powers of a persistence a / b enclose S times its power, and the rounded weights of a
/// rank enclose S times what rank-biased precision gives it (Moffat and Zobel 2008).
pub fn powers_enclose()
    ensures low { (a b i : ℕ) → low_power a b i * b ^ i ≤ PARTS_OF_ONE * a ^ i }
    ensures high { (a b i : ℕ) → 0 < b → PARTS_OF_ONE * a ^ i ≤ high_power a b i * b ^ i }
    ensures weight_low { (a b i : ℕ) → a < b → 1 ≤ i →
        low_weight a b (Some i) * b ^ i ≤ PARTS_OF_ONE * ((b - a) * a ^ (i - 1)) }
    ensures weight_high { (a b i : ℕ) → a < b → 1 ≤ i →
        PARTS_OF_ONE * ((b - a) * a ^ (i - 1)) ≤ high_weight a b (Some i) * b ^ i }
{}

/// After 10^24 places less than one part of S is left.
pub fn long_tail_leaves_little()
    ensures { (top bottom n : ℕ) → IsPersistence top bottom → n ≡ 10 ^ 24 →
        PARTS_OF_ONE * top ^ n < bottom ^ n }
{}

/// The ends of rank-biased precision enclose S times the difference of two runs in every completion,
/// under all tails, and the difference of the least case with its tails is at most `least_hi`.
pub fn shares_enclose()
    ensures low { ForPersistence (λ top bottom marks a b. InEvery (Biased top bottom) marks a b
        (IsAtMost (biased_ends top bottom marks a b).least_lo PARTS_OF_ONE)) }
    ensures high { ForPersistence (λ top bottom marks a b. InEvery (Biased top bottom) marks a b
        (IsAtLeast (biased_ends top bottom marks a b).most_hi PARTS_OF_ONE)) }
    ensures case { ForPersistence (λ top bottom marks a b. (tail_a tail_b : List Bool) →
        HasLeastTails (Biased top bottom) tail_a tail_b →
        let truth = least_truth (Biased top bottom) marks a b in
        IsAtLeast (biased_ends top bottom marks a b).least_hi (10 ^ 18)
        (score (Biased top bottom) (length marks) truth a tail_a)
        (score (Biased top bottom) (length marks) truth b tail_b)) }
{}

/// The two ends of a least and of a greatest difference under rank-biased precision are in order.
/// Swapped runs have the swapped ends: least and greatest change places, and the ends of each are negated
/// and change places.
pub fn biased_ends_are_in_order()
    ensures least { ForPersistence (λ top bottom marks a b.
        (biased_ends top bottom marks a b).least_lo ≤ℤ
        (biased_ends top bottom marks a b).least_hi) }
    ensures most { ForPersistence (λ top bottom marks a b.
        (biased_ends top bottom marks a b).most_lo ≤ℤ (biased_ends top bottom marks a b).most_hi) }
    ensures mirror { ForPersistence (λ top bottom marks a b.
        let ends = biased_ends top bottom marks a b in
        biased_ends top bottom marks b a ≡ record {
          least_lo = neg_ℤ ends.most_hi;
          least_hi = neg_ℤ ends.most_lo;
          most_lo = neg_ℤ ends.least_hi;
          most_hi = neg_ℤ ends.least_lo;
        }) }
{}

/// The sums of weights enclose S times the score of one run in every completion, under all tails.
pub fn weights_enclose()
    ensures low { ForRun (λ top bottom marks a. InEveryScore (Biased top bottom) marks a
        (IsAtMostScore (pos (biased_bound_lo top bottom marks a)) PARTS_OF_ONE)) }
    ensures high { ForRun (λ top bottom marks a. InEveryScore (Biased top bottom) marks a
        (IsAtLeastScore (pos (biased_bound_hi top bottom marks a)) PARTS_OF_ONE)) }
{}

/// The sums of shares are at most `8 * (n_a + n_b + 1)^2` apart, for rankings of n_a and n_b
/// documents, and lie from -2*10^18 to 2*10^18. The bounds of one run are at most 10^18.
pub fn shares_are_narrow()
    ensures width { ForPersistence (λ top bottom marks a b.
        AreNear a b (biased_least_lo top bottom marks a b) (biased_least_hi top bottom marks a b)) }
    ensures low { ForPersistence (λ top bottom marks a b.
        IsModest (biased_least_lo top bottom marks a b)) }
    ensures high { ForPersistence (λ top bottom marks a b.
        IsModest (biased_least_hi top bottom marks a b)) }
    ensures bounds { ForRun (λ top bottom marks a.
        (biased_bound_lo top bottom marks a ≤ PARTS_OF_ONE) ×
        (biased_bound_hi top bottom marks a ≤ PARTS_OF_ONE)) }
{}

/// A unit is from 1 to 10^18. A weight is at most 10^18 and does not depend on the order of the runs.
pub fn units_and_weights_are_modest()
    ensures unit { (measure : MeasureName) → IsMeasure measure →
        (1 ≤ unit_of measure) × (unit_of measure ≤ PARTS_OF_ONE) }
    ensures weight { (measure : MeasureName) (marks : List Mark) (a b : List ℕ) (doc : ℕ) →
        IsMeasure measure → weight_of measure marks a b doc ≤ PARTS_OF_ONE }
    ensures even { (measure : MeasureName) (marks : List Mark) (a b : List ℕ) (doc : ℕ) →
        weight_of measure marks b a doc ≡ weight_of measure marks a b doc }
{}

/// The unit of `P_k` is k, and that of the other measures is 10^18.
pub fn units_are_known()
    ensures precision { (k : ℕ) → unit_of (Precision k) ≡ k }
    ensures recall { (k : ℕ) → unit_of (Recall k) ≡ PARTS_OF_ONE }
    ensures rprec { unit_of RPrecision ≡ PARTS_OF_ONE }
    ensures reciprocal { unit_of Reciprocal ≡ PARTS_OF_ONE }
    ensures biased { (top bottom : ℕ) → unit_of (Biased top bottom) ≡ PARTS_OF_ONE }
{}

/// Under reciprocal rank the share of a document at rank r is the greatest whole number w with
/// w * r at most 10^18, and that of an absent one is 0. Its weight in a pair is how far apart its
/// two shares are.
pub fn reciprocal_weight_is_known()
    ensures { (marks : List Mark) (a b : List ℕ) (doc : ℕ) → (v : ℕ) × (w : ℕ) ×
        MatchOption (rank a doc) (v ≡ 0) (λ r. (v * r ≤ PARTS_OF_ONE) ×
        (PARTS_OF_ONE < (v + 1) * r)) ×
        MatchOption (rank b doc) (w ≡ 0) (λ r. (w * r ≤ PARTS_OF_ONE) ×
        (PARTS_OF_ONE < (w + 1) * r)) ×
        (weight_of Reciprocal marks a b doc ≡ abs_diff v w) }
{}

/// The ends of a measure's name enclose unit times the difference in every completion.
pub fn named_ends_enclose()
    ensures low { (measure : MeasureName) (marks : List Mark) (a b : List ℕ) (ends : Ends) →
        IsMeasure measure → IsRanking (length marks) a → IsRanking (length marks) b →
        HasEnds measure marks a b ends →
        InEvery measure marks a b (IsAtMost ends.least_lo (unit_of measure)) }
    ensures high { (measure : MeasureName) (marks : List Mark) (a b : List ℕ) (ends : Ends) →
        IsMeasure measure → IsRanking (length marks) a → IsRanking (length marks) b →
        HasEnds measure marks a b ends →
        InEvery measure marks a b (IsAtLeast ends.most_hi (unit_of measure)) }
{}

/// In a completion unit times the difference is at most the upper end, with the tails of the least
/// case, and at least the lower end, with those of the most case.
pub fn ends_of_a_completion_hold()
    ensures upper { (measure : MeasureName) (universe : ℕ) (truth : ℕ → Bool) (a b : List ℕ) (z : ℤ)
        (tail_a tail_b : List Bool) → IsMeasure measure → IsRanking universe a →
        IsRanking universe b →
        IsUpperEnd measure universe truth a b z → HasLeastTails measure tail_a tail_b →
        IsAtLeast z (unit_of measure) (score measure universe truth a tail_a)
        (score measure universe truth b tail_b) }
    ensures lower { (measure : MeasureName) (universe : ℕ) (truth : ℕ → Bool) (a b : List ℕ) (z : ℤ)
        (tail_a tail_b : List Bool) → IsMeasure measure → IsRanking universe a →
        IsRanking universe b →
        IsLowerEnd measure universe truth a b z → HasLeastTails measure tail_b tail_a →
        IsAtMost z (unit_of measure) (score measure universe truth a tail_a)
        (score measure universe truth b tail_b) }
{}

/// The least case has the upper end of the least difference, and the most case, which is the least
/// case of the swapped runs, the lower end of the greatest. An upper end looks at the truth values of
/// the universe alone.
pub fn cases_have_the_ends()
    ensures least { (measure : MeasureName) (marks : List Mark) (a b : List ℕ) (ends : Ends) →
        IsMeasure measure → IsRanking (length marks) a → IsRanking (length marks) b →
        HasEnds measure marks a b ends →
        IsUpperEnd measure (length marks) (least_truth measure marks a b) a b ends.least_hi }
    ensures most { (measure : MeasureName) (marks : List Mark) (a b : List ℕ) (ends : Ends) →
        IsMeasure measure → IsRanking (length marks) a → IsRanking (length marks) b →
        HasEnds measure marks a b ends →
        IsLowerEnd measure (length marks) (least_truth measure marks b a) a b ends.most_lo }
    ensures universe { (measure : MeasureName) (universe : ℕ) (truth other : ℕ →
        Bool) (a b : List ℕ) (z : ℤ) →
        IsRanking universe a → IsRanking universe b →
        ((doc : ℕ) → doc < universe → truth doc ≡ other doc) →
        IsUpperEnd measure universe truth a b z → IsUpperEnd measure universe other a b z }
{}
