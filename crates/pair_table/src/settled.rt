//! What is settled between the runs of a desk stays settled while more documents are judged: where
//! unjudged documents get a judgement and nothing else changes. It holds under each of the five
//! measures. Each law is the contract of a function that does nothing.
ghost use Rattle.std.specs.Prelude.{◌≡◌, ℕ, ◌≤ℤ◌, List, length};
ghost use Rattle.desk_model.specs.Ranking.{IsRanking};
ghost use Rattle.desk_model.specs.Desk.{Desk, topics_under};
ghost use Rattle.desk_model.specs.Order.{IsAlwaysAbove, AreAlwaysEqual};
ghost use Rattle.desk_model.specs.Verdict.{verdict};
ghost use Rattle.desk_model.specs.declared.types.Mark.{Mark};
ghost use Rattle.desk_model.specs.declared.types.MeasureName.{MeasureName};
ghost use Rattle.desk_model.specs.declared.types.Verdict.TheVariants.{Above, Below, Equal};
ghost use Rattle.topic_counts.specs.declared.span.Span.{Span};
ghost use Rattle.measure_laws.specs.Refinement.{AreRefinedBy};
ghost use Rattle.measure_core.specs.Made.{HasBounds};
ghost use Rattle.pair_table.specs.Refined.{AreAllRefinedBy, ForRefinedPairs, ForRefinedRuns};

/// A run whose mean is always above that of another stays always above it, and two means that are
/// always equal stay so.
pub fn settled_orders_stay()
    ensures above { (measure : MeasureName) (desk : Desk) (marks later : List (List Mark))
        (a b : ℕ) →
        AreAllRefinedBy marks later →
        IsAlwaysAbove measure (topics_under desk marks) a b →
        IsAlwaysAbove measure (topics_under desk later) a b }
    ensures equal { (measure : MeasureName) (desk : Desk) (marks later : List (List Mark))
        (a b : ℕ) →
        AreAllRefinedBy marks later →
        AreAlwaysEqual measure (topics_under desk marks) a b →
        AreAlwaysEqual measure (topics_under desk later) a b }
{}

/// The sums of two runs close in: the lower end of the least difference does not fall, and the upper
/// end of the greatest does not rise. So do the bounds of a run, on each topic and summed.
pub fn numbers_close_in()
    ensures least { ForRefinedPairs (λ before after. before.least_lo ≤ℤ after.least_lo) }
    ensures most { ForRefinedPairs (λ before after. after.most_hi ≤ℤ before.most_hi) }
    ensures topic { (name : MeasureName) (marks later : List Mark) (docs : List ℕ)
        (before after : Span) → IsRanking (length marks) docs →
        AreRefinedBy marks later → HasBounds name marks docs before →
        HasBounds name later docs after →
        (before.lo ≤ℤ after.lo) × (after.hi ≤ℤ before.hi) }
    ensures low { ForRefinedRuns (λ before after. before.lo ≤ℤ after.lo) }
    ensures high { ForRefinedRuns (λ before after. after.hi ≤ℤ before.hi) }
{}

/// A verdict of above, below or equal stays. Nothing is said of what an open or a close pair becomes.
pub fn settled_verdicts_stay()
    ensures above { ForRefinedPairs (λ before after. verdict before ≡ Above →
        verdict after ≡ Above) }
    ensures below { ForRefinedPairs (λ before after. verdict before ≡ Below →
        verdict after ≡ Below) }
    ensures equal { ForRefinedPairs (λ before after. verdict before ≡ Equal →
        verdict after ≡ Equal) }
{}
