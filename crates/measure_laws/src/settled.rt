//! What stays settled while more documents are judged. Marks are refined where some unjudged documents
//! get a judgement and nothing else changes. Each law is the contract of a function that does nothing.
ghost use Rattle.std.specs.Prelude.{ℕ, ◌≤◌, ◌≤ℤ◌, List, length, ℤ};
ghost use Rattle.desk_model.specs.Completion.{Completion};
ghost use Rattle.desk_model.specs.Extremes.{Ends, AreBounds};
ghost use Rattle.desk_model.specs.MeasureText.{IsMeasure};
ghost use Rattle.desk_model.specs.Order.{Topic, IsCompletion, IsAlwaysAbove, AreAlwaysEqual};
ghost use Rattle.desk_model.specs.Ranking.{IsRanking};
ghost use Rattle.desk_model.specs.declared.types.Mark.{Mark};
ghost use Rattle.desk_model.specs.declared.types.MeasureName.{MeasureName};
ghost use Rattle.measure_laws.specs.Candidates.{average_bound_lo, average_bound_hi};
ghost use Rattle.measure_laws.specs.Ends.{HasEnds};
ghost use Rattle.measure_laws.specs.Refinement.{AreRefinedBy, AreTopicsRefinedBy};
ghost use Rattle.measure_laws.specs.Shares.{biased_bound_lo, biased_bound_hi};

/// Every completion of refined marks is one of the marks before. So a run whose mean is always above
/// that of another stays always above it, and two means that are always equal stay so.
pub fn always_stays_always()
    ensures completion { (topics later : List Topic) (cs : List Completion) →
        AreTopicsRefinedBy topics later → IsCompletion later cs → IsCompletion topics cs }
    ensures above { (measure : MeasureName) (topics later : List Topic) (a b : ℕ) →
        AreTopicsRefinedBy topics later → IsAlwaysAbove measure topics a b →
        IsAlwaysAbove measure later a b }
    ensures equal { (measure : MeasureName) (topics later : List Topic) (a b : ℕ) →
        AreTopicsRefinedBy topics later → AreAlwaysEqual measure topics a b →
        AreAlwaysEqual measure later a b }
{}

/// Under refined marks the outer ends that a measure's name has for two rankings close in: the lower
/// end of their least difference does not fall, and the upper end of their greatest does not rise.
/// Under any marks the first is at most the second.
pub fn ends_close_in()
    ensures least { (measure : MeasureName) (marks later : List Mark) (a b : List ℕ)
        (before after : Ends) →
        IsMeasure measure → IsRanking (length marks) a → IsRanking (length marks) b →
        AreRefinedBy marks later →
        HasEnds measure marks a b before → HasEnds measure later a b after →
        before.least_lo ≤ℤ after.least_lo }
    ensures most { (measure : MeasureName) (marks later : List Mark) (a b : List ℕ)
        (before after : Ends) →
        IsMeasure measure → IsRanking (length marks) a → IsRanking (length marks) b →
        AreRefinedBy marks later →
        HasEnds measure marks a b before → HasEnds measure later a b after →
        after.most_hi ≤ℤ before.most_hi }
    ensures order { (measure : MeasureName) (marks : List Mark) (a b : List ℕ) (ends : Ends) →
        IsMeasure measure → IsRanking (length marks) a → IsRanking (length marks) b →
        HasEnds measure marks a b ends → ends.least_lo ≤ℤ ends.most_hi }
{}

/// Under refined marks the bounds of a run close in: the lower does not fall and the upper does not
/// rise. Those of rank-biased precision are sums of weights, and those of average precision averages of candidates.
pub fn bounds_close_in()
    ensures exact { (measure : MeasureName) (unit : ℕ) (marks later : List Mark) (a : List ℕ)
        (lo hi lo' hi' : ℤ) →
        AreRefinedBy marks later → AreBounds measure unit marks a lo hi →
        AreBounds measure unit later a lo' hi' →
        (lo ≤ℤ lo') × (hi' ≤ℤ hi) }
    ensures biased { (top bottom : ℕ) (marks later : List Mark) (a : List ℕ) →
        AreRefinedBy marks later →
        (biased_bound_lo top bottom marks a ≤ biased_bound_lo top bottom later a)
        × (biased_bound_hi top bottom later a ≤ biased_bound_hi top bottom marks a) }
    ensures average { (marks later : List Mark) (a : List ℕ) → AreRefinedBy marks later →
        IsRanking (length marks) a →
        (average_bound_lo marks a ≤ average_bound_lo later a) ×
        (average_bound_hi later a ≤ average_bound_hi marks a) }
{}
