//! Laws of rank-biased precision by grades, each the contract of a function that does nothing.
ghost use Rattle.std.specs.Prelude.{◌≡◌, ℕ, ◌<◌, ◌≤◌, nat_le, List, length, map, count_by, slice_get, Some, [], ◌∷◌, pos, negsuc};
ghost use Rattle.desk_model.specs.Desk.{Desk};
ghost use Rattle.desk_model.specs.Fraction.{IsSame, mean};
ghost use Rattle.desk_model.specs.Order.{run_score};
ghost use Rattle.desk_model.specs.Ranking.{IsRanking};
ghost use Rattle.desk_model.specs.declared.types.Totals.{Totals};
ghost use Rattle.pair_table.specs.Kept.{AreSumsOf};
ghost use Rattle.pair_table.specs.Sums.{swapped_totals};
ghost use Rattle.topic_counts.specs.declared.span.Span.{Span};
ghost use Rattle.graded_rbp.specs.Example.{two_grades, half};
ghost use Rattle.graded_rbp.specs.Grades.{GradedTopic, GradedCompletion, graded_topics, CompletesGrades, IsGradedCompletion};
ghost use Rattle.graded_rbp.specs.Kept.{KeptByGrades, StandsByGrades};
ghost use Rattle.graded_rbp.specs.Levels.{levels, level_topic, level_completion};
ghost use Rattle.graded_rbp.specs.Numbers.{graded_totals, graded_bounds};
ghost use Rattle.graded_rbp.specs.Orders.{HoldsByGrades, HoldsOfRunByGrades, ForTwoRunsByGrades, ForEachRunByGrades};
ghost use Rattle.graded_rbp.specs.Score.{GradedMeasure, IsGradedMeasure, binary, graded_score};

/// A number up to the greatest is how many levels it reaches. So a score by grades is the mean of the scores at each
/// level.
pub fn grades_are_levels()
    ensures gain { (greatest number : ℕ) → number ≤ greatest →
        count_by (λ level. nat_le level number) (levels greatest) ≡ number }
    ensures score { (m : GradedMeasure) (run : ℕ) (topic : GradedTopic) (c : GradedCompletion) →
        IsGradedMeasure m →
        CompletesGrades m.greatest topic c → IsRanking (length topic.grades) (topic.ranking run) →
        IsSame (graded_score m run topic c)
        (mean (map (λ level. run_score (binary m) run (level_topic level topic)
        (level_completion level c)) (levels m.greatest))) }
{}

/// There is always a completion by grades.
pub fn graded_completion_exists()
    ensures { (m : GradedMeasure) (topics : List GradedTopic) →
        (cs : List GradedCompletion) × IsGradedCompletion m.greatest topics cs }
{}

/// The numbers by grades of any two different runs of a desk, in either order, and of each run, hold in every completion
/// by grades.
pub fn numbers_hold_by_grades()
    ensures pairs { ForTwoRunsByGrades HoldsByGrades }
    ensures runs { ForEachRunByGrades HoldsOfRunByGrades }
{}

/// The sums of swapped runs are the swapped sums. A table with the numbers of a desk answers the sums of any two runs, in
/// either order, and the bounds of each.
pub fn tables_answer_by_grades()
    ensures swapped { (m : GradedMeasure) (a b : ℕ) (topics : List GradedTopic) →
        graded_totals m b a topics ≡ swapped_totals (graded_totals m a b topics) }
    ensures sums { (m : GradedMeasure) (desk : Desk) (table : KeptByGrades) (i j : ℕ)
        (sums : Totals) →
        StandsByGrades m desk table → AreSumsOf table.runs table.totals i j sums →
        sums ≡ graded_totals m i j (graded_topics desk) }
    ensures bounds { (m : GradedMeasure) (desk : Desk) (table : KeptByGrades) (i : ℕ) (s : Span) →
        StandsByGrades m desk table → slice_get table.bounds i ≡ Some s →
        s ≡ graded_bounds m i (graded_topics desk) }
{}

/// The numbers of one topic with two judged documents of grades 2 and 1, each ranked by one run, where the persistence
/// is a half and numbers go up to 2.
pub fn numbers_of_two_grades()
    ensures totals { graded_totals half 0 1 (two_grades ∷ []) ≡
        record {
          least_lo = negsuc 499999999999999999;
          least_hi = negsuc 499999999999999997;
          most_lo
              = pos 1499999999999999998;
          most_hi = pos 1500000000000000000;
        } }
    ensures first { graded_bounds half 0 (two_grades ∷ []) ≡
        record { lo = pos 1000000000000000000; hi = pos 2000000000000000000 } }
    ensures second { graded_bounds half 1 (two_grades ∷ []) ≡
        record { lo = pos 500000000000000000; hi = pos 1500000000000000000 } }
{}
