//! Laws of completions and of what a depth closes, each the contract of a function that does nothing.
ghost use Rattle.std.specs.Prelude.{◌≡◌, ◌↔◌, ℕ, ◌*◌, ◌<◌, ◌≤◌, true, false, All, List, [], length, slice_get, slice_set, slice_index_or, Option, Some, ℤ, pos, ◌≤ℤ◌, ◌<ℤ◌};
ghost use Rattle.desk_model.specs.Book.{Book};
ghost use Rattle.desk_model.specs.Closing.{closed, closed_under, is_within};
ghost use Rattle.desk_model.specs.Graded.{is_in_pools, mark_within, pools_of};
ghost use Rattle.desk_model.specs.Mark.{mark_of};
ghost use Rattle.desk_model.specs.Limits.{DOCUMENT_LIMIT};
ghost use Rattle.desk_model.specs.Completion.{Completion};
ghost use Rattle.desk_model.specs.Desk.{Desk, IsDesk, AreMarksOf, topics_under};
ghost use Rattle.desk_model.specs.Ranking.{IsRanking};
ghost use Rattle.desk_model.specs.Fraction.{IsAtMost, IsAtLeast};
ghost use Rattle.desk_model.specs.Order.{Topic, IsCompletion, run_mean, IsAlwaysAbove, AreAlwaysEqual};
ghost use Rattle.desk_model.specs.Extremes.{IsAtMostScore, IsAtLeastScore, AreExtremes, AreBounds};
ghost use Rattle.desk_model.specs.Enclosure.{AreLowEnds, AreHighEnds, AreLowBounds, AreHighBounds};
ghost use Rattle.desk_model.specs.Verdict.{whole_sum, verdict, ForExactEnds, IsExactVerdict};
ghost use Rattle.desk_model.specs.Classes.{precision_ends, prefix_count};
ghost use Rattle.desk_model.specs.declared.types.Mark.{Mark};
ghost use Rattle.desk_model.specs.declared.types.Mark.TheVariants.{Unjudged};
ghost use Rattle.desk_model.specs.declared.types.MeasureName.{MeasureName};
ghost use Rattle.desk_model.specs.declared.types.MeasureName.TheVariants.{Precision};

/// There is always a completion of the judgements.
pub fn completion_exists()
    ensures { (topics : List Topic) → (cs : List Completion) × IsCompletion topics cs }
{}

/// The order of two means from ends of each topic's difference, for every measure: lower ends with a
/// positive sum put a above b, upper ends with a negative sum put b above a, and lower ends with a
/// sum from 0 and upper ends with a sum to 0 make the two equal, in every completion.
pub fn sums_decide_order()
    ensures above { (measure : MeasureName) (unit a b : ℕ) (topics : List Topic) (lows : List ℤ) →
        AreLowEnds measure unit topics a b lows →
        pos 0 <ℤ whole_sum lows → IsAlwaysAbove measure topics a b }
    ensures below { (measure : MeasureName) (unit a b : ℕ) (topics : List Topic) (highs : List ℤ) →
        AreHighEnds measure unit topics a b highs →
        whole_sum highs <ℤ pos 0 → IsAlwaysAbove measure topics b a }
    ensures equal { (measure : MeasureName) (unit a b : ℕ) (topics : List Topic)
        (lows highs : List ℤ) →
        0 < unit → AreLowEnds measure unit topics a b lows →
        AreHighEnds measure unit topics a b highs →
        pos 0 ≤ℤ whole_sum lows → whole_sum highs ≤ℤ pos 0 → AreAlwaysEqual measure topics a b }
{}

/// The sum of lower ends is at most, and the sum of upper ends at least, unit times the number of
/// topics times the difference of two means, in every completion.
pub fn sums_enclose_difference()
    ensures low { (measure : MeasureName) (unit a b : ℕ) (topics : List Topic) (lows : List ℤ) →
        AreLowEnds measure unit topics a b lows → (cs : List Completion) → IsCompletion topics cs →
        IsAtMost (whole_sum lows) (unit * length topics)
        (run_mean measure a topics cs) (run_mean measure b topics cs) }
    ensures high { (measure : MeasureName) (unit a b : ℕ) (topics : List Topic) (highs : List ℤ) →
        AreHighEnds measure unit topics a b highs → (cs : List Completion) →
        IsCompletion topics cs →
        IsAtLeast (whole_sum highs) (unit * length topics)
        (run_mean measure a topics cs) (run_mean measure b topics cs) }
{}

/// The sum of lower bounds is at most, and the sum of upper bounds at least, unit times the number of
/// topics times the mean of one run, in every completion.
pub fn sums_enclose_mean()
    ensures low { (measure : MeasureName) (unit run : ℕ) (topics : List Topic) (lows : List ℤ) →
        AreLowBounds measure unit topics run lows → (cs : List Completion) →
        IsCompletion topics cs →
        IsAtMostScore (whole_sum lows) (unit * length topics) (run_mean measure run topics cs) }
    ensures high { (measure : MeasureName) (unit run : ℕ) (topics : List Topic) (highs : List ℤ) →
        AreHighBounds measure unit topics run highs → (cs : List Completion) →
        IsCompletion topics cs →
        IsAtLeastScore (whole_sum highs) (unit * length topics) (run_mean measure run topics cs) }
{}

/// Where the extremes of each topic are whole numbers of units, the signs of their sums say exactly
/// what always holds of two different runs, and so does the verdict, which is never close.
pub fn exact_ends_decide_order()
    ensures above { ForExactEnds (λ measure topics a b sums.
        (pos 0 <ℤ sums.least_lo) ↔ IsAlwaysAbove measure topics a b) }
    ensures below { ForExactEnds (λ measure topics a b sums.
        (sums.most_hi <ℤ pos 0) ↔ IsAlwaysAbove measure topics b a) }
    ensures equal { ForExactEnds (λ measure topics a b sums.
        ((sums.least_lo ≡ pos 0) × (sums.most_hi ≡ pos 0)) ↔ AreAlwaysEqual measure topics a b) }
    ensures verdict { ForExactEnds (λ measure topics a b sums.
        IsExactVerdict measure topics a b (verdict sums)) }
{}

/// Under precision the extremes of a topic and the bounds of a run are counts of documents, each
/// attained in a completion.
pub fn precision_is_counted()
    ensures extremes { (k : ℕ) (marks : List Mark) (a b : List ℕ) → 0 < k →
        IsRanking (length marks) a → IsRanking (length marks) b →
        AreExtremes (Precision k) k marks a b (precision_ends k marks a b) }
    ensures bounds { (k : ℕ) (marks : List Mark) (a : List ℕ) → 0 < k → IsRanking (length marks) a →
        AreBounds (Precision k) k marks a (pos (prefix_count false k marks a))
        (pos (prefix_count true k marks a)) }
{}

/// There are as many topics under marks as topics of the desk, each has a universe of at most
/// 25,000,000 documents, and each run's rankings of them are over their universes.
pub fn rankings_are_over_universes()
    ensures topics { (desk : Desk) (marks : List (List Mark)) → AreMarksOf desk marks →
        length (topics_under desk marks) ≡ length desk.topics }
    ensures small { (desk : Desk) (marks : List (List Mark)) → IsDesk desk → AreMarksOf desk marks →
        All (λ topic. length topic.marks ≤ DOCUMENT_LIMIT) (topics_under desk marks) }
    ensures rankings { (desk : Desk) (marks : List (List Mark)) (run : ℕ) → IsDesk desk →
        AreMarksOf desk marks →
        run < length desk.runs →
        All (λ topic. IsRanking (length topic.marks) (topic.ranking run))
        (topics_under desk marks) }
{}

/// Closing keeps each topic and each document: what were marks of a desk still are.
pub fn closing_keeps_documents()
    ensures topics { (desk : Desk) (depth : Option ℕ) (marks : List (List Mark)) →
        length (closed_under desk depth marks) ≡ length marks }
    ensures docs { (desk : Desk) (depth : Option ℕ) (marks : List (List Mark)) (topic : ℕ) →
        length (slice_index_or (closed_under desk depth marks) topic []) ≡
        length (slice_index_or marks topic []) }
    ensures marks { (desk other : Desk) (depth : Option ℕ) (marks : List (List Mark)) →
        AreMarksOf desk marks → AreMarksOf desk (closed_under other depth marks) }
{}

/// To give one document another mark and then to close is to close and then to give it that mark, closed.
pub fn one_mark_is_closed()
    ensures { (desk : Desk) (depth : Option ℕ) (marks : List (List Mark)) (topic doc : ℕ)
        (mark : Mark) →
        closed_under desk depth
        (slice_set marks topic (slice_set (slice_index_or marks topic []) doc mark))
        ≡ slice_set (closed_under desk depth marks) topic
        (slice_set (slice_index_or (closed_under desk depth marks) topic []) doc
        (closed (is_within desk depth topic doc) mark)) }
{}

/// What a depth closes is fixed by the rankings: no judgement changes it.
pub fn closing_is_by_rankings()
    ensures { (desk other : Desk) (depth : Option ℕ) (marks : List (List Mark)) →
        other.rankings ≡ desk.rankings →
        closed_under other depth marks ≡ closed_under desk depth marks }
{}

/// A document that is unjudged under a depth is in the pool, and has no judgement.
pub fn open_documents_are_pooled()
    ensures { (desk : Desk) (depth : Option ℕ) (marks : List (List Mark)) (topic doc : ℕ) →
        slice_get (slice_index_or (closed_under desk depth marks) topic []) doc ≡ Some Unjudged →
        (is_within desk depth topic doc ≡ true) ×
        (slice_get (slice_index_or marks topic []) doc ≡ Some Unjudged) }
{}

/// Whether a document is in the pool is told by the pools of a desk: each of their answers is that of the desk.
pub fn pools_are_of_the_desk()
    ensures { (desk : Desk) (depth : Option ℕ) (topic doc : ℕ) (book : Book) →
        slice_get desk.topics topic ≡ Some book → doc < length book.docs →
        is_in_pools (pools_of desk depth) topic doc ≡ is_within desk depth topic doc }
{}

/// To give a document the mark of a grade by the pools is to give it the mark of the grade, and then to close.
pub fn judging_keeps_closing()
    ensures { (desk : Desk) (depth : Option ℕ) (marks : List (List Mark)) (topic doc : ℕ)
        (book : Book) (grade : Option ℤ) (level : ℕ) →
        slice_get desk.topics topic ≡ Some book → doc < length book.docs →
        slice_set (closed_under desk depth marks) topic
        (slice_set (slice_index_or (closed_under desk depth marks) topic []) doc
        (mark_within grade level (is_in_pools (pools_of desk depth) topic doc)))
        ≡ closed_under desk depth
        (slice_set marks topic
        (slice_set (slice_index_or marks topic []) doc (mark_of grade level))) }
{}
