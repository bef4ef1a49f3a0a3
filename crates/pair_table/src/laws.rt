//! Laws of tables, each the contract of a function that does nothing.
ghost use Rattle.std.specs.Prelude.{◌≡◌, ◌≢◌, ◌<◌, ℕ, List, length, slice_set};
ghost use Rattle.desk_model.specs.Desk.{Desk, IsDesk, AreMarksOf, topics_under};
ghost use Rattle.desk_model.specs.Enclosure.{AreExactEnds};
ghost use Rattle.desk_model.specs.Order.{Topic};
ghost use Rattle.desk_model.specs.Verdict.{verdict, IsExactVerdict};
ghost use Rattle.desk_model.specs.declared.types.Mark.{Mark};
ghost use Rattle.desk_model.specs.declared.types.MeasureName.{MeasureName};
ghost use Rattle.desk_model.specs.declared.types.MeasureName.TheVariants.{Precision};
ghost use Rattle.desk_model.specs.declared.types.Totals.{Totals};
ghost use Rattle.desk_model.specs.declared.types.Verdict.TheVariants.{Close};
ghost use Rattle.topic_counts.specs.declared.span.Span.{Span};
ghost use Rattle.desk_model.specs.MeasureText.{IsMeasure};
ghost use Rattle.measure_laws.specs.Measures.{IsExactMeasure};
ghost use Rattle.measure_core.specs.Laws.{MeetsLaws};
ghost use Rattle.measure_core.specs.Made.{AreNumbersOfName, HasWidth};
ghost use Rattle.measure_core.specs.declared.cell.Cell.{Cell};
ghost use Rattle.pair_table.specs.Sums.{cell_ends, pair_sums, run_sums, all_pair_sums, all_run_sums};
ghost use Rattle.pair_table.specs.Kept.{Kept, AreSumsOf, StandsFor, StandsElsewhere};
ghost use Rattle.pair_table.specs.Numbers.{AreNumbersIn};
ghost use Rattle.pair_table.specs.Orders.{HoldsOfPair, HoldsOfRun, total_width, IsNearZero, ForEachPair, ForTwoRuns, ForEachRun};

use measure_core::Measure;

/// A table of a measure whose cells and bounds are a name's has the numbers of that name.
pub fn tables_have_named_numbers()
    ensures { (name : MeasureName) (cell : List Mark → List ℕ → List ℕ → Cell) (bounds : List Mark →
        List ℕ → Span)
        (desk : Desk) (marks : List (List Mark)) → AreNumbersOfName name cell bounds → IsDesk desk →
        AreMarksOf desk marks →
        AreNumbersIn name desk marks
        (all_run_sums bounds (topics_under desk marks) (length desk.runs))
        (all_pair_sums cell (topics_under desk marks) (length desk.runs)) }
{}

/// The name fixes the numbers: a desk and its marks have one list of bounds and one of sums under a
/// measure's name.
pub fn numbers_are_one()
    ensures { (name : MeasureName) (desk : Desk) (marks : List (List Mark)) (b c : List Span)
        (t u : List Totals) →
        AreNumbersIn name desk marks b t → AreNumbersIn name desk marks c u → (b ≡ c) × (t ≡ u) }
{}

/// A verdict that is not open or close holds in every completion, and the sums enclose unit times
/// topics times the difference of two means, and the bounds that of one mean.
pub fn numbers_hold_in_every_completion()
    ensures pairs { ForEachPair HoldsOfPair }
    ensures runs { ForEachRun HoldsOfRun }
{}

/// The same of the numbers of any two different runs, in either order: they hold in every completion,
/// and under precision their verdict says exactly what always holds.
pub fn numbers_of_two_runs_hold()
    ensures sums { ForTwoRuns HoldsOfPair }
    ensures exact { ForTwoRuns (λ name topics a b sums.
        (k : ℕ) → name ≡ Precision k → IsExactVerdict name topics a b (verdict sums)) }
{}

/// The same of the sums of a measure that meets its laws, for any two different runs and for each run.
pub fn sums_of_a_measure_hold()
    ensures pairs { (name : MeasureName) (cell : List Mark → List ℕ → List ℕ →
        Cell) (bounds : List Mark → List ℕ → Span)
        (desk : Desk) (marks : List (List Mark)) (a b : ℕ) →
        IsMeasure name → MeetsLaws name cell bounds → IsDesk desk → AreMarksOf desk marks →
        a ≢ b → a < length desk.runs → b < length desk.runs →
        HoldsOfPair name (topics_under desk marks) a b
        (pair_sums cell (topics_under desk marks) a b) }
    ensures runs { (name : MeasureName) (cell : List Mark → List ℕ → List ℕ →
        Cell) (bounds : List Mark → List ℕ → Span)
        (desk : Desk) (marks : List (List Mark)) (run : ℕ) →
        IsMeasure name → MeetsLaws name cell bounds → IsDesk desk → AreMarksOf desk marks →
        run < length desk.runs →
        HoldsOfRun name (topics_under desk marks) run
        (run_sums bounds (topics_under desk marks) run) }
{}

/// Where the cells of two different runs are the extremes, and the two ends of each are one number, a
/// verdict says exactly what always holds, and is never close.
pub fn whole_cells_decide_exactly()
    ensures { (name : MeasureName) (unit : ℕ) (cell : List Mark → List ℕ → List ℕ →
        Cell) (topics : List Topic) (a b : ℕ) →
        0 < unit → a ≢ b → AreExactEnds name unit topics a b (cell_ends cell topics a b) →
        IsExactVerdict name topics a b (verdict (pair_sums cell topics a b)) }
{}

/// Under precision a verdict says exactly what always holds, and is never close.
pub fn precision_is_exact()
    ensures { ForEachPair (λ name topics a b sums.
        (k : ℕ) → name ≡ Precision k → IsExactVerdict name topics a b (verdict sums)) }
{}

/// A verdict is close only where a sum is near zero: for precision, recall, R-precision and reciprocal
/// rank by the number of topics at most, and for rank-biased precision by `8 * (n_a + n_b + 1)^2` for
/// each topic, where the rankings have n_a and n_b documents.
pub fn close_is_near_zero()
    ensures near { ForEachPair (λ name topics a b sums. HasWidth name → verdict sums ≡ Close →
        IsNearZero (total_width name topics a b) sums) }
    ensures exact { ForEachPair (λ name topics a b sums. IsExactMeasure name →
        verdict sums ≡ Close → IsNearZero (length topics) sums) }
{}

/// The sums of two runs in a table of a measure that meets its laws are those of its cells, in either
/// order of the runs.
pub fn sums_are_exact_in_both_orders()
    ensures { (name : MeasureName) (cell : List Mark → List ℕ → List ℕ → Cell) (bounds : List Mark →
        List ℕ → Span)
        (desk : Desk) (marks : List (List Mark)) (i j : ℕ) (sums : Totals) →
        MeetsLaws name cell bounds → IsDesk desk → AreMarksOf desk marks →
        AreSumsOf (length desk.runs)
        (all_pair_sums cell (topics_under desk marks) (length desk.runs)) i j sums →
        sums ≡ pair_sums cell (topics_under desk marks) i j }
{}

/// A table that stands for a desk under marks is the one that is made anew: two tables of one measure that
/// stand for the same keep the same cells, bounds and sums, whatever changes they took over.
pub fn standing_tables_are_one<M: Measure>()
    ensures { (desk : Desk) (marks : List (List Mark)) (table other : Kept M) →
        table.measure ≡ other.measure →
        StandsFor (M.cell_of table.measure) (M.bounds_of table.measure) desk marks table →
        StandsFor (M.cell_of other.measure) (M.bounds_of other.measure) desk marks other →
        table ≡ other }
{}

/// Where the marks of one topic change, all that a table keeps of every other topic stays that of the marks.
pub fn other_topics_stay<M: Measure>()
    ensures { (desk : Desk) (marks : List (List Mark)) (topic : ℕ) (row : List Mark)
        (table : Kept M) → AreMarksOf desk marks →
        StandsFor (M.cell_of table.measure) (M.bounds_of table.measure) desk marks table →
        StandsElsewhere (M.cell_of table.measure) (M.bounds_of table.measure) desk
        (slice_set marks topic row) topic table }
{}
