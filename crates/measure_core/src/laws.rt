//! Laws of measures, each the contract of a function that does nothing.
ghost use Rattle.std.specs.Prelude.{◌≡◌, ℕ, List};
ghost use Rattle.desk_model.specs.Extremes.{Ends};
ghost use Rattle.desk_model.specs.declared.types.Mark.{Mark};
ghost use Rattle.desk_model.specs.declared.types.MeasureName.{MeasureName};
ghost use Rattle.desk_model.specs.declared.types.MeasureName.TheVariants.{Precision};
ghost use Rattle.desk_model.specs.MeasureText.{IsMeasure};
ghost use Rattle.measure_laws.specs.Measures.{IsExactMeasure};
ghost use Rattle.topic_counts.specs.declared.span.Span.{Span};
ghost use Rattle.measure_core.specs.declared.cell.Cell.{Cell};
ghost use Rattle.measure_core.specs.Laws.{AreMet, MeetsLaws, OwesLaws};
ghost use Rattle.measure_laws.specs.Ends.{HasEnds};
ghost use Rattle.measure_core.specs.Made.{AreNumbersOfName, AreNarrow, HasWidth};
ghost use Rattle.measure_core.specs.Numbers.{exact_cell, exact_bounds};

/// A few laws of a measure give all of them.
pub fn few_laws_give_all()
    ensures { (measure : MeasureName) (cell : List Mark → List ℕ → List ℕ → Cell)
        (bounds : List Mark → List ℕ → Span) → IsMeasure measure →
        OwesLaws measure cell bounds → MeetsLaws measure cell bounds }
{}

/// The floors and ceilings of the least case meet the laws and are the numbers of precision, recall,
/// R-precision and reciprocal rank.
pub fn exact_numbers_meet_laws()
    ensures laws { (measure : MeasureName) → IsMeasure measure → IsExactMeasure measure →
        MeetsLaws measure (exact_cell measure) (exact_bounds measure) }
    ensures numbers { (measure : MeasureName) → IsMeasure measure → IsExactMeasure measure →
        AreNumbersOfName measure (exact_cell measure) (exact_bounds measure) }
{}

/// The two ends of a least or of a greatest difference are at most one unit apart, under
/// rank-biased precision at most `8 * (n_a + n_b + 1)^2` units, for rankings of n_a and n_b
/// documents, and under precision they are one number.
pub fn ends_are_narrow()
    ensures width { (measure : MeasureName) (marks : List Mark) (a b : List ℕ) (ends : Ends) →
        IsMeasure measure → HasWidth measure → AreMet marks a b → HasEnds measure marks a b ends →
        AreNarrow measure a b ends }
    ensures precision { (k : ℕ) (marks : List Mark) (a b : List ℕ) (ends : Ends) →
        IsMeasure (Precision k) → AreMet marks a b → HasEnds (Precision k) marks a b ends →
        (ends.least_lo ≡ ends.least_hi) × (ends.most_lo ≡ ends.most_hi) }
{}
