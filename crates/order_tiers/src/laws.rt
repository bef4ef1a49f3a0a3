//! Laws of chains, tiers and covering pairs, each the contract of a function that does nothing.
ghost use Rattle.std.specs.Prelude.{◌≡◌, ◌⊎◌, ℕ, ◌+◌, ◌<◌, All, Bool, List, length};
ghost use Rattle.desk_model.specs.Desk.{Desk, IsDesk, AreMarksOf, topics_under};
ghost use Rattle.desk_model.specs.Extremes.{Ends};
ghost use Rattle.desk_model.specs.MeasureText.{IsMeasure};
ghost use Rattle.desk_model.specs.declared.types.Mark.{Mark};
ghost use Rattle.desk_model.specs.declared.types.MeasureName.{MeasureName};
ghost use Rattle.desk_model.specs.declared.types.MeasureName.TheVariants.{Precision};
ghost use Rattle.desk_model.specs.declared.types.Totals.{Totals};
ghost use Rattle.measure_laws.specs.Measures.{IsExactMeasure};
ghost use Rattle.measure_core.specs.Laws.{MeetsLaws};
ghost use Rattle.measure_core.specs.Made.{HasEnds, AreNumbersOfName};
ghost use Rattle.measure_core.specs.declared.cell.Cell.{Cell};
ghost use Rattle.pair_table.specs.Numbers.{HasCellEnds, AreAllPairNumbers};
ghost use Rattle.pair_table.specs.Refined.{AreAllRefinedBy};
ghost use Rattle.pair_table.specs.Sums.{all_pair_sums};
ghost use Rattle.topic_counts.specs.declared.span.Span.{Span};
ghost use Rattle.order_tiers.specs.Chains.{ByTest, IsCertifiedAbove, IsIrreflexive, IsAmongRuns, IsTransitive};
ghost use Rattle.order_tiers.specs.Holding.{ForNamed, ForMeasured, CertifiedHold, CertifiedIsExact, ChainsAddNoPair, CoverHolds, IsWonPair};
ghost use Rattle.order_tiers.specs.Order.{Ordered, compared, CoverIsWithin, IsCertifiedIn, IsOrderBy, IsOrderIn};
ghost use Rattle.order_tiers.specs.Tiers.{AreTiers};

/// Certified above is the least relation that leads on and holds of each pair. Which pairs there are is any test of two
/// runs.
pub fn chains_lead_on()
    ensures pairs { (above : ℕ → ℕ → Bool) (a b : ℕ) → ByTest above a b →
        IsCertifiedAbove (ByTest above) a b }
    ensures leads { (above : ℕ → ℕ → Bool) → IsTransitive (IsCertifiedAbove (ByTest above)) }
    ensures least { (above other : ℕ → ℕ → Bool) → IsTransitive (ByTest other) →
        ((a b : ℕ) → ByTest above a b → ByTest other a b) →
        (a b : ℕ) → IsCertifiedAbove (ByTest above) a b → ByTest other a b }
{}

/// Runs have one tier each.
pub fn tiers_are_one()
    ensures { (above : ℕ → ℕ → Bool) (runs : ℕ) (tier other : ℕ → ℕ) →
        AreTiers (IsCertifiedAbove (ByTest above)) runs tier →
        AreTiers (IsCertifiedAbove (ByTest above)) runs other →
        (b : ℕ) → b < runs → tier b ≡ other b }
{}

/// Numbers that rise along the pairs, each 1 or 1 more than that of a run directly above, are the tiers: direct pairs
/// alone give them too.
pub fn pairs_give_tiers()
    ensures { (above : ℕ → ℕ → Bool) (runs : ℕ) (tier : ℕ → ℕ) → IsAmongRuns (ByTest above) runs →
        ((a b : ℕ) → ByTest above a b → tier a < tier b) →
        ((b : ℕ) → b < runs → ((tier b ≡ 1) × ((a : ℕ) → ByTest above a b → ⊥)) ⊎
        ((a : ℕ) × ByTest above a b × (tier b ≡ tier a + 1))) →
        AreTiers (IsCertifiedAbove (ByTest above)) runs tier }
{}

/// The order of a table of a measure whose cells and bounds are a name's is the order by that name.
pub fn tables_have_named_orders()
    ensures { (name : MeasureName) (cell : List Mark → List ℕ → List ℕ → Cell) (bounds : List Mark →
        List ℕ → Span)
        (desk : Desk) (marks : List (List Mark)) (order : Ordered) →
        AreNumbersOfName name cell bounds → IsDesk desk → AreMarksOf desk marks →
        IsOrderBy (HasCellEnds cell)
        (compared desk marks (all_pair_sums cell (topics_under desk marks) (length desk.runs)))
        order →
        IsOrderIn name desk marks order }
{}

/// A measure's name, a desk and its marks have one order.
pub fn orders_are_one()
    ensures { (name : MeasureName) (desk : Desk) (marks : List (List Mark))
        (order other : Ordered) →
        IsOrderIn name desk marks order → IsOrderIn name desk marks other → order ≡ other }
{}

/// Where a run is certified above another, its mean is greater in every completion. So no run is certified above itself.
pub fn certified_orders_hold()
    ensures named { ForNamed CertifiedHold }
    ensures measured { ForMeasured CertifiedHold }
    ensures never_named { ForNamed (λ name t. IsIrreflexive (IsCertifiedIn t)) }
    ensures never_measured { ForMeasured (λ name t. IsIrreflexive (IsCertifiedIn t)) }
{}

/// Under precision a run is certified above another exactly where its mean is greater in every completion.
pub fn certified_is_exact()
    ensures { ForNamed (λ name t. (k : ℕ) → name ≡ Precision k → CertifiedIsExact name t) }
{}

/// A covering pair is of the desk's runs, and what it says is so: the first run's mean is greater in every completion, on each topic that it wins its
/// score is, and on each that it loses the second's.
pub fn covers_hold()
    ensures within { (name : MeasureName) (desk : Desk) (marks : List (List Mark))
        (order : Ordered) →
        IsOrderIn name desk marks order → All (CoverIsWithin (length desk.runs)) order.covers }
    ensures holds { (name : MeasureName) (desk : Desk) (marks : List (List Mark))
        (order : Ordered) →
        IsMeasure name → IsDesk desk → AreMarksOf desk marks → IsOrderIn name desk marks order →
        All (CoverHolds name (topics_under desk marks)) order.covers }
    ensures measured { (name : MeasureName) (cell : List Mark → List ℕ → List ℕ →
        Cell) (bounds : List Mark → List ℕ → Span)
        (desk : Desk) (marks : List (List Mark)) (order : Ordered) →
        IsMeasure name → MeetsLaws name cell bounds → IsDesk desk → AreMarksOf desk marks →
        IsOrderBy (HasCellEnds cell)
        (compared desk marks (all_pair_sums cell (topics_under desk marks) (length desk.runs)))
        order →
        All (CoverHolds name (topics_under desk marks)) order.covers }
{}

/// A covering pair has the verdict above itself, read from the first run's side, and wins at least one topic.
pub fn covers_are_won_pairs()
    ensures { (name : MeasureName) (desk : Desk) (marks : List (List Mark)) (totals : List Totals)
        (order : Ordered) →
        IsMeasure name → IsDesk desk → AreMarksOf desk marks →
        AreAllPairNumbers name desk marks totals →
        IsOrderBy (HasEnds name) (compared desk marks totals) order →
        All (IsWonPair (compared desk marks totals)) order.covers }
{}

/// For precision, recall, R-precision and reciprocal rank, whose ends are the extremes, least differences add up: a chain
/// of pairs that are above leads to a pair that is above itself.
pub fn chains_add_no_pair()
    ensures { ForNamed (λ name t. IsExactMeasure name → ChainsAddNoPair t) }
{}

/// A run that is certified above another stays so while more documents are judged: where unjudged documents get a
/// judgement and nothing else changes.
pub fn certified_stays()
    ensures { (name : MeasureName) (desk : Desk) (marks later : List (List Mark))
        (totals after : List Totals) (a b : ℕ) →
        IsMeasure name → IsDesk desk → AreMarksOf desk marks → AreAllRefinedBy marks later →
        AreAllPairNumbers name desk marks totals → AreAllPairNumbers name desk later after →
        IsCertifiedIn (compared desk marks totals) a b →
        IsCertifiedIn (compared desk later after) a b }
{}
