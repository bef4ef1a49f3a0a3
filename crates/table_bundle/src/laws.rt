//! Laws of the bundles of tables, each the contract of a function that does nothing.
ghost use Rattle.std.specs.Prelude.{◌≡◌, ℕ, List};
ghost use Rattle.desk_model.specs.Desk.{Desk, IsDesk, AreMarksOf};
ghost use Rattle.desk_model.specs.declared.types.Mark.{Mark};
ghost use Rattle.desk_model.specs.declared.types.MeasureName.{MeasureName};
ghost use Rattle.topic_counts.specs.declared.span.Span.{Span};
ghost use Rattle.measure_core.specs.Made.{HasEnds, AreNumbersOfName};
ghost use Rattle.measure_core.specs.declared.cell.Cell.{Cell};
ghost use Rattle.order_bundle.specs.Bundle.{Bundle};
ghost use Rattle.order_bundle.specs.Evidence.{ClaimsHold, IsBundleEvidence};
ghost use Rattle.pair_table.specs.Numbers.{HasCellEnds};
ghost use Rattle.table_bundle.specs.Bundles.{IsBundleOf};

/// A bundle by the cells of a measure whose numbers are a name's is a bundle by that name.
pub fn bundles_are_of_names()
    ensures { (name : MeasureName) (cell : List Mark → List ℕ → List ℕ → Cell) (bounds : List Mark →
        List ℕ → Span)
        (desk : Desk) (marks : List (List Mark)) (level : ℕ) (b : Bundle) →
        AreNumbersOfName name cell bounds → IsDesk desk → AreMarksOf desk marks →
        IsBundleOf (HasCellEnds cell) name desk marks level b →
        IsBundleOf (HasEnds name) name desk marks level b }
{}

/// The bundle of a table by a measure's name is evidence, and so all its claims hold.
pub fn bundles_are_evidence()
    ensures evidence { (name : MeasureName) (desk : Desk) (marks : List (List Mark)) (level : ℕ)
        (b : Bundle) →
        IsDesk desk → AreMarksOf desk marks →
        IsBundleOf (HasEnds name) name desk marks level b → IsBundleEvidence b desk marks }
    ensures claims { (name : MeasureName) (desk : Desk) (marks : List (List Mark)) (level : ℕ)
        (b : Bundle) →
        IsDesk desk → AreMarksOf desk marks →
        IsBundleOf (HasEnds name) name desk marks level b → ClaimsHold b desk marks }
{}

/// There is one bundle at most, by a measure's name and by the cells of any measure.
pub fn bundle_is_one()
    ensures names { (name : MeasureName) (desk : Desk) (marks : List (List Mark)) (level : ℕ)
        (a b : Bundle) →
        IsBundleOf (HasEnds name) name desk marks level a →
        IsBundleOf (HasEnds name) name desk marks level b → a ≡ b }
    ensures cells { (cell : List Mark → List ℕ → List ℕ →
        Cell) (name : MeasureName) (desk : Desk) (marks : List (List Mark)) (level : ℕ)
        (a b : Bundle) →
        IsBundleOf (HasCellEnds cell) name desk marks level a →
        IsBundleOf (HasCellEnds cell) name desk marks level b → a ≡ b }
{}
