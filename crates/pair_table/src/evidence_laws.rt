//! Laws of the certificates that a table answers, each the contract of a function that does nothing.
ghost use Rattle.std.specs.Prelude.{◌≡◌, ◌≢◌, ◌<◌, ℕ, List, length, Result, Err};
ghost use Rattle.desk_model.specs.Desk.{Desk, IsDesk, AreMarksOf};
ghost use Rattle.desk_model.specs.MeasureText.{IsMeasure};
ghost use Rattle.desk_model.specs.declared.types.Mark.{Mark};
ghost use Rattle.desk_model.specs.declared.types.MeasureName.{MeasureName};
ghost use Rattle.topic_counts.specs.declared.span.Span.{Span};
ghost use Rattle.measure_core.specs.Made.{HasEnds, AreNumbersOfName};
ghost use Rattle.measure_core.specs.declared.cell.Cell.{Cell};
ghost use Rattle.order_certificate.specs.Claim.{ClaimHolds};
ghost use Rattle.order_certificate.specs.Evidence.{IsEvidence};
ghost use Rattle.order_certificate.specs.declared.certificate.Certificate.{Certificate};
ghost use Rattle.pair_table.specs.Evidence.{IsCertificateOf, IsAnswered};
ghost use Rattle.pair_table.specs.Numbers.{HasCellEnds};
ghost use Rattle.pair_table.specs.declared.evidence.EvidenceFault.{EvidenceFault};
ghost use Rattle.pair_table.specs.declared.evidence.EvidenceFault.TheVariants.{Memory};

/// An answer by the cells of a measure whose numbers are a name's is an answer by that name.
pub fn answers_are_of_names()
    ensures { (name : MeasureName) (cell : List Mark → List ℕ → List ℕ → Cell) (bounds : List Mark →
        List ℕ → Span)
        (desk : Desk) (marks : List (List Mark)) (level a b : ℕ)
        (answer : Result Certificate EvidenceFault) →
        AreNumbersOfName name cell bounds → IsDesk desk → AreMarksOf desk marks →
        a < length desk.runs → b < length desk.runs →
        IsAnswered (HasCellEnds cell) name desk marks level a b answer →
        IsAnswered (HasEnds name) name desk marks level a b answer }
{}

/// The certificate of two runs by a measure's name is evidence, and so what it claims holds.
pub fn certificates_are_evidence()
    ensures evidence { (name : MeasureName) (desk : Desk) (marks : List (List Mark)) (level a b : ℕ)
        (c : Certificate) →
        IsMeasure name → IsDesk desk → AreMarksOf desk marks →
        a ≢ b → a < length desk.runs → b < length desk.runs →
        IsCertificateOf (HasEnds name) name desk marks level a b c → IsEvidence c desk marks }
    ensures claim { (name : MeasureName) (desk : Desk) (marks : List (List Mark)) (level a b : ℕ)
        (c : Certificate) →
        IsMeasure name → IsDesk desk → AreMarksOf desk marks →
        a ≢ b → a < length desk.runs → b < length desk.runs →
        IsCertificateOf (HasEnds name) name desk marks level a b c → ClaimHolds c desk marks }
{}

/// Two runs have one answer by a measure's name, memory aside: so their sums come in place of a
/// certificate exactly where the verdict is close.
pub fn answer_is_one()
    ensures { (name : MeasureName) (desk : Desk) (marks : List (List Mark)) (level a b : ℕ)
        (answer other : Result Certificate EvidenceFault) →
        IsAnswered (HasEnds name) name desk marks level a b answer →
        IsAnswered (HasEnds name) name desk marks level a b other →
        answer ≢ Err Memory → other ≢ Err Memory → answer ≡ other }
{}
