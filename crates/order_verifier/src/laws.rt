//! Laws of what the verifier answers, each the contract of a function that does nothing.
ghost use Rattle.std.specs.Prelude.{◌≡◌, ℕ, List, Result};
ghost use Rattle.desk_model.specs.Desk.{Desk};
ghost use Rattle.desk_model.specs.declared.types.Mark.{Mark};
ghost use Rattle.order_certificate.specs.Evidence.{IsEvidence};
ghost use Rattle.order_certificate.specs.PlaceLines.{OfLine, SaysPlace};
ghost use Rattle.order_certificate.specs.declared.certificate.Certificate.{Certificate};
ghost use Rattle.order_certificate.specs.declared.place.CertificatePlace.{CertificatePlace};
ghost use Rattle.order_verifier.specs.Refusal.{HasWrongDocument, IsWrongName};
ghost use Rattle.order_verifier.specs.Verified.{IsRejected, IsVerified, OnDesk};
ghost use Rattle.order_verifier.specs.declared.rejected.Rejected.{Rejected};
ghost use Rattle.order_verifier.specs.declared.rejected.Rejected.TheVariants.{WrongNames, NotCompletion};

/// A certificate that is rejected, for whichever reason, is no evidence: so it is accepted exactly where it is
/// evidence.
pub fn rejected_certificates_are_no_evidence()
    ensures { (c : Certificate) (desk : Desk) (marks : List (List Mark)) (why : Rejected) →
        IsRejected c desk marks why → IsEvidence c desk marks → ⊥ }
{}

/// A certificate has one answer on a desk under its marks.
pub fn answers_are_one()
    ensures { (c : Certificate) (desk : Desk) (marks : List (List Mark))
        (r s : Result (Unit {0}) Rejected) →
        IsVerified c desk marks r → IsVerified c desk marks s → r ≡ s }
{}

/// The line that is told says in the certificate's text what stands at the first wrong place: the name of a run, the number
/// of topics or the name of a topic that is not the desk's, or the name of a document that is no unjudged one.
pub fn numbers_are_of_lines()
    ensures names { (c : Certificate) (desk : Desk) (marks : List (List Mark)) (line : ℕ) →
        IsRejected c desk marks (WrongNames line) →
        (place : CertificatePlace) × IsWrongName c desk place × OfLine c line (SaysPlace c place) }
    ensures document { (c : Certificate) (desk : Desk) (marks : List (List Mark)) (line : ℕ) →
        IsRejected c desk marks (NotCompletion line) →
        (place : CertificatePlace) ×
        OnDesk c desk marks (λ k. HasWrongDocument k c.evidence place) ×
        OfLine c line (SaysPlace c place) }
{}
