//! Laws of what the verifier answers, each the contract of a function that does nothing.
ghost use Rattle.std.specs.Prelude.{◌≡◌, ℕ, List, Result};
ghost use Rattle.desk_model.specs.Desk.{Desk};
ghost use Rattle.desk_model.specs.declared.types.Mark.{Mark};
ghost use Rattle.order_certificate.specs.declared.place.CertificatePlace.{CertificatePlace};
ghost use Rattle.order_bundle.specs.Bundle.{Bundle};
ghost use Rattle.order_bundle.specs.Evidence.{IsBundleEvidence};
ghost use Rattle.order_bundle.specs.declared.any_certificate.AnyCertificate.{AnyCertificate};
ghost use Rattle.order_verifier.specs.declared.failure.Failure.TheVariants.{NotCompletion};
ghost use Rattle.bundle_verifier.specs.Either.{IsAnyVerified};
ghost use Rattle.bundle_verifier.specs.Lines.{IsAnswer, line_of_name, line_of_place};
ghost use Rattle.bundle_verifier.specs.Says.{OfBundleLine, SaysName, SaysPick};
ghost use Rattle.bundle_verifier.specs.Verified.{IsReason};
ghost use Rattle.bundle_verifier.specs.declared.reason.BundleName.{BundleName};
ghost use Rattle.bundle_verifier.specs.declared.reason.BundleReason.{BundleReason};
ghost use Rattle.bundle_verifier.specs.declared.reason.BundleReason.TheVariants.{WrongName, ClaimFails};
ghost use Rattle.bundle_verifier.specs.declared.rejected.BundleRejected.{BundleRejected};

/// A bundle that is rejected, for whichever reason, is no evidence: so it is accepted exactly where it is evidence.
pub fn rejected_bundles_are_no_evidence()
    ensures { (b : Bundle) (desk : Desk) (marks : List (List Mark)) (reason : BundleReason) →
        IsReason b desk marks reason → IsBundleEvidence b desk marks → ⊥ }
{}

/// A bundle has one answer on a desk under its marks.
pub fn bundle_answers_are_one()
    ensures { (b : Bundle) (desk : Desk) (marks : List (List Mark))
        (r s : Result (Unit {0}) BundleRejected) →
        IsAnswer b desk marks r → IsAnswer b desk marks s → r ≡ s }
{}

/// So has a certificate of either version.
pub fn any_answers_are_one()
    ensures { (c : AnyCertificate) (desk : Desk) (marks : List (List Mark))
        (r s : Result (Unit {0}) BundleRejected) →
        IsAnyVerified c desk marks r → IsAnyVerified c desk marks s → r ≡ s }
{}

/// The line that is told says in the bundle's text what is wrong: the name of a run, the number of topics or the name of
/// a topic that is not the desk's, or the pick of a document that is no unjudged one.
pub fn numbers_are_of_bundle_lines()
    ensures names { (b : Bundle) (desk : Desk) (marks : List (List Mark)) (name : BundleName) →
        IsReason b desk marks (WrongName name) →
        OfBundleLine b (line_of_name b name) (SaysName b name) }
    ensures picks { (b : Bundle) (desk : Desk) (marks : List (List Mark)) (claim : ℕ)
        (at : CertificatePlace) →
        IsReason b desk marks (ClaimFails claim (NotCompletion at)) →
        OfBundleLine b (line_of_place b claim at) (SaysPick b claim at) }
{}
