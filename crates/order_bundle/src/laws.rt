//! Laws of certificates of either version, each the contract of a function that does nothing.
ghost use Rattle.std.specs.Prelude.{◌≡◌, ◌≢◌, ◌++◌, ◌+◌, ◌≤◌, ◌↔◌, ◌⊎◌, ℕ, All, List, [], codes, length};
ghost use Rattle.desk_model.specs.Desk.{Desk, AreMarksOf, IsDesk};
ghost use Rattle.desk_model.specs.MeasureText.{IsMeasure};
ghost use Rattle.desk_model.specs.declared.types.Mark.{Mark};
ghost use Rattle.line_forms.specs.Form.{CanStand, IsFirstBad, ended};
ghost use Rattle.order_certificate.specs.Certificate.{IsCertificate};
ghost use Rattle.order_certificate.specs.Places.{IsText, certificate_places};
ghost use Rattle.order_certificate.specs.declared.certificate.Certificate.{Certificate};
ghost use Rattle.order_bundle.specs.Bundle.{Bundle, IsBundle};
ghost use Rattle.order_bundle.specs.Either.{AnyEvidenceImpliesClaims};
ghost use Rattle.order_bundle.specs.Evidence.{ClaimsHold, IsBundleEvidence, written_out};
ghost use Rattle.order_bundle.specs.Lengths.{text_length};
ghost use Rattle.order_bundle.specs.Places.{IsAnyCertificate, IsAnyText, any_places, any_text, unscoped, version_line};
ghost use Rattle.order_bundle.specs.Scoped.{IsScoped, IsScopedText, depth_lines, scoped_places, scoped_text};
ghost use Rattle.order_bundle.specs.declared.any_certificate.AnyCertificate.{AnyCertificate};
ghost use Rattle.order_bundle.specs.declared.any_certificate.AnyCertificate.TheVariants.{One};
ghost use Rattle.order_bundle.specs.declared.any_certificate.Version.{Version};
ghost use Rattle.order_bundle.specs.declared.scoped.Scoped.{Scoped};

use desk_model::measure_of_text_is_unique;

/// A text is of one certificate at most, whatever its version, and a certificate has one text at most.
pub fn any_text_and_certificate_are_one()
    ensures certificate { (bytes : List ℕ) (a b : AnyCertificate) → IsAnyText bytes a →
        IsAnyText bytes b → a ≡ b }
    ensures text { (x y : List ℕ) (a : AnyCertificate) → IsAnyText x a → IsAnyText y a → x ≡ y }
{
    measure_of_text_is_unique();
}

/// Exactly the certificates within the limits of their version have a text, and it is the one that is written.
pub fn any_certificates_have_texts()
    ensures within { (bytes : List ℕ) (a : AnyCertificate) → IsAnyText bytes a →
        IsAnyCertificate a }
    ensures written { (bytes : List ℕ) (a : AnyCertificate) → IsAnyText bytes a →
        bytes ≡ any_text a }
    ensures text { (a : AnyCertificate) → IsAnyCertificate a → IsAnyText (any_text a) a }
{}

/// No text of a certificate of either version begins with the text of another.
pub fn no_any_text_begins_another()
    ensures { (bytes more : List ℕ) (a b : AnyCertificate) → IsAnyText bytes a →
        IsAnyText (bytes ++ more) b →
        (more ≡ []) × (a ≡ b) }
{
    measure_of_text_is_unique();
}

/// Bytes have one first bad line at most, and the text of a certificate of either version has none.
pub fn any_first_bad_line_is_unique()
    ensures unique { (bytes : List ℕ) (m n : ℕ) →
        IsFirstBad any_places bytes m → IsFirstBad any_places bytes n → m ≡ n }
    ensures none { (bytes : List ℕ) (a : AnyCertificate) (n : ℕ) → IsAnyText bytes a →
        IsFirstBad any_places bytes n → ⊥ }
{
    measure_of_text_is_unique();
}

/// Bytes that are the text of no certificate of either version have a first bad line.
pub fn any_bad_line_exists()
    ensures { (bytes : List ℕ) → ((a : AnyCertificate) × IsAnyText bytes a) ⊎
        ((line : ℕ) × IsFirstBad any_places bytes line) }
{
    measure_of_text_is_unique();
}

/// No line that can stand in a certificate of either version has more than 4,096 bytes.
pub fn any_lines_are_short()
    ensures { (lines : List (List ℕ)) → CanStand any_places lines →
        All (λ line. length line ≤ 4096) lines }
{}

/// A text of version 1 is of the same certificate as before, and of no other. Bytes whose first line names version 1
/// have the first bad line that they have as a text of version 1.
pub fn version_1_is_as_before()
    ensures text { (bytes : List ℕ) (c : Certificate) → IsText bytes c ↔ IsAnyText bytes (One c) }
    ensures bad { (bytes more : List ℕ) (n : ℕ) → bytes ≡ ended (codes "desk-certificate 1") ++ more →
        IsFirstBad certificate_places bytes n ↔ IsFirstBad any_places bytes n }
{
    measure_of_text_is_unique();
}

/// Where the first line names no version, it is the first bad line.
pub fn first_line_names_the_version()
    ensures { (bytes : List ℕ) →
        ((version : Version) (more : List ℕ) → bytes ≢ ended (version_line version) ++ more) →
        IsFirstBad any_places bytes 1 }
{}

/// A text is of one certificate and one depth at most, whatever its version, and these have one text at most.
pub fn scoped_text_and_certificate_are_one()
    ensures certificate { (bytes : List ℕ) (a b : Scoped) → IsScopedText bytes a →
        IsScopedText bytes b → a ≡ b }
    ensures text { (x y : List ℕ) (a : Scoped) → IsScopedText x a → IsScopedText y a → x ≡ y }
{
    measure_of_text_is_unique();
}

/// Exactly the certificates within the limits of their version, made under a depth within its limits or under none, have a
/// text, and it is the one that is written.
pub fn scoped_certificates_have_texts()
    ensures within { (bytes : List ℕ) (a : Scoped) → IsScopedText bytes a → IsScoped a }
    ensures written { (bytes : List ℕ) (a : Scoped) → IsScopedText bytes a → bytes ≡ scoped_text a }
    ensures text { (a : Scoped) → IsScoped a → IsScopedText (scoped_text a) a }
{}

/// No text of a certificate, made under a depth or under none, begins with the text of another.
pub fn no_scoped_text_begins_another()
    ensures { (bytes more : List ℕ) (a b : Scoped) → IsScopedText bytes a →
        IsScopedText (bytes ++ more) b →
        (more ≡ []) × (a ≡ b) }
{
    measure_of_text_is_unique();
}

/// Bytes have one first bad line at most where a line of a depth may come, and the text of a certificate has none.
pub fn scoped_first_bad_line_is_unique()
    ensures unique { (bytes : List ℕ) (m n : ℕ) →
        IsFirstBad scoped_places bytes m → IsFirstBad scoped_places bytes n → m ≡ n }
    ensures none { (bytes : List ℕ) (a : Scoped) (n : ℕ) → IsScopedText bytes a →
        IsFirstBad scoped_places bytes n → ⊥ }
{
    measure_of_text_is_unique();
}

/// Bytes that are the text of no certificate, made under a depth or under none, have a first bad line.
pub fn scoped_bad_line_exists()
    ensures { (bytes : List ℕ) → ((a : Scoped) × IsScopedText bytes a) ⊎
        ((line : ℕ) × IsFirstBad scoped_places bytes line) }
{
    measure_of_text_is_unique();
}

/// No line that can stand in a certificate, the line of its depth among them, has more than 4,096 bytes.
pub fn scoped_lines_are_short()
    ensures { (lines : List (List ℕ)) → CanStand scoped_places lines →
        All (λ line. length line ≤ 4096) lines }
{}

/// A text without the line of a depth is of the same certificate as where no such line may come, and is the same text.
pub fn texts_without_a_depth_are_as_before()
    ensures text { (bytes : List ℕ) (a : AnyCertificate) →
        IsAnyText bytes a ↔ IsScopedText bytes (unscoped a) }
    ensures written { (a : AnyCertificate) → scoped_text (unscoped a) ≡ any_text a }
{}

/// A depth adds the bytes of its line, and nothing else.
pub fn scoped_text_length()
    ensures { (a : Scoped) →
        length (scoped_text a) ≡ length (any_text a.body) + text_length (depth_lines a.depth) }
{}

/// Each claim of a bundle, written out with the names that its numbers stand for, is a certificate of one pair within
/// the limits of that form.
pub fn claims_are_certificates_written_out()
    ensures { (b : Bundle) → IsBundle b → All (λ c. IsCertificate (written_out b c)) b.claims }
{}

/// Where a bundle is evidence, all its claims hold, whoever wrote it.
pub fn bundle_evidence_implies_claims()
    ensures { (b : Bundle) (desk : Desk) (marks : List (List Mark)) → IsMeasure b.measure →
        IsDesk desk → AreMarksOf desk marks →
        IsBundleEvidence b desk marks → ClaimsHold b desk marks }
{}

/// Where a certificate of either version is evidence, what it claims holds, whoever wrote it.
pub fn any_evidence_implies_claims()
    ensures { AnyEvidenceImpliesClaims }
{}
