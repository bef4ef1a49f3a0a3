//! Laws of certificates, each the contract of a function that does nothing.
ghost use Rattle.std.specs.Prelude.{◌≡◌, ◌≤◌, ◌+◌, ◌*◌, ◌⊎◌, ◌++◌, ℕ, All, List, [], length, take, ℤ};
ghost use Rattle.desk_text.specs.Lines.{whole_lines};
ghost use Rattle.desk_model.specs.Completion.{Completion};
ghost use Rattle.desk_model.specs.Desk.{topics_under};
ghost use Rattle.desk_model.specs.Fraction.{IsSame};
ghost use Rattle.desk_model.specs.Order.{IsCompletion, run_mean};
ghost use Rattle.desk_model.specs.declared.types.MeasureName.{MeasureName};
ghost use Rattle.order_certificate.specs.Certificate.{IsCertificate, certificate_text, first_lines};
ghost use Rattle.line_forms.specs.Form.{CanStand, IsFirstBad};
ghost use Rattle.order_certificate.specs.Lengths.{listed_bytes};
ghost use Rattle.order_certificate.specs.PlaceLines.{HasPlace, OfLine, SaysPlace, line_of_place};
ghost use Rattle.order_certificate.specs.Places.{certificate_places, IsText};
ghost use Rattle.order_certificate.specs.Claim.{NamedTopic, AreItsRuns, ClaimHolds, IsBelowIn, IsOpen};
ghost use Rattle.order_certificate.specs.Evidence.{ForEvidence, IsLowSum, IsHighSum};
ghost use Rattle.order_certificate.specs.declared.certificate.Certificate.{Certificate};
ghost use Rattle.order_certificate.specs.declared.certificate.Evidence.TheVariants.{Above, Equal, Open};
ghost use Rattle.order_certificate.specs.declared.certificate.TopicBound.{TopicBound};
ghost use Rattle.order_certificate.specs.declared.certificate.TopicWitness.{TopicWitness};
ghost use Rattle.order_certificate.specs.declared.place.CertificatePlace.{CertificatePlace};

use desk_model::measure_of_text_is_unique;

/// A text is of one certificate at most, and a certificate has one text at most.
pub fn text_and_certificate_are_one()
    ensures certificate { (bytes : List ℕ) (c d : Certificate) → IsText bytes c → IsText bytes d →
        c ≡ d }
    ensures text { (a b : List ℕ) (c : Certificate) → IsText a c → IsText b c → a ≡ b }
{
    measure_of_text_is_unique();
}

/// Exactly the certificates within the limits have a text, and it is the one that is written.
pub fn certificates_have_texts()
    ensures within { (bytes : List ℕ) (c : Certificate) → IsText bytes c → IsCertificate c }
    ensures written { (bytes : List ℕ) (c : Certificate) → IsText bytes c →
        bytes ≡ certificate_text c }
    ensures text { (c : Certificate) → IsCertificate c → IsText (certificate_text c) c }
{}

/// The first six lines of a certificate's text say what it claims: the form, the measure, the level, the first run, the
/// second run, and on line 6 the claim, which is `claim above`, `claim equal` or `claim open` by its evidence.
pub fn claim_is_on_line_6()
    ensures { (bytes : List ℕ) (c : Certificate) → IsText bytes c →
        take 6 (whole_lines bytes) ≡ first_lines c }
{
    measure_of_text_is_unique();
}

/// No text of a certificate begins with the text of another.
pub fn no_text_begins_another()
    ensures { (bytes more : List ℕ) (c d : Certificate) → IsText bytes c →
        IsText (bytes ++ more) d →
        (more ≡ []) × (c ≡ d) }
{
    measure_of_text_is_unique();
}

/// Bytes have one first bad line at most, and the text of a certificate has none.
pub fn first_bad_line_is_unique()
    ensures unique { (bytes : List ℕ) (m n : ℕ) →
        IsFirstBad certificate_places bytes m → IsFirstBad certificate_places bytes n → m ≡ n }
    ensures none { (bytes : List ℕ) (c : Certificate) (n : ℕ) → IsText bytes c →
        IsFirstBad certificate_places bytes n → ⊥ }
{
    measure_of_text_is_unique();
}

/// Bytes that are the text of no certificate have a first bad line.
pub fn bad_line_exists()
    ensures { (bytes : List ℕ) → ((c : Certificate) × IsText bytes c) ⊎
        ((line : ℕ) × IsFirstBad certificate_places bytes line) }
{
    measure_of_text_is_unique();
}

/// No line that can stand in a certificate has more than 4,096 bytes.
pub fn lines_are_short()
    ensures { (lines : List (List ℕ)) → CanStand certificate_places lines →
        All (λ line. length line ≤ 4096) lines }
{}

/// A text has less than 6,000,000 bytes beside the documents of its lists, each of which takes five bytes more than its name.
/// So it is no longer than a file may be where these take at most so many bytes as names of 268,435,456 bytes and
/// 25,000,000 documents take on two lists.
pub fn texts_are_short()
    ensures documents { (c : Certificate) → IsCertificate c →
        length (certificate_text c) ≤ 6000000 + listed_bytes c.evidence }
    ensures file { (c : Certificate) → IsCertificate c →
        listed_bytes c.evidence ≤ 2 * (268435456 + 5 * 25000000) →
        length (certificate_text c) ≤ 1073741824 }
{}

/// The line of each place of a certificate says what stands there: the name of a run, the number of topics, the name of
/// a topic, or the name of a document on a list.
pub fn lines_say_their_places()
    ensures { (c : Certificate) (place : CertificatePlace) → HasPlace c.evidence place →
        OfLine c (line_of_place c.evidence place) (SaysPlace c place) }
{}

/// Where a certificate is evidence, its claim holds, whoever wrote it.
pub fn evidence_implies_claim()
    ensures { ForEvidence (λ c desk marks. ClaimHolds c desk marks) }
{}

/// Evidence for `above` puts the mean of the first run above that of the second in every completion of
/// the judgements, and evidence for `equal` makes the two means equal in every completion. Evidence for
/// `open` holds two completions that differ on the order.
pub fn evidence_holds_in_completions()
    ensures above { ForEvidence (λ c desk marks. (first second : ℕ) (bounds : List TopicBound) →
        AreItsRuns c desk first second → c.evidence ≡ Above bounds →
        (completions : List Completion) → IsCompletion (topics_under desk marks) completions →
        IsBelowIn c.measure (topics_under desk marks) second first completions) }
    ensures equal { ForEvidence (λ c desk marks. (first second : ℕ) (bounds : List TopicBound) →
        AreItsRuns c desk first second → c.evidence ≡ Equal bounds →
        (completions : List Completion) → IsCompletion (topics_under desk marks) completions →
        IsSame (run_mean c.measure first (topics_under desk marks) completions)
        (run_mean c.measure second (topics_under desk marks) completions)) }
    ensures open { ForEvidence (λ c desk marks. (first second : ℕ) (witnesses : List TopicWitness) →
        AreItsRuns c desk first second → c.evidence ≡ Open witnesses →
        IsOpen c.measure desk marks first second witnesses) }
{}

/// The two sums of an open claim are determined.
pub fn open_sums_are_determined()
    ensures low { (measure : MeasureName) (a b : ℕ) (witnesses : List TopicWitness)
        (topics : List NamedTopic)
        (x y : ℤ) → IsLowSum measure a b witnesses topics x →
        IsLowSum measure a b witnesses topics y → x ≡ y }
    ensures high { (measure : MeasureName) (a b : ℕ) (witnesses : List TopicWitness)
        (topics : List NamedTopic)
        (x y : ℤ) → IsHighSum measure a b witnesses topics x →
        IsHighSum measure a b witnesses topics y → x ≡ y }
{}
