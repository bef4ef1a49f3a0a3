// The lists of an open claim: each name against the documents of its topic, and the sums of both completions.
ghost use Rattle.std.specs.Prelude.{◌≡◌, ℕ, ◌≤◌, ◌<◌, false, None, All, length, slice_index_or, MatchOption, MatchResult};
ghost use Rattle.desk_model.specs.Limits.{TOPIC_LIMIT};
ghost use Rattle.order_certificate.specs.Certificate.{AreLists};
ghost use Rattle.order_certificate.specs.Evidence.{AreUnjudged};
ghost use Rattle.desk_model.specs.Verdict.{differs};
ghost use Rattle.order_certificate.specs.declared.certificate.Evidence.TheVariants.{Open as O};
ghost use Rattle.order_verifier.specs.Checks.{OfTopic};
ghost use Rattle.order_certificate.specs.declared.certificate.TopicWitness.{TopicWitness as Witness};
ghost use Rattle.order_verifier.specs.CompletionEnds.{AreEndsOn, AreEndSums, IsListOn};
ghost use Rattle.order_verifier.specs.Refusal.{HasOther, HasWrongDocument, IsFirstOther, ShowsOf, topics_in};
ghost use Rattle.order_verifier.specs.Rows.{AreFlags, OfRow, SuitDesk};
ghost use Rattle.order_verifier.specs.Verified.{FailsBy};

use crate::comparison::Comparison;
use crate::completion::CompletionEnds;
use crate::documents::Documents;
use crate::failure::Failure;
use crate::rows::ListRows;
use crate::search::Near;
use desk_model::Placed;
use order_certificate::{CertificatePlace, WitnessList};

/// Whether two sums, of a low and of a high completion, differ on the order: they are on two sides of 0, or one is 0.
fn differ(low: i128, high: i128) -> bool
    ensures { result ≡ differs low high }
{
    (low < 0 && high >= 0) || (low <= 0 && high > 0)
}

impl Comparison<'_> {
    /// The first name of a list, by its number from 0, that is not that of an unjudged document of a topic. Each is
    /// looked for near the one before, and among some ranked documents.
    fn first_other(&self, topic: u32, documents: &Documents<'_>, ranked: &[Placed]) -> Option<u32>
        requires { IsListOn self.now topic documents.now }
        ensures { OfTopic (topics_in self.now) topic (λ t.
            MatchOption result (AreUnjudged t documents.now.names)
            (IsFirstOther t documents.now.names)) }
    {
        let marks = self.topic_marks(topic);
        let mut near = Near::START;
        for document in 0..documents.len() as u32 {
            let found = self.find_unjudged(topic, marks, documents, document, ranked, &mut near);
            if !found.is_found {
                return Some(document);
            }
        }
        None
    }

    /// The same. Flags that are clear, one for each of the topic's first documents, are set for those that the list
    /// names.
    fn first_other_flagged(
        &self,
        topic: u32,
        documents: &Documents<'_>,
        ranked: &[Placed],
        flags: &mut [bool],
    ) -> Option<u32>
        requires list { IsListOn self.now topic documents.now }
        requires clear { (k : ℕ) → slice_index_or flags.old k false ≡ false }
        ensures other { OfTopic (topics_in self.now) topic (λ t.
            MatchOption result (AreUnjudged t documents.now.names)
            (IsFirstOther t documents.now.names)) }
        ensures flags { result ≡ None → AreFlags documents.now.docs documents.now.names flags.new }
    {
        if flags.is_empty() {
            return self.first_other(topic, documents, ranked);
        }
        let marks = self.topic_marks(topic);
        let mut near = Near::START;
        for document in 0..documents.len() as u32 {
            let found = self.find_unjudged(topic, marks, documents, document, ranked, &mut near);
            if !found.is_found {
                return Some(document);
            }
            if (found.doc as usize) < flags.len() {
                flags[found.doc as usize] = true;
            }
        }
        None
    }

    /// The ends of the differences in the completions of two lists of a topic, or the first document of the lists that
    /// is no unjudged one, the low list first. The flags are clear.
    fn ends_of(
        &self,
        topic: u32,
        low: &Documents<'_>,
        high: &Documents<'_>,
        low_flags: &mut [bool],
        high_flags: &mut [bool],
    ) -> Result<CompletionEnds, CertificatePlace>
        requires low { IsListOn self.now topic low.now }
        requires high { IsListOn self.now topic high.now }
        requires low_clear { (k : ℕ) → slice_index_or low_flags.old k false ≡ false }
        requires high_clear { (k : ℕ) → slice_index_or high_flags.old k false ≡ false }
        ensures { (w : Witness) → w.low ≡ low.now.names → w.high ≡ high.now.names →
            OfTopic (topics_in self.now) topic (λ t.
            MatchResult result (AreEndsOn self.now (w, t)) (HasOther topic (w, t))) }
    {
        let likely = self.likely(topic, WitnessList::Low);
        if let Some(document) = self.first_other_flagged(topic, low, likely, low_flags) {
            return Err(CertificatePlace::Document {
                topic,
                list: WitnessList::Low,
                document,
            });
        }
        let likely = self.likely(topic, WitnessList::High);
        if let Some(document) = self.first_other_flagged(topic, high, likely, high_flags) {
            return Err(CertificatePlace::Document {
                topic,
                list: WitnessList::High,
                document,
            });
        }
        let low = low.flagged(low_flags);
        let high = high.flagged(high_flags);
        Ok(self.completion_ends(topic, &low, &high))
    }

    /// The same for long lists, with a flag for each of the topic's first documents.
    #[inline(never)]
    fn flagged_ends(
        &self,
        topic: u32,
        low: &Documents<'_>,
        high: &Documents<'_>,
    ) -> Result<CompletionEnds, CertificatePlace>
        requires low { IsListOn self.now topic low.now }
        requires high { IsListOn self.now topic high.now }
        ensures { (w : Witness) → w.low ≡ low.now.names → w.high ≡ high.now.names →
            OfTopic (topics_in self.now) topic (λ t.
            MatchResult result (AreEndsOn self.now (w, t)) (HasOther topic (w, t))) }
    {
        let mut low_flags = [false; 16_384];
        let mut high_flags = [false; 16_384];
        self.ends_of(topic, low, high, &mut low_flags, &mut high_flags)
    }

    /// The ends of the differences in the two completions of a topic, or the first document of its lists that is no
    /// unjudged one.
    fn ends_on<L: ListRows>(
        &self,
        topic: u32,
        lists: &L,
    ) -> Result<CompletionEnds, CertificatePlace>
        requires topic { topic < length (topics_in self.now) }
        requires row { topic < length (L.witnesses lists.now) }
        requires lists { All AreLists (L.witnesses lists.now) }
        requires suits { SuitDesk (L.suits lists.now) self.now.desk }
        ensures { OfRow (L.witnesses lists.now) topic (λ w.
            OfTopic (topics_in self.now) topic (λ t.
            MatchResult result (AreEndsOn self.now (w, t)) (HasOther topic (w, t)))) }
    {
        let book = self.topic_book(topic);
        let low = lists.low(topic, book);
        let high = lists.high(topic, book);
        if low.is_long() || high.is_long() {
            return self.flagged_ends(topic, &low, &high);
        }
        self.ends_of(topic, &low, &high, &mut [], &mut [])
    }

    /// Their sums over the topics, or the first document of all lists that is no unjudged one, in the order of the
    /// topics. The lists of a topic are read once.
    fn end_sums<L: ListRows>(&self, lists: &L) -> Result<CompletionEnds, CertificatePlace>
        requires topics { length (L.witnesses lists.now) ≡ length (topics_in self.now) }
        requires few { length (L.witnesses lists.now) ≤ TOPIC_LIMIT }
        requires lists { All AreLists (L.witnesses lists.now) }
        requires suits { SuitDesk (L.suits lists.now) self.now.desk }
        ensures { MatchResult result (AreEndSums self.now (L.witnesses lists.now))
            (HasWrongDocument self.now (O (L.witnesses lists.now))) }
    {
        let mut low = 0;
        let mut high = 0;
        for topic in 0..lists.count() {
            match self.ends_on(topic, lists) {
                Ok(ends) => {
                    low += ends.low;
                    high += ends.high;
                }
                Err(place) => return Err(place),
            }
        }
        Ok(CompletionEnds { low, high })
    }

    /// Whether lists are two completions that differ on the order of the two runs.
    pub fn check_open<L: ListRows>(&self, lists: &L) -> Result<(), Failure>
        requires topics { length (L.witnesses lists.now) ≡ length (topics_in self.now) }
        requires few { length (L.witnesses lists.now) ≤ TOPIC_LIMIT }
        requires lists { All AreLists (L.witnesses lists.now) }
        requires suits { SuitDesk (L.suits lists.now) self.now.desk }
        ensures { MatchResult result (λ _. ShowsOf self.now (O (L.witnesses lists.now)))
            (FailsBy self.now (O (L.witnesses lists.now))) }
    {
        match self.end_sums(lists) {
            Ok(sums) => {
                if differ(sums.low, sums.high) {
                    Ok(())
                } else {
                    Err(Failure::NoDifference)
                }
            }
            Err(place) => Err(Failure::NotCompletion { place }),
        }
    }
}
