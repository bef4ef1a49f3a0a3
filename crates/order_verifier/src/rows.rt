//! What evidence has for each topic: two numbers, or two lists of documents.
ghost use Rattle.std.specs.Prelude.{◌≡◌, ℕ, ◌≤◌, ◌<◌, List, length};
ghost use Rattle.desk_model.specs.Limits.{TOPIC_LIMIT};
ghost use Rattle.order_certificate.specs.declared.certificate.TopicBound.{TopicBound as Bound};
ghost use Rattle.order_certificate.specs.declared.certificate.TopicWitness.{TopicWitness as Witness};
ghost use Rattle.order_verifier.specs.Rows.{OfRow};

use crate::documents::Documents;
use desk_model::TopicBook;
use order_certificate::{TopicBounds, Witnesses};

/// Two numbers for each topic, in the order of the topics, however they are kept.
pub trait BoundRows {
    /// The bounds of one pair of runs that they stand for.
    ghost bounds: { Self → List Bound };

    /// How many topics they are for.
    fn count(&self) -> u32
        requires { length (bounds self.now) ≤ TOPIC_LIMIT }
        ensures { result ≡ length (bounds self.now) };

    /// The lower number of a topic.
    fn low(&self, topic: u32) -> i128
        requires { topic < length (bounds self.now) }
        ensures { OfRow (bounds self.now) topic (λ b. result ≡ b.low) };

    /// The upper number of a topic.
    fn high(&self, topic: u32) -> i128
        requires { topic < length (bounds self.now) }
        ensures { OfRow (bounds self.now) topic (λ b. result ≡ b.high) };
}

/// Two lists of documents for each topic, in the order of the topics, however they are kept.
pub trait ListRows {
    /// The witnesses of one pair of runs that they stand for.
    ghost witnesses: { Self → List Witness };

    /// That what is known of the documents on a topic is so where these are the topic's documents.
    ghost suits: { Self → ℕ → List (List ℕ) → Type 0 };

    /// How many topics they are for.
    fn count(&self) -> u32
        requires { length (witnesses self.now) ≤ TOPIC_LIMIT }
        ensures { result ≡ length (witnesses self.now) };

    /// The list of the low completion of a topic.
    fn low<'d>(&'d self, topic: u32, book: &'d TopicBook) -> Documents<'d>
        requires topic { topic < length (witnesses self.now) }
        requires suits { suits self.now topic book.now.docs }
        ensures { OfRow (witnesses self.now) topic (λ w. result ≡
            record { docs = book.now.docs; names = w.low }) };

    /// The list of the high completion of a topic.
    fn high<'d>(&'d self, topic: u32, book: &'d TopicBook) -> Documents<'d>
        requires topic { topic < length (witnesses self.now) }
        requires suits { suits self.now topic book.now.docs }
        ensures { OfRow (witnesses self.now) topic (λ w. result ≡
            record { docs = book.now.docs; names = w.high }) };
}

impl BoundRows for TopicBounds {
    ghost bounds = { λ b. b };

    fn count(&self) -> u32 {
        self.as_slice().len() as u32
    }

    fn low(&self, topic: u32) -> i128 {
        self.as_slice()[topic as usize].low
    }

    fn high(&self, topic: u32) -> i128 {
        self.as_slice()[topic as usize].high
    }
}

impl ListRows for Witnesses {
    ghost witnesses = { λ w. w };

    ghost suits = { λ w topic docs. Unit {0} };

    fn count(&self) -> u32 {
        self.as_slice().len() as u32
    }

    fn low<'d>(&'d self, topic: u32, book: &'d TopicBook) -> Documents<'d> {
        Documents::named(book, self.as_slice()[topic as usize].low.as_slice())
    }

    fn high<'d>(&'d self, topic: u32, book: &'d TopicBook) -> Documents<'d> {
        Documents::named(book, self.as_slice()[topic as usize].high.as_slice())
    }
}
