//! The evidence of a claim as the checker of one pair asks for it, with the names that its numbers stand for.
ghost use Rattle.std.specs.Prelude.{◌≡◌, ℕ, List, ◌<◌, true, length, map, slice_get, Option, Some};
ghost use Rattle.std.specs.List.{zip};
ghost use Rattle.order_bundle.specs.Evidence.{named_bound};
ghost use Rattle.order_verifier.specs.Rows.{names_listed, numbers_of};
ghost use Rattle.bundle_verifier.specs.Rows.{AreNumbersOn, witnesses_of};

use crate::numbers::DocumentNumbers;
use desk_model::{Name, TopicBook};
use order_bundle::{Bound, Picks, TopicNames};
use order_verifier::{BoundRows, Documents, ListRows};
use std::marker::Model;

/// The item with a number, from 0.
pub fn item_at<T>(items: &[T], number: u32) -> &T
    requires { number < length items.now }
    ensures { slice_get items.now number ≡ Some result.now }
{
    &items[number as usize]
}

fn low_of(bound: &Bound) -> i128
    ensures { result ≡ bound.now.low }
{
    bound.low
}

fn high_of(bound: &Bound) -> i128
    ensures { result ≡ bound.now.high }
{
    bound.high
}

/// Two numbers for each topic of a bundle.
#[derive(Drop)]
pub struct ClaimNumbers<'a> {
    topics: &'a [TopicNames],
    bounds: &'a [Bound],
}

impl<'a> Model for ClaimNumbers<'a> {
    ghost use Rattle.std.specs.Prelude.{◌≡◌, List, length, map};
    ghost use Rattle.std.specs.List.{zip};
    ghost use Rattle.order_bundle.specs.Evidence.{named_bound as named};
    ghost use Rattle.order_certificate.specs.declared.certificate.TopicBound.{TopicBound};

    ghost Value = { List TopicBound };

    ghost view = { λ n. map named (zip n.topics.now n.bounds.now) };

    ghost invariant = { λ n. length n.bounds.now ≡ length n.topics.now };
}

impl<'a> ClaimNumbers<'a> {
    /// As many numbers as there are topics.
    pub fn new(topics: &'a [TopicNames], bounds: &'a [Bound]) -> ClaimNumbers<'a>
        requires { length bounds.now ≡ length topics.now }
        ensures { result ≡ map named_bound (zip topics.now bounds.now) }
    {
        ClaimNumbers { topics, bounds }
    }
}

impl BoundRows for ClaimNumbers<'_> {
    ghost bounds = { λ n. n };

    fn count(&self) -> u32 {
        self.bounds.len() as u32
    }

    fn low(&self, topic: u32) -> i128 {
        low_of(item_at(self.bounds, topic))
    }

    fn high(&self, topic: u32) -> i128 {
        high_of(item_at(self.bounds, topic))
    }
}

/// Two lists of picks for each topic of a bundle, and for the first topics the desk's numbers of their documents.
#[derive(Drop)]
pub struct ClaimLists<'a> {
    topics: &'a [TopicNames],
    picks: &'a [Picks],
    numbers: &'a [DocumentNumbers],
}

impl<'a> Model for ClaimLists<'a> {
    ghost use Rattle.std.specs.Prelude.{◌≡◌, length};
    ghost use Rattle.bundle_verifier.specs.Rows.{PickRows};

    ghost Value = { PickRows };

    ghost view = { λ l. record { topics = l.topics.now; picks = l.picks.now; numbers = l.numbers.now } };

    ghost invariant = { λ l. length l.picks.now ≡ length l.topics.now };
}

impl<'a> ClaimLists<'a> {
    /// As many lists as there are topics.
    pub fn new(
        topics: &'a [TopicNames],
        picks: &'a [Picks],
        numbers: &'a [DocumentNumbers],
    ) -> ClaimLists<'a>
        requires { length picks.now ≡ length topics.now }
        ensures { result ≡
            record { topics = topics.now; picks = picks.now; numbers = numbers.now } }
    {
        ClaimLists {
            topics,
            picks,
            numbers,
        }
    }
}

/// The documents that a list picks of a topic's names, by their numbers where these are known.
fn documents_of<'a>(
    book: &'a TopicBook,
    names: &'a [Name],
    picks: &'a [u32],
    numbers: &'a [DocumentNumbers],
    topic: u32,
) -> Documents<'a>
    requires { (ns : List (Option ℕ)) → slice_get numbers.now topic ≡ Some ns →
        ns ≡ numbers_of book.now.docs names.now }
    ensures { result ≡
        record { docs = book.now.docs; names = names_listed names.now picks.now true } }
{
    match numbers.get(topic as usize) {
        Some(numbers) => Documents::numbered(book, names, picks, numbers.as_slice()),
        None => Documents::picked(book, names, picks),
    }
}

impl ListRows for ClaimLists<'_> {
    ghost witnesses = { witnesses_of };

    ghost suits = { AreNumbersOn };

    fn count(&self) -> u32 {
        self.picks.len() as u32
    }

    fn low<'d>(&'d self, topic: u32, book: &'d TopicBook) -> Documents<'d> {
        let row = item_at(self.topics, topic);
        let lists = item_at(self.picks, topic);
        let names = row.docs.as_slice();
        let picks = lists.low.as_slice();
        documents_of(book, names, picks, self.numbers, topic)
    }

    fn high<'d>(&'d self, topic: u32, book: &'d TopicBook) -> Documents<'d> {
        let named = item_at(self.topics, topic);
        let lists = item_at(self.picks, topic);
        let names = named.docs.as_slice();
        let picks = lists.high.as_slice();
        documents_of(book, names, picks, self.numbers, topic)
    }
}
