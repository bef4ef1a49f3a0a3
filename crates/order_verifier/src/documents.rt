//! The documents that a list names, on a topic.
ghost use Rattle.std.specs.Prelude.{◌≡◌, ℕ, List, ◌<◌, ◌≤◌, true, [], length, slice_index_or};
ghost use Rattle.std.specs.List.{list_any};
ghost use Rattle.std.specs.List.Sorted.{IsBinarySearchResult, IsSearchInRange};
ghost use Rattle.std.specs.Ordering.{nat_cmp};
ghost use Rattle.std.specs.declared.cmp.Ordering.TheVariants.{Greater};
ghost use Rattle.desk_model.specs.Name.{is_same_name, number_of, AreAscending};
ghost use Rattle.order_verifier.specs.Rows.{AreFlags, AreKnown, OfRow, names_listed, number_of_pick, numbers_of};

use crate::search::{Near, name_place, number_near};
use desk_model::{Name, Placed, TopicBook};
use std::cmp::Ordering;
use std::marker::Model;
use topic_ends::relevance::FoundNear;

/// How a list names documents.
#[derive(Clone, Copy, PartialEq, Eq)]
pub enum ListForm {
    /// By all of some names.
    Names,
    /// The same, where it is known of each document whether it is named.
    FlaggedNames,
    /// By picking some of the names by their numbers.
    Picks,
    /// The same, where the topic's number of each of the names is known.
    NumberedPicks,
}

/// Documents of a topic that a list names: all of some names, or those picked of them by their numbers.
#[derive(Drop)]
pub struct Documents<'a> {
    book: &'a TopicBook,
    names: &'a [Name],
    picks: &'a [u32],
    numbers: &'a [Option<u32>],
    flags: &'a [bool],
    form: ListForm,
}

impl<'a> Model for Documents<'a> {
    ghost use Rattle.order_verifier.specs.Rows.{AreFlagged as Flagged, AreNumbered as Numbered, ListedOn, is_picked, names_listed as listed};

    ghost Value = { ListedOn };

    ghost view = { λ d. record { docs = d.book.now.docs; names = listed d.names.now d.picks.now (is_picked d.form) } };

    ghost invariant = { λ d. Numbered d.form d.book.now.docs d.names.now d.numbers.now × Flagged d.form d.book.now.docs d.names.now d.flags.now };
}

impl<'a> Documents<'a> {
    /// The documents with these names.
    pub fn named(book: &'a TopicBook, names: &'a [Name]) -> Documents<'a>
        ensures { result ≡ record { docs = book.now.docs; names = names.now } }
    {
        Documents {
            book,
            names,
            picks: &[],
            numbers: &[],
            flags: &[],
            form: ListForm::Names,
        }
    }

    /// Those of some names that are picked by their numbers, from 0.
    pub fn picked(book: &'a TopicBook, names: &'a [Name], picks: &'a [u32]) -> Documents<'a>
        ensures { result ≡
            record { docs = book.now.docs; names = names_listed names.now picks.now true } }
    {
        Documents {
            book,
            names,
            picks,
            numbers: &[],
            flags: &[],
            form: ListForm::Picks,
        }
    }

    /// The same, where the topic's number of each of the names is known, or that it has none.
    pub fn numbered(
        book: &'a TopicBook,
        names: &'a [Name],
        picks: &'a [u32],
        numbers: &'a [Option<u32>],
    ) -> Documents<'a>
        requires { numbers.now ≡ numbers_of book.now.docs names.now }
        ensures { result ≡
            record { docs = book.now.docs; names = names_listed names.now picks.now true } }
    {
        Documents {
            book,
            names,
            picks,
            numbers,
            flags: &[],
            form: ListForm::NumberedPicks,
        }
    }

    /// Whether flags for all documents pay: the list has all of some names, and these are many.
    pub fn is_long(&self) -> bool {
        matches!(self.form, ListForm::Names) && self.names.len() >= 64
    }

    /// The same documents, where it is known of the topic's first documents whether the list names them. That pays
    /// where it has all of some names and these are all documents.
    pub fn flagged<'b>(&'b self, flags: &'b [bool]) -> Documents<'b>
        requires { AreFlags self.now.docs self.now.names flags.now }
        ensures { result ≡ self.now }
    {
        let are_all = flags.len() >= self.book.doc_count() as usize;
        let form = match self.form {
            ListForm::Names | ListForm::FlaggedNames if are_all => ListForm::FlaggedNames,
            ListForm::Names | ListForm::FlaggedNames => ListForm::Names,
            ListForm::Picks => ListForm::Picks,
            ListForm::NumberedPicks => ListForm::NumberedPicks,
        };
        Documents {
            book: self.book,
            names: self.names,
            picks: self.picks,
            numbers: self.numbers,
            flags,
            form,
        }
    }

    /// How many they are.
    pub fn len(&self) -> usize
        ensures { result ≡ length self.now.names }
    {
        match self.form {
            ListForm::Names | ListForm::FlaggedNames => self.names.len(),
            ListForm::Picks | ListForm::NumberedPicks => self.picks.len(),
        }
    }

    /// The number on the topic of the document at a place of the list, from 0, and none where the topic has no
    /// such document. A name is looked for first at a number and among ranked documents, which changes nothing but how
    /// soon it is found. On a list that ascends, what the search for the name before leaves is near.
    #[inline(always)]
    pub fn number(&self, place: u32, ranked: &[Placed], near: &mut Near) -> Option<u32>
        requires { place < length self.now.names }
        ensures { OfRow self.now.names place (λ name. result ≡ number_of self.now.docs name) }
    {
        match self.form {
            ListForm::Names | ListForm::FlaggedNames => {
                let name = self.names[place as usize].as_bytes();
                number_near(self.book, name, ranked, near)
            }
            ListForm::Picks => {
                let name = name_at(self.names, self.picks[place as usize]);
                number_near(self.book, name, ranked, near)
            }
            ListForm::NumberedPicks => {
                number_at(self.book, self.numbers, self.picks[place as usize])
            }
        }
    }

    /// Whether a document of the topic is on the list, which ascends and names documents of the topic alone.
    pub fn has(&self, doc: u32) -> bool
        requires known { AreKnown self.now.docs self.now.names }
        requires doc { doc < length self.now.docs }
        ensures { result ≡ list_any (λ each.
            is_same_name each (slice_index_or self.now.docs doc [])) self.now.names }
    {
        match self.form {
            ListForm::Names => is_on(self.names, self.book.doc_name(doc)),
            ListForm::FlaggedNames => self.flags[doc as usize],
            ListForm::Picks => is_picked(self.names, self.picks, self.book.doc_name(doc)),
            ListForm::NumberedPicks => {
                find_number(self.book, self.numbers, self.picks, doc, 0).is_found
            }
        }
    }

    /// The same, looked for first at a place of the list, which changes nothing but how soon it is found. For documents
    /// that ascend, the place that the one before answers is near.
    #[inline(always)]
    pub fn find(&self, doc: u32, near: usize) -> FoundNear
        requires known { AreKnown self.now.docs self.now.names }
        requires doc { doc < length self.now.docs }
        ensures { result.is_found ≡
            list_any (λ each. is_same_name each (slice_index_or self.now.docs doc []))
            self.now.names }
    {
        match self.form {
            ListForm::NumberedPicks => {
                find_number(self.book, self.numbers, self.picks, doc, near)
            }
            ListForm::Names | ListForm::FlaggedNames | ListForm::Picks => {
                self.find_by_name(doc, near)
            }
        }
    }

    /// The same by the names of the list, or by its flags.
    #[inline(never)]
    fn find_by_name(&self, doc: u32, near: usize) -> FoundNear
        requires known { AreKnown self.now.docs self.now.names }
        requires doc { doc < length self.now.docs }
        ensures { result.is_found ≡
            list_any (λ each. is_same_name each (slice_index_or self.now.docs doc []))
            self.now.names }
    {
        match self.form {
            ListForm::Names => find_name(self.names, self.book.doc_name(doc), near),
            _ => FoundNear {
                is_found: self.has(doc),
                near,
            },
        }
    }
}

/// The name with a number, and no bytes where there is none.
fn name_at(names: &[Name], number: u32) -> &[u8]
    ensures { result.now ≡ slice_index_or names.now number [] }
{
    match names.get(number as usize) {
        Some(name) => name.as_bytes(),
        None => &[],
    }
}

/// The number of the document whose name has no bytes, which no topic has.
#[inline(never)]
fn nameless(book: &TopicBook) -> Option<u32>
    ensures { result ≡ number_of book.now.docs [] }
{
    book.find(&[])
}

/// The number on a topic of a document that is picked, by the numbers of the names that lists may pick.
fn number_at(book: &TopicBook, numbers: &[Option<u32>], pick: u32) -> Option<u32>
    ensures { result ≡ slice_index_or numbers.now pick (number_of book.now.docs []) }
{
    match numbers.get(pick as usize) {
        Some(number) => *number,
        None => nameless(book),
    }
}

/// Whether a name is on a list.
fn is_on(names: &[Name], name: &[u8]) -> bool
    requires { AreAscending names.now }
    ensures { result ≡ list_any (λ each. is_same_name each name.now) names.now }
{
    match names.binary_search_by(|each| each.compare(name)) {
        Ok(_) => true,
        Err(_) => false,
    }
}

/// Whether a name is on a list, looked for near a place, and the place after it.
fn find_name(names: &[Name], name: &[u8], near: usize) -> FoundNear
    requires { AreAscending names.now }
    ensures { result.is_found ≡ list_any (λ each. is_same_name each name.now) names.now }
{
    match name_place(names, name, near) {
        Ok(place) => FoundNear {
            is_found: true,
            near: place + 1,
        },
        Err(place) => FoundNear {
            is_found: false,
            near: place,
        },
    }
}

/// Whether a name is one of those picked of some names.
fn is_picked(names: &[Name], picks: &[u32], name: &[u8]) -> bool
    requires { AreAscending (names_listed names.now picks.now true) }
    ensures { result ≡ list_any (λ each. is_same_name each name.now)
        (names_listed names.now picks.now true) }
{
    match picks.binary_search_by(|pick| name_at(names, *pick).cmp(name)) {
        Ok(_) => true,
        Err(_) => false,
    }
}

/// How the number of the document at a place of the picks compares with another document's. Past the end it is greater.
#[inline(always)]
fn order_at(
    book: &TopicBook,
    numbers: &[Option<u32>],
    picks: &[u32],
    place: usize,
    doc: u32,
) -> Ordering
    ensures within { place < length picks.now →
        result ≡
        nat_cmp (number_of_pick book.now.docs numbers.now (slice_index_or picks.now place 0)) doc }
    ensures past { length picks.now ≤ place → result ≡ Greater }
{
    match picks.get(place) {
        Some(pick) => number_at(book, numbers, *pick).unwrap_or(0).cmp(&doc),
        None => Ordering::Greater,
    }
}

/// The place of a document among those picked, or between those before it and those after it, by halving.
#[inline(never)]
fn place_by_halving(
    book: &TopicBook,
    numbers: &[Option<u32>],
    picks: &[u32],
    doc: u32,
) -> Result<usize, usize>
    ensures bound { IsSearchInRange result (length picks.now) }
    ensures place { IsBinarySearchResult (λ k.
        nat_cmp (number_of_pick book.now.docs numbers.now k) doc) picks.now result }
{
    picks.binary_search_by(|pick| number_at(book, numbers, *pick).unwrap_or(0).cmp(&doc))
}

/// The same, looked for near a place, and else by halving.
#[inline(always)]
fn place_near(
    book: &TopicBook,
    numbers: &[Option<u32>],
    picks: &[u32],
    doc: u32,
    near: usize,
) -> Result<usize, usize>
    ensures bound { IsSearchInRange result (length picks.now) }
    ensures place { IsBinarySearchResult (λ k.
        nat_cmp (number_of_pick book.now.docs numbers.now k) doc) picks.now result }
{
    let here = order_at(book, numbers, picks, near, doc);
    if here.is_eq() {
        return Ok(near);
    }
    if here.is_gt() && (near == 0 || order_at(book, numbers, picks, near - 1, doc).is_lt()) {
        return Err(near);
    }
    place_by_halving(book, numbers, picks, doc)
}

/// Whether a document of a topic is one of those picked, by the numbers of the names that lists may pick, and the place
/// after it. Numbers of ascending names ascend.
#[inline(always)]
fn find_number(
    book: &TopicBook,
    numbers: &[Option<u32>],
    picks: &[u32],
    doc: u32,
    near: usize,
) -> FoundNear
    requires { doc < length book.now.docs }
    ensures { (names : List (List ℕ)) → numbers.now ≡ numbers_of book.now.docs names →
        AreKnown book.now.docs (names_listed names picks.now true) →
        result.is_found ≡ list_any (λ each. is_same_name each (slice_index_or book.now.docs doc []))
        (names_listed names picks.now true) }
{
    match place_near(book, numbers, picks, doc, near) {
        Ok(place) => FoundNear {
            is_found: true,
            near: place + 1,
        },
        Err(place) => FoundNear {
            is_found: false,
            near: place,
        },
    }
}
