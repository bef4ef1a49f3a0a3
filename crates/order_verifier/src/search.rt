//! Searches for names in order that begin near a place: in steps that double, and then by halving. Where they begin
//! changes nothing but how soon they end.
ghost use Rattle.std.specs.Prelude.{◌≡◌, ℕ, ◌+◌, ◌<◌, ◌≤◌, [], length, slice_index_or, IfSome, IsTrue, Some};
ghost use Rattle.std.specs.List.Sorted.{IsBinarySearchResult, IsSearchInRange};
ghost use Rattle.std.specs.declared.cmp.Ordering.TheVariants.{Equal, Greater, Less};
ghost use Rattle.desk_model.specs.Name.{name_cmp, number_of};

use crate::name_order::{compare, may_be_same};
use desk_model::{Name, Placed, TopicBook};
use std::cmp::Ordering;

/// Where a search for a name begins: at a document's number, and at a place of the documents that a run ranks.
#[derive(Clone, Copy)]
pub struct Near {
    pub doc: u32,
    pub place: usize,
}

impl Near {
    /// The first document, and the first place.
    pub const START: Near = Near { doc: 0, place: 0 };
}

/// The number of a document that is looked for, and where the search ends.
#[derive(Clone, Copy)]
struct FoundNumber {
    number: Option<u32>,
    near: Near,
}

/// How the name of a document compares with another. Past the end it is greater.
#[inline(always)]
fn order_of(book: &TopicBook, doc: u32, name: &[u8]) -> Ordering
    ensures { result ≡ Equal → number_of book.now.docs name.now ≡ Some doc }
{
    if doc < book.doc_count() {
        compare(book.doc_name(doc), name)
    } else {
        Ordering::Greater
    }
}

/// Whether a document is found to have a name. Names that end in different bytes are compared no further.
#[inline(always)]
fn has_name(book: &TopicBook, doc: u32, name: &[u8]) -> bool
    ensures { IsTrue result → number_of book.now.docs name.now ≡ Some doc }
{
    if doc >= book.doc_count() {
        return false;
    }
    may_be_same(book.doc_name(doc), name) && order_of(book, doc, name).is_eq()
}

/// The number of the document with a name, where it is found among ranked ones from a place and a number on, and the
/// place where the search ends.
fn number_ranked(book: &TopicBook, name: &[u8], ranked: &[Placed], near: Near) -> FoundNumber
    ensures { IfSome result.number (λ number. number_of book.now.docs name.now ≡ Some number) }
{
    let mut place = near.place;
    while place < ranked.len() {
        let doc = ranked[place].doc;
        if doc >= near.doc {
            match order_of(book, doc, name) {
                Ordering::Less => {}
                Ordering::Equal => {
                    return FoundNumber {
                        number: Some(doc),
                        near: Near { doc, place },
                    };
                }
                Ordering::Greater => {
                    return FoundNumber {
                        number: None,
                        near: Near { doc, place },
                    };
                }
            }
        }
        place += 1;
    }
    FoundNumber {
        number: None,
        near: Near {
            doc: book.doc_count(),
            place,
        },
    }
}

/// The number of the document with a name, where it is found from a number on and before another, in steps of which
/// each is twice the one before, and then by halving.
fn number_between(book: &TopicBook, name: &[u8], start: u32, end: u32) -> Option<u32>
    ensures { IfSome result (λ number. number_of book.now.docs name.now ≡ Some number) }
{
    let mut from = start;
    let mut to = end;
    let mut step = 0;
    while from < to {
        let ahead = ((to - from) / 2).min(step);
        let doc = from + ahead;
        match order_of(book, doc, name) {
            Ordering::Less => {
                from = doc + 1;
                step = ahead.saturating_mul(2).saturating_add(1);
            }
            Ordering::Equal => return Some(doc),
            Ordering::Greater => to = doc,
        }
    }
    None
}

/// The same, and then among all documents.
fn number_after(book: &TopicBook, name: &[u8], start: u32, end: u32) -> Option<u32>
    ensures { result ≡ number_of book.now.docs name.now }
{
    match number_between(book, name, start, end) {
        Some(number) => Some(number),
        None => book.find(name),
    }
}

/// The number of the document of a topic with a name, and none where it has no such document. It is looked for first
/// at a number, then among ranked documents, and then before the first of these that comes after it. Where the search
/// for the next name begins is kept.
#[inline(never)]
pub fn number_near(book: &TopicBook, name: &[u8], ranked: &[Placed], near: &mut Near) -> Option<u32>
    ensures { result ≡ number_of book.now.docs name.now }
{
    let start = *near;
    let next = start.doc.saturating_add(1);
    near.doc = next;
    if has_name(book, start.doc, name) {
        return Some(start.doc);
    }
    let found = number_ranked(book, name, ranked, start);
    let number = match found.number {
        Some(number) => Some(number),
        None => number_after(book, name, next, found.near.doc),
    };
    near.doc = number.unwrap_or(start.doc).saturating_add(1);
    near.place = found.near.place;
    number
}

/// How the name at a place compares with another. Past the end it is greater.
#[inline(always)]
fn name_order(names: &[Name], place: usize, name: &[u8]) -> Ordering
    ensures within { place < length names.now →
        result ≡ name_cmp (slice_index_or names.now place []) name.now }
    ensures past { length names.now ≤ place → result ≡ Greater }
{
    match names.get(place) {
        Some(each) => compare(each.as_bytes(), name),
        None => Ordering::Greater,
    }
}

/// The place of a name among names, or between those before it and those after it, from a place on before which all
/// come before it: in steps that double, and then by halving.
fn place_from(names: &[Name], name: &[u8], start: usize) -> Result<usize, usize>
    requires { (place : ℕ) → place + 1 ≡ start →
        (place < length names.now) ×
        (name_cmp (slice_index_or names.now place []) name.now ≡ Less) }
    ensures bound { IsSearchInRange result (length names.now) }
    ensures place { IsBinarySearchResult (λ each. name_cmp each name.now) names.now result }
{
    let mut from = start;
    let mut to = names.len();
    let mut step = 0;
    while from < to {
        let ahead = ((to - from) / 2).min(step);
        let place = from + ahead;
        match name_order(names, place, name) {
            Ordering::Less => {
                from = place + 1;
                step = 2 * ahead + 1;
            }
            Ordering::Equal => return Ok(place),
            Ordering::Greater => to = place,
        }
    }
    Err(from)
}

/// The place of a name among names, or between those before it and those after it, looked for near a place.
pub fn name_place(names: &[Name], name: &[u8], near: usize) -> Result<usize, usize>
    ensures bound { IsSearchInRange result (length names.now) }
    ensures place { IsBinarySearchResult (λ each. name_cmp each name.now) names.now result }
{
    let here = name_order(names, near, name);
    if here.is_eq() {
        return Ok(near);
    }
    if here.is_lt() {
        return place_from(names, name, near + 1);
    }
    if near == 0 || name_order(names, near - 1, name).is_lt() {
        return Err(near);
    }
    place_from(names, name, 0)
}
