// A row of a sheet that stands elsewhere.
ghost use Rattle.std.specs.Prelude.{◌≡◌};
ghost use Rattle.sheet_merge.specs.Packed.{IsNamePair, place_from};
ghost use Rattle.sheet_merge.specs.Sheet.{place_cmp, entry_cmp};

use crate::pair::{first_name, second_name};
use std::cmp::Ordering;
use std::marker::Model;

/// A row of a sheet that stands elsewhere: what an assessor wrote of a document of a topic, and when.
#[derive(Drop)]
pub struct RowRef<'r> {
    // The topic and the document in one.
    place: &'r [u8],
    who: &'r [u8],
    stamp: u64,
    grade: i16,
}

impl<'r> Model for RowRef<'r> {
    ghost use Rattle.sheet_merge.specs.Sheet.{SheetRow};
    ghost use Rattle.sheet_merge.specs.Packed.{IsNamePair, place_from};

    ghost Value = { SheetRow };

    ghost view = { λ r. (place_from r.place.now, record { stamp = r.stamp; who = r.who.now; grade = r.grade }) };

    ghost invariant = { λ r. IsNamePair r.place.now };
}

impl<'r> RowRef<'r> {
    /// A row of these parts, of which the place is a topic and a document in one.
    pub fn new(place: &'r [u8], who: &'r [u8], stamp: u64, grade: i16) -> RowRef<'r>
        requires { IsNamePair place.now }
        ensures { result ≡
            (place_from place.now, record { stamp = stamp; who = who.now; grade = grade }) }
    {
        RowRef {
            place,
            who,
            stamp,
            grade,
        }
    }

    /// The same row.
    pub fn copied(&self) -> RowRef<'r>
        ensures { result ≡ self.now }
    {
        RowRef {
            place: self.place,
            who: self.who,
            stamp: self.stamp,
            grade: self.grade,
        }
    }

    /// The topic and the document in one.
    pub fn place(&self) -> &'r [u8]
        ensures place { place_from result.now ≡ self.now.0 }
        ensures pair { IsNamePair result.now }
    {
        self.place
    }

    /// The topic.
    pub fn topic(&self) -> &'r [u8]
        ensures { result.now ≡ self.now.0.0 }
    {
        first_name(self.place)
    }

    /// The document.
    pub fn document(&self) -> &'r [u8]
        ensures { result.now ≡ self.now.0.1 }
    {
        second_name(self.place)
    }

    /// The assessor.
    pub fn who(&self) -> &'r [u8]
        ensures { result.now ≡ self.now.1.who }
    {
        self.who
    }

    /// The stamp.
    pub fn stamp(&self) -> u64
        ensures { result ≡ self.now.1.stamp }
    {
        self.stamp
    }

    /// The grade.
    pub fn grade(&self) -> i16
        ensures { result ≡ self.now.1.grade }
    {
        self.grade
    }

    /// How the place compares with another: by topic, then by document.
    pub fn compare_place_with(&self, topic: &[u8], document: &[u8]) -> Ordering
        ensures { result ≡ place_cmp self.now.0 (topic.now, document.now) }
    {
        match self.topic().cmp(topic) {
            Ordering::Equal => self.document().cmp(document),
            unequal => unequal,
        }
    }

    /// How the places of two rows compare: by topic, then by document.
    pub fn compare_place(&self, other: &RowRef<'_>) -> Ordering
        ensures { result ≡ place_cmp self.now.0 other.now.0 }
    {
        self.compare_place_with(other.topic(), other.document())
    }

    /// How the entries of two rows compare: by stamp, then by assessor, then by grade.
    pub fn compare_entry(&self, other: &RowRef<'_>) -> Ordering
        ensures { result ≡ entry_cmp self.now.1 other.now.1 }
    {
        match self.stamp.cmp(&other.stamp) {
            Ordering::Equal => match self.who.cmp(other.who) {
                Ordering::Equal => self.grade.cmp(&other.grade),
                unequal => unequal,
            },
            unequal => unequal,
        }
    }
}
