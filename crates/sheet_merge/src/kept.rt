// The entry that is kept of a place while a sheet is read.
ghost use Rattle.std.specs.Prelude.{◌≡◌, IfOk};
ghost use Rattle.sheet_merge.specs.Sheet.{entry_cmp, greater};

use smallvec::SmallVec;
use std::alloc::{AllocError, Global};
use std::cmp::Ordering;
use std::marker::Model;

/// What an assessor wrote, and when. An assessor of up to 16 bytes takes no allocation.
#[derive(Drop)]
pub struct KeptEntry {
    who: SmallVec<u8, 16>,
    stamp: u64,
    grade: i16,
}

impl Model for KeptEntry {
    ghost use Rattle.sheet_merge.specs.Sheet.{SheetEntry};

    ghost Value = { SheetEntry };

    ghost view = { λ e. record { stamp = e.stamp; who = e.who.items; grade = e.grade } };
}

impl KeptEntry {
    /// The entry of these parts. It fails only where memory runs out.
    pub fn new(alloc: Global, stamp: u64, who: &[u8], grade: i16) -> Result<KeptEntry, AllocError>
        ensures { IfOk result (λ entry. entry ≡
            record { stamp = stamp; who = who.now; grade = grade }) }
    {
        Ok(KeptEntry {
            who: SmallVec::from_slice(alloc, who)?,
            stamp,
            grade,
        })
    }

    /// The stamp.
    pub fn stamp(&self) -> u64
        ensures { result ≡ self.now.stamp }
    {
        self.stamp
    }

    /// The assessor.
    pub fn who(&self) -> &[u8]
        ensures { result.now ≡ self.now.who }
    {
        self.who.as_slice()
    }

    /// The grade.
    pub fn grade(&self) -> i16
        ensures { result ≡ self.now.grade }
    {
        self.grade
    }

    /// How two entries compare: by stamp, then by assessor, then by grade.
    pub fn compare(&self, other: &KeptEntry) -> Ordering
        ensures { result ≡ entry_cmp self.now other.now }
    {
        match self.stamp.cmp(&other.stamp) {
            Ordering::Equal => match self.who().cmp(other.who()) {
                Ordering::Equal => self.grade.cmp(&other.grade),
                unequal => unequal,
            },
            unequal => unequal,
        }
    }

    /// Keeps the greater of two entries.
    pub fn raise(&mut self, other: KeptEntry)
        ensures { self.new ≡ greater self.old other }
    {
        match self.compare(&other) {
            Ordering::Less => *self = other,
            _ => {}
        }
    }
}
