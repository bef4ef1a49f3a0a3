// A name with its number, as it is sorted.
ghost use Rattle.std.specs.Prelude.{◌≡◌, slice_index_or};
ghost use Rattle.desk_model.specs.Name.{name_cmp};
ghost use Rattle.topic_universe.specs.Start.{IsStart};

use std::cmp::Ordering;
use std::marker::Model;

// How many bytes of a name are read as one number.
const START: usize = 16;

/// A name that is borrowed, and its number.
#[derive(Drop)]
pub struct Numbered<'n> {
    // The name's first bytes as one number, which decides most comparisons.
    start: u128,
    name: &'n [u8],
    number: usize,
}

impl<'n> Model for Numbered<'n> {
    ghost use Rattle.topic_universe.specs.Sorted.{Numbered as View};
    ghost use Rattle.topic_universe.specs.Start.{IsStart};

    ghost Value = { View };

    ghost view = { λ n. (n.name, n.number) };

    ghost invariant = { λ n. IsStart n.name.now n.start };
}

// Byte `i` of a name, and 0 past its end.
fn byte_or_zero(name: &[u8], i: usize) -> u8
    ensures { result ≡ slice_index_or name.now i 0 }
{
    if i < name.len() { name[i] } else { 0 }
}

// The first bytes of a name as one number, the first byte the greatest. Zeros continue a shorter name.
fn start_of(name: &[u8]) -> u128
    ensures { IsStart name.now result }
{
    let mut start = 0;
    for i in 0..START {
        start = start * 256 + byte_or_zero(name, i) as u128;
    }
    start
}

impl<'n> Numbered<'n> {
    /// A name with its number.
    pub fn new(name: &'n [u8], number: usize) -> Numbered<'n>
        ensures name { result.0.now ≡ name.now }
        ensures number { result.1 ≡ number }
    {
        Numbered {
            start: start_of(name),
            name,
            number,
        }
    }

    /// The name.
    pub fn name(&self) -> &'n [u8]
        ensures { result.now ≡ self.now.0.now }
    {
        self.name
    }

    /// The number of the name.
    pub fn number(&self) -> usize
        ensures { result ≡ self.now.1 }
    {
        self.number
    }

    /// How the names compare.
    pub fn compare(&self, other: &Numbered<'_>) -> Ordering
        ensures { result ≡ name_cmp self.now.0.now other.now.0.now }
    {
        match self.start.cmp(&other.start) {
            Ordering::Equal => self.name.cmp(other.name),
            unequal => unequal,
        }
    }
}
