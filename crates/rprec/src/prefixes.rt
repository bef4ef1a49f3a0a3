ghost use Rattle.std.proofs.Props.{props};
ghost use Rattle.std.specs.Prelude.{◌≡◌, ◌<◌, length};
ghost use Rattle.desk_model.specs.Ranking.{IsRanking};
ghost use Rattle.rprec.specs.Greedy.{swapped};
ghost use Rattle.rprec.specs.Packed.{IsPackedNext, counts_for, pack, unpack, unpacked_of};

use desk_model::Mark;
use topic_counts::counts::Counts;

/// The documents of a run by rank, with the marks of the topic's documents.
#[derive(Clone, Copy)]
pub struct MarkedDocs<'d, 'm> {
    pub docs: &'d [u32],
    pub marks: &'m [Mark],
    pub ghost met: { IsRanking (length marks.now) docs.now } by { Prim.hlevel props },
}

/// The counts of two runs' first documents: of all relevant ones of each, and of the unjudged ones
/// that it alone has there.
#[derive(Clone, Copy, PartialEq, Eq)]
pub struct Prefixes {
    pub first: Counts,
    pub second: Counts,
}

/// The counts of two runs' first documents, where one number holds both counts of a run.
#[derive(Clone, Copy, PartialEq, Eq)]
pub struct Packed {
    pub first: u32,
    pub second: u32,
}

/// What a relevant document adds to a number that holds two counts, where an unjudged one adds 1.
const RELEVANT: u32 = 65_536;

/// The two counts in a number.
pub fn counts_in(number: u32) -> Counts
    ensures { result ≡ unpack number }
{
    Counts {
        relevant: number / RELEVANT,
        unjudged: number % RELEVANT,
    }
}

impl Packed {
    /// The counts, each by itself.
    pub fn unpacked(self) -> Prefixes
        ensures { result ≡ unpacked_of self }
    {
        Prefixes {
            first: counts_in(self.first),
            second: counts_in(self.second),
        }
    }
}

impl Prefixes {
    /// With the swapped runs.
    pub fn swapped(self) -> Prefixes
        ensures { result ≡ swapped self }
    {
        Prefixes {
            first: self.second,
            second: self.first,
        }
    }
}

/// The number that holds the counts of one document of this mark, which the compiler makes a table of.
fn number_for(mark: Mark) -> u32
    ensures { result ≡ pack (counts_for mark) }
{
    match mark {
        Mark::Relevant => RELEVANT,
        Mark::Unjudged => 1,
        Mark::Other => 0,
    }
}

/// The counts of the document at a place of a ranking, packed.
#[inline]
pub fn number_at(run: &MarkedDocs, place: u32) -> u32
    requires { place < length run.now.docs.now }
    ensures { IsPackedNext run.now.marks.now run.now.docs.now place result }
{
    number_for(run.marks[run.docs[place as usize] as usize])
}

/// The counts of the document at a place of a ranking, packed, if there is one.
#[inline]
pub fn next_number(run: &MarkedDocs, place: u32) -> u32
    ensures { IsPackedNext run.now.marks.now run.now.docs.now place result }
{
    if (place as usize) < run.docs.len() {
        number_at(run, place)
    } else {
        0
    }
}
