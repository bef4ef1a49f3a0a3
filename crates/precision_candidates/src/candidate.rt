//! The candidates of a run, and the sum of each by one pass.
ghost use Rattle.std.proofs.Props.{props};
ghost use Rattle.std.specs.Prelude.{◌≡◌, ◌-◌, ◌*◌, ◌≤◌, length, if◌then◌else◌};
ghost use Rattle.desk_model.specs.Limits.{DOCUMENT_LIMIT, PARTS_OF_ONE, RANK_LIMIT};
ghost use Rattle.desk_model.specs.Completion.{picked_value};
ghost use Rattle.desk_model.specs.Mark.{is_unjudged};
ghost use Rattle.desk_model.specs.Ranking.{IsRanking};
ghost use Rattle.measure_laws.specs.Candidates.{open_docs};
ghost use Rattle.precision_candidates.specs.Side.{AreCounts, along, candidate_sum, documents_of, number_of, out_of, value_at};

use crate::choice::Choice;
use crate::sums::Sum;
use crate::table::{Parts, Rank, sum_with};
use desk_model::Mark;

/// Whether a document is true where so many unjudged ones are still to be taken, or left out.
pub fn gains(high: bool, left: u32, mark: Mark) -> bool
    ensures { result ≡ picked_value (value_at high left) mark }
{
    match mark {
        Mark::Relevant => true,
        Mark::Other => false,
        Mark::Unjudged => { if left == 0 { !high } else { high } }
    }
}

/// One less where the document is unjudged.
pub fn left_after(left: u32, mark: Mark) -> u32
    ensures { result ≡ left - (if is_unjudged mark then 1 else 0) }
{
    left.saturating_sub(u32::from(mark == Mark::Unjudged))
}

/// A sum out of all true documents, rounded up or down, and 0 out of none.
pub fn quotient(high: bool, sum: u128, count: u32) -> u128
    requires { sum ≤ RANK_LIMIT * PARTS_OF_ONE }
    ensures value { result ≡ out_of high sum count }
    ensures small { result ≤ RANK_LIMIT * PARTS_OF_ONE }
{
    if count == 0 {
        return 0;
    }
    let count = u128::from(count);
    if high {
        (sum + (count - 1)) / count
    } else {
        sum / count
    }
}

/// How many documents of a topic are relevant, and how many can be.
#[derive(Clone, Copy, PartialEq, Eq)]
pub struct Counts {
    pub relevant: u32,
    pub possible: u32,
}

/// One side of a run on a topic, its high candidates or its low ones: the run's documents, the marks of the topic and
/// their counts, and the parts of all ranks.
#[derive(Clone, Copy)]
pub struct Side<'s> {
    pub high: bool,
    pub docs: &'s [u32],
    pub marks: &'s [Mark],
    pub all: Counts,
    pub parts: &'s Parts,
    pub ghost ranking: { IsRanking (length marks.now) docs.now } by { Prim.hlevel props },
    pub ghost counts: { AreCounts marks.now all },
}

/// The sum of the precisions where the first unjudged documents are true and the others not, rounded up,
/// or the other way round, rounded down.
pub fn sum_of(side: &Side<'_>, count: u32) -> u128
    ensures value { result ≡ candidate_sum side.now.high
        (along side.now.marks.now side.now.docs.now) count }
    ensures small { result ≤ RANK_LIMIT * PARTS_OF_ONE }
{
    let mut sum = Sum::NONE;
    let mut left = count;
    let mut rank = 1;
    for doc in side.docs {
        let mark = side.marks[*doc as usize];
        let gain = gains(side.high, left, mark);
        let at = Rank { number: rank };
        sum = sum_with(sum, side.high, gain, at, side.parts.at(at));
        left = left_after(left, mark);
        rank += 1;
    }
    sum.parts
}

/// A candidate of a side, by how many unjudged documents it takes, or leaves out. Its fact: the ranking has so many.
#[derive(Clone, Copy)]
pub struct SideCandidate<'c, 's> {
    pub side: &'c Side<'s>,
    pub count: u32,
    pub ghost within: { count ≤ length (open_docs side.now.marks.now side.now.docs.now) },
}

impl SideCandidate<'_, '_> {
    /// How many documents are true in it.
    pub fn documents(self) -> u32
        ensures value { result ≡
            documents_of self.entry.side.now.high self.entry.side.now.all self.entry.count }
        ensures few { result ≤ DOCUMENT_LIMIT }
    {
        if self.side.high {
            self.side.all.relevant + self.count
        } else {
            self.side.all.possible - self.count
        }
    }

    /// It with its number.
    pub fn choice(self) -> Choice
        ensures count { result.count ≡ self.entry.count }
        ensures value { result.value ≡
            number_of self.entry.side.now.high self.entry.side.now.marks.now
            self.entry.side.now.docs.now self.entry.count }
    {
        let sum = sum_of(self.side, self.count);
        Choice {
            count: self.count,
            value: quotient(self.side.high, sum, self.documents()),
        }
    }
}
