//! The completions that a run's bounds under average precision are looked for among. On the high side the first of its
//! unjudged documents are relevant and the later ones not, on the low side the other way round; a candidate is named by
//! how many the first ones are.
ghost use Rattle.std.proofs.Props.{props};
ghost use Rattle.std.specs.Prelude.{◌≡◌, ◌-◌, ◌*◌, ◌≤◌, length, if◌then◌else◌};
ghost use Rattle.desk_model.specs.Completion.{picked_value};
ghost use Rattle.desk_model.specs.Limits.{DOCUMENT_LIMIT, PARTS_OF_ONE, RANK_LIMIT};
ghost use Rattle.desk_model.specs.Mark.{is_unjudged};
ghost use Rattle.desk_model.specs.Ranking.{IsRanking};
ghost use Rattle.measure_laws.specs.Candidates.{open_docs};
ghost use Rattle.topic_ends.specs.Candidates.{along, candidate_sum, documents_of, number_of, out_of, value_at};
ghost use Rattle.topic_ends.specs.Counted.{AreAllCounts};

use crate::counts::RelevantCounts;
use crate::part_sum::{PartSum, Rank};
use desk_model::Mark;

/// Whether a document is relevant where so many of the first unjudged ones are still to come.
pub fn gains(high: bool, left: u32, mark: Mark) -> bool
    ensures { result ≡ picked_value (value_at high left) mark }
{
    match mark {
        Mark::Relevant => true,
        Mark::Other => false,
        Mark::Unjudged => { if left == 0 { !high } else { high } }
    }
}

/// One less where the document is unjudged.
fn left_after(left: u32, mark: Mark) -> u32
    ensures { result ≡ left - (if is_unjudged mark then 1 else 0) }
{
    left.saturating_sub(u32::from(mark == Mark::Unjudged))
}

/// A run's ranking on a topic, with the marks of the topic's documents and their counts.
#[derive(Clone, Copy)]
pub struct MarkedRun<'d, 'm> {
    pub docs: &'d [u32],
    pub marks: &'m [Mark],
    pub all: RelevantCounts,
    pub ghost ranking: { IsRanking (length marks.now) docs.now } by { Prim.hlevel props },
    pub ghost few: { length marks.now ≤ DOCUMENT_LIMIT },
    pub ghost counts: { AreAllCounts marks.now all },
}

/// The sum of a candidate's precisions, rounded up on the high side and down on the low one.
pub fn sum_of(high: bool, count: u32, run: &MarkedRun<'_, '_>) -> u128
    ensures value { result ≡ candidate_sum high (along run.now.marks.now run.now.docs.now) count }
    ensures small { result ≤ RANK_LIMIT * PARTS_OF_ONE }
{
    let mut sum = PartSum::NONE;
    let mut left = count;
    let mut rank = 1;
    for doc in run.docs {
        let mark = run.marks[*doc as usize];
        sum = sum.with(high, gains(high, left, mark), Rank { number: rank });
        left = left_after(left, mark);
        rank += 1;
    }
    sum.parts
}

/// A sum out of all relevant documents, rounded up or down, and 0 out of none.
pub fn quotient(high: bool, sum: u128, count: u32) -> u128
    requires sum { sum ≤ RANK_LIMIT * PARTS_OF_ONE }
    requires count { count ≤ DOCUMENT_LIMIT }
    ensures value { result ≡ out_of high sum count }
    ensures small { result ≤ RANK_LIMIT * PARTS_OF_ONE }
{
    if count == 0 {
        return 0;
    }
    let count = u128::from(count);
    if high {
        (sum + (count - 1)) / count
    } else {
        sum / count
    }
}

/// How many documents of the topic are relevant in a candidate.
pub fn documents_in(high: bool, count: u32, run: &MarkedRun<'_, '_>) -> u32
    requires { count ≤ length (open_docs run.now.marks.now run.now.docs.now) }
    ensures value { result ≡ documents_of high run.now.all count }
    ensures few { result ≤ DOCUMENT_LIMIT }
{
    if high {
        run.all.relevant + count
    } else {
        run.all.possible - count
    }
}

/// Average precision in a candidate, in parts, rounded up on the high side and down on the low one.
pub fn number(high: bool, count: u32, run: &MarkedRun<'_, '_>) -> u128
    requires { count ≤ length (open_docs run.now.marks.now run.now.docs.now) }
    ensures value { result ≡ number_of high run.now.marks.now run.now.docs.now count }
    ensures small { result ≤ RANK_LIMIT * PARTS_OF_ONE }
{
    quotient(
        high,
        sum_of(high, count, run),
        documents_in(high, count, run),
    )
}
