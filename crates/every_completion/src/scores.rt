ghost use Rattle.std.proofs.Props.{props};
ghost use Rattle.std.specs.Prelude.{◌≡◌, ◌≤◌, length, [], false, IfSome};
ghost use Rattle.desk_model.specs.Limits.{DOCUMENT_LIMIT, RANK_LIMIT};
ghost use Rattle.desk_model.specs.Completion.{picked_value, with_picked};
ghost use Rattle.desk_model.specs.Ranking.{IsRanking};
ghost use Rattle.desk_model.specs.Fraction.{over};
ghost use Rattle.desk_model.specs.Score.{true_among, true_count, first_true, score};
ghost use Rattle.every_completion.specs.Walk.{value_of};

use crate::fraction::ScoreFraction;
use crate::scale::Scale;
use desk_model::{Mark, MeasureName};

/// A ranking over a topic's marks. Its facts: it is one, and the topic has at most 25,000,000 documents.
#[derive(Clone, Copy)]
pub struct MarkedDocs<'m> {
    pub docs: &'m [u32],
    pub marks: &'m [Mark],
    pub ghost ranking: { IsRanking (length marks.now) docs.now } by { Prim.hlevel props },
    pub ghost universe: { length marks.now ≤ DOCUMENT_LIMIT },
}

/// n over d, and 0 where d is 0.
fn quotient(num: u64, den: u64) -> ScoreFraction
    requires few { num ≤ RANK_LIMIT }
    requires small { den ≤ DOCUMENT_LIMIT }
    ensures { value_of result ≡ over num den }
{
    if den == 0 {
        ScoreFraction { num: 0, den: 1 }
    } else {
        ScoreFraction { num, den }
    }
}

fn is_relevant(mark: Mark) -> bool
    ensures { result ≡ picked_value false mark }
{
    match mark {
        Mark::Relevant => true,
        Mark::Unjudged | Mark::Other => false,
    }
}

/// The number of relevant documents among the first k.
fn relevant_among(k: usize, of: &MarkedDocs<'_>) -> u64
    ensures value { result ≡
        true_among (with_picked of.now.marks.now (λ _. false)) k of.now.docs.now }
    ensures few { result ≤ length of.now.docs.now }
{
    let prefix = &of.docs[..of.docs.len().min(k)];
    let mut n: u64 = 0;
    for doc in prefix {
        if is_relevant(of.marks[*doc as usize]) {
            n += 1;
        }
    }
    n
}

/// The number of relevant documents.
fn relevant_count(marks: &[Mark]) -> u64
    ensures value { result ≡ true_count (with_picked marks.now (λ _. false)) (length marks.now) }
    ensures few { result ≤ length marks.now }
{
    let mut n: u64 = 0;
    for doc in 0..marks.len() {
        if is_relevant(marks[doc]) {
            n += 1;
        }
    }
    n
}

/// The first rank with a relevant document.
fn first_relevant(of: &MarkedDocs<'_>) -> Option<u64>
    ensures value { result ≡
        first_true (with_picked of.now.marks.now (λ _. false)) of.now.docs.now }
    ensures within { IfSome result (λ rank. rank ≤ length of.now.docs.now) }
{
    for (place, doc) in of.docs.iter().enumerate() {
        if is_relevant(of.marks[*doc as usize]) {
            return Some(place as u64 + 1);
        }
    }
    None
}

/// What a ranking scores where its relevant documents are true and all others false.
pub fn score_of(scale: &Scale, of: &MarkedDocs<'_>) -> ScoreFraction
    ensures { value_of result ≡
        score scale.now.measure (length of.now.marks.now)
        (with_picked of.now.marks.now (λ _. false)) of.now.docs.now [] }
{
    match scale.measure {
        MeasureName::Precision(k) => quotient(relevant_among(k as usize, of), k as u64),
        MeasureName::Recall(k) => {
            quotient(relevant_among(k as usize, of), relevant_count(of.marks))
        }
        MeasureName::RPrecision => {
            let relevant = relevant_count(of.marks);
            quotient(relevant_among(relevant as usize, of), relevant)
        }
        MeasureName::Reciprocal => match first_relevant(of) {
            Some(rank) => quotient(1, rank),
            None => quotient(0, 1),
        },
        MeasureName::Biased { .. } | MeasureName::AveragePrecision => unreachable!(),
    }
}
