ghost use Rattle.std.specs.Prelude.{◌≡◌, ◌+◌, ◌-◌, ◌≤◌, ◌<◌, length, take, true, false, if◌then◌else◌};
ghost use Rattle.desk_model.specs.Limits.{DOCUMENT_LIMIT, RANK_LIMIT};
ghost use Rattle.desk_model.specs.Completion.{picked_value};
ghost use Rattle.desk_model.specs.Ranking.{IsRanking, is_in};
ghost use Rattle.desk_model.specs.Score.{true_among};
ghost use Rattle.topic_ends.specs.Counted.{AreAllCounts};

use crate::ranks::is_within;
use crate::relevance::Relevance;
use desk_model::{Mark, Ranking};
use topic_counts::topic;

/// How many of some documents are judged relevant, and how many can be relevant: those and the
/// unjudged ones.
#[derive(Clone, Copy, PartialEq, Eq)]
pub struct RelevantCounts {
    pub relevant: u32,
    pub possible: u32,
}

impl RelevantCounts {
    /// The counts of no documents.
    pub const NONE: RelevantCounts = RelevantCounts {
        relevant: 0,
        possible: 0,
    };

    /// With one more document of this mark.
    pub fn with(self, mark: Mark) -> RelevantCounts
        requires order { self.relevant ≤ self.possible }
        requires few { self.possible < DOCUMENT_LIMIT }
        ensures relevant { result.relevant ≡ self.relevant +
            (if picked_value false mark then 1 else 0) }
        ensures possible { result.possible ≡ self.possible +
            (if picked_value true mark then 1 else 0) }
    {
        RelevantCounts {
            relevant: self.relevant + u32::from(mark == Mark::Relevant),
            possible: self.possible + u32::from(mark != Mark::Other),
        }
    }

    /// Without one document of this mark.
    pub fn without(self, mark: Mark) -> RelevantCounts
        requires relevant { (if picked_value false mark then 1 else 0) ≤ self.relevant }
        requires possible { (if picked_value true mark then 1 else 0) ≤ self.possible }
        ensures relevant { result.relevant + (if picked_value false mark then 1 else 0) ≡
            self.relevant }
        ensures possible { result.possible + (if picked_value true mark then 1 else 0) ≡
            self.possible }
    {
        RelevantCounts {
            relevant: self.relevant - u32::from(mark == Mark::Relevant),
            possible: self.possible - u32::from(mark != Mark::Other),
        }
    }

    /// How many are unjudged.
    pub fn unjudged(self) -> u32
        requires { self.relevant ≤ self.possible }
        ensures { result ≡ self.possible - self.relevant }
    {
        self.possible - self.relevant
    }
}

/// The first k documents, or all where there are fewer.
pub fn prefix(docs: &[u32], k: u32) -> &[u32]
    ensures { result.now ≡ take k docs.now }
{
    &docs[..docs.len().min(k as usize)]
}

/// Whether a document is among the first k of a ranking.
pub fn is_among_first(k: u32, ranking: &Ranking, doc: u32) -> bool
    ensures { result ≡ is_in (take k ranking.now) doc }
{
    is_within(k, ranking.rank_of(doc))
}

/// The counts of all documents of a topic.
pub fn all_documents(marks: &[Mark]) -> RelevantCounts
    requires { length marks.now ≤ DOCUMENT_LIMIT }
    ensures { AreAllCounts marks.now result }
{
    let all = topic::all_documents(marks);
    RelevantCounts {
        relevant: all.relevant,
        possible: all.relevant + all.unjudged,
    }
}

/// How many of a ranking's first k documents are relevant in one completion, one rank after the other.
fn relevant_by_rank<T: Relevance>(k: u32, ranking: &Ranking, relevant: &T) -> u32
    requires { IsRanking (T.universe relevant.now) ranking.now }
    ensures count { result ≡ true_among (T.truth relevant.now) k ranking.now }
    ensures few { result ≤ RANK_LIMIT }
{
    let mut count = 0;
    for doc in prefix(ranking.docs(), k) {
        if relevant.is_relevant(*doc) {
            count += 1;
        }
    }
    count
}

/// The same in the order of the documents: each is looked for near the one before.
fn relevant_by_doc<T: Relevance>(k: u32, ranking: &Ranking, relevant: &T) -> u32
    requires { IsRanking (T.universe relevant.now) ranking.now }
    ensures count { result ≡ true_among (T.truth relevant.now) k ranking.now }
    ensures few { result ≤ RANK_LIMIT }
{
    let mut count = 0;
    let mut near = 0;
    for place in ranking.by_doc() {
        if place.rank <= k {
            let found = relevant.find_relevant(place.doc, near);
            near = found.near;
            count += u32::from(found.is_found);
        }
    }
    count
}

/// How many of a ranking's first k documents are relevant in one completion. They are counted in the order of their
/// ranks where they are few of the ranking, and else in the order of the documents.
pub fn relevant_among<T: Relevance>(k: u32, ranking: &Ranking, relevant: &T) -> u32
    requires { IsRanking (T.universe relevant.now) ranking.now }
    ensures count { result ≡ true_among (T.truth relevant.now) k ranking.now }
    ensures few { result ≤ RANK_LIMIT }
{
    if (k as usize) < ranking.docs().len() / 16 {
        relevant_by_rank(k, ranking, relevant)
    } else {
        relevant_by_doc(k, ranking, relevant)
    }
}
