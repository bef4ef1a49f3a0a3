ghost use Rattle.std.specs.Prelude.{◌≡◌, ◌+◌, ◌≤◌, ◌<◌, length, take, All, pos, true, false, ◌&&◌, if◌then◌else◌};
ghost use Rattle.desk_model.specs.Limits.{RANK_LIMIT};
ghost use Rattle.desk_model.specs.Completion.{picked_value};
ghost use Rattle.desk_model.specs.Ranking.{IsRanking, is_in};
ghost use Rattle.desk_model.specs.Classes.{only_count, prefix_count};
ghost use Rattle.topic_counts.specs.Own.{AreOwnCounts};

use crate::shared::shared_documents;
use desk_model::{Mark, Ranking};

/// How many of some documents are relevant, and how many unjudged.
#[derive(Clone, Copy, PartialEq, Eq)]
pub struct Counts {
    pub relevant: u32,
    pub unjudged: u32,
}

impl Counts {
    pub const NONE: Counts = Counts {
        relevant: 0,
        unjudged: 0,
    };

    /// With one more document of this mark.
    pub fn with(self, mark: Mark) -> Counts
        requires { self.relevant + self.unjudged < RANK_LIMIT }
        ensures relevant { result.relevant ≡ self.relevant +
            (if picked_value false mark then 1 else 0) }
        ensures either { result.relevant + result.unjudged ≡ self.relevant + self.unjudged +
            (if picked_value true mark then 1 else 0) }
    {
        self.with_if(true, mark)
    }

    /// With one more document of this mark if it is to be counted, without a branch.
    pub fn with_if(self, counted: bool, mark: Mark) -> Counts
        requires { self.relevant + self.unjudged ≤ RANK_LIMIT }
        ensures relevant { result.relevant ≡ self.relevant +
            (if picked_value false mark && counted then 1 else 0) }
        ensures either { result.relevant + result.unjudged ≡ self.relevant + self.unjudged +
            (if picked_value true mark && counted then 1 else 0) }
    {
        Counts {
            relevant: self.relevant + u32::from(counted & (mark == Mark::Relevant)),
            unjudged: self.unjudged + u32::from(counted & (mark == Mark::Unjudged)),
        }
    }

    /// Without some of them.
    pub fn without(self, some: Counts) -> Counts
        requires relevant { some.relevant ≤ self.relevant }
        requires unjudged { some.unjudged ≤ self.unjudged }
        ensures relevant { result.relevant + some.relevant ≡ self.relevant }
        ensures unjudged { result.unjudged + some.unjudged ≡ self.unjudged }
    {
        Counts {
            relevant: self.relevant - some.relevant,
            unjudged: self.unjudged - some.unjudged,
        }
    }

    /// The number of them that are true where no unjudged one is.
    pub fn least(self) -> i64
        ensures { result ≡ pos self.relevant }
    {
        self.relevant as i64
    }

    /// The number of them that are true where each unjudged one is.
    pub fn most(self) -> i64
        requires { self.relevant + self.unjudged ≤ RANK_LIMIT }
        ensures { result ≡ pos (self.relevant + self.unjudged) }
    {
        (self.relevant + self.unjudged) as i64
    }
}

/// The counts of the documents that each of two rankings has among its first k, and the other not.
#[derive(Clone, Copy, PartialEq, Eq)]
pub struct OwnCounts {
    pub first: Counts,
    pub second: Counts,
}

/// Up to which k it is faster to look each document up in the other ranking than to walk over both.
const LOOKED_UP: u32 = 256;

/// The first k documents, or all where there are fewer.
pub fn prefix(docs: &[u32], k: u32) -> &[u32]
    ensures { result.now ≡ take k docs.now }
{
    &docs[..docs.len().min(k as usize)]
}

/// Whether a document is among the first k: by a scan where k is small, else by its rank.
pub fn is_among_first(k: u32, ranking: &Ranking, doc: u32) -> bool
    ensures { result ≡ is_in (take k ranking.now) doc }
{
    if k <= 32 {
        prefix(ranking.docs(), k).contains(&doc)
    } else {
        match ranking.rank_of(doc) {
            Some(rank) => rank <= k,
            None => false,
        }
    }
}

/// The counts of a ranking's first k documents.
pub fn prefix_documents(k: u32, ranking: &Ranking, marks: &[Mark]) -> Counts
    requires { IsRanking (length marks.now) ranking.now }
    ensures least { result.relevant ≡ prefix_count false k marks.now ranking.now }
    ensures most { result.relevant + result.unjudged ≡ prefix_count true k marks.now ranking.now }
    ensures few { result.relevant + result.unjudged ≤ RANK_LIMIT }
{
    let mut counts = Counts::NONE;
    for doc in prefix(ranking.docs(), k) {
        counts = counts.with(marks[*doc as usize]);
    }
    counts
}

/// The counts of a ranking's first k documents that are not among the first k of another.
pub fn own_documents(k: u32, ranking: &Ranking, other: &Ranking, marks: &[Mark]) -> Counts
    requires { IsRanking (length marks.now) ranking.now }
    ensures least { result.relevant ≡
        only_count false marks.now (take k ranking.now) (take k other.now) }
    ensures most { result.relevant + result.unjudged ≡
        only_count true marks.now (take k ranking.now) (take k other.now) }
    ensures few { result.relevant + result.unjudged ≤ RANK_LIMIT }
{
    let mut counts = Counts::NONE;
    for doc in prefix(ranking.docs(), k) {
        let mark = marks[*doc as usize];
        if mark != Mark::Other && !is_among_first(k, other, *doc) {
            counts = counts.with(mark);
        }
    }
    counts
}

/// The counts of the documents that each of two rankings has among its first k, and the other not.
pub fn own_counts(k: u32, a: &Ranking, b: &Ranking, marks: &[Mark]) -> OwnCounts
    requires first { IsRanking (length marks.now) a.now }
    requires second { IsRanking (length marks.now) b.now }
    ensures first { AreOwnCounts k marks.now a.now b.now result.first }
    ensures second { AreOwnCounts k marks.now b.now a.now result.second }
{
    if k <= LOOKED_UP {
        return OwnCounts {
            first: own_documents(k, a, b, marks),
            second: own_documents(k, b, a, marks),
        };
    }
    let shared = shared_documents(k, a, b, marks);
    OwnCounts {
        first: prefix_documents(k, a, marks).without(shared),
        second: prefix_documents(k, b, marks).without(shared),
    }
}
