// The pool of a depth.
ghost use Rattle.std.specs.Prelude.{◌≡◌, ◌<◌, ◌≤◌, ◌+◌, [], length, slice_index_or, take};
ghost use Rattle.desk_model.specs.Limits.{DOCUMENT_LIMIT};
ghost use Rattle.desk_model.specs.Desk.{AreMarksOf, is_pooled, ranking_of};
ghost use Rattle.desk_model.specs.Ranking.{is_in};
ghost use Rattle.desk_model.specs.Pool.{pool_of, IsCountOf};

use crate::{Desk, Mark, Marks};

/// How many documents of a topic some run ranks at a depth or before, and what the judgements say of them.
#[derive(Clone, Copy, PartialEq, Eq)]
pub struct PoolCount {
    /// All of them.
    pub size: u32,
    /// Those that are not unjudged: with a grade of at least 0, or closed by the depth of the marks.
    pub judged: u32,
    /// Those with a grade of at least the level.
    pub relevant: u32,
    /// Those that are unjudged: without a grade, or with one below 0, and not closed.
    pub unjudged: u32,
}

impl PoolCount {
    ghost use Rattle.std.specs.Prelude.{cond, not};
    ghost use Rattle.desk_model.specs.Mark.{is_unjudged};
    ghost use Rattle.desk_model.specs.Pool.{is_relevant};

    // The counts with one more document.
    fn with(self, mark: Mark) -> PoolCount
        requires size { self.size < DOCUMENT_LIMIT }
        requires judged { self.judged ≤ self.size }
        requires relevant { self.relevant ≤ self.size }
        requires unjudged { self.unjudged ≤ self.size }
        ensures size { result.size ≡ self.size + 1 }
        ensures judged { result.judged ≡ self.judged + cond (not (is_unjudged mark)) 1 0 }
        ensures relevant { result.relevant ≡ self.relevant + cond (is_relevant mark) 1 0 }
        ensures unjudged { result.unjudged ≡ self.unjudged + cond (is_unjudged mark) 1 0 }
    {
        match mark {
            Mark::Unjudged => PoolCount {
                size: self.size + 1,
                unjudged: self.unjudged + 1,
                ..self
            },
            Mark::Relevant => PoolCount {
                size: self.size + 1,
                judged: self.judged + 1,
                relevant: self.relevant + 1,
                ..self
            },
            Mark::Other => PoolCount {
                size: self.size + 1,
                judged: self.judged + 1,
                ..self
            },
        }
    }
}

// Whether a run ranks a document at a depth or before.
fn is_ranked(desk: &Desk, run: u32, topic: u32, depth: u32, doc: u32) -> bool
    requires run { run < length desk.now.runs }
    requires topic { topic < length desk.now.topics }
    ensures { result ≡ is_in (take depth (ranking_of desk.now run topic)) doc }
{
    match desk.ranking(run, topic).rank_of(doc) {
        Some(rank) => rank <= depth,
        None => false,
    }
}

// Whether some run ranks a document at a depth or before.
fn is_in_pool(desk: &Desk, topic: u32, depth: u32, doc: u32) -> bool
    requires { topic < length desk.now.topics }
    ensures { result ≡ is_pooled desk.now topic depth doc }
{
    for run in 0..desk.run_count() {
        if is_ranked(desk, run, topic, depth, doc) {
            return true;
        }
    }
    false
}

/// How many documents of a topic some run ranks at `depth` or before, and what the marks say of them. The marks may be
/// under another depth: a document that it closes counts as judged.
pub fn pool_count(desk: &Desk, marks: &Marks, topic: u32, depth: u32) -> PoolCount
    requires topic { topic < length desk.now.topics }
    requires marks { AreMarksOf desk.now marks.now.rows }
    ensures { IsCountOf (pool_of desk.now topic depth) (slice_index_or marks.now.rows topic [])
        result }
{
    let marks = marks.rows().topic(topic);
    let mut count = PoolCount {
        size: 0,
        judged: 0,
        relevant: 0,
        unjudged: 0,
    };
    for doc in 0..desk.topic(topic).doc_count() {
        if is_in_pool(desk, topic, depth, doc) {
            count = count.with(marks[doc as usize]);
        }
    }
    count
}
