// The next document to judge.
ghost use Rattle.std.specs.Prelude.{◌≡◌, ◌<◌, length, IfSome};
ghost use Rattle.desk_model.specs.Desk.{AreMarksOf};
ghost use Rattle.desk_model.specs.Named.{book_at};
ghost use Rattle.desk_model.specs.Pairs.{pairs_of};
ghost use Rattle.next_document.specs.Proposal.{IsNext};

use crate::standing::{MarkedDesk, Standing, TopicStanding};
use desk_model::{Desk, Marks, Verdict};
use measure_core::Measure;

/// A document that is proposed for judging.
#[derive(Clone, Copy, PartialEq, Eq)]
pub struct Proposal {
    /// The number of the topic, from 0.
    pub topic: u32,
    /// The number of the document in the topic's universe, from 0.
    pub doc: u32,
    /// Its total: the sum of its weights over the pairs that are not settled, in units of the measure.
    pub weight: u128,
}

/// The document to judge next, and `None` exactly where no unjudged document weighs anything in a pair that is not
/// settled.
///
/// It is the unjudged document with the greatest total, the sum of its weights (`Measure::weight`) over the pairs whose
/// verdict is `Open` or `Close`; of those with the same total the one whose topic has the smaller name, and then that
/// with the smaller name. The verdicts are those of the pairs in the order of a table. It takes no memory.
///
/// After Carterette, Allan and Sitaraman, SIGIR 2006; the rule is the desk's own.
pub fn next<'x, M: Measure>(
    measure: &'x M,
    desk: &'x Desk,
    marks: &'x Marks,
    verdicts: &'x [Verdict],
) -> Option<Proposal>
    requires marks { AreMarksOf desk.now marks.now.rows }
    requires verdicts { length verdicts.now ≡ length (pairs_of desk.now.runs) }
    ensures next { IsNext
        (record {
          measure = M.measured measure.now;
          desk = desk.now;
          marks = marks.now.rows;
          verdicts = verdicts.now;
        }) result }
    ensures topic { IfSome result (λ p. p.topic < length desk.now.topics) }
    ensures doc { IfSome result (λ p. p.doc < length (book_at desk.now p.topic).docs) }
{
    let rows = marks.rows();
    let standing = Standing {
        measure,
        on: MarkedDesk { desk, marks: rows },
        verdicts,
    };
    let mut best = None;
    for topic in 0..desk.topic_count() {
        let here = TopicStanding {
            standing,
            number: topic,
        };
        best = here.best_with_topic(best);
    }
    best
}
