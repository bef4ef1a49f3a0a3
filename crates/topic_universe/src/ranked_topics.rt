// The topics of a run, ranked.
ghost use Rattle.std.specs.Prelude.{◌≡◌, ◌<◌, [], All, length, map, position, IfOk, MatchOption};
ghost use Rattle.std.specs.List.{IsDistinct};
ghost use Rattle.std.specs.Str.{bytes_eq};
ghost use Rattle.file_rows.specs.Grouped.{names_of, rows_at, rows_in, without_rows, emptied};
ghost use Rattle.topic_universe.specs.Order.{IsTrecOrder};

use crate::ranked_topic::RankedTopic;
use desk_model::Memory;
use desk_text::Score;
use file_rows::{GroupedRows, ValuedRows};
use name_table::{DistinctNames, NumberedNames};
use std::alloc::Global;
use std::marker::Model;

/// Topics, each with its documents in trec_eval's order. Its value is their rows with the scores, which it does not keep.
#[derive(Drop)]
pub struct RankedTopics {
    topics: DistinctNames,
    ranked: Vec<RankedTopic>,
}

impl Model for RankedTopics {
    ghost use Rattle.std.specs.Prelude.{◌≡◌, List, length};
    ghost use Rattle.file_rows.specs.Grouped.{TopicRows};
    ghost use Rattle.file_rows.specs.Names.{topics_in};

    ghost Value = { List TopicRows };

    ghost view = { λ t. topics_in t.topics t.ranked.items };

    ghost invariant = { λ t. length t.topics ≡ length t.ranked.items };
}

impl RankedTopics {
    /// The topics of rows, whose scores are given back.
    pub fn of(alloc: Global, rows: GroupedRows<Score>) -> Result<RankedTopics, Memory>
        requires { All (λ topic. IsDistinct bytes_eq (map (λ row. row.document) topic.rows)) rows }
        ensures { IfOk result (λ topics. topics ≡ rows) }
    {
        let (topics, grouped) = rows.into_parts();
        let ranked = all_ranked(alloc, grouped)?;
        Ok(RankedTopics { topics, ranked })
    }

    /// The names of a topic's documents, the best first, where there are any.
    pub fn names_on(&self, topic: &[u8]) -> Option<&NumberedNames>
        ensures { MatchOption result (rows_in topic.now self.now ≡ []) (λ names.
            IsTrecOrder (rows_in topic.now self.now) names.now) }
    {
        match self.place(topic) {
            Some(t) => Some(self.at(t)),
            None => None,
        }
    }

    /// Gives back the documents of a topic, where it is there. The topic stays, and has no row then.
    pub fn forget(&mut self, alloc: Global, topic: &[u8])
        ensures { self.new ≡ without_rows topic.now self.old }
    {
        match self.place(topic) {
            Some(t) => self.empty(alloc, t),
            None => {}
        }
    }

    // The number of a topic.
    fn place(&self, topic: &[u8]) -> Option<usize>
        ensures { result ≡ position (bytes_eq topic.now) (names_of self.now) }
    {
        self.topics.place(topic)
    }

    // The names of the documents of topic `t`.
    fn at(&self, t: usize) -> &NumberedNames
        requires { t < length self.now }
        ensures { IsTrecOrder (rows_at self.now t) result.now }
    {
        self.ranked[t].names()
    }

    // Gives back the documents of topic `t`.
    fn empty(&mut self, alloc: Global, t: usize)
        requires { t < length self.old }
        ensures { self.new ≡ emptied self.old t }
    {
        let ranked = &mut self.ranked[t];
        *ranked = RankedTopic::new(alloc);
    }
}

// The rows of each topic, ranked.
fn all_ranked(alloc: Global, grouped: Vec<ValuedRows<Score>>) -> Result<Vec<RankedTopic>, Memory>
    requires { All (λ rows. IsDistinct bytes_eq (map (λ row. row.document) rows)) grouped.items }
    ensures { IfOk result (λ ranked. ranked.items ≡ grouped.items) }
{
    let mut ranked = Vec::with_capacity(alloc, grouped.len())?;
    for rows in grouped {
        ranked.push(RankedTopic::of(alloc, rows)?)?;
    }
    Ok(ranked)
}
