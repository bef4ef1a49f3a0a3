ghost use Rattle.std.specs.Prelude.{◌≡◌, ◌<◌, [], length, slice_get, slice_set, slice_index_or, Some, IfOk};
ghost use Rattle.desk_model.specs.Graded.{marks_of_file, is_in_pools};

use crate::desk::Desk;
use crate::file_marks::{closed_topics, file_topics};
use crate::types::Mark;
use desk_memory::Memory;
use std::alloc::Global;
use std::marker::Model;

/// A mark for each document of each topic of a desk. Measures, tables and proposals see these alone.
#[derive(Drop)]
pub struct Rows {
    topics: Vec<Vec<Mark>>,
}

impl Model for Rows {
    ghost use Rattle.std.specs.Prelude.{List, map};
    ghost use Rattle.desk_model.specs.declared.types.Mark.{Mark as M};

    ghost Value = { List (List M) };

    ghost view = { λ r. map (λ each. each.items) r.topics.items };
}

impl Rows {
    /// The marks of a topic's documents, by their numbers.
    pub fn topic(&self, t: u32) -> &[Mark]
        requires { t < length self.now }
        ensures { slice_get self.now t ≡ Some result.now }
    {
        &self.topics[t as usize]
    }

    /// Gives a document of a topic another mark.
    pub fn set(&mut self, t: u32, doc: u32, mark: Mark)
        requires topic { t < length self.old }
        requires doc { doc < length (slice_index_or self.old t []) }
        ensures { self.new ≡ slice_set self.old t
            (slice_set (slice_index_or self.old t []) doc mark) }
    {
        let topic = &mut self.topics[t as usize];
        topic[doc as usize] = mark;
    }
}

/// What the judgements say of each document of each topic of a desk, under the pool of a depth or of none.
#[derive(Drop)]
pub struct Marks {
    rows: Rows,
    // Whether each document of each topic is in the pool, where there is a depth.
    pools: Option<Vec<Vec<bool>>>,
}

impl Model for Marks {
    ghost use Rattle.std.specs.Prelude.{map, option_map};
    ghost use Rattle.desk_model.specs.Graded.{Marked};

    ghost Value = { Marked };

    ghost view = { λ m. record { rows = m.rows; pools = option_map (λ pools. map (λ each. each.items) pools.items) m.pools } };
}

impl Marks {
    /// The marks by the grades of the judgements file. The level is the least relevant grade. Under a depth a document
    /// without a grade that no run ranks at the depth or before is closed: its mark is `Other`.
    pub fn of_file(
        alloc: Global,
        desk: &Desk,
        level: u32,
        depth: Option<u32>,
    ) -> Result<Marks, Memory>
        ensures { IfOk result (λ marks. marks ≡ marks_of_file desk.now level depth) }
    {
        match depth {
            None => {
                let topics = file_topics(alloc, desk, level)?;
                Ok(Marks {
                    rows: Rows { topics },
                    pools: None,
                })
            }
            Some(depth) => {
                let (topics, pools) = closed_topics(alloc, desk, level, depth)?;
                Ok(Marks {
                    rows: Rows { topics },
                    pools: Some(pools),
                })
            }
        }
    }

    /// The marks alone, without the pools.
    pub fn rows(&self) -> &Rows
        ensures { result.now ≡ self.now.rows }
    {
        &self.rows
    }

    /// Whether a document is in the pool; each is where there is no depth. It takes no memory.
    pub fn pooled(&self, t: u32, doc: u32) -> bool
        ensures { result ≡ is_in_pools self.now.pools t doc }
    {
        match &self.pools {
            None => true,
            Some(pools) => match pools.get(t as usize) {
                None => true,
                Some(pool) => match pool.get(doc as usize) {
                    None => true,
                    Some(pooled) => *pooled,
                },
            },
        }
    }

    /// Gives a document of a topic another mark. The pools stay.
    pub fn set(&mut self, t: u32, doc: u32, mark: Mark)
        requires topic { t < length self.old.rows }
        requires doc { doc < length (slice_index_or self.old.rows t []) }
        ensures { self.new ≡
            record {
              rows = slice_set self.old.rows t
                  (slice_set (slice_index_or self.old.rows t []) doc mark);
              pools = self.old.pools;
            } }
    {
        self.rows.set(t, doc, mark);
    }
}
