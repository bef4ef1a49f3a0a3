// A run that was read and ranked.
ghost use Rattle.std.specs.Prelude.{◌≡◌, ◌≤◌, [], List, ℕ, true, false, All, length, map, IfOk, MatchOption};
ghost use Rattle.std.specs.List.{IsDistinct};
ghost use Rattle.std.specs.Str.{bytes_eq};
ghost use Rattle.desk_model.specs.Name.{is_name};
ghost use Rattle.file_rows.specs.Grouped.{names_of, row_count};
ghost use Rattle.run_reader.specs.Run.{IsWithinLimits, rows_on_topic};
ghost use Rattle.run_reader.specs.declared.limits.TheConstants.{MOST_RANKS};
ghost use Rattle.topic_universe.specs.Order.{IsTrecOrder};

use crate::ranked_topics::RankedTopics;
use desk_model::{Memory, Name};
use name_table::NumberedNames;
use run_reader::{RunRows, Used};
use std::alloc::Global;
use std::marker::Model;

/// A run whose documents are ranked on each topic. Its value is the run with its scores, which it does not keep.
#[derive(Drop)]
pub struct RankedRun {
    name: Name,
    topics: RankedTopics,
    used: Used,
}

impl Model for RankedRun {
    ghost use Rattle.std.specs.Prelude.{◌≡◌, true};
    ghost use Rattle.desk_model.specs.Name.{is_name};
    ghost use Rattle.run_reader.specs.Run.{Run, IsRun, IsWithinLimits};

    ghost Value = { Run };

    ghost view = { λ r. record { name = r.name; topics = r.topics; used = r.used } };

    ghost invariant = { λ r. (is_name r.name ≡ true) × IsRun r.topics × IsWithinLimits r.used };
}

impl RankedRun {
    /// A run, whose scores are given back once its documents are ranked. Where the rows of a topic stand in trec_eval's order their
    /// names stay where they are, and else they are copied.
    pub fn of(alloc: Global, run: RunRows) -> Result<RankedRun, Memory>
        ensures { IfOk result (λ ranked. ranked ≡ run) }
    {
        let (name, rows, used) = run.into_parts();
        let topics = RankedTopics::of(alloc, rows)?;
        Ok(RankedRun { name, topics, used })
    }

    /// Gives back the documents of a topic, which has no row then. All else stays as it is.
    pub fn forget(&mut self, alloc: Global, topic: &[u8])
        ensures gone { rows_on_topic self.new topic.now ≡ [] }
        ensures others { (other : List ℕ) → bytes_eq topic.now other ≡ false →
            rows_on_topic self.new other ≡ rows_on_topic self.old other }
        ensures topics { names_of self.new.topics ≡ names_of self.old.topics }
        ensures rows { row_count self.new.topics ≤ row_count self.old.topics }
        ensures name { self.new.name ≡ self.old.name }
        ensures used { self.new.used ≡ self.old.used }
    {
        self.topics.forget(alloc, topic);
    }

    /// The run's name.
    pub fn name(&self) -> &[u8]
        ensures value { result.now ≡ self.now.name }
        ensures name { is_name self.now.name ≡ true }
    {
        self.name.as_bytes()
    }

    /// What this and the earlier files used.
    pub fn used(&self) -> Used
        ensures value { result ≡ self.now.used }
        ensures within { IsWithinLimits result }
    {
        self.used
    }

    /// The names of the documents of a topic's rows in trec_eval's order, where there are any.
    pub fn names_on(&self, topic: &[u8]) -> Option<&NumberedNames>
        ensures order { MatchOption result (rows_on_topic self.now topic.now ≡ []) (λ names.
            IsTrecOrder (rows_on_topic self.now topic.now) names.now) }
        ensures distinct { IsDistinct bytes_eq
            (map (λ row. row.document) (rows_on_topic self.now topic.now)) }
        ensures names { All (λ row. is_name row.document ≡ true)
            (rows_on_topic self.now topic.now) }
        ensures few { length (rows_on_topic self.now topic.now) ≤ MOST_RANKS }
    {
        self.topics.names_on(topic)
    }
}
