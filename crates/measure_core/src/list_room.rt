// What is kept of a topic, and of two runs, while the documents of many lists are counted.
ghost use Rattle.std.specs.Prelude.{◌≡◌, ℕ, ◌≤◌, List, length, Some, IfOk};
ghost use Rattle.desk_model.specs.Limits.{DOCUMENT_LIMIT};
ghost use Rattle.desk_model.specs.Ranking.{IsRanking};
ghost use Rattle.desk_model.specs.declared.types.Mark.{Mark as M};

use crate::ranked_rows::place_ranks;
use desk_model::{Mark, Memory, Ranking};
use std::alloc::Global;
use topic_counts::counts::Counts;
use topic_counts::topic::all_documents;

/// What is kept of a topic, and of the first of two runs, while the documents of lists of many pairs are counted.
#[derive(Drop)]
pub struct ListRoom {
    /// The documents of a list. What it holds between two pairs is anything.
    pub docs: Vec<u32>,
    /// The rank of each document in the first run, from 1, and 0 for none.
    pub first: Vec<u32>,
    /// The same of the second run. What it holds between two pairs is anything.
    pub second: Vec<u32>,
    /// The counts of all documents of the topic.
    pub all: Counts,
}

impl ListRoom {
    ghost use Rattle.measure_core.specs.Ranks.{AreRanksIn};
    ghost use Rattle.measure_core.specs.Rooms.{IsRoomFor, IsTopicRoom};

    /// That of a topic, before any run is the first one.
    pub fn new(alloc: Global, marks: &[Mark]) -> Result<ListRoom, Memory>
        requires { length marks.now ≤ DOCUMENT_LIMIT }
        ensures { IfOk result (IsTopicRoom marks.now) }
    {
        let first = vec![in alloc; 0u32; marks.len()]?;
        let second = vec![in alloc; 0u32; marks.len()]?;
        Ok(ListRoom {
            docs: Vec::new(alloc),
            first,
            second,
            all: all_documents(marks),
        })
    }

    /// Makes a run the first one.
    pub fn set_first(&mut self, run: &Ranking)
        requires { IsRanking (length self.old.first.items) run.now }
        ensures { (marks : List M) → IsTopicRoom marks self.old → IsRoomFor marks run.now self.new }
    {
        place_ranks(run, &mut self.first);
    }

    /// Makes a run with this number the first one, unless it is so already. `first` is the number of the first run.
    pub fn change_first(&mut self, first: &mut Option<u32>, number: u32, run: &Ranking)
        requires { IsRanking (length self.old.first.items) run.now }
        ensures first { first.new ≡ Some number }
        ensures room { (marks : List M) → IsTopicRoom marks self.old →
            (first.old ≡ Some number → AreRanksIn marks run.now self.old.first.items) →
            IsRoomFor marks run.now self.new }
    {
        match *first {
            Some(kept) if kept == number => {}
            _ => {
                self.set_first(run);
                *first = Some(number);
            }
        }
    }

    /// Makes a run the second one.
    pub fn set_second(&mut self, run: &Ranking)
        requires { IsRanking (length self.old.second.items) run.now }
        ensures kept { (marks : List M) (first : List ℕ) → IsRoomFor marks first self.old →
            IsRoomFor marks first self.new }
        ensures ranks { (marks : List M) → IsTopicRoom marks self.old →
            AreRanksIn marks run.now self.new.second.items }
    {
        place_ranks(run, &mut self.second);
    }
}
