//! The class of a document for a run by its rank there, which takes no memory.
ghost use Rattle.std.specs.Prelude.{◌≡◌, ◌-◌, ◌&&◌, nat_lt, not, true, false, if◌then◌else◌};
ghost use Rattle.desk_model.specs.Completion.{picked_value};
ghost use Rattle.desk_model.specs.Mark.{is_unjudged};
ghost use Rattle.measure_core.specs.OneSide.{is_by};
ghost use Rattle.precision_candidates.specs.Classes.{has};
ghost use Rattle.precision_candidates.specs.Cuts.{AreCuts, last_rank};

use crate::crossing::Classes;
use crate::runs::{ChosenRun, MarkedRun};
use desk_model::Mark;
use measure_core::Class;

/// The rank, from 1, of the last document of a run that its high candidate takes, and of the last one that its low
/// candidate leaves out; 0 where there is none.
#[derive(Clone, Copy, PartialEq, Eq)]
pub struct Cuts {
    pub taken: u32,
    pub left_out: u32,
}

/// The last rank so far of the first unjudged documents, and how many of these are still to come.
#[derive(Clone, Copy, PartialEq, Eq)]
struct Last {
    rank: u32,
    left: u32,
}

impl Last {
    /// With the document of a rank.
    fn with(self, mark: Mark, rank: u32) -> Last
        ensures rank { result.rank ≡
            (if is_unjudged mark && nat_lt 0 self.left then rank else self.rank) }
        ensures left { result.left ≡
            (if is_unjudged mark && nat_lt 0 self.left then self.left - 1 else self.left) }
    {
        match mark {
            Mark::Unjudged => {
                if self.left > 0 {
                    Last {
                        rank,
                        left: self.left - 1,
                    }
                } else {
                    self
                }
            }
            Mark::Relevant | Mark::Other => self,
        }
    }
}

/// The rank of the last of the first so many unjudged documents, and 0 where there is none.
fn last_rank_of(run: &MarkedRun<'_>, count: u32) -> u32
    ensures { result ≡ last_rank run.now.marks.now 0 1 run.now.docs.now count }
{
    let mut last = Last {
        rank: 0,
        left: count,
    };
    let mut rank = 1;
    for doc in run.docs {
        last = last.with(run.marks[*doc as usize], rank);
        rank += 1;
    }
    last.rank
}

/// The cuts of a run, from its chosen candidates.
pub fn cuts_of(run: &ChosenRun<'_>) -> Cuts
    ensures { AreCuts run.now.on.marks.now run.now.on.docs.now result }
{
    Cuts {
        taken: last_rank_of(&run.on, run.chosen.high.count),
        left_out: last_rank_of(&run.on, run.chosen.low.count),
    }
}

/// Whether a rank is no later than a cut; that of an absent document is.
pub fn is_within(cut: u32, rank: Option<u32>) -> bool
    ensures { result ≡ is_by cut rank }
{
    match rank {
        None => false,
        Some(rank) => rank <= cut,
    }
}

/// The class of a document by whether it is true in the high candidate, and in the low one.
fn class_with(high: bool, low: bool) -> Class
    ensures high { has true result ≡ high }
    ensures low { has false result ≡ low }
{
    match (high, low) {
        (true, true) => Class::Both,
        (true, false) => Class::High,
        (false, true) => Class::Low,
        (false, false) => Class::Neither,
    }
}

/// The class of a document by its mark and its rank in the run.
fn class_by(mark: Mark, rank: Option<u32>, cuts: Cuts) -> Class
    ensures high { has true result ≡ picked_value (is_by cuts.taken rank) mark }
    ensures low { has false result ≡ picked_value (not (is_by cuts.left_out rank)) mark }
{
    match mark {
        Mark::Unjudged => class_with(is_within(cuts.taken, rank), !is_within(cuts.left_out, rank)),
        Mark::Relevant => Class::Both,
        Mark::Other => Class::Neither,
    }
}

/// A run on a topic with its chosen candidates and its cuts. Its fact: these are its cuts.
#[derive(Clone, Copy)]
pub struct RankClasses<'r> {
    pub run: ChosenRun<'r>,
    pub cuts: Cuts,
    pub ghost are: { AreCuts run.on.marks.now run.on.docs.now cuts },
}

impl Classes for RankClasses<'_> {
    ghost marks = { λ r. r.run.on.marks.now };

    ghost run = { λ r. r.run.on.docs.now };

    fn chosen(&self) -> &ChosenRun<'_> {
        &self.run
    }

    fn class_of(&self, doc: u32) -> Class {
        let on = &self.run.on;
        class_by(on.marks[doc as usize], on.run.rank_of(doc), self.cuts)
    }
}
