//! A run on a topic, with its chosen candidates.
ghost use Rattle.std.proofs.Props.{props};
ghost use Rattle.std.specs.Prelude.{◌≡◌, length};
ghost use Rattle.desk_model.specs.Ranking.{IsRanking};
ghost use Rattle.precision_candidates.specs.Classes.{AreDocuments};
ghost use Rattle.precision_candidates.specs.Runs.{AreChosen};
ghost use Rattle.precision_candidates.specs.Side.{AreCounts};

use crate::candidate::{Counts, Side};
use crate::choice::Choice;
use crate::crossing::Documents;
use crate::pruned::pruned;
use crate::table::Parts;
use desk_model::{Mark, Ranking};

/// A run on a topic: its ranking, as it is and as a list of documents, and the topic's marks and their counts. Its
/// facts: the ranking is over the marks, and the counts are theirs.
#[derive(Clone, Copy)]
pub struct MarkedRun<'r> {
    pub run: &'r Ranking,
    pub docs: &'r [u32],
    pub marks: &'r [Mark],
    pub all: Counts,
    pub ghost listed: { docs.now ≡ run.now },
    pub ghost ranking: { IsRanking (length marks.now) docs.now } by { Prim.hlevel props },
    pub ghost counts: { AreCounts marks.now all },
}

/// The low and the high candidate of a run that are chosen: by how many unjudged documents the one leaves out and
/// the other takes, each with its number.
#[derive(Clone, Copy)]
pub struct Chosen {
    pub low: Choice,
    pub high: Choice,
}

/// The chosen candidates of a run.
pub fn chosen_of(run: &MarkedRun<'_>, parts: &Parts) -> Chosen
    ensures { AreChosen run.now.marks.now run.now.docs.now result }
{
    Chosen {
        low: pruned(&Side {
            high: false,
            docs: run.docs,
            marks: run.marks,
            all: run.all,
            parts,
        }),
        high: pruned(&Side {
            high: true,
            docs: run.docs,
            marks: run.marks,
            all: run.all,
            parts,
        }),
    }
}

/// A run on a topic with its chosen candidates. Its fact: they are the chosen ones.
#[derive(Clone, Copy)]
pub struct ChosenRun<'r> {
    pub on: MarkedRun<'r>,
    pub chosen: Chosen,
    pub ghost are: { AreChosen on.marks.now on.docs.now chosen },
}

impl ChosenRun<'_> {
    /// How many documents are true in the two candidates.
    pub fn documents(&self) -> Documents
        ensures { AreDocuments self.now.on.marks.now self.now.on.docs.now result }
    {
        Documents {
            in_high: self.on.all.relevant + self.chosen.high.count,
            in_low: self.on.all.possible - self.chosen.low.count,
        }
    }
}
