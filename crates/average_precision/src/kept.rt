//! The runs of a topic, and what is kept of each.
ghost use Rattle.std.proofs.Props.{props};
ghost use Rattle.std.specs.Prelude.{◌≡◌, ◌<◌, ◌≤◌, length};
ghost use Rattle.measure_core.specs.Pairs.{AreAllMet, ranking_on, runs_on};
ghost use Rattle.average_precision.specs.Rooms.{AreRunsKept, IsKept};
ghost use Rattle.precision_candidates.specs.Side.{AreCounts};

use desk_model::Mark;
use measure_core::{RunCandidates, TopicRankings};
use precision_candidates::candidate::Counts;
use precision_candidates::choice::Choice;
use precision_candidates::runs::{Chosen, ChosenRun, MarkedRun};

/// The runs of a topic: their rankings, and the topic's marks and their counts. Its facts: the rankings are over the
/// marks, and the counts are theirs.
#[derive(Clone, Copy)]
pub struct TopicRuns<'k, 'd> {
    pub rankings: &'k TopicRankings<'d>,
    pub marks: &'k [Mark],
    pub all: Counts,
    pub ghost met: { AreAllMet marks.now rankings.now } by { Prim.hlevel props },
    pub ghost counts: { AreCounts marks.now all },
}

/// The runs of a topic, and what is kept of each. Its facts: this is kept of them.
#[derive(Clone, Copy)]
pub struct KeptRuns<'k, 'd> {
    pub on: TopicRuns<'k, 'd>,
    pub runs: &'k [RunCandidates],
    pub ghost room: { runs_on on.rankings.now ≤ length runs.now },
    pub ghost each: { AreRunsKept on.marks.now on.rankings.now runs.now },
}

impl<'k> KeptRuns<'k, '_> {
    /// What is kept of a run.
    pub fn kept(&self, run: u32) -> RunCandidates
        requires { run < runs_on self.now.on.rankings.now }
        ensures { IsKept self.now.on.marks.now (ranking_on self.now.on.rankings.now run) result }
    {
        self.runs[run as usize]
    }

    /// A run with its chosen candidates.
    pub fn chosen(&self, run: u32) -> ChosenRun<'k>
        requires { run < runs_on self.now.on.rankings.now }
        ensures marks { result.on.marks.now ≡ self.now.on.marks.now }
        ensures docs { result.on.docs.now ≡ ranking_on self.now.on.rankings.now run }
    {
        let own = self.kept(run);
        let ranking = self.on.rankings.ranking(run);
        let on = MarkedRun {
            run: ranking,
            docs: ranking.docs(),
            marks: self.on.marks,
            all: self.on.all,
        };
        let low = Choice {
            count: own.left_out,
            value: own.lo,
        };
        let high = Choice {
            count: own.taken,
            value: own.hi,
        };
        ChosenRun {
            on,
            chosen: Chosen { low, high },
        }
    }
}
