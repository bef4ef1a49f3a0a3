ghost use Rattle.std.specs.Prelude.{◌≡◌, ◌≤◌, true, length, IfOk, pos};
ghost use Rattle.desk_model.specs.Limits.{DOCUMENT_LIMIT, RANK_LIMIT};
ghost use Rattle.desk_model.specs.Ranking.{IsRanking};
ghost use Rattle.desk_model.specs.declared.types.MeasureName.TheVariants.{AveragePrecision as A};
ghost use Rattle.measure_laws.specs.Ranks.{IsRankWithin};
ghost use Rattle.measure_laws.specs.Weights.{reciprocal_weight};
ghost use Rattle.measure_core.specs.Made.{IsMadeFor};
ghost use Rattle.precision_candidates.specs.Side.{AreCounts};

use crate::cases::RankCase;
use crate::kept::TopicRuns;
use crate::pair::{cell_of, leasts_of};
use desk_model::{Mark, MeasureName, Memory, Ranking};
use measure_core::{
    Cell, CellRoom, KeptCell, ListSizes, Measure, RankWorth, RunPair, Shift, Steps, TopicRankings,
    case_values, rank_or_none, shift_by_ranks,
};
use precision_candidates::by_rank::{RankClasses, cuts_of};
use precision_candidates::candidate::Counts;
use precision_candidates::runs::{Chosen, ChosenRun, MarkedRun, chosen_of};
use precision_candidates::table::{Parts, Rank};
use std::alloc::Global;
use std::sync::ledger::Ledger;
use topic_counts::Span;
use topic_counts::ranks::rank_in;
use topic_counts::topic::all_documents;

/// How many units make a score of 1.
const UNIT: i128 = 1_000_000_000_000_000_000;

/// The measure `map`, average precision. Its unit is 10^18.
#[derive(Drop)]
pub struct AveragePrecision {
    // What 10^18 is over each rank.
    pub(crate) parts: Parts,
}

impl AveragePrecision {
    /// The measure, whose cells and bounds are made of the chosen candidates of each run. It takes no memory, and
    /// divides for each rank.
    pub fn new() -> AveragePrecision
        ensures { IsMadeFor A (⟦<AveragePrecision as Measure>⟧.measured result)
            (⟦<AveragePrecision as Measure>⟧.cell_of result)
            (⟦<AveragePrecision as Measure>⟧.bounds_of result) }
    {
        AveragePrecision {
            parts: Parts::found(),
        }
    }

    /// The same measure, which keeps what 10^18 is over each rank, so that rankings are passed without a division.
    ///
    /// # Errors
    /// `Memory`: out of memory.
    pub fn with_parts(alloc: Global) -> Result<AveragePrecision, Memory>
        ensures made { IfOk result (λ m.
            IsMadeFor A (⟦<AveragePrecision as Measure>⟧.measured m)
            (⟦<AveragePrecision as Measure>⟧.cell_of m)
            (⟦<AveragePrecision as Measure>⟧.bounds_of m)) }
        ensures kept { IfOk result (λ m. m.parts ≡ true) }
    {
        let parts = Parts::kept(alloc)?;
        Ok(AveragePrecision { parts })
    }
}

/// How many documents of a topic are relevant, and how many can be.
pub fn counts_of(marks: &[Mark]) -> Counts
    requires { length marks.now ≤ DOCUMENT_LIMIT }
    ensures { AreCounts marks.now result }
{
    let all = all_documents(marks);
    Counts {
        relevant: all.relevant,
        possible: all.relevant + all.unjudged,
    }
}

/// The span between the numbers of two candidates.
fn span_between(chosen: Chosen) -> Span
    ensures lo { result.lo ≡ pos chosen.low.value }
    ensures hi { result.hi ≡ pos chosen.high.value }
{
    Span {
        lo: chosen.low.value as i128,
        hi: chosen.high.value as i128,
    }
}

impl AveragePrecision {
    /// A run on a topic with its chosen candidates, from the counts of all documents.
    pub(crate) fn chosen_run<'r>(
        &self,
        run: &'r Ranking,
        marks: &'r [Mark],
        all: Counts,
    ) -> ChosenRun<'r>
        requires met { IsRanking (length marks.now) run.now }
        requires all { AreCounts marks.now all }
        ensures marks { result.on.marks.now ≡ marks.now }
        ensures docs { result.on.docs.now ≡ run.now }
    {
        let on = MarkedRun {
            run,
            docs: run.docs(),
            marks,
            all,
        };
        ChosenRun {
            on,
            chosen: chosen_of(&on, &self.parts),
        }
    }

    /// The same, which tells the class of a document by its rank. It takes no memory.
    fn ranked_run<'r>(&self, run: &'r Ranking, marks: &'r [Mark], all: Counts) -> RankClasses<'r>
        requires met { IsRanking (length marks.now) run.now }
        requires all { AreCounts marks.now all }
        ensures marks { result.run.on.marks.now ≡ marks.now }
        ensures docs { result.run.on.docs.now ≡ run.now }
    {
        let run = self.chosen_run(run, marks, all);
        RankClasses {
            run,
            cuts: cuts_of(&run),
        }
    }

    /// What a rank is worth; nothing for an absent one.
    fn worth(&self, rank: Option<u32>) -> u64
        requires { IsRankWithin RANK_LIMIT rank }
        ensures { result ≡ reciprocal_weight rank }
    {
        match rank {
            None => 0,
            Some(rank) => {
                let at = Rank {
                    number: u64::from(rank),
                };
                self.parts.at(at).whole
            }
        }
    }
}

impl RankWorth for AveragePrecision {
    ghost use Rattle.std.specs.Prelude.{refl};
    ghost use Rattle.measure_laws.specs.Weights.{reciprocal_weight};

    ghost worth = { λ _. reciprocal_weight };

    #[inline]
    fn worth_at(&self, rank: u32) -> u64 {
        self.worth(rank_or_none(rank))
    }

    ghost absent = { λ _. refl };
}

impl Measure for AveragePrecision {
    ghost use Rattle.desk_model.specs.declared.types.MeasureName.TheVariants.{AveragePrecision as A};
    ghost use Rattle.average_precision.specs.Numbers.{average_cell, average_bounds};
    ghost use Rattle.average_precision.specs.Laws as laws;

    ghost measured = { λ _. A };

    ghost cell_of = { λ _. average_cell };

    ghost bounds_of = { λ _. average_bounds };

    fn name(&self) -> MeasureName {
        MeasureName::AveragePrecision
    }

    fn unit(&self) -> i128 {
        UNIT
    }

    fn cell<L: Ledger>(
        &self,
        a: &Ranking,
        b: &Ranking,
        marks: &[Mark],
        steps: &mut Steps<L>,
    ) -> Cell {
        steps.tick();
        let all = counts_of(marks);
        let first = self.ranked_run(a, marks, all);
        let second = self.ranked_run(b, marks, all);
        cell_of(leasts_of(&first, &second, &self.parts))
    }

    fn cells<L: Ledger>(
        &self,
        rankings: &TopicRankings<'_>,
        marks: &[Mark],
        room: &mut CellRoom,
        cells: &mut [KeptCell],
        steps: &mut Steps<L>,
    ) {
        let on = TopicRuns {
            rankings,
            marks,
            all: counts_of(marks),
        };
        if self.room_cells(&on, room, cells, steps) {
            return;
        }
        self.each_cell(rankings, marks, cells, steps);
    }

    fn bounds(&self, a: &Ranking, marks: &[Mark]) -> Span {
        let run = self.chosen_run(a, marks, counts_of(marks));
        span_between(run.chosen)
    }

    fn least_case(
        &self,
        alloc: Global,
        a: &Ranking,
        b: &Ranking,
        marks: &[Mark],
    ) -> Result<Vec<bool>, Memory> {
        let all = counts_of(marks);
        let first = self.ranked_run(a, marks, all);
        let second = self.ranked_run(b, marks, all);
        let both = leasts_of(&first, &second, &self.parts);
        let case = RankCase {
            case: both.least.kind,
            first,
            second,
        };
        case_values(alloc, &case, marks)
    }

    fn push_both_docs(
        &self,
        alloc: Global,
        a: &Ranking,
        b: &Ranking,
        marks: &[Mark],
        least: &mut Vec<u32>,
        most: &mut Vec<u32>,
    ) -> Result<(), Memory> {
        self.pushed_both(alloc, a, b, marks, least, most)
    }

    fn count_pairs(
        &self,
        alloc: Global,
        rankings: &TopicRankings<'_>,
        marks: &[Mark],
        pairs: &[RunPair],
        counts: &mut [u32],
    ) -> Result<Vec<ListSizes>, Memory> {
        let on = TopicRuns {
            rankings,
            marks,
            all: counts_of(marks),
        };
        self.listed_pairs(alloc, &on, pairs, counts)
    }

    fn weight(&self, a: &Ranking, b: &Ranking, _marks: &[Mark], doc: u32) -> u128 {
        let first = self.worth(rank_in(a, doc));
        let second = self.worth(rank_in(b, doc));
        u128::from(first.abs_diff(second))
    }

    fn shift_weights(
        &self,
        a: &Ranking,
        b: &Ranking,
        _marks: &[Mark],
        shift: Shift,
        totals: &mut [u128],
    ) {
        shift_by_ranks(self, a, b, shift, totals);
    }

    ghost laws = { λ _ _. laws.laws };
}
