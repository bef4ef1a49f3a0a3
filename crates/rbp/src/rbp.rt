ghost use Rattle.std.specs.Prelude.{◌≡◌, ◌-◌, ◌≤◌, ◌-ℤ◌, pos, neg_ℤ, length, IfOk};
ghost use Rattle.measure_laws.specs.Ranks.{comes_before};
ghost use Rattle.measure_laws.specs.Powers.{low_power, high_power};
ghost use Rattle.measure_laws.specs.Shares.{low_share, high_share, biased_truth, share_sum};
ghost use Rattle.topic_counts.specs.Ends.{IsShort};
ghost use Rattle.rbp.specs.Persistence.{IsLoose};
ghost use Rattle.measure_core.specs.Laws.{AreMet, AreValues};
ghost use Rattle.rbp.specs.Numbers.{biased_cell, run_weights};
ghost use Rattle.rbp.specs.Walk.{AreCorrections};
ghost use Rattle.measure_core.specs.Made.{IsMadeFor};
ghost use Rattle.desk_model.specs.Limits.{RANK_LIMIT};
ghost use Rattle.desk_model.specs.MeasureText.{IsPersistence};
ghost use Rattle.desk_model.specs.declared.types.MeasureName.TheVariants.{Biased as B};

use crate::corrections::{Shares, alone};
use crate::lists::SecondBefore;
use crate::weights::{RankWeights, high_weights, low_weights};
use desk_model::{Mark, MeasureName, Memory, Ranking};
use measure_core::{
    Cell, CellRoom, KeptCell, KeptWeights, ListRoom, ListSizes, MarkedPair, MarkedRankings,
    Measure, Picks, RankedPair, Shift, Steps, TopicRankings, case_values, count_by_ranks,
    push_by_ranks, ranked_cells, shift_by_ranks,
};
use std::alloc::Global;
use std::marker::Model;
use std::sync::ledger::Ledger;
use topic_counts::ranks::rank_in;
use topic_counts::{Powers, Span};

/// How many units make a score of 1.
const UNIT: i128 = 1_000_000_000_000_000_000;

/// The measure `rbp_p`, where the persistence p is top over bottom. Its unit is 10^18.
#[derive(Drop)]
pub struct Rbp {
    pub(crate) top: u32,
    pub(crate) bottom: u32,
    pub(crate) powers: Powers,
    // The weight of each rank rounded down, by the rank: what it is worth in totals.
    pub(crate) worths: Vec<u64>,
    // The weight of each rank rounded up, by the rank.
    pub(crate) high_worths: Vec<u64>,
}

impl Model for Rbp {
    ghost use Rattle.rbp.specs.Persistence.{Persistence, AreKnown};

    ghost Value = { Persistence };

    ghost view = { λ r. record { top = r.top; bottom = r.bottom } };

    ghost invariant = { λ r. AreKnown r.top r.bottom r.powers r.worths.items r.high_worths.items };
}

/// Whether a rank comes before another, where an absent one comes last.
fn is_before(x: Option<u32>, y: Option<u32>) -> bool
    ensures { result ≡ comes_before x y }
{
    match (x, y) {
        (Some(x), Some(y)) => x < y,
        (Some(_), None) => true,
        (None, _) => false,
    }
}

/// How many documents a run ranks.
fn ranks_of(run: &Ranking) -> u32
    requires { length run.now ≤ RANK_LIMIT }
    ensures { result ≡ length run.now }
{
    run.docs().len() as u32
}

/// The documents that the second run ranks before the first, or alone.
#[derive(Clone, Copy)]
struct BeforeFirst<'a> {
    first: &'a Ranking,
    second: &'a Ranking,
    ghost first_is_short: { length first.now ≤ RANK_LIMIT },
    ghost second_is_short: { length second.now ≤ RANK_LIMIT },
}

impl Picks for BeforeFirst<'_> {
    ghost use Rattle.desk_model.specs.Ranking.{rank};
    ghost use Rattle.measure_laws.specs.Ranks.{comes_before};

    ghost picks = { λ p doc. comes_before (rank p.second.now doc) (rank p.first.now doc) };

    fn is_picked(&self, doc: u32) -> bool {
        is_before(rank_in(self.second, doc), rank_in(self.first, doc))
    }
}

impl Rbp {
    /// The measure `rbp_p` for p = top / bottom. Its cells are the sums of the shares of documents and
    /// its bounds the sums of weights, in parts of 10^18 and rounded outward.
    pub fn new(alloc: Global, top: u32, bottom: u32) -> Result<Rbp, Memory>
        requires { IsPersistence top bottom }
        ensures top { IfOk result (λ r. r.top ≡ top) }
        ensures bottom { IfOk result (λ r. r.bottom ≡ bottom) }
        ensures made { IfOk result (λ r.
            IsMadeFor (B top bottom) (⟦<Rbp as Measure>⟧.measured r) (⟦<Rbp as Measure>⟧.cell_of r)
            (⟦<Rbp as Measure>⟧.bounds_of r)) }
    {
        let powers = Powers::new(alloc, top, bottom, 10000)?;
        let worths = low_weights(alloc, &powers)?;
        let high_worths = high_weights(alloc, &powers)?;
        Ok(Rbp {
            top,
            bottom,
            powers,
            worths,
            high_worths,
        })
    }

    /// The sums of shares: those of each run's documents as if the other lacked them, and the
    /// corrections of the documents of both.
    fn shares(
        &self,
        a: &Ranking,
        b: &Ranking,
        marks: &[Mark],
        weights: KeptWeights,
        both: Shares,
    ) -> Shares
        requires met { AreMet marks.now a.now b.now }
        requires first { weights.first ≡ run_weights self.now.top self.now.bottom marks.now a.now }
        requires second { weights.second ≡
            run_weights self.now.top self.now.bottom marks.now b.now }
        requires both { AreCorrections self.now.top self.now.bottom marks.now a.now b.now both }
        ensures least_lo { result.least.lo ≡
            share_sum (low_share self.now.top self.now.bottom) marks.now a.now b.now }
        ensures least_hi { result.least.hi ≡
            share_sum (high_share self.now.top self.now.bottom) marks.now a.now b.now }
        ensures most_lo { result.most.lo ≡
            neg_ℤ (share_sum (high_share self.now.top self.now.bottom) marks.now b.now a.now) }
        ensures most_hi { result.most.hi ≡
            neg_ℤ (share_sum (low_share self.now.top self.now.bottom) marks.now b.now a.now) }
        ensures least_loose { IsLoose result.least }
        ensures most_loose { IsLoose result.most }
    {
        // What is kept of the persistence bounds the sums.
        let _ = &self.top;
        // What the weights and the corrections are of.
        let _ = a;
        let _ = b;
        let _ = marks;
        let first = RankWeights::of(weights.first);
        let second = RankWeights::of(weights.second);
        Shares {
            least: alone(first.relevant, second.possible).add(both.least),
            most: alone(first.possible, second.relevant).add(both.most),
        }
    }

    /// The ends of 10^18 times the least difference, by the shares of documents and how many ranks the
    /// second run has.
    fn less_tail(&self, shares: Span, ranks: u32) -> Span
        requires shares { IsLoose shares }
        requires ranks { ranks ≤ RANK_LIMIT }
        ensures lo { result.lo ≡ shares.lo -ℤ pos (high_power self.now.top self.now.bottom ranks) }
        ensures hi { result.hi ≡
            shares.hi -ℤ pos (low_power self.now.top self.now.bottom ranks - 1) }
        ensures short { IsShort result }
    {
        let most = self.tail_most(ranks);
        let least = self.tail_least(ranks);
        Span {
            lo: shares.lo - most,
            hi: shares.hi - least,
        }
    }

    /// The cell of two runs, by their weights and the corrections of the documents of both.
    pub fn cell_by(
        &self,
        a: &Ranking,
        b: &Ranking,
        marks: &[Mark],
        weights: KeptWeights,
        both: Shares,
    ) -> Cell
        requires met { AreMet marks.now a.now b.now }
        requires first { weights.first ≡ run_weights self.now.top self.now.bottom marks.now a.now }
        requires second { weights.second ≡
            run_weights self.now.top self.now.bottom marks.now b.now }
        requires both { AreCorrections self.now.top self.now.bottom marks.now a.now b.now both }
        ensures { result ≡ biased_cell self.now.top self.now.bottom marks.now a.now b.now }
    {
        // What is kept of the persistence bounds the ends.
        let _ = &self.top;
        let shares = self.shares(a, b, marks, weights, both);
        let least = self.less_tail(shares.least, ranks_of(b));
        let swapped = self.less_tail(shares.most.negate(), ranks_of(a));
        Cell {
            least,
            most: swapped.negate(),
        }
    }
}

impl Measure for Rbp {
    ghost use Rattle.std.specs.Prelude.{ℕ, List};
    ghost use Rattle.desk_model.specs.declared.types.MeasureName.TheVariants.{Biased as B};
    ghost use Rattle.rbp.specs.Numbers.{biased_cell, biased_bounds};
    ghost use Rattle.rbp.specs.Laws as laws;

    ghost measured = { λ r. B r.top r.bottom };

    ghost cell_of = { λ r. biased_cell r.top r.bottom };

    ghost bounds_of = { λ r. biased_bounds r.top r.bottom };

    fn name(&self) -> MeasureName {
        MeasureName::Biased {
            top: self.top,
            bottom: self.bottom,
        }
    }

    fn unit(&self) -> i128 {
        UNIT
    }

    fn cell<L: Ledger>(
        &self,
        a: &Ranking,
        b: &Ranking,
        marks: &[Mark],
        steps: &mut Steps<L>,
    ) -> Cell {
        steps.tick();
        let weights = KeptWeights {
            first: self.kept_weights(marks, a.docs()),
            second: self.kept_weights(marks, b.docs()),
        };
        self.cell_by(a, b, marks, weights, self.corrections(a, b, marks))
    }

    fn cells<L: Ledger>(
        &self,
        rankings: &TopicRankings<'_>,
        marks: &[Mark],
        room: &mut CellRoom,
        cells: &mut [KeptCell],
        steps: &mut Steps<L>,
    ) {
        if ranked_cells(
            self,
            &MarkedRankings { rankings, marks },
            room,
            cells,
            steps,
        ) {
            return;
        }
        self.each_cell(rankings, marks, cells, steps);
    }

    fn bounds(&self, a: &Ranking, marks: &[Mark]) -> Span {
        let weights = self.weights(marks, a.docs());
        let most = weights.possible.hi + self.tail_most(ranks_of(a));
        Span {
            lo: weights.relevant.lo,
            hi: if most < UNIT { most } else { UNIT },
        }
    }

    fn least_case(
        &self,
        alloc: Global,
        a: &Ranking,
        b: &Ranking,
        marks: &[Mark],
    ) -> Result<Vec<bool>, Memory> {
        let picks = BeforeFirst {
            first: a,
            second: b,
        };
        case_values(alloc, &picks, marks)
    }

    fn push_least_docs(
        &self,
        _alloc: Global,
        a: &Ranking,
        b: &Ranking,
        marks: &[Mark],
        docs: &mut Vec<u32>,
    ) -> Result<(), Memory> {
        push_by_ranks(&SecondBefore, &MarkedPair { a, b, marks }, docs)
    }

    fn count_lists(
        &self,
        _alloc: Global,
        a: &Ranking,
        b: &Ranking,
        marks: &[Mark],
        room: &mut ListRoom,
        counts: &mut [u32],
    ) -> Result<ListSizes, Memory> {
        room.set_second(b);
        let all = marks.len() as u32;
        let ranked = RankedPair {
            a,
            b,
            marks,
            first: &room.first,
            second: &room.second,
        };
        let least = count_by_ranks(&SecondBefore, all, &ranked, counts);
        let swapped = RankedPair {
            a: b,
            b: a,
            marks,
            first: &room.second,
            second: &room.first,
        };
        let most = count_by_ranks(&SecondBefore, all, &swapped, counts);
        Ok(ListSizes { least, most })
    }

    fn weight(&self, a: &Ranking, b: &Ranking, _marks: &[Mark], doc: u32) -> u128 {
        let first = self.weight_at(rank_in(a, doc)).lo;
        let second = self.weight_at(rank_in(b, doc)).lo;
        first.abs_diff(second)
    }

    fn shift_weights(
        &self,
        a: &Ranking,
        b: &Ranking,
        _marks: &[Mark],
        shift: Shift,
        totals: &mut [u128],
    ) {
        shift_by_ranks(self, a, b, shift, totals);
    }

    ghost laws = { λ r valid. laws.laws r.top r.bottom valid };
}
