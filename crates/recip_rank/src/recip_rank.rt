ghost use Rattle.std.specs.Prelude.{◌≡◌, ◌≤◌, ◌++◌, true, length, IfOk, OnOk};
ghost use Rattle.std.specs.Option.{option_to_list};
ghost use Rattle.desk_model.specs.Limits.{DOCUMENT_LIMIT, RANK_LIMIT};
ghost use Rattle.desk_model.specs.declared.types.MeasureName.TheVariants.{Reciprocal as R};
ghost use Rattle.measure_laws.specs.Ranks.{IsRankWithin};
ghost use Rattle.measure_laws.specs.ReciprocalCase.{is_choice, with_choice};
ghost use Rattle.measure_laws.specs.Weights.{reciprocal_weight};
ghost use Rattle.topic_counts.specs.Ends.{IsShort};
ghost use Rattle.measure_core.specs.Laws.{AreMet, AreValues};
ghost use Rattle.measure_core.specs.Made.{IsMadeFor};
ghost use Rattle.measure_core.specs.Numbers.{exact_least};

use crate::firsts::{Firsts, first_rank, least, span};
use desk_model::{Mark, MeasureName, Memory, Ranking};
use measure_core::{
    Cell, Measure, Picks, RankWorth, Shift, Steps, case_values, rank_or_none, shift_by_ranks,
    worths_of,
};
use std::alloc::Global;
use std::marker::Model;
use std::sync::ledger::Ledger;
use topic_counts::Span;
use topic_counts::ranks::rank_in;

/// How many units make a score of 1.
const UNIT: u64 = 1_000_000_000_000_000_000;

/// The measure `recip_rank`. Its unit is 10^18.
#[derive(Drop)]
pub struct RecipRank {
    // What each rank is worth, by the rank, where it is kept.
    worths: Option<Vec<u64>>,
}

impl Model for RecipRank {
    ghost use Rattle.std.specs.Prelude.{Bool, is_some, IfSome};
    ghost use Rattle.measure_laws.specs.Weights.{reciprocal_weight};
    ghost use Rattle.measure_core.specs.Worths.{AreWorths};

    ghost Value = { Bool };

    ghost view = { λ r. is_some r.worths };

    ghost invariant = { λ r. IfSome r.worths (λ worths. AreWorths reciprocal_weight worths.items) };
}

impl RecipRank {
    /// The measure, whose cells and bounds are the floors and ceilings of the extremes. It takes no memory, and divides
    /// for each weight.
    pub fn new() -> RecipRank
        ensures { IsMadeFor R (⟦<RecipRank as Measure>⟧.measured result)
            (⟦<RecipRank as Measure>⟧.cell_of result) (⟦<RecipRank as Measure>⟧.bounds_of result) }
    {
        RecipRank { worths: None }
    }

    /// The same measure, which keeps what each rank is worth, so that totals are shifted without a division.
    ///
    /// # Errors
    /// `Memory`: out of memory.
    pub fn with_worths(alloc: Global) -> Result<RecipRank, Memory>
        ensures made { IfOk result (λ r.
            IsMadeFor R (⟦<RecipRank as Measure>⟧.measured r) (⟦<RecipRank as Measure>⟧.cell_of r)
            (⟦<RecipRank as Measure>⟧.bounds_of r)) }
        ensures kept { IfOk result (λ r. r ≡ true) }
    {
        let worths = worths_of(alloc, &RecipRank::new())?;
        Ok(RecipRank {
            worths: Some(worths),
        })
    }
}

/// The ends of the least difference, in units.
fn least_span(a: &Ranking, b: &Ranking, marks: &[Mark]) -> Span
    requires { AreMet marks.now a.now b.now }
    ensures span { result ≡ exact_least R marks.now a.now b.now }
    ensures short { IsShort result }
{
    span(least(a, b, marks).firsts)
}

/// One unit over a rank, rounded down; nothing for an absent one.
fn worth(rank: Option<u32>) -> u64
    requires { IsRankWithin RANK_LIMIT rank }
    ensures { result ≡ reciprocal_weight rank }
{
    match rank {
        None => 0,
        Some(rank) => UNIT / u64::from(rank),
    }
}

/// The chosen document alone, if there is one.
#[derive(Clone, Copy)]
struct Chosen {
    choice: Option<u32>,
}

impl Picks for Chosen {
    ghost use Rattle.measure_laws.specs.ReciprocalCase.{is_choice};

    ghost picks = { λ p. is_choice p.choice };

    fn is_picked(&self, doc: u32) -> bool {
        match self.choice {
            None => false,
            Some(one) => one == doc,
        }
    }
}

/// Appends the chosen document, if there is one.
fn push_choice(choice: Option<u32>, docs: &mut Vec<u32>) -> Result<(), Memory>
    ensures { OnOk result (docs.new.items ≡ docs.old.items ++ option_to_list choice) }
{
    if let Some(doc) = choice {
        docs.push(doc)?;
    }
    Ok(())
}

impl RankWorth for RecipRank {
    ghost use Rattle.std.specs.Prelude.{refl};
    ghost use Rattle.measure_laws.specs.Weights.{reciprocal_weight};

    ghost worth = { λ _. reciprocal_weight };

    #[inline]
    fn worth_at(&self, rank: u32) -> u64 {
        match &self.worths {
            Some(worths) => worths[rank as usize],
            None => worth(rank_or_none(rank)),
        }
    }

    ghost absent = { λ _. refl };
}

impl Measure for RecipRank {
    ghost use Rattle.desk_model.specs.declared.types.MeasureName.TheVariants.{Reciprocal as R};
    ghost use Rattle.measure_core.specs.Numbers.{exact_cell, exact_bounds};
    ghost use Rattle.recip_rank.specs.Laws as laws;

    ghost measured = { λ _. R };

    ghost cell_of = { λ _. exact_cell R };

    ghost bounds_of = { λ _. exact_bounds R };

    fn name(&self) -> MeasureName {
        MeasureName::Reciprocal
    }

    fn unit(&self) -> i128 {
        i128::from(UNIT)
    }

    fn cell<L: Ledger>(
        &self,
        a: &Ranking,
        b: &Ranking,
        marks: &[Mark],
        steps: &mut Steps<L>,
    ) -> Cell {
        steps.tick();
        Cell {
            least: least_span(a, b, marks),
            most: least_span(b, a, marks).negate(),
        }
    }

    fn bounds(&self, a: &Ranking, marks: &[Mark]) -> Span {
        let least = span(Firsts {
            first: first_rank(false, a.docs(), marks),
            second: None,
        });
        let greatest = span(Firsts {
            first: first_rank(true, a.docs(), marks),
            second: None,
        });
        Span {
            lo: least.lo,
            hi: greatest.hi,
        }
    }

    fn least_case(
        &self,
        alloc: Global,
        a: &Ranking,
        b: &Ranking,
        marks: &[Mark],
    ) -> Result<Vec<bool>, Memory> {
        let choice = least(a, b, marks).choice;
        case_values(alloc, &Chosen { choice }, marks)
    }

    fn push_least_docs(
        &self,
        _alloc: Global,
        a: &Ranking,
        b: &Ranking,
        marks: &[Mark],
        docs: &mut Vec<u32>,
    ) -> Result<(), Memory> {
        push_choice(least(a, b, marks).choice, docs)
    }

    fn weight(&self, a: &Ranking, b: &Ranking, _marks: &[Mark], doc: u32) -> u128 {
        let first = worth(rank_in(a, doc));
        let second = worth(rank_in(b, doc));
        u128::from(first.abs_diff(second))
    }

    fn shift_weights(
        &self,
        a: &Ranking,
        b: &Ranking,
        _marks: &[Mark],
        shift: Shift,
        totals: &mut [u128],
    ) {
        shift_by_ranks(self, a, b, shift, totals);
    }

    ghost laws = { λ _ _. laws.laws };
}
