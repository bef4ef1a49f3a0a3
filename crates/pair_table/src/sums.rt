// The sums over topics of cells and bounds, a topic more and a topic less.
ghost use Rattle.std.specs.Prelude.{◌≡◌, ◌+◌, ◌≤◌, All, length, IfOk};
ghost use Rattle.desk_model.specs.Limits.{TOPIC_LIMIT};
ghost use Rattle.desk_model.specs.Pairs.{pairs_of};
ghost use Rattle.measure_core.specs.Laws.{SpanIsModest};
ghost use Rattle.pair_table.specs.Kept.{AreWithin, SpanIsWithin, each_with, with_cell, without_cell, with_span, without_span, no_sums, kept_sums, AreTopicNumbers, sums_with, sums_without, TotalsCanGrow, BoundsCanGrow, SumsCanGrow};
ghost use Rattle.pair_table.specs.Sums.{run_numbers};

use crate::kept::KeptTopic;
use desk_model::{Desk, Totals};
use measure_core::KeptCell;
use std::alloc::{AllocError, Global};
use std::marker::Model;
use topic_counts::Span;

/// The sums of each pair's cells, in pair order, and of each run's bounds.
#[derive(Drop)]
pub struct KeptSums {
    totals: Vec<Totals>,
    bounds: Vec<Span>,
}

impl Model for KeptSums {
    ghost use Rattle.std.specs.Prelude.{◌≡◌, length};
    ghost use Rattle.desk_model.specs.Pairs.{pairs_of};
    ghost use Rattle.pair_table.specs.Kept.{AllSums};
    ghost use Rattle.pair_table.specs.Sums.{run_numbers};

    ghost Value = { AllSums };

    ghost view = { λ s. record { totals = s.totals.items; bounds = s.bounds.items } };

    ghost invariant = { λ s. length s.totals.items ≡ length (pairs_of (run_numbers (length s.bounds.items))) };
}

const NO_SUMS: Totals = Totals {
    least_lo: 0,
    least_hi: 0,
    most_lo: 0,
    most_hi: 0,
};

const NO_BOUNDS: Span = Span { lo: 0, hi: 0 };

fn plus(totals: &Totals, cell: &KeptCell) -> Totals
    requires { AreWithin (TOPIC_LIMIT + 1) totals.now }
    ensures { result ≡ with_cell totals.now cell.now }
{
    let cell = cell.cell();
    Totals {
        least_lo: totals.least_lo + cell.least.lo,
        least_hi: totals.least_hi + cell.least.hi,
        most_lo: totals.most_lo + cell.most.lo,
        most_hi: totals.most_hi + cell.most.hi,
    }
}

fn minus(totals: &Totals, cell: &KeptCell) -> Totals
    requires { AreWithin (TOPIC_LIMIT + 1) totals.now }
    ensures { result ≡ without_cell totals.now cell.now }
{
    let cell = cell.cell();
    Totals {
        least_lo: totals.least_lo - cell.least.lo,
        least_hi: totals.least_hi - cell.least.hi,
        most_lo: totals.most_lo - cell.most.lo,
        most_hi: totals.most_hi - cell.most.hi,
    }
}

fn span_plus(sums: Span, bounds: Span) -> Span
    requires sums { SpanIsWithin (TOPIC_LIMIT + 1) sums }
    requires bounds { SpanIsModest bounds }
    ensures { result ≡ with_span sums bounds }
{
    Span {
        lo: sums.lo + bounds.lo,
        hi: sums.hi + bounds.hi,
    }
}

fn span_minus(sums: Span, bounds: Span) -> Span
    requires sums { SpanIsWithin (TOPIC_LIMIT + 1) sums }
    requires bounds { SpanIsModest bounds }
    ensures { result ≡ without_span sums bounds }
{
    Span {
        lo: sums.lo - bounds.lo,
        hi: sums.hi - bounds.hi,
    }
}

/// Adds a topic's cell to the sums of each pair.
fn add_cells(totals: &mut [Totals], topic: &KeptTopic)
    requires count { length totals.old ≡
        length (pairs_of (run_numbers (length topic.now.bounds))) }
    requires near { TotalsCanGrow totals.old }
    ensures { totals.new ≡ each_with with_cell totals.old topic.now.cells }
{
    let cells = topic.cells();
    for place in 0..totals.len() {
        totals[place] = plus(&totals[place], &cells[place]);
    }
}

/// Takes a topic's cell off the sums of each pair.
fn take_cells_back(totals: &mut [Totals], topic: &KeptTopic)
    requires count { length totals.old ≡
        length (pairs_of (run_numbers (length topic.now.bounds))) }
    requires near { TotalsCanGrow totals.old }
    ensures { totals.new ≡ each_with without_cell totals.old topic.now.cells }
{
    let cells = topic.cells();
    for place in 0..totals.len() {
        totals[place] = minus(&totals[place], &cells[place]);
    }
}

/// Adds a topic's bounds to the sums of each run.
fn add_bounds(sums: &mut [Span], topic: &KeptTopic)
    requires count { length sums.old ≡ length topic.now.bounds }
    requires near { BoundsCanGrow sums.old }
    ensures { sums.new ≡ each_with with_span sums.old topic.now.bounds }
{
    let bounds = topic.bounds();
    for run in 0..sums.len() {
        sums[run] = span_plus(sums[run], bounds[run]);
    }
}

/// Takes a topic's bounds off the sums of each run.
fn take_bounds_back(sums: &mut [Span], topic: &KeptTopic)
    requires count { length sums.old ≡ length topic.now.bounds }
    requires near { BoundsCanGrow sums.old }
    ensures { sums.new ≡ each_with without_span sums.old topic.now.bounds }
{
    let bounds = topic.bounds();
    for run in 0..sums.len() {
        sums[run] = span_minus(sums[run], bounds[run]);
    }
}

impl KeptSums {
    /// The sums of no topics, for the pairs and runs of a desk.
    pub fn new(alloc: Global, desk: &Desk) -> Result<KeptSums, AllocError>
        ensures { IfOk result (λ sums. sums ≡ no_sums (length desk.now.runs)) }
    {
        let runs = desk.run_count();
        let pairs = runs * (runs - 1) / 2;
        let totals = vec![in alloc; NO_SUMS; pairs as usize]?;
        let bounds = vec![in alloc; NO_BOUNDS; runs as usize]?;
        Ok(KeptSums { totals, bounds })
    }

    /// Adds the numbers of a topic.
    pub fn add(&mut self, topic: &KeptTopic)
        requires runs { length self.old.bounds ≡ length topic.now.bounds }
        requires near { SumsCanGrow self.old }
        ensures { self.new ≡ sums_with self.old topic.now }
    {
        add_cells(&mut self.totals, topic);
        add_bounds(&mut self.bounds, topic);
    }

    /// Takes them off again.
    pub fn take_back(&mut self, topic: &KeptTopic)
        requires runs { length self.old.bounds ≡ length topic.now.bounds }
        requires near { SumsCanGrow self.old }
        ensures { self.new ≡ sums_without self.old topic.now }
    {
        take_cells_back(&mut self.totals, topic);
        take_bounds_back(&mut self.bounds, topic);
    }

    /// Adds up the numbers of the topics of so many runs.
    pub fn add_topics(&mut self, topics: &[KeptTopic], runs: u32)
        requires topics { length topics.now ≤ TOPIC_LIMIT }
        requires sizes { All (AreTopicNumbers runs) topics.now }
        requires none { self.old ≡ no_sums runs }
        ensures { self.new ≡ kept_sums runs topics.now }
    {
        for topic in 0..topics.len() {
            let kept = &topics[topic];
            self.add(kept);
        }
    }

    /// The sums of each pair, in pair order.
    pub fn totals(&self) -> &[Totals]
        ensures { result.now ≡ self.now.totals }
    {
        &self.totals
    }

    /// The sums of each run's bounds, in run order.
    pub fn bounds(&self) -> &[Span]
        ensures { result.now ≡ self.now.bounds }
    {
        &self.bounds
    }
}
