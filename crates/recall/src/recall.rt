ghost use Rattle.std.specs.Prelude.{◌≡◌, ℕ, ◌+◌, ◌≤◌, ◌++◌, max, nat_lt, false, if◌then◌else◌, List, length, IfOk, OnOk};
ghost use Rattle.desk_model.specs.Limits.{DEPTH_LIMIT, DOCUMENT_LIMIT, RANK_LIMIT};
ghost use Rattle.desk_model.specs.Classes.{prefix_count};
ghost use Rattle.desk_model.specs.Completion.{picked_value, with_picked};
ghost use Rattle.desk_model.specs.Ranking.{IsRanking};
ghost use Rattle.desk_model.specs.Score.{true_among};
ghost use Rattle.desk_model.specs.declared.types.Mark.{Mark as M};
ghost use Rattle.desk_model.specs.declared.types.MeasureName.TheVariants.{Recall as R};
ghost use Rattle.measure_laws.specs.Cases.{picked_where, recall_pick};
ghost use Rattle.measure_laws.specs.Classes.{open_in, size_of};
ghost use Rattle.measure_laws.specs.Prefixes.{only_second};
ghost use Rattle.measure_core.specs.Laws.{AreMet, AreValues};
ghost use Rattle.measure_core.specs.Lists.{added_documents, case_documents, least_documents, own_documents, AreCounted, HaveRoomFor};
ghost use Rattle.recall.specs.Led.{led_documents};
ghost use Rattle.measure_core.specs.Made.{IsMadeFor};
ghost use Rattle.measure_core.specs.Numbers.{exact_least};
ghost use Rattle.measure_core.specs.Rooms.{IsRoomFor};
ghost use Rattle.recall.specs.LeastCase.{AreCounts, least_relevant};

use desk_model::{Mark, MeasureName, Memory, Ranking};
use marked_lists::{LOOKED_UP, More, count_neutral, count_own, push_own_and_more, push_own_marked};
use measure_core::{
    Cell, CellRoom, KeptCell, ListRoom, ListSizes, MarkedPair, MarkedRankings, Measure, OwnMeasure,
    Picks, RankedPair, Shift, Steps, TopicRankings, case_values, own_cells, shift_one_side,
};
use std::alloc::Global;
use std::marker::Model;
use std::sync::ledger::Ledger;
use topic_counts::counts::{Counts, is_among_first, own_counts, prefix, prefix_documents};
use topic_counts::topic::all_documents;
use topic_counts::{Span, span_of};

/// How many units make a score of 1.
const UNIT: i128 = 1_000_000_000_000_000_000;

/// The measure `recall_k`, for a k from 1 to 10,000. Its unit is 10^18.
#[derive(Drop)]
pub struct Recall {
    pub(crate) k: u32,
}

impl Model for Recall {
    ghost use Rattle.std.specs.Prelude.{ℕ, ◌≤◌};
    ghost use Rattle.desk_model.specs.Limits.{DEPTH_LIMIT};

    ghost Value = { ℕ };

    ghost view = { λ r. r.k };

    ghost invariant = { λ r. (1 ≤ r.k) × (r.k ≤ DEPTH_LIMIT) };
}

impl Recall {
    /// The measure `recall_k`, whose cells and bounds are the floors and ceilings of the extremes.
    pub fn new(k: u32) -> Recall
        requires positive { 1 ≤ k }
        requires limited { k ≤ DEPTH_LIMIT }
        ensures depth { result ≡ k }
        ensures made { IsMadeFor (R k) (⟦<Recall as Measure>⟧.measured result)
            (⟦<Recall as Measure>⟧.cell_of result) (⟦<Recall as Measure>⟧.bounds_of result) }
    {
        Recall { k }
    }
}

/// The number of relevant documents of the least case, or 1 where there is none.
fn relevant_documents(first: Counts, second: Counts, all: Counts) -> u32
    requires second { second.relevant + second.unjudged ≤ RANK_LIMIT }
    requires all { all.relevant + all.unjudged ≤ DOCUMENT_LIMIT }
    requires within { first.relevant + first.unjudged ≤ all.relevant + all.unjudged }
    ensures value { result ≡ max 1 (least_relevant first second all) }
    ensures few { result ≤ 25010000 }
{
    if second.relevant + second.unjudged < first.relevant {
        (all.relevant + all.unjudged - first.unjudged).max(1)
    } else {
        (all.relevant + second.unjudged).max(1)
    }
}

/// The ends of the least difference, in units, from the counts of the documents that one run alone
/// has among its first k, of those that the other has, and of all documents.
pub(crate) fn least_span(first: Counts, second: Counts, all: Counts) -> Span
    requires first { first.relevant + first.unjudged ≤ RANK_LIMIT }
    requires second { second.relevant + second.unjudged ≤ RANK_LIMIT }
    requires all { all.relevant + all.unjudged ≤ DOCUMENT_LIMIT }
    requires within { first.relevant + first.unjudged ≤ all.relevant + all.unjudged }
    ensures { (k : ℕ) (marks : List M) (a b : List ℕ) → AreCounts k marks a b first second all →
        result ≡ exact_least (R k) marks a b }
{
    let relevant = relevant_documents(first, second, all);
    let lead = first.least() - second.most();
    span_of(i128::from(lead), i128::from(relevant), UNIT)
}

/// 1 for a document that is judged relevant, and 0 for another.
#[inline]
fn counted(mark: Mark) -> u32
    ensures count { result ≡ (if picked_value false mark then 1 else 0) }
    ensures few { result ≤ 1 }
{
    u32::from(mark == Mark::Relevant)
}

/// How many documents among the first k of a run are judged relevant. No jump depends on a mark, which no processor
/// foresees.
fn relevant_among(k: u32, ranking: &Ranking, marks: &[Mark]) -> u32
    requires { IsRanking (length marks.now) ranking.now }
    ensures { result ≡ prefix_count false k marks.now ranking.now }
{
    let mut relevant = 0;
    for doc in prefix(ranking.docs(), k) {
        relevant += counted(marks[*doc as usize]);
    }
    relevant
}

/// Whether the first run has more relevant documents among its first k than the second, where of the
/// unjudged ones exactly those are relevant that the second run alone has there, `own` in number.
fn leads(k: u32, own: usize, a: &Ranking, b: &Ranking, marks: &[Mark]) -> bool
    requires met { AreMet marks.now a.now b.now }
    requires own { own ≡ size_of (length marks.now)
        (open_in marks.now (only_second k a.now b.now)) }
    ensures { result ≡
        nat_lt (true_among (with_picked marks.now (only_second k a.now b.now)) k b.now)
        (true_among (with_picked marks.now (only_second k a.now b.now)) k a.now) }
{
    // Relevant documents that both have there count on both sides.
    let first = relevant_among(k, a, marks) as usize;
    first > own && first > own + relevant_among(k, b, marks) as usize
}

/// The documents of the second run's first k alone, and where the first run leads those that both or neither have there.
#[derive(Clone, Copy)]
struct ByLead<'a> {
    leads: bool,
    k: u32,
    a: &'a Ranking,
    b: &'a Ranking,
}

impl Picks for ByLead<'_> {
    ghost use Rattle.measure_laws.specs.Cases.{picked_where};

    ghost picks = { λ p. picked_where p.leads p.k p.a.now p.b.now };

    fn is_picked(&self, doc: u32) -> bool {
        let in_first = is_among_first(self.k, self.a, doc);
        let in_second = is_among_first(self.k, self.b, doc);
        if in_first {
            self.leads && in_second
        } else {
            self.leads || in_second
        }
    }
}

/// Whether each document is relevant in the least case of two runs.
fn least_values(
    alloc: Global,
    k: u32,
    a: &Ranking,
    b: &Ranking,
    marks: &[Mark],
) -> Result<Vec<bool>, Memory>
    requires { AreMet marks.now a.now b.now }
    ensures { IfOk result (λ values.
        AreValues (with_picked marks.now (recall_pick k marks.now a.now b.now)) (length marks.now)
        values.items) }
{
    let own = own_counts(k, a, b, marks).second.unjudged as usize;
    let leads = leads(k, own, a, b, marks);
    case_values(alloc, &ByLead { leads, k, a, b }, marks)
}

/// Appends the unjudged documents that the least case of two runs makes relevant, ascending.
fn push_least(
    alloc: Global,
    k: u32,
    a: &Ranking,
    b: &Ranking,
    marks: &[Mark],
    docs: &mut Vec<u32>,
) -> Result<(), Memory>
    requires { AreMet marks.now a.now b.now }
    ensures { OnOk result (docs.new.items ≡ docs.old.items ++
        added_documents marks.now (with_picked marks.now (recall_pick k marks.now a.now b.now))) }
{
    let start = docs.len();
    push_own_marked(alloc, k, a, b, marks, docs)?;
    if leads(k, docs.len() - start, a, b, marks) {
        docs.truncate(start);
        let others = More {
            both: marks.len() as u32,
            first: 0,
        };
        return push_own_and_more(k, others, &MarkedPair { a, b, marks }, docs);
    }
    Ok(())
}

/// Counts the unjudged documents that the least case makes relevant beside the second run's own ones, `own` in number:
/// those that both or neither have among their first k, where the first run leads. It answers how many they are.
fn count_led(k: u32, own: u32, ranked: &RankedPair, counts: &mut [u32]) -> u32
    requires own { own ≡ length (own_documents k ranked.now.marks.now ranked.now.a.now
        ranked.now.b.now) }
    requires size { length counts.old ≡ length ranked.now.marks.now }
    requires room { HaveRoomFor counts.old
        (led_documents k ranked.now.marks.now ranked.now.a.now ranked.now.b.now) }
    ensures count { result ≡
        length (led_documents k ranked.now.marks.now ranked.now.a.now ranked.now.b.now) }
    ensures counts { AreCounted counts.old
        (led_documents k ranked.now.marks.now ranked.now.a.now ranked.now.b.now) counts.new }
{
    if leads(k, own as usize, ranked.a, ranked.b, ranked.marks) {
        count_neutral(k, ranked.marks.len() as u32, ranked, counts)
    } else {
        0
    }
}

/// Counts the unjudged documents that the least case of two runs makes relevant, and answers how many they are.
fn count_case(k: u32, ranked: &RankedPair, counts: &mut [u32]) -> u32
    requires size { length counts.old ≡ length ranked.now.marks.now }
    requires room { HaveRoomFor counts.old
        (least_documents (R k) ranked.now.marks.now ranked.now.a.now ranked.now.b.now) }
    ensures count { result ≡
        length (least_documents (R k) ranked.now.marks.now ranked.now.a.now ranked.now.b.now) }
    ensures counts { AreCounted counts.old
        (least_documents (R k) ranked.now.marks.now ranked.now.a.now ranked.now.b.now)
        counts.new }
{
    let all = ranked.marks.len() as u32;
    let own = count_own(k, all, ranked, counts);
    own + count_led(k, own, ranked, counts)
}

/// Counts the unjudged documents that the least cases of two runs and of the swapped runs make relevant, and answers how
/// many these are.
fn count_cases(
    k: u32,
    a: &Ranking,
    b: &Ranking,
    marks: &[Mark],
    room: &mut ListRoom,
    counts: &mut [u32],
) -> ListSizes
    requires met { AreMet marks.now a.now b.now }
    requires kept { IsRoomFor marks.now a.now room.old }
    requires size { length counts.old ≡ length marks.now }
    requires room { HaveRoomFor counts.old (case_documents (R k) marks.now a.now b.now) }
    ensures kept { IsRoomFor marks.now a.now room.new }
    ensures least { result.least ≡ length (least_documents (R k) marks.now a.now b.now) }
    ensures most { result.most ≡ length (least_documents (R k) marks.now b.now a.now) }
    ensures counts { AreCounted counts.old (case_documents (R k) marks.now a.now b.now) counts.new }
{
    room.set_second(b);
    let ranked = RankedPair {
        a,
        b,
        marks,
        first: &room.first,
        second: &room.second,
    };
    let least = count_case(k, &ranked, counts);
    let swapped = RankedPair {
        a: b,
        b: a,
        marks,
        first: &room.second,
        second: &room.first,
    };
    let most = count_case(k, &swapped, counts);
    ListSizes { least, most }
}

impl Measure for Recall {
    ghost use Rattle.desk_model.specs.declared.types.MeasureName.TheVariants.{Recall as R};
    ghost use Rattle.measure_core.specs.Numbers.{exact_cell, exact_bounds};
    ghost use Rattle.recall.specs.Laws as laws;

    ghost measured = { λ k. R k };

    ghost cell_of = { λ k. exact_cell (R k) };

    ghost bounds_of = { λ k. exact_bounds (R k) };

    fn name(&self) -> MeasureName {
        MeasureName::Recall(self.k)
    }

    fn unit(&self) -> i128 {
        UNIT
    }

    fn cell<L: Ledger>(
        &self,
        a: &Ranking,
        b: &Ranking,
        marks: &[Mark],
        steps: &mut Steps<L>,
    ) -> Cell {
        steps.tick();
        let own = own_counts(self.k, a, b, marks);
        self.own_cell(own, all_documents(marks))
    }

    fn cells<L: Ledger>(
        &self,
        rankings: &TopicRankings<'_>,
        marks: &[Mark],
        room: &mut CellRoom,
        cells: &mut [KeptCell],
        steps: &mut Steps<L>,
    ) {
        if own_cells(
            self,
            &MarkedRankings { rankings, marks },
            room,
            cells,
            steps,
        ) {
            return;
        }
        self.each_cell(rankings, marks, cells, steps);
    }

    fn bounds(&self, a: &Ranking, marks: &[Mark]) -> Span {
        let prefix = prefix_documents(self.k, a, marks);
        let all = all_documents(marks);
        Span {
            lo: least_span(prefix, Counts::NONE, all).lo,
            hi: least_span(Counts::NONE, prefix, all).negate().hi,
        }
    }

    fn least_case(
        &self,
        alloc: Global,
        a: &Ranking,
        b: &Ranking,
        marks: &[Mark],
    ) -> Result<Vec<bool>, Memory> {
        least_values(alloc, self.k, a, b, marks)
    }

    fn push_least_docs(
        &self,
        alloc: Global,
        a: &Ranking,
        b: &Ranking,
        marks: &[Mark],
        docs: &mut Vec<u32>,
    ) -> Result<(), Memory> {
        push_least(alloc, self.k, a, b, marks, docs)
    }

    fn count_lists(
        &self,
        alloc: Global,
        a: &Ranking,
        b: &Ranking,
        marks: &[Mark],
        room: &mut ListRoom,
        counts: &mut [u32],
    ) -> Result<ListSizes, Memory> {
        if self.k <= LOOKED_UP {
            return self.count_pushed(alloc, a, b, marks, &mut room.docs, counts);
        }
        Ok(count_cases(self.k, a, b, marks, room, counts))
    }

    fn weight(&self, a: &Ranking, b: &Ranking, _marks: &[Mark], doc: u32) -> u128 {
        let one_alone = is_among_first(self.k, a, doc) != is_among_first(self.k, b, doc);
        u128::from(one_alone)
    }

    fn shift_weights(
        &self,
        a: &Ranking,
        b: &Ranking,
        _marks: &[Mark],
        shift: Shift,
        totals: &mut [u128],
    ) {
        shift_one_side(self.k, a, b, shift, totals);
    }

    ghost laws = { laws.laws };
}
