// The certificates of two runs, by their cells or by the cases of each topic.
ghost use Rattle.std.specs.Prelude.{List, ◌≡◌, ◌≢◌, ◌<◌, true, length, map, pos, IfOk, if◌then◌else◌};
ghost use Rattle.desk_model.specs.Desk.{AreMarksOf, topics_under};
ghost use Rattle.desk_model.specs.Extremes.{Ends};
ghost use Rattle.desk_model.specs.declared.types.Mark.{Mark as OfMark};
ghost use Rattle.desk_model.specs.Name.{is_name};
ghost use Rattle.measure_core.specs.Made.{ends_of};
ghost use Rattle.pair_table.specs.Numbers.{HasCellEnds};
ghost use Rattle.pair_table.specs.Sums.{cell_ends};
ghost use Rattle.pair_table.specs.Kept.{StandsFor};
ghost use Rattle.pair_table.specs.Evidence.{bounds_of, witnesses_of, Compares, SaysAbove, SaysEqual, SaysOpen};

use crate::marked_topic::MarkedTopic;
use crate::table::Table;
use crate::two_runs::TwoRuns;
use crate::witness::TopicPair;
use desk_model::{Desk, Memory, Name, Rows};
use measure_core::{Cell, Measure};
use order_certificate::{Certificate, Evidence, TopicBound, TopicBounds, Witnesses};
use std::alloc::Global;

/// Two different runs of a desk that a table is of, and the level of a certificate of them.
#[derive(Drop)]
pub struct CertifiedRuns<'a, M: Measure> {
    pub table: &'a Table<M>,
    pub desk: &'a Desk,
    pub level: u32,
    pub first: u32,
    pub second: u32,
    pub ghost runs: { table.now.runs ≡ length desk.now.runs },
    pub ghost topics: { length table.now.topics ≡ length desk.now.topics },
    pub ghost different: { first ≢ second },
    pub ghost first_known: { first < length desk.now.runs },
    pub ghost second_known: { second < length desk.now.runs },
}

// The bound of a topic by its cell: the lower end of the least difference, and, where it is wanted, the
// upper end of the greatest.
fn bound(alloc: Global, name: &[u8], cell: Cell, upper: bool) -> Result<TopicBound, Memory>
    requires { is_name name.now ≡ true }
    ensures { IfOk result (λ bound. bound ≡
        record {
          topic = name.now;
          low = cell.least.lo;
          high = if upper then cell.most.hi else pos 0;
        }) }
{
    Ok(TopicBound {
        topic: Name::copy_of(alloc, name)?,
        low: cell.least.lo,
        high: if upper { cell.most.hi } else { 0 },
    })
}

// The bound of each topic by its cell.
fn bounds_of_cells(
    alloc: Global,
    desk: &Desk,
    cells: &[Cell],
    upper: bool,
) -> Result<TopicBounds, Memory>
    requires { length cells.now ≡ length desk.now.topics }
    ensures { IfOk result (λ bounds. bounds ≡
        bounds_of (λ (e : Ends). if upper then e.most_hi else pos 0) desk.now
        (map ends_of cells.now)) }
{
    let mut bounds = Vec::new(alloc);
    for topic in 0..desk.topic_count() {
        let name = desk.topic(topic).name();
        let next = bound(alloc, name, cells[topic as usize], upper)?;
        bounds.push(next)?;
    }
    Ok(TopicBounds::new(bounds))
}

impl<'a, M: Measure> CertifiedRuns<'a, M> {
    // The bound of each topic.
    fn bounds(&self, alloc: Global, upper: bool) -> Result<TopicBounds, Memory>
        ensures { IfOk result (λ bounds. (marks : List (List OfMark)) →
            AreMarksOf self.now.desk.now marks →
            StandsFor (M.cell_of self.now.table.now.measure) (M.bounds_of self.now.table.now.measure)
            self.now.desk.now marks self.now.table.now →
            bounds ≡ bounds_of (λ (e : Ends). if upper then e.most_hi else pos 0) self.now.desk.now
            (cell_ends (M.cell_of self.now.table.now.measure)
            (topics_under self.now.desk.now marks) self.now.first self.now.second)) }
    {
        // The laws speak of desks, and of measures that have a name.
        let desk = self.desk;
        let measure = self.table.measure();
        let _name = measure.name();
        let pair = TwoRuns {
            runs: desk.run_count(),
            first: self.first,
            second: self.second,
        };
        let cells = self.table.cells(alloc, pair)?;
        bounds_of_cells(alloc, desk, &cells, upper)
    }

    // The least and the most case of each topic under marks.
    fn witnesses(&self, alloc: Global, marks: &Rows) -> Result<Witnesses, Memory>
        requires { AreMarksOf self.now.desk.now marks.now }
        ensures { IfOk result (λ witnesses. witnesses ≡
            witnesses_of (M.measured self.now.table.now.measure) self.now.desk.now marks.now
            self.now.first self.now.second) }
    {
        let measure = self.table.measure();
        let mut witnesses = Vec::new(alloc);
        for number in 0..self.desk.topic_count() {
            let pair = TopicPair {
                topic: MarkedTopic::of(self.desk, marks, number),
                first: self.first,
                second: self.second,
            };
            witnesses.push(pair.witness(alloc, measure)?)?;
        }
        Ok(Witnesses::new(witnesses))
    }

    // The certificate with this evidence.
    fn certificate(&self, alloc: Global, evidence: Evidence) -> Result<Certificate, Memory>
        ensures compares { IfOk result (Compares (M.measured self.now.table.now.measure)
            self.now.desk.now self.now.level self.now.first self.now.second) }
        ensures evidence { IfOk result (λ certificate. certificate.evidence ≡ evidence) }
    {
        let desk = self.desk;
        desk.valid();
        Ok(Certificate {
            measure: self.table.measure().name(),
            level: self.level,
            first: Name::copy_of(alloc, desk.run_name(self.first))?,
            second: Name::copy_of(alloc, desk.run_name(self.second))?,
            evidence,
        })
    }

    /// The certificate that the first run is always above the second.
    pub fn above(&self, alloc: Global) -> Result<Certificate, Memory>
        ensures { IfOk result (λ certificate. (marks : List (List OfMark)) →
            AreMarksOf self.now.desk.now marks →
            StandsFor (M.cell_of self.now.table.now.measure) (M.bounds_of self.now.table.now.measure)
            self.now.desk.now marks self.now.table.now →
            SaysAbove (HasCellEnds (M.cell_of self.now.table.now.measure))
            (M.measured self.now.table.now.measure) self.now.desk.now marks self.now.level
            self.now.first self.now.second certificate) }
    {
        let bounds = self.bounds(alloc, false)?;
        self.certificate(alloc, Evidence::Above(bounds))
    }

    /// The certificate that the runs are always equal.
    pub fn equal(&self, alloc: Global) -> Result<Certificate, Memory>
        ensures { IfOk result (λ certificate. (marks : List (List OfMark)) →
            AreMarksOf self.now.desk.now marks →
            StandsFor (M.cell_of self.now.table.now.measure) (M.bounds_of self.now.table.now.measure)
            self.now.desk.now marks self.now.table.now →
            SaysEqual (HasCellEnds (M.cell_of self.now.table.now.measure))
            (M.measured self.now.table.now.measure) self.now.desk.now marks self.now.level
            self.now.first self.now.second certificate) }
    {
        let bounds = self.bounds(alloc, true)?;
        self.certificate(alloc, Evidence::Equal(bounds))
    }

    /// The certificate that the order of the runs is open under marks.
    pub fn open(&self, alloc: Global, marks: &Rows) -> Result<Certificate, Memory>
        requires { AreMarksOf self.now.desk.now marks.now }
        ensures { IfOk result (SaysOpen (M.measured self.now.table.now.measure) self.now.desk.now
            marks.now self.now.level self.now.first self.now.second) }
    {
        let witnesses = self.witnesses(alloc, marks)?;
        self.certificate(alloc, Evidence::Open(witnesses))
    }
}
