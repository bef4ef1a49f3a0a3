// The claims of a table, on all documents of each topic.
ghost use Rattle.std.specs.Prelude.{◌≡◌, map, pos, Some, IfOk, if◌then◌else◌};
ghost use Rattle.desk_model.specs.Desk.{topics_under};
ghost use Rattle.desk_model.specs.Extremes.{Ends};
ghost use Rattle.desk_model.specs.declared.types.Verdict.TheVariants.{Above as IsAbove, Equal as IsEqual, Open as IsOpen};
ghost use Rattle.measure_core.specs.Made.{ends_of};
ghost use Rattle.pair_table.specs.Sums.{cell_ends};
ghost use Rattle.table_bundle.specs.Drafts.{bounds_by, draft_by, draft_on, drafts_on};

use crate::pairs::NamedPair;
use crate::standing_table::{StandingPair, StandingPairs};
use desk_model::{Memory, PairPlaces, Verdict};
use measure_core::{Cell, Measure};
use order_bundle::{Bound, PairBounds, PairClaim, PairEvidence};
use pair_table::TwoRuns;
use std::alloc::Global;

// The bound of each topic by its cell: the lower end of the least difference, and, where it is wanted, the upper end
// of the greatest.
fn bounds_of(alloc: Global, cells: &[Cell], upper: bool) -> Result<PairBounds, Memory>
    ensures { IfOk result (λ bounds. bounds ≡
        bounds_by (λ (e : Ends). if upper then e.most_hi else pos 0) (map ends_of cells.now)) }
{
    let mut made = Vec::with_capacity(alloc, cells.len())?;
    for cell in cells {
        made.push(Bound {
            low: cell.least.lo,
            high: if upper { cell.most.hi } else { 0 },
        })?;
    }
    Ok(PairBounds::new(made))
}

impl<'s, 'a, M: Measure> StandingPair<'s, 'a, M> {
    // The cells of the two runs, one for each topic.
    fn cells(&self, alloc: Global) -> Result<Vec<Cell>, Memory>
        ensures { IfOk result (λ cells.
            let s = self.now.standing.now in
            map ends_of cells.items ≡
            cell_ends (M.cell_of s.table.now.measure) (topics_under s.desk.now s.marks.now)
            self.now.pair.first self.now.pair.second) }
    {
        // The laws speak of measures that have a name.
        let standing = self.standing;
        let measure = standing.table.measure();
        let _name = measure.name();
        let pair = TwoRuns {
            runs: standing.desk.run_count(),
            first: self.pair.first,
            second: self.pair.second,
        };
        standing.table.cells(alloc, pair)
    }

    // The claim that the first run is always above the second.
    fn above(&self, alloc: Global) -> Result<PairClaim, Memory>
        ensures { IfOk result (λ claim.
            let s = self.now.standing.now in
            let p = self.now.pair in
            Some claim ≡
            draft_by (M.cell_of s.table.now.measure) (M.measured s.table.now.measure)
            (topics_under s.desk.now s.marks.now) (p.at.first, p.at.second) p.first p.second
            IsAbove) }
    {
        let cells = self.cells(alloc)?;
        let evidence = PairEvidence::Above(bounds_of(alloc, &cells, false)?);
        Ok(PairClaim {
            first: self.pair.at.first,
            second: self.pair.at.second,
            evidence,
        })
    }

    // The claim that the two runs are always equal.
    fn equal(&self, alloc: Global) -> Result<PairClaim, Memory>
        ensures { IfOk result (λ claim.
            let s = self.now.standing.now in
            let p = self.now.pair in
            Some claim ≡
            draft_by (M.cell_of s.table.now.measure) (M.measured s.table.now.measure)
            (topics_under s.desk.now s.marks.now) (p.at.first, p.at.second) p.first p.second
            IsEqual) }
    {
        let cells = self.cells(alloc)?;
        let evidence = PairEvidence::Equal(bounds_of(alloc, &cells, true)?);
        Ok(PairClaim {
            first: self.pair.at.first,
            second: self.pair.at.second,
            evidence,
        })
    }

    // The claim that the order of the two runs is open.
    fn open(&self, alloc: Global) -> Result<PairClaim, Memory>
        ensures { IfOk result (λ claim.
            let s = self.now.standing.now in
            let p = self.now.pair in
            Some claim ≡
            draft_by (M.cell_of s.table.now.measure) (M.measured s.table.now.measure)
            (topics_under s.desk.now s.marks.now) (p.at.first, p.at.second) p.first p.second
            IsOpen) }
    {
        let evidence = PairEvidence::Open(self.picks(alloc)?);
        Ok(PairClaim {
            first: self.pair.at.first,
            second: self.pair.at.second,
            evidence,
        })
    }

    /// The claim on the two runs, and none where their verdict is close.
    pub fn claim(&self, alloc: Global) -> Result<Option<PairClaim>, Memory>
        ensures { IfOk result (λ held.
            let s = self.now.standing.now in
            held ≡
            draft_on (M.cell_of s.table.now.measure) (M.measured s.table.now.measure)
            (topics_under s.desk.now s.marks.now) self.now.pair) }
    {
        // The laws speak of desks, and of measures that have a name.
        let standing = self.standing;
        let measure = standing.table.measure();
        let _name = measure.name();
        standing.desk.valid();
        let NamedPair { at, first, second } = self.pair;
        let exchanged = StandingPair {
            standing,
            pair: NamedPair {
                at: PairPlaces {
                    first: at.second,
                    second: at.first,
                },
                first: second,
                second: first,
            },
        };
        let claim = match standing.table.verdict(first, second) {
            Verdict::Above => self.above(alloc)?,
            Verdict::Below => exchanged.above(alloc)?,
            Verdict::Equal => self.equal(alloc)?,
            Verdict::Open => self.open(alloc)?,
            Verdict::Close => return Ok(None),
        };
        Ok(Some(claim))
    }
}

impl<'s, 'a, M: Measure> StandingPairs<'s, 'a, M> {
    /// The claims on the pairs whose verdict is not close.
    pub fn claims(&self, alloc: Global) -> Result<Vec<PairClaim>, Memory>
        ensures { IfOk result (λ claims.
            let s = self.now.standing.now in
            claims.items ≡
            drafts_on (M.cell_of s.table.now.measure) (M.measured s.table.now.measure)
            (topics_under s.desk.now s.marks.now) self.now.pairs.now) }
    {
        let pairs = self.pairs;
        let mut claims = Vec::new(alloc);
        for pair in pairs {
            let pair = StandingPair {
                standing: self.standing,
                pair: *pair,
            };
            if let Some(claim) = pair.claim(alloc)? {
                claims.push(claim)?;
            }
        }
        Ok(claims)
    }
}
