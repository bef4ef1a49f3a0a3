//! The certificate of two runs of a table.
ghost use Rattle.std.specs.Prelude.{◌≡◌, ◌≢◌, ◌<◌, IfOk};
ghost use Rattle.desk_model.specs.Desk.{AreMarksOf};
ghost use Rattle.order_certificate.specs.Certificate.{IsLevel, IsCertificate};
ghost use Rattle.pair_table.specs.Numbers.{HasCellEnds};
ghost use Rattle.pair_table.specs.Kept.{StandsFor};
ghost use Rattle.pair_table.specs.declared.evidence.EvidenceFault.TheVariants.{Memory as NoMemory};
ghost use Rattle.pair_table.specs.Evidence.{IsAnswered};

use crate::certificates::CertifiedRuns;
use crate::table::Table;
use desk_model::{Desk, Marks, Memory, Totals, Verdict};
use measure_core::Measure;
use order_certificate::Certificate;
use std::alloc::Global;

/// Why two runs have no certificate.
#[derive(Clone, Copy, PartialEq, Eq)]
pub enum EvidenceFault {
    /// The verdict is close: the four sums.
    Close(Totals),
    /// Memory ran out.
    Memory,
}

impl From<Memory> for EvidenceFault {
    ghost from_gives = { λ _ e. e ≡ NoMemory };

    fn from(_: Memory) -> EvidenceFault {
        EvidenceFault::Memory
    }
}

impl<M: Measure> Table<M> {
    /// The certificate of two different runs of a desk under marks, for which the table stands; runs are
    /// numbered from 0 and the level is from 1 to 1,000.
    ///
    /// It claims what the verdict of the first run on the second says. Where that is `Below` it claims
    /// `above` of the swapped runs. Its numbers are the ends of the cells, in units of the measure, and
    /// its lists name the unjudged documents that the least and the most case make relevant, ascending.
    /// `Close` comes exactly where the verdict is close, with the four sums of the two runs.
    pub fn evidence(
        &self,
        alloc: Global,
        desk: &Desk,
        marks: &Marks,
        level: u32,
        i: u32,
        j: u32,
    ) -> Result<Certificate, EvidenceFault>
        requires different { i ≢ j }
        requires first { i < self.now.runs }
        requires second { j < self.now.runs }
        requires marks { AreMarksOf desk.now marks.now.rows }
        requires level { IsLevel level }
        requires stands { StandsFor (M.cell_of self.now.measure) (M.bounds_of self.now.measure)
            desk.now marks.now.rows self.now }
        ensures answer { IsAnswered (HasCellEnds (M.cell_of self.now.measure))
            (M.measured self.now.measure) desk.now marks.now.rows level i j result }
        ensures certificate { IfOk result IsCertificate }
    {
        // The laws speak of desks, and of measures that have a name.
        let measure = self.measure();
        let _name = measure.name();
        desk.valid();
        let runs = CertifiedRuns {
            table: self,
            desk,
            level,
            first: i,
            second: j,
        };
        let swapped = CertifiedRuns {
            table: self,
            desk,
            level,
            first: j,
            second: i,
        };
        let made = match self.verdict(i, j) {
            Verdict::Above => runs.above(alloc),
            Verdict::Below => swapped.above(alloc),
            Verdict::Equal => runs.equal(alloc),
            Verdict::Open => runs.open(alloc, marks.rows()),
            Verdict::Close => return Err(EvidenceFault::Close(self.totals(i, j))),
        };
        match made {
            Ok(certificate) => Ok(certificate),
            Err(memory) => Err(memory.into()),
        }
    }
}
