// The bundle of a table.
ghost use Rattle.std.specs.Prelude.{◌≤◌, length, IfOk};
ghost use Rattle.desk_model.specs.Desk.{AreMarksOf};
ghost use Rattle.order_certificate.specs.Certificate.{IsLevel};
ghost use Rattle.pair_table.specs.Kept.{StandsFor};
ghost use Rattle.pair_table.specs.Numbers.{HasCellEnds};
ghost use Rattle.table_bundle.specs.Bundles.{IsBundleOf};

use crate::order::{run_names, runs_by_name};
use crate::pairs::named_pairs;
use crate::places::{picked_documents, replaced_claims};
use crate::standing_table::{StandingPairs, StandingTable};
use desk_model::{Desk, Marks, Memory};
use measure_core::Measure;
use order_bundle::{Bundle, BundleTopics};
use pair_table::Table;
use std::alloc::Global;

/// The bundle of a table that stands for a desk of at least two runs under marks: a claim on each pair of runs whose
/// verdict is not close. It is within the form. The level is from 1 to 1,000. The only error is out of memory.
///
/// Its runs are all runs of the desk, ascending by name. Each claim, written out, is the certificate that `evidence`
/// answers for its two runs, where the run of the smaller name is asked first: so the first run of a claim is the one
/// that is above, and where the two are equal or their order is open it is that of the smaller name. Its documents are
/// exactly those that some list names.
pub fn bundle_of<M: Measure>(
    alloc: Global,
    table: &Table<M>,
    desk: &Desk,
    marks: &Marks,
    level: u32,
) -> Result<Bundle, Memory>
    requires runs { 2 ≤ length desk.now.runs }
    requires marks { AreMarksOf desk.now marks.now.rows }
    requires level { IsLevel level }
    requires stands { StandsFor (M.cell_of table.now.measure) (M.bounds_of table.now.measure)
        desk.now marks.now.rows table.now }
    ensures { IfOk result (IsBundleOf (HasCellEnds (M.cell_of table.now.measure))
        (M.measured table.now.measure) desk.now marks.now.rows level) }
{
    // The laws speak of desks, and of measures that have a name.
    desk.valid();
    let rows = marks.rows();
    let measure = table.measure().name();
    let order = runs_by_name(alloc, desk)?;
    let runs = run_names(alloc, desk, &order)?;
    let pairs = named_pairs(alloc, &order)?;
    let standing = StandingTable {
        table,
        desk,
        marks: rows,
    };
    let pairs = StandingPairs {
        standing: &standing,
        pairs: &pairs,
    };
    let claims = pairs.claims(alloc)?;
    let (topics, places) = picked_documents(alloc, desk, &claims)?;
    let claims = replaced_claims(alloc, claims, &places)?;
    Ok(Bundle {
        measure,
        level,
        runs,
        topics: BundleTopics::new(topics),
        claims,
    })
}
