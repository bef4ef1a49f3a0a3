// How long the text of the bundle of a table is, counted without making the bundle.
ghost use Rattle.std.specs.Prelude.{◌≡◌, ◌+◌, ◌*◌, ◌^◌, ◌≤◌, length, decimal, IfOk};
ghost use Rattle.desk_model.specs.Desk.{AreMarksOf};
ghost use Rattle.order_certificate.specs.Certificate.{IsLevel};
ghost use Rattle.pair_table.specs.Kept.{StandsFor};
ghost use Rattle.pair_table.specs.Numbers.{HasCellEnds};
ghost use Rattle.table_bundle.specs.Lengths.{IsBundleLength};

use crate::order::{run_names, runs_by_name};
use crate::pairs::named_pairs;
use crate::standing_table::{StandingPairs, StandingTable};
use desk_model::{Desk, Marks, Memory};
use measure_core::Measure;
use order_bundle::length::{digits, names_length, opening_length};
use pair_table::Table;
use std::alloc::Global;

// The lines that count the runs, topics and claims, and the last line.
fn counting_lines(runs: u64, topics: u64, claims: u64) -> u64
    ensures bytes { result ≡ length (decimal runs) + length (decimal topics) +
        length (decimal claims) + 26 }
    ensures few { result ≤ 200 }
{
    digits(runs) + digits(topics) + digits(claims) + 26
}

/// How many bytes the text of the bundle of a table has, which `bundle_of` makes for the same desk, marks and level. No
/// list is kept: it needs no more memory than a count for each document of one topic. The only error is out of memory.
///
/// The desk has at least two runs, and the level is from 1 to 1,000.
pub fn table_bundle_length<M: Measure>(
    alloc: Global,
    table: &Table<M>,
    desk: &Desk,
    marks: &Marks,
    level: u32,
) -> Result<u64, Memory>
    requires runs { 2 ≤ length desk.now.runs }
    requires marks { AreMarksOf desk.now marks.now.rows }
    requires level { IsLevel level }
    requires stands { StandsFor (M.cell_of table.now.measure) (M.bounds_of table.now.measure)
        desk.now marks.now.rows table.now }
    ensures bytes { IfOk result
        (IsBundleLength (HasCellEnds (M.cell_of table.now.measure)) (M.measured table.now.measure)
        desk.now marks.now.rows level) }
    ensures few { IfOk result (λ bytes. bytes ≤ 2 * 10 ^ 18) }
{
    // The laws speak of desks, and of measures that have a name.
    desk.valid();
    let rows = marks.rows();
    let name = table.measure().name();
    let order = runs_by_name(alloc, desk)?;
    let runs = run_names(alloc, desk, &order)?;
    let pairs = named_pairs(alloc, &order)?;
    let standing = StandingTable {
        table,
        desk,
        marks: rows,
    };
    let all = StandingPairs {
        standing: &standing,
        pairs: &pairs,
    };
    let (claims, undecided) = all.count_claims(alloc)?;
    let open = StandingPairs {
        standing: &standing,
        pairs: &undecided,
    };
    let topics = open.topics_length(alloc)?;
    let first = opening_length(&name, level) + names_length(b"run ", runs.as_slice());
    let topic_count = u64::from(desk.topic_count());
    let counting = counting_lines(order.len() as u64, topic_count, claims.claims);
    Ok(first + counting + topics + claims.bytes)
}
