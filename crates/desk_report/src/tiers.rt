// The printed tiers of the runs of a table.
ghost use Rattle.std.specs.Prelude.{◌≡◌, ◌++◌, ◌∷◌, [], All, length, map, flat_map, codes, decimal, IfOk, OnOk};
ghost use Rattle.desk_model.specs.Desk.{AreMarksOf};
ghost use Rattle.pair_table.specs.Kept.{StandsFor, table_sums};
ghost use Rattle.order_tiers.specs.Order.{CoverIsWithin};
ghost use Rattle.desk_report.specs.Reports.{Subject, IsSubjectOf};
ghost use Rattle.desk_report.specs.Table.{ended};
ghost use Rattle.desk_report.specs.Tiers.{IsTiersText, line_of_cover, system_line, system_lines, tiers_text};

use crate::Grading;
use crate::table::{push_head, push_number_line};
use desk_model::{Desk, Marks, MeasureName, Memory, push_number};
use measure_core::Measure;
use order_tiers::{Cover, Order};
use pair_table::Table;
use std::alloc::{AllocError, Global};

fn push_system(out: &mut Vec<u8>, name: &[u8], tier: u32) -> Result<(), AllocError>
    ensures { OnOk result (out.new.items ≡ out.old.items ++ ended (system_line name.now tier)) }
{
    out.extend_from_slice(b"system ")?;
    out.extend_from_slice(name)?;
    out.extend_from_slice(b" ")?;
    push_number(out, tier)?;
    out.extend_from_slice(b"\n")
}

fn push_systems(out: &mut Vec<u8>, desk: &Desk, order: &Order) -> Result<(), AllocError>
    requires { length order.now.tiers ≡ length desk.now.runs }
    ensures { OnOk result (out.new.items ≡ out.old.items ++
        flat_map ended (system_lines desk.now.runs order.now.tiers)) }
{
    for run in 0..desk.run_count() {
        push_system(out, desk.run_name(run), order.tier(run))?;
    }
    Ok(())
}

fn push_cover_names(out: &mut Vec<u8>, first: &[u8], second: &[u8]) -> Result<(), AllocError>
    ensures { OnOk result (out.new.items ≡ out.old.items ++ (codes "cover " ++ first.now ++ 32 ∷ second.now)) }
{
    out.extend_from_slice(b"cover ")?;
    out.extend_from_slice(first)?;
    out.extend_from_slice(b" ")?;
    out.extend_from_slice(second)
}

fn push_counts(out: &mut Vec<u8>, wins: u32, losses: u32) -> Result<(), AllocError>
    ensures { OnOk result (out.new.items ≡ out.old.items ++
        (32 ∷ decimal wins ++ 32 ∷ decimal losses)) }
{
    out.extend_from_slice(b" ")?;
    push_number(out, wins)?;
    out.extend_from_slice(b" ")?;
    push_number(out, losses)
}

fn push_cover(out: &mut Vec<u8>, desk: &Desk, cover: &Cover) -> Result<(), AllocError>
    requires { CoverIsWithin (length desk.now.runs) cover.now }
    ensures { OnOk result (out.new.items ≡ out.old.items ++
        ended (line_of_cover desk.now.runs cover.now)) }
{
    let first = desk.run_name(cover.first);
    let second = desk.run_name(cover.second);
    push_cover_names(out, first, second)?;
    push_counts(out, cover.wins, cover.losses)?;
    out.extend_from_slice(b"\n")
}

fn push_covers(out: &mut Vec<u8>, desk: &Desk, covers: &[Cover]) -> Result<(), AllocError>
    requires { All (CoverIsWithin (length desk.now.runs)) covers.now }
    ensures { OnOk result (out.new.items ≡ out.old.items ++
        flat_map ended (map (line_of_cover desk.now.runs) covers.now)) }
{
    for cover in covers {
        push_cover(out, desk, cover)?;
    }
    Ok(())
}

/// The tiers of runs: the head of a table, how many tiers there are, a line `system NAME TIER` for each run in order, and a
/// line `cover FIRST SECOND WINS LOSSES` for each covering pair.
///
/// # Errors
/// `Memory`: out of memory.
pub fn tiers_text(
    alloc: Global,
    desk: &Desk,
    name: &MeasureName,
    level: u32,
    depth: Option<u32>,
    order: &Order,
) -> Result<Vec<u8>, Memory>
    requires { length order.now.tiers ≡ length desk.now.runs }
    ensures { IfOk result (λ text. text.items ≡
        tiers_text desk.now name.now level depth order.now) }
{
    let mut out = Vec::new(alloc);
    push_head(
        &mut out,
        name,
        level,
        depth,
        desk.topic_count(),
        desk.run_count(),
    )?;
    push_number_line(&mut out, b"tiers ", order.tiers())?;
    push_systems(&mut out, desk, order)?;
    push_covers(&mut out, desk, order.covers())?;
    Ok(out)
}

/// The text of the tiers of the runs of a table over a desk: its head with the measure, the level, the depth where there is
/// one, and how many topics and runs there are, and then the tiers and the covering pairs. It speaks of the marks, for which
/// the table stands.
///
/// # Errors
/// `Memory`: out of memory.
pub fn tiers_report<M: Measure>(
    alloc: Global,
    desk: &Desk,
    marks: &Marks,
    grading: Grading,
    table: &Table<M>,
) -> Result<Vec<u8>, Memory>
    requires marks { AreMarksOf desk.now marks.now.rows }
    requires table { StandsFor (M.cell_of table.now.measure) (M.bounds_of table.now.measure)
        desk.now marks.now.rows table.now }
    ensures { IfOk result (λ text. (s : Subject) → s.level ≡ grading.level →
        s.depth ≡ grading.depth → s.marks ≡ marks.now.rows →
        IsSubjectOf (M.measured table.now.measure) (M.cell_of table.now.measure)
        (M.bounds_of table.now.measure) desk.now (table_sums table.now) s →
        IsTiersText s text.items) }
{
    desk.valid();
    let name = table.measure().name();
    let order = Order::of_table(alloc, table, desk, marks)?;
    let text = tiers_text(alloc, desk, &name, grading.level(), grading.depth(), &order)?;
    Ok(text)
}
