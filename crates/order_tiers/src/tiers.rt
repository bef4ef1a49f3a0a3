// Tiers by rows that say which runs are certified above which.
ghost use Rattle.std.specs.Prelude.{◌≡◌, ◌+◌, ◌<◌, ◌≤◌, All, length, IfOk};
ghost use Rattle.order_tiers.specs.Rows.{AboveBy, AreCountsAbove, HaveTiersBelow, count_above};
ghost use Rattle.order_tiers.specs.Tiers.{IsTierOf, AreTiers, IsGreatestTier, tier_in};

use crate::desk_rows::{DeskRow, DeskRows};
use std::alloc::{AllocError, Global};

// How many runs are above a run.
fn count_above(row: &DeskRow<'_>) -> u32
    ensures count { result ≡ count_above row.now.of.rows.now row.now.run }
    ensures within { result ≤ length row.now.of.rows.now }
{
    let rows = row.of.rows;
    let mut count = 0;
    for other in 0..rows.len() {
        if rows[other].has(row.run) {
            count += 1;
        }
    }
    count
}

// How many runs are above each run.
fn counts_above(alloc: Global, of: &DeskRows<'_>) -> Result<Vec<u32>, AllocError>
    ensures { IfOk result (λ counts. AreCountsAbove of.now.rows.now counts.items) }
{
    let mut counts = Vec::with_capacity(alloc, of.rows.len())?;
    for run in 0..of.rows.len() {
        let row = DeskRow {
            of: *of,
            run: run as u32,
        };
        counts.push(count_above(&row))?;
    }
    Ok(counts)
}

// The tier of a run by the tiers of the runs above it.
fn tier_by(row: &DeskRow<'_>, tiers: &[u32]) -> u32
    requires count { length tiers.now ≡ length row.now.of.rows.now }
    requires small { All (λ tier. tier ≤ length row.now.of.rows.now + 1) tiers.now }
    ensures { IsTierOf (AboveBy row.now.of.rows.now) (length row.now.of.rows.now)
        (tier_in tiers.now) row.now.run result }
{
    let rows = row.of.rows;
    let mut tier: u32 = 1;
    for above in 0..rows.len() {
        if rows[above].has(row.run) {
            tier = tier.max(tiers[above] + 1);
        }
    }
    tier
}

// Gives each run with so many runs above it its tier, where each run with fewer has its tier.
fn fill_tiers(of: &DeskRows<'_>, counts: &[u32], tiers: &mut [u32], count: u32)
    requires counts { AreCountsAbove of.now.rows.now counts.now }
    requires fewer { HaveTiersBelow of.now.rows.now tiers.old count }
    ensures { HaveTiersBelow of.now.rows.now tiers.new (count + 1) }
{
    for run in 0..of.rows.len() {
        if counts[run] == count {
            let row = DeskRow {
                of: *of,
                run: run as u32,
            };
            tiers[run] = tier_by(&row, tiers);
        }
    }
}

/// The tier of each run by the runs above it.
pub(crate) fn tiers_of(alloc: Global, of: &DeskRows<'_>) -> Result<Vec<u32>, AllocError>
    ensures count { IfOk result (λ tiers. length tiers.items ≡ length of.now.rows.now) }
    ensures tiers { IfOk result (λ tiers.
        AreTiers (AboveBy of.now.rows.now) (length of.now.rows.now) (tier_in tiers.items)) }
{
    let counts = counts_above(alloc, of)?;
    let mut tiers = vec![in alloc; 0; of.rows.len()]?;
    // A run has at most as many runs above it as there are.
    for count in 0..of.rows.len() as u32 + 1 {
        fill_tiers(of, &counts, &mut tiers, count);
    }
    Ok(tiers)
}

/// The greatest of some tiers.
pub(crate) fn greatest_tier(tiers: &[u32]) -> u32
    requires { 0 < length tiers.now }
    ensures { IsGreatestTier tiers.now result }
{
    let mut greatest = tiers[0];
    for tier in tiers {
        greatest = greatest.max(*tier);
    }
    greatest
}
