// Which runs are directly above which, by the verdicts of their pairs.
ghost use Rattle.std.specs.Prelude.{◌≡◌, ◌⊎◌, ◌↔◌, ℕ, ◌<◌, ◌≤◌, false, true, length, All, IfOk};
ghost use Rattle.desk_model.specs.Limits.{RUN_LIMIT};
ghost use Rattle.desk_model.specs.Pairs.{pairs_of};
ghost use Rattle.pair_table.specs.Sums.{run_numbers};
ghost use Rattle.order_tiers.specs.Order.{IsAbovePair, IsSaidAbove};
ghost use Rattle.order_tiers.specs.Rows.{is_above, IsEmptyRow, IsSquare};

use crate::run_set::RunSet;
use desk_model::{PairPlaces, Verdict};
use std::alloc::{AllocError, Global};

/// The verdicts of the pairs of so many runs, in pair order. Its facts: a desk may have so many runs, and each pair has
/// a verdict.
#[derive(Clone, Copy)]
pub(crate) struct PairVerdicts<'v> {
    pub runs: u32,
    pub verdicts: &'v [Verdict],
    pub ghost some: { 0 < runs },
    pub ghost few: { runs ≤ RUN_LIMIT },
    pub ghost each: { length verdicts.now ≡ length (pairs_of (run_numbers runs)) },
}

// A row for each of the runs, in which no run is above another.
fn empty_rows(alloc: Global, pairs: &PairVerdicts<'_>) -> Result<Vec<RunSet>, AllocError>
    ensures count { IfOk result (λ rows. length rows.items ≡ pairs.now.runs) }
    ensures empty { IfOk result (λ rows. All (IsEmptyRow pairs.now.runs) rows.items) }
{
    let mut rows = Vec::with_capacity(alloc, pairs.runs as usize)?;
    for _run in 0..pairs.runs {
        rows.push(RunSet::new(pairs.runs))?;
    }
    Ok(rows)
}

// Puts the first run of a pair above the second, or the second above the first, where their verdict says so.
fn add_pair(rows: &mut [RunSet], at: PairPlaces, verdict: Verdict)
    requires square { IsSquare (length rows.old) rows.old }
    requires order { at.first < at.second }
    requires within { at.second < length rows.old }
    ensures square { IsSquare (length rows.old) rows.new }
    ensures above { (a b : ℕ) → (is_above rows.new a b ≡ true) ↔
        ((is_above rows.old a b ≡ true) ⊎ IsSaidAbove at.first at.second verdict a b) }
{
    match verdict {
        Verdict::Above => {
            let row = &mut rows[at.first as usize];
            row.add(at.second);
        }
        Verdict::Below => {
            let row = &mut rows[at.second as usize];
            row.add(at.first);
        }
        Verdict::Equal | Verdict::Open | Verdict::Close => {}
    }
}

// Puts each run above those that it is above by the verdicts of all pairs, in pair order.
fn add_pairs(rows: &mut [RunSet], pairs: &PairVerdicts<'_>)
    requires square { IsSquare pairs.now.runs rows.old }
    requires none { (a b : ℕ) → is_above rows.old a b ≡ false }
    ensures square { IsSquare pairs.now.runs rows.new }
    ensures above { (a b : ℕ) → (is_above rows.new a b ≡ true) ↔
        IsAbovePair pairs.now.runs pairs.now.verdicts.now a b }
{
    let mut at = PairPlaces::START;
    for place in 0..pairs.verdicts.len() {
        add_pair(rows, at, pairs.verdicts[place]);
        at = at.next(pairs.runs);
    }
}

/// Which of so many runs are above which by the verdicts of their pairs, in pair order.
pub(crate) fn direct_rows(
    alloc: Global,
    pairs: &PairVerdicts<'_>,
) -> Result<Vec<RunSet>, AllocError>
    ensures square { IfOk result (λ rows. IsSquare pairs.now.runs rows.items) }
    ensures above { IfOk result (λ rows. (a b : ℕ) →
        (is_above rows.items a b ≡ true) ↔
        IsAbovePair pairs.now.runs pairs.now.verdicts.now a b) }
{
    let mut rows = empty_rows(alloc, pairs)?;
    add_pairs(&mut rows, pairs);
    Ok(rows)
}
