// From pairs to chains.
ghost use Rattle.std.specs.Prelude.{◌≡◌, ◌↔◌, ◌<◌, ◌||◌, ◌&&◌, ℕ, true, length, IfOk};
ghost use Rattle.order_tiers.specs.Chains.{IsCertifiedAbove};
ghost use Rattle.order_tiers.specs.Order.{IsAbovePair};
ghost use Rattle.order_tiers.specs.Rows.{has, is_above, AboveBy, IsSquare};

use crate::direct::{PairVerdicts, direct_rows};
use crate::run_set::RunSet;
use std::alloc::{AllocError, Global};

// Where a run is above one run, makes it above all that this one is above.
fn lead_through(rows: &mut [RunSet], via: u32, leads: &RunSet)
    requires via { via < length leads.now }
    requires square { IsSquare (length leads.now) rows.old }
    ensures square { IsSquare (length leads.now) rows.new }
    ensures led { (a b : ℕ) →
        is_above rows.new a b ≡
        (is_above rows.old a b || (is_above rows.old a via && has leads.now b)) }
{
    for run in 0..rows.len() {
        let row = &mut rows[run];
        row.add_through(via, leads);
    }
}

// Makes rows that say which runs are directly above which say which are certified above which: a run is above another
// exactly where a chain of the given pairs leads from it to the other. What `leads` holds before and after is anything.
fn close(rows: &mut [RunSet], leads: &mut RunSet)
    requires { IsSquare (length leads.old) rows.old }
    ensures square { IsSquare (length leads.old) rows.new }
    ensures leads { length leads.new ≡ length leads.old }
    ensures chains { (a b : ℕ) → (is_above rows.new a b ≡ true) ↔
        IsCertifiedAbove (AboveBy rows.old) a b }
{
    for via in 0..rows.len() {
        leads.clear();
        leads.add_all(&rows[via]);
        lead_through(rows, via as u32, leads);
    }
}

/// Which of the runs are certified above which, by the verdicts of their pairs.
pub(crate) fn certified_rows(
    alloc: Global,
    pairs: &PairVerdicts<'_>,
) -> Result<Vec<RunSet>, AllocError>
    ensures square { IfOk result (λ rows. IsSquare pairs.now.runs rows.items) }
    ensures certified { IfOk result (λ rows. (a b : ℕ) →
        (is_above rows.items a b ≡ true) ↔
        IsCertifiedAbove (IsAbovePair pairs.now.runs pairs.now.verdicts.now) a b) }
{
    let mut rows = direct_rows(alloc, pairs)?;
    let mut leads = RunSet::new(pairs.runs);
    close(&mut rows, &mut leads);
    Ok(rows)
}
