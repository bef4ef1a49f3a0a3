// The runs of a desk in ascending order of their names.
ghost use Rattle.std.specs.Prelude.{◌≡◌, map, All, length, IfOk, ◌<◌};
ghost use Rattle.desk_model.specs.Name.{name_cmp};
ghost use Rattle.measure_core.specs.Pairs.{run_numbers};
ghost use Rattle.order_bundle.specs.Evidence.{name_at};
ghost use Rattle.table_bundle.specs.Drafts.{IsNameOrder};

use desk_model::{Desk, Memory, Name};
use order_certificate::NameList;
use std::alloc::Global;
use std::cmp::Ordering;

// The name of a run by its number, and nothing past the last run.
fn name_or_nothing(desk: &Desk, run: u32) -> &[u8]
    ensures { result.now ≡ name_at desk.now.runs run }
{
    if run < desk.run_count() {
        desk.run_name(run)
    } else {
        b""
    }
}

// How the names of two runs compare.
fn compare(desk: &Desk, first: u32, second: u32) -> Ordering
    ensures { result ≡ name_cmp (name_at desk.now.runs first) (name_at desk.now.runs second) }
{
    name_or_nothing(desk, first).cmp(name_or_nothing(desk, second))
}

// The numbers of so many runs, from 0.
fn numbers(alloc: Global, runs: u32) -> Result<Vec<u32>, Memory>
    ensures { IfOk result (λ numbers. numbers.items ≡ run_numbers runs) }
{
    let mut numbers = Vec::with_capacity(alloc, runs as usize)?;
    for run in 0..runs {
        numbers.push(run)?;
    }
    Ok(numbers)
}

/// The numbers of all runs, those of smaller names first.
pub fn runs_by_name(alloc: Global, desk: &Desk) -> Result<Vec<u32>, Memory>
    ensures { IfOk result (λ order. IsNameOrder desk.now order.items) }
{
    desk.valid();
    let mut order = numbers(alloc, desk.run_count())?;
    order.sort_unstable_by(
        |x: &u32, y: &u32| -> Ordering
            ensures { result ≡
                name_cmp (name_at desk.entry.now.runs x.entry.now)
                (name_at desk.entry.now.runs y.entry.now) }
        { compare(desk, *x, *y) },
    );
    Ok(order)
}

/// The names of runs.
pub fn run_names(alloc: Global, desk: &Desk, order: &[u32]) -> Result<NameList, Memory>
    requires { All (λ run. run < length desk.now.runs) order.now }
    ensures { IfOk result (λ names. names ≡ map (name_at desk.now.runs) order.now) }
{
    desk.valid();
    let mut names = Vec::with_capacity(alloc, order.len())?;
    for run in order {
        let name = Name::copy_of(alloc, desk.run_name(*run))?;
        names.push(name)?;
    }
    Ok(NameList::new(names))
}
