// The line of a close pair.
ghost use Rattle.std.specs.Prelude.{◌≡◌, ◌++◌, ◌∷◌, codes, IfOk, OnOk};
ghost use Rattle.desk_report.specs.Table.{ended};
ghost use Rattle.desk_report.specs.Close.{sum_text, sums_text, close_line};

use desk_model::{Memory, Totals, push_signed};
use std::alloc::{AllocError, Global};

// A sum, after a space.
fn push_sum(out: &mut Vec<u8>, sum: i128) -> Result<(), AllocError>
    ensures { OnOk result (out.new.items ≡ out.old.items ++ sum_text sum) }
{
    out.push(b' ')?;
    push_signed(out, sum)
}

fn push_sums(out: &mut Vec<u8>, totals: &Totals) -> Result<(), AllocError>
    ensures { OnOk result (out.new.items ≡ out.old.items ++ sums_text totals.now) }
{
    push_sum(out, totals.least_lo)?;
    push_sum(out, totals.least_hi)?;
    push_sum(out, totals.most_lo)?;
    push_sum(out, totals.most_hi)
}

fn push_names(out: &mut Vec<u8>, first: &[u8], second: &[u8]) -> Result<(), AllocError>
    ensures { OnOk result (out.new.items ≡ out.old.items ++ (codes "close " ++ first.now ++ 32 ∷ second.now)) }
{
    out.extend_from_slice(b"close ")?;
    out.extend_from_slice(first)?;
    out.push(b' ')?;
    out.extend_from_slice(second)
}

fn push_close(
    out: &mut Vec<u8>,
    first: &[u8],
    second: &[u8],
    totals: &Totals,
) -> Result<(), AllocError>
    ensures { OnOk result (out.new.items ≡ out.old.items ++
        ended (close_line first.now second.now totals.now)) }
{
    push_names(out, first, second)?;
    push_sums(out, totals)?;
    out.extend_from_slice(b"\n")
}

/// The line `close FIRST SECOND LL LH ML MH` with its line feed: the names of two runs and their four sums over all
/// topics, in units of the measure and not rounded. LL and LH are the lower and the upper end of the least
/// difference, ML and MH those of the greatest.
///
/// # Errors
/// `Memory`: out of memory.
pub fn close_line(
    alloc: Global,
    first: &[u8],
    second: &[u8],
    totals: &Totals,
) -> Result<Vec<u8>, Memory>
    ensures { IfOk result (λ line. line.items ≡
        ended (close_line first.now second.now totals.now)) }
{
    let mut out = Vec::new(alloc);
    push_close(&mut out, first, second, totals)?;
    Ok(out)
}
