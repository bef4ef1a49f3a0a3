// The sums over levels, a level more.
ghost use Rattle.std.specs.Prelude.{◌≡◌, All, length};
ghost use Rattle.topic_counts.specs.Ends.{IsShort};
ghost use Rattle.pair_table.specs.Kept.{AreModestTotals, each_with, with_span};
ghost use Rattle.graded_rbp.specs.Kept.{with_totals};

use desk_model::Totals;
use topic_counts::Span;

fn plus(totals: &Totals, more: &Totals) -> Totals
    requires totals { AreModestTotals totals.now }
    requires more { AreModestTotals more.now }
    ensures { result ≡ with_totals totals.now more.now }
{
    Totals {
        least_lo: totals.least_lo + more.least_lo,
        least_hi: totals.least_hi + more.least_hi,
        most_lo: totals.most_lo + more.most_lo,
        most_hi: totals.most_hi + more.most_hi,
    }
}

fn span_plus(sums: Span, more: Span) -> Span
    requires sums { IsShort sums }
    requires more { IsShort more }
    ensures { result ≡ with_span sums more }
{
    Span {
        lo: sums.lo + more.lo,
        hi: sums.hi + more.hi,
    }
}

/// Adds the sums of a level to those of each pair.
pub fn add_totals(totals: &mut [Totals], more: &[Totals])
    requires count { length totals.old ≡ length more.now }
    requires near { All AreModestTotals totals.old }
    requires more { All AreModestTotals more.now }
    ensures { totals.new ≡ each_with with_totals totals.old more.now }
{
    for place in 0..totals.len() {
        totals[place] = plus(&totals[place], &more[place]);
    }
}

/// Adds the bounds of a level to those of each run.
pub fn add_bounds(bounds: &mut [Span], more: &[Span])
    requires count { length bounds.old ≡ length more.now }
    requires near { All IsShort bounds.old }
    requires more { All IsShort more.now }
    ensures { bounds.new ≡ each_with with_span bounds.old more.now }
{
    for run in 0..bounds.len() {
        bounds[run] = span_plus(bounds[run], more[run]);
    }
}
