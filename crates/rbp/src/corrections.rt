// The shares of the documents of two runs: each run's alone, and the corrections for those of both.
ghost use Rattle.std.specs.Prelude.{◌≡◌, ◌<◌, ◌+ℤ◌, ◌-ℤ◌, if◌then◌else◌, nat_eq, nat_lt, ◌&&◌, pos, Some};
ghost use Rattle.measure_laws.specs.Ranks.{IsRankWithin};
ghost use Rattle.measure_laws.specs.Shares.{low_share, high_share};
ghost use Rattle.topic_counts.specs.Ends.{IsShort};
ghost use Rattle.rbp.specs.Persistence.{IsLoose};
ghost use Rattle.rbp.specs.Walk.{number_of, correction, is_in_least, is_in_most, AreCorrections};
ghost use Rattle.measure_core.specs.Laws.{AreMet};
ghost use Rattle.desk_model.specs.Limits.{RANK_LIMIT};

use crate::rbp::Rbp;
use crate::weights::number_of;
use desk_model::{Mark, Placed, Ranking};
use topic_counts::Span;
use topic_counts::pairs::passed;

/// No weight.
const NOTHING: Span = Span { lo: 0, hi: 0 };

/// The sums of the shares of the documents that are relevant in the least case and in the most case.
#[derive(Clone, Copy)]
pub struct Shares {
    pub least: Span,
    pub most: Span,
}

/// A span, or nothing where it does not count.
fn span_if(counts: bool, span: Span) -> Span
    ensures lo { result.lo ≡ (if counts then span.lo else pos 0) }
    ensures hi { result.hi ≡ (if counts then span.hi else pos 0) }
{
    if counts { span } else { NOTHING }
}

/// Whether two places are of one document, and it may be relevant. Few are, so this is one comparison
/// of numbers, and not a jump for each condition: a walk passes both places only where their document
/// is the same.
#[inline]
fn is_corrected(x: Placed, y: Placed, mark: Mark) -> bool
    ensures { result ≡ (nat_eq x.doc y.doc && nat_lt (number_of mark) 2) }
{
    number_of(mark) + 2 < 2 * (passed(x, y) + passed(y, x))
}

/// A number, or 0 where it is raised or lowered to that.
fn unless(zero: bool, number: i128) -> i128
    ensures { result ≡ (if zero then pos 0 else number) }
{
    if zero { 0 } else { number }
}

/// By how much each end of a span is beyond that of another.
fn beyond(span: Span, other: Span) -> Span
    requires span { IsLoose span }
    requires other { IsLoose other }
    ensures lo { result.lo ≡ span.lo -ℤ other.lo }
    ensures hi { result.hi ≡ span.hi -ℤ other.hi }
    ensures short { IsShort result }
{
    Span {
        lo: span.lo - other.lo,
        hi: span.hi - other.hi,
    }
}

/// The shares of the documents of two runs that have none in common, by their weights.
pub fn alone(first: Span, second: Span) -> Span
    requires first { IsLoose first }
    requires second { IsLoose second }
    ensures lo { result.lo ≡ first.lo -ℤ second.hi }
    ensures hi { result.hi ≡ first.hi -ℤ second.lo }
    ensures short { IsShort result }
{
    Span {
        lo: first.lo - second.hi,
        hi: first.hi - second.lo,
    }
}

impl Rbp {
    /// What a document with these two ranks adds to the difference.
    #[inline]
    fn share(&self, x: u32, y: u32) -> Span
        requires first { IsRankWithin RANK_LIMIT (Some x) }
        requires second { IsRankWithin RANK_LIMIT (Some y) }
        ensures lo { result.lo ≡ low_share self.now.top self.now.bottom (Some x) (Some y) }
        ensures hi { result.hi ≡ high_share self.now.top self.now.bottom (Some x) (Some y) }
        ensures loose { IsLoose result }
    {
        // What is kept of the persistence orders the weights.
        let _ = &self.top;
        let Span { lo, hi } = alone(self.weight_at(Some(x)), self.weight_at(Some(y)));
        Span {
            lo: unless((x <= y) & (lo < 0), lo),
            hi: unless((y <= x) & (hi > 0), hi),
        }
    }

    /// What a document of both runs adds to the sums of shares beyond what it would add by each of its
    /// ranks alone.
    #[inline]
    fn correction(&self, x: u32, y: u32, mark: Mark) -> Shares
        requires first { IsRankWithin RANK_LIMIT (Some x) }
        requires second { IsRankWithin RANK_LIMIT (Some y) }
        ensures least_lo { result.least.lo ≡
            correction (low_share self.now.top self.now.bottom) is_in_least mark (Some x) (Some y) }
        ensures least_hi { result.least.hi ≡
            correction (high_share self.now.top self.now.bottom) is_in_least mark (Some x)
            (Some y) }
        ensures most_lo { result.most.lo ≡
            correction (low_share self.now.top self.now.bottom) is_in_most mark (Some x) (Some y) }
        ensures most_hi { result.most.hi ≡
            correction (high_share self.now.top self.now.bottom) is_in_most mark (Some x) (Some y) }
        ensures least_short { IsShort result.least }
        ensures most_short { IsShort result.most }
    {
        let first = self.weight_at(Some(x));
        let second = self.weight_at(Some(y));
        let share = self.share(x, y);
        match mark {
            Mark::Other => Shares {
                least: NOTHING,
                most: NOTHING,
            },
            Mark::Relevant => {
                let more = beyond(share, alone(first, second));
                Shares {
                    least: more,
                    most: more,
                }
            }
            Mark::Unjudged => Shares {
                least: beyond(span_if(y < x, share), second.negate()),
                most: beyond(span_if(x < y, share), first),
            },
        }
    }

    /// The sums of corrections with those of two places, where they are of one document.
    #[inline]
    fn with_places(&self, sums: Shares, x: Placed, y: Placed, mark: Mark) -> Shares
        requires first { IsRankWithin RANK_LIMIT (Some x.rank) }
        requires second { IsRankWithin RANK_LIMIT (Some y.rank) }
        requires least { IsLoose sums.least }
        requires most { IsLoose sums.most }
        ensures least_lo { result.least.lo ≡
            sums.least.lo +ℤ (if nat_eq x.doc y.doc then correction
            (low_share self.now.top self.now.bottom) is_in_least mark (Some x.rank) (Some y.rank)
            else pos 0) }
        ensures least_hi { result.least.hi ≡
            sums.least.hi +ℤ (if nat_eq x.doc y.doc then correction
            (high_share self.now.top self.now.bottom) is_in_least mark (Some x.rank) (Some y.rank)
            else pos 0) }
        ensures most_lo { result.most.lo ≡
            sums.most.lo +ℤ (if nat_eq x.doc y.doc then correction
            (low_share self.now.top self.now.bottom) is_in_most mark (Some x.rank) (Some y.rank)
            else pos 0) }
        ensures most_hi { result.most.hi ≡
            sums.most.hi +ℤ (if nat_eq x.doc y.doc then correction
            (high_share self.now.top self.now.bottom) is_in_most mark (Some x.rank) (Some y.rank)
            else pos 0) }
    {
        if is_corrected(x, y, mark) {
            let more = self.correction(x.rank, y.rank, mark);
            Shares {
                least: sums.least.add(more.least),
                most: sums.most.add(more.most),
            }
        } else {
            sums
        }
    }

    /// The sums of the corrections of the documents of both runs, by one walk over both in order of
    /// the documents.
    pub fn corrections(&self, a: &Ranking, b: &Ranking, marks: &[Mark]) -> Shares
        requires { AreMet marks.now a.now b.now }
        ensures { AreCorrections self.now.top self.now.bottom marks.now a.now b.now result }
    {
        // What is kept of the persistence bounds the sums.
        let _ = &self.top;
        let first = a.by_doc();
        let second = b.by_doc();
        let mut sums = Shares {
            least: NOTHING,
            most: NOTHING,
        };
        let mut i = 0;
        let mut j = 0;
        while i < first.len() && j < second.len() {
            let x = first[i];
            let y = second[j];
            sums = self.with_places(sums, x, y, marks[x.doc as usize]);
            i += passed(x, y);
            j += passed(y, x);
        }
        sums
    }
}
