// The numbers of topics: each against the ends on its topic, and their sums.
ghost use Rattle.std.specs.Prelude.{◌≡◌, ◌≤◌, All, length, MatchOption, MatchResult};
ghost use Rattle.desk_model.specs.Limits.{TOPIC_LIMIT};
ghost use Rattle.desk_model.specs.Verdict.{whole_sum};
ghost use Rattle.line_forms.specs.Places.{IsShortNumber};
ghost use Rattle.order_certificate.specs.Evidence.{lows_of, highs_of};
ghost use Rattle.order_certificate.specs.declared.certificate.Evidence.TheVariants.{Above as A, Equal as E};
ghost use Rattle.order_certificate.specs.declared.certificate.TopicBound.{TopicBound as Bound};
ghost use Rattle.order_verifier.specs.Refusal.{BoundsHold, HasBoundTooGreat, ShowsOf, topics_in};
ghost use Rattle.order_verifier.specs.Verified.{FailsBy};

use crate::comparison::Comparison;
use crate::failure::Failure;
use crate::rows::BoundRows;

fn low_sum<N: BoundRows>(numbers: &N) -> i128
    requires few { length (N.bounds numbers.now) ≤ TOPIC_LIMIT }
    requires sizes { All (λ (b : Bound). IsShortNumber b.low) (N.bounds numbers.now) }
    ensures { result ≡ whole_sum (lows_of (N.bounds numbers.now)) }
{
    let mut sum = 0;
    for topic in 0..numbers.count() {
        let low = numbers.low(topic);
        sum += low;
    }
    sum
}

fn high_sum<N: BoundRows>(numbers: &N) -> i128
    requires few { length (N.bounds numbers.now) ≤ TOPIC_LIMIT }
    requires sizes { All (λ (b : Bound). IsShortNumber b.high) (N.bounds numbers.now) }
    ensures { result ≡ whole_sum (highs_of (N.bounds numbers.now)) }
{
    let mut sum = 0;
    for topic in 0..numbers.count() {
        let high = numbers.high(topic);
        sum += high;
    }
    sum
}

impl Comparison<'_> {
    /// The first topic whose lower number is greater than the lower end of the least difference.
    fn first_low_too_great<N: BoundRows>(&self, numbers: &N) -> Option<u32>
        requires topics { length (N.bounds numbers.now) ≡ length (topics_in self.now) }
        requires few { length (N.bounds numbers.now) ≤ TOPIC_LIMIT }
        ensures { MatchOption result (BoundsHold self.now (A (N.bounds numbers.now)))
            (HasBoundTooGreat self.now (A (N.bounds numbers.now))) }
    {
        for topic in 0..numbers.count() {
            let low = numbers.low(topic);
            if low > self.least_low(topic) {
                return Some(topic);
            }
        }
        None
    }

    /// The first topic of which either number is beyond its end.
    fn first_too_great<N: BoundRows>(&self, numbers: &N) -> Option<u32>
        requires topics { length (N.bounds numbers.now) ≡ length (topics_in self.now) }
        requires few { length (N.bounds numbers.now) ≤ TOPIC_LIMIT }
        ensures { MatchOption result (BoundsHold self.now (E (N.bounds numbers.now)))
            (HasBoundTooGreat self.now (E (N.bounds numbers.now))) }
    {
        for topic in 0..numbers.count() {
            let low = numbers.low(topic);
            let high = numbers.high(topic);
            let ends = self.outer_ends(topic);
            if low > ends.least_low || high < ends.most_high {
                return Some(topic);
            }
        }
        None
    }

    /// Whether numbers show that the first run is always above the second.
    pub fn check_above<N: BoundRows>(&self, numbers: &N) -> Result<(), Failure>
        requires topics { length (N.bounds numbers.now) ≡ length (topics_in self.now) }
        requires few { length (N.bounds numbers.now) ≤ TOPIC_LIMIT }
        requires lows { All (λ (b : Bound). IsShortNumber b.low) (N.bounds numbers.now) }
        ensures { MatchResult result (λ _. ShowsOf self.now (A (N.bounds numbers.now)))
            (FailsBy self.now (A (N.bounds numbers.now))) }
    {
        if let Some(topic) = self.first_low_too_great(numbers) {
            return Err(Failure::BoundTooGreat { topic });
        }
        if low_sum(numbers) <= 0 {
            return Err(Failure::NoSum);
        }
        Ok(())
    }

    /// Whether numbers show that the two runs are always equal.
    pub fn check_equal<N: BoundRows>(&self, numbers: &N) -> Result<(), Failure>
        requires topics { length (N.bounds numbers.now) ≡ length (topics_in self.now) }
        requires few { length (N.bounds numbers.now) ≤ TOPIC_LIMIT }
        requires lows { All (λ (b : Bound). IsShortNumber b.low) (N.bounds numbers.now) }
        requires highs { All (λ (b : Bound). IsShortNumber b.high) (N.bounds numbers.now) }
        ensures { MatchResult result (λ _. ShowsOf self.now (E (N.bounds numbers.now)))
            (FailsBy self.now (E (N.bounds numbers.now))) }
    {
        if let Some(topic) = self.first_too_great(numbers) {
            return Err(Failure::BoundTooGreat { topic });
        }
        if low_sum(numbers) < 0 || high_sum(numbers) > 0 {
            return Err(Failure::NoSum);
        }
        Ok(())
    }
}
