ghost use Rattle.desk_model.specs.Limits.{PARTS_OF_ONE};
ghost use Rattle.std.specs.Prelude.{◌≡◌, ◌+◌, ◌-◌, ◌*◌, ◌/◌, ◌^◌, ◌≤◌, ◌<◌, pos, ◌*ℤ◌, ◌≤ℤ◌, Some, IfOk};
ghost use Rattle.measure_laws.specs.Powers.{ceil_div, low_power, high_power, low_weight, high_weight};

use crate::span::Span;
use desk_model::Memory;
use std::alloc::Global;
use std::marker::Model;

/// How many parts make one.
const PARTS: u64 = 1_000_000_000_000_000_000;

/// A power, and the weight of the rank after as many others, all in parts.
#[derive(Clone, Copy, PartialEq, Eq)]
pub struct Place {
    low: u64,
    high: u64,
    weight_low: u64,
    weight_high: u64,
}

/// The powers of a persistence `top / bottom` in parts of 10^18, from the 0th to the last kept one,
/// rounded down and rounded up at each step, and the weights that rank-biased precision gives to
/// ranks (Moffat and Zobel 2008).
#[derive(Drop)]
pub struct Powers {
    top: u32,
    bottom: u32,
    last: u32,
    places: Vec<Place>,
}

impl Model for Powers {
    ghost use Rattle.topic_counts.specs.Places.{Known, ArePlaces};

    ghost Value = { Known };

    ghost view = { λ p. record { top = p.top; bottom = p.bottom; last = p.last } };

    ghost invariant = { λ p. ArePlaces p.top p.bottom p.last p.places.items };
}

/// A part of a number of parts, rounded down.
fn part_down(parts: u64, top: u32, bottom: u32) -> u64
    requires parts { parts ≤ PARTS_OF_ONE }
    requires bottom { 0 < bottom }
    requires below { top ≤ bottom }
    ensures value { result ≡ parts * top / bottom }
    ensures within { result ≤ PARTS_OF_ONE }
{
    (u128::from(parts) * u128::from(top) / u128::from(bottom)) as u64
}

/// A part of a number of parts, rounded up.
fn part_up(parts: u64, top: u32, bottom: u32) -> u64
    requires parts { parts ≤ PARTS_OF_ONE }
    requires bottom { 0 < bottom }
    requires below { top ≤ bottom }
    ensures value { result ≡ ceil_div (parts * top) bottom }
    ensures within { result ≤ PARTS_OF_ONE }
{
    ((u128::from(parts) * u128::from(top) + u128::from(bottom - 1)) / u128::from(bottom)) as u64
}

impl Powers {
    /// The powers from the 0th to the n-th.
    pub fn new(alloc: Global, top: u32, bottom: u32, n: u32) -> Result<Powers, Memory>
        requires positive { 0 < top }
        requires below { top < bottom }
        requires small { bottom ≤ 1000000 }
        requires few { n ≤ 11000 }
        ensures { IfOk result (λ p. (p.top ≡ top) × (p.bottom ≡ bottom) × (p.last ≡ n)) }
    {
        let mut places = Vec::new(alloc);
        let mut low = PARTS;
        let mut high = PARTS;
        for _i in 0..n + 1 {
            let place = Place {
                low,
                high,
                weight_low: part_down(low, bottom - top, bottom),
                weight_high: part_up(high, bottom - top, bottom),
            };
            if places.push(place).is_err() {
                return Err(Memory);
            }
            low = part_down(low, top, bottom);
            high = part_up(high, top, bottom);
        }
        Ok(Powers {
            top,
            bottom,
            last: n,
            places,
        })
    }

    /// The i-th power in parts of 10^18, rounded down at each step: at most 10^18 times the power.
    pub fn low(&self, i: u32) -> i128
        requires { i ≤ self.now.last }
        ensures value { result ≡ pos (low_power self.now.top self.now.bottom i) }
        ensures encloses { (result *ℤ pos (self.now.bottom ^ i)) ≤ℤ
            pos (PARTS_OF_ONE * self.now.top ^ i) }
    {
        i128::from(self.places[i as usize].low)
    }

    /// The i-th power in parts of 10^18, rounded up at each step: at least 10^18 times the power.
    pub fn high(&self, i: u32) -> i128
        requires { i ≤ self.now.last }
        ensures value { result ≡ pos (high_power self.now.top self.now.bottom i) }
        ensures encloses { pos (PARTS_OF_ONE * self.now.top ^ i) ≤ℤ
            (result *ℤ pos (self.now.bottom ^ i)) }
    {
        i128::from(self.places[i as usize].high)
    }

    /// The weight of a rank, from 1, in parts of 10^18: it encloses 10^18 times
    /// `(1 - top / bottom) * (top / bottom)^(i - 1)`.
    pub fn weight(&self, i: u32) -> Span
        requires first { 1 ≤ i }
        requires last { i ≤ self.now.last }
        ensures lo { result.lo ≡ pos (low_weight self.now.top self.now.bottom (Some i)) }
        ensures hi { result.hi ≡ pos (high_weight self.now.top self.now.bottom (Some i)) }
        ensures encloses_lo { (result.lo *ℤ pos (self.now.bottom ^ i)) ≤ℤ
            pos (PARTS_OF_ONE * ((self.now.bottom - self.now.top) * self.now.top ^ (i - 1))) }
        ensures encloses_hi { pos (PARTS_OF_ONE *
            ((self.now.bottom - self.now.top) * self.now.top ^ (i - 1))) ≤ℤ
            (result.hi *ℤ pos (self.now.bottom ^ i)) }
    {
        let place = self.places[i as usize - 1];
        Span {
            lo: i128::from(place.weight_low),
            hi: i128::from(place.weight_high),
        }
    }
}
