// Means with six digits after the point, rounded outward.
ghost use Rattle.desk_model.specs.Limits.{TOPIC_LIMIT};
ghost use Rattle.std.specs.Prelude.{◌≡◌, ◌+◌, ◌*◌, ◌<◌, ◌≤◌, ◌^◌, ◌++◌, decimal, pos, neg_ℤ, ◌≤ℤ◌, ◌*ℤ◌, OnOk};
ghost use Rattle.std.specs.Prelude.{unsigned_abs};
ghost use Rattle.topic_counts.specs.Ends.{IsShort};
ghost use Rattle.topic_counts.specs.Numbers.{floor_of, ceiling_of};
ghost use Rattle.desk_report.specs.Means.{six_digits, millionths, decimal_text, ends_text};

use desk_model::{push_digits_after_first, push_whole};
use std::alloc::AllocError;
use topic_counts::Span;

const MILLION: i128 = 1_000_000;

fn push_six_digits(out: &mut Vec<u8>, number: u32) -> Result<(), AllocError>
    requires { number < 1000000 }
    ensures { OnOk result (out.new.items ≡ out.old.items ++ six_digits number) }
{
    push_digits_after_first(out, 1_000_000 + number as u64)
}

fn push_millionths(out: &mut Vec<u8>, number: u128) -> Result<(), AllocError>
    ensures { OnOk result (out.new.items ≡ out.old.items ++ millionths number) }
{
    push_whole(out, number / 1_000_000)?;
    out.extend_from_slice(b".")?;
    push_six_digits(out, (number % 1_000_000) as u32)
}

fn push_decimal(out: &mut Vec<u8>, number: i128) -> Result<(), AllocError>
    ensures { OnOk result (out.new.items ≡ out.old.items ++ decimal_text number) }
{
    if number < 0 {
        out.extend_from_slice(b"-")?;
    }
    push_millionths(out, number.unsigned_abs())
}

/// How many units all topics have together: so many of a sum make a mean of 1.
#[derive(Clone, Copy)]
pub struct Parts {
    pub number: u128,
    pub ghost some: { 1 ≤ number },
    pub ghost few: { number ≤ 10 ^ 23 },
}

// An end of a pair or a bound of a run, added up over all topics, in units.
#[derive(Clone, Copy)]
struct Sum {
    units: i128,
    ghost low: { neg_ℤ (pos (10 ^ 30)) ≤ℤ units },
    ghost high: { units ≤ℤ pos (10 ^ 30) },
}

/// How many units all topics have together.
pub fn all_parts(unit: i128, topics: u32) -> Parts
    requires unit { pos 1 ≤ℤ unit }
    requires unit_small { unit ≤ℤ pos (10 ^ 19) }
    requires topics { 1 ≤ topics }
    requires topics_few { topics ≤ TOPIC_LIMIT }
    ensures { result.number ≡ unsigned_abs unit * topics }
{
    let number = unit.unsigned_abs() * topics as u128;
    Parts { number }
}

impl Parts {
    // The greatest number of millionths that is at most the mean.
    fn floor(self, sum: Sum) -> i128
        ensures floor { result ≡ floor_of (sum.units *ℤ pos 1000000) self.number }
        ensures low { neg_ℤ (pos (10 ^ 36)) ≤ℤ result }
        ensures high { result ≤ℤ pos (10 ^ 36) }
    {
        (sum.units * MILLION).div_euclid(self.number as i128)
    }

    // The smallest number of millionths that is at least the mean.
    fn ceiling(self, sum: Sum) -> i128
        ensures { result ≡ ceiling_of (sum.units *ℤ pos 1000000) self.number }
    {
        let negated = Sum { units: -sum.units };
        -self.floor(negated)
    }
}

fn push_low(out: &mut Vec<u8>, parts: Parts, sum: Sum) -> Result<(), AllocError>
    ensures { OnOk result (out.new.items ≡ out.old.items ++
        decimal_text (floor_of (sum.units *ℤ pos 1000000) parts.number)) }
{
    push_decimal(out, parts.floor(sum))
}

fn push_high(out: &mut Vec<u8>, parts: Parts, sum: Sum) -> Result<(), AllocError>
    ensures { OnOk result (out.new.items ≡ out.old.items ++
        decimal_text (ceiling_of (sum.units *ℤ pos 1000000) parts.number)) }
{
    push_decimal(out, parts.ceiling(sum))
}

/// Puts a lower end and an upper end, each a sum over all topics in units, as means over the parts.
pub fn push_ends(out: &mut Vec<u8>, parts: Parts, ends: &Span) -> Result<(), AllocError>
    requires { IsShort ends.now }
    ensures { OnOk result (out.new.items ≡ out.old.items ++
        ends_text parts.number ends.now.lo ends.now.hi) }
{
    let low = Sum { units: ends.lo };
    let high = Sum { units: ends.hi };
    push_low(out, parts, low)?;
    out.extend_from_slice(b" ")?;
    push_high(out, parts, high)
}
