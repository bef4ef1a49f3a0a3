ghost use Rattle.std.specs.Prelude.{◌≡◌, ◌^◌, ◌<◌, ◌≤◌, ◌++◌, min, length, IfSome, IfNone};
ghost use Rattle.std.specs.Int.RustNames.{unsigned_abs};
ghost use Rattle.std.specs.Str.Parse.{AllDigits, digits_value, digits_value_after};
ghost use Rattle.desk_text.specs.Text.{signed};
ghost use Rattle.desk_text.specs.Significand.{IsSignificand, IsLongNumber, AreSignificant, EndsInDigit, AreTrimmed};

use crate::key::{LIMIT, with_sign};

/// So many digits, behind as many, make a number of 64 bits.
const FEW: usize = 9;

/// One more than the greatest number of so many digits.
const FEW_LIMIT: u128 = 1_000_000_000;

/// An exponent that puts every number out of range.
pub const FAR: u128 = 1 << 80;

/// The digits of a score without the zeros at their end.
#[derive(Clone, Copy)]
pub struct Significand {
    /// The number that they make, which is below ten to the power of 30.
    pub digits: u128,
    /// The place of the last of them, before the exponent is added.
    pub place: i128,
}

/// The digits without the zeros at their end.
fn without_last_zeros(digits: &[u8]) -> &[u8]
    ensures kept { AreSignificant digits.now result.now }
    ensures last { EndsInDigit result.now }
{
    let mut kept = digits;
    while let [rest @ .., b'0'] = kept {
        kept = rest;
    }
    kept
}

/// The parts without the zeros at the end of both.
fn kept_parts<'a>(whole: &'a [u8], fraction: &'a [u8]) -> (&'a [u8], &'a [u8])
    ensures { AreTrimmed whole.now fraction.now result.0.now result.1.now }
{
    let kept = without_last_zeros(fraction);
    if kept.is_empty() {
        (without_last_zeros(whole), kept)
    } else {
        (whole, kept)
    }
}

/// A number of at most 9 digits with at most 9 more behind it, which fits in 64 bits.
fn with_few(start: u64, digits: &[u8]) -> u64
    requires all_digits { AllDigits 10 digits.now }
    requires few { length digits.now ≤ FEW }
    requires small { start < 10 ^ 9 }
    ensures value { result ≡ digits_value_after 10 start digits.now }
    ensures small { result < 10 ^ 18 }
{
    let mut number = start;
    for digit in digits {
        number = number * 10 + u64::from(*digit - b'0');
    }
    number
}

/// The number with more digits behind it, or None where it would have more than 30.
fn appended(start: u128, digits: &[u8]) -> Option<u128>
    requires all_digits { AllDigits 10 digits.now }
    requires short { start < 10 ^ 30 }
    ensures short { IfSome result (λ n. n < 10 ^ 30) }
    ensures value { IfSome result (λ n. n ≡ digits_value_after 10 start digits.now) }
    ensures long { IfNone result (10 ^ 30 ≤ digits_value_after 10 start digits.now) }
{
    if start < FEW_LIMIT && digits.len() <= FEW {
        Some(u128::from(with_few(start as u64, digits)))
    } else {
        with_many(start, digits)
    }
}

/// The same, digit by digit in 128 bits.
fn with_many(start: u128, digits: &[u8]) -> Option<u128>
    requires all_digits { AllDigits 10 digits.now }
    requires short { start < 10 ^ 30 }
    ensures short { IfSome result (λ n. n < 10 ^ 30) }
    ensures value { IfSome result (λ n. n ≡ digits_value_after 10 start digits.now) }
    ensures long { IfNone result (10 ^ 30 ≤ digits_value_after 10 start digits.now) }
{
    let mut number = start;
    for digit in digits {
        if LIMIT / 10 <= number {
            return None;
        }
        number = number * 10 + u128::from(*digit - b'0');
    }
    Some(number)
}

/// The number that an exponent's digits make, cut at `FAR`.
fn exponent_size(digits: &[u8]) -> u128
    requires { AllDigits 10 digits.now }
    ensures { result ≡ min (digits_value 10 digits.now) FAR }
{
    let mut size = 0;
    for digit in digits {
        size = (size * 10 + u128::from(*digit - b'0')).min(FAR);
    }
    size
}

/// The digits without the zeros at their end, or None where these are more than 30.
pub fn significand_of(whole: &[u8], fraction: &[u8]) -> Option<Significand>
    requires whole_digits { AllDigits 10 whole.now }
    requires fraction_digits { AllDigits 10 fraction.now }
    ensures some { IfSome result (λ s. IsSignificand whole.now fraction.now s.digits s.place) }
    ensures short { IfSome result (λ s. s.digits < 10 ^ 30) }
    ensures near { IfSome result (λ s. unsigned_abs s.place < 2 ^ 66) }
    ensures long { IfNone result (IsLongNumber (digits_value 10 (whole.now ++ fraction.now))) }
{
    let (kept_whole, kept_fraction) = kept_parts(whole, fraction);
    let digits = appended(appended(0, kept_whole)?, kept_fraction)?;
    let zeros = whole.len() - kept_whole.len();
    Some(Significand {
        digits,
        place: zeros as i128 - kept_fraction.len() as i128,
    })
}

/// The exponent, cut at `FAR` on both sides.
pub fn exponent_of(is_negative: bool, digits: &[u8]) -> i128
    requires { AllDigits 10 digits.now }
    ensures value { result ≡ signed is_negative (min (digits_value 10 digits.now) FAR) }
    ensures near { unsigned_abs result ≤ FAR }
{
    with_sign(is_negative, exponent_size(digits))
}
