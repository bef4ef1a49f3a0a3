// Numbers in plain digits, as most scores are written.
ghost use Rattle.std.specs.Prelude.{◌≡◌, ℕ, ◌^◌, ◌<◌, ◌≤◌, length, slice_index, IfSome, IfNone, false};
ghost use Rattle.std.specs.Char.{is_ascii_digit};
ghost use Rattle.desk_text.specs.Plain.{AreDigitsBehind, IsPlain, IsPlainMantissa, IsShortPlain};

use crate::spelling::cut_sign;

/// So many digits make a number of 64 bits.
const MOST_BYTES: usize = 19;

/// A number in digits with at most one point, and no exponent.
#[derive(Clone, Copy)]
pub struct Plain {
    pub is_negative: bool,
    pub mantissa: Mantissa,
}

/// A number without its sign.
#[derive(Clone, Copy)]
pub struct Mantissa {
    /// The number that all its digits make, which is below ten to the power of 19.
    pub digits: u64,
    /// How many of them stand behind the point.
    pub places: usize,
}

/// A number that was read up to a place.
#[derive(Clone, Copy)]
struct Reading {
    number: u64,
    end: usize,
}

/// The number with the digits behind it that stand from a place on.
#[inline(always)]
fn with_digits(text: &[u8], from: usize, start: u64) -> Reading
    requires few { length text.now ≤ MOST_BYTES }
    requires from { from ≤ length text.now }
    requires small { start < 10 ^ from }
    ensures digits { AreDigitsBehind text.now from start result.end result.number }
    ensures small { result.number < 10 ^ result.end }
    ensures stop { result.end < length text.now →
        is_ascii_digit (slice_index text.now result.end) ≡ false }
{
    let mut number = start;
    let mut end = from;
    while end < text.len() && text[end].is_ascii_digit() {
        number = number * 10 + u64::from(text[end] - b'0');
        end += 1;
    }
    Reading { number, end }
}

/// The number that a text without a sign is, if it has at most 19 bytes.
fn mantissa_of(text: &[u8]) -> Option<Mantissa>
    ensures some { IfSome result (λ m. IsPlainMantissa text.now m.digits m.places) }
    ensures small { IfSome result (λ m. m.digits < 10 ^ 19) }
    ensures near { IfSome result (λ m. m.places ≤ MOST_BYTES) }
    ensures none { IfNone result (length text.now ≤ MOST_BYTES →
        (digits places : ℕ) → ¬ (IsPlainMantissa text.now digits places)) }
{
    if text.is_empty() || text.len() > MOST_BYTES {
        return None;
    }
    let whole = with_digits(text, 0, 0);
    if whole.end == text.len() {
        return Some(Mantissa {
            digits: whole.number,
            places: 0,
        });
    }
    if text.len() == 1 || text[whole.end] != b'.' {
        return None;
    }
    let all = with_digits(text, whole.end + 1, whole.number);
    if all.end < text.len() {
        return None;
    }
    Some(Mantissa {
        digits: all.number,
        places: all.end - whole.end - 1,
    })
}

/// The number that a text is, if it has at most 19 bytes besides its sign.
pub fn plain_of(text: &[u8]) -> Option<Plain>
    ensures some { IfSome result (λ p.
        IsPlain text.now p.is_negative p.mantissa.digits p.mantissa.places) }
    ensures small { IfSome result (λ p. p.mantissa.digits < 10 ^ 19) }
    ensures near { IfSome result (λ p. p.mantissa.places ≤ MOST_BYTES) }
    ensures none { IfNone result (¬ (IsShortPlain MOST_BYTES text.now)) }
{
    let (is_negative, unsigned) = cut_sign(text);
    let mantissa = mantissa_of(unsigned)?;
    Some(Plain {
        is_negative,
        mantissa,
    })
}
