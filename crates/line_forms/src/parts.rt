//! The parts of a line.
ghost use Rattle.std.specs.Prelude.{true, ◌≡◌, ◌≢◌, ◌++◌, ◌∷◌, ◌<◌, ◌≤◌, ◌^◌, List, ℕ, ℤ, decimal, Err, IfSome, IfNone, IfOk};
ghost use Rattle.std.specs.Fmt.{signed_decimal};
ghost use Rattle.desk_model.specs.Limits.{DOCUMENT_LIMIT};
ghost use Rattle.desk_model.specs.Name.{is_name};
ghost use Rattle.line_forms.specs.Places.{IsLaterName, IsShortNumber, count_line};
ghost use Rattle.line_forms.specs.Reading.{IsPartOf};

use crate::lines::{FormFault, after, cut};
use desk_model::Name;
use desk_text::plain;
use std::alloc::Global;
use std::cmp::Ordering;

const MOST_OF_19_DIGITS: u64 = 9_999_999_999_999_999_999;

// The number that 1 to 19 digits without a leading zero say.
fn magnitude(text: &[u8]) -> Option<u64>
    ensures some { IfSome result (λ n. text.now ≡ decimal n) }
    ensures small { IfSome result (λ n. n < 10 ^ 19) }
    ensures none { IfNone result ((n : ℕ) → n < 10 ^ 19 → text.now ≢ decimal n) }
{
    plain(text, MOST_OF_19_DIGITS)
}

/// The number of at most 19 digits that a text is, with a minus sign where it is negative; `-0` is none.
pub fn number(text: &[u8]) -> Option<i128>
    ensures some { IfSome result (λ z. text.now ≡ signed_decimal z) }
    ensures small { IfSome result (λ z. IsShortNumber z) }
    ensures none { IfNone result ((z : ℤ) → IsShortNumber z → text.now ≢ signed_decimal z) }
{
    match after(text, b"-") {
        Some(digits) => match magnitude(digits) {
            Some(size) if size > 0 => Some(-i128::from(size)),
            _ => None,
        },
        None => match magnitude(text) {
            Some(size) => Some(i128::from(size)),
            None => None,
        },
    }
}

/// The number from `least` to `most` that a text is in digits.
pub fn count(text: &[u8], least: u64, most: u64) -> Option<u32>
    requires { most ≤ DOCUMENT_LIMIT }
    ensures some { IfSome result (λ n. text.now ≡ decimal n) }
    ensures least { IfSome result (λ n. least ≤ n) }
    ensures most { IfSome result (λ n. n ≤ most) }
    ensures none { IfNone result ((n : ℕ) → least ≤ n → n ≤ most → text.now ≢ decimal n) }
{
    match plain(text, most) {
        Some(number) if number >= least => Some(number as u32),
        _ => None,
    }
}

/// The name that a text is, if it is greater than the one before it.
pub fn later_name(alloc: Global, before: &[u8], text: &[u8]) -> Result<Name, FormFault>
    ensures { IsPartOf (λ name. name) (IsLaterName before.now) text.now result }
{
    if before.cmp(text) != Ordering::Less {
        return Err(FormFault::Bad);
    }
    Ok(Name::new(alloc, text)?)
}

/// The name after a word, if it is greater than the one before it, and the text after a space.
pub fn later_name_and_text<'a>(
    alloc: Global,
    word: &[u8],
    before: &[u8],
    line: &'a [u8],
) -> Result<(Name, &'a [u8]), FormFault>
    ensures ok { IfOk result (λ p. line.now ≡ word.now ++ (p.0 ++ 32 ∷ p.1.now)) }
    ensures later { IfOk result (λ p. IsLaterName before.now p.0) }
    ensures bad { result ≡ Err FormFault.Bad → (name rest : List ℕ) → IsLaterName before.now name →
        line.now ≢ word.now ++ (name ++ 32 ∷ rest) }
{
    let Some(text) = after(line, word) else {
        return Err(FormFault::Bad);
    };
    let Some((name, rest)) = cut(text, b' ') else {
        return Err(FormFault::Bad);
    };
    let name = later_name(alloc, before, name)?;
    Ok((name, rest))
}

/// Whether a line is this text.
pub fn fixed_of(line: &[u8], text: &[u8]) -> Result<(), FormFault>
    ensures { IsPartOf (λ _. text.now) (λ _. Unit {0}) line.now result }
{
    if line == text {
        Ok(())
    } else {
        Err(FormFault::Bad)
    }
}

/// The name after a word.
pub fn name_of(alloc: Global, line: &[u8], word: &[u8]) -> Result<Name, FormFault>
    ensures { IsPartOf (λ name. word.now ++ name) (λ name. is_name name ≡ true) line.now result }
{
    let Some(text) = after(line, word) else {
        return Err(FormFault::Bad);
    };
    Ok(Name::new(alloc, text)?)
}

/// The name after a word, if it is greater than the one before it.
pub fn later_name_of(
    alloc: Global,
    word: &[u8],
    before: &[u8],
    line: &[u8],
) -> Result<Name, FormFault>
    ensures { IsPartOf (λ name. word.now ++ name) (IsLaterName before.now) line.now result }
{
    match after(line, word) {
        Some(text) => later_name(alloc, before, text),
        None => Err(FormFault::Bad),
    }
}

/// The number from `least` to `most` after a word.
pub fn number_of(line: &[u8], word: &[u8], least: u64, most: u64) -> Result<u32, FormFault>
    requires { most ≤ DOCUMENT_LIMIT }
    ensures { IsPartOf (λ n. word.now ++ decimal n) (λ n. (least ≤ n) ×
        (n ≤ most)) line.now result }
{
    let Some(text) = after(line, word) else {
        return Err(FormFault::Bad);
    };
    match count(text, least, most) {
        Some(number) => Ok(number),
        None => Err(FormFault::Bad),
    }
}

/// The number from `least` on, below `end`, after a word.
pub fn number_below_of(line: &[u8], word: &[u8], least: u64, end: u64) -> Result<u32, FormFault>
    requires { end ≤ DOCUMENT_LIMIT }
    ensures { IsPartOf (λ n. word.now ++ decimal n) (λ n. (least ≤ n) × (n < end)) line.now result }
{
    let number = number_of(line, word, least, end)?;
    if u64::from(number) == end {
        return Err(FormFault::Bad);
    }
    Ok(number)
}

/// The number that a text begins with and a line feed ends, and the text after that; none also for 0 and for numbers
/// of more than nine digits.
#[inline(always)]
pub(crate) fn ended_number(text: &[u8]) -> Option<(u32, &[u8])>
    ensures { IfSome result (λ p. text.now ≡ decimal p.0 ++ 10 ∷ p.1.now) }
{
    if text.is_empty() || text[0] == b'0' || !text[0].is_ascii_digit() {
        return None;
    }
    let mut number = u32::from(text[0] - b'0');
    let mut digits = 1;
    while digits < text.len() && number < 100_000_000 {
        let byte = text[digits];
        if byte == b'\n' {
            return Some((number, &text[digits + 1..]));
        }
        if !byte.is_ascii_digit() {
            return None;
        }
        number = number * 10 + u32::from(byte - b'0');
        digits += 1;
    }
    None
}

/// The name after a word, if it is greater than the one before it, and a number up to `most`.
pub fn name_and_count_of(
    alloc: Global,
    word: &[u8],
    before: &[u8],
    most: u64,
    line: &[u8],
) -> Result<(Name, u32), FormFault>
    requires { most ≤ DOCUMENT_LIMIT }
    ensures { IsPartOf (λ p. count_line word.now p.0 p.1) (λ p. IsLaterName before.now p.0 ×
        (p.1 ≤ most)) line.now result }
{
    let (name, text) = later_name_and_text(alloc, word, before, line)?;
    match count(text, 0, most) {
        Some(number) => Ok((name, number)),
        None => Err(FormFault::Bad),
    }
}
