//! Lines of the commonest kinds, each taken at its place.
ghost use Rattle.std.specs.Prelude.{◌≡◌, ◌≢◌, ◌++◌, ◌<◌, ◌≤◌, decimal, IfSome, IfNone};
ghost use Rattle.desk_model.specs.Limits.{DOCUMENT_LIMIT};
ghost use Rattle.line_forms.specs.Form.{ended};
ghost use Rattle.line_forms.specs.Places.{fixed_place, later_name_place, name_and_count_place, name_place, number_place};
ghost use Rattle.line_forms.specs.Reading.{BeginsWithNone, IsReading, IsFreeOf, IsTakenIfNext};

use crate::lines::{FormFault, TextLines, after, cut};
use crate::parts::{
    count, ended_number, fixed_of, later_name_of, name_and_count_of, name_of, number_below_of,
    number_of,
};
use desk_model::Name;
use std::alloc::Global;

/// Takes a line that is this text.
pub fn fixed_line(lines: &mut TextLines<'_>, text: &[u8]) -> Result<(), FormFault>
    requires { IsFreeOf 10 text.now }
    ensures { IsReading (fixed_place text.now) lines.old.rest result lines.new }
{
    match lines.next_line() {
        Some(line) => fixed_of(line, text),
        None => Err(FormFault::Bad),
    }
}

/// Takes a word and a name.
pub fn name_line(alloc: Global, lines: &mut TextLines<'_>, word: &[u8]) -> Result<Name, FormFault>
    requires { IsFreeOf 10 word.now }
    ensures { IsReading (name_place word.now) lines.old.rest result lines.new }
{
    match lines.next_line() {
        Some(line) => name_of(alloc, line, word),
        None => Err(FormFault::Bad),
    }
}

/// Takes a word and a name that comes after another.
pub fn later_name_line(
    alloc: Global,
    lines: &mut TextLines<'_>,
    word: &[u8],
    before: &[u8],
) -> Result<Name, FormFault>
    requires { IsFreeOf 10 word.now }
    ensures { IsReading (later_name_place word.now before.now) lines.old.rest result lines.new }
{
    match lines.next_line() {
        Some(line) => later_name_of(alloc, word, before, line),
        None => Err(FormFault::Bad),
    }
}

/// Takes a word and a number from `least` to `most`.
pub fn number_line(
    lines: &mut TextLines<'_>,
    word: &[u8],
    least: u64,
    most: u64,
) -> Result<u32, FormFault>
    requires word { IsFreeOf 10 word.now }
    requires most { most ≤ DOCUMENT_LIMIT }
    ensures { IsReading (number_place word.now (λ n. (least ≤ n) × (n ≤ most))) lines.old.rest
        result lines.new }
{
    match lines.next_line() {
        Some(line) => number_of(line, word, least, most),
        None => Err(FormFault::Bad),
    }
}

// The number from `least` to `most` that the first line of a text says after a word, and what follows that line.
fn first_number<'a>(text: &'a [u8], word: &[u8], least: u64, most: u64) -> Option<(u32, &'a [u8])>
    requires word { IsFreeOf 10 word.now }
    requires most { most ≤ DOCUMENT_LIMIT }
    ensures some { IfSome result (λ p. text.now ≡ ended (word.now ++ decimal p.0) ++ p.1.now) }
    ensures within { IfSome result (λ p. (least ≤ p.0) × (p.0 ≤ most)) }
    ensures none { IfNone result (BeginsWithNone (λ n. word.now ++ decimal n) (λ n. (least ≤ n) ×
        (n ≤ most)) text.now) }
{
    let Some((line, rest)) = cut(text, b'\n') else {
        return None;
    };
    let Some(digits) = after(line, word) else {
        return None;
    };
    match count(digits, least, most) {
        Some(number) => Some((number, rest)),
        None => None,
    }
}

/// Takes a word and a number from `least` to `most`, if they are the next line; else nothing is taken.
pub fn number_line_if_next(
    lines: &mut TextLines<'_>,
    word: &[u8],
    least: u64,
    most: u64,
) -> Option<u32>
    requires word { IsFreeOf 10 word.now }
    requires most { most ≤ DOCUMENT_LIMIT }
    ensures { IsTakenIfNext (λ n. word.now ++ decimal n) (λ n. (least ≤ n) ×
        (n ≤ most)) lines.old result lines.new }
{
    match first_number(lines.rest(), word, least, most) {
        Some((number, rest)) => {
            lines.take_up_to(rest);
            Some(number)
        }
        None => None,
    }
}

/// Takes a word and a number from `least` on, below `end`, as any line is taken: up to its end first.
#[inline(never)]
fn any_number_line(
    lines: &mut TextLines<'_>,
    word: &[u8],
    least: u64,
    end: u64,
) -> Result<u32, FormFault>
    requires word { IsFreeOf 10 word.now }
    requires end { end ≤ DOCUMENT_LIMIT }
    ensures { IsReading (number_place word.now (λ n. (least ≤ n) × (n < end))) lines.old.rest result
        lines.new }
{
    match lines.next_line() {
        Some(line) => number_below_of(line, word, least, end),
        None => Err(FormFault::Bad),
    }
}

/// The number that bytes begin with after a word, and what follows its line, if it is there and simple to read.
#[inline(always)]
fn simple_number<'a>(text: &'a [u8], word: &[u8]) -> Option<(u32, &'a [u8])>
    ensures { IfSome result (λ p. text.now ≡ ended (word.now ++ decimal p.0) ++ p.1.now) }
{
    match after(text, word) {
        Some(number) => ended_number(number),
        None => None,
    }
}

/// Takes a word and a number from `least` on, below `end`. A simple line is read digit by digit, and its end is found
/// on the way.
#[inline(always)]
pub fn number_below_line(
    lines: &mut TextLines<'_>,
    word: &[u8],
    least: u64,
    end: u64,
) -> Result<u32, FormFault>
    requires word { IsFreeOf 10 word.now }
    requires end { end ≤ DOCUMENT_LIMIT }
    ensures { IsReading (number_place word.now (λ n. (least ≤ n) × (n < end))) lines.old.rest result
        lines.new }
{
    match simple_number(lines.rest(), word) {
        Some((number, rest)) if least <= u64::from(number) && u64::from(number) < end => {
            lines.take_up_to(rest);
            Ok(number)
        }
        _ => any_number_line(lines, word, least, end),
    }
}

/// Takes a word, a name that comes after another, and a number up to `most`.
pub fn name_and_count_line(
    alloc: Global,
    lines: &mut TextLines<'_>,
    word: &[u8],
    before: &[u8],
    most: u64,
) -> Result<(Name, u32), FormFault>
    requires word { IsFreeOf 10 word.now }
    requires most { most ≤ DOCUMENT_LIMIT }
    ensures { IsReading (name_and_count_place word.now (λ n. n ≤ most) before.now) lines.old.rest
        result lines.new }
{
    match lines.next_line() {
        Some(line) => name_and_count_of(alloc, word, before, most, line),
        None => Err(FormFault::Bad),
    }
}
