// The fields of a line.
ghost use Rattle.std.specs.Prelude.{◌≡◌, ◌<◌, ◌≤◌, length, slice_index, position, option_map, IfOk, IfSome, IfNone, false};
ghost use Rattle.std.specs.List.{list_all};
ghost use Rattle.std.specs.Result.{result_err};
ghost use Rattle.desk_text.specs.Lines.{is_separator, is_bad, is_blank, AreFields};
ghost use Rattle.desk_text.specs.Places.{count_of, places_of};
ghost use Rattle.desk_text.specs.Stops.{AreFirstStops, AreSkipped};

use crate::line::LONGEST_LINE;
use crate::places::{BadByte, Fields};
use crate::spaced::{fields_in, is_spaced};
use crate::stops::{FirstStops, next_stop};

fn is_separator(byte: u8) -> bool
    ensures { result ≡ is_separator byte }
{
    byte == b' ' || byte == b'\t' || byte == b'\r'
}

/// Whether a line is passed over, as it is short enough and holds nothing but separators. It takes no memory.
pub fn is_blank(line: &[u8]) -> bool
    ensures { result ≡ is_blank line.now }
{
    line.len() <= LONGEST_LINE && has_no_field(line)
}

fn has_no_field(line: &[u8]) -> bool
    ensures { result ≡ list_all is_separator line.now }
{
    line.iter().all(|byte| is_separator(*byte))
}

// Past the separators from a place on.
fn skip(line: &[u8], from: usize) -> usize
    requires { from ≤ length line.now }
    ensures { AreSkipped line.now from result }
{
    let mut at = from;
    while at < line.len() && is_separator(line[at]) {
        at += 1;
    }
    at
}

// Where the field behind the separators at a place begins, or None where another byte stands there.
fn next_start(line: &[u8], end: usize) -> Option<usize>
    requires { end ≤ length line.now }
    ensures some { IfSome result (λ next. AreSkipped line.now end next) }
    ensures more { IfSome result (λ next. end < length line.now → end < next) }
    ensures none { IfNone result
        ((end < length line.now) × (is_separator (slice_index line.now end) ≡ false)) }
{
    if end == line.len() {
        return Some(end);
    }
    if !is_separator(line[end]) {
        return None;
    }
    Some(skip(line, end + 1))
}

/// The fields of a line, or its first bad byte: one below 0x21 that is no separator, or 0x7F. It takes no memory.
pub fn fields(line: &[u8]) -> Result<Fields, BadByte>
    ensures ok { IfOk result (λ f. AreFields line.now (count_of f) (places_of f)) }
    ensures bad { result_err result ≡
        option_map (λ i. record { at = i }) (position is_bad line.now) }
{
    let first = FirstStops::of(line);
    if is_spaced(line) {
        return Ok(fields_in(first.in_fields()));
    }
    fields_behind(line, first)
}

// The same, from one byte that stands in no field to the next.
fn fields_behind(line: &[u8], first: FirstStops) -> Result<Fields, BadByte>
    requires { AreFirstStops line.now first }
    ensures ok { IfOk result (λ f. AreFields line.now (count_of f) (places_of f)) }
    ensures bad { result_err result ≡
        option_map (λ i. record { at = i }) (position is_bad line.now) }
{
    let mut count = 0;
    let mut places = [(0, 0); 6];
    let mut at = skip(line, 0);
    while at < line.len() {
        let end = next_stop(line, first, at);
        let Some(next) = next_start(line, end) else {
            return Err(BadByte { at: end });
        };
        if count < 6 {
            places[count] = (at, end);
        }
        count += 1;
        at = next;
    }
    Ok(Fields { count, places })
}
