// The printed table.
ghost use Rattle.std.proofs.Props.{props};
ghost use Rattle.std.specs.Prelude.{◌≡◌, ◌<◌, ◌≤◌, ◌^◌, ◌++◌, ◌∷◌, [], All, length, codes, decimal, pos, neg_ℤ, ◌≤ℤ◌, ◌*◌, flat_map, IfOk, OnOk};
ghost use Rattle.std.specs.Prelude.{unsigned_abs};
ghost use Rattle.desk_model.specs.Limits.{TOPIC_LIMIT};
ghost use Rattle.desk_model.specs.MeasureText.{measure_text};
ghost use Rattle.desk_model.specs.Pairs.{pairs_of};
ghost use Rattle.order_bundle.specs.Scoped.{depth_lines};
ghost use Rattle.topic_counts.specs.Ends.{IsShort};
ghost use Rattle.desk_report.specs.Table.{AreNearTotals, ended, word_of, head_lines, run_line, run_lines, pair_line, pair_lines, table_text};

use crate::means::{Parts, all_parts, push_ends};
use desk_model::{
    Desk, MeasureName, Memory, PairPlaces, Totals, Verdict, push_measure, push_number, verdict_of,
};
use std::alloc::{AllocError, Global};
use topic_counts::Span;

fn push_line_feed(out: &mut Vec<u8>) -> Result<(), AllocError>
    ensures { OnOk result (out.new.items ≡ out.old.items ++ 10 ∷ []) }
{
    out.extend_from_slice(b"\n")
}

/// A line with the measure.
pub fn push_measure_line(out: &mut Vec<u8>, measure: &MeasureName) -> Result<(), AllocError>
    ensures { OnOk result (out.new.items ≡ out.old.items ++ ended (codes "measure " ++ measure_text measure.now)) }
{
    out.extend_from_slice(b"measure ")?;
    push_measure(out, measure)?;
    out.extend_from_slice(b"\n")
}

/// A line with a word and a number.
pub fn push_number_line(out: &mut Vec<u8>, word: &[u8], number: u32) -> Result<(), AllocError>
    ensures { OnOk result (out.new.items ≡ out.old.items ++ ended (word.now ++ decimal number)) }
{
    out.extend_from_slice(word)?;
    push_number(out, number)?;
    out.extend_from_slice(b"\n")
}

// The line of the depth, where there is one.
fn push_depth(out: &mut Vec<u8>, depth: Option<u32>) -> Result<(), AllocError>
    ensures { OnOk result (out.new.items ≡ out.old.items ++ flat_map ended (depth_lines depth)) }
{
    match depth {
        Some(depth) => push_number_line(out, b"depth ", depth),
        None => Ok(()),
    }
}

pub(crate) fn push_head(
    out: &mut Vec<u8>,
    measure: &MeasureName,
    level: u32,
    depth: Option<u32>,
    topics: u32,
    runs: u32,
) -> Result<(), AllocError>
    ensures { OnOk result (out.new.items ≡ out.old.items ++
        flat_map ended (head_lines measure.now level depth topics runs)) }
{
    push_measure_line(out, measure)?;
    push_number_line(out, b"level ", level)?;
    push_depth(out, depth)?;
    push_number_line(out, b"topics ", topics)?;
    push_number_line(out, b"runs ", runs)
}

/// What a table prints of a desk: the bounds of each run and the sums of each pair, over all topics, in units of which so
/// many parts make a mean of 1.
#[derive(Clone, Copy)]
pub struct TableNumbers<'a> {
    pub desk: &'a Desk,
    pub parts: Parts,
    pub bounds: &'a [Span],
    pub totals: &'a [Totals],
    pub ghost each_run: { length bounds.now ≡ length desk.now.runs },
    pub ghost each_pair: { length totals.now ≡ length (pairs_of desk.now.runs) },
    pub ghost short: { All IsShort bounds.now } by { Prim.hlevel props },
    pub ghost near: { All AreNearTotals totals.now } by { Prim.hlevel props },
}

fn push_run(out: &mut Vec<u8>, parts: Parts, name: &[u8], bounds: &Span) -> Result<(), AllocError>
    requires { IsShort bounds.now }
    ensures { OnOk result (out.new.items ≡ out.old.items ++
        ended (run_line parts.number name.now bounds.now)) }
{
    out.extend_from_slice(b"run ")?;
    out.extend_from_slice(name)?;
    out.extend_from_slice(b" ")?;
    push_ends(out, parts, bounds)?;
    out.extend_from_slice(b"\n")
}

/// A line for each run.
pub fn push_runs(out: &mut Vec<u8>, numbers: &TableNumbers<'_>) -> Result<(), AllocError>
    ensures { OnOk result (out.new.items ≡ out.old.items ++
        flat_map ended (run_lines numbers.now.parts.number numbers.now.desk.now.runs
        numbers.now.bounds.now)) }
{
    let TableNumbers {
        desk,
        parts,
        bounds,
        totals: _,
    } = *numbers;
    for r in 0..desk.run_count() {
        push_run(out, parts, desk.run_name(r), &bounds[r as usize])?;
    }
    Ok(())
}

fn word(verdict: Verdict) -> &'static [u8]
    ensures { result.now ≡ word_of verdict }
{
    match verdict {
        Verdict::Above => b"above",
        Verdict::Below => b"below",
        Verdict::Equal => b"equal",
        Verdict::Open => b"open",
        Verdict::Close => b"close",
    }
}

fn push_names(out: &mut Vec<u8>, first: &[u8], word: &[u8], second: &[u8]) -> Result<(), AllocError>
    ensures { OnOk result (out.new.items ≡ out.old.items ++ (codes "pair " ++ first.now ++ 32 ∷ word.now ++ 32 ∷ second.now)) }
{
    out.extend_from_slice(b"pair ")?;
    out.extend_from_slice(first)?;
    out.extend_from_slice(b" ")?;
    out.extend_from_slice(word)?;
    out.extend_from_slice(b" ")?;
    out.extend_from_slice(second)
}

fn push_pair(
    out: &mut Vec<u8>,
    parts: Parts,
    first: &[u8],
    second: &[u8],
    totals: &Totals,
) -> Result<(), AllocError>
    requires { AreNearTotals totals.now }
    ensures { OnOk result (out.new.items ≡ out.old.items ++
        ended (pair_line parts.number first.now second.now totals.now)) }
{
    push_names(out, first, word(verdict_of(totals)), second)?;
    out.extend_from_slice(b" ")?;
    let ends = Span {
        lo: totals.least_lo,
        hi: totals.most_hi,
    };
    push_ends(out, parts, &ends)?;
    push_line_feed(out)
}

/// A line for each pair.
pub fn push_pairs(out: &mut Vec<u8>, numbers: &TableNumbers<'_>) -> Result<(), AllocError>
    ensures { OnOk result (out.new.items ≡ out.old.items ++
        flat_map ended (pair_lines numbers.now.parts.number numbers.now.desk.now.runs
        numbers.now.totals.now)) }
{
    let TableNumbers {
        desk,
        parts,
        bounds: _,
        totals,
    } = *numbers;
    let runs = desk.run_count();
    let mut at = PairPlaces::START;
    for each in totals {
        push_pair(
            out,
            parts,
            desk.run_name(at.first),
            desk.run_name(at.second),
            each,
        )?;
        at = at.next(runs);
    }
    Ok(())
}

/// The line `pair FIRST WORD SECOND LOW HIGH` with its line feed: the sums over all topics in units, printed as
/// means, the least difference rounded down and the greatest rounded up.
pub fn pair_line(
    alloc: Global,
    first: &[u8],
    second: &[u8],
    unit: i128,
    topics: u32,
    totals: &Totals,
) -> Result<Vec<u8>, Memory>
    requires unit { pos 1 ≤ℤ unit }
    requires unit_small { unit ≤ℤ pos (10 ^ 19) }
    requires topics { 1 ≤ topics }
    requires topics_few { topics ≤ TOPIC_LIMIT }
    requires totals { AreNearTotals totals.now }
    ensures { IfOk result (λ line. line.items ≡
        ended (pair_line (unsigned_abs unit * topics) first.now second.now totals.now)) }
{
    let mut out = Vec::new(alloc);
    push_pair(&mut out, all_parts(unit, topics), first, second, totals)?;
    Ok(out)
}

/// The table: its head, a line for each run with its summed bounds, and a line for each pair in order with its four
/// sums. Bounds and sums are over all topics, in units of the measure. The head has the level, the least relevant grade,
/// and the depth of the pool exactly where there is one.
pub fn table_text(
    alloc: Global,
    desk: &Desk,
    measure: &MeasureName,
    level: u32,
    depth: Option<u32>,
    unit: i128,
    bounds: &[Span],
    totals: &[Totals],
) -> Result<Vec<u8>, Memory>
    requires unit { pos 1 ≤ℤ unit }
    requires unit_small { unit ≤ℤ pos (10 ^ 19) }
    requires bounds_count { length bounds.now ≡ length desk.now.runs }
    requires totals_count { length totals.now ≡ length (pairs_of desk.now.runs) }
    requires bounds { All IsShort bounds.now }
    requires totals { All AreNearTotals totals.now }
    ensures { IfOk result (λ text. text.items ≡
        table_text desk.now measure.now level depth unit bounds.now totals.now) }
{
    let mut out = Vec::new(alloc);
    let topics = desk.topic_count();
    let numbers = TableNumbers {
        desk,
        parts: all_parts(unit, topics),
        bounds,
        totals,
    };
    push_head(&mut out, measure, level, depth, topics, desk.run_count())?;
    push_runs(&mut out, &numbers)?;
    push_pairs(&mut out, &numbers)?;
    Ok(out)
}
