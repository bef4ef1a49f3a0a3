// The summary of a demo.
ghost use Rattle.std.specs.Prelude.{◌≡◌, ◌++◌, ◌≤◌, flat_map, not, length, IfOk, OnOk};
ghost use Rattle.std.specs.List.{count_by};
ghost use Rattle.desk_model.specs.Desk.{AreMarksOf};
ghost use Rattle.desk_model.specs.Mark.{is_unjudged};
ghost use Rattle.desk_report.specs.Table.{ended};
ghost use Rattle.demo_desk.specs.Summary.{is_verdict, judged_in, number_line, verdict_line, head_lines, verdict_lines, summary_text};

use desk_model::{Desk, Mark, Memory, Rows, Verdict, push_whole};
use std::alloc::{AllocError, Global};

// How many documents of a topic are judged.
fn judged_on(marks: &[Mark]) -> u64
    ensures count { result ≡ count_by (λ mark. not (is_unjudged mark)) marks.now }
    ensures most { result ≤ length marks.now }
{
    marks.iter().filter(|mark| **mark != Mark::Unjudged).count() as u64
}

// How many documents of all topics are judged.
fn judged(desk: &Desk, marks: &Rows) -> u64
    requires { AreMarksOf desk.now marks.now }
    ensures { result ≡ judged_in marks.now }
{
    let mut count = 0;
    for topic in 0..desk.topic_count() {
        count += judged_on(marks.topic(topic));
    }
    count
}

// How many verdicts are this one.
fn count(verdicts: &[Verdict], verdict: Verdict) -> u64
    ensures { result ≡ count_by (is_verdict verdict) verdicts.now }
{
    verdicts.iter().filter(|each| **each == verdict).count() as u64
}

fn push_line(out: &mut Vec<u8>, word: &[u8], number: u64) -> Result<(), AllocError>
    ensures { OnOk result (out.new.items ≡ out.old.items ++ ended (number_line word.now number)) }
{
    out.extend_from_slice(word)?;
    out.extend_from_slice(b" ")?;
    push_whole(out, number as u128)?;
    out.extend_from_slice(b"\n")
}

// How many pairs have a verdict, after its word.
fn push_count(out: &mut Vec<u8>, verdicts: &[Verdict], verdict: Verdict) -> Result<(), AllocError>
    ensures { OnOk result (out.new.items ≡ out.old.items ++
        ended (verdict_line verdicts.now verdict)) }
{
    let word = match verdict {
        Verdict::Above => b"above".as_slice(),
        Verdict::Below => b"below".as_slice(),
        Verdict::Equal => b"equal".as_slice(),
        Verdict::Open => b"open".as_slice(),
        Verdict::Close => b"close".as_slice(),
    };
    push_line(out, word, count(verdicts, verdict))
}

fn push_head(out: &mut Vec<u8>, seed: u32, rows: u32, judged: u64) -> Result<(), AllocError>
    ensures { OnOk result (out.new.items ≡ out.old.items ++
        flat_map ended (head_lines seed rows judged)) }
{
    push_line(out, b"demo", seed as u64)?;
    push_line(out, b"rows", rows as u64)?;
    push_line(out, b"judged", judged)
}

fn push_counts(out: &mut Vec<u8>, verdicts: &[Verdict]) -> Result<(), AllocError>
    ensures { OnOk result (out.new.items ≡ out.old.items ++
        flat_map ended (verdict_lines verdicts.now)) }
{
    push_count(out, verdicts, Verdict::Above)?;
    push_count(out, verdicts, Verdict::Below)?;
    push_count(out, verdicts, Verdict::Equal)?;
    push_count(out, verdicts, Verdict::Open)?;
    push_count(out, verdicts, Verdict::Close)
}

fn push_summary(
    out: &mut Vec<u8>,
    seed: u32,
    rows: u32,
    judged: u64,
    verdicts: &[Verdict],
) -> Result<(), AllocError>
    ensures { OnOk result (out.new.items ≡ out.old.items ++
        flat_map ended (head_lines seed rows judged ++ verdict_lines verdicts.now)) }
{
    push_head(out, seed, rows, judged)?;
    push_counts(out, verdicts)
}

/// The summary of a demo: the seed, how many rows of runs were kept, how many documents of all topics are judged, and how
/// many pairs have each verdict.
///
/// # Errors
/// `Memory`: out of memory.
pub fn summary_text(
    alloc: Global,
    seed: u32,
    rows: u32,
    desk: &Desk,
    marks: &Rows,
    verdicts: &[Verdict],
) -> Result<Vec<u8>, Memory>
    requires { AreMarksOf desk.now marks.now }
    ensures { IfOk result (λ text. text.items ≡ summary_text seed rows marks.now verdicts.now) }
{
    let mut out = Vec::new(alloc);
    push_summary(&mut out, seed, rows, judged(desk, marks), verdicts)?;
    Ok(out)
}
