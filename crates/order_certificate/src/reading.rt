//! Reads a certificate from its text, each part by the function that reads what follows.
ghost use Rattle.std.specs.Prelude.{◌≡◌, ◌≤◌};
ghost use Rattle.line_forms.specs.Reading.{IsReading};
ghost use Rattle.order_certificate.specs.Places.{certificate_places, from_measure, from_level, from_first, from_second, from_evidence, from_end};
ghost use Rattle.order_certificate.specs.Reading.{IsAnswer};

use crate::certificate::{Certificate, Evidence};
use crate::places::measure_line;
use crate::topics::evidence;
use desk_model::{MeasureName, Name, measure_of_text_is_unique};
use line_forms::places::{fixed_line, name_line, number_line};
use line_forms::{FormFault, TextLines, line_number};
use std::alloc::Global;

/// Why a text was not read as a certificate.
#[derive(Clone, Copy, PartialEq, Eq)]
pub enum CertFault {
    /// The text is of no certificate: the first line, counted from 1, that is not as the form wants it at
    /// its place. Where the text ends too early it is the one after the last whole line, and a last line
    /// that lacks its line feed is itself bad.
    BadLine { line: u64 },
    /// Out of memory.
    Memory,
}

// From the last line on.
fn from_end(
    lines: &mut TextLines<'_>,
    measure: MeasureName,
    level: u32,
    first: Name,
    second: Name,
    evidence: Evidence,
) -> Result<Certificate, FormFault>
    ensures { IsReading (from_end measure level first second evidence) lines.old.rest result
        lines.new }
{
    fixed_line(lines, b"end")?;
    Ok(Certificate {
        measure,
        level,
        first,
        second,
        evidence,
    })
}

// From the claim on.
fn from_evidence(
    alloc: Global,
    lines: &mut TextLines<'_>,
    measure: MeasureName,
    level: u32,
    first: Name,
    second: Name,
) -> Result<Certificate, FormFault>
    ensures { IsReading (from_evidence measure level first second) lines.old.rest result lines.new }
{
    let evidence = evidence(alloc, lines)?;
    from_end(lines, measure, level, first, second, evidence)
}

// From the second run on.
fn from_second(
    alloc: Global,
    lines: &mut TextLines<'_>,
    measure: MeasureName,
    level: u32,
    first: Name,
) -> Result<Certificate, FormFault>
    ensures { IsReading (from_second measure level first) lines.old.rest result lines.new }
{
    let second = name_line(alloc, lines, b"second ")?;
    from_evidence(alloc, lines, measure, level, first, second)
}

/// Takes what follows the level, from the first run on.
pub fn from_first(
    alloc: Global,
    lines: &mut TextLines<'_>,
    measure: MeasureName,
    level: u32,
) -> Result<Certificate, FormFault>
    ensures { IsReading (from_first measure level) lines.old.rest result lines.new }
{
    let first = name_line(alloc, lines, b"first ")?;
    from_second(alloc, lines, measure, level, first)
}

// From the level on.
fn from_level(
    alloc: Global,
    lines: &mut TextLines<'_>,
    measure: MeasureName,
) -> Result<Certificate, FormFault>
    ensures { IsReading (from_level measure) lines.old.rest result lines.new }
{
    let level = number_line(lines, b"level ", 1, 1_000)?;
    from_first(alloc, lines, measure, level)
}

// From the measure on.
fn from_measure(alloc: Global, lines: &mut TextLines<'_>) -> Result<Certificate, FormFault>
    ensures { IsReading from_measure lines.old.rest result lines.new }
{
    measure_of_text_is_unique();
    let measure = measure_line(alloc, lines)?;
    from_level(alloc, lines, measure)
}

// A certificate, from its first line to its last.
fn certificate(alloc: Global, lines: &mut TextLines<'_>) -> Result<Certificate, FormFault>
    ensures { IsReading certificate_places lines.old.rest result lines.new }
{
    fixed_line(lines, b"desk-certificate 1")?;
    from_measure(alloc, lines)
}

/// The certificate that a text is of. `BadLine` comes exactly where the text is of no certificate.
pub fn read_certificate(alloc: Global, bytes: &[u8]) -> Result<Certificate, CertFault>
    ensures { IsAnswer bytes.now result }
{
    measure_of_text_is_unique();
    let mut lines = TextLines::new(bytes);
    match certificate(alloc, &mut lines) {
        Ok(certificate) => {
            let rest = lines.rest();
            if rest.is_empty() {
                return Ok(certificate);
            }
            let line = line_number(bytes, rest);
            Err(CertFault::BadLine { line })
        }
        Err(FormFault::Bad) => {
            let line = line_number(bytes, lines.last());
            Err(CertFault::BadLine { line })
        }
        Err(FormFault::Memory) => Err(CertFault::Memory),
    }
}
