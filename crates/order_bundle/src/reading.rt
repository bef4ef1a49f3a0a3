//! Reads a certificate of either version, each part by the function that reads what follows. One reader serves texts with
//! the line of a depth and texts without one.
ghost use Rattle.std.specs.Prelude.{◌≡◌, ◌≤◌, length};
ghost use Rattle.desk_model.specs.MeasureText.{IsMeasure};
ghost use Rattle.line_forms.specs.Reading.{IsReading};
ghost use Rattle.order_certificate.specs.Certificate.{IsLevel};
ghost use Rattle.order_bundle.specs.Bundle.{AreBundleRuns, AreTopicNames, AreClaims};
ghost use Rattle.order_bundle.specs.Places.{after_depth, after_level, after_measure, after_version, from_claims, from_end, from_runs, from_topics, places_with};
ghost use Rattle.order_bundle.specs.Reading.{IsAnswerWith, IsAnyAnswer};
ghost use Rattle.order_bundle.specs.Scoped.{IsScopedAnswer};

use crate::any_certificate::{AnyCertificate, Version};
use crate::bundle::{Bundle, BundleTopics, PairClaims};
use crate::claims::claims;
use crate::places::{depth_line, version_line};
use crate::scoped::Scoped;
use crate::topics::{runs, topics};
use desk_model::{MeasureName, measure_of_text_is_unique};
use line_forms::places::{fixed_line, number_line};
use line_forms::{FormFault, TextLines, line_number};
use order_certificate::places::measure_line;
use order_certificate::reading::from_first;
use order_certificate::{CertFault, NameList};
use std::alloc::Global;

// From the last line of a bundle on.
fn from_end(
    lines: &mut TextLines<'_>,
    measure: MeasureName,
    level: u32,
    runs: NameList,
    topics: BundleTopics,
    claims: PairClaims,
) -> Result<Bundle, FormFault>
    requires measure { IsMeasure measure }
    requires level { IsLevel level }
    requires runs { AreBundleRuns runs }
    requires topics { AreTopicNames topics }
    requires claims { AreClaims (length runs) topics claims }
    ensures { IsReading (from_end measure level runs topics claims) lines.old.rest result
        lines.new }
{
    fixed_line(lines, b"end")?;
    Ok(Bundle {
        measure,
        level,
        runs,
        topics,
        claims,
    })
}

// From the number of claims on.
fn from_claims(
    alloc: Global,
    lines: &mut TextLines<'_>,
    measure: MeasureName,
    level: u32,
    runs: NameList,
    topics: BundleTopics,
) -> Result<Bundle, FormFault>
    requires measure { IsMeasure measure }
    requires level { IsLevel level }
    requires runs { AreBundleRuns runs }
    requires topics { AreTopicNames topics }
    ensures { IsReading (from_claims measure level runs topics) lines.old.rest result lines.new }
{
    let known = runs.as_slice().len() as u32;
    let claims = claims(alloc, lines, known, topics.as_slice())?;
    from_end(lines, measure, level, runs, topics, claims)
}

// From the number of topics on.
fn from_topics(
    alloc: Global,
    lines: &mut TextLines<'_>,
    measure: MeasureName,
    level: u32,
    runs: NameList,
) -> Result<Bundle, FormFault>
    requires measure { IsMeasure measure }
    requires level { IsLevel level }
    requires runs { AreBundleRuns runs }
    ensures { IsReading (from_topics measure level runs) lines.old.rest result lines.new }
{
    let topics = topics(alloc, lines)?;
    from_claims(alloc, lines, measure, level, runs, topics)
}

// From the number of runs on.
fn from_runs(
    alloc: Global,
    lines: &mut TextLines<'_>,
    measure: MeasureName,
    level: u32,
) -> Result<Bundle, FormFault>
    requires measure { IsMeasure measure }
    requires level { IsLevel level }
    ensures { IsReading (from_runs measure level) lines.old.rest result lines.new }
{
    let runs = runs(alloc, lines)?;
    from_topics(alloc, lines, measure, level, runs)
}

// What each version asks for after the level, or after the line of a depth.
fn after_depth(
    alloc: Global,
    lines: &mut TextLines<'_>,
    version: Version,
    measure: MeasureName,
    level: u32,
    depth: Option<u32>,
) -> Result<Scoped, FormFault>
    requires measure { IsMeasure measure }
    requires level { IsLevel level }
    ensures { IsReading (after_depth version measure level depth) lines.old.rest result lines.new }
{
    match version {
        Version::One => {
            let certificate = from_first(alloc, lines, measure, level)?;
            let body = AnyCertificate::One(certificate);
            Ok(Scoped { depth, body })
        }
        Version::Many => {
            let bundle = from_runs(alloc, lines, measure, level)?;
            let body = AnyCertificate::Many(bundle);
            Ok(Scoped { depth, body })
        }
    }
}

// After the level: where depths are allowed, the line of one may come first.
fn after_level(
    alloc: Global,
    lines: &mut TextLines<'_>,
    depths: bool,
    version: Version,
    measure: MeasureName,
    level: u32,
) -> Result<Scoped, FormFault>
    requires measure { IsMeasure measure }
    requires level { IsLevel level }
    ensures { IsReading (after_level depths version measure level) lines.old.rest result lines.new }
{
    let depth = depth_line(lines, depths);
    after_depth(alloc, lines, version, measure, level, depth)
}

// From the level on.
fn after_measure(
    alloc: Global,
    lines: &mut TextLines<'_>,
    depths: bool,
    version: Version,
    measure: MeasureName,
) -> Result<Scoped, FormFault>
    requires { IsMeasure measure }
    ensures { IsReading (after_measure depths version measure) lines.old.rest result lines.new }
{
    let level = number_line(lines, b"level ", 1, 1_000)?;
    after_level(alloc, lines, depths, version, measure, level)
}

// From the measure on.
fn after_version(
    alloc: Global,
    lines: &mut TextLines<'_>,
    depths: bool,
    version: Version,
) -> Result<Scoped, FormFault>
    ensures { IsReading (after_version depths version) lines.old.rest result lines.new }
{
    measure_of_text_is_unique();
    let measure = measure_line(alloc, lines)?;
    after_measure(alloc, lines, depths, version, measure)
}

// A certificate of either version, from its first line to its last.
fn certificate_with(
    alloc: Global,
    lines: &mut TextLines<'_>,
    depths: bool,
) -> Result<Scoped, FormFault>
    ensures { IsReading (places_with depths) lines.old.rest result lines.new }
{
    let version = version_line(lines)?;
    after_version(alloc, lines, depths, version)
}

// The certificate that a text is of, with the line of a depth where depths are allowed.
fn read_with(alloc: Global, bytes: &[u8], depths: bool) -> Result<Scoped, CertFault>
    ensures { IsAnswerWith depths bytes.now result }
{
    measure_of_text_is_unique();
    let mut lines = TextLines::new(bytes);
    match certificate_with(alloc, &mut lines, depths) {
        Ok(certificate) => {
            let rest = lines.rest();
            if rest.is_empty() {
                return Ok(certificate);
            }
            let line = line_number(bytes, rest);
            Err(CertFault::BadLine { line })
        }
        Err(FormFault::Bad) => {
            let line = line_number(bytes, lines.last());
            Err(CertFault::BadLine { line })
        }
        Err(FormFault::Memory) => Err(CertFault::Memory),
    }
}

/// The certificate of version 1 or 2 that a text is of, with the depth of the line `depth D` after that of the level, or
/// none where there is no such line. `BadLine` comes exactly where the text is of neither version: the first line, counted
/// from 1, that is not as the form of the version that line 1 names wants it at its place, or 1 where line 1 names none.
pub fn read_scoped(alloc: Global, bytes: &[u8]) -> Result<Scoped, CertFault>
    ensures { IsScopedAnswer bytes.now result }
{
    read_with(alloc, bytes, true)
}

/// The certificate of version 1 or 2 that a text is of. `BadLine` comes exactly where the text is of neither: the
/// first line, counted from 1, that is not as the form of the version that line 1 names wants it at its place, or 1
/// where line 1 names none. No line of a depth may come.
pub fn read_any(alloc: Global, bytes: &[u8]) -> Result<AnyCertificate, CertFault>
    ensures { IsAnyAnswer bytes.now result }
{
    match read_with(alloc, bytes, false) {
        Ok(scoped) => Ok(scoped.body),
        Err(fault) => Err(fault),
    }
}
