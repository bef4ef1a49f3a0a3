// A flag, tiers with a level and a depth, sheets, and the greatest seed.
use command_line::{Given, Row};
use desk_words::{Command, read_words};
use std::alloc::{AllocError, Global};
use std::test::Fail;

fn words_of(alloc: Global, line: &str) -> Result<Vec<String>, AllocError> {
    let mut words = Vec::new(alloc);
    for word in line.split(' ') {
        words.push(String::from_str(alloc, word)?)?;
    }
    Ok(words)
}

// How often a line gives the flag of a command that takes one, and none where the line is refused.
fn uses_of_flag(alloc: Global, line: &str) -> Result<Option<usize>, AllocError> {
    let row = Row {
        needed: &[],
        optional: &["depth"],
        flags: &["all"],
        other: "RUN",
        least: 1,
        most: 2,
    };
    let words = words_of(alloc, line)?;
    match Given::read(alloc, &row, words.as_slice()) {
        Ok(given) => Ok(Some(given.values("all").len())),
        Err(_) => Ok(None),
    }
}

// How often the flag is given, or that the line is refused, and the line.
const FLAGGED: &str = "0: a
1: --all a
1: a --depth 5 --all b
0: a -- --all
refused: --all a --all
refused: --all=x a
refused: --all= a
refused: --depth --all a
refused: --al a
refused: --all
refused: --all a b c
";

fn are_flagged(alloc: Global) -> Result<bool, AllocError> {
    for case in FLAGGED.lines() {
        let (uses, line) = case.split_once(": ").unwrap_or((case, ""));
        if uses_of_flag(alloc, line)? != uses.parse().ok() {
            return Ok(false);
        }
    }
    Ok(true)
}

// Whether a line asks for the certificate of all pairs.
fn asks_for_all(alloc: Global, line: &str) -> Result<bool, AllocError> {
    let words = words_of(alloc, line)?;
    let command = read_words(alloc, words.as_slice());
    Ok(matches!(command, Ok(Command::CertifyAll(_))))
}

// Whether it asks for that of two runs.
fn asks_for_two(alloc: Global, line: &str) -> Result<bool, AllocError> {
    let words = words_of(alloc, line)?;
    let command = read_words(alloc, words.as_slice());
    Ok(matches!(command, Ok(Command::Certify(_))))
}

fn are_certified(alloc: Global) -> Result<bool, AllocError> {
    Ok(
        asks_for_two(alloc, "certify --qrels q --measure P_1 a b c")?
            && asks_for_all(alloc, "certify a --qrels q --all --measure P_1 b c")?
            && asks_for_two(alloc, "certify --qrels q --measure P_1 a b -- --all")?,
    )
}

// Whether it asks for tiers at this level and under this depth.
fn asks_for_tiers(
    alloc: Global,
    line: &str,
    level: u32,
    depth: Option<u32>,
) -> Result<bool, AllocError> {
    let words = words_of(alloc, line)?;
    match read_words(alloc, words.as_slice()) {
        Ok(Command::Tiers(job)) => Ok(job.level == level && job.depth == depth),
        _ => Ok(false),
    }
}

fn are_tiers(alloc: Global) -> Result<bool, AllocError> {
    Ok(
        asks_for_tiers(alloc, "tiers --qrels q --measure map a", 1, None)?
            && asks_for_tiers(
                alloc,
                "tiers --depth=7 a --level 2 b --measure P_1 --qrels q",
                2,
                Some(7),
            )?
            && !asks_for_tiers(alloc, "table --qrels q --measure map a", 1, None)?,
    )
}

// What a line asks for, of sheets alone.
fn asked_of_sheets(alloc: Global, line: &str) -> Result<&'static str, AllocError> {
    let words = words_of(alloc, line)?;
    Ok(match read_words(alloc, words.as_slice()) {
        Ok(Command::Merge(_)) => "merge",
        Ok(Command::Apply(_)) => "apply",
        Ok(_) => "other",
        Err(_) => "usage",
    })
}

// What is asked for, and the line. The last one has an empty word.
const SHEETS: &str = "merge: merge s - a=b -- --t
apply: apply --qrels q --sheet s a
usage: merge
usage: merge --qrels q s
usage: apply --qrels q a
usage: apply --qrels q --sheet s
usage: apply --qrels q --sheet s --measure P_1 a
usage: merge ";

fn are_of_sheets(alloc: Global) -> Result<bool, AllocError> {
    for case in SHEETS.lines() {
        let (asked, line) = case.split_once(": ").unwrap_or((case, ""));
        if asked_of_sheets(alloc, line)? != asked {
            return Ok(false);
        }
    }
    Ok(true)
}

fn is_greatest_seed(alloc: Global) -> Result<bool, AllocError> {
    let words = words_of(alloc, "demo 4294967295")?;
    let command = read_words(alloc, words.as_slice());
    Ok(matches!(command, Ok(Command::Demo { seed: u32::MAX })))
}

#[test]
fn words_are_read(rt: HostRuntime) -> Result<(), Fail> {
    assert!(rt; are_flagged(rt.alloc())?);
    assert!(rt; are_certified(rt.alloc())?);
    assert!(rt; are_tiers(rt.alloc())?);
    assert!(rt; are_of_sheets(rt.alloc())?);
    assert!(rt; is_greatest_seed(rt.alloc())?);
    Ok(())
}
