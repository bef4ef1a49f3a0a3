//! The command of the words: its verb, what it takes, and what the values say.
ghost use Rattle.std.specs.Prelude.{◌≡◌, ℕ, true, false, IfOk, Err, map, codes, string_bytes};
ghost use Rattle.command_line.specs.Given.{values_held};
ghost use Rattle.desk_words.specs.Words.{HasPersistence, IsCommandOf, IsSaid, IsSeedOf, SaysJob, SaysCheck, SaysPlacing, verb_of, takes, takes_alone, takes_pairs, takes_runs};
ghost use Rattle.desk_words.specs.declared.command.Command.{Command};
ghost use Rattle.desk_words.specs.declared.command.Job.{Job};
ghost use Rattle.desk_words.specs.declared.command.Check.{Check};
ghost use Rattle.desk_words.specs.declared.command.Placing.{Placing};

use crate::command::{Check, Command, Job, Placing};
use crate::value::{depth, greatest, level, measure, path, runs, seed, sheets};
use command_line::{Given, Row, WordsFault};
use desk_model::{MOST_RUNS, MeasureName};
use std::alloc::Global;

/// What the first word asks for.
#[derive(Clone, Copy, PartialEq, Eq)]
pub enum Verb {
    Table,
    Certify,
    Session,
    Verify,
    Demo,
    Graded,
    Tiers,
    Merge,
    Apply,
}

// The verb of a word, and none where it is no command's.
fn verb_of(word: &str) -> Option<Verb>
    ensures { result ≡ verb_of word.now }
{
    match word {
        "table" => Some(Verb::Table),
        "certify" => Some(Verb::Certify),
        "session" => Some(Verb::Session),
        "verify" => Some(Verb::Verify),
        "demo" => Some(Verb::Demo),
        "graded" => Some(Verb::Graded),
        "tiers" => Some(Verb::Tiers),
        "merge" => Some(Verb::Merge),
        "apply" => Some(Verb::Apply),
        _ => None,
    }
}

// What the command of a verb takes.
fn row_of(verb: Verb) -> Row
    ensures { result ≡ takes verb }
{
    match verb {
        Verb::Table | Verb::Session | Verb::Tiers => runs_from(1),
        Verb::Certify => pairs_from(2),
        Verb::Verify => Row {
            needed: &["qrels", "cert"],
            least: 2,
            ..alone("RUN", MOST_RUNS)
        },
        Verb::Demo => alone("SEED", 1),
        Verb::Graded => Row {
            needed: &["qrels", "measure", "greatest"],
            ..alone("RUN", MOST_RUNS)
        },
        Verb::Merge => alone("SHEET", MOST_RUNS),
        Verb::Apply => Row {
            needed: &["qrels", "sheet"],
            ..alone("RUN", MOST_RUNS)
        },
    }
}

// Other words alone, one at least.
fn alone(other: &'static str, most: usize) -> Row
    ensures { result ≡ takes_alone other.now most }
{
    Row {
        needed: &[],
        optional: &[],
        flags: &[],
        other,
        least: 1,
        most,
    }
}

// Runs under a measure.
fn runs_from(least: usize) -> Row
    ensures { result ≡ takes_runs least }
{
    Row {
        needed: &["qrels", "measure"],
        optional: &["level", "depth"],
        flags: &[],
        other: "RUN",
        least,
        most: MOST_RUNS,
    }
}

// Runs under a measure, and the flag that asks for all their pairs.
fn pairs_from(least: usize) -> Row
    ensures { result ≡ takes_pairs least }
{
    Row {
        flags: &["all"],
        ..runs_from(least)
    }
}

/// The command that the words say, which are those after the program's name. `Usage` comes exactly where the words are
/// of no command, unless memory runs out; `Memory` may come at any words.
pub fn read_words(alloc: Global, words: &[String]) -> Result<Command, WordsFault>
    ensures ok { IfOk result (λ command. IsCommandOf (map string_bytes words.now) command) }
    ensures usage { result ≡ Err WordsFault.Usage → (command : Command) →
        IsCommandOf (map string_bytes words.now) command → ⊥ }
{
    let Some((word, rest)) = words.split_first() else {
        return Err(WordsFault::Usage);
    };
    let Some(verb) = verb_of(word.as_str()) else {
        return Err(WordsFault::Usage);
    };
    let row = row_of(verb);
    let given = Given::read(alloc, &row, rest)?;
    said(alloc, verb, &given)
}

// The command of a verb that the values say.
fn said(alloc: Global, verb: Verb, given: &Given) -> Result<Command, WordsFault>
    ensures ok { IfOk result (λ command. IsSaid verb (values_held given.now) command) }
    ensures usage { result ≡ Err WordsFault.Usage → (command : Command) →
        IsSaid verb (values_held given.now) command → ⊥ }
{
    match verb {
        Verb::Table => Ok(Command::Table(job(alloc, given)?)),
        Verb::Certify => certified(alloc, given),
        Verb::Session => Ok(Command::Session(job(alloc, given)?)),
        Verb::Verify => Ok(Command::Verify(check(alloc, given)?)),
        Verb::Demo => Ok(Command::Demo {
            seed: demo_seed(given)?,
        }),
        Verb::Graded => graded(alloc, given),
        Verb::Tiers => Ok(Command::Tiers(job(alloc, given)?)),
        Verb::Merge => Ok(Command::Merge(sheets(alloc, given.values("SHEET"))?)),
        Verb::Apply => Ok(Command::Apply(placing(alloc, given)?)),
    }
}

// The table by grades. The measure is rank-biased precision.
fn graded(alloc: Global, given: &Given) -> Result<Command, WordsFault>
    ensures ok { IfOk result (λ command. IsSaid Verb.Graded (values_held given.now) command) }
    ensures usage { result ≡ Err WordsFault.Usage → (command : Command) →
        IsSaid Verb.Graded (values_held given.now) command → ⊥ }
{
    let job = job(alloc, given)?;
    if !has_persistence(&job.measure) {
        return Err(WordsFault::Usage);
    }
    let greatest = greatest(given.values("greatest")).ok_or(WordsFault::Usage)?;
    Ok(Command::Graded { job, greatest })
}

// Whether a measure is rank-biased precision.
fn has_persistence(measure: &MeasureName) -> bool
    ensures yes { result ≡ true → HasPersistence measure.now }
    ensures no { result ≡ false → HasPersistence measure.now → ⊥ }
{
    match measure {
        MeasureName::Biased { .. } => true,
        _ => false,
    }
}

// The certificate of the first two runs, or with the flag that of all pairs.
fn certified(alloc: Global, given: &Given) -> Result<Command, WordsFault>
    ensures ok { IfOk result (λ command. IsSaid Verb.Certify (values_held given.now) command) }
    ensures usage { result ≡ Err WordsFault.Usage → (command : Command) →
        IsSaid Verb.Certify (values_held given.now) command → ⊥ }
{
    let job = job(alloc, given)?;
    if given.values("all").is_empty() {
        Ok(Command::Certify(job))
    } else {
        Ok(Command::CertifyAll(job))
    }
}

fn job(alloc: Global, given: &Given) -> Result<Job, WordsFault>
    ensures ok { IfOk result (λ job. SaysJob (values_held given.now) job) }
    ensures usage { result ≡ Err WordsFault.Usage → (job : Job) →
        SaysJob (values_held given.now) job → ⊥ }
{
    Ok(Job {
        qrels: path(alloc, given.values("qrels"))?,
        measure: measure(given.values("measure")).ok_or(WordsFault::Usage)?,
        level: level(given.values("level")).ok_or(WordsFault::Usage)?,
        depth: depth(given.values("depth"))?,
        runs: runs(alloc, given.values("RUN"))?,
    })
}

fn check(alloc: Global, given: &Given) -> Result<Check, WordsFault>
    ensures ok { IfOk result (λ check. SaysCheck (values_held given.now) check) }
    ensures usage { result ≡ Err WordsFault.Usage → (check : Check) →
        SaysCheck (values_held given.now) check → ⊥ }
{
    Ok(Check {
        qrels: path(alloc, given.values("qrels"))?,
        cert: path(alloc, given.values("cert"))?,
        runs: runs(alloc, given.values("RUN"))?,
    })
}

fn placing(alloc: Global, given: &Given) -> Result<Placing, WordsFault>
    ensures ok { IfOk result (λ placing. SaysPlacing (values_held given.now) placing) }
    ensures usage { result ≡ Err WordsFault.Usage → (placing : Placing) →
        SaysPlacing (values_held given.now) placing → ⊥ }
{
    Ok(Placing {
        qrels: path(alloc, given.values("qrels"))?,
        sheet: path(alloc, given.values("sheet"))?,
        runs: runs(alloc, given.values("RUN"))?,
    })
}

fn demo_seed(given: &Given) -> Result<u32, WordsFault>
    ensures ok { IfOk result (λ n. IsSeedOf (values_held given.now (codes "SEED")) n) }
    ensures usage { result ≡ Err WordsFault.Usage → (n : ℕ) → IsSeedOf (values_held given.now (codes "SEED")) n → ⊥ }
{
    seed(given.values("SEED")).ok_or(WordsFault::Usage)
}
