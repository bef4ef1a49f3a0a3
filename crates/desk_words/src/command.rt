//! Commands.
ghost use Rattle.desk_model.specs.Limits.{RUN_LIMIT};
ghost use Rattle.std.specs.Prelude.{◌≡◌, ◌<◌, ◌≤◌, length, string_bytes, vec_len};

use desk_model::{MeasureName, Name};
use std::marker::Model;

/// A command with what its words say.
#[derive(Drop)]
pub enum Command {
    /// Print the table of all pairs.
    Table(Job),
    /// Print the certificate of the first two runs.
    Certify(Job),
    /// Print the certificate of all pairs of the runs.
    CertifyAll(Job),
    /// Judge documents.
    Session(Job),
    /// Check a certificate.
    Verify(Check),
    /// Show a worked example that is made from the seed.
    Demo {
        seed: u32,
    },
    /// Print the table of all pairs under rank-biased precision by grades.
    Graded {
        /// At level 1 without a depth, under rank-biased precision.
        job: Job,
        /// The grade that counts as 1, and to which greater grades are cut, from 1 to 10.
        greatest: u32,
    },
    /// Print the tiers of the runs.
    Tiers(Job),
    /// Print the merge of the sheets.
    Merge(Sheets),
    /// Print the judgements with the grades of a sheet.
    Apply(Placing),
}

/// Runs that are to be compared.
#[derive(Drop)]
pub struct Job {
    /// The file of judgements.
    pub qrels: Path,
    /// What the runs are compared by.
    pub measure: MeasureName,
    /// The least grade of a relevant document, from 1 to 1,000.
    pub level: u32,
    /// The depth of the pool outside which a document without a grade counts as not relevant, from 1 to 10,000, or
    /// none.
    pub depth: Option<u32>,
    /// The runs in the order of the words; for a certificate two at least.
    pub runs: RunWords,
}

/// A certificate that is to be checked.
#[derive(Drop)]
pub struct Check {
    /// The file of judgements.
    pub qrels: Path,
    /// The file of the certificate.
    pub cert: Path,
    /// The runs in the order of the words, two at least.
    pub runs: RunWords,
}

/// A sheet that is to be applied to a file of judgements.
#[derive(Drop)]
pub struct Placing {
    /// The file of judgements.
    pub qrels: Path,
    /// The file of the sheet.
    pub sheet: Path,
    /// The runs in the order of the words, one at least. The desk in which each entry has its place is theirs.
    pub runs: RunWords,
}

/// A file of a run, and the name that the words give the run.
#[derive(Drop)]
pub struct RunWord {
    pub name: Option<Name>,
    pub path: Path,
}

/// The path of a file.
#[derive(Drop)]
pub struct Path {
    text: String,
}

impl Model for Path {
    ghost use Rattle.std.specs.Prelude.{List, ℕ, string_bytes};

    ghost Value = { List ℕ };

    ghost view = { λ p. string_bytes p.text };
}

impl Path {
    /// The path with this text.
    pub fn new(text: String) -> Path
        ensures { result ≡ string_bytes text }
    {
        Path { text }
    }

    /// The text of the path.
    pub fn as_str(&self) -> &str
        ensures { result.now ≡ self.now }
    {
        self.text.as_str()
    }
}

/// From 1 to 256 runs, in their order.
#[derive(Drop)]
pub struct RunWords {
    words: Vec<RunWord>,
}

impl Model for RunWords {
    ghost use Rattle.std.specs.Prelude.{List, ◌<◌, ◌≤◌, length};
    ghost use Rattle.desk_model.specs.Limits.{RUN_LIMIT};
    ghost use Rattle.desk_words.specs.declared.command.RunWord.{RunWord};

    ghost Value = { List RunWord };

    ghost view = { λ r. r.words.items };

    ghost invariant = { λ r. (0 < length r.words.items) × (length r.words.items ≤ RUN_LIMIT) };
}

impl RunWords {
    /// These runs.
    pub fn new(words: Vec<RunWord>) -> RunWords
        requires some { 0 < vec_len words }
        requires few { vec_len words ≤ RUN_LIMIT }
        ensures { result ≡ words.items }
    {
        RunWords { words }
    }

    /// The runs, the first at place 0.
    pub fn as_slice(&self) -> &[RunWord]
        ensures runs { result.now ≡ self.now }
        ensures some { 0 < length self.now }
        ensures few { length self.now ≤ RUN_LIMIT }
    {
        self.words.as_slice()
    }
}

/// The paths of sheets, from 1 to 256 of them, in their order.
#[derive(Drop)]
pub struct Sheets {
    paths: Vec<Path>,
}

impl Model for Sheets {
    ghost use Rattle.std.specs.Prelude.{List, ℕ, ◌<◌, ◌≤◌, length};
    ghost use Rattle.desk_model.specs.Limits.{RUN_LIMIT};

    ghost Value = { List (List ℕ) };

    ghost view = { λ s. s.paths.items };

    ghost invariant = { λ s. (0 < length s.paths.items) × (length s.paths.items ≤ RUN_LIMIT) };
}

impl Sheets {
    /// The sheets of these paths.
    pub fn new(paths: Vec<Path>) -> Sheets
        requires some { 0 < vec_len paths }
        requires few { vec_len paths ≤ RUN_LIMIT }
        ensures { result ≡ paths.items }
    {
        Sheets { paths }
    }

    /// The paths, the first at place 0.
    pub fn as_slice(&self) -> &[Path]
        ensures paths { result.now ≡ self.now }
        ensures some { 0 < length self.now }
        ensures few { length self.now ≤ RUN_LIMIT }
    {
        self.paths.as_slice()
    }
}
