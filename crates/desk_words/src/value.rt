//! The values of one entry.
ghost use Rattle.std.specs.Prelude.{◌≡◌, ◌≢◌, ℕ, IfErr, IfOk, Err, Option, Some, None, map, List, decimal, [], ◌∷◌, ◌<◌, ◌≤◌, ◌^◌, length, IfSome, IfNone, true, false};
ghost use Rattle.clap.specs.Words.{Text};
ghost use Rattle.desk_model.specs.Limits.{RUN_LIMIT};
ghost use Rattle.desk_model.specs.declared.types.MeasureName.{MeasureName};
ghost use Rattle.desk_words.specs.Words.{IsPathOf, IsMeasureOf, IsDepthOf, IsGreatestOf, IsLevelOf, IsSeedOf, AreRunsOf, AreSheetsOf, HaveBytes, named, run_word_of};
ghost use Rattle.desk_words.specs.declared.command.RunWord.{RunWord};

use crate::command::{Path, RunWord, RunWords, Sheets};
use command_line::WordsFault;
use desk_model::{MOST_RUNS, MeasureName, Name, NameFault, read_measure};
use desk_text::plain;
use std::alloc::Global;

/// The one value, a path that is not empty.
pub fn path(alloc: Global, values: &[&str]) -> Result<Path, WordsFault>
    ensures ok { IfOk result (λ p. IsPathOf (map (λ v. v.now) values.now) p) }
    ensures usage { result ≡ Err WordsFault.Usage → (p : Text) →
        IsPathOf (map (λ v. v.now) values.now) p → ⊥ }
{
    match *values {
        [text] => filled(alloc, text),
        _ => Err(WordsFault::Usage),
    }
}

/// The measure that the one value names, and none where there is not one value or it names none.
pub fn measure(values: &[&str]) -> Option<MeasureName>
    ensures some { IfSome result (λ m. IsMeasureOf (map (λ v. v.now) values.now) m) }
    ensures none { IfNone result ((m : MeasureName) → IsMeasureOf (map (λ v. v.now) values.now) m →
        ⊥) }
{
    match *values {
        [text] => read_measure(text.as_bytes()).ok(),
        _ => None,
    }
}

/// The level that the one value says, or 1 where there is no value; and none where the values say no level.
pub fn level(values: &[&str]) -> Option<u32>
    ensures some { IfSome result (λ n. IsLevelOf (map (λ v. v.now) values.now) n) }
    ensures none { IfNone result ((n : ℕ) → IsLevelOf (map (λ v. v.now) values.now) n → ⊥) }
{
    match *values {
        [] => Some(1),
        [text] => number_from_1(text, 1_000),
        _ => None,
    }
}

/// The greatest grade that the one value says, and none where the values say none.
pub fn greatest(values: &[&str]) -> Option<u32>
    ensures some { IfSome result (λ n. IsGreatestOf (map (λ v. v.now) values.now) n) }
    ensures none { IfNone result ((n : ℕ) → IsGreatestOf (map (λ v. v.now) values.now) n → ⊥) }
{
    match *values {
        [text] => number_from_1(text, 10),
        _ => None,
    }
}

/// The depth that the one value says, or none where there is no value. `Usage` comes exactly where the values say
/// neither.
pub fn depth(values: &[&str]) -> Result<Option<u32>, WordsFault>
    ensures ok { IfOk result (λ depth. IsDepthOf (map (λ v. v.now) values.now) depth) }
    ensures usage { IfErr result (λ fault. (fault ≡ WordsFault.Usage) ×
        ((depth : Option ℕ) → IsDepthOf (map (λ v. v.now) values.now) depth → ⊥)) }
{
    match *values {
        [] => Ok(None),
        [text] => match number_from_1(text, 10_000) {
            Some(depth) => Ok(Some(depth)),
            None => Err(WordsFault::Usage),
        },
        _ => Err(WordsFault::Usage),
    }
}

// The number from 1 on that the text is, in digits with no sign and no leading zero.
fn number_from_1(text: &str, most: u32) -> Option<u32>
    ensures some { IfSome result (λ n. (text.now ≡ decimal n) × (1 ≤ n) × (n ≤ most)) }
    ensures none { IfNone result ((n : ℕ) → 1 ≤ n → n ≤ most → text.now ≢ decimal n) }
{
    let number = number(text, most)?;
    if number == 0 {
        return None;
    }
    Some(number)
}

// The number that the text is, in digits with no sign and no leading zero.
fn number(text: &str, most: u32) -> Option<u32>
    ensures some { IfSome result (λ n. text.now ≡ decimal n) }
    ensures small { IfSome result (λ n. n ≤ most) }
    ensures none { IfNone result ((n : ℕ) → n ≤ most → text.now ≢ decimal n) }
{
    match plain(text.as_bytes(), u64::from(most)) {
        Some(number) => Some(number as u32),
        None => None,
    }
}

/// The seed that the one value says, and none where the values say no seed.
pub fn seed(values: &[&str]) -> Option<u32>
    ensures some { IfSome result (λ n. IsSeedOf (map (λ v. v.now) values.now) n) }
    ensures none { IfNone result ((n : ℕ) → IsSeedOf (map (λ v. v.now) values.now) n → ⊥) }
{
    match *values {
        [text] => number(text, u32::MAX),
        _ => None,
    }
}

/// The runs of the RUN words, from 1 to 256.
pub fn runs(alloc: Global, values: &[&str]) -> Result<RunWords, WordsFault>
    ensures ok { IfOk result (λ runs. AreRunsOf (map (λ v. v.now) values.now) runs) }
    ensures usage { result ≡ Err WordsFault.Usage → (runs : List RunWord) →
        AreRunsOf (map (λ v. v.now) values.now) runs → ⊥ }
{
    if !are_some_and_few(values) {
        return Err(WordsFault::Usage);
    }
    let words = run_words(alloc, values)?;
    Ok(RunWords::new(words))
}

// Whether there are from 1 to 256 values.
fn are_some_and_few(values: &[&str]) -> bool
    ensures yes { result ≡ true → (0 < length values.now) × (length values.now ≤ RUN_LIMIT) }
    ensures no { result ≡ false → 0 < length values.now → length values.now ≤ RUN_LIMIT → ⊥ }
{
    !values.is_empty() && values.len() <= MOST_RUNS
}

// Each RUN word, in order.
fn run_words(alloc: Global, values: &[&str]) -> Result<Vec<RunWord>, WordsFault>
    ensures ok { IfOk result (λ runs. map run_word_of (map (λ v. v.now) values.now) ≡
        map Some runs.items) }
    ensures usage { result ≡ Err WordsFault.Usage → (runs : List RunWord) →
        map run_word_of (map (λ v. v.now) values.now) ≢ map Some runs }
{
    let mut words = Vec::new(alloc);
    for value in values {
        let word = run_word(alloc, value)?;
        words.push(word)?;
    }
    Ok(words)
}

// The run of a RUN word.
fn run_word(alloc: Global, word: &str) -> Result<RunWord, WordsFault>
    ensures ok { IfOk result (λ run. run_word_of word.now ≡ Some run) }
    ensures usage { result ≡ Err WordsFault.Usage → run_word_of word.now ≡ None }
{
    match word.split_once('=') {
        Some((name, path)) => named(alloc, name, path),
        None => Ok(RunWord {
            name: None,
            path: filled(alloc, word)?,
        }),
    }
}

// A run by its name and its path.
fn named(alloc: Global, name: &str, path: &str) -> Result<RunWord, WordsFault>
    ensures ok { IfOk result (λ run. named name.now path.now ≡ Some run) }
    ensures usage { result ≡ Err WordsFault.Usage → named name.now path.now ≡ None }
{
    let path = filled(alloc, path)?;
    match Name::new(alloc, name.as_bytes()) {
        Ok(name) => Ok(RunWord {
            name: Some(name),
            path,
        }),
        Err(NameFault::BadName) => Err(WordsFault::Usage),
        Err(NameFault::Memory) => Err(WordsFault::Memory),
    }
}

/// The sheets of these paths, from 1 to 256 that are not empty.
pub fn sheets(alloc: Global, values: &[&str]) -> Result<Sheets, WordsFault>
    ensures ok { IfOk result (λ sheets. AreSheetsOf (map (λ v. v.now) values.now) sheets) }
    ensures usage { result ≡ Err WordsFault.Usage → (sheets : List Text) →
        AreSheetsOf (map (λ v. v.now) values.now) sheets → ⊥ }
{
    if !are_some_and_few(values) {
        return Err(WordsFault::Usage);
    }
    let paths = paths(alloc, values)?;
    Ok(Sheets::new(paths))
}

// The paths with these texts, none of which is empty, in order.
fn paths(alloc: Global, values: &[&str]) -> Result<Vec<Path>, WordsFault>
    ensures ok { IfOk result (λ paths. map (λ v. v.now) values.now ≡ paths.items) }
    ensures filled { IfOk result (λ paths. HaveBytes paths.items) }
    ensures usage { result ≡ Err WordsFault.Usage → HaveBytes (map (λ v. v.now) values.now) → ⊥ }
{
    let mut paths = Vec::new(alloc);
    for value in values {
        let path = filled(alloc, value)?;
        paths.push(path)?;
    }
    Ok(paths)
}

// The path with this text, which is not empty.
fn filled(alloc: Global, text: &str) -> Result<Path, WordsFault>
    ensures ok { IfOk result (λ path. path ≡ text.now) }
    ensures some { IfOk result (λ path. 0 < length path) }
    ensures usage { result ≡ Err WordsFault.Usage → length text.now ≡ 0 }
{
    if text.is_empty() {
        return Err(WordsFault::Usage);
    }
    Ok(Path::new(String::from_str(alloc, text)?))
}
