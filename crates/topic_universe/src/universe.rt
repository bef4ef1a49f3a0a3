// The documents of a topic.
ghost use Rattle.std.specs.Prelude.{◌≡◌, ◌<◌, [], true, All, length, map, flat_map, OnOk, IfOk};
ghost use Rattle.std.specs.List.{AllZip};
ghost use Rattle.file_rows.specs.Grouped.{rows_at};
ghost use Rattle.run_reader.specs.Run.{rows_on_topic};
ghost use Rattle.topic_universe.specs.Names.{with_names, AreDistinctNames, AddsNames, numbered_names};
ghost use Rattle.topic_universe.specs.Universe.{listed, retrieved, AreRankedNumbers, IsUniverseOf};

use crate::names::sorted;
use crate::numbered::Numbered;
use crate::ranked_run::RankedRun;
use desk_model::Memory;
use file_rows::NameIndex;
use name_table::NumberedNames;
use qrels_reader::Qrels;
use std::alloc::{AllocError, Global};

/// The documents of a topic. A document's number is the place, from 0, at which it was first found: among the qrels' rows, and then
/// among each run's.
#[derive(Drop)]
pub struct Universe<'n> {
    /// The names in ascending order, each with its number.
    pub pairs: Vec<Numbered<'n>>,
    /// For each run the numbers of the documents that it retrieves, the best first.
    pub numbers: Vec<Vec<usize>>,
}

// The documents that the qrels list of topic `t`, in their order.
fn listed_names(alloc: Global, qrels: &Qrels, t: usize) -> Result<NameIndex<'_>, AllocError>
    requires { t < length qrels.now }
    ensures documents { IfOk result (λ names. names ≡ listed (rows_at qrels.now t)) }
    ensures names { IfOk result (λ names. AreDistinctNames names) }
{
    let mut names = NameIndex::new(alloc);
    for i in 0..qrels.doc_count(t) {
        names.add(qrels.doc_name(t, i))?;
    }
    Ok(names)
}

// Adds names where they are new, and gives the number of each.
fn add_ranked<'n>(
    alloc: Global,
    names: &mut NameIndex<'n>,
    ranked: &'n NumberedNames,
) -> Result<Vec<usize>, AllocError>
    ensures names { OnOk result (names.new ≡ with_names names.old ranked.now) }
    ensures within { IfOk result (λ numbers. All (λ n. n < length names.new) numbers.items) }
    ensures numbers { IfOk result (λ numbers. numbered_names names.new numbers.items ≡ ranked.now) }
{
    let mut numbers = Vec::with_capacity(alloc, ranked.len())?;
    for i in 0..ranked.len() {
        numbers.push(names.number(ranked.get(i))?)?;
    }
    Ok(numbers)
}

// Adds the documents of a run's rows on a topic, and gives their numbers, the best first.
fn add_run<'n>(
    alloc: Global,
    names: &mut NameIndex<'n>,
    run: &'n RankedRun,
    topic: &[u8],
) -> Result<Vec<usize>, Memory>
    requires { AreDistinctNames names.old }
    ensures names { OnOk result (AddsNames names.old (retrieved topic.now run.now) names.new) }
    ensures numbers { IfOk result (λ numbers.
        AreRankedNumbers names.new (rows_on_topic run.now topic.now) numbers.items) }
{
    match run.names_on(topic) {
        Some(ranked) => Ok(add_ranked(alloc, names, ranked)?),
        None => Ok(Vec::new(alloc)),
    }
}

// Adds the documents of the runs' rows on a topic, and gives for each run the numbers of its documents, the best first.
fn add_runs<'n>(
    alloc: Global,
    names: &mut NameIndex<'n>,
    runs: &'n [RankedRun],
    topic: &[u8],
) -> Result<Vec<Vec<usize>>, Memory>
    requires { AreDistinctNames names.old }
    ensures names { OnOk result
        (AddsNames names.old (flat_map (retrieved topic.now) runs.now) names.new) }
    ensures numbers { IfOk result (λ numbers.
        AllZip (λ run each. AreRankedNumbers names.new (rows_on_topic run topic.now) each) runs.now
        (map (λ each. each.items) numbers.items)) }
{
    let mut numbers = Vec::with_capacity(alloc, runs.len())?;
    for run in runs {
        numbers.push(add_run(alloc, names, run, topic)?)?;
    }
    Ok(numbers)
}

/// The documents that the qrels list of topic `t` and that the runs retrieve on the topic of this name.
pub fn universe_of<'n>(
    alloc: Global,
    qrels: &'n Qrels,
    t: usize,
    runs: &'n [RankedRun],
    topic: &[u8],
) -> Result<Universe<'n>, Memory>
    requires { t < length qrels.now }
    ensures { IfOk result (λ universe.
        IsUniverseOf qrels.now t runs.now topic.now universe.pairs.items
        (map (λ each. each.items) universe.numbers.items)) }
{
    let mut names = listed_names(alloc, qrels, t)?;
    let numbers = add_runs(alloc, &mut names, runs, topic)?;
    let pairs = sorted(alloc, &names)?;
    Ok(Universe { pairs, numbers })
}
