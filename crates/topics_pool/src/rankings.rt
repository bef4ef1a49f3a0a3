// What each run ranks on each topic.
ghost use Rattle.std.specs.Prelude.{◌≡◌, ◌<◌, [], ◌∷◌, ◌++◌, All, IfOk, OnOk, length, map, slice_index, slice_index_or, slice_set};
ghost use Rattle.std.specs.List.{AllZip};
ghost use Rattle.topics_pool.specs.Made.{AreDocsOf, IsRankingOf, AreRankingsOf, HaveOneMore};

use desk_model::{Memory, Ranking, TopicBook};
use std::alloc::{AllocError, Global};
use topic_universe::RankedRun;

// The places of numbers.
fn placed(alloc: Global, numbers: &[usize], places: &[u32]) -> Result<Vec<u32>, AllocError>
    requires { All (λ n. n < length places.now) numbers.now }
    ensures { IfOk result (λ docs. docs.items ≡ map (slice_index places.now) numbers.now) }
{
    let mut docs = Vec::with_capacity(alloc, numbers.len())?;
    for number in numbers {
        docs.push(places[*number])?;
    }
    Ok(docs)
}

fn topic_ranking(
    alloc: Global,
    run: &RankedRun,
    book: &TopicBook,
    numbers: &[usize],
    places: &[u32],
) -> Result<Ranking, Memory>
    requires { AreDocsOf run.now book.now places.now numbers.now }
    ensures { IfOk result (λ ranking. IsRankingOf run.now book.now ranking) }
{
    // The documents of the rows differ, and there are not too many.
    let _ = run.names_on(book.name());
    let docs = placed(alloc, numbers, places)?;
    Ok(Ranking::new(alloc, docs, book.doc_count())?)
}

// One more ranking of a run.
fn push_ranking(
    rankings: &mut [Vec<Ranking>],
    run: usize,
    ranking: Ranking,
) -> Result<(), AllocError>
    requires { run < length rankings.old }
    ensures { OnOk result (map (λ each. each.items) rankings.new ≡
        slice_set (map (λ each. each.items) rankings.old) run
        (slice_index_or (map (λ each. each.items) rankings.old) run [] ++ ranking ∷ [])) }
{
    rankings[run].push(ranking)?;
    Ok(())
}

/// One more ranking of each run: that of a topic, by the numbers of its documents and their places in the universe.
pub fn rank_topic(
    alloc: Global,
    runs: &[RankedRun],
    book: &TopicBook,
    numbers: &[Vec<usize>],
    places: &[u32],
    rankings: &mut [Vec<Ranking>],
) -> Result<(), Memory>
    requires docs { AllZip (λ run each. AreDocsOf run book.now places.now each) runs.now
        (map (λ each. each.items) numbers.now) }
    requires each { length rankings.old ≡ length runs.now }
    ensures { OnOk result (HaveOneMore runs.now book.now (map (λ each. each.items) rankings.old)
        (map (λ each. each.items) rankings.new)) }
{
    for r in 0..runs.len() {
        let ranking = topic_ranking(alloc, &runs[r], book, &numbers[r], places)?;
        push_ranking(rankings, r, ranking)?;
    }
    Ok(())
}

/// For each run no ranking yet, and room for one on each topic.
pub fn no_rankings(
    alloc: Global,
    runs: &[RankedRun],
    topics: usize,
) -> Result<Vec<Vec<Ranking>>, AllocError>
    ensures { IfOk result (λ rankings.
        AllZip (AreRankingsOf []) runs.now (map (λ each. each.items) rankings.items)) }
{
    let mut rankings = Vec::with_capacity(alloc, runs.len())?;
    for _run in runs {
        rankings.push(Vec::with_capacity(alloc, topics)?)?;
    }
    Ok(rankings)
}
