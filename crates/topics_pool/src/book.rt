// The topics of a desk.
ghost use Rattle.std.specs.Prelude.{◌≡◌, ◌≤◌, ◌<◌, ◌*◌, ◌/◌, [], true, All, Some, IfOk, length, map, position, take};
ghost use Rattle.std.specs.List.{AllZip, IsDistinct};
ghost use Rattle.std.specs.Str.{bytes_eq};
ghost use Rattle.desk_model.specs.Name.{is_name};
ghost use Rattle.desk_model.specs.Book.{IsBook};
ghost use Rattle.desk_model.specs.FileGrades.{grades_of, AreWhole};
ghost use Rattle.name_table.specs.declared.blocked_names.TheConstants.{BLOCK_NAMES};
ghost use Rattle.file_rows.specs.Grouped.{rows_at, names_of};
ghost use Rattle.run_reader.specs.declared.limits.TheConstants.{MOST_RUN_ROWS};
ghost use Rattle.topic_universe.specs.Names.{AreDistinctNames, AreAmong};
ghost use Rattle.topics_pool.specs.Rows.{grade_in, total_rows, topic_names, IsBookOf};
ghost use Rattle.topics_pool.specs.Made.{AreBooksOf, AreRankingsOf, HaveOneMore, IsNumberedAfter, book_over};

use crate::rankings::rank_topic;
use crate::runs::forget_topic;
use desk_model::{BlockedGrades, Memory, Name, Ranking, TopicBook};
use file_rows::NameIndex;
use name_table::BLOCK_NAMES;
use qrels_reader::Qrels;
use std::alloc::{AllocError, Global};
use topic_universe::{Numbered, RankedRun, ascending, in_blocks, places, universe_of};

// The grade that topic `t` of the qrels gives a document, where it lists it: its documents have the first numbers.
fn listed_grade(qrels: &Qrels, t: usize, doc: &Numbered<'_>) -> Option<i32>
    requires topic { t < length qrels.now }
    requires number { IsNumberedAfter (rows_at qrels.now t) doc.now.0.now doc.now.1 }
    ensures { result ≡ grade_in (rows_at qrels.now t) doc.now.0.now }
{
    let place = doc.number();
    if place < qrels.doc_count(t) {
        Some(qrels.grade(t, place))
    } else {
        None
    }
}

fn listed_grades(
    alloc: Global,
    qrels: &Qrels,
    t: usize,
    docs: &[Numbered<'_>],
) -> Result<Vec<Option<i32>>, AllocError>
    requires topic { t < length qrels.now }
    requires numbers { All (λ doc. IsNumberedAfter (rows_at qrels.now t) doc.0.now doc.1) docs.now }
    ensures { IfOk result (λ grades. grades.items ≡
        map (λ doc. grade_in (rows_at qrels.now t) doc.0.now) docs.now) }
{
    let mut grades = Vec::with_capacity(alloc, docs.len())?;
    for doc in docs {
        grades.push(listed_grade(qrels, t, doc))?;
    }
    Ok(grades)
}

// The grades of all whole blocks of the documents.
fn whole_blocks(
    alloc: Global,
    qrels: &Qrels,
    t: usize,
    docs: &[Numbered<'_>],
) -> Result<Vec<Vec<Option<i32>>>, AllocError>
    requires topic { t < length qrels.now }
    requires numbers { All (λ doc. IsNumberedAfter (rows_at qrels.now t) doc.0.now doc.1) docs.now }
    ensures count { IfOk result (λ blocks. length blocks.items ≡ length docs.now / BLOCK_NAMES) }
    ensures whole { IfOk result (λ blocks. AreWhole blocks.items) }
    ensures grades { IfOk result (λ blocks. grades_of blocks.items ≡
        map (λ doc. grade_in (rows_at qrels.now t) doc.0.now)
        (take (BLOCK_NAMES * length blocks.items) docs.now)) }
{
    let mut blocks = Vec::with_capacity(alloc, docs.len() / BLOCK_NAMES)?;
    for block in 0..docs.len() / BLOCK_NAMES {
        let start = BLOCK_NAMES * block;
        blocks.push(listed_grades(alloc, qrels, t, &docs[start..start + BLOCK_NAMES])?)?;
    }
    Ok(blocks)
}

fn grades_in_blocks(
    alloc: Global,
    qrels: &Qrels,
    t: usize,
    docs: &[Numbered<'_>],
) -> Result<BlockedGrades, AllocError>
    requires topic { t < length qrels.now }
    requires numbers { All (λ doc. IsNumberedAfter (rows_at qrels.now t) doc.0.now doc.1) docs.now }
    ensures { IfOk result (λ grades. grades ≡
        map (λ doc. grade_in (rows_at qrels.now t) doc.0.now) docs.now) }
{
    let whole = whole_blocks(alloc, qrels, t, docs)?;
    let last = listed_grades(alloc, qrels, t, &docs[BLOCK_NAMES * whole.len()..])?;
    Ok(BlockedGrades::of(whole, last))
}

// The topic of this name over the names of some pairs, with the grades of topic `t` of the qrels.
fn graded_book(
    alloc: Global,
    qrels: &Qrels,
    t: usize,
    name: &[u8],
    pairs: &[Numbered<'_>],
) -> Result<TopicBook, Memory>
    requires topic { t < length qrels.now }
    requires numbers { All (λ pair. IsNumberedAfter (rows_at qrels.now t) pair.0.now pair.1)
        pairs.now }
    requires book { IsBook (book_over qrels.now t name.now (map (λ pair. pair.0.now) pairs.now)) }
    ensures { IfOk result (λ book. book ≡
        book_over qrels.now t name.now (map (λ pair. pair.0.now) pairs.now)) }
{
    let docs = in_blocks(alloc, pairs)?;
    let grades = grades_in_blocks(alloc, qrels, t, pairs)?;
    Ok(TopicBook::of_blocks(Name::copy_of(alloc, name)?, docs, grades))
}

// The topic of this name, which is topic `t` of the qrels. Each run gets its ranking.
fn topic_book(
    alloc: Global,
    qrels: &Qrels,
    t: usize,
    name: &[u8],
    runs: &[RankedRun],
    rankings: &mut [Vec<Ranking>],
) -> Result<TopicBook, Memory>
    requires place { position (bytes_eq name.now) (names_of qrels.now) ≡ Some t }
    requires named { is_name name.now ≡ true }
    requires rows { total_rows runs.now ≤ MOST_RUN_ROWS }
    requires each { length rankings.old ≡ length runs.now }
    ensures name { IfOk result (λ book. book.name ≡ name.now) }
    ensures book { IfOk result (λ book. IsBook book) }
    ensures of_rows { IfOk result (IsBookOf qrels.now runs.now) }
    ensures ranked { IfOk result (λ book.
        HaveOneMore runs.now book (map (λ each. each.items) rankings.old)
        (map (λ each. each.items) rankings.new)) }
{
    // The number of rows is within its limit.
    let _ = qrels.rows();
    let universe = universe_of(alloc, qrels, t, runs, name)?;
    let book = graded_book(alloc, qrels, t, name, &universe.pairs)?;
    let places = places(alloc, &universe.pairs)?;
    rank_topic(alloc, runs, &book, &universe.numbers, &places, rankings)?;
    Ok(book)
}

fn qrels_topics(alloc: Global, qrels: &Qrels) -> Result<NameIndex<'_>, AllocError>
    ensures topics { IfOk result (λ names. names ≡ names_of qrels.now) }
    ensures names { IfOk result (λ names. AreDistinctNames names) }
{
    let mut names = NameIndex::new(alloc);
    for t in 0..qrels.topics() {
        names.add(qrels.topic_name(t))?;
    }
    Ok(names)
}

// The topics with these names. Each run gets its ranking of each, and gives back its rows on it.
fn books_of(
    alloc: Global,
    qrels: &Qrels,
    topics: &NameIndex<'_>,
    names: &[Name],
    runs: &mut [RankedRun],
    rankings: &mut [Vec<Ranking>],
) -> Result<Vec<TopicBook>, Memory>
    requires topics { topics.now ≡ names_of qrels.now }
    requires names { AreAmong names.now topics.now }
    requires distinct { IsDistinct bytes_eq names.now }
    requires rows { total_rows runs.old ≤ MOST_RUN_ROWS }
    requires none { AllZip (AreRankingsOf []) runs.old (map (λ each. each.items) rankings.old) }
    ensures names { IfOk result (λ books. topic_names books.items ≡ names.now) }
    ensures books { IfOk result (λ books. All (λ book. IsBook book) books.items) }
    ensures of_rows { IfOk result (λ books. All (IsBookOf qrels.now runs.old) books.items) }
    ensures rankings { IfOk result (λ books.
        AllZip (AreRankingsOf books.items) runs.old (map (λ each. each.items) rankings.new)) }
{
    let mut books = Vec::with_capacity(alloc, names.len())?;
    for name in names {
        let Some(t) = topics.place(name.as_bytes()) else {
            unreachable!()
        };
        books.push(topic_book(alloc, qrels, t, name.as_bytes(), runs, rankings)?)?;
        forget_topic(alloc, runs, name.as_bytes());
    }
    Ok(books)
}

/// The topics of the qrels in ascending order of their names, each with its universe. Each run gets its ranking of each. A run
/// gives back its rows on a topic as soon as the topic has its universe and its rankings, so that the desk grows as the rows go.
pub fn topic_books(
    alloc: Global,
    qrels: &Qrels,
    runs: &mut [RankedRun],
    rankings: &mut [Vec<Ranking>],
) -> Result<Vec<TopicBook>, Memory>
    requires rows { total_rows runs.old ≤ MOST_RUN_ROWS }
    requires none { AllZip (AreRankingsOf []) runs.old (map (λ each. each.items) rankings.old) }
    ensures books { IfOk result (λ books. AreBooksOf qrels.now runs.old books.items) }
    ensures rankings { IfOk result (λ books.
        AllZip (AreRankingsOf books.items) runs.old (map (λ each. each.items) rankings.new)) }
{
    let topics = qrels_topics(alloc, qrels)?;
    let names = ascending(alloc, &topics)?;
    books_of(alloc, qrels, &topics, &names, runs, rankings)
}
