// Lists of the unjudged documents whose ranks in two rankings pass a test.
ghost use Rattle.std.specs.Prelude.{◌≡◌, ℕ, ◌+◌, ◌<◌, ◌≤◌, [], ◌∷◌, ◌++◌, ◌&&◌, Bool as Truth, false, nat_le, if◌then◌else◌, length, take, Option as Maybe, None, Some, OnOk};
ghost use Rattle.desk_model.specs.Completion.{with_picked};
ghost use Rattle.desk_model.specs.Mark.{is_unjudged};
ghost use Rattle.desk_model.specs.Placed.{lookup};
ghost use Rattle.measure_core.specs.Lists.{added_documents, passes_by_ranks, placed_documents};
ghost use Rattle.measure_core.specs.Worths.{rank_or_none};

use crate::marked::{MarkedPair, MarkedPlaces};
use crate::places::{rank_unless_after, rest};
use desk_model::{Mark, Memory, Placed};
use topic_counts::pairs::passed;

/// Which documents of the second of two rankings are listed, by their ranks in both.
pub trait RankTest {
    /// What `passes` answers.
    ghost test: { Self → Maybe ℕ → Maybe ℕ → Truth };

    /// Whether a document with these ranks is listed, from 1; 0 stands for that of an absent document.
    fn passes(&self, first: u32, second: u32) -> bool
        ensures { result ≡ test self.now (rank_or_none first) (rank_or_none second) };

    /// A document that the second ranking lacks is not listed.
    ghost absent: { (t : Self) (first : Maybe ℕ) → test t first None ≡ false };
}

/// Whether the document of a place in the second ranking is listed, by its rank in the first.
#[inline]
fn is_listed<T: RankTest>(test: &T, first: u32, place: Placed, mark: Mark) -> bool
    ensures { result ≡
        (is_unjudged mark && T.test test.now (rank_or_none first) (rank_or_none place.rank)) }
{
    (mark == Mark::Unjudged) & test.passes(first, place.rank)
}

/// Whether a walk goes on from the second of two places, and its document is listed.
#[inline]
fn lists_second<T: RankTest>(test: &T, x: Placed, y: Placed, mark: Mark) -> bool
    ensures { result ≡
        (nat_le y.doc x.doc &&
        (is_unjudged mark &&
        T.test test.now (if nat_le x.doc y.doc then rank_or_none x.rank else None)
        (rank_or_none y.rank))) }
{
    let listed = is_listed(test, rank_unless_after(x, y), y, mark);
    (y.doc <= x.doc) & listed
}

/// Writes a document after the first ones of a list, and answers how many these are then: one more if it is listed. No
/// jump depends on that, which no processor foresees.
#[inline]
fn put(docs: &mut [u32], count: usize, doc: u32, is_listed: bool) -> usize
    requires { count < length docs.old }
    ensures first { take result docs.new ≡
        (if is_listed then take count docs.old ++ doc ∷ [] else take count docs.old) }
    ensures count { result ≡ count + (if is_listed then 1 else 0) }
    ensures size { length docs.new ≡ length docs.old }
{
    docs[count] = doc;
    count + usize::from(is_listed)
}

/// Writes the unjudged documents of some places that are listed where the first ranking lacks them after the first ones of
/// a list, and answers how many these are then.
fn put_rest<T: RankTest>(test: &T, marked: &MarkedPlaces, docs: &mut [u32], before: usize) -> usize
    requires { before + length marked.now.places.now ≤ length docs.old }
    ensures first { take result docs.new ≡ take before docs.old ++
        placed_documents marked.now.marks.now (λ place. T.test test.now None (Some place.rank))
        marked.now.places.now }
    ensures size { length docs.new ≡ length docs.old }
{
    let marks = marked.marks;
    let mut count = before;
    for place in marked.places {
        let is_listed = is_listed(test, 0, *place, marks[place.doc as usize]);
        count = put(docs, count, place.doc, is_listed);
    }
    count
}

/// Writes the unjudged documents of the second of two lists of places that are listed by their ranks in both, ascending,
/// after the first ones of a list, by one walk over both, and answers how many these are then.
fn put_places<T: RankTest>(
    test: &T,
    one: &MarkedPlaces,
    other: &MarkedPlaces,
    docs: &mut [u32],
    before: usize,
) -> usize
    requires { before + length other.now.places.now ≤ length docs.old }
    ensures first { take result docs.new ≡ take before docs.old ++
        placed_documents other.now.marks.now (λ place.
        T.test test.now (lookup one.now.places.now place.doc) (Some place.rank)) other.now.places.now }
    ensures size { length docs.new ≡ length docs.old }
{
    let first = one.places;
    let second = other.places;
    let marks = other.marks;
    let mut count = before;
    let mut i = 0;
    let mut j = 0;
    while i < first.len() && j < second.len() {
        let x = first[i];
        let y = second[j];
        let is_listed = lists_second(test, x, y, marks[y.doc as usize]);
        count = put(docs, count, y.doc, is_listed);
        i += passed(x, y);
        j += passed(y, x);
    }
    let left = MarkedPlaces {
        places: rest(second, j),
        marks,
    };
    put_rest(test, &left, docs, count)
}

/// Appends the unjudged documents of the second of two lists of places that are listed by their ranks in both, ascending,
/// by one walk over both.
pub fn push_places<T: RankTest>(
    test: &T,
    first: &MarkedPlaces,
    second: &MarkedPlaces,
    docs: &mut Vec<u32>,
) -> Result<(), Memory>
    ensures { OnOk result (docs.new.items ≡ docs.old.items ++
        placed_documents second.now.marks.now (λ place.
        T.test test.now (lookup first.now.places.now place.doc) (Some place.rank))
        second.now.places.now) }
{
    let before = docs.len();
    docs.resize(before + second.places.len(), 0)?;
    let count = put_places(test, first, second, docs, before);
    docs.truncate(count);
    Ok(())
}

/// Appends the unjudged documents of b whose ranks in a and in b pass a test, ascending, by one walk over both in order
/// of the documents.
///
/// # Errors
/// `Memory`: out of memory. It is then not known what `docs` holds.
pub fn push_by_ranks<T: RankTest>(
    test: &T,
    pair: &MarkedPair,
    docs: &mut Vec<u32>,
) -> Result<(), Memory>
    ensures { OnOk result (docs.new.items ≡ docs.old.items ++
        added_documents pair.now.marks.now
        (with_picked pair.now.marks.now (passes_by_ranks (T.test test.now) pair.now.a.now pair.now.b.now))) }
{
    let first = MarkedPlaces {
        places: pair.a.by_doc(),
        marks: pair.marks,
    };
    let second = MarkedPlaces {
        places: pair.b.by_doc(),
        marks: pair.marks,
    };
    push_places(test, &first, &second, docs)
}
