ghost use Rattle.std.specs.Prelude.{◌≡◌, ℕ, ◌+◌, ◌<◌, ◌≤◌, Bool, List, length, drop, nat_lt, slice_index_or, if◌then◌else◌, None};
ghost use Rattle.desk_model.specs.Placed.{lookup, IsAscending};
ghost use Rattle.measure_core.specs.Ranks.{AreRanksIn};
ghost use Rattle.rprec.specs.Shared.{AreShared, counted, entered};
ghost use Rattle.rprec.specs.Walk.{IsCountedWalk, IsWalked};

use crate::known::KnownPair;
use desk_model::{Mark, Placed};
use topic_counts::pairs::passed;

/// A document in the middle of some, and 0 for none.
fn middle_document(places: &[Placed]) -> u32 {
    match places.get(places.len() / 2) {
        Some(placed) => placed.doc,
        None => 0,
    }
}

/// The places of the documents below one, and of the others.
fn cut(places: &[Placed], middle: u32) -> (&[Placed], &[Placed])
    requires { IsAscending places.now }
    ensures ascending_below { IsAscending result.0.now }
    ensures ascending_above { IsAscending result.1.now }
    ensures below { (doc : ℕ) →
        lookup result.0.now doc ≡ (if nat_lt doc middle then lookup places.now doc else None) }
    ensures above { (doc : ℕ) →
        lookup result.1.now doc ≡ (if nat_lt doc middle then None else lookup places.now doc) }
{
    places.split_at(places.partition_point(|placed| placed.doc < middle))
}

/// Counts a document that both runs may have up to a rank, from 1, if they do and it is unjudged. Whether it is decides
/// no jump here, as no processor could foresee it.
fn count(counts: &mut [u8], is_shared: bool, doc: u32, rank: u32, marks: &[Mark])
    requires low { 1 ≤ rank }
    requires high { rank ≤ length counts.old }
    requires known { doc < length marks.now }
    requires few { (place : ℕ) → slice_index_or counts.old place 0 ≤ 2 }
    ensures { counts.new ≡ counted marks.now is_shared doc rank counts.old }
{
    let unjudged = marks[doc as usize] == Mark::Unjudged;
    let place = rank as usize - 1;
    counts[place] = counts[place] + u8::from(is_shared & unjudged);
}

/// Counts the document of two places, if it is one unjudged document.
fn enter(counts: &mut [u8], x: Placed, y: Placed, marks: &[Mark])
    requires first_low { 1 ≤ x.rank }
    requires first_high { x.rank ≤ length counts.old }
    requires second_low { 1 ≤ y.rank }
    requires second_high { y.rank ≤ length counts.old }
    requires known { x.doc < length marks.now }
    requires few { (place : ℕ) → slice_index_or counts.old place 0 ≤ 2 }
    ensures { counts.new ≡ entered marks.now x y counts.old }
{
    count(counts, x.doc == y.doc, x.doc, x.rank.max(y.rank), marks);
}

/// Counts the documents of both that two walks have not come to.
fn walk(
    counts: &mut [u8],
    first: &[Placed],
    second: &[Placed],
    from_first: usize,
    from_second: usize,
    marks: &[Mark],
)
    requires first { from_first ≤ length first.now }
    requires second { from_second ≤ length second.now }
    requires walk { (part : ℕ → Bool) × (elsewhere : ℕ → Bool) × (xs : List ℕ) × (ys : List ℕ) ×
        IsCountedWalk marks.now part elsewhere xs ys (drop from_first first.now)
        (drop from_second second.now) counts.old }
    ensures { (part elsewhere : ℕ → Bool) (xs ys : List ℕ) →
        IsCountedWalk marks.now part elsewhere xs ys (drop from_first first.now)
        (drop from_second second.now) counts.old →
        IsWalked marks.now part elsewhere xs ys counts.new }
{
    let mut i = from_first;
    let mut j = from_second;
    while i < first.len() && j < second.len() {
        let x = first[i];
        let y = second[j];
        enter(counts, x, y, marks);
        i += passed(x, y);
        j += passed(y, x);
    }
}

/// Counts all documents of two runs, by two walks over the documents of both, since each step of one waits for the step
/// before it: one over the documents below a middle one, and one over the others.
#[inline(never)]
fn share_by_walks(known: &KnownPair, counts: &mut [u8])
    requires none { (place : ℕ) → slice_index_or counts.old place 0 ≡ 0 }
    requires first { length known.now.a.now ≤ length counts.old }
    requires second { length known.now.b.now ≤ length counts.old }
    ensures { AreShared known.now.marks.now known.now.a.now known.now.b.now counts.new }
{
    let marks = known.marks;
    let middle = middle_document(known.first_places);
    let (low, high) = cut(known.first_places, middle);
    let (other_low, other_high) = cut(known.second_places, middle);
    let mut i = 0;
    let mut j = 0;
    let mut k = 0;
    let mut l = 0;
    while i < low.len() && j < other_low.len() && k < high.len() && l < other_high.len() {
        let x = low[i];
        let y = other_low[j];
        enter(counts, x, y, marks);
        i += passed(x, y);
        j += passed(y, x);
        let x = high[k];
        let y = other_high[l];
        enter(counts, x, y, marks);
        k += passed(x, y);
        l += passed(y, x);
    }
    walk(counts, low, other_low, i, j, marks);
    walk(counts, high, other_high, k, l, marks);
}

/// Counts all documents of two runs, by one pass over the second run's documents, from the rank of each document in the
/// first, 0 for none.
fn share_by_ranks(known: &KnownPair, ranks: &[u32], counts: &mut [u8])
    requires ranks { AreRanksIn known.now.marks.now known.now.a.now ranks.now }
    requires none { (place : ℕ) → slice_index_or counts.old place 0 ≡ 0 }
    requires first { length known.now.a.now ≤ length counts.old }
    requires second { length known.now.b.now ≤ length counts.old }
    ensures { AreShared known.now.marks.now known.now.a.now known.now.b.now counts.new }
{
    let marks = known.marks;
    let docs = known.b;
    for place in 0..docs.len() {
        let doc = docs[place];
        let rank = ranks[doc as usize];
        count(counts, rank > 0, doc, rank.max(place as u32 + 1), marks);
    }
}

/// For each place of two runs, counts how many unjudged documents both have up to there, and not both before.
pub fn share(known: &KnownPair, counts: &mut [u8])
    requires none { (place : ℕ) → slice_index_or counts.old place 0 ≡ 0 }
    requires first { length known.now.a.now ≤ length counts.old }
    requires second { length known.now.b.now ≤ length counts.old }
    ensures { AreShared known.now.marks.now known.now.a.now known.now.b.now counts.new }
{
    match known.ranks {
        Some(ranks) => share_by_ranks(known, ranks, counts),
        None => share_by_walks(known, counts),
    }
}
