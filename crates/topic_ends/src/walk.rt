// A walk over the documents of two rankings, ascending by document.
ghost use Rattle.std.specs.Prelude.{◌≡◌, ◌↔◌, ℕ, ◌+◌, ◌<◌, ◌≤◌, IsTrue, List, Some, length};
ghost use Rattle.desk_model.specs.Ranking.{rank};
ghost use Rattle.measure_laws.specs.Ranks.{earlier};
ghost use Rattle.topic_ends.specs.Walk.{AreFrom, first_of};

use crate::ranks::earlier_of;
use desk_model::Placed;

/// The first document of some places.
fn first_document(places: &[Placed]) -> Option<u32>
    ensures { result ≡ first_of places.now }
{
    match places.first() {
        Some(place) => Some(place.doc),
        None => None,
    }
}

/// The first document of the places of either of two rankings.
pub fn next_document(first: &[Placed], second: &[Placed]) -> Option<u32>
    ensures { result ≡ earlier (first_of first.now) (first_of second.now) }
{
    earlier_of(first_document(first), first_document(second))
}

/// The rank of a document in a ranking, by the places of its documents from that one on.
pub fn next_rank(places: &[Placed], doc: u32) -> Option<u32>
    ensures { (docs : List ℕ) → AreFrom doc docs places.now → result ≡ rank docs doc }
{
    if !places.is_empty() && places[0].doc == doc {
        Some(places[0].rank)
    } else {
        None
    }
}

/// Whether the first of some places is that of a document.
fn begins_with(places: &[Placed], doc: u32) -> bool
    ensures { IsTrue result ↔ (first_of places.now ≡ Some doc) }
{
    !places.is_empty() && places[0].doc == doc
}

/// The places of the documents after one, by those from it on. No branch depends on which document comes first.
pub fn after(places: &[Placed], doc: u32) -> &[Placed]
    ensures from { (docs : List ℕ) → AreFrom doc docs places.now →
        AreFrom (doc + 1) docs result.now }
    ensures shorter { length result.now ≤ length places.now }
    ensures taken { first_of places.now ≡ Some doc → length result.now < length places.now }
{
    let passed = usize::from(begins_with(places, doc));
    &places[passed..]
}
