ghost use Rattle.std.specs.Prelude.{◌≡◌, ℕ, ◌≤◌, length, nat_eq, IfOk, IfSome};
ghost use Rattle.std.specs.List.{IsDistinct};
ghost use Rattle.std.specs.List.Sorted.{IsPermutation};
ghost use Rattle.desk_model.specs.Limits.{RANK_LIMIT};
ghost use Rattle.desk_model.specs.Ranking.{IsRanking, rank};
ghost use Rattle.desk_model.specs.Placed.{lookup, IsAscending, placed_from};

use crate::placed::Placed;
use desk_memory::Memory;
use std::alloc::{AllocError, Global};
use std::marker::Model;

/// The documents of a run on a topic by their numbers, the best first.
#[derive(Drop)]
pub struct Ranking {
    docs: Vec<u32>,
    // The same documents with their ranks, ascending by document.
    by_doc: Vec<Placed>,
}

impl Model for Ranking {
    ghost use Rattle.std.specs.Prelude.{List, ℕ};
    ghost use Rattle.desk_model.specs.Placed.{KeepsPlaces};

    ghost Value = { List ℕ };

    ghost view = { λ r. r.docs.items };

    ghost invariant = { λ r. KeepsPlaces r.docs.items r.by_doc.items };
}

impl Ranking {
    /// The ranking that lists these documents, the best first. Ranks count from 1.
    pub fn new(alloc: Global, docs: Vec<u32>, universe: u32) -> Result<Ranking, Memory>
        requires { IsRanking universe docs.items }
        ensures { IfOk result (λ ranking. ranking ≡ docs.items) }
    {
        let _ = universe;
        let by_doc = by_document(alloc, &docs)?;
        Ok(Ranking { docs, by_doc })
    }

    /// The documents, the best first.
    pub fn docs(&self) -> &[u32]
        ensures docs { result.now ≡ self.now }
        ensures short { length self.now ≤ RANK_LIMIT }
        ensures distinct { IsDistinct nat_eq self.now }
    {
        &self.docs
    }

    /// The documents with their ranks, ascending by document.
    pub fn by_doc(&self) -> &[Placed]
        ensures ascending { IsAscending result.now }
        ensures ranks { (doc : ℕ) → lookup result.now doc ≡ rank self.now doc }
    {
        &self.by_doc
    }

    /// The rank of a document, from 1, and `None` exactly where it is not in the ranking.
    pub fn rank_of(&self, doc: u32) -> Option<u32>
        ensures { result ≡ rank self.now doc }
    {
        let by_doc: &[Placed] = &self.by_doc;
        let found = by_doc.binary_search_by_key(&doc, |placed| placed.doc);
        match found {
            Ok(at) => Some(by_doc[at].rank),
            Err(_) => None,
        }
    }
}

fn placed(alloc: Global, docs: &[u32]) -> Result<Vec<Placed>, AllocError>
    requires { length docs.now ≤ RANK_LIMIT }
    ensures { IfOk result (λ places. places.items ≡ placed_from 1 docs.now) }
{
    let mut places = Vec::with_capacity(alloc, docs.len())?;
    let mut rank = 1;
    for doc in docs {
        places.push(Placed { doc: *doc, rank })?;
        rank += 1;
    }
    Ok(places)
}

fn by_document(alloc: Global, docs: &[u32]) -> Result<Vec<Placed>, AllocError>
    requires short { length docs.now ≤ RANK_LIMIT }
    requires distinct { IsDistinct nat_eq docs.now }
    ensures ascending { IfOk result (λ places. IsAscending places.items) }
    ensures moved { IfOk result (λ places. IsPermutation (placed_from 1 docs.now) places.items) }
{
    let mut places = placed(alloc, docs)?;
    places.sort_unstable_by_key(|each| each.doc);
    Ok(places)
}
