// The pool of a depth on a topic, as a row of its documents.
ghost use Rattle.std.specs.Prelude.{◌≡◌, ℕ, ◌<◌, ◌||◌, false, All, length, map, take, slice_index_or, IfOk};
ghost use Rattle.desk_model.specs.Desk.{is_pooled};
ghost use Rattle.desk_model.specs.Pool.{docs_of};
ghost use Rattle.desk_model.specs.Ranking.{is_in};

use crate::desk::Desk;
use crate::ranking::Ranking;
use std::alloc::{AllocError, Global};

/// Whether each document of a topic is in the pool of a depth. It marks the first documents of each ranking, and looks
/// up none.
pub fn pool_of_topic(
    alloc: Global,
    desk: &Desk,
    topic: u32,
    depth: u32,
) -> Result<Vec<bool>, AllocError>
    requires { topic < length desk.now.topics }
    ensures { IfOk result (λ pool. pool.items ≡
        map (is_pooled desk.now topic depth) (docs_of desk.now topic)) }
{
    let mut pool = vec![in alloc; false; desk.topic(topic).doc_count() as usize]?;
    for run in 0..desk.run_count() {
        add_first(desk.ranking(run, topic), depth, &mut pool);
    }
    Ok(pool)
}

// Adds the documents that a ranking has at a depth or before.
fn add_first(ranking: &Ranking, depth: u32, pool: &mut [bool])
    requires { All (λ doc. doc < length pool.old) ranking.now }
    ensures count { length pool.new ≡ length pool.old }
    ensures each { (doc : ℕ) → doc < length pool.old →
        slice_index_or pool.new doc false ≡
        (slice_index_or pool.old doc false || is_in (take depth ranking.now) doc) }
{
    let docs = ranking.docs();
    let end = docs.len().min(depth as usize);
    for place in 0..end {
        pool[docs[place] as usize] = true;
    }
}
