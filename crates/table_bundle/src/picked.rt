// The documents that claims pick, by one flag for each document of a topic.
ghost use Rattle.std.specs.Prelude.{◌≡◌, ◌<◌, ◌||◌, ℕ, All, false, length, slice_index_or, IfOk};
ghost use Rattle.desk_model.specs.Ranking.{is_in};
ghost use Rattle.table_bundle.specs.Drafts.{is_picked_by, picks_document, PicksBelow};

use desk_model::Memory;
use order_bundle::{PairClaim, PairEvidence};
use std::alloc::Global;

// Flags the documents of a list.
fn flag_list(flags: &mut [bool], list: &[u32])
    requires { All (λ doc. doc < length flags.old) list.now }
    ensures flags { (doc : ℕ) → doc < length flags.old →
        slice_index_or flags.new doc false ≡
        (slice_index_or flags.old doc false || is_in list.now doc) }
    ensures count { length flags.new ≡ length flags.old }
{
    for doc in list {
        flags[*doc as usize] = true;
    }
}

// Flags the documents that a claim picks on a topic.
fn flag_claim(flags: &mut [bool], claim: &PairClaim, topic: u32)
    requires { PicksBelow topic (length flags.old) claim.now.evidence }
    ensures flags { (doc : ℕ) → doc < length flags.old →
        slice_index_or flags.new doc false ≡
        (slice_index_or flags.old doc false || picks_document topic doc claim.now.evidence) }
    ensures count { length flags.new ≡ length flags.old }
{
    if let PairEvidence::Open(picks) = &claim.evidence {
        let lists = &picks.as_slice()[topic as usize];
        flag_list(flags, lists.low.as_slice());
        flag_list(flags, lists.high.as_slice());
    }
}

/// A flag for each document of a topic: whether some claim picks it.
pub fn picked(
    alloc: Global,
    claims: &[PairClaim],
    topic: u32,
    docs: u32,
) -> Result<Vec<bool>, Memory>
    requires { All (λ claim. PicksBelow topic docs claim.evidence) claims.now }
    ensures count { IfOk result (λ flags. length flags.items ≡ docs) }
    ensures flags { IfOk result (λ flags. (doc : ℕ) → doc < docs →
        slice_index_or flags.items doc false ≡ is_picked_by claims.now topic doc) }
{
    let mut flags = vec![in alloc; false; docs as usize]?;
    for claim in claims {
        flag_claim(&mut flags, claim, topic);
    }
    Ok(flags)
}
