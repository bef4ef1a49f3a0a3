// Lists of the unjudged documents that the greedy choice makes relevant, and counts of these documents.
ghost use Rattle.std.specs.Prelude.{◌≡◌, ◌≤◌, ◌++◌, length, OnOk};
ghost use Rattle.measure_laws.specs.RprecCase.{greedy_truth};
ghost use Rattle.measure_core.specs.Lists.{added_documents, AreCounted, HaveRoomFor};
ghost use Rattle.rprec.specs.Greedy.{AreTopic};
ghost use Rattle.rprec.specs.Picks.{others, AreWanted};

use crate::values::Wanted;
use desk_model::Memory;
use marked_lists::{More, count_neutral, count_own, push_own_and_more, push_own_marked};
use measure_core::{MarkedPair, RankedPair};
use std::alloc::Global;
use topic_counts::counts::Counts;

/// Appends the unjudged documents that the greedy choice makes relevant where a topic is to have so many relevant ones,
/// ascending: the first of the second run's own ones, and where those are too few all of them and some of the others.
pub fn push_chosen(
    alloc: Global,
    count: u32,
    wanted: Wanted,
    pair: &MarkedPair,
    docs: &mut Vec<u32>,
) -> Result<(), Memory>
    requires { AreWanted pair.now.marks.now pair.now.a.now pair.now.b.now count wanted }
    ensures { OnOk result (docs.new.items ≡ docs.old.items ++
        added_documents pair.now.marks.now
        (greedy_truth pair.now.marks.now pair.now.a.now pair.now.b.now count)) }
{
    if wanted.both > 0 {
        let others = More {
            both: wanted.both,
            first: wanted.first,
        };
        return push_own_and_more(count, others, pair, docs);
    }
    let start = docs.len();
    push_own_marked(alloc, count, pair.a, pair.b, pair.marks, docs)?;
    docs.truncate(start + wanted.second as usize);
    Ok(())
}

/// Counts the first unjudged documents beside the second run's own ones, so many as are wanted: of those that both or
/// neither have among their first k, and then of the first run's own. It answers how many they are.
fn count_others(k: u32, wanted: u32, ranked: &RankedPair, counts: &mut [u32]) -> u32
    requires size { length counts.old ≡ length ranked.now.marks.now }
    requires room { HaveRoomFor counts.old
        (others k wanted ranked.now.marks.now ranked.now.a.now ranked.now.b.now) }
    ensures count { result ≡
        length (others k wanted ranked.now.marks.now ranked.now.a.now ranked.now.b.now) }
    ensures counts { AreCounted counts.old
        (others k wanted ranked.now.marks.now ranked.now.a.now ranked.now.b.now) counts.new }
{
    let both = count_neutral(k, wanted, ranked, counts);
    if both == wanted {
        return both;
    }
    let swapped = RankedPair {
        a: ranked.b,
        b: ranked.a,
        marks: ranked.marks,
        first: ranked.second,
        second: ranked.first,
    };
    both + count_own(k, wanted - both, &swapped, counts)
}

/// Counts the unjudged documents that the greedy choice makes relevant where a topic is to have so many relevant ones,
/// and answers how many they are.
pub fn count_chosen(count: u32, ranked: &RankedPair, all: Counts, counts: &mut [u32]) -> u32
    requires topic { AreTopic ranked.now.marks.now all }
    requires low { all.relevant ≤ count }
    requires size { length counts.old ≡ length ranked.now.marks.now }
    requires room { HaveRoomFor counts.old
        (added_documents ranked.now.marks.now
        (greedy_truth ranked.now.marks.now ranked.now.a.now ranked.now.b.now count)) }
    ensures count { result ≡
        length (added_documents ranked.now.marks.now
        (greedy_truth ranked.now.marks.now ranked.now.a.now ranked.now.b.now count)) }
    ensures counts { AreCounted counts.old
        (added_documents ranked.now.marks.now
        (greedy_truth ranked.now.marks.now ranked.now.a.now ranked.now.b.now count)) counts.new }
{
    let chosen = count - all.relevant;
    let own = count_own(count, chosen, ranked, counts);
    own + count_others(count, chosen - own, ranked, counts)
}
