//! How often the lists of the documents that the cases of pairs of runs add on a topic have each document, by the sums of
//! each run.
ghost use Rattle.std.specs.Prelude.{◌≡◌, ◌+◌, ◌≤◌, ◌++◌, All, length, map, IfOk, OnOk};
ghost use Rattle.desk_model.specs.declared.types.MeasureName.TheVariants.{RPrecision as R};
ghost use Rattle.measure_laws.specs.RprecCase.{rprec_count, rprec_truth};
ghost use Rattle.measure_core.specs.Lists.{added_documents, AreCounted, HaveRoomFor};
ghost use Rattle.measure_core.specs.PairLists.{pair_documents, sizes_on, IsOfRuns};
ghost use Rattle.measure_core.specs.Pairs.{runs_on};
ghost use Rattle.measure_core.specs.Ranks.{AreRanksIn, AreRunSums, AreTopicCounts};
ghost use Rattle.measure_core.specs.Rooms.{IsRoomFor};
ghost use Rattle.rprec.specs.Blocks.{AreBlockSums};

use crate::extremes::Extremes;
use crate::known::{KnownPair, SummedPair};
use crate::lists::count_chosen;
use crate::prefixes::MarkedDocs;
use crate::room::find;
use crate::sums::sums_of_run;
use desk_model::Memory;
use measure_core::{ListRoom, ListSizes, MarkedRankings, RankedPair, RunPair, RunSums};
use std::alloc::Global;
use topic_counts::counts::Counts;

/// The least candidates of two runs and of the swapped runs, from the rank of each document in the first.
fn extremes_of(summed: &SummedPair, ranks: &[u32], all: Counts) -> Extremes
    requires ranks { AreRanksIn summed.now.marks.now summed.now.a.now ranks.now }
    requires all { AreTopicCounts summed.now.marks.now all }
    ensures least { result.least.candidate.count ≡
        rprec_count summed.now.marks.now summed.now.a.now summed.now.b.now }
    ensures most { result.most.candidate.count ≡
        rprec_count summed.now.marks.now summed.now.b.now summed.now.a.now }
    ensures least_low { all.relevant ≤ result.least.candidate.count }
    ensures most_low { all.relevant ≤ result.most.candidate.count }
{
    find(&KnownPair {
        a: summed.a.docs(),
        b: summed.b.docs(),
        marks: summed.marks,
        first_places: summed.a.by_doc(),
        second_places: summed.b.by_doc(),
        ranks: Some(ranks),
        first: summed.first,
        second: summed.second,
        all,
    })
}

/// Counts the unjudged documents that the least cases of two runs and of the swapped runs make relevant, and answers how
/// many these are.
pub fn count_cases(summed: &SummedPair, room: &mut ListRoom, counts: &mut [u32]) -> ListSizes
    requires kept { IsRoomFor summed.now.marks.now summed.now.a.now room.old }
    requires size { length counts.old ≡ length summed.now.marks.now }
    requires room { HaveRoomFor counts.old
        (added_documents summed.now.marks.now
        (rprec_truth summed.now.marks.now summed.now.a.now summed.now.b.now) ++
        added_documents summed.now.marks.now
        (rprec_truth summed.now.marks.now summed.now.b.now summed.now.a.now)) }
    ensures kept { IsRoomFor summed.now.marks.now summed.now.a.now room.new }
    ensures least { result.least ≡
        length (added_documents summed.now.marks.now
        (rprec_truth summed.now.marks.now summed.now.a.now summed.now.b.now)) }
    ensures most { result.most ≡
        length (added_documents summed.now.marks.now
        (rprec_truth summed.now.marks.now summed.now.b.now summed.now.a.now)) }
    ensures counts { AreCounted counts.old
        (added_documents summed.now.marks.now
        (rprec_truth summed.now.marks.now summed.now.a.now summed.now.b.now) ++
        added_documents summed.now.marks.now
        (rprec_truth summed.now.marks.now summed.now.b.now summed.now.a.now)) counts.new }
{
    let all = room.all;
    let extremes = extremes_of(summed, &room.first, all);
    room.set_second(summed.b);
    let ranked = RankedPair {
        a: summed.a,
        b: summed.b,
        marks: summed.marks,
        first: &room.first,
        second: &room.second,
    };
    let least = count_chosen(extremes.least.candidate.count, &ranked, all, counts);
    let swapped = RankedPair {
        a: summed.b,
        b: summed.a,
        marks: summed.marks,
        first: &room.second,
        second: &room.first,
    };
    let most = count_chosen(extremes.most.candidate.count, &swapped, all, counts);
    ListSizes { least, most }
}

/// The sums of each run, by its number.
///
/// # Errors
/// `Memory`: out of memory.
fn sums_of_runs(alloc: Global, on: &MarkedRankings) -> Result<Vec<RunSums>, Memory>
    ensures each { IfOk result (λ sums.
        AreRunSums (AreBlockSums on.now.marks.now) on.now.rankings.now sums.items) }
    ensures count { IfOk result (λ sums. length sums.items ≡ runs_on on.now.rankings.now) }
{
    let mut sums = vec![in alloc; RunSums::NONE; on.rankings.runs() as usize]?;
    for run in 0..on.rankings.runs() {
        let marked = MarkedDocs {
            docs: on.rankings.ranking(run).docs(),
            marks: on.marks,
        };
        sums[run as usize] = sums_of_run(&marked);
    }
    Ok(sums)
}

/// Counts the documents of the lists of pairs, each once more for each list that has it, and answers the sizes of the
/// two lists of each pair. The sums of each run are found once.
///
/// # Errors
/// `Memory`: out of memory. It is then not known what is counted.
pub fn count_by_sums(
    alloc: Global,
    on: &MarkedRankings,
    pairs: &[RunPair],
    counts: &mut [u32],
) -> Result<Vec<ListSizes>, Memory>
    requires pairs { All (IsOfRuns (runs_on on.now.rankings.now)) pairs.now }
    requires size { length counts.old ≡ length on.now.marks.now }
    requires room { HaveRoomFor counts.old
        (pair_documents R on.now.marks.now on.now.rankings.now pairs.now) }
    ensures sizes { IfOk result (λ sizes. sizes.items ≡
        map (sizes_on R on.now.marks.now on.now.rankings.now) pairs.now) }
    ensures counts { OnOk result
        (AreCounted counts.old (pair_documents R on.now.marks.now on.now.rankings.now pairs.now)
        counts.new) }
{
    let marks = on.marks;
    let rankings = on.rankings;
    let sums = sums_of_runs(alloc, on)?;
    let mut room = ListRoom::new(alloc, marks)?;
    let mut first = None;
    let mut sizes = Vec::with_capacity(alloc, pairs.len())?;
    for pair in pairs {
        let a = rankings.ranking(pair.first);
        let b = rankings.ranking(pair.second);
        room.change_first(&mut first, pair.first, a);
        let summed = SummedPair {
            a,
            b,
            marks,
            first: &sums[pair.first as usize],
            second: &sums[pair.second as usize],
        };
        sizes.push(count_cases(&summed, &mut room, counts))?;
    }
    Ok(sizes)
}
