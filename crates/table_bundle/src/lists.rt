// The documents that the least and the most case of two runs make relevant, by their numbers.
ghost use Rattle.std.specs.Prelude.{◌≡◌, map, IfOk};
ghost use Rattle.desk_model.specs.Desk.{topics_under};
ghost use Rattle.measure_laws.specs.Cases.{least_truth};
ghost use Rattle.measure_core.specs.Laws.{AreMet};
ghost use Rattle.measure_core.specs.Lists.{added_documents};
ghost use Rattle.table_bundle.specs.Drafts.{picks_on};

use crate::standing_table::StandingPair;
use desk_model::{Mark, Memory, Ranking};
use measure_core::Measure;
use order_bundle::{PairPicks, PickList, Picks};
use std::alloc::Global;

// A list of some documents, with no more room than it needs.
fn copied(alloc: Global, docs: &[u32]) -> Result<PickList, Memory>
    ensures { IfOk result (λ picks. picks ≡ docs.now) }
{
    let mut picks = Vec::with_capacity(alloc, docs.len())?;
    picks.extend_from_slice(docs)?;
    Ok(PickList::new(picks))
}

// Those of the least and of the most case of two rankings, found in two lists whose contents are anything.
fn picks<M: Measure>(
    alloc: Global,
    measure: &M,
    a: &Ranking,
    b: &Ranking,
    marks: &[Mark],
    least: &mut Vec<u32>,
    most: &mut Vec<u32>,
) -> Result<Picks, Memory>
    requires { AreMet marks.now a.now b.now }
    ensures low { IfOk result (λ picks. picks.low ≡
        added_documents marks.now (least_truth (M.measured measure.now) marks.now a.now b.now)) }
    ensures high { IfOk result (λ picks. picks.high ≡
        added_documents marks.now (least_truth (M.measured measure.now) marks.now b.now a.now)) }
{
    least.clear();
    most.clear();
    measure.push_both_docs(alloc, a, b, marks, least, most)?;
    let low = copied(alloc, least)?;
    let high = copied(alloc, most)?;
    Ok(Picks { low, high })
}

impl<'s, 'a, M: Measure> StandingPair<'s, 'a, M> {
    /// The documents of the least and of the most case of the two runs on each topic.
    pub fn picks(&self, alloc: Global) -> Result<PairPicks, Memory>
        ensures { IfOk result (λ picks.
            let s = self.now.standing.now in
            picks ≡
            map
            (picks_on (M.measured s.table.now.measure) self.now.pair.first self.now.pair.second)
            (topics_under s.desk.now s.marks.now)) }
    {
        let standing = self.standing;
        let measure = standing.table.measure();
        let desk = standing.desk;
        let mut least = Vec::new(alloc);
        let mut most = Vec::new(alloc);
        let mut made = Vec::new(alloc);
        for topic in 0..desk.topic_count() {
            let a = desk.ranking(self.pair.first, topic);
            let b = desk.ranking(self.pair.second, topic);
            let marks = standing.marks.topic(topic);
            let next = picks(alloc, measure, a, b, marks, &mut least, &mut most)?;
            made.push(next)?;
        }
        Ok(PairPicks::new(made))
    }
}
