// The total of a document.
ghost use Rattle.std.specs.Prelude.{◌≡◌, ◌<◌, length};
ghost use Rattle.next_document.specs.Proposal.{is_unsettled, pair_weight, total_weight};
ghost use Rattle.next_document.specs.Total.{AreHolders};

use crate::holders::Holders;
use crate::standing::{DocumentStanding, PairStanding};
use desk_model::{PairPlaces, Verdict};
use measure_core::Measure;

/// Whether the order of a pair is not settled.
pub fn is_unsettled(verdict: Verdict) -> bool
    ensures { result ≡ is_unsettled verdict }
{
    match verdict {
        Verdict::Open | Verdict::Close => true,
        Verdict::Above | Verdict::Below | Verdict::Equal => false,
    }
}

impl<'a, M: Measure> PairStanding<'a, M> {
    ghost use Rattle.next_document.specs.Shown.{shown_at, marks_at};

    /// The weight of a document of the topic in the pair. The measure is asked only where one of the two runs has it.
    fn weight_of(&self, doc: u32, holders: &Holders) -> u128
        requires doc { doc < length (marks_at self.now.topic) }
        requires holders { AreHolders self.now.topic.standing.on.desk.now self.now.topic.number doc
            holders.now }
        ensures { result ≡ pair_weight (shown_at M.measured self.now.topic) self.now.topic.number
            doc (self.now.pair.first, self.now.pair.second) }
    {
        let standing = self.topic.standing;
        let topic = self.topic.number;
        let pair = self.pair;
        standing.on.desk.valid();
        if holders[pair.first as usize] || holders[pair.second as usize] {
            let a = standing.on.desk.ranking(pair.first, topic);
            let b = standing.on.desk.ranking(pair.second, topic);
            standing
                .measure
                .weight(a, b, standing.on.marks.topic(topic), doc)
        } else {
            0
        }
    }
}

impl<'a, M: Measure> DocumentStanding<'a, M> {
    ghost use Rattle.next_document.specs.Shown.{shown_at};

    /// The sum of the document's weights over the pairs that are not settled. It asks each run once whether it has the
    /// document.
    pub fn total(&self) -> u128
        ensures { result ≡ total_weight (shown_at M.measured self.now.topic) self.now.topic.number
            self.now.number }
    {
        let standing = self.topic.standing;
        // The name of a measure can be made, so its weights are modest.
        let _name = standing.measure.name();
        let runs = standing.on.desk.run_count();
        let holders = self.holders();
        let mut pair = PairPlaces::START;
        let mut total = 0;
        for verdict in standing.verdicts {
            if is_unsettled(*verdict) {
                let here = PairStanding {
                    topic: self.topic,
                    pair,
                };
                total += here.weight_of(self.number, &holders);
            }
            pair = pair.next(runs);
        }
        total
    }
}
