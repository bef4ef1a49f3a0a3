// How many claims a table has, and how long they are without the lists of open pairs.
ghost use Rattle.std.specs.Prelude.{◌≡◌, ◌≢◌, ◌≤◌, ◌++◌, IfOk, OnOk};
ghost use Rattle.desk_model.specs.Desk.{topics_under};
ghost use Rattle.desk_model.specs.Verdict.{verdict};
ghost use Rattle.desk_model.specs.declared.types.Verdict.TheVariants.{Open as Undecided};
ghost use Rattle.order_bundle.specs.Bundle.{CLAIM_LIMIT};
ghost use Rattle.pair_table.specs.Sums.{pair_sums};
ghost use Rattle.table_bundle.specs.Bundles.{if_held};
ghost use Rattle.table_bundle.specs.Drafts.{draft_on, drafts_on};
ghost use Rattle.table_bundle.specs.Lengths.{open_on, open_pairs, IsCountOf};

use crate::pairs::NamedPair;
use crate::standing_table::{StandingPair, StandingPairs};
use desk_model::{Memory, Verdict};
use measure_core::Measure;
use order_bundle::length::{claim_length, runs_text_length};
use std::alloc::Global;

/// How many claims there are, and how many bytes their lines have without the lists of open pairs.
#[derive(Clone, Copy)]
pub struct ClaimCount {
    pub claims: u64,
    pub bytes: u64,
}

impl<'s, 'a, M: Measure> StandingPair<'s, 'a, M> {
    // Counts the claim on the pair, whose order is not open.
    fn count_settled(&self, alloc: Global) -> Result<ClaimCount, Memory>
        requires settled { let s = self.now.standing.now in
            verdict
            (pair_sums (M.cell_of s.table.now.measure) (topics_under s.desk.now s.marks.now)
            self.now.pair.first self.now.pair.second) ≢ Undecided }
        ensures count { let s = self.now.standing.now in
            IfOk result
            (IsCountOf
            (if_held (draft_on (M.cell_of s.table.now.measure) (M.measured s.table.now.measure)
            (topics_under s.desk.now s.marks.now) self.now.pair))) }
        ensures few { IfOk result (λ count. (count.claims ≤ 1) × (count.bytes ≤ 23000002000200)) }
    {
        self.standing.desk.valid();
        match self.claim(alloc)? {
            Some(claim) => Ok(ClaimCount {
                claims: 1,
                bytes: claim_length(&claim),
            }),
            None => Ok(ClaimCount {
                claims: 0,
                bytes: 0,
            }),
        }
    }

    // Counts the claim on the pair, and appends the pair where its order is open.
    fn count(&self, alloc: Global, undecided: &mut Vec<NamedPair>) -> Result<ClaimCount, Memory>
        ensures count { let s = self.now.standing.now in
            IfOk result
            (IsCountOf
            (if_held (draft_on (M.cell_of s.table.now.measure) (M.measured s.table.now.measure)
            (topics_under s.desk.now s.marks.now) self.now.pair))) }
        ensures few { IfOk result (λ count. (count.claims ≤ 1) × (count.bytes ≤ 23000002000200)) }
        ensures undecided { let s = self.now.standing.now in
            OnOk result (undecided.new.items ≡ undecided.old.items ++
            open_on (M.cell_of s.table.now.measure) (topics_under s.desk.now s.marks.now)
            self.now.pair) }
    {
        // The laws speak of desks, and of measures that have a name.
        let standing = self.standing;
        let _name = standing.table.measure().name();
        standing.desk.valid();
        let pair = self.pair;
        match standing.table.verdict(pair.first, pair.second) {
            Verdict::Open => {
                undecided.push(pair)?;
                let bytes = runs_text_length(pair.at.first, pair.at.second) + 12;
                Ok(ClaimCount { claims: 1, bytes })
            }
            _ => {
                let count = self.count_settled(alloc)?;
                Ok(count)
            }
        }
    }
}

impl<'s, 'a, M: Measure> StandingPairs<'s, 'a, M> {
    /// Counts the claims on the pairs, and answers those of them whose order is open.
    pub fn count_claims(&self, alloc: Global) -> Result<(ClaimCount, Vec<NamedPair>), Memory>
        ensures count { let s = self.now.standing.now in
            IfOk result (λ made.
            IsCountOf (drafts_on (M.cell_of s.table.now.measure) (M.measured s.table.now.measure)
            (topics_under s.desk.now s.marks.now) self.now.pairs.now) made.0) }
        ensures few { IfOk result (λ made. (made.0.claims ≤ CLAIM_LIMIT) ×
            (made.0.bytes ≤ 750720065286528000)) }
        ensures undecided { let s = self.now.standing.now in
            IfOk result (λ made. made.1.items ≡
            open_pairs (M.cell_of s.table.now.measure) (topics_under s.desk.now s.marks.now)
            self.now.pairs.now) }
    {
        let pairs = self.pairs;
        let mut undecided = Vec::new(alloc);
        let mut claims = 0;
        let mut bytes = 0;
        for pair in pairs {
            let pair = StandingPair {
                standing: self.standing,
                pair: *pair,
            };
            let count = pair.count(alloc, &mut undecided)?;
            claims += count.claims;
            bytes += count.bytes;
        }
        Ok((ClaimCount { claims, bytes }, undecided))
    }
}
