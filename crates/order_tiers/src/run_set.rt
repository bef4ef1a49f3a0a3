// Sets of runs.
ghost use Rattle.std.specs.Prelude.{◌≡◌, ◌≢◌, ◌<◌, ◌≤◌, ◌||◌, ◌&&◌, ℕ, false, true, length, slice_index, bit_or};
ghost use Rattle.desk_model.specs.Limits.{RUN_LIMIT};
ghost use Rattle.order_tiers.specs.Rows.{has};

use measure_core::has_bit;
use std::marker::Model;

const WORDS: usize = 4;

/// Which of so many runs are in a set, by their numbers from 0. A contract sees it as a truth value for each run.
#[derive(Drop)]
pub(crate) struct RunSet {
    runs: u32,
    // A bit for each run.
    words: [u64; WORDS],
}

impl Model for RunSet {
    ghost use Rattle.std.specs.Prelude.{List, Bool};
    ghost use Rattle.order_tiers.specs.Rows.{row_of, AreWords};

    ghost Value = { List Bool };

    ghost view = { λ s. row_of s.runs s.words };

    ghost invariant = { λ s. AreWords s.runs s.words };
}

// Puts the runs whose bits are set in others among those of some words.
fn join_words(words: &mut [u64; WORDS], others: &[u64; WORDS])
    ensures { (place : ℕ) →
        slice_index words.new place ≡
        bit_or (slice_index words.old place) (slice_index others.now place) }
{
    for place in 0..WORDS {
        words[place] |= others[place];
    }
}

impl RunSet {
    /// None of so many runs.
    pub fn new(runs: u32) -> RunSet
        requires { runs ≤ RUN_LIMIT }
        ensures count { length result ≡ runs }
        ensures none { (run : ℕ) → has result run ≡ false }
    {
        RunSet {
            runs,
            words: [0; WORDS],
        }
    }

    /// Whether a run is in the set.
    pub fn has(&self, run: u32) -> bool
        requires { run < length self.now }
        ensures { result ≡ has self.now run }
    {
        has_bit(&self.words, run)
    }

    /// Takes all runs out of the set.
    pub fn clear(&mut self)
        ensures count { length self.new ≡ length self.old }
        ensures none { (run : ℕ) → has self.new run ≡ false }
    {
        self.words = [0; WORDS];
    }

    /// Puts a run into the set.
    pub fn add(&mut self, run: u32)
        requires { run < length self.old }
        ensures count { length self.new ≡ length self.old }
        ensures added { has self.new run ≡ true }
        ensures others { (other : ℕ) → other ≢ run → has self.new other ≡ has self.old other }
    {
        self.words[run as usize / 64] |= 1 << (run % 64);
    }

    /// Puts all runs of another set into the set.
    pub fn add_all(&mut self, other: &RunSet)
        requires { length self.old ≡ length other.now }
        ensures count { length self.new ≡ length self.old }
        ensures joined { (run : ℕ) → has self.new run ≡ (has self.old run || has other.now run) }
    {
        join_words(&mut self.words, &other.words);
    }

    /// Where a run is in the set, puts all runs of another set into the set.
    pub fn add_through(&mut self, via: u32, leads: &RunSet)
        requires via { via < length self.old }
        requires lengths { length self.old ≡ length leads.now }
        ensures count { length self.new ≡ length self.old }
        ensures joined { (run : ℕ) →
            has self.new run ≡ (has self.old run || (has self.old via && has leads.now run)) }
    {
        if self.has(via) {
            self.add_all(leads);
        }
    }
}
