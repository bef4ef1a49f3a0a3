ghost use Rattle.std.specs.Prelude.{◌≡◌, ◌+◌, ◌*◌, ◌/◌, length, IfOk};

use desk_model::Mark;
use std::alloc::{AllocError, Global};
use topic_counts::counts::Counts;

/// The sums of the weights of a run's documents on a topic, in parts of 10^18, those of the weights
/// rounded down and of the weights rounded up.
#[derive(Clone, Copy, PartialEq, Eq)]
pub struct RunWeights {
    /// Of the relevant documents.
    pub relevant_low: u64,
    pub relevant_high: u64,
    /// Of the relevant and the unjudged documents.
    pub possible_low: u64,
    pub possible_high: u64,
}

impl RunWeights {
    /// Those of no document.
    pub const NONE: RunWeights = RunWeights {
        relevant_low: 0,
        relevant_high: 0,
        possible_low: 0,
        possible_high: 0,
    };
}

/// How many documents of a run a block has.
pub const BLOCK: u32 = 10;

/// Sums over a run's first documents on a topic, of what a measure likes to add up: for each number of
/// blocks, from 0 to as many as the longest run has, over the documents of so many first blocks.
#[derive(Clone, Copy)]
pub struct RunSums {
    pub numbers: [u32; 1001],
}

impl RunSums {
    /// Sums of nothing.
    pub const NONE: RunSums = RunSums { numbers: [0; 1001] };
}

/// In which of the two completions that are chosen for a run, where its score is greatest and where it is least, a
/// document is relevant.
#[derive(Clone, Copy, PartialEq, Eq)]
pub enum Class {
    Neither,
    High,
    Low,
    Both,
}

/// What is kept of a run on a topic, and of the two completions that are chosen for it: where its score is greatest,
/// and where it is least. Scores are in parts of 10^18.
#[derive(Clone, Copy, PartialEq, Eq)]
pub struct RunCandidates {
    /// The bounds of the run's score.
    pub lo: u128,
    pub hi: u128,
    /// The run's score where it is greatest, rounded down, and where it is least, rounded up.
    pub low_in_high: u128,
    pub high_in_low: u128,
    /// How many documents are relevant in each of the two.
    pub in_high: u32,
    pub in_low: u32,
    /// How many of the run's unjudged documents, by rank, the first makes relevant, and how many the second does not.
    pub taken: u32,
    pub left_out: u32,
}

impl RunCandidates {
    /// Those of no run.
    pub const NONE: RunCandidates = RunCandidates {
        lo: 0,
        hi: 0,
        low_in_high: 0,
        high_in_low: 0,
        in_high: 0,
        in_low: 0,
        taken: 0,
        left_out: 0,
    };
}

/// A ranking's scores in the two completions that are chosen for a run, in parts of 10^18: rounded up where the run's
/// score is greatest, and down where it is least.
#[derive(Clone, Copy, PartialEq, Eq)]
pub struct CrossScores {
    pub in_high: u128,
    pub in_low: u128,
}

impl CrossScores {
    /// Those of no ranking.
    pub const NONE: CrossScores = CrossScores {
        in_high: 0,
        in_low: 0,
    };
}

/// Room for what a measure keeps while it finds the cells of all pairs on a topic. What it holds
/// between two topics is anything, and a measure does without it on a topic that it is too small for.
#[derive(Drop)]
pub struct CellRoom {
    /// A mark for each document.
    pub marks: Vec<Mark>,
    /// A bit for each document, 64 in each number.
    pub bits: Vec<u64>,
    /// A rank for each document, from 1, and 0 for none.
    pub ranks: Vec<u32>,
    /// Counts for each run.
    pub counts: Vec<Counts>,
    /// Weights for each run.
    pub weights: Vec<RunWeights>,
    /// Sums for each run.
    pub sums: Vec<RunSums>,
    /// A class for each document.
    pub classes: Vec<Class>,
    /// Candidates for each run.
    pub candidates: Vec<RunCandidates>,
    /// Scores for each two runs, those of one in the completions that are chosen for the other.
    pub crossed: Vec<CrossScores>,
}

impl CellRoom {
    /// Room for topics of so many documents and runs, and for smaller ones.
    pub fn new(alloc: Global, documents: u32, runs: u32) -> Result<CellRoom, AllocError>
        ensures marks { IfOk result (λ room. length room.marks.items ≡ documents) }
        ensures bits { IfOk result (λ room. length room.bits.items ≡ documents / 64 + 1) }
        ensures ranks { IfOk result (λ room. length room.ranks.items ≡ documents) }
        ensures counts { IfOk result (λ room. length room.counts.items ≡ runs) }
        ensures weights { IfOk result (λ room. length room.weights.items ≡ runs) }
        ensures sums { IfOk result (λ room. length room.sums.items ≡ runs) }
        ensures classes { IfOk result (λ room. length room.classes.items ≡ documents) }
        ensures candidates { IfOk result (λ room. length room.candidates.items ≡ runs) }
        ensures crossed { IfOk result (λ room. length room.crossed.items ≡ runs * runs) }
    {
        let marks = vec![in alloc; Mark::Other; documents as usize]?;
        let bits = vec![in alloc; 0u64; documents as usize / 64 + 1]?;
        let ranks = vec![in alloc; 0u32; documents as usize]?;
        let counts = vec![in alloc; Counts::NONE; runs as usize]?;
        let weights = vec![in alloc; RunWeights::NONE; runs as usize]?;
        let sums = vec![in alloc; RunSums::NONE; runs as usize]?;
        let classes = vec![in alloc; Class::Neither; documents as usize]?;
        let candidates = vec![in alloc; RunCandidates::NONE; runs as usize]?;
        let crossed = vec![in alloc; CrossScores::NONE; runs as usize * runs as usize]?;
        Ok(CellRoom {
            marks,
            bits,
            ranks,
            counts,
            weights,
            sums,
            classes,
            candidates,
            crossed,
        })
    }
}
