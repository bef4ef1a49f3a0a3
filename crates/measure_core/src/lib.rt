//! What a measure is, by a trait with laws, and what measures share on a topic: the rankings, the cells of all pairs
//! of runs, for measures that look at the documents that one of two runs alone has among its first k, and for those
//! that look at the ranks of the documents of both; and quick passes over two rankings, which add the weights of their
//! documents to totals or take them back, or list the documents that a least case makes relevant.
#![tactic(auto)]

pub mod bits;
pub mod by_ranks;
pub mod cases;
pub mod cell;
pub mod counting;
pub mod kept;
pub mod laws;
pub mod list_room;
pub mod lists;
pub mod maker;
pub mod marked;
pub mod measure;
pub mod one_side;
pub mod own_measure;
pub mod own_rows;
pub mod places;
pub mod rank_lists;
pub mod ranked_measure;
pub mod ranked_rows;
pub mod rankings;
pub mod room;
pub mod run_pair;
pub mod shift;
pub mod steps;
pub mod worths;

pub use bits::has_bit;
pub use by_ranks::shift_by_ranks;
pub use cases::{Picks, case_values};
pub use cell::Cell;
pub use counting::{ListSizes, count_by_ranks, count_list};
pub use kept::KeptCell;
pub use list_room::ListRoom;
pub use lists::push_added;
pub use maker::Maker;
pub use marked::{MarkedPair, MarkedPlaces, MarkedRankings, MarkedRun, RankedPair};
pub use measure::Measure;
pub use one_side::shift_one_side;
pub use own_measure::OwnMeasure;
pub use own_rows::own_cells;
pub use rank_lists::{RankTest, push_by_ranks};
pub use ranked_measure::{KeptPair, KeptSums, KeptWeights, RankedMeasure, SetApart};
pub use ranked_rows::{place_ranks, ranked_cells};
pub use rankings::TopicRankings;
pub use room::{BLOCK, CellRoom, Class, CrossScores, RunCandidates, RunSums, RunWeights};
pub use run_pair::RunPair;
pub use shift::Shift;
pub use steps::Steps;
pub use worths::{RankWorth, rank_or_none, worths_of};
