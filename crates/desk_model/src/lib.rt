//! The plain types that all crates share, the definitions that their contracts cite, the pool of a depth, and
//! numbers and names of measures as text.
#![tactic(auto)]

pub mod book;
pub mod desk;
mod document_names;
mod file_grades;
mod file_marks;
pub mod grading;
pub mod laws;
pub mod limits;
pub mod marks;
pub mod measure_text;
pub mod name;
pub mod number_text;
pub mod pairs;
pub mod placed;
mod pool;
pub mod ranking;
mod topic_pool;
pub mod types;

pub use book::TopicBook;
pub use desk::Desk;
pub use desk_memory::Memory;
pub use file_grades::BlockedGrades;
pub use grading::mark;
pub use limits::MOST_RUNS;
pub use marks::{Marks, Rows};
pub use measure_text::{UnknownMeasure, measure_of_text_is_unique, read_measure};
pub use name::{Name, NameFault};
pub use number_text::{
    push_digits_after_first, push_grade, push_measure, push_number, push_signed, push_whole,
};
pub use pairs::PairPlaces;
pub use placed::Placed;
pub use pool::{PoolCount, pool_count};
pub use ranking::Ranking;
pub use types::{Mark, MeasureName, Totals, Verdict, verdict_of};
