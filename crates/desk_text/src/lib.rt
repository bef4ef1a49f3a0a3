//! Lines of a text, fields of a line, numbers in digits, and exact decimal scores: their texts, their order and
//! their faults. Only `Lines::new` takes memory.
#![tactic(auto)]

mod arriving;
mod field;
mod key;
mod laws;
mod line;
mod mantissa;
mod number;
mod places;
mod score;
mod significand;
mod spaced;
mod spelling;
mod stops;

pub use arriving::{Lines, Pushed};
pub use desk_memory::Memory;
pub use field::{fields, is_blank};
pub use laws::{
    a_line_feed_ends_a_line, bytes_of_a_line_end_none, lines_are_whole_or_last,
    pieces_do_not_matter, pushes_keep_the_line,
};
pub use line::{LONGEST_LINE, Line, next_line};
pub use number::{plain, plain_is_decimal, whole};
pub use places::{BadByte, Fields};
pub use score::{Score, ScoreFault, read_score};
