//! Texts made of lines: which line may stand at a place depends on what the lines before it say.
#![tactic(auto)]

pub mod lines;
pub mod numbering;
pub mod parts;
pub mod places;

pub use lines::{FormFault, TextLines};
pub use numbering::line_number;
