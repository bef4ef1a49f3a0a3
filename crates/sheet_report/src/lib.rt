//! A sheet of assessors over a desk: the judgements in force under it, as a judgements file, and laws of them.
#![tactic(auto)]

mod applied;
mod laws;

pub use applied::applied_text;
pub use laws::{
    applying_again_changes_nothing, grades_under_are_grades, judgements_claim_nothing,
    sheet_texts_are_true,
};
