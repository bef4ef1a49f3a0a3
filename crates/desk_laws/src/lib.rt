//! Laws over definitions: what follows for every call that meets what its words mean, what a session said, seen
//! from later, and the definitions tried on small cases that were worked out by hand, from the page of definitions
//! and from trec_eval's rules. Those of proofs/ go through all definitions, by subject; those that most rests on
//! are clauses.
#![tactic(auto)]

pub mod answers;
pub mod applied;
pub mod cases;
pub mod checks;
pub mod sessions;

pub use answers::{
    answer_is_one, good_files_are_answered, missing_file_is_outside, other_words_are_usage,
    refusal_is_told, statuses_are_few, texts_end_their_lines,
};
pub use applied::{applied_files_come_again, applying_twice_changes_nothing};
pub use checks::{all_pairs_are_accepted, all_pairs_pass};
pub use sessions::{
    certificates_are_accepted, checks_accept, files_come_again, grades_are_in_force,
    settled_words_stay,
};
