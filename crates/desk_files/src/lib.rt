//! What the files of the words say: a desk, and a certificate or a sheet; or sheets; or the first refusal.
#![tactic(auto)]

mod certificate;
mod check;
mod desk;
mod files;
mod laws;
mod limits;
mod load;
mod placing;
mod sheets;
mod stop;
mod taker;

pub use certificate::load_certificate;
pub use check::load_check;
pub use desk::load_desk;
pub use laws::merge_of_files_is_of_sheets;
pub use limits::limits_in_numbers;
pub use placing::load_placing;
pub use sheets::load_merged;
pub use stop::{Refusal, Stop};
