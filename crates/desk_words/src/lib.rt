//! The command that the words of a command line say.
#![tactic(auto)]

pub mod command;
pub mod laws;
mod read;
mod value;

pub use command::{Check, Command, Job, Path, Placing, RunWord, RunWords, Sheets};
pub use command_line::WordsFault;
pub use laws::{
    command_is_unique, each_line_is_of_parts, empty_value_is_usage, flag_with_value_is_usage,
    help_is_usage, missing_value_is_usage, option_twice_is_usage, order_of_options_is_free,
    parts_say_the_command, unknown_name_is_usage,
};
pub use read::read_words;
