//! What the words of the command line ask for: the commands, their options, and the matrix that `drill` generates.
#![tactic(auto)]

mod command;
pub mod command_line;
mod command_words;
mod generator;
mod options;
mod random_numbers;

pub use command::{Command, Task};
pub use command_words::read_words;
pub use generator::{Generator, LARGEST_GENERATED, MOST_PER_ROW, generated_example};
pub use options::{has_dashes, number_of, taken_by};
