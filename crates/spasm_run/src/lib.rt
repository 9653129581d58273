//! The top call of the program: from words and bytes to an answer.
#![tactic(auto)]

mod command_answer;
mod commands;
mod numbered_text;
mod read_matrices;
mod running;
mod status;
mod summary;
mod written_pivots;

pub use commands::{LARGEST_INVERTED, fitting_workers};
pub use numbered_text::write_with_number;
pub use optimistic_search::{Gate, Open, Point};
pub use running::{run, run_within};
pub use spasm_words::{Command, Generator, Task, read_words};
pub use status::Status;
