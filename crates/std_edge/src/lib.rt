//! Readers and writers of std as sources and sinks of texts, and the words of a command line.
#![tactic(auto)]

mod from_read;
mod streams;
mod to_write;
mod words;

pub use from_read::FromRead;
pub use streams::{Ended, Streams, end_without};
pub use to_write::ToWrite;
pub use words::{NoWords, borrowed, words_of};
