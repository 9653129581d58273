//! Sources and sinks of bytes: what a call does to them, those in memory, what was taken from one and not yet used, and pieces written to one.
#![tactic(auto)]

mod buffer;
mod memory_sink;
mod memory_source;
mod steady_sink;
mod steady_source;
mod stream;
mod write;

pub use buffer::{Buffer, PULL_SIZE};
pub use memory_sink::MemorySink;
pub use memory_source::MemorySource;
pub use steady_sink::SteadySink;
pub use steady_source::SteadySource;
pub use stream::{Pulled, Put, Sink, Source};
pub use write::{WriteFault, put_all, write_number, write_text};
