//! Traces: what the search for structural pivots published, in order, and how much each worker had seen.
//!
//! A trace is a claim of a run on a matrix: the pairs that were published, each with the number of pairs that its worker had seen when
//! it claimed the row. Whoever has the matrix can see by one walk a line whether each pair could be published where it stands, without
//! any elimination and whatever the workers were.
#![tactic(auto)]

mod laws;
mod publication;
mod reading;
mod replaying;
mod trace;
mod trace_title;
mod tracing;
mod writing;

pub use laws::{lawful_trace_is_triangular, traces_are_worked, written_trace_reads_back};
pub use publication::Publication;
pub use reading::read;
pub use replaying::replay;
pub use trace::Trace;
pub use tracing::trace_of;
pub use writing::write;
