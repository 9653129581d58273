//! Rows with distinct leads, and sums by column: how a row is reduced by rows that are kept.
//!
//! A reduction costs the entries of the kept rows that it uses, and a step for each 4096 columns. For any modulus what is left of a row
//! differs from it by a combination of the kept rows; only that a row which is inserted spans, with the kept rows, what they span
//! afterwards needs a prime one.
#![tactic(auto)]

mod accumulator;
mod leads;
mod led;
mod touched_sums;

pub use accumulator::Accumulator;
pub use leads::Leads;
pub use touched_sums::TouchedSums;
