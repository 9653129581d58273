//! Elimination with sparse rows: rows are kept with distinct leads, and other rows are reduced by them.
//!
//! The cost of a reduction is the entries of the kept rows that it uses, and a step for each 4096 columns.
//! For any modulus what is left of a row differs from it by a combination of the kept rows; only that a row which is
//! inserted spans, with the kept rows, what they span afterwards needs a prime one.
#![tactic(auto)]

mod ascending_columns;
mod column_marks;
mod column_order;
mod flat_estimate;
mod flat_rows;
mod flat_triangle;
mod pivot_rows;
mod placed_entries;
mod reduced;
mod row_entries;
mod scattered_rows;
mod triangle;
mod work;

pub use flat_triangle::FlatTriangle;
pub use lead_rows::{Accumulator, Leads};
pub use reduced::{Reduced, schur_row_is_one};
pub use triangle::{Triangle, triangular_order_is_one};
pub use work::Work;
