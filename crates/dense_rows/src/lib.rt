//! Dense rows of residues, by vectors of lanes: a multiple of one row added to another, and products of blocks of rows.
#![tactic(auto)]

mod dense;
mod lane_addition;
mod multiplier;
mod products;
mod residue;
mod row_addition;

pub use dense::Dense;
pub use products::{BLOCK_ROWS, Columns, Folding, PANEL, TILE_COLUMNS, TILE_ROWS, add_products};
pub use residue::Residue;
pub use row_addition::{axpy, axpy_narrow, axpy_plainly};
