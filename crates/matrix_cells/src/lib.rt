//! Values at places: brought in order, summed, and told as the rows that they will be.
#![tactic(auto)]

mod ordered_cells;
mod room;
mod rough_order;
mod sums_in_place;
mod values_at_places;

pub use ordered_cells::{OrderedCells, starts_of};
pub use room::{make_room, stores_every_row};
pub use rough_order::bring_near;
pub use sums_in_place::sum_cells;
pub use values_at_places::{
    Cell, columns, listed, place_of, renumbered, row_numbers, row_starts, values,
};
