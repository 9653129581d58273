//! Lists of columns and their places, sets of columns, parts of lists, and items put together by their keys.
//!
//! Nothing here knows of matrices or moduli.
#![tactic(auto)]

mod column_lists;
mod column_set;
mod consecutive_parts;
mod counting_sort;
mod list;
mod row_parts;
mod sizes;

pub use column_lists::{first_from, named_columns, occurring, place_of, places_among};
pub use column_set::ColumnSet;
pub use consecutive_parts::{append_starts, part};
pub use counting_sort::{PartStarts, all_starts, by_parts, counts, starts_in_order};
pub use list::List;
pub use row_parts::RowParts;
pub use sizes::LARGEST_SIZE;
