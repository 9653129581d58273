//! Sparse matrices of residues as compressed rows: what builds them, what is made of them, and single rows.
//!
//! Rows and columns count from 0, at most 2,147,483,648 of each. A matrix takes 12 bytes an entry and 8 a row;
//! where it has many more rows than entries, only the rows that have an entry are stored.
#![tactic(auto)]

mod builder;
mod entry_room;
mod filled_in_either;
mod rows;
mod sparse;
mod stored_rows;

pub use builder::RowsBuilder;
pub use column_lists::{ColumnSet, LARGEST_SIZE, List};
pub use entry_room::EntryRoom;
pub use filled_in_either::FilledInEither;
pub use rows::Rows;
pub use sparse::Sparse;
