//! The reduced row echelon form of a sparse matrix and its rank, in time and memory of the entries that elimination makes.
#![tactic(auto)]

mod echelon;
mod lead_order;
mod settle;
mod sparse_elimination;

pub use echelon::Echelon;
pub use settle::Settling;
pub use sparse_elimination::rank;
