//! Dense elimination modulo a prime: valid factors of a matrix (the PLUQ form), by vectors of lanes and by threads.
#![tactic(auto)]

mod block;
mod elimination;
mod factors;
mod left_room;
mod panel_step;
mod pivots;
mod reduced_pieces;
mod right_factor;
mod row_room;
mod split_work;

pub use dense_rows::{axpy, axpy_narrow, axpy_plainly};
pub use elimination::finish;
pub use factors::Factors;
pub use right_factor::{RightFactor, finish_right};
pub use split_work::Finishing;
