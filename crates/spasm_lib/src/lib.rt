//! What a program calls: exact answers of linear algebra modulo a prime for sparse matrices.
//!
//! Each call takes a `Team`, which says by whom and how it is worked out, and a matrix (`Rows`). `Team::of` has the threads of a runtime;
//! `Team::alone` starts none, and is taken by each call but `pivots`, `certificate` and `prepare`.
//!
//! A call answers by structural rounds: pivots that are found without arithmetic, what they leave of the matrix, and a dense or sparse
//! elimination of that. No answer depends on the number of workers but which pivots are chosen. The only error is out of memory. Modulo a
//! number that isn't prime each call is safe and answers with matrices of the sizes that its contract tells.
#![tactic(auto)]

mod certifying;
mod forms;
mod inverting;
mod outcome;
mod preparing;
mod selecting;
mod solving;
mod team;

pub use cert_checker::check;
pub use certificates::{CertKind, Certificate, Claim};
pub use certifying::certificate;
pub use crew::{Alone, Threaded};
pub use forms::{kernel, left_kernel, rank, rref};
pub use inverting::inverse;
pub use kernel_solve::{Prepared, Reply};
pub use optimistic_search::{Gate, Open};
pub use outcome::{Inverse, Solution};
pub use pluq_factor::Eliminating;
pub use preparing::prepare;
pub use residue_words::Modulus;
pub use residue_words::plain::Pair;
pub use selecting::pivots;
pub use solving::solve;
pub use sparse_rows::Rows;
pub use team::Team;
