//! Factors, row space, rank and echelon form of a sparse matrix, by structural rounds and a finish.
//!
//! A round finds pivots without any arithmetic and leaves the complement, on which the next one works; what the last one leaves
//! is eliminated densely, or row by row where only rank or row space is wanted. The method is that of Bouillaguet, Delaplace and
//! Voge, 'Parallel Sparse PLUQ Factorization modulo p', PASCO 2017.
#![tactic(auto)]

mod basis;
mod basis_round;
mod by_rounds;
mod counted_round;
mod eliminating;
mod form_by_rounds;
mod measured;
mod occupancy;
mod plan;
mod policy;
mod rank_by_rounds;
mod reordered;
mod rest;
mod round;
mod round_pivots;

ghost use Rattle.pluq_factor.specs.Example.{AreWorkedFactors};
ghost use Rattle.pluq_factor.specs.Laws.{FactorsKeepRows, SelectedIsOne, StagedGoesOn};

pub use basis::row_basis;
pub use by_rounds::factor;
pub use dense_finish::Factors;
pub use eliminating::Eliminating;
pub use form_by_rounds::{form, form_of_basis};
pub use plan::Plan;
pub use rank_by_rounds::rank;

/// A matrix and the right factor of valid factors have one row space, for a prime modulus.
pub fn factors_keep_rows()
    ensures { FactorsKeepRows }
{}

/// What factors are, worked on an example of 3 x 3 and on a matrix of zeros.
pub fn factors_are_worked()
    ensures { AreWorkedFactors }
{}

/// A list begins with the pivots of at most one round, and what stands behind them is staged on the complement, for a prime
/// modulus.
pub fn staged_is_one()
    ensures selected { SelectedIsOne }
    ensures on { StagedGoesOn }
{
    // The law's contract: a matrix has at most one complement.
    schur_rows::complement_is_one();
}
