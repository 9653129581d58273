//! What pivots leave of a sparse matrix: the Schur complement, with the coefficients of the pivot rows where they are wanted,
//! by several workers or by the caller alone; and the laws by which factors, row space and rank of the matrix follow from those
//! of the complement.
//!
//! The pivots stand in triangular order, so a row is reduced by them without any division but by themselves. One such step is
//! a round of the elimination of Bouillaguet, Delaplace and Voge, 'Parallel Sparse PLUQ Factorization modulo p', PASCO 2017.
#![tactic(auto)]

mod chunk_size;
mod chunked_basis;
mod dealing;
mod dealt_rows;
mod numbered_part;
mod part_cuts;
mod pivot_numbers;
mod reduction_pass;
mod round;
mod row_ranges;
mod row_reducer;
mod sampling;
mod stage;
mod workers;

ghost use Rattle.schur_rows.specs.Laws.{ComplementIsOne, RoundJoins, RoundRank, RoundSpans};

pub use chunk_size::ChunkSize;
pub use chunked_basis::{rest_basis, rest_basis_by};
pub use dealing::Dealing;
pub use round::{SchurRows, complement, schur};
pub use row_reducer::RowReducer;
pub use sampling::{mean_reduced, mean_rest};

/// A matrix has at most one complement, for a prime modulus.
pub fn complement_is_one()
    ensures { ComplementIsOne }
{
    // The law's contract: a row has at most one Schur row.
    triangular_solve::schur_row_is_one();
}

/// Factors of what a round leaves join to factors of the matrix, for a prime modulus.
pub fn round_joins()
    ensures { RoundJoins }
{}

/// Independent rows with the row space of the complement give such rows of the matrix, for a prime modulus.
pub fn round_spans()
    ensures { RoundSpans }
{}

/// The rank of the complement gives that of the matrix, for a prime modulus.
pub fn round_rank()
    ensures { RoundRank }
{}
