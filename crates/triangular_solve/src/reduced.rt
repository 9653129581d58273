// What a row is reduced to.
ghost use Rattle.triangular_solve.specs.Reduced.{SchurRowIsOne};

use sparse_rows::Sparse;

/// What the pivots of a triangle leave of a row, with the coefficients of their rows in the triangle's order.
#[derive(Debug, Drop)]
pub struct Reduced {
    /// What is left: 0 in all pivotal columns.
    pub rest: Sparse,
    /// The coefficients, as many as pivots.
    pub coefficients: Sparse,
}

/// For a prime modulus a row has at most one Schur row.
pub fn schur_row_is_one()
    ensures { SchurRowIsOne }
{}
