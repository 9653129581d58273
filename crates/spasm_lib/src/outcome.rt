// What comes of a system and of an inversion.
use sparse_rows::Rows;

/// What there is to say of A x = b.
#[derive(Debug, Drop)]
pub enum Solution {
    /// The reduced solution, as a column: of all solutions the one that is 0 at each column where a kernel basis row ends.
    Found(Rows),
    /// There is no solution. The row y shows it: y A = 0, and y b = 1.
    Refuted(Rows),
}

/// What there is to say of the inverse of a square matrix.
#[derive(Debug, Drop)]
pub enum Inverse {
    /// The inverse.
    Found(Rows),
    /// There is none. The row v shows it: A v = 0, and v isn't zero. It is the first row of the kernel basis.
    Singular(Rows),
}
