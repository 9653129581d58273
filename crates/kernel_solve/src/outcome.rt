// What becomes of an inversion.
use sparse_rows::Rows;

/// What there is to say of the inverse of a square matrix.
#[derive(Debug, Drop)]
pub enum Inverse {
    /// It is this.
    Of(Rows),
    /// There is none: this row is a null vector, the first of the kernel basis.
    Singular(Rows),
}
