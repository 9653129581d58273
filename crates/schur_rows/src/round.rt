// What one round leaves.
ghost use Rattle.std.specs.Prelude.{◌≡◌, ◌≤◌, IfOk};
ghost use Rattle.residue_words.specs.Residues.{IsPrime};
ghost use Rattle.triangular_solve.specs.Reduced.{IsComplement};
ghost use Rattle.schur_rows.specs.Round.{FitsComplement, FitsRound, IsRound};

use crate::dealing::Dealing;
use crate::row_reducer::RowReducer;
use crate::workers::left_by;
use crew::Threaded;
use sparse_rows::Rows;
use std::alloc::{AllocError, Global};
use std::thread::Threads;
use triangular_solve::Triangle;

/// What the pivots of a triangle leave of its matrix, and how often each of their rows was taken out: two matrices as high as
/// it is.
#[derive(Debug, Drop)]
pub struct SchurRows {
    /// The complement: of each row what the pivots leave of it, and zeros for their own rows.
    pub rows: Rows,
    /// Of each row the coefficients of the pivot rows, in the triangle's order; a pivot row has a 1 at itself.
    pub coefficients: Rows,
}

impl SchurRows {
    // The rows alone.
    pub(crate) fn into_rows(self) -> Rows
        ensures { result ≡ self.rows }
    {
        self.rows
    }
}

/// The complement with the coefficients, by so many workers, at least one: for a prime modulus the same for every number of them.
/// For a modulus that is not prime they are some matrices of these sizes.
///
/// Each worker reduces parts of the rows, in the time of `Triangle::reduce` for each row that has an entry and is no pivot's;
/// then the parts are put behind each other. Rows without an entry cost nothing where there are many. Where a thread cannot
/// be started the caller does its work.
pub fn schur<R: Threads + Sync>(
    rt: &R,
    alloc: Global,
    triangle: &Triangle,
    workers: u32,
) -> Result<SchurRows, AllocError>
    requires some { 1 ≤ workers }
    ensures fits { IfOk result (FitsRound triangle.now) }
    ensures round { IfOk result (λ s. IsPrime triangle.now.rows.modulus → IsRound triangle.now s) }
{
    // The calls' contracts tell that the pivots are triangular, and the entries residues.
    triangle.is_sound();
    triangle.rows().is_sound();
    let reducer = RowReducer::by_walks(triangle);
    left_by(&Threaded::of(rt), alloc, &reducer, workers, true)
}

/// The complement alone, by so many workers, at least one, in the way that the reducer has chosen.
pub fn complement<C: Dealing>(
    crew: &C,
    alloc: Global,
    reducer: &RowReducer,
    workers: u32,
) -> Result<Rows, AllocError>
    requires able { C.can_work }
    requires some { 1 ≤ workers }
    ensures fits { IfOk result (FitsComplement reducer.now) }
    ensures complement { IfOk result (λ rows. IsPrime reducer.now.rows.modulus →
        IsComplement reducer.now.rows.modulus
        reducer.now.rows.matrix reducer.now.pairs rows.matrix) }
{
    // The calls' contracts tell that the pivots are triangular, and the entries residues.
    reducer.is_sound();
    reducer.rows().is_sound();
    let left = left_by(crew, alloc, reducer, workers, false)?;
    Ok(left.into_rows())
}
