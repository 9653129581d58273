// Rows that show the row space.
ghost use Rattle.std.specs.Prelude.{◌≡◌, ◌<◌, ◌≤◌, ◌+◌, IfOk};
ghost use Rattle.pluq_factor.specs.Basis.{IsBasis, IsStacked};

use crate::basis_round::{BasisRound, Bounds, Outcome, take_basis_round};
use crate::eliminating::Eliminating;
use crate::measured::Measured;
use crate::plan::Plan;
use crate::policy::{is_block, is_dense, is_full};
use crate::reordered::{Reordered, columns_in_order};
use crate::rest::Rest;
use dense_finish::{RightFactor, finish_right};
use echelon_form::Echelon;
use sparse_rows::{LARGEST_SIZE, Rows};
use std::alloc::{AllocError, Global};
use weight_order::last_first;

/// Rows of a matrix's row space, by a plan of at least one worker: for a prime modulus they are independent and span it. They are the
/// pivots' rows of each round, and those of the finish; no coefficients are kept. For a modulus that is not prime they are some
/// rows of that width.
///
/// The rows are taken from the last to the first, since a search then leaves much less of a boundary map. A round takes the leftmost
/// pivots and all that a search of one worker adds, by levels. If samples say that the first one would leave more than eight times the
/// entries of the matrix, and less if the rarest columns stand first, the rounds go about the matrix in that order, and the columns go
/// back behind the last; but not if the matrix has many more columns than entries. The rounds end with the plan, or when a fifth of what
/// is left isn't 0.
/// That is eliminated densely where it is small and dense, and else by the rows of its echelon form; or it is taken chunk by chunk into
/// a dense basis if this takes less memory. With no round there is the dense elimination alone, and so for a matrix of some size that is
/// a tenth full from the start.
pub fn row_basis<C: Eliminating>(
    crew: &C,
    alloc: Global,
    rows: &Rows,
    plan: Plan,
) -> Result<Rows, AllocError>
    requires able { C.can_work }
    requires some { 1 ≤ plan.workers }
    ensures { IfOk result (IsBasis rows.now.modulus rows.now.matrix) }
{
    let turned = last_first(alloc, rows)?;
    basis_by(crew, alloc, turned, plan)
}

// The same in the order in which the rows stand.
fn basis_by<C: Eliminating>(
    crew: &C,
    alloc: Global,
    rows: Rows,
    plan: Plan,
) -> Result<Rows, AllocError>
    requires able { C.can_work }
    requires some { 1 ≤ plan.workers }
    ensures { IfOk result (IsBasis rows.modulus rows.matrix) }
{
    if plan.rounds == 0 {
        return dense_basis(crew, alloc, rows, plan.workers);
    }
    let matrix = Measured::of(alloc, rows)?;
    if is_full(&matrix.occupancy) {
        let Measured { rows, .. } = matrix;
        return dense_basis(crew, alloc, rows, plan.workers);
    }
    let bounds = Bounds {
        rounds: plan.rounds,
        orders: 1,
    };
    basis_from(crew, alloc, matrix, plan.workers, bounds)
}

// The rows of a finish.
fn finished<C: Eliminating>(
    crew: &C,
    alloc: Global,
    matrix: Measured,
    workers: u32,
) -> Result<Rows, AllocError>
    requires able { C.can_work }
    requires some { 1 ≤ workers }
    ensures { IfOk result (IsBasis matrix.rows.modulus matrix.rows.matrix) }
{
    let Measured { rows, occupancy } = matrix;
    if is_block(&occupancy) {
        dense_basis(crew, alloc, rows, workers)
    } else {
        form_basis(crew, alloc, &rows, workers)
    }
}

// The rows of a dense elimination.
fn dense_basis<C: Eliminating>(
    crew: &C,
    alloc: Global,
    rows: Rows,
    workers: u32,
) -> Result<Rows, AllocError>
    requires able { C.can_work }
    requires some { 1 ≤ workers }
    ensures { IfOk result (IsBasis rows.modulus rows.matrix) }
{
    // The call's contract tells that the entries are residues.
    rows.is_sound();
    let RightFactor { u, .. } = finish_right(crew, alloc, rows, workers)?;
    Ok(u)
}

// The rows of the echelon form.
fn form_basis<C: Eliminating>(
    crew: &C,
    alloc: Global,
    rows: &Rows,
    workers: u32,
) -> Result<Rows, AllocError>
    requires able { C.can_work }
    requires some { 1 ≤ workers }
    ensures { IfOk result (IsBasis rows.now.modulus rows.now.matrix) }
{
    let form = Echelon::made_by(crew, alloc, rows, workers)?;
    let basis = form.into_rows();
    Ok(basis)
}

// The bounds behind one of so many rounds: none where a round is not worth its time.
fn bounds_behind(rest: &Measured, rounds: u32) -> Bounds
    requires some { 0 < rounds }
    ensures { result.rounds + result.orders < rounds }
{
    let more = if is_dense(&rest.occupancy) {
        0
    } else {
        rounds - 1
    };
    Bounds {
        rounds: more,
        orders: 0,
    }
}

// The rows by rounds within these bounds and the finish. The matrix is given up before the next round begins.
fn basis_from<C: Eliminating>(
    crew: &C,
    alloc: Global,
    matrix: Measured,
    workers: u32,
    bounds: Bounds,
) -> Result<Rows, AllocError>
    requires able { C.can_work }
    requires some { 1 ≤ workers }
    ensures { IfOk result (IsBasis matrix.rows.modulus matrix.rows.matrix) }
{
    // The call's contract tells how high a matrix is.
    matrix.rows.is_sound();
    match take_basis_round(crew, alloc, &matrix, workers, bounds)? {
        Outcome::Nothing => finished(crew, alloc, matrix, workers),
        Outcome::GivenUp(reordered) => {
            drop(matrix);
            let Reordered {
                matrix: other,
                places,
            } = reordered;
            let bounds = Bounds {
                rounds: bounds.rounds,
                orders: bounds.orders - 1,
            };
            let basis = basis_from(crew, alloc, other, workers, bounds)?;
            // The call's contract tells that the entries are residues.
            basis.is_sound();
            let whole = columns_in_order(alloc, &basis, &places)?;
            Ok(whole)
        }
        Outcome::Taken(BasisRound { top, rest }) => {
            drop(matrix);
            match rest {
                Rest::Basis(below) => with_below(top, &below),
                Rest::Stored(rows) => {
                    let rest = Measured::of(alloc, rows)?;
                    let bounds = bounds_behind(&rest, bounds.rounds);
                    let below = basis_from(crew, alloc, rest, workers, bounds)?;
                    // The call's contract tells that the entries are residues.
                    below.is_sound();
                    with_below(top, &below)
                }
            }
        }
    }
}

// The rows with others below them; without these where there would be more than a matrix has, which a prime modulus excludes.
fn with_below(top: Rows, below: &Rows) -> Result<Rows, AllocError>
    requires modulus { top.modulus ≡ below.now.modulus }
    requires width { top.matrix.width ≡ below.now.matrix.width }
    ensures { IfOk result (IsStacked top below.now) }
{
    let mut basis = top;
    if below.height() > LARGEST_SIZE - basis.height() {
        return Ok(basis);
    }
    basis.append_all(below)?;
    Ok(basis)
}
